// Writing one frame at an offset of a lent buffer, without a station.
#![tactic(auto)]

ghost use Rattle.std.specs.Prelude.{◌≡◌, ◌+◌, ◌≤◌, length};
ghost use Rattle.frame.specs.Forbidden.{is_sized, is_askable, has_wrong_size, lacks_software_id, names_no_feature, is_forbidden_frame};
ghost use Rattle.frame.specs.FrameContracts.{head_size, framed, dj_head, written_outcome};
ghost use Rattle.frame.specs.Writing.{pasted, frame_at, fits_at, request_frame, request_frame_rule, switch_rule, get_paired_rule, led_rule, request_id, has_reserved_bits};

use report::{Device, FeatureIndex, Refusal};

// Parameters of a short request, and of a long one.
pub const SHORT_PARAMS: usize = 3;

pub const LONG_PARAMS: usize = 16;

// Sub ids and DJ types, as bytes: see crate report.
pub const SET_REGISTER: u8 = 0x80;

pub const GET_REGISTER: u8 = 0x81;

pub const SET_LONG_REGISTER: u8 = 0x82;

pub const GET_LONG_REGISTER: u8 = 0x83;

pub const SWITCH: u8 = 0x80;

pub const GET_PAIRED: u8 = 0x81;

// Bytes 0 to 3 of a frame.
pub const HEAD: usize = 4;

// The other bytes of a short DJ frame.
const DJ_REST: usize = 11;

// Whether `size` bytes fit between the offset and the end of a buffer of `room` bytes.
pub fn fits(size: usize, offset: usize, room: usize) -> bool
    ensures fitting { result ≡ fits_at size offset room }
{
    offset <= room && size <= room - offset
}

// A register request at a size that its sub id does not have.
fn has_wrong_size(byte2: FeatureIndex, size: usize) -> bool
    ensures { result ≡ has_wrong_size byte2.0 size }
{
    match byte2.0 {
        SET_LONG_REGISTER => size == SHORT_PARAMS,
        SET_REGISTER | GET_REGISTER | GET_LONG_REGISTER => size == LONG_PARAMS,
        _ => false,
    }
}

// A GetFeature request for no feature.
fn names_no_feature(byte2: FeatureIndex, byte3: u8, params: &[u8]) -> bool
    ensures { result ≡ names_no_feature byte2.0 byte3 params.now }
{
    byte2.0 == 0
        && byte3 / 16 == 0
        && report::byte_at(params, 0) == 0
        && report::byte_at(params, 1) == 0
}

// Whether a request has this number of parameters.
fn is_sized(size: usize) -> bool
    ensures { result ≡ is_sized size }
{
    size == SHORT_PARAMS || size == LONG_PARAMS
}

// A HID++ 2.0 request without a software id: its reply would pass for an event.
fn lacks_software_id(byte2: FeatureIndex, byte3: u8) -> bool
    ensures { result ≡ lacks_software_id byte2.0 byte3 }
{
    byte2.0 < report::SUB_IDS && byte3 % 16 == 0
}

// Whether byte 2 is a feature index or a sub id of a register request.
fn is_askable(byte2: FeatureIndex) -> bool
    ensures { result ≡ is_askable byte2.0 }
{
    byte2.0 < report::SUB_IDS || report::within(SET_REGISTER, byte2.0, GET_LONG_REGISTER)
}

// 01, Number 9, except for the ticks.
#[tactic(auto, unfolding(crate::specs::Forbidden::is_forbidden_frame))]
pub fn is_forbidden_frame(byte2: FeatureIndex, byte3: u8, params: &[u8]) -> bool
    ensures forbidden { result ≡ is_forbidden_frame byte2.0 byte3 params.now }
{
    !is_sized(params.len())
        || !is_askable(byte2)
        || has_wrong_size(byte2, params.len())
        || lacks_software_id(byte2, byte3)
        || names_no_feature(byte2, byte3, params)
}

// Bytes 0 to 3 of a frame. Byte 2 is a feature index, a sub id or a DJ type.
#[derive(Clone, Copy)]
struct Head {
    id: u8,
    device: Device,
    byte2: u8,
    byte3: u8,
}

// Fills the front of a part of the buffer with one frame.
fn fill(part: &mut [u8], head: Head, rest: &[u8])
    requires { head_size + length rest.now ≤ length part.old }
    ensures { part.new ≡ pasted (framed head rest.now) 0 part.old }
{
    part[0] = head.id;
    part[1] = head.device.0;
    part[2] = head.byte2;
    part[3] = head.byte3;
    for (i, byte) in rest.iter().enumerate() {
        part[HEAD + i] = *byte;
    }
}

// Writes the frame at its offset, or answers 10.
fn write_at(head: Head, rest: &[u8], buffer: &mut [u8], offset: usize) -> Result<usize, Refusal>
    ensures { written_outcome result buffer.new ≡ frame_at (framed head rest.now) offset buffer.old }
{
    let size = HEAD + rest.len();
    if !fits(size, offset, buffer.len()) {
        return Err(Refusal::NoRoom);
    }
    fill(&mut buffer[offset..], head, rest);
    Ok(size)
}

// The id of a request with this number of parameters.
fn request_id(size: usize) -> u8
    ensures { result ≡ request_id size }
{
    if size == SHORT_PARAMS {
        report::HIDPP_SHORT
    } else {
        report::HIDPP_LONG
    }
}

// Bits 6 and 7 of the switch command's device bits name no device.
fn has_reserved_bits(bits: u8) -> bool
    ensures { result ≡ has_reserved_bits bits }
{
    bits / 64 % 2 == 1 || bits / 128 % 2 == 1
}

// Writes a request frame that is not asked about: refusal 10.
pub fn write_request(
    device: Device,
    byte2: FeatureIndex,
    byte3: u8,
    params: &[u8],
    buffer: &mut [u8],
    offset: usize,
) -> Result<usize, Refusal>
    ensures outcome { written_outcome result buffer.new ≡ frame_at (request_frame device.0 byte2.0 byte3 params.now) offset buffer.old }
{
    let head = Head {
        id: request_id(params.len()),
        device,
        byte2: byte2.0,
        byte3,
    };
    write_at(head, params, buffer, offset)
}

// Writes a request frame: refusals 5, 9 and 10.
#[tactic(auto, unfolding(crate::specs::Writing::request_frame_rule))]
pub fn request_frame(
    device: Device,
    byte2: FeatureIndex,
    byte3: u8,
    params: &[u8],
    buffer: &mut [u8],
    offset: usize,
) -> Result<usize, Refusal>
    ensures outcome { written_outcome result buffer.new ≡ request_frame_rule device.0 byte2.0 byte3 params.now offset buffer.old }
{
    if !report::is_port(device) {
        return Err(Refusal::NoSuchPort);
    }
    if is_forbidden_frame(byte2, byte3, params) {
        return Err(Refusal::Forbidden);
    }
    write_request(device, byte2, byte3, params, buffer, offset)
}

#[tactic(auto, unfolding(crate::specs::FrameContracts::dj_head))]
fn dj_head(device: Device, kind: u8, p0: u8) -> Head
    ensures { result ≡ dj_head device.0 kind p0 }
{
    Head {
        id: report::DJ_SHORT,
        device,
        byte2: kind,
        byte3: p0,
    }
}

// Writes the switch command: refusals 14 and 10.
#[tactic(auto, using(crate::proofs::WritingLaws::dj_frame), unfolding(crate::specs::Writing::switch_rule))]
pub fn switch_frame(
    bits: u8,
    timeout: u8,
    buffer: &mut [u8],
    offset: usize,
) -> Result<usize, Refusal>
    ensures outcome { written_outcome result buffer.new ≡ switch_rule bits timeout offset buffer.old }
{
    if has_reserved_bits(bits) {
        return Err(Refusal::ReservedBits);
    }
    let mut rest = [0; DJ_REST];
    rest[0] = timeout;
    write_at(
        dj_head(Device(report::RECEIVER), SWITCH, bits),
        &rest,
        buffer,
        offset,
    )
}

// Writes the command that asks for the paired devices: refusal 10.
#[tactic(auto, using(crate::proofs::WritingLaws::dj_frame), unfolding(crate::specs::Writing::get_paired_rule))]
pub fn get_paired_frame(buffer: &mut [u8], offset: usize) -> Result<usize, Refusal>
    ensures outcome { written_outcome result buffer.new ≡ get_paired_rule offset buffer.old }
{
    let rest = [0; DJ_REST];
    write_at(
        dj_head(Device(report::RECEIVER), GET_PAIRED, 0),
        &rest,
        buffer,
        offset,
    )
}

// Writes the keyboard LEDs of a device: refusals 5 and 10.
#[tactic(auto, using(crate::proofs::WritingLaws::dj_frame), unfolding(crate::specs::Writing::led_rule))]
pub fn led_frame(
    device: Device,
    leds: u8,
    buffer: &mut [u8],
    offset: usize,
) -> Result<usize, Refusal>
    ensures outcome { written_outcome result buffer.new ≡ led_rule device.0 leds offset buffer.old }
{
    if !report::is_device(device) {
        return Err(Refusal::NoSuchPort);
    }
    let rest = [0; DJ_REST];
    write_at(
        dj_head(device, report::DJ_LEDS, leds),
        &rest,
        buffer,
        offset,
    )
}
