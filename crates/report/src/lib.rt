// One report on its own: the two sorts of byte, the refusals, and reading without a station.
#![tactic(auto)]

ghost use Rattle.std.specs.Prelude.{◌≡◌, ◌≤◌, length};
ghost use Rattle.report.specs.Ports.{in_range, is_device, is_port};
ghost use Rattle.report.specs.Sizes.{length_of, is_hidpp, shortest_size, byte, joined2, joined4};
ghost use Rattle.report.specs.Reading.{read_rule, family_rule, hidpp_rule, dj_rule, is_reserved, goes_down, is_empty_list, has_port};
ghost use Rattle.report.specs.ReportContracts.{number_of, length_found, hidpp_of, dj_of, reading_of};

pub mod radio;

// A device number: byte 1 of every report. 1 to 6 are the paired devices, 255 is the receiver.
#[derive(Clone, Copy, PartialEq, Eq)]
pub struct Device(pub u8);

// A feature index, or a sub id of HID++ 1.0: byte 2 of a HID++ report.
#[derive(Clone, Copy, PartialEq, Eq)]
pub struct FeatureIndex(pub u8);

// Why a call was refused, by its number. 01, "Refusal numbers", in the order of its table, and then what 02 adds.
#[derive(Clone, Copy, PartialEq, Eq)]
pub enum Refusal {
    EmptyReport = 1,
    UnknownId = 2,
    WrongLength = 3,
    DownOnly = 4,
    NoSuchPort = 5,
    ReservedSubId = 6,
    NotPaired = 7,
    NotDeclared = 8,
    Forbidden = 9,
    NoRoom = 10,
    AlreadyWaiting = 11,
    PlacesFull = 12,
    NotWaiting = 13,
    ReservedBits = 14,
    OtherEdition = 15,
    BrokenLine = 16,
    DirtyPadding = 17,
}

// The number of document 01, or 02.
impl From<Refusal> for u8 {
    ghost from_gives = { λ refusal number. number ≡ number_of refusal };

    fn from(refusal: Refusal) -> u8 {
        refusal as u8
    }
}

// The ids, types and sub ids are bytes, and no enums: a report may have any, and C is given them as they are (the fields `id` and `byte2` of `blotterfinch_report`).
pub const HIDPP_SHORT: u8 = 0x10;

pub const HIDPP_LONG: u8 = 0x11;

pub const DJ_SHORT: u8 = 0x20;

pub const DJ_LONG: u8 = 0x21;

// DJ types. Radio reports are those below DJ_UNPAIRED, notifications those below DJ_COMMANDS.
pub const DJ_LEDS: u8 = 0x0e;

pub const DJ_UNPAIRED: u8 = 0x40;

pub const DJ_PAIRED: u8 = 0x41;

pub const DJ_CONNECTION: u8 = 0x42;

pub const DJ_COMMANDS: u8 = 0x80;

// Byte 2 of a HID++ report: below SUB_IDS a feature index, below REGISTERS the sub id of a notification.
pub const SUB_IDS: u8 = 0x40;

pub const REGISTERS: u8 = 0x80;

// Where the parameters start.
pub const HIDPP_START: u8 = 4;

pub const DJ_START: u8 = 3;

// Devices that can be paired are numbered from 1.
pub const DEVICES: u8 = 6;

pub const RECEIVER: u8 = 255;

// A HID++ report: its bytes 0 to 3, and where its parameters lie.
#[derive(Clone, Copy)]
pub struct HidppReport {
    pub id: u8,
    pub device: Device,
    pub byte2: FeatureIndex,
    pub byte3: u8,
    pub start: u8,
    pub length: u8,
}

// A DJ report: its bytes 0 to 3, byte 2 being the type and byte 3 the first parameter. A type of its own, and not the one above over a type parameter: its bytes 2 and 3 have other names.
#[derive(Clone, Copy)]
pub struct DjReport {
    pub id: u8,
    pub device: Device,
    pub kind: u8,
    pub p0: u8,
    pub start: u8,
    pub length: u8,
}

// What a report holds.
#[derive(Clone, Copy)]
pub enum Reading {
    Hidpp(HidppReport),
    Dj(DjReport),
    // A list of the paired devices that has none. It is for no port.
    EmptyList(DjReport),
}

// The byte at an offset, or 0 past the end.
pub fn byte_at(bytes: &[u8], offset: usize) -> u8
    ensures byte { result ≡ byte bytes.now offset }
{
    bytes.get(offset).copied().unwrap_or(0)
}

// Two bytes as one number, the lowest first.
pub fn join2(a: u8, b: u8) -> u16
    ensures joined { result ≡ joined2 a b }
{
    u16::from_le_bytes([a, b])
}

// Four bytes as one number, the lowest first.
pub fn join4(a: u8, b: u8, c: u8, d: u8) -> u32
    ensures joined { result ≡ joined4 a b c d }
{
    u32::from_le_bytes([a, b, c, d])
}

// Whether lo <= x <= hi.
pub fn within(lo: u8, x: u8, hi: u8) -> bool
    ensures inside { result ≡ in_range lo x hi }
{
    lo <= x && x <= hi
}

// Whether the number is that of a device that can be paired.
pub fn is_device(device: Device) -> bool
    ensures named { result ≡ is_device device.0 }
{
    within(1, device.0, DEVICES)
}

// Whether the number is that of a device or of the receiver.
pub fn is_port(device: Device) -> bool
    ensures named { result ≡ is_port device.0 }
{
    is_device(device) || device.0 == RECEIVER
}

// The length of a report with this id, where a report has it.
#[tactic(auto, unfolding(crate::specs::Sizes::length_of))]
pub fn length_of(id: u8) -> Option<u8>
    ensures length { result ≡ length_found id }
{
    match id {
        HIDPP_SHORT => Some(7),
        HIDPP_LONG => Some(20),
        DJ_SHORT => Some(15),
        DJ_LONG => Some(32),
        _ => None,
    }
}

// Whether the id is one of HID++'s two.
pub fn is_hidpp(id: u8) -> bool
    ensures family { result ≡ is_hidpp id }
{
    id == HIDPP_SHORT || id == HIDPP_LONG
}

// The sub ids that no device sends.
fn is_reserved(byte2: FeatureIndex) -> bool
    ensures { result ≡ is_reserved byte2.0 }
{
    within(0x84, byte2.0, 0x8e) || within(0x90, byte2.0, 0xfe)
}

#[tactic(auto, unfolding(crate::specs::Reading::hidpp_rule))]
fn read_hidpp(report: HidppReport) -> Result<Reading, Refusal>
    ensures { reading_of result ≡ hidpp_rule (hidpp_of report) }
{
    if !is_port(report.device) {
        return Err(Refusal::NoSuchPort);
    }
    if is_reserved(report.byte2) {
        return Err(Refusal::ReservedSubId);
    }
    Ok(Reading::Hidpp(report))
}

// The DJ types that only go down: commands, and the keyboard LEDs.
fn goes_down(kind: u8) -> bool
    ensures { result ≡ goes_down kind }
{
    DJ_COMMANDS <= kind || kind == DJ_LEDS
}

// Whether a DJ report says that no device is paired.
fn is_empty_list(kind: u8, p0: u8) -> bool
    ensures { result ≡ is_empty_list kind p0 }
{
    kind == DJ_PAIRED && p0 / 2 % 2 == 1
}

// Whether a DJ report of this type is for the device.
fn has_port(device: Device, kind: u8) -> bool
    ensures { result ≡ has_port device.0 kind }
{
    if kind <= DJ_CONNECTION {
        is_device(device)
    } else {
        is_port(device)
    }
}

// The index of an empty list is not looked at.
#[tactic(auto, unfolding(crate::specs::Reading::dj_rule))]
fn read_dj(report: DjReport) -> Result<Reading, Refusal>
    ensures { reading_of result ≡ dj_rule (dj_of report) }
{
    if goes_down(report.kind) {
        return Err(Refusal::DownOnly);
    }
    if is_empty_list(report.kind, report.p0) {
        return Ok(Reading::EmptyList(report));
    }
    if !has_port(report.device, report.kind) {
        return Err(Refusal::NoSuchPort);
    }
    Ok(Reading::Dj(report))
}

// Reads a report that has the length of its id.
#[tactic(auto, unfolding(crate::specs::Reading::family_rule, crate::specs::Reading::report_from))]
fn read_sized(bytes: &[u8], size: u8) -> Result<Reading, Refusal>
    requires whole { length bytes.now ≡ size }
    requires long { shortest_size ≤ size }
    ensures { reading_of result ≡ family_rule bytes.now }
{
    let id = bytes[0];
    let device = Device(bytes[1]);
    if is_hidpp(id) {
        read_hidpp(HidppReport {
            id,
            device,
            byte2: FeatureIndex(bytes[2]),
            byte3: bytes[3],
            start: HIDPP_START,
            length: size - HIDPP_START,
        })
    } else {
        read_dj(DjReport {
            id,
            device,
            kind: bytes[2],
            p0: bytes[3],
            start: DJ_START,
            length: size - DJ_START,
        })
    }
}

// Reads one report: the refusals 1 to 6, or what it holds.
#[tactic(auto, unfolding(crate::specs::Reading::read_rule))]
pub fn read(bytes: &[u8]) -> Result<Reading, Refusal>
    ensures reading { reading_of result ≡ read_rule bytes.now }
{
    if bytes.is_empty() {
        return Err(Refusal::EmptyReport);
    }
    let Some(size) = length_of(bytes[0]) else {
        return Err(Refusal::UnknownId);
    };
    if bytes.len() != usize::from(size) {
        return Err(Refusal::WrongLength);
    }
    read_sized(bytes, size)
}
