// A request at its port: its frame is written, and it waits.
#![tactic(auto)]

ghost use Rattle.std.specs.Prelude.{◌≡◌, ◌%◌};
ghost use Rattle.request.specs.Requesting.{is_forbidden, waiting_request};
ghost use Rattle.request.specs.RequestContracts.{checked_request, refused_with, requested_of};

use port::{Called, FirstParameters, Port, Request, waiting};
use report::{Device, FeatureIndex, Refusal};

const MAX_TICKS: u16 = 255;

// 01, Number 9.
fn is_forbidden(byte2: FeatureIndex, byte3: u8, ticks: u16, params: &[u8]) -> bool
    ensures { result ≡ is_forbidden byte2.0 byte3 ticks params.now }
{
    frame::is_forbidden_frame(byte2, byte3, params) || !(1..=MAX_TICKS).contains(&ticks)
}

// The request as it waits.
#[tactic(auto, unfolding(crate::specs::Requesting::waiting_request))]
fn waiting_request(byte2: FeatureIndex, byte3: u8, ticks: u16, params: &[u8]) -> Request
    ensures { result ≡ waiting_request byte2.0 byte3 (ticks % 256) params.now }
{
    Request {
        byte2,
        byte3,
        first: FirstParameters(
            report::byte_at(params, 0),
            report::byte_at(params, 1),
            report::byte_at(params, 2),
        ),
        ticks: (ticks % 256) as u8,
    }
}

// A refusal leaves the port as it was.
fn refuse(port: Port, refusal: Refusal) -> Called<Result<usize, Refusal>, Port>
    ensures { result ≡ refused_with port refusal }
{
    Called {
        answer: Err(refusal),
        next: port,
    }
}

// Writes a request frame, and lets the request wait at the device's port: refusals 5, 9, 10, 11 and 12.
pub fn request_at(
    port: Port,
    device: Device,
    byte2: FeatureIndex,
    byte3: u8,
    ticks: u16,
    params: &[u8],
    buffer: &mut [u8],
    offset: usize,
) -> Called<Result<usize, Refusal>, Port>
    ensures outcome { requested_of result buffer.new ≡ checked_request port device.0 byte2.0 byte3 ticks params.now offset buffer.old }
{
    if !report::is_port(device) {
        return refuse(port, Refusal::NoSuchPort);
    }
    if is_forbidden(byte2, byte3, ticks, params) {
        return refuse(port, Refusal::Forbidden);
    }
    if !frame::fits(frame::HEAD + params.len(), offset, buffer.len()) {
        return refuse(port, Refusal::NoRoom);
    }
    match waiting::room_for(port.places, byte2, byte3) {
        Err(refusal) => refuse(port, refusal),
        Ok(place) => {
            let request = waiting_request(byte2, byte3, ticks, params);
            let places = port::with_request(port.places, place, request);
            Called {
                answer: frame::write_request(device, byte2, byte3, params, buffer, offset),
                next: port::with_places(port, places),
            }
        }
    }
}
