// Which waiting request a HID++ report answers.
#![tactic(auto)]

ghost use Rattle.std.specs.Prelude.{◌≡◌, position};
ghost use Rattle.report.specs.ReportContracts.{hidpp_of};
ghost use Rattle.port.specs.Searching.{Finds};
ghost use Rattle.matching.specs.Messages.{parameter, message_of};
ghost use Rattle.matching.specs.Matching.{is_ping, answers, ping_waits};

use port::{FirstParameters, Port, Request};
use report::{Device, FeatureIndex, HidppReport};

// What the rules look at in a HID++ report.
#[derive(Clone, Copy)]
pub struct Message {
    pub device: Device,
    pub byte2: FeatureIndex,
    pub byte3: u8,
    // The number of parameters: 3 or 16.
    pub length: u8,
    pub first: FirstParameters,
}

// The function of a ping.
const PING: u8 = 1;

// The parameter with this number, counted from 0.
pub fn parameter(bytes: &[u8], i: u8) -> u8
    ensures parameter { result ≡ parameter bytes.now i }
{
    report::byte_at(bytes, report::HIDPP_START as usize + i as usize)
}

#[tactic(auto, unfolding(crate::specs::Messages::message_of))]
pub fn message_of(h: HidppReport, bytes: &[u8]) -> Message
    ensures message { result ≡ message_of (hidpp_of h) bytes.now }
{
    Message {
        device: h.device,
        byte2: h.byte2,
        byte3: h.byte3,
        length: h.length,
        first: FirstParameters(
            parameter(bytes, 0),
            parameter(bytes, 1),
            parameter(bytes, 2),
        ),
    }
}

// Whether these are bytes 2 and 3 of a ping.
pub fn is_ping(byte2: FeatureIndex, byte3: u8) -> bool
    ensures ping { result ≡ is_ping byte2.0 byte3 }
{
    byte2.0 == 0 && byte3 / 16 == PING
}

// Whether the report is a reply to this request: to a ping only where both have the same third parameter.
fn is_answer(m: Message, request: Request) -> bool
    ensures { result ≡ answers m request }
{
    port::is_match(request, m.byte2, m.byte3)
        && (!is_ping(m.byte2, m.byte3) || m.first.2 == request.first.2)
}

// The lowest place whose request the report is a reply to.
pub fn first_answered(places: [Request; port::PLACES], m: Message) -> Option<usize>
    ensures lowest { result ≡ position (answers m) places }
    ensures searched { Finds (answers m) places result }
{
    places.iter().position(|request| is_answer(m, *request))
}

// Whether a ping with the report's bytes 2 and 3 waits.
pub fn has_ping(port: Port, m: Message) -> bool
    ensures waits { result ≡ ping_waits port m }
{
    is_ping(m.byte2, m.byte3) && port::first_match(port.places, m.byte2, m.byte3).is_some()
}
