// A device's serial: the reply that gives it, and what it does at the device's port.
#![tactic(auto)]

ghost use Rattle.std.specs.Prelude.{◌≡◌};
ghost use Rattle.report.specs.ReportContracts.{hidpp_of};
ghost use Rattle.serial.specs.Serials.{is_serial_report, is_asked_with, serial_in, given_by, is_another, serial_rule};
ghost use Rattle.serial.specs.SerialContracts.{given_of, kept_of};

use port::{Called, Port};
use report::{Device, FeatureIndex, HidppReport};

// Byte 3 of a request for a serial: the register.
const SERIAL_REGISTER: u8 = 0xb5;

// The first parameter for device 1, and for the last.
const FIRST: u8 = 0x30;

const LAST: u8 = FIRST + report::DEVICES - 1;

// A device's serial, as a report gives it.
#[derive(Clone, Copy)]
pub struct Given {
    pub device: Device,
    pub number: u32,
}

// Whether the report is a long one of the register, on port 255.
fn is_report(h: HidppReport) -> bool
    ensures { result ≡ is_serial_report (hidpp_of h) }
{
    h.device.0 == report::RECEIVER
        && h.id == report::HIDPP_LONG
        && h.byte2.0 == frame::GET_LONG_REGISTER
        && h.byte3 == SERIAL_REGISTER
}

// Whether a request for the register waits at the port, with this first parameter.
fn is_asked_with(port: Port, first: u8) -> bool
    ensures { result ≡ is_asked_with port first }
{
    let byte2 = FeatureIndex(frame::GET_LONG_REGISTER);
    let Some(place) = port::first_match(port.places, byte2, SERIAL_REGISTER) else {
        return false;
    };
    port::request_in(port.places, place).first.0 == first
}

// The four bytes after the first parameter, the most significant first.
fn serial_in(bytes: &[u8]) -> u32
    ensures { result ≡ serial_in bytes.now }
{
    let a = matching::parameter(bytes, 1);
    let b = matching::parameter(bytes, 2);
    let c = matching::parameter(bytes, 3);
    let d = matching::parameter(bytes, 4);
    report::join4(d, c, b, a)
}

// What a report gives that is taken at this port.
#[tactic(auto, unfolding(crate::specs::Serials::given_by))]
pub fn given_by(port: Port, h: HidppReport, bytes: &[u8]) -> Option<Given>
    ensures given { given_of result ≡ given_by port (hidpp_of h) bytes.now }
{
    if !is_report(h) {
        return None;
    }
    let first = matching::parameter(bytes, 0);
    if !report::within(FIRST, first, LAST) || !is_asked_with(port, first) {
        return None;
    }
    Some(Given {
        device: Device(first - FIRST + 1),
        number: serial_in(bytes),
    })
}

// Whether a different serial is known.
fn is_another(serial: Option<u32>, number: u32) -> bool
    ensures { result ≡ is_another serial number }
{
    serial.is_some_and(|known| known != number)
}

// Keeps the serial of a device at its port, and answers how many requests it drops there.
#[tactic(auto, unfolding(crate::specs::Serials::serial_rule))]
pub fn keep(port: Port, number: u32) -> Called<u8, Port>
    ensures kept { kept_of result ≡ serial_rule port number }
{
    if !port.paired {
        return Called {
            answer: 0,
            next: port,
        };
    }
    if is_another(port.serial, number) {
        let fresh = port::paired_anew(port, port.wpid, port.reports);
        Called {
            answer: port::count_waiting(port.places),
            next: port::with_serial(fresh, Some(number)),
        }
    } else {
        Called {
            answer: 0,
            next: port::with_serial(port, Some(number)),
        }
    }
}
