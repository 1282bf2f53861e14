// What C is given, over byte slices and numbers. The crate `blotterfinch_c` exports these functions; the C side is include/blotterfinch.h.
#![tactic(auto)]

ghost use Rattle.std.specs.Prelude.{◌≡◌};
ghost use Rattle.report.specs.Reading.{refused, read_rule};
ghost use Rattle.report.specs.ReportContracts.{number_of, hidpp_of, dj_of};
ghost use Rattle.frame.specs.Writing.{request_frame_rule, switch_rule, get_paired_rule, led_rule};
ghost use Rattle.frame.specs.FrameContracts.{written_of};
ghost use Rattle.mouse.specs.Movement.{mouse_rule};
ghost use Rattle.mouse.specs.MouseContracts.{moved_of};
ghost use Rattle.blotterfinch.specs.CContracts.{c_whole, c_report, c_written, c_ended, c_outcome, c_movement};

use mouse::Motion;
use report::{Device, DjReport, FeatureIndex, HidppReport, Reading, Refusal};

// blotterfinch_report. Refused: every other field is 0.
#[repr(C)]
#[derive(Clone, Copy)]
pub struct Report {
    pub refusal: u8,
    pub id: u8,
    pub device: u8,
    pub byte2: u8,
    pub byte3: u8,
    pub start: u8,
    pub length: u8,
}

// blotterfinch_written. Refused: the length is 0.
#[repr(C)]
#[derive(Clone, Copy)]
pub struct Written {
    pub refusal: u8,
    pub length: usize,
}

// blotterfinch_movement. Refused: every other field is 0.
#[repr(C)]
#[derive(Clone, Copy)]
pub struct Movement {
    pub buttons: u16,
    pub x: i16,
    pub y: i16,
    pub wheel: i8,
    pub pan: i8,
    pub refusal: u8,
}

// A report that was refused.
impl From<Refusal> for Report {
    ghost from_gives = { λ refusal given. given ≡ c_report (refused (number_of refusal)) };

    fn from(refusal: Refusal) -> Report {
        Report {
            refusal: u8::from(refusal),
            id: 0,
            device: 0,
            byte2: 0,
            byte3: 0,
            start: 0,
            length: 0,
        }
    }
}

impl From<HidppReport> for Report {
    ghost from_gives = { λ report given. given ≡ c_whole (hidpp_of report) };

    fn from(report: HidppReport) -> Report {
        Report {
            refusal: 0,
            id: report.id,
            device: report.device.0,
            byte2: report.byte2.0,
            byte3: report.byte3,
            start: report.start,
            length: report.length,
        }
    }
}

impl From<DjReport> for Report {
    ghost from_gives = { λ report given. given ≡ c_whole (dj_of report) };

    fn from(report: DjReport) -> Report {
        Report {
            refusal: 0,
            id: report.id,
            device: report.device.0,
            byte2: report.kind,
            byte3: report.p0,
            start: report.start,
            length: report.length,
        }
    }
}

// Reads one report: refusals 1 to 6.
pub fn blotterfinch_read(bytes: &[u8]) -> Report
    ensures report { result ≡ c_report (read_rule bytes.now) }
{
    match report::read(bytes) {
        Err(refusal) => Report::from(refusal),
        Ok(Reading::Hidpp(report)) => Report::from(report),
        Ok(Reading::Dj(report) | Reading::EmptyList(report)) => Report::from(report),
    }
}

impl From<Result<usize, Refusal>> for Written {
    ghost from_gives = { λ written given. given ≡ c_written (written_of written) };

    fn from(written: Result<usize, Refusal>) -> Written {
        match written {
            Ok(length) => Written { refusal: 0, length },
            Err(why) => Written {
                refusal: u8::from(why),
                length: 0,
            },
        }
    }
}

// Writes a HID++ request: refusals 5, 9 and 10.
pub fn blotterfinch_request_frame(
    device: u8,
    byte2: u8,
    byte3: u8,
    parameters: &[u8],
    buffer: &mut [u8],
    offset: usize,
) -> Written
    ensures outcome { c_ended result buffer.new ≡ c_outcome (request_frame_rule device byte2 byte3 parameters.now offset buffer.old) }
{
    Written::from(frame::request_frame(
        Device(device),
        FeatureIndex(byte2),
        byte3,
        parameters,
        buffer,
        offset,
    ))
}

// Writes the DJ switch command: refusals 14 and 10.
pub fn blotterfinch_switch_frame(bits: u8, timeout: u8, buffer: &mut [u8], offset: usize) -> Written
    ensures outcome { c_ended result buffer.new ≡ c_outcome (switch_rule bits timeout offset buffer.old) }
{
    Written::from(frame::switch_frame(bits, timeout, buffer, offset))
}

// Writes the DJ command that asks for the paired devices: refusal 10.
pub fn blotterfinch_get_paired_frame(buffer: &mut [u8], offset: usize) -> Written
    ensures outcome { c_ended result buffer.new ≡ c_outcome (get_paired_rule offset buffer.old) }
{
    Written::from(frame::get_paired_frame(buffer, offset))
}

// Writes the keyboard LEDs of a device: refusals 5 and 10.
pub fn blotterfinch_led_frame(device: u8, leds: u8, buffer: &mut [u8], offset: usize) -> Written
    ensures outcome { c_ended result buffer.new ≡ c_outcome (led_rule device leds offset buffer.old) }
{
    Written::from(frame::led_frame(Device(device), leds, buffer, offset))
}

impl From<Result<Motion, Refusal>> for Movement {
    ghost from_gives = { λ read given. given ≡ c_movement (moved_of read) };

    fn from(read: Result<Motion, Refusal>) -> Movement {
        match read {
            Ok(motion) => Movement {
                buttons: motion.buttons,
                x: motion.x,
                y: motion.y,
                wheel: motion.wheel,
                pan: motion.pan,
                refusal: 0,
            },
            Err(refused) => Movement {
                buttons: 0,
                x: 0,
                y: 0,
                wheel: 0,
                pan: 0,
                refusal: u8::from(refused),
            },
        }
    }
}

// Reads a mouse payload: refusal 3.
pub fn blotterfinch_mouse(payload: &[u8]) -> Movement
    ensures movement { result ≡ c_movement (mouse_rule payload.now) }
{
    Movement::from(mouse::movement(payload))
}
