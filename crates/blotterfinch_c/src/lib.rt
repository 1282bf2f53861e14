// The functions exported to C: each is the function of the same name of the crate `blotterfinch`. The C side is include/blotterfinch.h.
#![tactic(auto)]

ghost use Rattle.std.specs.Prelude.{◌≡◌};
ghost use Rattle.report.specs.Reading.{read_rule};
ghost use Rattle.frame.specs.Writing.{request_frame_rule, switch_rule, get_paired_rule, led_rule};
ghost use Rattle.mouse.specs.Movement.{mouse_rule};
ghost use Rattle.blotterfinch.specs.CContracts.{c_report, c_ended, c_outcome, c_movement};

use blotterfinch::{Movement, Report, Written};

// Reads one report: refusals 1 to 6.
#[unsafe(no_mangle)]
pub extern "C" fn blotterfinch_read(bytes: &[u8]) -> Report
    ensures report { result ≡ c_report (read_rule bytes.now) }
{
    blotterfinch::blotterfinch_read(bytes)
}

// Writes a HID++ request: refusals 5, 9 and 10.
#[unsafe(no_mangle)]
pub extern "C" fn blotterfinch_request_frame(
    device: u8,
    byte2: u8,
    byte3: u8,
    parameters: &[u8],
    buffer: &mut [u8],
    offset: usize,
) -> Written
    ensures outcome { c_ended result buffer.new ≡ c_outcome (request_frame_rule device byte2 byte3 parameters.now offset buffer.old) }
{
    blotterfinch::blotterfinch_request_frame(device, byte2, byte3, parameters, buffer, offset)
}

// Writes the DJ switch command: refusals 14 and 10.
#[unsafe(no_mangle)]
pub extern "C" fn blotterfinch_switch_frame(
    bits: u8,
    timeout: u8,
    buffer: &mut [u8],
    offset: usize,
) -> Written
    ensures outcome { c_ended result buffer.new ≡ c_outcome (switch_rule bits timeout offset buffer.old) }
{
    blotterfinch::blotterfinch_switch_frame(bits, timeout, buffer, offset)
}

// Writes the DJ command that asks for the paired devices: refusal 10.
#[unsafe(no_mangle)]
pub extern "C" fn blotterfinch_get_paired_frame(buffer: &mut [u8], offset: usize) -> Written
    ensures outcome { c_ended result buffer.new ≡ c_outcome (get_paired_rule offset buffer.old) }
{
    blotterfinch::blotterfinch_get_paired_frame(buffer, offset)
}

// Writes the keyboard LEDs of a device: refusals 5 and 10.
#[unsafe(no_mangle)]
pub extern "C" fn blotterfinch_led_frame(
    device: u8,
    leds: u8,
    buffer: &mut [u8],
    offset: usize,
) -> Written
    ensures outcome { c_ended result buffer.new ≡ c_outcome (led_rule device leds offset buffer.old) }
{
    blotterfinch::blotterfinch_led_frame(device, leds, buffer, offset)
}

// Reads a mouse payload: refusal 3.
#[unsafe(no_mangle)]
pub extern "C" fn blotterfinch_mouse(payload: &[u8]) -> Movement
    ensures movement { result ≡ c_movement (mouse_rule payload.now) }
{
    blotterfinch::blotterfinch_mouse(payload)
}
