// The movement in a mouse payload: the radio report of type 2. 01, "Taking a DJ report".
#![tactic(auto)]

ghost use Rattle.std.specs.Prelude.{◌≡◌, ◌+◌, ◌*◌, ◌/◌, ◌%◌, ◌<◌};
ghost use Rattle.report.specs.Sizes.{joined2};
ghost use Rattle.mouse.specs.Movement.{signed, mouse_rule};
ghost use Rattle.mouse.specs.MouseContracts.{moved_of};

use report::Refusal;

const PAYLOAD_LENGTH: usize = 7;

// One bit for each button; x and y from -2048 to 2047, wheel and pan from -128 to 127.
#[derive(Clone, Copy)]
pub struct Motion {
    pub buttons: u16,
    pub x: i16,
    pub y: i16,
    pub wheel: i8,
    pub pan: i8,
}

// Twelve bits of two's complement.
fn signed12(bits: u16) -> i16
    requires { bits < 4096 }
    ensures { result ≡ signed 12 bits }
{
    if bits < 2048 {
        return bits as i16;
    }
    bits as i16 - 4096
}

// A byte, then the low nibble of the next.
fn x_of(low: u8, nibbles: u8) -> i16
    ensures { result ≡ signed 12 (joined2 low (nibbles % 16)) }
{
    signed12(report::join2(low, nibbles % 16))
}

// The high nibble of a byte, then the next byte.
fn y_of(nibbles: u8, high: u8) -> i16
    ensures { result ≡ signed 12 (nibbles / 16 + 16 * high) }
{
    signed12(u16::from(nibbles / 16) + 16 * u16::from(high))
}

// Reads a mouse payload: refusal 3 where it is not 7 bytes, or the movement.
pub fn movement(payload: &[u8]) -> Result<Motion, Refusal>
    ensures movement { moved_of result ≡ mouse_rule payload.now }
{
    if payload.len() != PAYLOAD_LENGTH {
        return Err(Refusal::WrongLength);
    }
    Ok(Motion {
        buttons: report::join2(payload[0], payload[1]),
        x: x_of(payload[2], payload[3]),
        y: y_of(payload[3], payload[4]),
        wheel: payload[5].cast_signed(),
        pan: payload[6].cast_signed(),
    })
}
