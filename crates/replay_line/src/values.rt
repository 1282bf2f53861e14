// What one word stands for: a byte in hexadecimal, or a decimal number.
ghost use Rattle.std.specs.Prelude.{◌≡◌};
ghost use Rattle.replay_line.specs.LineValues.{hex_digit, hex_byte, digits_after, number};
ghost use Rattle.replay_line.specs.LineContracts.{hex_value};

// The value of a digit of either case.
#[tactic(auto, unfolding(crate::specs::LineValues::hex_digit))]
fn hex_digit(c: u8) -> Option<u8>
    ensures { result ≡ hex_value (hex_digit c) }
{
    match c {
        b'0'..=b'9' => Some(c - b'0'),
        b'A'..=b'F' => Some(c - b'A' + 10),
        b'a'..=b'f' => Some(c - b'a' + 10),
        _ => None,
    }
}

// HH.
#[tactic(auto, unfolding(crate::specs::LineValues::hex_byte))]
pub fn hex_byte(word: &[u8]) -> Option<u8>
    ensures value { result ≡ hex_byte word.now }
{
    let [high, low] = word else {
        return None;
    };
    Some(hex_digit(*high)? * 16 + hex_digit(*low)?)
}

// The number that digits come to.
#[tactic(auto, using(crate::proofs::LineValuesLaws::digit_step, crate::proofs::LineValuesLaws::digit_stop, crate::proofs::LineValuesLaws::digits_end, crate::proofs::LineValuesLaws::too_great))]
fn digits(text: &[u8]) -> Option<u16>
    ensures { result ≡ digits_after 0 text.now }
{
    let mut n: u16 = 0;
    for c in text {
        if !c.is_ascii_digit() {
            return None;
        }
        n = n.checked_mul(10)?.checked_add(u16::from(*c - b'0'))?;
    }
    Some(n)
}

// N.
#[tactic(auto, unfolding(crate::specs::LineValues::number))]
pub fn number(word: &[u8]) -> Option<u16>
    ensures value { result ≡ number word.now }
{
    match word {
        [] | [b'0', _, ..] => None,
        _ => digits(word),
    }
}
