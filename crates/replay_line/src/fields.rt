// The words of a call one after another, each read as what it has to stand for. A reader gives its value and the text after it.
ghost use Rattle.std.specs.Prelude.{◌≡◌, ◌≤◌, IfSome, length};
ghost use Rattle.replay_line.specs.LineWords.{words};
ghost use Rattle.replay_line.specs.LineValues.{hex_byte, number};
ghost use Rattle.replay_line.specs.LineFields.{first, port_number, port_and_bytes, lent, bytes_of, limited};
ghost use Rattle.replay_line.specs.LineContracts.{field_and_rest, port_and_bytes_read, lent_read, bytes_listed};

use crate::{values, words};
use report::{Device, FeatureIndex};

// PORT B2 B3.
#[derive(Clone, Copy)]
pub struct PortAndBytes {
    pub port: Device,
    pub byte2: FeatureIndex,
    pub byte3: u8,
}

// PLACE LEN.
#[derive(Clone, Copy)]
pub struct Lent {
    pub offset: u16,
    pub room: u16,
}

// HH. This reader and the next are two lines each: one for both, given the reader of the word, would be no plainer, since its contract has to say what a call of that reader gives.
pub fn next_byte(text: &[u8]) -> Option<(u8, &[u8])>
    ensures read { field_and_rest (λ n. n) result ≡ first hex_byte (words text.now) }
{
    let (word, rest) = words::next_word(text)?;
    Some((values::hex_byte(word)?, rest))
}

// N.
pub fn next_number(text: &[u8]) -> Option<(u16, &[u8])>
    ensures read { field_and_rest (λ n. n) result ≡ first number (words text.now) }
{
    let (word, rest) = words::next_word(text)?;
    Some((values::number(word)?, rest))
}

// PORT.
pub fn next_port(text: &[u8]) -> Option<(Device, &[u8])>
    ensures read { field_and_rest (λ d. d.0) result ≡ first port_number (words text.now) }
{
    let (number, rest) = next_number(text)?;
    let port = u8::try_from(number).ok()?;
    Some((Device(port), rest))
}

// PORT B2 B3.
#[tactic(auto, unfolding(crate::specs::LineFields::port_and_bytes))]
pub fn next_port_and_bytes(text: &[u8]) -> Option<(PortAndBytes, &[u8])>
    ensures read { field_and_rest port_and_bytes_read result ≡ port_and_bytes (words text.now) }
{
    let (port, rest) = next_port(text)?;
    let (byte2, rest) = next_byte(rest)?;
    let (byte3, rest) = next_byte(rest)?;
    let byte2 = FeatureIndex(byte2);
    Some((PortAndBytes { port, byte2, byte3 }, rest))
}

// PLACE LEN.
#[tactic(auto, unfolding(crate::specs::LineFields::lent))]
pub fn next_lent(text: &[u8]) -> Option<(Lent, &[u8])>
    ensures read { field_and_rest lent_read result ≡ lent (words text.now) }
{
    let (offset, rest) = next_number(text)?;
    let (room, rest) = next_number(rest)?;
    if room as usize > crate::MOST_LENT {
        return None;
    }
    Some((Lent { offset, room }, rest))
}

// HH.. up to the end of a text, as many as there is room for: how many they are.
pub(crate) fn bytes_left(text: &[u8], bytes: &mut [u8]) -> Option<usize>
    ensures bytes { bytes_listed result bytes.new ≡ limited (length bytes.old) (bytes_of (words text.now)) }
    ensures within { IfSome result (λ n. n ≤ length bytes.old) }
{
    let mut rest = text;
    for (count, byte) in bytes.iter_mut().enumerate() {
        let Some((value, after)) = next_byte(rest) else {
            return words::is_end(rest).then_some(count);
        };
        *byte = value;
        rest = after;
    }
    words::is_end(rest).then_some(bytes.len())
}
