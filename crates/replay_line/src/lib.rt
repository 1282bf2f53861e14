// One line of a replay script: the call that it is.
#![tactic(auto)]

ghost use Rattle.std.specs.Prelude.{◌≡◌, ◌≤◌, Some};
ghost use Rattle.replay_line.specs.LineWords.{words};
ghost use Rattle.replay_line.specs.LineFields.{most_bytes, most_lent};
ghost use Rattle.replay_line.specs.LineCalls.{with_bytes, request_call, cancel_call, switch_call, led_call, frame_call, command_named, table, command_in, without_return, line_rule};
ghost use Rattle.replay_line.specs.LineContracts.{writer_of, command_of, parsed_command, Parses, lent_call};

use fields::{Lent, PortAndBytes};
use report::{Device, FeatureIndex};

mod fields;
mod values;
mod words;

const RETURN: u8 = 13;

// The longest report, payload or parameter list.
pub const MOST_BYTES: usize = 256;

// As many bytes as a call may have that has none.
const NO_BYTES: usize = 0;

// The longest lent buffer, and the longest text of a store.
pub const MOST_LENT: usize = 4096;

// The calls that write into a lent buffer.
#[derive(Clone, Copy, PartialEq, Eq)]
pub enum Writer {
    Request {
        port: Device,
        byte2: FeatureIndex,
        byte3: u8,
        ticks: u16,
    },
    Switch {
        bits: u8,
        timeout: u8,
    },
    GetPaired,
    Led {
        port: Device,
        leds: u8,
    },
    List,
    Store,
    Frame {
        port: Device,
        byte2: FeatureIndex,
        byte3: u8,
    },
}

// What a line asks for. A writer is lent a buffer of `room` bytes; a report, a payload, parameters or the text of a store are beside the command.
#[derive(Clone, Copy, PartialEq, Eq)]
pub enum Command {
    Blank,
    NoCall,
    Take,
    Cancel {
        port: Device,
        byte2: FeatureIndex,
        byte3: u8,
    },
    Tick,
    Restore,
    Read,
    Mouse,
    Dump,
    Write {
        writer: Writer,
        offset: u16,
        room: u16,
    },
}

// A command, and how many bytes its report, payload, parameters or text has. They stand at the front of a lent buffer, since the library has no heap; the clause `call` of `parse_line` reads the two together.
#[derive(Clone, Copy, PartialEq, Eq)]
pub struct Parsed {
    pub command: Command,
    pub count: usize,
}

// A command whose bytes are all the words that are left, at most so many.
#[tactic(auto, unfolding(crate::specs::LineCalls::with_bytes))]
fn with_bytes(
    command: Command,
    most: usize,
    text: &[u8],
    bytes: &mut [u8; MOST_LENT],
) -> Option<Parsed>
    requires { most ≤ most_lent }
    ensures { Parses (with_bytes most (command_of command) (words text.now)) result bytes.new }
{
    let count = fields::bytes_left(text, &mut bytes[..most])?;
    Some(Parsed { command, count })
}

// A writer, then the offset and the length of its lent buffer, and then its parameters, at most so many.
#[tactic(auto, unfolding(crate::specs::LineContracts::lent_call))]
fn lent(writer: Writer, most: usize, text: &[u8], bytes: &mut [u8; MOST_LENT]) -> Option<Parsed>
    requires { most ≤ most_lent }
    ensures { Parses (lent_call most (writer_of writer) (words text.now)) result bytes.new }
{
    let (Lent { offset, room }, text) = fields::next_lent(text)?;
    let command = Command::Write {
        writer,
        offset,
        room,
    };
    with_bytes(command, most, text, bytes)
}

#[tactic(auto, unfolding(crate::specs::LineCalls::request_call, crate::specs::LineContracts::lent_call))]
fn request_call(text: &[u8], bytes: &mut [u8; MOST_LENT]) -> Option<Parsed>
    ensures { Parses (request_call (words text.now)) result bytes.new }
{
    let (PortAndBytes { port, byte2, byte3 }, text) = fields::next_port_and_bytes(text)?;
    let (ticks, text) = fields::next_number(text)?;
    let writer = Writer::Request {
        port,
        byte2,
        byte3,
        ticks,
    };
    lent(writer, MOST_BYTES, text, bytes)
}

#[tactic(auto, using(crate::proofs::LineCallsLaws::no_bytes), unfolding(crate::specs::LineCalls::cancel_call))]
fn cancel_call(text: &[u8], bytes: &mut [u8; MOST_LENT]) -> Option<Parsed>
    ensures { Parses (cancel_call (words text.now)) result bytes.new }
{
    let (PortAndBytes { port, byte2, byte3 }, text) = fields::next_port_and_bytes(text)?;
    let command = Command::Cancel { port, byte2, byte3 };
    with_bytes(command, NO_BYTES, text, bytes)
}

#[tactic(auto, using(crate::proofs::LineCallsLaws::lent_without), unfolding(crate::specs::LineCalls::switch_call))]
fn switch_call(text: &[u8], bytes: &mut [u8; MOST_LENT]) -> Option<Parsed>
    ensures { Parses (switch_call (words text.now)) result bytes.new }
{
    let (bits, text) = fields::next_byte(text)?;
    let (timeout, text) = fields::next_byte(text)?;
    lent(Writer::Switch { bits, timeout }, NO_BYTES, text, bytes)
}

#[tactic(auto, using(crate::proofs::LineCallsLaws::lent_without), unfolding(crate::specs::LineCalls::led_call))]
fn led_call(text: &[u8], bytes: &mut [u8; MOST_LENT]) -> Option<Parsed>
    ensures { Parses (led_call (words text.now)) result bytes.new }
{
    let (port, text) = fields::next_port(text)?;
    let (leds, text) = fields::next_byte(text)?;
    lent(Writer::Led { port, leds }, NO_BYTES, text, bytes)
}

#[tactic(auto, unfolding(crate::specs::LineCalls::frame_call, crate::specs::LineContracts::lent_call))]
fn frame_call(text: &[u8], bytes: &mut [u8; MOST_LENT]) -> Option<Parsed>
    ensures { Parses (frame_call (words text.now)) result bytes.new }
{
    let (PortAndBytes { port, byte2, byte3 }, text) = fields::next_port_and_bytes(text)?;
    let writer = Writer::Frame { port, byte2, byte3 };
    lent(writer, MOST_BYTES, text, bytes)
}

// The call of this name, by the words after it.
#[tactic(auto, using(crate::proofs::LineCallsLaws::no_bytes, crate::proofs::LineCallsLaws::lent_without), unfolding(crate::specs::LineWords::same_word, crate::specs::LineCalls::other_rows, crate::specs::LineCalls::writer_rows, crate::specs::LineContracts::lent_call))]
fn named_call(name: &str, text: &[u8], bytes: &mut [u8; MOST_LENT]) -> Option<Parsed>
    ensures { Parses (command_named table name.now (words text.now)) result bytes.new }
{
    match name {
        "take" => with_bytes(Command::Take, MOST_BYTES, text, bytes),
        "request" => request_call(text, bytes),
        "cancel" => cancel_call(text, bytes),
        "tick" => with_bytes(Command::Tick, NO_BYTES, text, bytes),
        "restore" => with_bytes(Command::Restore, MOST_LENT, text, bytes),
        "switch" => switch_call(text, bytes),
        "get-paired" => lent(Writer::GetPaired, NO_BYTES, text, bytes),
        "led" => led_call(text, bytes),
        "list" => lent(Writer::List, NO_BYTES, text, bytes),
        "store" => lent(Writer::Store, NO_BYTES, text, bytes),
        "read" => with_bytes(Command::Read, MOST_BYTES, text, bytes),
        "frame" => frame_call(text, bytes),
        "mouse" => with_bytes(Command::Mouse, MOST_BYTES, text, bytes),
        "dump" => with_bytes(Command::Dump, NO_BYTES, text, bytes),
        _ => None,
    }
}

#[tactic(auto, using(crate::proofs::LineCallsLaws::no_text_named))]
fn parse_call(text: &[u8], bytes: &mut [u8; MOST_LENT]) -> Option<Parsed>
    ensures { Parses (command_in (words text.now)) result bytes.new }
{
    let (name, text) = words::next_word(text)?;
    // Every name of a call is text.
    let name = str::from_utf8(name).ok()?;
    named_call(name, text, bytes)
}

// A line without one carriage return at its end.
#[tactic(auto, unfolding(crate::specs::LineCalls::without_return))]
fn without_return(line: &[u8]) -> &[u8]
    ensures { result.now ≡ without_return line.now }
{
    match line {
        [text @ .., RETURN] => text,
        _ => line,
    }
}

// A command without bytes.
fn bare(command: Command) -> Parsed
    ensures { result ≡ record { command = command; count = 0 } }
{
    Parsed { command, count: 0 }
}

// Reads a line, which comes without its newline. The bytes of its call are put at the front of those that are lent; what is behind them is not to be relied on.
#[tactic(auto, unfolding(crate::specs::LineCalls::line_rule, crate::specs::LineCalls::text_rule))]
pub fn parse_line(line: &[u8], bytes: &mut [u8; MOST_LENT]) -> Parsed
    ensures call { parsed_command result bytes.new ≡ line_rule line.now }
    ensures within { result.count ≤ most_lent }
{
    match without_return(line) {
        [] | [b'#', ..] => bare(Command::Blank),
        text => parse_call(text, bytes).unwrap_or(bare(Command::NoCall)),
    }
}
