// One line of a replay script, answered: the call that it is, made on the station, and its answer as text.
#![tactic(auto)]

ghost use Rattle.std.specs.Prelude.{ℕ, List, ◌≡◌, ◌≤◌, length};
ghost use Rattle.replay_line.specs.LineFields.{most_lent};
ghost use Rattle.replay_line.specs.LineContracts.{writer_of, command_of, lent_room};
ghost use Rattle.sequence.specs.Steps as steps;
ghost use Rattle.replay_desk.specs.LineAnswers.{answer_room, keeping, stepped, writer_step, lent_buffer, command_rule, answer_rule};
ghost use Rattle.replay_desk.specs.DeskContracts.{answered_by, end_of, HasRoom, Shows, PutsAnswer, written_by};
ghost use Rattle.station.specs.StationContracts.{request_outcome};

use port::Called;
use replay_line::{Command, Parsed, Writer};
use report::{Device, FeatureIndex, Refusal};
use station::Station;
use text::Out;

// A round limit for what a writer's line has besides its lent bytes: the longest has 30 bytes more.
const REST: usize = 32;

// Room for the longest answer: a writer's, with a space and two digits for each byte of the longest lent buffer.
pub const ANSWER: usize = (1 + text::DIGITS_8 as usize) * replay_line::MOST_LENT + REST;

// Every byte of a lent buffer before the call.
const LENT: u8 = 0xee;

// Shows what a call of the station answered, as `put` puts it, and gives the next station.
fn show<A, F: FnOnce(&mut Out, A)>(out: &mut Out, called: Called<A, Station>, put: F) -> Station
    requires call { F.IsAlwaysCallable put }
    requires room { HasRoom out.old }
    ensures { (text : A → List ℕ) (most : ℕ) → most ≤ answer_room → PutsAnswer (F.post put) most text → Shows (keeping called.next (text called.answer)) out.old result out.new }
{
    put(out, called.answer);
    called.next
}

// Makes the call of a writer on its lent buffer.
fn make(
    station: Station,
    writer: Writer,
    offset: usize,
    params: &[u8],
    lent: &mut [u8],
) -> Called<Result<usize, Refusal>, Station>
    ensures { written_by (request_outcome result lent.new) ≡ stepped (writer_step station (writer_of writer) offset params.now lent.old) }
{
    let answer = match writer {
        Writer::Request {
            port,
            byte2,
            byte3,
            ticks,
        } => return station.request(port, byte2, byte3, ticks, params, lent, offset),
        Writer::Switch { bits, timeout } => station.switch(bits, timeout, lent, offset),
        Writer::GetPaired => station.get_paired(lent, offset),
        Writer::Led { port, leds } => station.led(port, leds, lent, offset),
        Writer::List => station.list(lent, offset),
        Writer::Store => station.store(lent, offset),
        Writer::Frame { port, byte2, byte3 } => {
            frame::request_frame(port, byte2, byte3, params, lent, offset)
        }
    };
    Called {
        answer,
        next: station,
    }
}

// Makes the call of a writer, and shows the whole lent buffer after it.
fn write(
    out: &mut Out,
    station: Station,
    writer: Writer,
    offset: u16,
    room: u16,
    params: &[u8],
) -> Station
    requires room { HasRoom out.old }
    requires lent { room ≤ most_lent }
    ensures { Shows (stepped (writer_step station (writer_of writer) offset params.now (lent_buffer room))) out.old result out.new }
{
    let mut lent = [LENT; replay_line::MOST_LENT];
    let lent = &mut lent[..room as usize];
    let made = make(station, writer, offset as usize, params, lent);
    replay_render::put_written(out, made.answer, lent);
    made.next
}

// Each of these makes a call and shows its answer. They stand apart from `respond`, which would else make room for what all four give at every line, also where it makes no call.
fn take(out: &mut Out, station: Station, bytes: &[u8]) -> Station
    requires room { HasRoom out.old }
    ensures { Shows (stepped (steps.step station (steps.take bytes.now))) out.old result out.new }
{
    show(out, station.take(bytes), replay_taken::put_taken)
}

fn cancel(out: &mut Out, station: Station, port: Device, byte2: FeatureIndex, byte3: u8) -> Station
    requires room { HasRoom out.old }
    ensures { Shows (stepped (steps.step station (steps.cancel port.0 byte2.0 byte3))) out.old result out.new }
{
    let called = station.cancel(port, byte2, byte3);
    show(out, called, replay_render::put_cancelled)
}

fn tick(out: &mut Out, station: Station) -> Station
    requires room { HasRoom out.old }
    ensures { Shows (stepped (steps.step station steps.tick)) out.old result out.new }
{
    show(out, station.tick(), replay_render::put_ended)
}

fn restore(out: &mut Out, station: Station, text: &[u8]) -> Station
    requires room { HasRoom out.old }
    ensures { Shows (stepped (steps.step station (steps.restore text.now))) out.old result out.new }
{
    show(out, station.restore(text), replay_render::put_restored)
}

// Does what a line asks for.
fn respond(
    out: &mut Out,
    station: Station,
    number: usize,
    command: Command,
    bytes: &[u8],
) -> Station
    requires room { HasRoom out.old }
    requires lent { lent_room (command_of command bytes.now) ≤ most_lent }
    ensures { Shows (command_rule station number (command_of command bytes.now)) out.old result out.new }
{
    match command {
        Command::Blank => station,
        Command::NoCall => {
            replay_render::put_no_call(out, number);
            station
        }
        Command::Take => take(out, station, bytes),
        Command::Cancel { port, byte2, byte3 } => cancel(out, station, port, byte2, byte3),
        Command::Tick => tick(out, station),
        Command::Restore => restore(out, station, bytes),
        Command::Read => {
            replay_render::put_reading(out, report::read(bytes));
            station
        }
        Command::Mouse => {
            replay_render::put_moved(out, mouse::movement(bytes));
            station
        }
        Command::Dump => {
            replay_dump::put_dump(out, &station);
            station
        }
        Command::Write {
            writer,
            offset,
            room,
        } => write(out, station, writer, offset, room, bytes),
    }
}

// Answers one line, which comes without its newline and has this number: the number of bytes of text that were put, and the next station. Where there is less room from `at` on than the longest answer takes, nothing is done: refusal 10. `bytes` are for those of the call; they are lent so that they need not be made for each line. The buffer and the offset come apart, and not as an Out: the caller keeps in its progress how much of the buffer is filled.
pub fn answer_line(
    station: Station,
    number: usize,
    line: &[u8],
    bytes: &mut [u8; replay_line::MOST_LENT],
    buffer: &mut [u8],
    at: usize,
) -> Called<Result<usize, Refusal>, Station>
    ensures answer { answered_by result buffer.new ≡ answer_rule station number line.now at buffer.old }
    ensures within { end_of at result ≤ length buffer.new }
{
    if !frame::fits(ANSWER, at, buffer.len()) {
        return Called {
            answer: Err(Refusal::NoRoom),
            next: station,
        };
    }
    let Parsed { command, count } = replay_line::parse_line(line, bytes);
    let mut out = Out { buffer, at };
    let next = respond(&mut out, station, number, command, &bytes[..count]);
    Called {
        answer: Ok(out.at - at),
        next,
    }
}
