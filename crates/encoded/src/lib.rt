// An encoded sequence of calls, and the function that makes them on a station.
#![tactic(auto)]

ghost use Rattle.std.specs.Prelude.{◌≡◌, [], length};
ghost use Rattle.station.specs.Stations.{fresh_station};
ghost use Rattle.sequence.specs.Steps.{writer_rule, restore};
ghost use Rattle.encoded.specs.Blocks.{lent_size, block_call};
ghost use Rattle.encoded.specs.EncodedRuns.{encoded_rule};
ghost use Rattle.encoded.specs.EncodedContracts.{writer_by, header_by, run_number, MadePromise, CheckPromise, Ready, EncodedPromise, c_left, c_run_outcome};
ghost use Rattle.frame.specs.FrameContracts.{written_outcome};

mod block;
mod rows;

use block::{Block, Op, Writer};
use port::Called;
use report::{Device, FeatureIndex, Refusal};
use station::Station;

// Why a run was refused: the encoded calls are malformed, or their answers have no room. By the number that C is given.
#[derive(Clone, Copy, PartialEq, Eq)]
pub enum RunRefusal {
    NoRoom = 10,
    Malformed = 31,
}

impl From<RunRefusal> for u8 {
    ghost from_gives = { λ refusal number. number ≡ run_number refusal };

    fn from(refusal: RunRefusal) -> u8 {
        refusal as u8
    }
}

// The number of bytes of answers that the encoded calls give, where they are whole for an arena of `room` bytes.
#[tactic(auto, using(crate::proofs::DecodingLaws::shorter, crate::proofs::CheckLaws::begun, crate::proofs::CheckLaws::more))]
fn check(encoded: &[u8], mut room: usize) -> Option<usize>
    ensures { CheckPromise encoded.now room result }
{
    let mut left = encoded;
    let mut size = 0;
    while !left.is_empty() {
        let (block, rest) = block::first(left)?;
        room = room.checked_sub(block.lent_size())?;
        left = rest;
        size += rows::ROW;
    }
    if room == 0 { Some(size) } else { None }
}

// Makes the call of a block that writes.
fn write(
    station: Station,
    writer: Writer,
    block: Block,
    buffer: &mut [u8],
) -> Result<usize, Refusal>
    ensures { written_outcome result buffer.new ≡ writer_rule station (writer_by writer block.entry) block.entry.offset buffer.old }
{
    let offset = usize::from(block.offset);
    match writer {
        Writer::Switch => station.switch(block.a, block.b, buffer, offset),
        Writer::GetPaired => station.get_paired(buffer, offset),
        Writer::Led => station.led(Device(block.a), block.b, buffer, offset),
        Writer::List => station.list(buffer, offset),
        Writer::Store => station.store(buffer, offset),
    }
}

// What a call gives, with its answer as a row.
fn in_row<A, F: Fn(A) -> [u8; rows::ROW]>(
    called: Called<A, Station>,
    row: F,
) -> Called<[u8; rows::ROW], Station>
    requires { F.IsAlwaysCallable row }
    ensures row { F.post row called.answer result.answer }
    ensures next { result.next ≡ called.next }
{
    Called {
        answer: row(called.answer),
        next: called.next,
    }
}

// Reads a store: it is lent no buffer.
#[tactic(auto, unfolding(sequence::specs::Steps::step, crate::specs::Rows::encode_answer))]
fn restore_from(station: Station, text: &[u8]) -> Called<[u8; rows::ROW], Station>
    ensures { MadePromise station (restore text.now) result [] }
{
    in_row(station.restore(text), rows::of_restored)
}

// Makes the call of a block, on a buffer of the length that it is lent, and answers the row of its answer.
#[tactic(auto, unfolding(sequence::specs::Steps::step, crate::specs::Rows::encode_answer, crate::specs::Blocks::lent_size, crate::specs::Blocks::block_writer, crate::specs::Blocks::block_call))]
fn call(station: Station, block: Block, buffer: &mut [u8]) -> Called<[u8; rows::ROW], Station>
    requires { length buffer.old ≡ lent_size (header_by block) }
    ensures { MadePromise station (block_call (header_by block.entry) block.entry.body.now buffer.old) result buffer.new }
{
    let device = Device(block.a);
    let byte2 = FeatureIndex(block.b);
    let byte3 = block.c;
    match block.op {
        Op::Take => in_row(station.take(block.body), rows::of_taken),
        Op::Request => {
            let offset = usize::from(block.offset);
            in_row(
                station.request(
                    device,
                    byte2,
                    byte3,
                    block.ticks,
                    block.body,
                    buffer,
                    offset,
                ),
                rows::of_written,
            )
        }
        Op::Cancel => in_row(station.cancel(device, byte2, byte3), rows::of_cancelled),
        Op::Tick => in_row(station.tick(), rows::of_ticked),
        Op::Write(writer) => Called {
            answer: rows::of_written(write(station, writer, block, buffer)),
            next: station,
        },
        Op::Restore => restore_from(station, block.body),
    }
}

// Makes the calls one after the other, each on the station that the one before it handed back.
#[tactic(auto, using(crate::proofs::DecodingLaws::shorter, crate::proofs::PerformLaws::begun, crate::proofs::PerformLaws::part_for, crate::proofs::PerformLaws::more))]
fn perform(
    station: Station,
    encoded: &[u8],
    arena: &mut [u8],
    answers: &mut [u8],
) -> Called<Result<usize, RunRefusal>, Station>
    requires { Ready encoded.now arena.old answers.old }
    ensures { EncodedPromise station encoded.now arena.old answers.old result arena.new answers.new }
{
    let mut next = station;
    let mut left = encoded;
    let mut lent = 0;
    let mut size = 0;
    while let Some((block, rest)) = block::first(left) {
        let part = lent + block.lent_size();
        let called = call(next, block, &mut arena[lent..part]);
        let after = size + rows::ROW;
        answers[size..after].copy_from_slice(&called.answer);
        next = called.next;
        left = rest;
        lent = part;
        size = after;
    }
    Called {
        answer: Ok(size),
        next,
    }
}

// Makes encoded calls. The answers are end to end at the front of `answers`; the buffers that calls are lent lie end to end in `arena`. A refusal changes nothing.
pub fn run_encoded(
    station: Station,
    encoded: &[u8],
    arena: &mut [u8],
    answers: &mut [u8],
) -> Called<Result<usize, RunRefusal>, Station>
    ensures by_rule { EncodedPromise station encoded.now arena.old answers.old result arena.new answers.new }
{
    let refusal = match check(encoded, arena.len()) {
        None => RunRefusal::Malformed,
        Some(size) if answers.len() < size => RunRefusal::NoRoom,
        Some(_) => return perform(station, encoded, arena, answers),
    };
    Called {
        answer: Err(refusal),
        next: station,
    }
}

// What C is given of a run: the refusal, or 0 and the number of bytes of answers.
#[repr(C)]
#[derive(Clone, Copy)]
pub struct CRan {
    pub refusal: u8,
    pub length: usize,
}

// Makes encoded calls on a fresh station. The crate `encoded_c` exports it.
pub fn blotterfinch_run_encoded(encoded: &[u8], arena: &mut [u8], answers: &mut [u8]) -> CRan
    ensures by_rule { c_left result arena.new answers.new ≡ c_run_outcome (encoded_rule fresh_station encoded.now arena.old answers.old) }
{
    match run_encoded(Station::new(), encoded, arena, answers).answer {
        Ok(length) => CRan { refusal: 0, length },
        Err(refusal) => CRan {
            refusal: u8::from(refusal),
            length: 0,
        },
    }
}
