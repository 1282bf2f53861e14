// A script that is read in parts, and answered as it is read, in turns.
#![tactic(auto)]

ghost use Rattle.std.specs.Prelude.{◌≤◌, ◌≡◌, length};
ghost use Rattle.replay_feed.specs.TurnContracts.{Starts, is_ready, read_offset, turned_of, turn_for, Leaves};

use station::Station;

mod feed;
mod input;

// The station and the number of lines so far. The bytes of the input buffer from `start` up to `size` are read and not yet answered; where they are cut, what follows up to the end of their line is passed over. Another turn is to follow where `going`: then more is to be read where `reading`, and else whole lines wait for room; the whole script is answered where `whole`. The first `filled` bytes of the output buffer are answers.
// Flags, and no enum of the states of a run: `turn` answers for every mix of them, and a state that it refuses keeps its `reading` and `cut` (`refused_state`). Offsets, and no slice: the buffer is lent anew for each turn.
#[derive(Clone, Copy)]
pub struct State {
    pub station: Station,
    pub number: usize,
    pub start: usize,
    pub size: usize,
    pub cut: bool,
    pub reading: bool,
    pub going: bool,
    pub whole: bool,
    pub filled: usize,
}

// Before anything is read.
pub fn start() -> State
    ensures starts { Starts result }
{
    State {
        station: Station::new(),
        number: 0,
        start: 0,
        size: 0,
        cut: false,
        reading: true,
        going: true,
        whole: false,
        filled: 0,
    }
}

// Where the next read goes in the input buffer: behind what is held, or to its end, where nothing can be read, while whole lines wait.
pub fn read_offset(state: State, buffer: &[u8]) -> usize
    ensures offset { result ≡ read_offset state (length buffer.now) }
    ensures within { result ≤ length buffer.now }
{
    let held = state.size;
    if state.reading && held <= buffer.len() {
        held
    } else {
        buffer.len()
    }
}

// Whether a turn can be made, with `count` bytes read and buffers of these sizes.
fn is_ready(state: State, count: usize, buffer: usize, output: usize) -> bool
    ensures { result ≡ is_ready state count buffer output }
{
    let size = state.size;
    state.going
        && state.start <= size
        && size <= buffer
        && count <= buffer - size
        && buffer > input::LONGEST
        && output >= replay_desk::ANSWER
        && if state.reading {
            size < buffer
        } else {
            !state.cut
        }
}

// A turn: `count` bytes were read to the offset that `read_offset` gives; a read that brings nothing is the end of the script. Answers whole lines from the front of the output buffer on while it has room, and holds the rest. A turn that cannot be made is refused: no other is to follow, and the script is not whole.
#[tactic(auto, using(crate::proofs::TurnLaws::finishes, crate::proofs::TurnLaws::feeds))]
pub fn turn(state: State, buffer: &mut [u8], count: usize, output: &mut [u8]) -> State
    ensures turned { turned_of result buffer.new output.new ≡ turn_for state count buffer.old (length output.old) }
    ensures leaves { Leaves state count buffer.old output.old result buffer.new output.new }
{
    if !is_ready(state, count, buffer.len(), output.len()) {
        return State {
            going: false,
            whole: false,
            filled: 0,
            ..state
        };
    }
    if state.reading && count == 0 {
        return feed::finish(state, buffer, output);
    }
    feed::feed(state, buffer, count, output)
}
