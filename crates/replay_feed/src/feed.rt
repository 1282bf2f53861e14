// What is read of a script, answered as far as there is room for the answers; and what is held between two turns.
// That a state fits the buffers beside it stays a clause of each function here: `turn` answers for every `State`, so that no ghost field of it can say so.
ghost use Rattle.std.specs.Prelude.{◌+◌, ◌≤◌, ◌<◌, ◌≡◌, true, length, drop};
ghost use Rattle.replay_script.specs.Shares.{share_rule};
ghost use Rattle.replay_feed.specs.LongLines.{longest};
ghost use Rattle.replay_feed.specs.Turns.{answered, ended_with, feed_rule, end_rule};
ghost use Rattle.replay_feed.specs.TurnContracts.{held_of, input_of, pending_of, turned_of, Standing};

use crate::{State, input};
use replay_script::finding;
use text::NEWLINE;

// Answers the whole lines that are held while there is room for the answers. Where others wait for room another turn is to follow; else the script is whole, unless more of it is read.
#[tactic(auto, using(crate::proofs::FeedLaws::lines_answered))]
fn answer(state: State, buffer: &[u8], output: &mut [u8]) -> State
    requires ordered { state.start ≤ state.size }
    requires within { state.size ≤ length buffer.now }
    ensures turned { turned_of result buffer.now output.new ≡ ended_with (share_rule state.station state.number (held_of state buffer.now) (length output.old)) }
    ensures standing { Standing result buffer.now output.new }
    ensures behind { drop result.filled output.new ≡ drop result.filled output.old }
{
    let part = &buffer[state.start..state.size];
    let answered = replay_script::answer_lines(state.station, state.number, part, output);
    State {
        station: answered.station,
        number: answered.number,
        start: state.start + answered.used,
        cut: false,
        reading: false,
        going: answered.full,
        whole: !answered.full,
        filled: answered.filled,
        ..state
    }
}

// Answers the whole lines that are held while there is room, and holds the rest at the front of the buffer.
fn proceed(state: State, buffer: &mut [u8], output: &mut [u8]) -> State
    requires ordered { state.start ≤ state.size }
    requires within { state.size ≤ length buffer.old }
    requires large { longest < length buffer.old }
    ensures turned { turned_of result buffer.new output.new ≡ answered (length buffer.old) (share_rule state.station state.number (held_of state buffer.old) (length output.old)) }
    ensures standing { Standing result buffer.new output.new }
    ensures behind { drop result.filled output.new ≡ drop result.filled output.old }
{
    let answered = answer(state, buffer, output);
    if answered.going {
        return answered;
    }
    let left = input::move_down(buffer, 0, answered.start, answered.size);
    let held = input::hold(buffer, left);
    State {
        start: 0,
        size: held.unwrap_or(input::LONGEST),
        cut: held.is_none(),
        reading: true,
        going: true,
        whole: false,
        ..answered
    }
}

// Takes in `count` bytes behind those that are held, and goes on.
#[tactic(auto, using(crate::proofs::FeedLaws::goes, crate::proofs::FeedLaws::passes, replay_script::proofs::FindingLaws::found, replay_script::proofs::FindingLaws::found_within))]
pub(crate) fn feed(state: State, buffer: &mut [u8], count: usize, output: &mut [u8]) -> State
    requires ordered { state.start ≤ state.size }
    requires count { state.size + count ≤ length buffer.old }
    requires large { longest < length buffer.old }
    requires room { state.cut ≡ true → state.size < length buffer.old }
    ensures turned { turned_of result buffer.new output.new ≡ feed_rule (length buffer.old) (length output.old) (pending_of state buffer.old) (input_of state count buffer.old) }
    ensures standing { Standing result buffer.new output.new }
    ensures behind { drop result.filled output.new ≡ drop result.filled output.old }
{
    let size = state.size + count;
    if !state.cut {
        return proceed(State { size, ..state }, buffer, output);
    }
    let Some(newline) = finding::find(buffer, state.size, size, NEWLINE) else {
        return State {
            reading: true,
            going: true,
            whole: false,
            filled: 0,
            ..state
        };
    };
    let size = input::move_down(buffer, state.size, newline, size);
    proceed(State { size, ..state }, buffer, output)
}

// The end of the script: answers a last line that lacks its newline.
#[tactic(auto, using(crate::proofs::FeedLaws::nothing_left, crate::proofs::FeedLaws::last_answered))]
pub(crate) fn finish(state: State, buffer: &mut [u8], output: &mut [u8]) -> State
    requires ordered { state.start ≤ state.size }
    requires room { state.size < length buffer.old }
    ensures turned { turned_of result buffer.new output.new ≡ end_rule (length output.old) (pending_of state buffer.old) }
    ensures standing { Standing result buffer.new output.new }
    ensures behind { drop result.filled output.new ≡ drop result.filled output.old }
{
    let mut size = state.size;
    if state.start < size {
        buffer[size] = NEWLINE;
        size += 1;
    }
    answer(State { size, ..state }, buffer, output)
}
