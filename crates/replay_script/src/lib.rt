// Whole lines of a script, answered one after the other into an output buffer.
#![tactic(auto)]

ghost use Rattle.std.specs.Prelude.{◌≡◌, ◌≤◌, true, length, drop};
ghost use Rattle.frame.specs.Writing.{fits_at};
ghost use Rattle.replay_desk.specs.LineAnswers.{answer_room};
ghost use Rattle.replay_script.specs.Shares.{share_rule};
ghost use Rattle.replay_script.specs.ScriptContracts.{share_of, Adds};

use station::Station;
use text::NEWLINE;

pub mod finding;

// How far a text was answered: the station and the number of lines so far, how much of the text was used and of the output buffer filled, and whether a whole line is left for want of room. `used` and `filled` are offsets, and no slices, since the two buffers are the caller's; and `full` stays a flag, since the others say the same with it and without it.
#[derive(Clone, Copy)]
pub struct Progress {
    pub station: Station,
    pub number: usize,
    pub used: usize,
    pub filled: usize,
    pub full: bool,
}

// Answers the next line behind what the output buffer holds. `bytes` are for those of its call.
fn answer(
    run: Progress,
    line: &[u8],
    bytes: &mut [u8; replay_line::MOST_LENT],
    output: &mut [u8],
) -> Progress
    requires { fits_at answer_room run.filled (length output.old) ≡ true }
    ensures { Adds run line.now output.old result output.new }
{
    let number = run.number.wrapping_add(1);
    let answered = replay_desk::answer_line(run.station, number, line, bytes, output, run.filled);
    Progress {
        station: answered.next,
        number,
        filled: run.filled + answered.answer.unwrap_or(0),
        ..run
    }
}

// Answers the whole lines of a text, which come after this number of lines, from the front of the output buffer on and while it has room for any answer.
pub fn answer_lines(station: Station, number: usize, text: &[u8], output: &mut [u8]) -> Progress
    ensures answers { share_of result text.now output.new ≡ share_rule station number text.now (length output.old) }
    ensures behind { drop result.filled output.new ≡ drop result.filled output.old }
    ensures used { result.used ≤ length text.now }
    ensures filled { result.filled ≤ length output.new }
{
    let mut run = Progress {
        station,
        number,
        used: 0,
        filled: 0,
        full: false,
    };
    let mut bytes = [0u8; replay_line::MOST_LENT];
    while let Some(end) = finding::find(text, run.used, text.len(), NEWLINE) {
        if output.len() - run.filled < replay_desk::ANSWER {
            return Progress { full: true, ..run };
        }
        run = answer(run, &text[run.used..end], &mut bytes, output);
        run.used = end + 1;
    }
    run
}
