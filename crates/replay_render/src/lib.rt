// The lines of text that replay's answers become, except those of a taken report and of a dump, each put whole into a lent buffer, or not at all.
#![tactic(auto)]

ghost use Rattle.std.specs.Prelude.{◌≡◌, ◌≤◌, ◌^◌, ℕ, List, IfSome, IfNone, length};
ghost use Rattle.mouse.specs.Movement.{moved};
ghost use Rattle.mouse.specs.MouseContracts.{moved_of};
ghost use Rattle.text.specs.Words.{decimal};
ghost use Rattle.text.specs.Putting.{Outputs, OutputsWhole, PutsWith};
ghost use Rattle.text.specs.Texts.{byte_most};
ghost use Rattle.replay_fields.specs.AnswerFields.{byte_text, spaced, spaced_most, answer_most};
ghost use Rattle.replay_render.specs.AnswerLines.{lent_most, outcome_text, outcome_most, written_text, written_most, cancelled_text, ended_text, restored_text, report_text, reading_text, moved_text, no_call_text};
ghost use Rattle.port.specs.PortContracts.{cancel_of};
ghost use Rattle.report.specs.ReportContracts.{number_of, hidpp_of, dj_of, reading_of};
ghost use Rattle.frame.specs.FrameContracts.{written_of};
ghost use Rattle.restore.specs.Restoring.{refused_at};
ghost use Rattle.restore.specs.RestoreContracts.{restored_of};

use mouse::Motion;
use report::{DjReport, FeatureIndex, HidppReport, Reading, Refusal};
use restore::NotRestored;
use text::{Out, PutElement};

// Room for the longest line, except a writer's.
const ANSWER: usize = replay_fields::ANSWER;

// A lent byte in a writer's line, with the space before it; and the longest rest of that line: its word and the space after it, the number, the colon and the newline.
const LENT_BYTE: usize = 1 + text::DIGITS_8 as usize;

const WRITTEN: usize = 8 + text::NUMBER_MOST + 1 + 1;

// What `put` puts, all of it or nothing: nothing where fewer than `most` bytes are left.
fn whole<F: FnOnce(&mut Out)>(out: &mut Out, most: usize, put: F)
    requires { F.IsAlwaysCallable put }
    ensures whole { (text : List ℕ) → PutsWith (F.post put) most text → OutputsWhole most text out.old out.new }
{
    if out.has_room(most) {
        put(out)
    }
}

// A lent byte after a space.
fn put_lent(out: &mut Out, position: usize, byte: &u8)
    ensures { Outputs lent_most (spaced byte_text position byte.now) out.old out.new }
{
    out.byte(b' ');
    replay_fields::put_code(out, *byte)
}

// The bytes of a lent buffer.
struct Lent;

impl PutElement<u8> for Lent {
    ghost most = { λ _. lent_most };

    ghost text = { λ _. spaced byte_text };

    fn put(&self, out: &mut Out, position: usize, byte: &u8) {
        put_lent(out, position, byte)
    }
}

fn put_outcome(out: &mut Out, word: &[u8], n: usize, lent: &[u8])
    ensures { Outputs (outcome_most word.now (length lent.now)) (outcome_text word.now n lent.now) out.old out.new }
{
    out.word(word);
    out.decimal(n);
    out.byte(b':');
    out.each(lent, &Lent);
    out.byte(b'\n')
}

fn put_written_line(out: &mut Out, answer: Result<usize, Refusal>, lent: &[u8])
    ensures { Outputs (written_most (length lent.now)) (written_text (written_of answer) lent.now) out.old out.new }
{
    match answer {
        Ok(size) => put_outcome(out, b"wrote ", size, lent),
        Err(refusal) => put_outcome(out, b"refused ", u8::from(refusal) as usize, lent),
    }
}

// The longest line of a writer with so many lent bytes, where a number of 64 bits holds it.
fn longest_written(size: usize) -> Option<usize>
    ensures some { IfSome result (λ most. most ≡ written_most size) }
    ensures none { IfNone result (2 ^ 64 ≤ written_most size) }
{
    size.checked_mul(LENT_BYTE)?.checked_add(WRITTEN)
}

// What a writer answered, and the whole buffer that was lent to it, as it left it. Each public function here puts nothing where there is less room than the longest line of its kind takes.
pub fn put_written(out: &mut Out, answer: Result<usize, Refusal>, lent: &[u8])
    ensures put { OutputsWhole (written_most (length lent.now)) (written_text (written_of answer) lent.now) out.old out.new }
{
    if let Some(most) = longest_written(lent.len()) {
        whole(out, most, |out| put_written_line(out, answer, lent))
    }
}

// Each line of a Result has an arm for a refusal of its own: for one function that takes what puts the other answers, the proof did not close where the closure given to `whole` calls it.
fn put_cancelled_line(out: &mut Out, answer: Result<(), Refusal>)
    ensures { Outputs answer_most (cancelled_text (cancel_of answer)) out.old out.new }
{
    match answer {
        Ok(()) => out.word(b"cancelled\n"),
        Err(refusal) => replay_fields::put_refused(out, refusal),
    }
}

pub fn put_cancelled(out: &mut Out, answer: Result<(), Refusal>)
    ensures put { OutputsWhole answer_most (cancelled_text (cancel_of answer)) out.old out.new }
{
    whole(out, ANSWER, |out| put_cancelled_line(out, answer))
}

// The count of one port after a space.
fn put_count(out: &mut Out, position: usize, count: &u8)
    ensures { Outputs (spaced_most byte_most) (spaced decimal position count.now) out.old out.new }
{
    out.byte(b' ');
    out.small(*count)
}

// The counts of a tick.
struct Counts;

impl PutElement<u8> for Counts {
    ghost most = { λ _. spaced_most byte_most };

    ghost text = { λ _. spaced decimal };

    fn put(&self, out: &mut Out, position: usize, count: &u8) {
        put_count(out, position, count)
    }
}

fn put_ended_line(out: &mut Out, counts: &[u8; port::PORTS])
    ensures { Outputs answer_most (ended_text counts.now) out.old out.new }
{
    out.word(b"ended");
    out.each(counts, &Counts);
    out.byte(b'\n')
}

// The number of requests that a tick ended on each port.
pub fn put_ended(out: &mut Out, counts: [u8; port::PORTS])
    ensures put { OutputsWhole answer_most (ended_text counts) out.old out.new }
{
    whole(out, ANSWER, |out| put_ended_line(out, &counts))
}

// A refusal, and the number of the line that it is for.
fn put_refused_at(out: &mut Out, refusal: Refusal, line: u8)
    ensures { Outputs answer_most (restored_text (refused_at (number_of refusal) line)) out.old out.new }
{
    out.word(b"refused ");
    out.small(u8::from(refusal));
    out.word(b" line=");
    out.small(line);
    out.byte(b'\n')
}

fn put_restored_line(out: &mut Out, answer: Result<(), NotRestored>)
    ensures { Outputs answer_most (restored_text (restored_of answer)) out.old out.new }
{
    match answer {
        Ok(()) => out.word(b"restored\n"),
        Err(NotRestored { refusal, line }) => match line {
            None => replay_fields::put_refused(out, refusal),
            Some(line) => put_refused_at(out, refusal, line),
        },
    }
}

// What reading a store answered.
pub fn put_restored(out: &mut Out, answer: Result<(), NotRestored>)
    ensures put { OutputsWhole answer_most (restored_text (restored_of answer)) out.old out.new }
{
    whole(out, ANSWER, |out| put_restored_line(out, answer))
}

fn put_report(out: &mut Out, report: HidppReport)
    ensures { Outputs answer_most (report_text (hidpp_of report)) out.old out.new }
{
    out.word(b"report id=");
    replay_fields::put_code(out, report.id);
    out.word(b" device=");
    replay_fields::put_code(out, report.device.0);
    out.word(b" byte2=");
    replay_fields::put_code(out, report.byte2.0);
    out.word(b" byte3=");
    replay_fields::put_code(out, report.byte3);
    out.word(b" start=");
    out.small(report.start);
    out.word(b" length=");
    out.small(report.length);
    out.byte(b'\n')
}

// Bytes 2 and 3 of a DJ report are its type and its first parameter.
fn put_dj(out: &mut Out, report: DjReport)
    ensures { Outputs answer_most (report_text (dj_of report)) out.old out.new }
{
    put_report(
        out,
        HidppReport {
            id: report.id,
            device: report.device,
            byte2: FeatureIndex(report.kind),
            byte3: report.p0,
            start: report.start,
            length: report.length,
        },
    )
}

fn put_reading_line(out: &mut Out, answer: Result<Reading, Refusal>)
    ensures { Outputs answer_most (reading_text (reading_of answer)) out.old out.new }
{
    match answer {
        Ok(Reading::Hidpp(report)) => put_report(out, report),
        Ok(Reading::Dj(report)) => put_dj(out, report),
        Ok(Reading::EmptyList(report)) => put_dj(out, report),
        Err(refusal) => replay_fields::put_refused(out, refusal),
    }
}

// What reading one report without a station answered.
pub fn put_reading(out: &mut Out, answer: Result<Reading, Refusal>)
    ensures put { OutputsWhole answer_most (reading_text (reading_of answer)) out.old out.new }
{
    whole(out, ANSWER, |out| put_reading_line(out, answer))
}

fn put_motion(out: &mut Out, motion: Motion)
    ensures { Outputs answer_most (moved_text (moved motion.buttons motion.x motion.y motion.wheel motion.pan)) out.old out.new }
{
    out.word(b"moved buttons=");
    out.hex(text::DIGITS_16, motion.buttons as usize);
    out.word(b" x=");
    replay_fields::put_signed(out, motion.x);
    out.word(b" y=");
    replay_fields::put_signed(out, motion.y);
    out.word(b" wheel=");
    replay_fields::put_signed(out, motion.wheel as i16);
    out.word(b" pan=");
    replay_fields::put_signed(out, motion.pan as i16);
    out.byte(b'\n')
}

fn put_moved_line(out: &mut Out, answer: Result<Motion, Refusal>)
    ensures { Outputs answer_most (moved_text (moved_of answer)) out.old out.new }
{
    match answer {
        Ok(motion) => put_motion(out, motion),
        Err(refusal) => replay_fields::put_refused(out, refusal),
    }
}

pub fn put_moved(out: &mut Out, answer: Result<Motion, Refusal>)
    ensures put { OutputsWhole answer_most (moved_text (moved_of answer)) out.old out.new }
{
    whole(out, ANSWER, |out| put_moved_line(out, answer))
}

fn put_no_call_line(out: &mut Out, number: usize)
    ensures { Outputs answer_most (no_call_text number) out.old out.new }
{
    out.word(b"line ");
    out.decimal(number);
    out.word(b" is no call\n")
}

// The answer to a line of a script that is no call.
pub fn put_no_call(out: &mut Out, number: usize)
    ensures put { OutputsWhole answer_most (no_call_text number) out.old out.new }
{
    whole(out, ANSWER, |out| put_no_call_line(out, number))
}
