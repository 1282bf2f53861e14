// The line of what taking a report answered, put whole into a lent buffer, or not at all.
#![tactic(auto)]

ghost use Rattle.std.specs.Prelude.{ℕ, List, [], ◌++◌, ◌+◌, length, Ok};
ghost use Rattle.text.specs.Putting.{Outputs, OutputsWhole, PutsWith};
ghost use Rattle.text.specs.Words.{decimal};
ghost use Rattle.text.specs.Texts.{digits8, byte_most};
ghost use Rattle.port.specs.Answers.{reply, failed};
ghost use Rattle.replay_fields.specs.AnswerFields.{field, field_most, line, line_end, byte_text, about_most, answer_most};
ghost use Rattle.replay_taken.specs.TakenLines.{about_text, notice_text, taken_text};
ghost use Rattle.port.specs.PortContracts.{about_of, notice_of, kind_number, taken_of};

use port::answer::{About, ErrorKind, Notice, Taken};
use report::Refusal;
use text::Out;

// What every answer to a HID++ report carries.
fn put_about(out: &mut Out, about: About)
    ensures { Outputs about_most (about_text (about_of about)) out.old out.new }
{
    out.word(b" port=");
    out.small(about.port.0);
    out.word(b" byte2=");
    replay_fields::put_code(out, about.byte2.0);
    out.word(b" byte3=");
    replay_fields::put_code(out, about.byte3);
    out.word(b" start=");
    out.small(about.start);
    out.word(b" length=");
    out.small(about.length)
}

// The line of an answer to a HID++ report: a word, what each of them carries, and what `rest` puts.
fn put_carried<F: FnOnce(&mut Out)>(out: &mut Out, word: &[u8], about: About, rest: F)
    requires { F.IsAlwaysCallable rest }
    ensures { (text : List ℕ) (most : ℕ) → PutsWith (F.post rest) most text → Outputs (length word.now + (about_most + (most + line_end))) (word.now ++ (about_text (about_of about) ++ (text ++ line []))) out.old out.new }
{
    out.word(word);
    put_about(out, about);
    rest(out);
    out.byte(b'\n')
}

// The number of requests that were dropped.
fn put_dropped(out: &mut Out, dropped: u8)
    ensures { Outputs (field_most "dropped" byte_most) (field "dropped" (decimal dropped)) out.old out.new }
{
    out.word(b" dropped=");
    out.small(dropped)
}

// A reply also carries the number of requests that it dropped.
fn put_reply(out: &mut Out, about: About, dropped: u8)
    ensures { Outputs answer_most (taken_text (reply dropped (about_of about))) out.old out.new }
{
    put_carried(out, b"reply", about, |out| put_dropped(out, dropped))
}

// An error also carries its code and its kind.
fn put_error(out: &mut Out, code: u8, kind: ErrorKind)
    ensures { Outputs (field_most "code" digits8 + field_most "kind" digits8) (field "code" (byte_text code) ++ field "kind" (byte_text (kind_number kind))) out.old out.new }
{
    out.word(b" code=");
    replay_fields::put_code(out, code);
    out.word(b" kind=");
    replay_fields::put_code(out, u8::from(kind))
}

fn put_failed(out: &mut Out, about: About, code: u8, kind: ErrorKind)
    ensures { Outputs answer_most (taken_text (failed (about_of about) code (kind_number kind))) out.old out.new }
{
    put_carried(out, b"error", about, |out| put_error(out, code, kind))
}

fn put_notice(out: &mut Out, notice: Notice)
    ensures { Outputs answer_most (notice_text (notice_of notice)) out.old out.new }
{
    match notice {
        Notice::Unpaired { port, dropped } => {
            out.word(b"unpaired port=");
            out.small(port.0);
            put_dropped(out, dropped);
            out.byte(b'\n')
        }
        Notice::Paired {
            port,
            more,
            wpid,
            reports,
            dropped,
        } => {
            out.word(b"paired port=");
            out.small(port.0);
            out.word(b" more=");
            replay_fields::put_flag(out, more);
            out.word(b" wpid=");
            out.hex(text::DIGITS_16, wpid as usize);
            out.word(b" reports=");
            out.hex(text::DIGITS_32, reports as usize);
            put_dropped(out, dropped);
            out.byte(b'\n')
        }
        Notice::EmptyList => out.word(b"empty-list\n"),
        Notice::Link { port, up } => {
            out.word(b"link port=");
            out.small(port.0);
            out.byte(b' ');
            out.link(up);
            out.byte(b'\n')
        }
        Notice::Other { port, kind } => {
            out.word(b"other port=");
            out.small(port.0);
            out.word(b" type=");
            replay_fields::put_code(out, kind);
            out.byte(b'\n')
        }
    }
}

fn put_taken_line(out: &mut Out, taken: Taken)
    ensures { Outputs answer_most (taken_text (taken_of (Ok taken))) out.old out.new }
{
    match taken {
        Taken::Reply { about, dropped } => put_reply(out, about, dropped),
        Taken::Stray(about) => put_carried(out, b"stray", about, |_| ()),
        Taken::Plain(about) => put_carried(out, b"plain", about, |_| ()),
        Taken::Event(about) => put_carried(out, b"event", about, |_| ()),
        Taken::Failed { about, code, kind } => put_failed(out, about, code, kind),
        Taken::Radio {
            kind,
            start,
            length,
        } => {
            out.word(b"radio type=");
            replay_fields::put_code(out, kind);
            out.word(b" start=");
            out.small(start);
            out.word(b" length=");
            out.small(length);
            out.byte(b'\n')
        }
        Taken::Noticed(notice) => put_notice(out, notice),
    }
}

fn put_answer_line(out: &mut Out, answer: Result<Taken, Refusal>)
    ensures { Outputs answer_most (taken_text (taken_of answer)) out.old out.new }
{
    match answer {
        Ok(taken) => put_taken_line(out, taken),
        Err(refusal) => replay_fields::put_refused(out, refusal),
    }
}

// What taking a report answered. Nothing where there is less room than the longest answer takes.
pub fn put_taken(out: &mut Out, answer: Result<Taken, Refusal>)
    ensures put { OutputsWhole answer_most (taken_text (taken_of answer)) out.old out.new }
{
    if out.has_room(replay_fields::ANSWER) {
        put_answer_line(out, answer)
    }
}
