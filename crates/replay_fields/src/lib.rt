// Values of the fields of a line of text, and the parts beside them, put into a lent buffer.
#![tactic(auto)]

ghost use Rattle.text.specs.Putting.{Outputs};
ghost use Rattle.text.specs.Texts.{digits8};
ghost use Rattle.replay_fields.specs.AnswerFields.{byte_text, flag, flag_most, signed_text, signed_most, comma, comma_most, refused_text, refused_most};
ghost use Rattle.report.specs.ReportContracts.{number_of};

use report::Refusal;
use text::Out;

// The digits of a byte in hexadecimal.
const CODE: usize = text::DIGITS_8 as usize;

// Room for the longest line of an answer, except a writer's and a dump's, an error's: its word, ` port=`, ` byte2=`, ` byte3=`, ` start=`, ` length=`, ` code=` and ` kind=`, each with its value at its longest, and the newline.
pub const ANSWER: usize = 5
    + (6 + text::BYTE_MOST)
    + (7 + CODE)
    + (7 + CODE)
    + (7 + text::BYTE_MOST)
    + (8 + text::BYTE_MOST)
    + (6 + CODE)
    + (6 + CODE)
    + 1;

// A byte: two hexadecimal digits.
pub fn put_code(out: &mut Out, n: u8)
    ensures put { Outputs digits8 (byte_text n) out.old out.new }
{
    out.hex(text::DIGITS_8, n as usize)
}

#[tactic(auto, unfolding(crate::specs::AnswerFields::flag))]
pub fn put_flag(out: &mut Out, on: bool)
    ensures put { Outputs flag_most (flag on) out.old out.new }
{
    if on { out.byte(b'1') } else { out.byte(b'0') }
}

// A signed decimal number.
pub fn put_signed(out: &mut Out, n: i16)
    ensures put { Outputs signed_most (signed_text n) out.old out.new }
{
    if n < 0 {
        out.byte(b'-');
    }
    out.decimal(n.unsigned_abs() as usize)
}

// A comma before every element except the first.
pub fn put_comma(out: &mut Out, i: usize)
    ensures put { Outputs comma_most (comma i) out.old out.new }
{
    if i > 0 {
        out.byte(b',')
    }
}

// The line of a refusal, except a writer's.
pub fn put_refused(out: &mut Out, refusal: Refusal)
    ensures put { Outputs refused_most (refused_text (number_of refusal)) out.old out.new }
{
    out.word(b"refused ");
    out.small(u8::from(refusal));
    out.byte(b'\n')
}
