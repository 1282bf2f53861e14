// The row of one answer: the kind, and the answer's values.
ghost use Rattle.std.specs.Prelude.{◌≡◌, ◌≤◌, [], ◌∷◌, length};
ghost use Rattle.report.specs.ReportContracts.{number_of};
ghost use Rattle.port.specs.Answers.{paired};
ghost use Rattle.encoded.specs.Rows.{row_size, row, about_row, notice_row, taken_row, written_row, cancelled_row, ticked_row, restored_row};
ghost use Rattle.port.specs.PortContracts.{about_of, taken_of, notice_of, cancel_of};
ghost use Rattle.frame.specs.FrameContracts.{written_of};
ghost use Rattle.restore.specs.RestoreContracts.{restored_of};

use port::answer::{About, Notice, Taken};
use report::Refusal;
use restore::NotRestored;

// The longest answer is a pairing: kind, port, more, two bytes of WPID, four of bitfield, and the count of dropped requests.
pub const ROW: usize = 1 + 1 + 1 + 2 + 4 + 1;

// A kind and its values, and then zeros.
#[tactic(auto, using(crate::proofs::RowsLaws::filled_row))]
fn row(values: &[u8]) -> [u8; ROW]
    requires { length values.now ≤ row_size }
    ensures { result ≡ row values.now }
{
    let mut row = [0; ROW];
    row[..values.len()].copy_from_slice(values);
    row
}

// A reply's value is its drop count, an error's its code.
fn of_about(kind: u8, about: About, value: u8, error: u8) -> [u8; ROW]
    ensures { result ≡ about_row kind (about_of about) value error }
{
    row(&[
        kind,
        about.port.0,
        about.byte2.0,
        about.byte3,
        about.start,
        about.length,
        value,
        error,
    ])
}

fn of_paired(port: u8, more: bool, wpid: u16, reports: u32, dropped: u8) -> [u8; ROW]
    ensures { result ≡ notice_row (paired port more wpid reports dropped) }
{
    let [w0, w1] = wpid.to_le_bytes();
    let [r0, r1, r2, r3] = reports.to_le_bytes();
    row(&[8, port, u8::from(more), w0, w1, r0, r1, r2, r3, dropped])
}

fn of_notice(notice: Notice) -> [u8; ROW]
    ensures { result ≡ notice_row (notice_of notice) }
{
    match notice {
        Notice::Unpaired { port, dropped } => row(&[7, port.0, dropped]),
        Notice::Paired {
            port,
            more,
            wpid,
            reports,
            dropped,
        } => of_paired(port.0, more, wpid, reports, dropped),
        Notice::EmptyList => row(&[9]),
        Notice::Link { port, up } => row(&[10, port.0, u8::from(up)]),
        Notice::Other { port, kind } => row(&[11, port.0, kind]),
    }
}

// A refusal's kind, and its number.
fn of_refusal(kind: u8, refusal: Refusal) -> [u8; ROW]
    ensures { result ≡ row (kind ∷ number_of refusal ∷ []) }
{
    row(&[kind, u8::from(refusal)])
}

pub fn of_taken(answer: Result<Taken, Refusal>) -> [u8; ROW]
    ensures row { result ≡ taken_row (taken_of answer) }
{
    match answer {
        Err(refusal) => of_refusal(0, refusal),
        Ok(Taken::Reply { about, dropped }) => of_about(1, about, dropped, 0),
        Ok(Taken::Stray(about)) => of_about(2, about, 0, 0),
        Ok(Taken::Plain(about)) => of_about(3, about, 0, 0),
        Ok(Taken::Event(about)) => of_about(4, about, 0, 0),
        Ok(Taken::Failed { about, code, kind }) => of_about(5, about, code, u8::from(kind)),
        Ok(
            Taken::Radio {
                kind,
                start,
                length,
            },
        ) => row(&[6, kind, start, length]),
        Ok(Taken::Noticed(notice)) => of_notice(notice),
    }
}

pub fn of_written(answer: Result<usize, Refusal>) -> [u8; ROW]
    ensures row { result ≡ written_row (written_of answer) }
{
    match answer {
        Err(refusal) => of_refusal(12, refusal),
        Ok(n) => {
            let [low, high, ..] = n.to_le_bytes();
            row(&[13, low, high])
        }
    }
}

pub fn of_cancelled(answer: Result<(), Refusal>) -> [u8; ROW]
    ensures row { result ≡ cancelled_row (cancel_of answer) }
{
    match answer {
        Err(refusal) => of_refusal(14, refusal),
        Ok(()) => row(&[15]),
    }
}

pub fn of_ticked(counts: [u8; port::PORTS]) -> [u8; ROW]
    ensures row { result ≡ ticked_row counts }
{
    let [c0, c1, c2, c3, c4, c5, c6] = counts;
    row(&[16, c0, c1, c2, c3, c4, c5, c6])
}

pub fn of_restored(answer: Result<(), NotRestored>) -> [u8; ROW]
    ensures row { result ≡ restored_row (restored_of answer) }
{
    match answer {
        Err(NotRestored { refusal, line }) => row(&[17, u8::from(refusal), line.unwrap_or(0)]),
        Ok(()) => row(&[18]),
    }
}
