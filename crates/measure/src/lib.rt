// Many calls on one station that is kept in a local, for the benchmark. bench/measure.h is the C side.
#![tactic(auto)]

ghost use Rattle.std.specs.Prelude.{◌≡◌, ◌≤◌};
ghost use Rattle.report.specs.ReportContracts.{number_of};
ghost use Rattle.measure.specs.Weights.{about_weight, take_weight, write_weight, cancel_weight, tick_weight, restore_weight};
ghost use Rattle.measure.specs.MeasuredCalls.{measured, measured_by};
ghost use Rattle.port.specs.PortContracts.{about_of, taken_of, cancel_of};
ghost use Rattle.frame.specs.FrameContracts.{written_of};
ghost use Rattle.restore.specs.RestoreContracts.{restored_of};

use port::answer::{About, Taken};
use report::{Device, FeatureIndex, Refusal};
use restore::NotRestored;
use station::Station;

// The head of a call: its kind, the number of bytes that it lends, the device, byte 2, byte 3, the ticks, and two bytes that
// are not looked at.
const HEAD: usize = 8;

// A call lends fewer bytes than this; they follow its head.
const ROOM: u8 = 64;

const CALL: usize = HEAD + ROOM as usize;

const TAKE: u8 = 0;

const REQUEST: u8 = 1;

const CANCEL: u8 = 2;

const TICK: u8 = 3;

const STORE: u8 = 5;

const RESTORE: u8 = 6;

// What a store that is read adds, and what the number of a line that breaks the rules is multiplied by.
const RESTORED: u64 = 8000;

const LINE: u64 = 100;

fn about_weight(base: u16, a: About) -> u64
    ensures { result ≡ about_weight base (about_of a) }
{
    u64::from(base)
        + u64::from(a.port.0)
        + u64::from(a.byte2.0)
        + u64::from(a.byte3)
        + u64::from(a.start)
        + u64::from(a.length)
}

fn refusal_weight(refusal: Refusal) -> u64
    ensures weight { result ≡ number_of refusal }
    ensures small { result ≤ 255 }
{
    u64::from(u8::from(refusal))
}

fn take_weight(answer: Result<Taken, Refusal>) -> u64
    ensures { result ≡ take_weight (taken_of answer) }
{
    match answer {
        Err(refusal) => refusal_weight(refusal),
        Ok(Taken::Reply { about, dropped }) => about_weight(1000 + u16::from(dropped), about),
        Ok(Taken::Stray(a)) => about_weight(2000, a),
        Ok(Taken::Plain(a)) => about_weight(3000, a),
        Ok(Taken::Event(a)) => about_weight(4000, a),
        Ok(Taken::Failed { about, code, kind }) => {
            about_weight(5000 + u16::from(code) + u16::from(u8::from(kind)), about)
        }
        Ok(
            Taken::Radio {
                kind,
                start,
                length,
            },
        ) => 6000 + u64::from(kind) + u64::from(start) + u64::from(length),
        Ok(Taken::Noticed(_)) => 7000,
    }
}

fn write_weight(answer: Result<usize, Refusal>) -> u64
    ensures { result ≡ write_weight (written_of answer) }
{
    match answer {
        Err(refusal) => refusal_weight(refusal),
        Ok(size) => size as u64,
    }
}

fn cancel_weight(answer: Result<(), Refusal>) -> u64
    ensures { result ≡ cancel_weight (cancel_of answer) }
{
    match answer {
        Err(refusal) => refusal_weight(refusal),
        Ok(()) => 0,
    }
}

fn tick_weight(ended: [u8; port::PORTS]) -> u64
    ensures { result ≡ tick_weight ended }
{
    u64::from(ended[0])
        + u64::from(ended[1])
        + u64::from(ended[2])
        + u64::from(ended[3])
        + u64::from(ended[4])
        + u64::from(ended[5])
        + u64::from(ended[6])
}

fn restore_weight(answer: Result<(), NotRestored>) -> u64
    ensures { result ≡ restore_weight (restored_of answer) }
{
    match answer {
        Ok(()) => RESTORED,
        Err(NotRestored { refusal, line }) => {
            let number = refusal_weight(refusal);
            match line {
                Some(line) => number + LINE * u64::from(line),
                None => number,
            }
        }
    }
}

// Makes every whole call on a fresh station, each request, listing and store at the front of the buffer, and adds up
// what they answer. A restore reads the whole text.
#[unsafe(no_mangle)]
pub extern "C" fn blotterfinch_measure(calls: &[u8], text: &[u8], buffer: &mut [u8]) -> u64
    ensures by_rules { measured_by result buffer.new ≡ measured calls.now text.now buffer.old }
{
    let turns = calls.len() / CALL;
    let mut s = Station::new();
    let mut sum: u64 = 0;
    for i in 0..turns {
        let at = CALL * i;
        let kind = calls[at];
        let start = at + HEAD;
        let end = start + (calls[at + 1] % ROOM) as usize;
        let device = Device(calls[at + 2]);
        let byte2 = FeatureIndex(calls[at + 3]);
        let byte3 = calls[at + 4];
        let ticks = u16::from(calls[at + 5]);
        match kind {
            TAKE => {
                let taken = s.take(&calls[start..end]);
                s = taken.next;
                sum = sum.wrapping_add(take_weight(taken.answer));
                continue;
            }
            REQUEST => {
                let requested = s.request(
                    device,
                    byte2,
                    byte3,
                    ticks,
                    &calls[start..end],
                    buffer,
                    0,
                );
                s = requested.next;
                sum = sum.wrapping_add(write_weight(requested.answer));
                continue;
            }
            CANCEL => {
                let cancelled = s.cancel(device, byte2, byte3);
                s = cancelled.next;
                sum = sum.wrapping_add(cancel_weight(cancelled.answer));
                continue;
            }
            TICK => {
                let ticked = s.tick();
                s = ticked.next;
                sum = sum.wrapping_add(tick_weight(ticked.answer));
                continue;
            }
            STORE => {
                sum = sum.wrapping_add(write_weight(s.store(buffer, 0)));
                continue;
            }
            RESTORE => {
                let restored = s.restore(text);
                s = restored.next;
                sum = sum.wrapping_add(restore_weight(restored.answer));
                continue;
            }
            _ => {
                sum = sum.wrapping_add(write_weight(s.list(buffer, 0)));
                continue;
            }
        }
    }
    sum
}
