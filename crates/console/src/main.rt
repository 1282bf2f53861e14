// An example to copy: takes the whole reports on standard input, of at most 65536 bytes, on one station, says what each was, and prints the port listing.
#![tactic(auto)]

ghost use Rattle.std.specs.Prelude.{◌≡◌, ◌<◌, IfSome, length};
ghost use Rattle.station.specs.StationTaking.{take_rule};

use port::answer::{Notice, Taken};
use report::Refusal;
use station::Station;
use std::io;
use std::io::{Print, Read};

// As many bytes as are taken.
const MOST: u64 = 65536;

fn say(rt: &impl Print, word: &str, number: u64) {
    let _ = println!(rt; "{word}{number}");
}

fn say_answer(rt: &impl Print, answer: Result<Taken, Refusal>) {
    match answer {
        Err(refusal) => say(rt, "refused with ", u64::from(u8::from(refusal))),
        Ok(Taken::Reply { about, .. }) => say(rt, "reply of port ", u64::from(about.port.0)),
        Ok(Taken::Stray(about)) => say(rt, "stray of port ", u64::from(about.port.0)),
        Ok(Taken::Plain(about)) => say(rt, "notice of port ", u64::from(about.port.0)),
        Ok(Taken::Event(about)) => say(rt, "event of port ", u64::from(about.port.0)),
        Ok(Taken::Failed { code, .. }) => say(rt, "error ", u64::from(code)),
        Ok(Taken::Radio { kind, .. }) => say(rt, "radio report of type ", u64::from(kind)),
        Ok(Taken::Noticed(Notice::Paired { port, .. })) => {
            say(rt, "paired: device ", u64::from(port.0))
        }
        Ok(Taken::Noticed(_)) => {
            let _ = println!(rt; "another notification");
        }
    }
}

// A call gives the next station, which has to be kept: this contract is not met by the station before the call.
fn take_report(rt: &impl Print, station: Station, bytes: &[u8]) -> Station
    ensures next { result ≡ (take_rule station bytes.now).station }
{
    let taken = station.take(bytes);
    say_answer(rt, taken.answer);
    taken.next
}

// The front of the bytes as long as its first byte says, and what is behind it.
fn next_report(bytes: &[u8]) -> Option<(&[u8], &[u8])>
    ensures shorter { IfSome result (λ found. length found.1.now < length bytes.now) }
{
    let length = usize::from(report::length_of(*bytes.first()?)?);
    if length == 0 || length > bytes.len() {
        return None;
    }
    Some(bytes.split_at(length))
}

fn take_all(rt: &impl Print, mut station: Station, bytes: &[u8]) -> Station {
    let mut left = bytes;
    while let Some((report, rest)) = next_report(left) {
        station = take_report(rt, station, report);
        left = rest;
    }
    if !left.is_empty() {
        say(rt, "bytes that are no report: ", left.len() as u64);
    }
    station
}

// A read that fails ends the reports; after the listing, the program fails with what it said.
fn main(rt: HostRuntime) -> io::Result<()> {
    let mut bytes = Vec::new(rt.alloc());
    let read = rt.stdin().take(MOST).read_to_end(&mut bytes);
    let station = take_all(&rt, Station::new(), bytes.as_slice());
    let mut text = [0; 4096];
    if let Ok(length) = station.list(&mut text, 0) {
        if let Some(listing) = text.get(..length) {
            let _ = rt.write_all(listing);
        }
    }
    read?;
    Ok(())
}
