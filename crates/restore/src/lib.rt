// Reading a store: the paired devices from text that a console kept.
#![tactic(auto)]

ghost use Rattle.std.specs.Prelude.{◌≡◌, ◌<◌, List};
ghost use Rattle.report.specs.Ports.{device_count};
ghost use Rattle.port.specs.Records.{feature_count};
ghost use Rattle.port.specs.declared.Port.{Port};
ghost use Rattle.scan.specs.ScanContracts.{scan_of};
ghost use Rattle.store.specs.Stores.{pad_port};
ghost use Rattle.restore.specs.Restoring.{stop_after, indexes_scan, device_scan, devices_in, restored_by, read_store, restore_ports};
ghost use Rattle.restore.specs.RestoreContracts.{restoring_of, restoring_by, capped_edition};

use port::{Called, Port, Version};
use report::{FeatureIndex, Refusal};

// Devices 1 to 6 have positions 0 to 5 among the ports; the receiver comes last.
const DEVICES: usize = report::DEVICES as usize;

// The edition that is read.
const EDITION: u16 = 1;

// Why a text was not restored: refusal 15; or refusal 16, and the number of the first line that breaks the rules.
#[derive(Clone, Copy, PartialEq, Eq)]
pub struct NotRestored {
    pub refusal: Refusal,
    pub line: Option<u8>,
}

// The byte after the index at a position.
fn stop_after(position: usize) -> u8
    requires { position < feature_count }
    ensures { result ≡ stop_after position }
{
    if position + 1 < port::FEATURES {
        text::TAB
    } else {
        text::NEWLINE
    }
}

// The indexes of the known features.
#[tactic(auto, using(crate::proofs::RestoringLaws::indexes_begun, crate::proofs::RestoringLaws::index_missing, crate::proofs::RestoringLaws::indexes_done))]
fn scan_indexes(text: &[u8]) -> Option<([FeatureIndex; port::FEATURES], &[u8])>
    ensures { scan_of result ≡ indexes_scan feature_count text.now }
{
    let mut features = [FeatureIndex(0); port::FEATURES];
    let mut rest = text;
    for i in 0..port::FEATURES {
        let (index, after) = scan::scan_decimal(rest, port::MAX_INDEX, stop_after(i))?;
        features[i] = FeatureIndex(index);
        rest = after;
    }
    Some((features, rest))
}

// A paired device of which these are known.
#[tactic(auto, unfolding(store::specs::Stores::pad_port, port::specs::Records::fresh_port))]
fn pad_port(
    wpid: u16,
    serial: Option<u32>,
    reports: u32,
    version: Option<Version>,
    features: [FeatureIndex; port::FEATURES],
) -> Port
    ensures { result ≡ pad_port wpid serial reports version features }
{
    Port {
        paired: true,
        wpid,
        reports,
        version,
        features,
        serial,
        ..port::fresh()
    }
}

// The line of the device of a number.
#[tactic(auto, unfolding(crate::specs::Restoring::device_scan, crate::specs::Restoring::pad_scan, scan::specs::Scans::pair_scan), using(crate::proofs::RestoringLaws::device_word))]
fn scan_device(text: &[u8], number: u8) -> Option<(Port, &[u8])>
    requires { number < 10 }
    ensures { scan_of result ≡ device_scan number text.now }
{
    let text = scan::scan_word(text, &[b'0' + number, text::TAB])?;
    let (wpid, text) = scan::scan_hex16(text, text::TAB)?;
    let (serial, text) = scan::scan_serial(text, text::TAB)?;
    let (reports, text) = scan::scan_hex32(text, text::TAB)?;
    let (version, text) = scan::scan_version(text, text::TAB)?;
    let (features, text) = scan_indexes(text)?;
    Some((pad_port(wpid, serial, reports, version, features), text))
}

// The first line: "pads", a tab and the edition.
#[tactic(auto, unfolding(crate::specs::Restoring::edition_scan, scan::specs::Scans::pair_scan, scan::specs::ScanContracts::capped_scan))]
fn scan_edition(text: &[u8]) -> Option<(u16, &[u8])>
    ensures { scan_of result ≡ capped_edition text.now }
{
    scan::scan_number(scan::scan_word(text, b"pads\t")?, text::NEWLINE)
}

// A line of this number is the first that breaks the rules.
fn broken(line: u8) -> NotRestored
    ensures { result ≡ record { refusal = Refusal.BrokenLine; line = Some line } }
{
    NotRestored {
        refusal: Refusal::BrokenLine,
        line: Some(line),
    }
}

// The lines of the devices, from the second line of the text on.
#[tactic(auto, using(crate::proofs::RestoringLaws::devices_begun, crate::proofs::RestoringLaws::device_absent, crate::proofs::RestoringLaws::devices_broken, crate::proofs::RestoringLaws::devices_done))]
fn read_devices(text: &[u8]) -> Result<[Port; port::PORTS], NotRestored>
    ensures { (ports : List Port) → restoring_by ports result ≡ restored_by ports (devices_in device_count 1 2 text.now) }
{
    let mut ports = [port::fresh(); port::PORTS];
    let mut line = 2;
    let mut rest = text;
    for i in 0..DEVICES {
        let Some((port, after)) = scan_device(rest, (i + 1) as u8) else {
            continue;
        };
        ports[i] = port;
        line += 1;
        rest = after;
    }
    if rest.is_empty() {
        Ok(ports)
    } else {
        Err(broken(line))
    }
}

// The whole text.
#[tactic(auto, unfolding(crate::specs::Restoring::read_store), using(crate::proofs::RestoringLaws::edition_other))]
fn read_store(text: &[u8]) -> Result<[Port; port::PORTS], NotRestored>
    ensures { (ports : List Port) → restoring_by ports result ≡ restored_by ports (read_store text.now) }
{
    let Some((edition, text)) = scan_edition(text) else {
        return Err(broken(1));
    };
    if edition != EDITION {
        return Err(NotRestored {
            refusal: Refusal::OtherEdition,
            line: None,
        });
    }
    read_devices(text)
}

// Reads a store: the ports are those of the store, or stay as they were, refused with 15, or with 16 and the number of a line.
#[tactic(auto, unfolding(crate::specs::Restoring::restore_ports))]
pub fn restore(
    ports: [Port; port::PORTS],
    text: &[u8],
) -> Called<Result<(), NotRestored>, [Port; port::PORTS]>
    ensures read { restoring_of result ≡ restore_ports ports text.now }
{
    match read_store(text) {
        Ok(read) => Called {
            answer: Ok(()),
            next: read,
        },
        Err(reason) => Called {
            answer: Err(reason),
            next: ports,
        },
    }
}
