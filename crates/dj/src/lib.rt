// Taking a DJ report at the port that it names.
#![tactic(auto)]

ghost use Rattle.std.specs.Prelude.{◌≡◌};
ghost use Rattle.report.specs.Sizes.{bit};
ghost use Rattle.report.specs.ReportContracts.{dj_of};
ghost use Rattle.port.specs.PortContracts.{result_of};
ghost use Rattle.dj.specs.DjContracts.{acceptance, accepted_of, length_accepted, noticed_by};
ghost use Rattle.dj.specs.DjTaking.{p, is_declared, radio_rule, unpaired_rule, wpid_of, reports_of, is_paired_with, paired_rule, link_rule, other_rule, take_dj};

use port::answer::{Notice, Taken};
use port::{Called, Port};
use report::{Device, DjReport, Refusal, radio};

pub mod padding;

// Whether the device said that it sends radio reports of this type.
fn is_declared(reports: u32, kind: u8) -> bool
    ensures { result ≡ is_declared reports kind }
{
    kind < radio::RADIO_TYPES && (reports >> kind) % 2 == 1
}

// The length of the payload of a radio report with `following` bytes after its type, or 7, 8 or 17.
#[tactic(auto, unfolding(crate::specs::DjContracts::acceptance))]
fn accept(paired: bool, reports: u32, kind: u8, following: u8, bytes: &[u8]) -> Result<u8, Refusal>
    ensures { accepted_of result ≡ acceptance paired reports kind following bytes.now }
{
    if !paired {
        return Err(Refusal::NotPaired);
    }
    if !is_declared(reports, kind) {
        return Err(Refusal::NotDeclared);
    }
    let length = radio::payload_length(kind, following);
    if !padding::is_clean(length, bytes) {
        return Err(Refusal::DirtyPadding);
    }
    Ok(length)
}

// That length, where the report is accepted from a device.
pub fn accepted_length(
    paired: bool,
    reports: u32,
    kind: u8,
    following: u8,
    bytes: &[u8],
) -> Option<u8>
    ensures length { result ≡ length_accepted paired reports kind following bytes.now }
{
    accept(paired, reports, kind, following, bytes).ok()
}

// A radio report with `following` bytes after its type.
fn take_radio(
    port: Port,
    kind: u8,
    following: u8,
    bytes: &[u8],
) -> Called<Result<Taken, Refusal>, Port>
    ensures { result_of result ≡ radio_rule port kind following bytes.now }
{
    match accept(port.paired, port.reports, kind, following, bytes) {
        Ok(length) => Called {
            answer: Ok(Taken::Radio {
                kind,
                start: report::DJ_START,
                length,
            }),
            next: port::with_link(port, true),
        },
        Err(refusal) => Called {
            answer: Err(refusal),
            next: port,
        },
    }
}

// A notice, and the port after it.
fn noticed(what: Notice, next: Port) -> Called<Result<Taken, Refusal>, Port>
    ensures { result_of result ≡ noticed_by what next }
{
    Called {
        answer: Ok(Taken::Noticed(what)),
        next,
    }
}

#[tactic(auto, unfolding(crate::specs::DjTaking::unpaired_rule))]
fn take_unpaired(port: Port, device: Device) -> Called<Result<Taken, Refusal>, Port>
    ensures { result_of result ≡ unpaired_rule port device.0 }
{
    let notice = Notice::Unpaired {
        port: device,
        dropped: port::count_waiting(port.places),
    };
    noticed(notice, port::made_fresh(port))
}

// The parameter with this number: p0, p1 and so on.
fn p(bytes: &[u8], i: u8) -> u8
    ensures { result ≡ p bytes.now i }
{
    report::byte_at(bytes, report::DJ_START as usize + i as usize)
}

// Bit 0 of p0: more devices follow a 0x41, the link is down at a 0x42.
fn has_bit_0(bytes: &[u8]) -> bool
    ensures { result ≡ bit 0 (p bytes.now 0) }
{
    p(bytes, 0) % 2 == 1
}

fn wpid_of(bytes: &[u8]) -> u16
    ensures { result ≡ wpid_of bytes.now }
{
    report::join2(p(bytes, 1), p(bytes, 2))
}

fn reports_of(bytes: &[u8]) -> u32
    ensures { result ≡ reports_of bytes.now }
{
    report::join4(p(bytes, 3), p(bytes, 4), p(bytes, 5), p(bytes, 6))
}

fn is_paired_with(port: Port, wpid: u16) -> bool
    ensures { result ≡ is_paired_with port wpid }
{
    port.paired && port.wpid == wpid
}

#[tactic(auto, unfolding(crate::specs::DjTaking::paired_rule, port::specs::Records::with_reports))]
fn take_paired(
    port: Port,
    device: Device,
    more: bool,
    wpid: u16,
    reports: u32,
) -> Called<Result<Taken, Refusal>, Port>
    ensures { result_of result ≡ paired_rule port device.0 more wpid reports }
{
    let (dropped, next) = if is_paired_with(port, wpid) {
        (0, Port { reports, ..port })
    } else {
        let dropped = port::count_waiting(port.places);
        (dropped, port::paired_anew(port, wpid, reports))
    };
    let notice = Notice::Paired {
        port: device,
        more,
        wpid,
        reports,
        dropped,
    };
    noticed(notice, next)
}

#[tactic(auto, unfolding(crate::specs::DjTaking::link_rule))]
fn take_link(port: Port, device: Device, up: bool) -> Called<Result<Taken, Refusal>, Port>
    ensures { result_of result ≡ link_rule port device.0 up }
{
    if port.paired {
        let notice = Notice::Link { port: device, up };
        noticed(notice, port::with_link(port, up))
    } else {
        Called {
            answer: Err(Refusal::NotPaired),
            next: port,
        }
    }
}

#[tactic(auto, unfolding(crate::specs::DjTaking::other_rule))]
fn take_other(port: Port, device: Device, kind: u8) -> Called<Result<Taken, Refusal>, Port>
    ensures { result_of result ≡ other_rule port device.0 kind }
{
    noticed(Notice::Other { port: device, kind }, port)
}

// Takes the report at its port.
#[tactic(auto, unfolding(crate::specs::DjTaking::take_dj))]
pub fn take_at(port: Port, d: DjReport, bytes: &[u8]) -> Called<Result<Taken, Refusal>, Port>
    ensures result { result_of result ≡ take_dj port (dj_of d) bytes.now }
{
    let device = d.device;
    match d.kind {
        ..report::DJ_UNPAIRED => take_radio(port, d.kind, d.length, bytes),
        report::DJ_UNPAIRED => take_unpaired(port, device),
        report::DJ_PAIRED => {
            take_paired(
                port,
                device,
                has_bit_0(bytes),
                wpid_of(bytes),
                reports_of(bytes),
            )
        }
        report::DJ_CONNECTION => take_link(port, device, !has_bit_0(bytes)),
        kind => take_other(port, device, kind),
    }
}
