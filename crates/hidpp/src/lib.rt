// Taking a HID++ report at the port that it names.
#![tactic(auto)]

ghost use Rattle.std.specs.Prelude.{◌≡◌, ◌||◌, eqb, option_map};
ghost use Rattle.report.specs.Sizes.{is_feature};
ghost use Rattle.report.specs.ReportContracts.{hidpp_of};
ghost use Rattle.port.specs.Answers.{error1};
ghost use Rattle.port.specs.PortContracts.{about_of, kind_number, taken_of, result_of};
ghost use Rattle.matching.specs.Messages.{message_of};
ghost use Rattle.hidpp.specs.HidppRecords.{holds, is_get_feature, index_from, with_found_feature, with_battery_from, is_battery_reply, after_reply, is_version1, after_error, is_event0, after_battery_event, after_wireless_event, after_event};
ghost use Rattle.hidpp.specs.HidppTaking.{about, unchanged, error_rule, reply_rule, is_major1, feature_rule, unasked_rule, take_hidpp};
ghost use Rattle.hidpp.specs.HidppContracts.{slot_found, error_found, unchanged_by};

use matching::Message;
use port::answer::{About, ErrorKind, Taken};
use port::{Battery, Called, FirstParameters, Port, Request, Version, answer, waiting};
use report::{FeatureIndex, HidppReport, Refusal};

// The code of an error to a ping that a device of HID++ 1.0 sends.
const INVALID_SUB_ID: u8 = 1;

// Known features by their ids.
const FEATURE_SET: u16 = 0x0001;

const DEVICE_INFORMATION: u16 = 0x0003;

const DEVICE_NAME: u16 = 0x0005;

const BATTERY_STATUS: u16 = 0x1000;

const WIRELESS_STATUS: u16 = 0x1d4b;

const MAX_LEVEL: u8 = 100;

// An error's kind, bytes 2 and 3 of the request that it names, and its code.
#[derive(Clone, Copy)]
struct Failure {
    kind: ErrorKind,
    byte2: FeatureIndex,
    byte3: u8,
    code: u8,
}

// The slot of a known feature.
#[tactic(auto, unfolding(crate::specs::HidppContracts::slot_found))]
fn slot_of(feature: u16) -> Option<usize>
    ensures { result ≡ slot_found feature }
{
    match feature {
        FEATURE_SET => Some(0),
        DEVICE_INFORMATION => Some(1),
        DEVICE_NAME => Some(2),
        BATTERY_STATUS => Some(3),
        WIRELESS_STATUS => Some(4),
        _ => None,
    }
}

// Whether the port holds this index for a known feature.
fn is_held(port: Port, feature: u16, index: FeatureIndex) -> bool
    ensures { result ≡ holds port feature index.0 }
{
    let Some(slot) = slot_of(feature) else {
        return false;
    };
    let held = port::feature_at(port.features, slot);
    held.0 != 0 && held == index
}

fn is_get_feature(byte2: FeatureIndex, byte3: u8) -> bool
    ensures { result ≡ is_get_feature byte2.0 byte3 }
{
    byte2.0 == 0 && byte3 / 16 == 0
}

// An index above the largest says that the feature was not found.
#[tactic(auto, unfolding(crate::specs::HidppRecords::index_from))]
fn as_index(index: u8) -> FeatureIndex
    ensures { result ≡ index_from index }
{
    if index <= port::MAX_INDEX {
        FeatureIndex(index)
    } else {
        FeatureIndex(0)
    }
}

#[tactic(auto, unfolding(crate::specs::HidppRecords::with_found_feature))]
fn with_found_feature(port: Port, request: Request, index: u8) -> Port
    ensures { result ≡ with_found_feature port request index }
{
    let Some(slot) = slot_of(report::join2(request.first.1, request.first.0)) else {
        return port;
    };
    let features = port::with_feature(port.features, slot, as_index(index));
    port::with_features(port, features)
}

#[tactic(auto, unfolding(crate::specs::HidppRecords::with_battery_from))]
fn with_battery_from(port: Port, first: FirstParameters) -> Port
    ensures { result ≡ with_battery_from port first }
{
    let FirstParameters(level, next, status) = first;
    if level <= MAX_LEVEL && next <= MAX_LEVEL {
        let battery = Battery {
            level,
            next,
            status,
        };
        port::with_battery(port, Some(battery))
    } else {
        port
    }
}

// The port after a reply to this request.
#[tactic(auto, unfolding(crate::specs::HidppRecords::after_reply))]
fn after_reply(port: Port, m: Message, request: Request) -> Port
    ensures { result ≡ after_reply port m request }
{
    if matching::is_ping(m.byte2, m.byte3) {
        let version = Version {
            major: m.first.0,
            minor: m.first.1,
        };
        port::with_version(port, Some(version))
    } else if is_get_feature(m.byte2, m.byte3) {
        with_found_feature(port, request, m.first.0)
    } else if is_battery_reply(port, m) {
        with_battery_from(port, m.first)
    } else {
        port
    }
}

fn is_battery_reply(port: Port, m: Message) -> bool
    ensures { result ≡ is_battery_reply port m }
{
    is_held(port, BATTERY_STATUS, m.byte2) && m.byte3 / 16 == 0
}

// A device of HID++ 1.0 answers a ping with an error.
fn is_version_1(failure: Failure) -> bool
    ensures { result ≡ is_version1 (kind_number failure.kind) failure.byte2.0 failure.byte3 failure.code }
{
    failure.kind == ErrorKind::Hidpp1
        && failure.code == INVALID_SUB_ID
        && matching::is_ping(failure.byte2, failure.byte3)
}

#[tactic(auto, unfolding(crate::specs::HidppRecords::after_error))]
fn after_error(port: Port, failure: Failure) -> Port
    ensures { result ≡ after_error port (kind_number failure.kind) failure.byte2.0 failure.byte3 failure.code }
{
    if is_version_1(failure) {
        let version = Version { major: 1, minor: 0 };
        port::with_version(port, Some(version))
    } else {
        port
    }
}

// Whether the message is event 0 of a known feature.
fn is_event_0(port: Port, feature: u16, m: Message) -> bool
    ensures { result ≡ is_event0 port feature m }
{
    is_held(port, feature, m.byte2) && m.byte3 == 0
}

#[tactic(auto, unfolding(crate::specs::HidppRecords::after_battery_event))]
fn after_battery_event(port: Port, m: Message) -> Port
    ensures { result ≡ after_battery_event port m }
{
    if is_event_0(port, BATTERY_STATUS, m) {
        with_battery_from(port, m.first)
    } else {
        port
    }
}

#[tactic(auto, unfolding(crate::specs::HidppRecords::after_wireless_event))]
fn after_wireless_event(port: Port, m: Message) -> Port
    ensures { result ≡ after_wireless_event port m }
{
    if is_event_0(port, WIRELESS_STATUS, m) {
        port::with_link(port, true)
    } else {
        port
    }
}

#[tactic(auto, unfolding(crate::specs::HidppRecords::after_event))]
fn after_event(port: Port, m: Message) -> Port
    ensures { result ≡ after_event port m }
{
    after_wireless_event(after_battery_event(port, m), m)
}

// What an answer with these bytes 2 and 3 carries.
fn about(m: Message, byte2: FeatureIndex, byte3: u8) -> About
    ensures { about_of result ≡ about m byte2.0 byte3 }
{
    About {
        port: m.device,
        byte2,
        byte3,
        start: report::HIDPP_START,
        length: m.length,
    }
}

// What an answer with the report's own bytes 2 and 3 carries.
fn about_itself(m: Message) -> About
    ensures { about_of result ≡ about m m.byte2.0 m.byte3 }
{
    about(m, m.byte2, m.byte3)
}

// The kind of error that a report with this byte 2 is.
fn error_kind(byte2: FeatureIndex) -> Option<ErrorKind>
    ensures { option_map kind_number result ≡ error_found byte2.0 }
{
    match byte2.0 {
        answer::ERROR_1 => Some(ErrorKind::Hidpp1),
        answer::ERROR_2 => Some(ErrorKind::Hidpp2),
        _ => None,
    }
}

// An error of HID++ 2.0 is about a feature.
fn error_fits(failure: Failure) -> bool
    ensures { result ≡ eqb (kind_number failure.kind) error1 || is_feature failure.byte2.0 }
{
    match failure.kind {
        ErrorKind::Hidpp1 => true,
        ErrorKind::Hidpp2 => failure.byte2.0 < report::SUB_IDS,
    }
}

// An answer that leaves the port as it is.
fn unchanged(port: Port, answer: Taken) -> Called<Result<Taken, Refusal>, Port>
    ensures { result_of result ≡ unchanged_by answer port }
{
    Called {
        answer: Ok(answer),
        next: port,
    }
}

// An error: bytes 2 and 3 of the request that it names are byte 3 and the first parameter, its code is the second.
fn take_error(port: Port, m: Message, kind: ErrorKind) -> Called<Result<Taken, Refusal>, Port>
    requires { kind_number kind ≡ m.byte2.0 }
    ensures { result_of result ≡ error_rule port m }
{
    let failure = Failure {
        kind,
        byte2: FeatureIndex(m.byte3),
        byte3: m.first.0,
        code: m.first.1,
    };
    if !error_fits(failure) {
        return unchanged(port, Taken::Stray(about_itself(m)));
    }
    let Some(place) = port::first_match(port.places, failure.byte2, failure.byte3) else {
        return unchanged(port, Taken::Stray(about_itself(m)));
    };
    Called {
        answer: Ok(Taken::Failed {
            about: about(m, failure.byte2, failure.byte3),
            code: failure.code,
            kind,
        }),
        next: after_error(waiting::end_at(port, place), failure),
    }
}

fn take_reply(port: Port, m: Message, place: usize) -> Called<Result<Taken, Refusal>, Port>
    ensures { result_of result ≡ reply_rule port m place }
{
    let request = port::request_in(port.places, place);
    let about = about_itself(m);
    Called {
        answer: Ok(Taken::Reply { about, dropped: 0 }),
        next: after_reply(waiting::end_at(port, place), m, request),
    }
}

fn is_major_1(version: Option<Version>) -> bool
    ensures { result ≡ is_major1 version }
{
    version.is_some_and(|known| known.major == 1)
}

// A report of a feature that no request waits for.
#[tactic(auto, unfolding(crate::specs::HidppTaking::feature_rule))]
fn take_feature(port: Port, m: Message) -> Called<Result<Taken, Refusal>, Port>
    ensures { result_of result ≡ feature_rule port m }
{
    if is_major_1(port.version) {
        unchanged(port, Taken::Plain(about_itself(m)))
    } else if m.byte3 % 16 == 0 {
        Called {
            answer: Ok(Taken::Event(about_itself(m))),
            next: after_event(port, m),
        }
    } else {
        unchanged(port, Taken::Stray(about_itself(m)))
    }
}

// A report that no request waits for.
fn take_unasked(port: Port, m: Message) -> Called<Result<Taken, Refusal>, Port>
    ensures { result_of result ≡ unasked_rule port m }
{
    if m.byte2.0 < report::SUB_IDS {
        take_feature(port, m)
    } else if m.byte2.0 < report::REGISTERS {
        unchanged(port, Taken::Plain(about_itself(m)))
    } else {
        unchanged(port, Taken::Stray(about_itself(m)))
    }
}

// Only a ping can wait with these bytes 2 and 3 and yet not be answered.
fn take_message(port: Port, m: Message) -> Called<Result<Taken, Refusal>, Port>
    ensures { result_of result ≡ take_hidpp port m }
{
    if let Some(kind) = error_kind(m.byte2) {
        take_error(port, m, kind)
    } else if let Some(place) = matching::first_answered(port.places, m) {
        take_reply(port, m, place)
    } else if matching::has_ping(port, m) {
        unchanged(port, Taken::Stray(about_itself(m)))
    } else {
        take_unasked(port, m)
    }
}

// Takes the report at its port.
pub fn take_at(port: Port, h: HidppReport, bytes: &[u8]) -> Called<Result<Taken, Refusal>, Port>
    ensures result { result_of result ≡ take_hidpp port (message_of (hidpp_of h) bytes.now) }
{
    take_message(port, matching::message_of(h, bytes))
}
