// What one port holds, and its places for waiting requests.
#![tactic(auto)]

ghost use Rattle.std.specs.Prelude.{◌≡◌, ◌≤◌, set, position};
ghost use Rattle.port.specs.Records.{fresh_port, made_fresh, empty_place, request_in, feature_at, with_version, with_battery, with_serial, with_features, with_places, with_link, with_pairing};
ghost use Rattle.port.specs.Places.{matches, is_empty, count_waiting};
ghost use Rattle.port.specs.Searching.{Finds};
ghost use Rattle.port.specs.Ticks.{after_tick, one_if_ending, tick_rule};
ghost use Rattle.port.specs.PortContracts.{ticked_of};

pub mod answer;
pub mod waiting;

use report::FeatureIndex;

// Places for waiting requests on a port.
pub const PLACES: usize = 4;

// Known features.
pub const FEATURES: usize = 5;

// The largest feature index that is kept.
pub const MAX_INDEX: u8 = 63;

// Ports of a station: the devices, and the receiver.
pub const PORTS: usize = report::DEVICES as usize + 1;

// What a call gives: its answer, and the port, the ports or the station after it.
#[derive(Clone, Copy)]
pub struct Called<A, S> {
    pub answer: A,
    pub next: S,
}

// The first three parameters of a request or of a report.
#[derive(Clone, Copy, PartialEq, Eq)]
pub struct FirstParameters(pub u8, pub u8, pub u8);

// One pending request. Document 01: a place. It is empty where no ticks are left.
#[derive(Clone, Copy, PartialEq, Eq)]
pub struct Request {
    pub byte2: FeatureIndex,
    pub byte3: u8,
    pub first: FirstParameters,
    pub ticks: u8,
}

// The version of the protocol that a device speaks.
#[derive(Clone, Copy, PartialEq, Eq)]
pub struct Version {
    pub major: u8,
    pub minor: u8,
}

#[derive(Clone, Copy, PartialEq, Eq)]
pub struct Battery {
    pub level: u8,
    pub next: u8,
    pub status: u8,
}

// The record of one device, or of the receiver.
#[derive(Clone, Copy, PartialEq, Eq)]
pub struct Port {
    pub paired: bool,
    pub wpid: u16,
    // Bit t: the device sends radio reports of type t.
    pub reports: u32,
    pub up: bool,
    pub version: Option<Version>,
    // By slot, the index found for each known feature, 0 where not found.
    pub features: [FeatureIndex; FEATURES],
    pub battery: Option<Battery>,
    // The number that tells a device from others of its model.
    pub serial: Option<u32>,
    pub places: [Request; PLACES],
}

#[tactic(auto, unfolding(crate::specs::Records::empty_place))]
pub fn empty_place() -> Request
    ensures empty { result ≡ empty_place }
{
    Request {
        byte2: FeatureIndex(0),
        byte3: 0,
        first: FirstParameters(0, 0, 0),
        ticks: 0,
    }
}

#[tactic(auto, unfolding(crate::specs::Records::fresh_port))]
pub fn fresh() -> Port
    ensures fresh { result ≡ fresh_port }
{
    Port {
        paired: false,
        wpid: 0,
        reports: 0,
        up: false,
        version: None,
        features: [FeatureIndex(0); FEATURES],
        battery: None,
        serial: None,
        places: [empty_place(); PLACES],
    }
}

// What becomes of a port whose device is gone, or is another: all is as fresh.
#[tactic(auto, unfolding(crate::specs::Records::made_fresh))]
pub fn made_fresh(port: Port) -> Port
    ensures fresh { result ≡ made_fresh port }
{
    fresh()
}

// The port made fresh, and paired with these.
#[tactic(auto, unfolding(crate::specs::Records::with_pairing))]
pub fn paired_anew(port: Port, wpid: u16, reports: u32) -> Port
    ensures paired { result ≡ with_pairing (made_fresh port) wpid reports }
{
    Port {
        paired: true,
        wpid,
        reports,
        ..made_fresh(port)
    }
}

// Whether a request with these bytes 2 and 3 waits in the place.
pub fn is_match(request: Request, byte2: FeatureIndex, byte3: u8) -> bool
    ensures matched { result ≡ matches byte2.0 byte3 request }
{
    request.ticks != 0 && request.byte2 == byte2 && request.byte3 == byte3
}

// The lowest place where a request with these bytes 2 and 3 waits.
pub fn first_match(places: [Request; PLACES], byte2: FeatureIndex, byte3: u8) -> Option<usize>
    ensures lowest { result ≡ position (matches byte2.0 byte3) places }
    ensures searched { Finds (matches byte2.0 byte3) places result }
{
    places
        .iter()
        .position(|request| is_match(*request, byte2, byte3))
}

fn is_empty(request: Request) -> bool
    ensures { result ≡ is_empty request }
{
    request.ticks == 0
}

// The lowest empty place.
pub fn first_empty(places: [Request; PLACES]) -> Option<usize>
    ensures lowest { result ≡ position is_empty places }
    ensures searched { Finds is_empty places result }
{
    places.iter().position(|request| is_empty(*request))
}

// The number of requests that wait.
#[tactic(auto, using(crate::proofs::SumLaws::waiting))]
pub fn count_waiting(places: [Request; PLACES]) -> u8
    ensures count { result ≡ count_waiting places }
{
    places.iter().filter(|request| !is_empty(**request)).count() as u8
}

// One place after one tick: an empty one stays, a request with one tick left ends, any other has one tick less.
#[tactic(auto, unfolding(crate::specs::Ticks::after_tick))]
fn lowered(request: Request) -> Request
    ensures { result ≡ after_tick request }
{
    match request.ticks {
        0 => request,
        1 => empty_place(),
        ticks => Request {
            ticks: ticks - 1,
            ..request
        },
    }
}

// One where a tick ends the request, and else none.
fn one_if_ending(request: Request) -> u8
    ensures counted { result ≡ one_if_ending request }
    ensures one { result ≤ 1 }
{
    u8::from(request.ticks == 1)
}

// The number of requests that one tick ends, and the places after it. One loop does both: counting with `filter` and lowering with `map` take three times the instructions (docs/DESIGN-PASS.md).
pub fn tick(mut places: [Request; PLACES]) -> Called<u8, [Request; PLACES]>
    ensures ticked { ticked_of result ≡ tick_rule places }
{
    let mut ended = 0;
    for request in places.iter_mut() {
        ended += one_if_ending(*request);
        *request = lowered(*request);
    }
    Called {
        answer: ended,
        next: places,
    }
}

// The request in a place, or an empty one past the last.
pub fn request_in(places: [Request; PLACES], place: usize) -> Request
    ensures found { result ≡ request_in places place }
{
    places.get(place).copied().unwrap_or(empty_place())
}

// The places with this request in one of them; past the last nothing changes.
pub fn with_request(
    mut places: [Request; PLACES],
    place: usize,
    request: Request,
) -> [Request; PLACES]
    ensures stored { result ≡ set places place request }
{
    if place < PLACES {
        places[place] = request;
    }
    places
}

// The index held for the known feature of a slot; 0 past the last.
pub fn feature_at(features: [FeatureIndex; FEATURES], slot: usize) -> FeatureIndex
    ensures found { result.0 ≡ feature_at features slot }
{
    features.get(slot).copied().unwrap_or(FeatureIndex(0))
}

// The features with this index in one slot; past the last nothing changes.
pub fn with_feature(
    mut features: [FeatureIndex; FEATURES],
    slot: usize,
    index: FeatureIndex,
) -> [FeatureIndex; FEATURES]
    ensures stored { result ≡ set features slot index }
{
    if slot < FEATURES {
        features[slot] = index;
    }
    features
}

// A port with one thing of it changed: a function for each, since the rules and the wrong programs name each (`with_version` and the like in specs/Records.antt).
#[tactic(auto, unfolding(crate::specs::Records::with_version))]
pub fn with_version(port: Port, version: Option<Version>) -> Port
    ensures changed { result ≡ with_version port version }
{
    Port { version, ..port }
}

#[tactic(auto, unfolding(crate::specs::Records::with_battery))]
pub fn with_battery(port: Port, battery: Option<Battery>) -> Port
    ensures changed { result ≡ with_battery port battery }
{
    Port { battery, ..port }
}

#[tactic(auto, unfolding(crate::specs::Records::with_serial))]
pub fn with_serial(port: Port, serial: Option<u32>) -> Port
    ensures changed { result ≡ with_serial port serial }
{
    Port { serial, ..port }
}

#[tactic(auto, unfolding(crate::specs::Records::with_features))]
pub fn with_features(port: Port, features: [FeatureIndex; FEATURES]) -> Port
    ensures changed { result ≡ with_features port features }
{
    Port { features, ..port }
}

#[tactic(auto, unfolding(crate::specs::Records::with_places))]
pub fn with_places(port: Port, places: [Request; PLACES]) -> Port
    ensures changed { result ≡ with_places port places }
{
    Port { places, ..port }
}

#[tactic(auto, unfolding(crate::specs::Records::with_link))]
pub fn with_link(port: Port, up: bool) -> Port
    ensures changed { result ≡ with_link port up }
{
    Port { up, ..port }
}
