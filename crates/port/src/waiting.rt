// The waiting requests of one port: where one may wait, and how one ends.
ghost use Rattle.std.specs.Prelude.{◌≡◌};
ghost use Rattle.port.specs.Waiting.{ended_at, room_for, cancel_at};
ghost use Rattle.port.specs.PortContracts.{room_of, cancel_result};

use crate::{Called, PLACES, Port, Request};
use report::{FeatureIndex, Refusal};

// The port without the request of this place.
#[tactic(auto, unfolding(crate::specs::Waiting::ended_at))]
pub fn end_at(port: Port, place: usize) -> Port
    ensures ended { result ≡ ended_at port place }
{
    let places = crate::with_request(port.places, place, crate::empty_place());
    crate::with_places(port, places)
}

// The lowest empty place, unless a request with these bytes 2 and 3 waits already.
#[tactic(auto, unfolding(crate::specs::Waiting::room_for))]
pub fn room_for(places: [Request; PLACES], byte2: FeatureIndex, byte3: u8) -> Result<usize, Refusal>
    ensures admission { room_of result ≡ room_for places byte2.0 byte3 }
{
    if crate::first_match(places, byte2, byte3).is_some() {
        return Err(Refusal::AlreadyWaiting);
    }
    crate::first_empty(places).ok_or(Refusal::PlacesFull)
}

// Ends the request with these bytes 2 and 3.
#[tactic(auto, unfolding(crate::specs::Waiting::cancel_at))]
pub fn cancel(port: Port, byte2: FeatureIndex, byte3: u8) -> Called<Result<(), Refusal>, Port>
    ensures cancelled { cancel_result result ≡ cancel_at port byte2.0 byte3 }
{
    match crate::first_match(port.places, byte2, byte3) {
        Some(place) => Called {
            answer: Ok(()),
            next: end_at(port, place),
        },
        None => Called {
            answer: Err(Refusal::NotWaiting),
            next: port,
        },
    }
}
