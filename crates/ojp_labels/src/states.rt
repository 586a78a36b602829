//! What is known of the places of a search.

ghost use Rattle.std.specs.Prelude.{◌≡◌, [], Some};
ghost use Rattle.ojp_exchange.specs.Book.{has_region, is_declared};
ghost use Rattle.ojp_records.specs.Places.{place_state, reply_state, state_after};

use ojp_exchange::Book;
use ojp_records::PlaceState;
use ojp_values::{Code, Delivery, EventsReply, Fault, StopRef};

// Whether the region is one of the book.
#[tactic(auto, unfolding(ojp_values::specs::Texts::same, ojp_exchange::specs::Book::has_region))]
fn has_region(book: &Book, code: Code) -> bool
    ensures { result ≡ has_region book.now code }
{
    book.regions().iter().any(|other| code == *other)
}

// Whether some region of the book declares the exchange point.
fn is_declared(book: &Book, stop: StopRef) -> bool
    ensures { result ≡ is_declared book.now stop }
{
    !book.regions_at(stop).is_empty()
}

/// What is known of the place before anything was told.
pub fn first_state(book: &Book, stop: StopRef) -> PlaceState
    ensures { result ≡ place_state book.now [] stop }
{
    match stop.region() {
        None => {
            if is_declared(book, stop) {
                PlaceState::Known
            } else {
                PlaceState::Unknown
            }
        }
        Some(code) => {
            if has_region(book, code) {
                PlaceState::Unheard
            } else {
                PlaceState::Unknown
            }
        }
    }
}

/// What a reply to a check tells of the place.
pub fn reply_state(reply: &Option<Delivery>) -> PlaceState
    ensures { result ≡ reply_state reply.now }
{
    match reply {
        None => PlaceState::CheckFailed,
        Some(delivery) => delivery_state(delivery),
    }
}

fn delivery_state(delivery: &Delivery) -> PlaceState
    ensures { result ≡ reply_state (Some delivery.now) }
{
    match delivery {
        Delivery::Events(reply) => events_state(reply),
        Delivery::Trip(_) | Delivery::Multi(_) | Delivery::Points(_) => PlaceState::Known,
    }
}

fn events_state(reply: &EventsReply) -> PlaceState
    ensures { result ≡ reply_state (Some (Delivery.Events reply.now)) }
{
    match reply {
        EventsReply::Fault(fault) => fault_state(fault),
        EventsReply::Events(_) => PlaceState::Known,
    }
}

fn fault_state(fault: &Fault) -> PlaceState
    ensures { result ≡ reply_state (Some (Delivery.Events (EventsReply.Fault fault.now))) }
{
    match fault {
        Fault::StopUnknown(_) => PlaceState::Unknown,
        Fault::SameStop(_) | Fault::NoTrip(_) | Fault::RegionFailed(_) | Fault::NotServed => {
            PlaceState::Known
        }
    }
}

/// The state of the place after the stop was checked.
#[tactic(auto, unfolding(ojp_values::specs::Texts::same))]
pub fn state_after(
    place: StopRef,
    stop: StopRef,
    state: PlaceState,
    before: PlaceState,
) -> PlaceState
    ensures { result ≡ state_after place stop state before }
{
    if place == stop { state } else { before }
}
