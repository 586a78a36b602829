//! The trips of a record, and the search for one that arrives where and when one must.

ghost use Rattle.std.specs.Prelude.{◌≡◌, ℕ, ◌+◌, ◌<◌, ◌≤◌, length, Some, MatchBool, MatchOption};
ghost use Rattle.ojp_values.specs.declared.trips.Trip.{Trip as TripValue};
ghost use Rattle.ojp_join.specs.Rides.{EndsAt, HasNoRide, IsFound, IsInTime, IsMet, IsRide, Meets, NoneMeets, multi_results, results_by, results_in};

use ojp_exchange::Book;
use ojp_records::{Entry, Query};
use ojp_values::{Code, Delivery, Instant, MultiReply, StopRef, Trip, TripResult};

/// A trip of a record: a result of an entry, whose region was asked from the stop at the start.
#[derive(Clone, Copy, Debug, PartialEq, Eq)]
pub struct Ride {
    pub entry: usize,
    pub result: usize,
    pub region: Code,
    pub stop: StopRef,
    pub start: Instant,
}

/// Where and when a trip must arrive: at the stop at the moment; or, where the traveller changes to a
/// next region there, so long before as the change takes.
#[derive(Clone, Copy, Debug, PartialEq, Eq)]
pub struct Need {
    pub stop: StopRef,
    pub moment: Instant,
    pub next: Option<Code>,
}

/// The results of a reply, if it has some.
pub fn results_in(reply: &Option<Delivery>) -> &[TripResult]
    ensures { result.now ≡ results_in reply.now }
{
    match reply {
        Some(delivery) => results_by(delivery),
        None => &[],
    }
}

fn results_by(delivery: &Delivery) -> &[TripResult]
    ensures { result.now ≡ results_by delivery.now }
{
    match delivery {
        Delivery::Multi(reply) => multi_results(reply),
        Delivery::Trip(_) | Delivery::Events(_) | Delivery::Points(_) => &[],
    }
}

fn multi_results(reply: &MultiReply) -> &[TripResult]
    ensures { result.now ≡ multi_results reply.now }
{
    match reply {
        MultiReply::Results(found) => found.as_slice(),
        MultiReply::Fault(_) => &[],
    }
}

// Whether one who arrives by the region at the end is in time.
fn is_in_time(book: &Book, need: &Need, region: Code, end: Instant) -> bool
    ensures { MatchBool result (IsInTime book.now need.now.next need.now.stop region end need.now.moment) (IsInTime book.now need.now.next need.now.stop region end need.now.moment → ⊥) }
{
    match need.next {
        None => end == need.moment,
        Some(next) => is_changed(book, need, region, next, end),
    }
}

// Whether one who arrives by the region at the end changes to the next one in time.
fn is_changed(book: &Book, need: &Need, region: Code, next: Code, end: Instant) -> bool
    ensures { MatchBool result (IsInTime book.now (Some next) need.now.stop region end need.now.moment) (IsInTime book.now (Some next) need.now.stop region end need.now.moment → ⊥) }
{
    book.is_well();
    if is_code(&region, &next) {
        return false;
    }
    match book.change(need.stop, region, next) {
        None => false,
        Some(change) => is_after(end, change, need.moment),
    }
}

// Whether the codes are the same.
fn is_code(code: &Code, other: &Code) -> bool
    ensures { MatchBool result (code.now ≡ other.now) (code.now ≡ other.now → ⊥) }
{
    *code == *other
}

// Whether the stops are the same.
fn is_stop(stop: &StopRef, other: &StopRef) -> bool
    ensures { MatchBool result (stop.now ≡ other.now) (stop.now ≡ other.now → ⊥) }
{
    *stop == *other
}

// Whether the moment is so many seconds after the end.
fn is_after(end: Instant, seconds: u32, moment: Instant) -> bool
    ensures { MatchBool result (moment ≡ end + seconds) (moment ≡ end + seconds → ⊥) }
{
    moment.seconds() == end.seconds() + u64::from(seconds)
}

// Whether the last of the legs ends at the stop.
fn ends_at(trip: &Trip, stop: &StopRef) -> bool
    ensures { MatchBool result (EndsAt trip.now.legs stop.now) (EndsAt trip.now.legs stop.now → ⊥) }
{
    let legs = trip.legs.as_slice();
    if legs.is_empty() {
        return false;
    }
    let last = &legs[legs.len() - 1];
    is_stop(&last.alight, stop)
}

// Whether the trip of the region arrives as it must.
fn meets(book: &Book, need: &Need, region: Code, trip: &Trip) -> bool
    ensures { MatchBool result (Meets book.now need.now region trip.now) (Meets book.now need.now region trip.now → ⊥) }
{
    if !ends_at(trip, &need.stop) {
        return false;
    }
    is_in_time(book, need, region, trip.end)
}

// Whether the result is such a trip.
fn is_met(book: &Book, need: &Need, region: Code, found: &TripResult) -> bool
    ensures { MatchBool result (IsMet book.now need.now region found.now) (IsMet book.now need.now region found.now → ⊥) }
{
    match found {
        TripResult::Trip(trip) => meets(book, need, region, trip),
        TripResult::NoTrip(_) => false,
    }
}

// The number of the first such trip among the results.
fn first_met(book: &Book, need: &Need, region: Code, found: &[TripResult]) -> Option<usize>
    ensures { MatchOption result (NoneMeets book.now need.now region found.now) (IsFound book.now need.now region found.now) }
{
    'found: for number in 0..found.len() {
        let result = &found[number];
        if is_met(book, need, region, result) {
            return Some(number);
        }
    }
    None
}

// The first such trip of the entry of that number.
fn ride_in(book: &Book, need: &Need, told: &[Entry], entry: usize) -> Option<Ride>
    requires { entry < length told.now }
    ensures { MatchOption result (HasNoRide book.now need.now told.now entry) (λ ride. (ride.entry ≡ entry) × (trip : TripValue) × IsRide told.now ride trip × Meets book.now need.now ride.region trip) }
{
    let it = &told[entry];
    match it.query {
        Query::Check { .. } => None,
        Query::Reach {
            region,
            stop,
            start,
        } => match first_met(book, need, region, results_in(&it.reply)) {
            None => None,
            Some(result) => Some(Ride {
                entry,
                result,
                region,
                stop,
                start,
            }),
        },
    }
}

/// The first such trip of so many first entries of the record.
pub fn ride_for(book: &Book, need: &Need, told: &[Entry], count: usize) -> Option<Ride>
    requires { count ≤ length told.now }
    ensures { MatchOption result ((k : ℕ) → k < count → HasNoRide book.now need.now told.now k) (λ ride. (ride.entry < count) × (trip : TripValue) × IsRide told.now ride trip × Meets book.now need.now ride.region trip) }
{
    'entries: for entry in 0..count {
        if let Some(ride) = ride_in(book, need, told, entry) {
            return Some(ride);
        }
    }
    None
}
