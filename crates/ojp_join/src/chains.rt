//! The chain of trips that a search joins: from the best arrival back through the record, until a trip
//! begins at the origin.

ghost use Rattle.std.specs.Prelude.{◌≡◌, ◌++◌, Some, IfOk, OnOk, MatchBool, reverse};
ghost use Rattle.ojp_values.specs.declared.trips.Trip.{Trip as TripValue};
ghost use Rattle.ojp_records.specs.Starts.{best};
ghost use Rattle.ojp_records.specs.Told.{IsRecord};
ghost use Rattle.ojp_join.specs.Outcomes.{IsJoined};
ghost use Rattle.ojp_join.specs.Rides.{AreJoined, IsRide};

use crate::rides::{Need, Ride, results_in, ride_for};
use ojp_exchange::Book;
use ojp_records::Entry;
use ojp_values::{Instant, Leg, List, NoMemory, Trip, TripAsk, TripResult};
use std::alloc::Global;

/// The trip that the record gives, where its best arrival is at the end.
pub fn chain_of(
    alloc: Global,
    book: &Book,
    ask: &TripAsk,
    told: &[Entry],
    end: Instant,
) -> Result<Trip, NoMemory>
    requires record { IsRecord book.now ask.now told.now }
    requires best { best book.now ask.now told.now ≡ Some end }
    ensures { IfOk result (IsJoined book.now ask.now told.now) }
{
    let legs = legs_to(alloc, book, ask, told, end)?;
    let start = legs[0].departs;
    let duration = end.seconds() - start.seconds();
    let transfers = legs.len() - 1;
    Ok(Trip {
        duration: duration as u32,
        start,
        end,
        transfers: transfers as u32,
        legs: List::from_items(legs),
    })
}

// The legs of such a chain. Each trip before is of an earlier entry.
fn legs_to(
    alloc: Global,
    book: &Book,
    ask: &TripAsk,
    told: &[Entry],
    end: Instant,
) -> Result<Vec<Leg>, NoMemory>
    requires record { IsRecord book.now ask.now told.now }
    requires best { best book.now ask.now told.now ≡ Some end }
    ensures { IfOk result (λ legs. AreJoined book.now ask.now told.now end legs.items) }
{
    book.is_well();
    let last = Need {
        stop: ask.target,
        moment: end,
        next: None,
    };
    let Some(mut ride) = ride_for(book, &last, told, told.len()) else {
        unreachable!();
    };
    let mut back = Vec::new(alloc);
    add_ride(told, &ride, &mut back)?;
    'rides: while !is_first(ask, &ride) {
        let need = Need {
            stop: ride.stop,
            moment: ride.start,
            next: Some(ride.region),
        };
        let Some(before) = ride_for(book, &need, told, ride.entry) else {
            unreachable!();
        };
        add_ride(told, &before, &mut back)?;
        ride = before;
    }
    back.reverse();
    Ok(back)
}

// Whether the trip was asked from the origin at the asked start.
fn is_first(ask: &TripAsk, ride: &Ride) -> bool
    ensures { MatchBool result ((ride.now.stop ≡ ask.now.origin) × (ride.now.start ≡ ask.now.start)) ((ride.now.stop ≡ ask.now.origin) × (ride.now.start ≡ ask.now.start) → ⊥) }
{
    ride.stop == ask.origin && ride.start == ask.start
}

// Adds the legs of the trip, the last one first.
fn add_ride(told: &[Entry], ride: &Ride, back: &mut Vec<Leg>) -> Result<(), NoMemory>
    requires { (trip : TripValue) × IsRide told.now ride.now trip }
    ensures { OnOk result ((trip : TripValue) → IsRide told.now ride.now trip → reverse back.new.items ≡ trip.legs ++ reverse back.old.items) }
{
    let found = results_in(&told[ride.entry].reply);
    match &found[ride.result] {
        TripResult::Trip(trip) => add_legs(trip.legs.as_slice(), back),
        TripResult::NoTrip(_) => unreachable!(),
    }
}

// Adds the legs, the last one first.
fn add_legs(legs: &[Leg], back: &mut Vec<Leg>) -> Result<(), NoMemory>
    ensures { OnOk result (reverse back.new.items ≡ legs.now ++ reverse back.old.items) }
{
    let mut left = legs.len();
    'legs: while left > 0 {
        left -= 1;
        if back.push(legs[left]).is_err() {
            return Err(NoMemory);
        }
    }
    Ok(())
}
