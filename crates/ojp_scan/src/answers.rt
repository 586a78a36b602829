//! What a region answers to a trip ask.

ghost use Rattle.std.specs.Prelude.{◌≡◌, ℕ, List as Items, ◌∷◌, [], IfOk};
ghost use Rattle.ojp_values.specs.Texts.{Text};
ghost use Rattle.ojp_values.specs.declared.trips.Leg.{Leg as OneLeg};
ghost use Rattle.ojp_timetable.specs.Answers.{Agrees, TargetAnswered, targets_fault, TripAnswered};
ghost use Rattle.ojp_scan.specs.Scans.{IsMadeFor, IsScanOf};
ghost use Rattle.ojp_scan.specs.Trips.{IsStarted, IsWithinDay};

use crate::scans::Scan;
use ojp_timetable::Timetable;
use ojp_values::{
    Delivery, Fault, Instant, Leg, List, NoMemory, StopRef, Trip, TripAsk, TripReply, TripResult,
};
use std::alloc::Global;

/// The answer of the region: the fault of the ask, or an earliest trip, or that there is none.
pub fn answer_trip(
    alloc: Global,
    table: &Timetable,
    scan: &mut Scan,
    ask: &TripAsk,
) -> Result<Delivery, NoMemory>
    requires made { IsMadeFor scan.old table.now }
    ensures made { IsMadeFor scan.new table.now }
    ensures answer { IfOk result (λ delivery. TripAnswered table.now ask.now delivery) }
{
    if let Some(fault) = trip_fault(table, ask) {
        return Ok(Delivery::Trip(TripReply::Fault(fault)));
    }
    scan.from(table, ask.origin, ask.start);
    match earliest_trip(alloc, table, scan, ask.target)? {
        TripResult::Trip(trip) => Ok(Delivery::Trip(TripReply::Trip(trip))),
        TripResult::NoTrip(stop) => Ok(Delivery::Trip(TripReply::Fault(Fault::NoTrip(stop)))),
    }
}

/// The fault of a trip ask, if it has one: its stops are the same, or one is unknown, the origin first.
fn trip_fault(table: &Timetable, ask: &TripAsk) -> Option<Fault>
    ensures { result ≡ targets_fault table.now ask.now.origin (ask.now.target ∷ []) }
{
    if ask.origin == ask.target {
        Some(Fault::SameStop(ask.origin))
    } else if !table.has(ask.origin) {
        Some(Fault::StopUnknown(ask.origin))
    } else if !table.has(ask.target) {
        Some(Fault::StopUnknown(ask.target))
    } else {
        None
    }
}

/// An earliest trip to the target from where the scan was started, or that there is none.
pub fn earliest_trip(
    alloc: Global,
    table: &Timetable,
    scan: &Scan,
    target: StopRef,
) -> Result<TripResult, NoMemory>
    requires started { IsStarted scan.now table.now }
    ensures { (origin : Text) (start : ℕ) → IsScanOf scan.now table.now origin start → IfOk result (λ found. TargetAnswered table.now origin start target found) }
{
    let Some(end) = scan.arrival(target) else {
        return Ok(TripResult::NoTrip(target));
    };
    let legs = scan.legs(alloc, table, target)?;
    Ok(TripResult::Trip(trip_of(legs, end)))
}

/// The trip of legs that end at that instant, with its totals.
fn trip_of(legs: List<Leg>, end: Instant) -> Trip
    requires within { IsWithinDay legs end }
    ensures legs { result.legs ≡ legs }
    ensures end { result.end ≡ end }
    ensures totals { (first : OneLeg) (rest : Items OneLeg) → legs ≡ first ∷ rest → Agrees result first rest }
{
    let start = legs.as_slice()[0].departs;
    let duration = end.seconds() - start.seconds();
    let transfers = legs.as_slice().len() - 1;
    Trip {
        duration: duration as u32,
        start,
        end,
        transfers: transfers as u32,
        legs,
    }
}
