//! Which trips fit an ask.

ghost use Rattle.std.specs.Prelude.{◌↔◌, ◌≡◌, IsTrue};
ghost use Rattle.ojp_values.specs.Lists.{Pairwise};
ghost use Rattle.ojp_timetable.specs.Journeys.{IsAt, alighted};
ghost use Rattle.ojp_links.specs.Fits.{FitsNext, FitsResult, FitsTrip};
ghost use Rattle.ojp_links.specs.Legs.{Begins, HasTotals, LeadsOn};

use ojp_values::{Code, Instant, Leg, StopRef, Trip, TripResult};

/// The seconds of the requested day.
const DAY: u64 = 86_400;

/// Whether there is one result for each target, in their order, and each fits.
pub(crate) fn are_results(
    region: &Code,
    origin: &StopRef,
    start: Instant,
    targets: &[StopRef],
    results: &[TripResult],
) -> bool
    ensures { IsTrue result ↔ Pairwise (FitsResult region.now origin.now start) targets.now results.now }
{
    if targets.len() != results.len() {
        return false;
    }
    'results: for i in 0..targets.len() {
        if !is_result(region, origin, start, &targets[i], &results[i]) {
            return false;
        }
    }
    true
}

/// Whether the result is a trip that fits, or says that there is none to this target.
fn is_result(
    region: &Code,
    origin: &StopRef,
    start: Instant,
    target: &StopRef,
    outcome: &TripResult,
) -> bool
    ensures { IsTrue result ↔ FitsResult region.now origin.now start target.now outcome.now }
{
    match outcome {
        TripResult::Trip(trip) => is_trip(region, origin, start, target, trip),
        TripResult::NoTrip(stop) => *stop == *target,
    }
}

/// Whether the trip leads by legs of the region from the origin, not before the start, to the target
/// within the requested day, with totals that are those of its legs.
pub(crate) fn is_trip(
    region: &Code,
    origin: &StopRef,
    start: Instant,
    target: &StopRef,
    trip: &Trip,
) -> bool
    ensures { IsTrue result ↔ FitsTrip region.now origin.now start target.now trip.now }
{
    let Some((first, rest)) = trip.legs.as_slice().split_first() else {
        return false;
    };
    begins(region, origin, start, first)
        && has_totals(trip, first, rest.len())
        && trip.end.seconds() <= start.seconds() + DAY
        && leads_on(region, first, rest, target, trip.end)
}

/// Whether the leg is one of the region that leaves the stop, not before the moment.
fn begins(region: &Code, stop: &StopRef, start: Instant, leg: &Leg) -> bool
    ensures { IsTrue result ↔ Begins region.now stop.now start leg.now }
{
    leg.region == *region
        && leg.board == *stop
        && start <= leg.departs
        && leg.departs <= leg.arrives
}

/// Whether the totals are those of the first leg and so many others.
fn has_totals(trip: &Trip, first: &Leg, others: usize) -> bool
    ensures { IsTrue result ↔ HasTotals trip.now first.now others }
{
    trip.start == first.departs
        && trip.start.seconds() + u64::from(trip.duration) == trip.end.seconds()
        && trip.transfers as usize == others
}

/// Whether the legs go on from the first one, each by one of the region, and end at the stop at the moment.
fn leads_on(region: &Code, first: &Leg, legs: &[Leg], stop: &StopRef, end: Instant) -> bool
    ensures { IsTrue result ↔ LeadsOn region.now first.now legs.now stop.now end }
{
    let mut last = first;
    'legs: for leg in legs {
        if !follows(region, last, leg) {
            return false;
        }
        last = leg;
    }
    ends_at(last, stop, end)
}

/// Whether the leg ends at the stop at the moment.
fn ends_at(leg: &Leg, stop: &StopRef, moment: Instant) -> bool
    ensures { IsTrue result ↔ IsAt (alighted leg.now) stop.now moment }
{
    leg.alight == *stop && leg.arrives == moment
}

/// Whether the leg is one of the region that leaves where the last one arrived, a second later at least.
fn follows(region: &Code, last: &Leg, leg: &Leg) -> bool
    ensures { IsTrue result ↔ FitsNext region.now (alighted last.now) leg.now }
{
    leg.region == *region
        && leg.board == last.alight
        && last.arrives < leg.departs
        && leg.departs <= leg.arrives
}
