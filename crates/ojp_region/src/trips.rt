//! What a region answers to an ask for trips to many targets.

ghost use Rattle.std.specs.Prelude.{◌≡◌, ℕ, not, find, IfOk};
ghost use Rattle.std.specs.List.{list_any};
ghost use Rattle.ojp_values.specs.Lists.{Pairwise};
ghost use Rattle.ojp_values.specs.Texts.{Text, same};
ghost use Rattle.ojp_timetable.specs.Tables.{has};
ghost use Rattle.ojp_timetable.specs.Answers.{MultiAnswered, TargetAnswered, targets_fault};
ghost use Rattle.ojp_scan.specs.Scans.{IsMadeFor, IsScanOf};
ghost use Rattle.ojp_scan.specs.Trips.{IsStarted};

use ojp_scan::Scan;
use ojp_scan::answers::earliest_trip;
use ojp_timetable::Timetable;
use ojp_values::{Delivery, Fault, List, MultiAsk, MultiReply, NoMemory, StopRef, TripResult};
use std::alloc::Global;

/// The fault of the ask, or a result for each target in their order, all by one scan.
pub(crate) fn multi_answer(
    alloc: Global,
    table: &Timetable,
    scan: &mut Scan,
    ask: &MultiAsk,
) -> Result<Delivery, NoMemory>
    requires made { IsMadeFor scan.old table.now }
    ensures made { IsMadeFor scan.new table.now }
    ensures answered { IfOk result (λ delivery. MultiAnswered table.now ask.now delivery) }
{
    if let Some(fault) = targets_fault(table, ask.origin, ask.targets.as_slice()) {
        return Ok(Delivery::Multi(MultiReply::Fault(fault)));
    }
    scan.from(table, ask.origin, ask.start);
    let found = results_of(alloc, table, scan, ask.targets.as_slice())?;
    Ok(Delivery::Multi(MultiReply::Results(found)))
}

/// A result for each target, from where the scan was started.
fn results_of(
    alloc: Global,
    table: &Timetable,
    scan: &Scan,
    targets: &[StopRef],
) -> Result<List<TripResult>, NoMemory>
    requires { IsStarted scan.now table.now }
    ensures { (origin : Text) (start : ℕ) → IsScanOf scan.now table.now origin start
        → IfOk result (λ found. Pairwise (TargetAnswered table.now origin start) targets.now found) }
{
    let mut found = Vec::new(alloc);
    'targets: for target in targets {
        let result = earliest_trip(alloc, table, scan, *target)?;
        let Ok(()) = found.push(result) else {
            return Err(NoMemory);
        };
    }
    Ok(List::from_items(found))
}

/// The fault of an ask, if it has one: a target is the origin, or a stop is unknown, the origin first
/// and then the targets in their order.
fn targets_fault(table: &Timetable, origin: StopRef, targets: &[StopRef]) -> Option<Fault>
    ensures { result ≡ targets_fault table.now origin targets.now }
{
    if is_among(origin, targets) {
        return Some(Fault::SameStop(origin));
    }
    if !table.has(origin) {
        return Some(Fault::StopUnknown(origin));
    }
    match first_unknown(table, targets) {
        Some(stop) => Some(Fault::StopUnknown(stop)),
        None => None,
    }
}

/// Whether the stop is one of them.
#[tactic(auto, unfolding(ojp_values::specs::Texts::same))]
fn is_among(stop: StopRef, stops: &[StopRef]) -> bool
    ensures { result ≡ list_any (same stop) stops.now }
{
    stops.iter().any(|other| stop == *other)
}

/// The first of the stops that the region does not have.
fn first_unknown(table: &Timetable, stops: &[StopRef]) -> Option<StopRef>
    ensures { result ≡ find (λ stop. not (has table.now stop)) stops.now }
{
    'stops: for stop in stops {
        if !table.has(*stop) {
            return Some(*stop);
        }
    }
    None
}
