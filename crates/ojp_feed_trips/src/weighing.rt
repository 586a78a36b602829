//! What becomes of a trip, and its halts.

ghost use Rattle.std.specs.Prelude.{IfOk, IfSome};
ghost use Rattle.ojp_feed_trips.specs.Fates.{IsReason, IsWeighed};

use crate::access::{inner_closed, open_halts};
use crate::checks::{LATEST, arrival, begin, end, falls, has_doubled_sequence, has_times_at_ends};
use crate::fates::{Changed, Fate};
use crate::halts::Halt;
use crate::rows::halts_of;
use ojp_feed_rows::{Access, StopTime, Trip};
use ojp_values::NoMemory;
use std::alloc::Global;

/// A trip that is written: its number, its halts, the departure from its first row, and what was changed.
#[derive(Debug, Drop)]
pub struct Pattern {
    pub trip: usize,
    pub begin: u32,
    pub halts: Vec<Halt>,
    pub changed: Changed,
}

/// A trip weighed: it is written, or left out.
#[derive(Debug, Drop)]
pub enum Weighed {
    Written(Pattern),
    Left(Fate),
}

/// Weighs the trip of that number, where `last_start` is the last departure of its repetitions, and `places` has the place of
/// each stop.
pub fn weigh(
    alloc: Global,
    trip: &Trip,
    number: usize,
    places: &[usize],
    last_start: u32,
    as_open: bool,
) -> Result<Weighed, NoMemory>
    ensures { IfOk result (IsWeighed trip.now number places.now) }
{
    let rows = trip.stop_times.as_slice();
    if let Some(fate) = fault_of(rows, last_start) {
        return Ok(Weighed::Left(fate));
    }
    let halts = halts_of(alloc, rows, places)?;
    let open = open_halts(alloc, halts.as_slice(), as_open)?;
    if open.len() < 2 {
        return Ok(Weighed::Left(Fate::TooFewCalls));
    }
    let changed = Changed {
        spread: untimed(rows),
        joined: rows.len().saturating_sub(halts.len()) as u64,
        dropped: halts.len().saturating_sub(open.len()) as u64,
        opened: inner_closed(open.as_slice()),
        on_demand: on_demand(rows),
    };
    Ok(Weighed::Written(Pattern {
        trip: number,
        begin: begin(rows),
        halts: open,
        changed,
    }))
}

// What is wrong with the rows.
fn fault_of(rows: &[StopTime], last_start: u32) -> Option<Fate>
    ensures { IfSome result IsReason }
{
    if has_doubled_sequence(rows) {
        return Some(Fate::DoubledSequence);
    }
    if !has_times_at_ends(rows) {
        return Some(Fate::NoTimeAtEnd);
    }
    if falls(rows) {
        return Some(Fate::FallingTimes);
    }
    let behind = end(rows).saturating_sub(begin(rows));
    if last_start.saturating_add(behind) > LATEST {
        return Some(Fate::PastEnd);
    }
    None
}

// How many rows have no time.
fn untimed(rows: &[StopTime]) -> u64 {
    rows.iter().filter(|row| arrival(row).is_none()).count() as u64
}

// How many rows are on demand.
fn on_demand(rows: &[StopTime]) -> u64 {
    rows.iter()
        .filter(|row| row.boarding == Access::OnDemand || row.alighting == Access::OnDemand)
        .count() as u64
}
