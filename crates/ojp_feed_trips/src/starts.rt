//! The departures of a trip.

ghost use Rattle.std.specs.Prelude.{◌≡◌, ◌+◌, ◌-◌, ◌∷◌, ◌++◌, [], length, take, IfOk, OnOk};
ghost use Rattle.std.specs.List.{All};
ghost use Rattle.ojp_feed_trips.specs.Starts.{AddsRepeats, IsStart, departures, repeats};

use crate::checks::begin;
use ojp_feed_rows::{Frequency, Trip};
use ojp_values::NoMemory;
use std::alloc::Global;

/// The departures of the trip from its first row, in seconds of the service day: the one of the row, or those of its rows of
/// `frequencies.txt`, no more than one above `most`.
pub fn starts_of(alloc: Global, trip: &Trip, most: usize) -> Result<Vec<u32>, NoMemory>
    ensures stem { IfOk result (λ starts. All (IsStart trip.now) starts.items) }
    ensures all { IfOk result (λ starts. starts.items ≡ take (most + 1) (departures trip.now)) }
{
    let mut starts = Vec::new(alloc);
    if trip.frequencies.is_empty() {
        put(&mut starts, begin(trip.stop_times.as_slice()))?;
        return Ok(starts);
    }
    for frequency in trip.frequencies.as_slice() {
        repeat(&mut starts, frequency, most)?;
    }
    Ok(starts)
}

// Adds the departures of a row of `frequencies.txt`, while there are no more than so many.
fn repeat(starts: &mut Vec<u32>, row: &Frequency, most: usize) -> Result<(), NoMemory>
    ensures stem { OnOk result (AddsRepeats row.now starts.old.items starts.new.items) }
    ensures all { OnOk result (starts.new.items ≡ starts.old.items ++ take ((most + 1) - length starts.old.items) (repeats row.now)) }
{
    let close = row.end;
    let headway = row.headway.max(1);
    let mut next = row.start;
    'departures: while next < close && starts.len() <= most {
        put(starts, next)?;
        next = match next.checked_add(headway) {
            Some(behind) => behind,
            None => close,
        };
    }
    Ok(())
}

// Adds a departure.
fn put(starts: &mut Vec<u32>, start: u32) -> Result<(), NoMemory>
    ensures { OnOk result (starts.new.items ≡ starts.old.items ++ start ∷ []) }
{
    match starts.push(start) {
        Ok(()) => Ok(()),
        Err(_) => Err(NoMemory),
    }
}

/// How many rows of `frequencies.txt` are not exact.
pub fn inexact(trip: &Trip) -> u64 {
    trip.frequencies.iter().filter(|row| !row.exact).count() as u64
}
