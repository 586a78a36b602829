//! The halts of a trip's rows.

ghost use Rattle.std.specs.Prelude.{◌≡◌, ◌+◌, ◌∷◌, ◌++◌, [], ℕ, List, Some, slice_get, IfOk, OnOk};
ghost use Rattle.ojp_feed_rows.specs.declared.trips.StopTime.{StopTime};
ghost use Rattle.ojp_feed_trips.specs.Halts.{AreFirstHalts, AreHalts, IsHalt, joined, place_of};

use crate::checks::{arrival, departure};
use crate::gaps::Gap;
use crate::halts::Halt;
use ojp_feed_rows::{Access, StopTime};
use ojp_values::NoMemory;
use std::alloc::Global;

/// The halts of the rows, those at one place one behind the other joined. A row without times has the time that is spread
/// evenly between the timed rows around it.
pub fn halts_of(alloc: Global, rows: &[StopTime], places: &[usize]) -> Result<Vec<Halt>, NoMemory>
    ensures { IfOk result (λ halts. AreHalts rows.now places.now halts.items) }
{
    let mut halts = Vec::new(alloc);
    let mut gap = Gap::none();
    for (number, row) in rows.iter().enumerate() {
        gap = gap.at(rows, number);
        let halt = halt_of(row, number, places, gap.time(number));
        add(&mut halts, halt, rows, places)?;
    }
    Ok(halts)
}

// The halt of a row alone, whose times are the spread one where it has none.
fn halt_of(row: &StopTime, number: usize, places: &[usize], spread: u32) -> Halt
    ensures halt { (rows : List StopTime) → slice_get rows number ≡ Some row.now → IsHalt rows places.now result }
    ensures first { result.first ≡ number }
    ensures last { result.last ≡ number }
{
    Halt {
        place: place_of(places, row.stop),
        arrives: arrival(row).unwrap_or(spread),
        departs: departure(row).unwrap_or(spread),
        first: number,
        last: number,
        boards: row.boarding != Access::Closed,
        alights: row.alighting != Access::Closed,
    }
}

// The place of the stop.
fn place_of(places: &[usize], stop: u32) -> usize
    ensures { result ≡ place_of places.now stop }
{
    match places.get(stop as usize) {
        Some(place) => *place,
        None => stop as usize,
    }
}

// Adds the halt of the next row: joined with the last one where it is at the same place.
fn add(
    halts: &mut Vec<Halt>,
    halt: Halt,
    rows: &[StopTime],
    places: &[usize],
) -> Result<(), NoMemory>
    requires before { AreFirstHalts rows.now places.now halts.old.items halt.first }
    requires halt { IsHalt rows.now places.now halt }
    ensures { OnOk result (AreFirstHalts rows.now places.now halts.new.items (halt.last + 1)) }
{
    match halts.pop() {
        None => put(halts, halt),
        Some(before) => {
            if before.place == halt.place {
                put(halts, both(before, halt))
            } else {
                put(halts, before)?;
                put(halts, halt)
            }
        }
    }
}

// One halt of two.
fn both(before: Halt, halt: Halt) -> Halt
    ensures { result ≡ joined before halt }
{
    Halt {
        place: before.place,
        arrives: before.arrives,
        departs: halt.departs,
        first: before.first,
        last: halt.last,
        boards: before.boards || halt.boards,
        alights: before.alights || halt.alights,
    }
}

// Adds the halt.
fn put(halts: &mut Vec<Halt>, halt: Halt) -> Result<(), NoMemory>
    ensures { OnOk result (halts.new.items ≡ halts.old.items ++ halt ∷ []) }
{
    match halts.push(halt) {
        Ok(()) => Ok(()),
        Err(_) => Err(NoMemory),
    }
}
