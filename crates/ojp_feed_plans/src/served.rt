//! Which stops and places are served.

ghost use Rattle.std.specs.Prelude.{◌≡◌, ◌<◌, ◌||◌, ◌∷◌, ◌++◌, [], ℕ, cond, length, IfOk, OnOk};
ghost use Rattle.std.specs.List.{filter, range_with_len};
ghost use Rattle.ojp_feed_plans.specs.Served.{AreServed, halts_at, is_marked};

use crate::memory::{is_marked, mark, put, unmarked};
use ojp_feed_rows::{Feed, LocationKind, Trip};
use ojp_feed_trips::{Halt, Pattern};
use ojp_values::NoMemory;
use std::alloc::Global;

/// The stops at which written calls are, and the places where these are.
#[derive(Drop)]
pub struct Served {
    pub stops: Vec<bool>,
    pub places: Vec<bool>,
    /// Places with several stops that are served.
    pub several: Vec<bool>,
}

/// What is served by the patterns of the feed, where the stops have these places, of so many.
pub fn served_by(
    alloc: Global,
    feed: &Feed,
    patterns: &[Pattern],
    places: &[usize],
    count: usize,
) -> Result<Served, NoMemory>
    ensures { IfOk result (λ served. AreServed patterns.now count served.places.items) }
{
    let stops = stops_served(alloc, feed, patterns)?;
    let several = several_of(alloc, stops.as_slice(), places, count)?;
    let at = places_served(alloc, patterns, count)?;
    Ok(Served {
        stops,
        places: at,
        several,
    })
}

// The places, of so many, at which the patterns halt.
fn places_served(alloc: Global, patterns: &[Pattern], count: usize) -> Result<Vec<bool>, NoMemory>
    ensures { IfOk result (λ marks. AreServed patterns.now count marks.items) }
{
    let mut marks = unmarked(alloc, count)?;
    for pattern in patterns {
        mark_places(&mut marks, pattern.halts.as_slice());
    }
    Ok(marks)
}

// Marks the places of the halts.
fn mark_places(marks: &mut Vec<bool>, halts: &[Halt])
    ensures long { length marks.new.items ≡ length marks.old.items }
    ensures each { (place : ℕ) → place < length marks.old.items → is_marked marks.new.items place ≡ (is_marked marks.old.items place || halts_at halts.now place) }
{
    for halt in halts {
        mark(marks, halt.place);
    }
}

// The stops that the halts of the patterns have rows of.
fn stops_served(alloc: Global, feed: &Feed, patterns: &[Pattern]) -> Result<Vec<bool>, NoMemory> {
    let mut stops = unmarked(alloc, feed.stops.len())?;
    for pattern in patterns {
        if let Some(trip) = feed.trips.as_slice().get(pattern.trip) {
            mark_stops(&mut stops, trip, pattern.halts.as_slice());
        }
    }
    Ok(stops)
}

// The places, of so many, with several stops that are marked.
fn several_of(
    alloc: Global,
    stops: &[bool],
    places: &[usize],
    count: usize,
) -> Result<Vec<bool>, NoMemory> {
    let mut found = unmarked(alloc, count)?;
    let mut several = unmarked(alloc, count)?;
    for (stop, place) in places.iter().enumerate() {
        if is_marked(stops, stop) {
            if is_marked(found.as_slice(), *place) {
                mark(&mut several, *place);
            }
            mark(&mut found, *place);
        }
    }
    Ok(several)
}

// Marks the stops of the halts.
fn mark_stops(stops: &mut Vec<bool>, trip: &Trip, halts: &[Halt]) {
    for halt in halts {
        mark_rows(stops, trip, halt);
    }
}

// Marks the stops of a halt's rows.
fn mark_rows(stops: &mut Vec<bool>, trip: &Trip, halt: &Halt) {
    for number in halt.first..halt.last.saturating_add(1) {
        if let Some(row) = trip.stop_times.as_slice().get(number) {
            mark(stops, row.stop as usize);
        }
    }
}

/// How many platforms are not served.
pub fn unserved(feed: &Feed, served: &Served) -> u64 {
    let mut count: u64 = 0;
    for (number, stop) in feed.stops.iter().enumerate() {
        if stop.kind == LocationKind::Platform && !is_marked(served.stops.as_slice(), number) {
            count = count.saturating_add(1);
        }
    }
    count
}

/// The numbers of the served places below a limit, rising.
pub fn served_below(alloc: Global, served: &Served, limit: usize) -> Result<Vec<usize>, NoMemory>
    ensures { IfOk result (λ numbers. numbers.items ≡ filter (is_marked served.now.places.items) (range_with_len 0 limit)) }
{
    let mut numbers = Vec::new(alloc);
    for number in 0..limit {
        let is_served = is_marked(served.places.as_slice(), number);
        put_if(&mut numbers, number, is_served)?;
    }
    Ok(numbers)
}

// Adds the number, where it is wanted.
fn put_if(numbers: &mut Vec<usize>, number: usize, is_wanted: bool) -> Result<(), NoMemory>
    ensures { OnOk result (numbers.new.items ≡ numbers.old.items ++ cond is_wanted (number ∷ []) []) }
{
    if is_wanted {
        put(numbers, number)
    } else {
        Ok(())
    }
}
