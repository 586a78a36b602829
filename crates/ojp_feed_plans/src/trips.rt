//! What becomes of the trips of a feed.

ghost use Rattle.std.specs.Prelude.{◌≡◌, ◌∷◌, ◌++◌, [], map, IfOk, IfSome, OnOk};
ghost use Rattle.ojp_feed_trips.specs.Fates.{IsReason, IsWeighed};
ghost use Rattle.ojp_feed_plans.specs.Days.{boxes_of_service};
ghost use Rattle.ojp_feed_plans.specs.Plans.{AreWeighed, fate_of, patterns_of};

use crate::boxes::boxes_at;
use crate::memory::put;
use ojp_calendars::DayBox;
use ojp_feed_rows::{Feed, Trip};
use ojp_feed_trips::{Fate, Pattern, Weighed, starts_of, weigh};
use ojp_values::NoMemory;
use std::alloc::Global;

/// The most journeys of a timetable.
pub const JOURNEYS: usize = 20_000;

/// The trips of a feed weighed: what becomes of each, and those that are written.
#[derive(Drop)]
pub struct Weighing {
    pub fates: Vec<Fate>,
    pub patterns: Vec<Pattern>,
}

/// Weighs the trips of the feed, where its services have these days and its stops these places.
pub fn weigh_all(
    alloc: Global,
    feed: &Feed,
    boxes: &[Vec<DayBox>],
    places: &[usize],
    as_open: bool,
) -> Result<Weighing, NoMemory>
    ensures { IfOk result (λ weighing. AreWeighed feed.now places.now weighing.fates.items weighing.patterns.items) }
{
    let mut fates = Vec::new(alloc);
    let mut patterns = Vec::new(alloc);
    let trips = feed.trips.as_slice();
    for (number, trip) in trips.iter().enumerate() {
        let weighed = weigh_one(alloc, trip, number, boxes, places, as_open)?;
        note(&mut fates, &mut patterns, weighed)?;
    }
    Ok(Weighing { fates, patterns })
}

// Notes what becomes of the next trip.
fn note(
    fates: &mut Vec<Fate>,
    patterns: &mut Vec<Pattern>,
    weighed: Weighed,
) -> Result<(), NoMemory>
    ensures fates { OnOk result (fates.new.items ≡ fates.old.items ++ fate_of weighed ∷ []) }
    ensures patterns { OnOk result (patterns.new.items ≡ patterns.old.items ++ patterns_of weighed) }
{
    match weighed {
        Weighed::Left(fate) => put(fates, fate),
        Weighed::Written(pattern) => {
            put(fates, Fate::Written)?;
            put(patterns, pattern)
        }
    }
}

// Weighs a trip.
fn weigh_one(
    alloc: Global,
    trip: &Trip,
    number: usize,
    boxes: &[Vec<DayBox>],
    places: &[usize],
    as_open: bool,
) -> Result<Weighed, NoMemory>
    ensures { IfOk result (IsWeighed trip.now number places.now) }
{
    if let Some(fate) = unknown(trip) {
        return Ok(Weighed::Left(fate));
    }
    if boxes_of_trip(trip, boxes).is_empty() {
        return Ok(Weighed::Left(Fate::NoDay));
    }
    let starts = starts_of(alloc, trip, JOURNEYS)?;
    match last_of(starts.as_slice()) {
        None => Ok(Weighed::Left(Fate::NoDay)),
        Some(last) => weigh(alloc, trip, number, places, last, as_open),
    }
}

// What the trip names that is not there.
fn unknown(trip: &Trip) -> Option<Fate>
    ensures { IfSome result IsReason }
{
    if trip.route.is_none() {
        Some(Fate::UnknownRoute)
    } else if trip.service.is_none() {
        Some(Fate::UnknownService)
    } else if trip.has_unknown_stop {
        Some(Fate::UnknownStop)
    } else {
        None
    }
}

/// The days of the trip's service.
pub fn boxes_of_trip<'a>(trip: &Trip, boxes: &'a [Vec<DayBox>]) -> &'a [DayBox]
    ensures { result.now ≡ boxes_of_service (map (λ boxes. boxes.items) boxes.now) trip.now.service }
{
    match trip.service {
        Some(service) => boxes_at(boxes, service as usize),
        None => &[],
    }
}

// The greatest of the departures.
fn last_of(starts: &[u32]) -> Option<u32> {
    starts.iter().copied().max()
}
