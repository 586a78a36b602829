//! All notices.

use crate::against::look_against;
use crate::days::look_at_days;
use crate::exchanges::look_at_exchanges;
use crate::places::look_at_places;
use crate::services::look_at_services;
use crate::stops::look_at_stops;
use ojp_feed_rows::Feed;
use ojp_outside::Sink;
use ojp_timetable::Timetable;
use ojp_values::NoMemory;
use std::alloc::Global;

/// A converted feed: its rows, its timetable, how many stops are not served, and the timetables of other regions.
#[derive(Clone, Copy)]
pub struct Seen<'a> {
    pub feed: &'a Feed,
    pub table: &'a Timetable,
    pub unserved: u64,
    pub others: &'a [Timetable],
}

/// Writes a line for each thing to look at, and gives their number. A write that fails changes nothing of it.
pub fn look<E: Sink>(alloc: Global, seen: Seen<'_>, report: &mut E) -> Result<u64, NoMemory> {
    let stops = look_at_stops(alloc, seen, report)?;
    let services = look_at_services(alloc, seen.feed, report)?;
    let days = look_at_days(alloc, seen, report)?;
    let places = look_at_places(alloc, seen.table, report)?;
    let exchanges = look_at_exchanges(seen, report);
    let against = look_against(seen, report);
    let counts = [stops, services, days, places, exchanges, against];
    let mut sum = 0u64;
    for count in counts {
        sum = sum.saturating_add(count);
    }
    Ok(sum)
}
