//! The questions to a timetable, with answers worked out by hand.

use ojp_timetable::Timetable;
use ojp_values::{Day, StopRef};
use std::alloc::Global;

/// Whether the timetable of the row answers each question as it should.
pub fn answers(alloc: Global, text: &str) -> Option<bool> {
    let table = Timetable::read(alloc, text.as_bytes()).ok()?;
    let told = are_told(&table);
    drop(table);
    told
}

fn are_told(table: &Timetable) -> Option<bool> {
    let stops = stops_are_told(table)? && places_are_told(table)?;
    Some(stops && runs_are_told(table)? && journeys_are_told(table))
}

fn stops_are_told(table: &Timetable) -> Option<bool> {
    let point = StopRef::new("x:P").ok()?;
    let known = table.region().text() == b"AA".as_slice() && table.has(point);
    Some(known && table.change(point) == Some(90) && table.place_of(point) == Some(1))
}

fn places_are_told(table: &Timetable) -> Option<bool> {
    if table.places() != 2 || table.exchanges() != 1 {
        return Some(false);
    }
    let first = table.place(0).stop == StopRef::new("AA:a").ok()?;
    Some(first && table.exchange(0).neighbours.len() == 1)
}

/// Monday 2024-05-06 is day 19,849; the service runs on weekdays.
fn runs_are_told(table: &Timetable) -> Option<bool> {
    let (monday, saturday) = (Day::new(19_849).ok()?, Day::new(19_847).ok()?);
    if table.services() != 1 {
        return Some(false);
    }
    let moment = table.moment(monday, 29_400).seconds();
    Some(table.runs_on(0, monday) && !table.runs_on(0, saturday) && moment == 1_714_983_000)
}

fn journeys_are_told(table: &Timetable) -> bool {
    if table.journeys() != 1 {
        return false;
    }
    table.journey(0).calls == 2
}
