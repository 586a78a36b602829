//! Stops that are not served, or only one way.

use crate::calls::call_at;
use crate::lines::{tell, tell_count};
use crate::notices::Seen;
use ojp_outside::Sink;
use ojp_timetable::Timetable;
use ojp_values::NoMemory;
use std::alloc::Global;

/// Whether some call arrives at a place, and whether one departs there.
#[derive(Clone, Copy, Debug, PartialEq, Eq)]
struct Served {
    reached: bool,
    left: bool,
}

pub(crate) fn look_at_stops<E: Sink>(
    alloc: Global,
    seen: Seen<'_>,
    report: &mut E,
) -> Result<u64, NoMemory> {
    let mut told = 0u64;
    if seen.unserved > 0 {
        tell_count(report, b"stops that are not served: ", seen.unserved);
        told = 1;
    }
    let served = served_places(alloc, seen.table)?;
    for (number, marks) in served.iter().enumerate() {
        if number < seen.table.places() && !(marks.reached && marks.left) {
            let place = seen.table.place(number);
            tell(report, &[b"stop ", place.stop.text(), words_of(*marks)]);
            told = told.saturating_add(1);
        }
    }
    Ok(told)
}

/// What is said of a place that is not served both ways.
fn words_of(marks: Served) -> &'static [u8] {
    if marks.reached {
        b" is only reached"
    } else if marks.left {
        b" is only left"
    } else {
        b" is not served"
    }
}

/// How each place is served, by its number.
fn served_places(alloc: Global, table: &Timetable) -> Result<Vec<Served>, NoMemory> {
    let mut served = Vec::new(alloc);
    for _ in 0..table.places() {
        let none = Served {
            reached: false,
            left: false,
        };
        if served.push(none).is_err() {
            return Err(NoMemory);
        }
    }
    for journey in 0..table.journeys() {
        mark_calls(table, journey, &mut served);
    }
    Ok(served)
}

/// Marks the places of the journey's calls.
fn mark_calls(table: &Timetable, journey: usize, served: &mut Vec<Served>) {
    for position in 0..usize::MAX {
        let Some(call) = call_at(table, journey, position) else {
            return;
        };
        let place = match table.place_of(call.stop) {
            Some(place) => place,
            None => usize::MAX,
        };
        if let Some(marks) = served.get_mut(place) {
            marks.reached = marks.reached || call.arrives.is_some();
            marks.left = marks.left || call.departs.is_some();
        }
    }
}
