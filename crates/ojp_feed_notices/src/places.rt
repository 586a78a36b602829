//! Long changes and long hops, and stops of one name.

use crate::calls::call_at;
use crate::lines::tell;
use indexmap::IndexMap;
use ojp_outside::Sink;
use ojp_timetable::Timetable;
use ojp_values::{NoMemory, StopRef};
use std::alloc::Global;

/// The longest change that is not told, in seconds.
const LONG_CHANGE: u32 = 3_600;

/// The longest time between two calls that is not told, in seconds.
const LONG_HOP: u32 = 21_600;

pub(crate) fn look_at_places<E: Sink>(
    alloc: Global,
    table: &Timetable,
    report: &mut E,
) -> Result<u64, NoMemory> {
    let changes = look_at_changes(table, report);
    let hops = look_at_hops(table, report);
    let names = look_at_names(alloc, table, report)?;
    Ok(changes.saturating_add(hops).saturating_add(names))
}

fn look_at_changes<E: Sink>(table: &Timetable, report: &mut E) -> u64 {
    let mut told = 0u64;
    for number in 0..table.places() {
        let place = table.place(number);
        if place.change > LONG_CHANGE {
            tell(
                report,
                &[
                    b"a change at ",
                    place.stop.text(),
                    b" takes more than an hour",
                ],
            );
            told = told.saturating_add(1);
        }
    }
    told
}

fn look_at_hops<E: Sink>(table: &Timetable, report: &mut E) -> u64 {
    let mut told = 0u64;
    for number in 0..table.journeys() {
        if has_long_hop(table, number) {
            let journey = table.journey(number);
            tell(
                report,
                &[
                    b"journey ",
                    journey.id.text(),
                    b" has a hop of more than six hours",
                ],
            );
            told = told.saturating_add(1);
        }
    }
    told
}

/// Whether an arrival of the journey is long after the departure before.
fn has_long_hop(table: &Timetable, journey: usize) -> bool {
    let mut left = None;
    for position in 0..usize::MAX {
        let Some(call) = call_at(table, journey, position) else {
            return false;
        };
        if is_long(left, call.arrives) {
            return true;
        }
        left = call.departs;
    }
    false
}

fn is_long(left: Option<u32>, reached: Option<u32>) -> bool {
    match (left, reached) {
        (Some(left), Some(reached)) => reached.saturating_sub(left) > LONG_HOP,
        _ => false,
    }
}

fn look_at_names<E: Sink>(
    alloc: Global,
    table: &Timetable,
    report: &mut E,
) -> Result<u64, NoMemory> {
    let mut named: IndexMap<Vec<u8>, StopRef> = IndexMap::new(alloc);
    let mut told = 0u64;
    for number in 0..table.places() {
        let place = table.place(number);
        let Ok(name) = Vec::from_slice(alloc, place.name.text()) else {
            return Err(NoMemory);
        };
        match named.insert(name, place.stop) {
            Ok(None) => {}
            Ok(Some(other)) => {
                tell_twins(report, other, place.stop);
                told = told.saturating_add(1);
            }
            Err(_) => return Err(NoMemory),
        }
    }
    Ok(told)
}

fn tell_twins<E: Sink>(report: &mut E, one: StopRef, other: StopRef) {
    tell(
        report,
        &[
            b"stops ",
            one.text(),
            b" and ",
            other.text(),
            b" have one name",
        ],
    );
}
