//! Exchange points that one of two regions declares, and the other does not.

use crate::lines::tell;
use crate::notices::Seen;
use ojp_outside::Sink;
use ojp_timetable::Timetable;
use ojp_values::{Code, Point, StopRef};

pub(crate) fn look_against<E: Sink>(seen: Seen<'_>, report: &mut E) -> u64 {
    let mut told = 0u64;
    for other in seen.others {
        told = told.saturating_add(look_back(seen.table, other, report));
        told = told.saturating_add(look_back(other, seen.table, report));
    }
    told
}

/// The points at which the one declares the other, which does not declare it there.
fn look_back<E: Sink>(one: &Timetable, other: &Timetable, report: &mut E) -> u64 {
    let mut told = 0u64;
    for point in one.points() {
        if declares(point, other.region()) && !declares_at(other, point.stop, one.region()) {
            tell_dispute(report, point.stop, one.region(), other.region());
            told = told.saturating_add(1);
        }
    }
    told
}

/// Whether the point has the region as a neighbour.
fn declares(point: &Point, region: Code) -> bool {
    point
        .neighbours
        .as_slice()
        .iter()
        .any(|neighbour| neighbour.code == region)
}

/// Whether the timetable declares the region at the point of that reference.
fn declares_at(table: &Timetable, stop: StopRef, region: Code) -> bool {
    table
        .points()
        .iter()
        .any(|point| point.stop == stop && declares(point, region))
}

fn tell_dispute<E: Sink>(report: &mut E, stop: StopRef, one: Code, other: Code) {
    tell(
        report,
        &[
            b"at ",
            stop.text(),
            b" region ",
            one.text(),
            b" declares ",
            other.text(),
            b", which does not declare it",
        ],
    );
}
