//! Exchange points that are not served, or without a neighbour.

use crate::lines::tell;
use crate::notices::Seen;
use ojp_outside::Sink;
use ojp_timetable::Timetable;
use ojp_values::StopRef;

pub(crate) fn look_at_exchanges<E: Sink>(seen: Seen<'_>, report: &mut E) -> u64 {
    let unserved = look_for_unserved(seen, report);
    unserved.saturating_add(look_for_lonely(seen.table, report))
}

fn look_for_unserved<E: Sink>(seen: Seen<'_>, report: &mut E) -> u64 {
    let mut told = 0u64;
    let mut before: Option<StopRef> = None;
    for exchange in &seen.feed.operator.exchanges {
        if before != Some(exchange.point) && !seen.table.has(exchange.point) {
            tell(
                report,
                &[b"exchange ", exchange.point.text(), b" is not served"],
            );
            told = told.saturating_add(1);
        }
        before = Some(exchange.point);
    }
    told
}

fn look_for_lonely<E: Sink>(table: &Timetable, report: &mut E) -> u64 {
    let mut told = 0u64;
    for point in table.points() {
        if point.neighbours.as_slice().is_empty() {
            tell(
                report,
                &[b"exchange ", point.stop.text(), b" has no neighbour"],
            );
            told = told.saturating_add(1);
        }
    }
    told
}
