//! What the regions of a row answer.

use ojp_region::answer;
use ojp_scan::Scan;
use ojp_timetable::Timetable;
use ojp_values::{Ask, Code, Delivery};
use std::alloc::Global;

/// What the region answers to the ask.
pub(crate) fn answer_of(
    alloc: Global,
    tables: &[Timetable],
    code: Code,
    ask: &Ask,
) -> Option<Delivery> {
    for table in tables {
        if table.region() == code {
            return answer_by(alloc, table, ask);
        }
    }
    None
}

fn answer_by(alloc: Global, table: &Timetable, ask: &Ask) -> Option<Delivery> {
    let Ok(mut scan) = Scan::new(alloc, table) else {
        return None;
    };
    let delivery = answer(alloc, table, &mut scan, ask);
    drop(scan);
    delivery.ok()
}
