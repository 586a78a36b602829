//! Services that never run, or without trips.

use crate::lines::tell;
use ojp_feed_lines::runs_within;
use ojp_feed_rows::{Feed, Window};
use ojp_outside::Sink;
use ojp_values::{FIRST_DAY, LAST_DAY, NoMemory};
use std::alloc::Global;

/// All operating days.
const ALL: Window = Window {
    first: FIRST_DAY,
    last: LAST_DAY,
};

pub(crate) fn look_at_services<E: Sink>(
    alloc: Global,
    feed: &Feed,
    report: &mut E,
) -> Result<u64, NoMemory> {
    let used = used_services(alloc, feed)?;
    let mut told = 0u64;
    for (number, service) in feed.services.iter().enumerate() {
        if !runs_within(service, ALL) {
            tell(
                report,
                &[b"service ", service.id.as_bytes(), b" never runs"],
            );
            told = told.saturating_add(1);
        }
        if used.get(number) == Some(&false) {
            tell(
                report,
                &[b"service ", service.id.as_bytes(), b" has no trip"],
            );
            told = told.saturating_add(1);
        }
    }
    Ok(told)
}

/// Whether some trip is of the service, by its number.
fn used_services(alloc: Global, feed: &Feed) -> Result<Vec<bool>, NoMemory> {
    let mut used = Vec::new(alloc);
    for _ in 0..feed.services.len() {
        if used.push(false).is_err() {
            return Err(NoMemory);
        }
    }
    for trip in &feed.trips {
        let number = match trip.service {
            Some(number) => number as usize,
            None => usize::MAX,
        };
        if let Some(mark) = used.get_mut(number) {
            *mark = true;
        }
    }
    Ok(used)
}
