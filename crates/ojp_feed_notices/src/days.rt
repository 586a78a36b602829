//! Days without a run, or with few.

use crate::lines::tell;
use crate::notices::Seen;
use itoa::Buffer;
use ojp_outside::Sink;
use ojp_timetable::Timetable;
use ojp_values::{Day, NoMemory};
use std::alloc::Global;

pub(crate) fn look_at_days<E: Sink>(
    alloc: Global,
    seen: Seen<'_>,
    report: &mut E,
) -> Result<u64, NoMemory> {
    let first = seen.feed.window.first;
    let journeys = journeys_by_service(alloc, seen.table)?;
    let mut runs = Vec::new(alloc);
    for day in first..seen.feed.window.last.saturating_add(1) {
        if runs.push(runs_on(seen.table, &journeys, day)).is_err() {
            return Err(NoMemory);
        }
    }
    let median = median_of(alloc, &runs)?;
    let mut told = 0u64;
    for (number, count) in runs.iter().enumerate() {
        if *count < median.div_ceil(2) || *count == 0 {
            tell_day(report, first, number, *count, median);
            told = told.saturating_add(1);
        }
    }
    Ok(told)
}

/// How many journeys each service has, by its number.
fn journeys_by_service(alloc: Global, table: &Timetable) -> Result<Vec<u64>, NoMemory> {
    let mut counts = Vec::new(alloc);
    for _ in 0..table.services() {
        if counts.push(0u64).is_err() {
            return Err(NoMemory);
        }
    }
    for number in 0..table.journeys() {
        let journey = table.journey(number);
        if let Some(count) = counts.get_mut(journey.service) {
            *count = count.saturating_add(1);
        }
    }
    Ok(counts)
}

/// How many journeys run on the day.
fn runs_on(table: &Timetable, journeys: &[u64], day: u32) -> u64 {
    let Ok(day) = Day::new(day) else {
        return 0;
    };
    let mut sum = 0u64;
    for (service, count) in journeys.iter().enumerate() {
        if service < table.services() && table.runs_on(service, day) {
            sum = sum.saturating_add(*count);
        }
    }
    sum
}

/// The count in the middle, the higher of two.
fn median_of(alloc: Global, runs: &[u64]) -> Result<u64, NoMemory> {
    let Ok(mut sorted) = Vec::from_slice(alloc, runs) else {
        return Err(NoMemory);
    };
    if sorted.sort().is_err() {
        return Err(NoMemory);
    }
    match sorted.get(sorted.len() / 2) {
        Some(median) => Ok(*median),
        None => Ok(0),
    }
}

fn tell_day<E: Sink>(report: &mut E, first: u32, number: usize, count: u64, median: u64) {
    let Ok(day) = Day::new(first.saturating_add(number.min(100_000) as u32)) else {
        return;
    };
    let text = day.text();
    if count == 0 {
        tell(report, &[b"day ", &text, b" has no run"]);
        return;
    }
    let mut digits = Buffer::new();
    let mut more_digits = Buffer::new();
    let count = digits.format(count);
    let median = more_digits.format(median);
    tell(
        report,
        &[
            b"day ",
            &text,
            b" has ",
            count.as_bytes(),
            b" runs, the median is ",
            median.as_bytes(),
        ],
    );
}
