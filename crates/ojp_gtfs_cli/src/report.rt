//! The report: what was written, left out, changed and passed over. A count of 0 has no line but for the first ones.

use crate::converting::Done;
use crate::days::day_text;
use crate::failures::put;
use itoa::Buffer;
use ojp_feed_plans::{Counts, Tally};
use ojp_feed_rows::Passed;
use ojp_outside::Sink;

/// Writes the report.
pub(crate) fn tell<E: Sink>(done: &Done, report: &mut E) {
    let window = done.feed.window;
    put(
        report,
        &[
            b"days: ",
            &day_text(window.first),
            b" to ",
            &day_text(window.last),
            b"\nzone: ",
            done.zone.as_bytes(),
            b"\n",
        ],
    );
    let counts = done.converted.plan.counts;
    tell_count(report, "trips", done.feed.trips.len() as u64);
    tell_count(report, "trips written", counts.tally.written);
    tell_count(report, "journeys", counts.journeys);
    tell_count(report, "calls", counts.calls);
    tell_count(report, "stops unserved", counts.unserved_stops);
    tell_left_out(counts.tally, report);
    tell_changed(counts, report);
    tell_passed(done.feed.passed, report);
}

/// `WORDS: COUNT`
fn tell_count<E: Sink>(report: &mut E, words: &str, count: u64) {
    let mut digits = Buffer::new();
    let number = digits.format(count);
    put(report, &[words.as_bytes(), b": ", number.as_bytes(), b"\n"]);
}

/// The same where the count is not 0.
fn tell_some<E: Sink>(report: &mut E, words: &str, count: u64) {
    if count > 0 {
        tell_count(report, words, count);
    }
}

fn tell_left_out<E: Sink>(tally: Tally, report: &mut E) {
    tell_some(report, "left out, unknown route", tally.unknown_route);
    tell_some(report, "left out, unknown service", tally.unknown_service);
    tell_some(report, "left out, unknown stop", tally.unknown_stop);
    tell_some(report, "left out, no day in the window", tally.no_day);
    tell_some(
        report,
        "left out, doubled stop_sequence",
        tally.doubled_sequence,
    );
    tell_some(report, "left out, no time at an end", tally.no_time_at_end);
    tell_some(report, "left out, falling times", tally.falling_times);
    tell_some(report, "left out, past 36:00:00", tally.past_end);
    tell_some(
        report,
        "left out, fewer than two calls",
        tally.too_few_calls,
    );
}

fn tell_changed<E: Sink>(counts: Counts, report: &mut E) {
    tell_some(report, "changed, times spread", counts.spread);
    tell_some(
        report,
        "changed, calls joined with the one before",
        counts.joined,
    );
    tell_some(report, "changed, closed calls dropped", counts.dropped);
    tell_some(report, "changed, closed calls opened", counts.opened);
    tell_some(report, "changed, calls on demand opened", counts.on_demand);
    tell_some(report, "changed, frequencies made exact", counts.inexact);
    tell_some(report, "changed, ids made labels", counts.labels);
    tell_some(report, "changed, names", counts.names);
    tell_some(report, "changed, times of changes", counts.held);
    tell_some(
        report,
        "passed over, transfers between stops",
        counts.between,
    );
}

fn tell_passed<E: Sink>(passed: Passed, report: &mut E) {
    tell_some(
        report,
        "passed over, unknown parent stations",
        passed.unknown_parents,
    );
    tell_some(
        report,
        "passed over, stop times without a trip",
        passed.stray_stop_times,
    );
    tell_some(
        report,
        "passed over, frequencies without a trip",
        passed.stray_frequencies,
    );
    tell_some(
        report,
        "passed over, transfers without a time",
        passed.untimed_transfers,
    );
    tell_some(
        report,
        "passed over, transfers of a route, a trip or no stop",
        passed.special_transfers,
    );
    tell_some(
        report,
        "passed over, transfers of types 3 to 5",
        passed.typed_transfers,
    );
    tell_some(
        report,
        "passed over, trips that go on another",
        passed.chained_trips,
    );
    tell_some(
        report,
        "passed over, continuous boarding",
        passed.continuous_rows,
    );
}
