//! What a row of a trip says, and what is wrong with rows.

ghost use Rattle.std.specs.Prelude.{◌≡◌};
ghost use Rattle.ojp_feed_trips.specs.Halts.{arrival_of, departure_of, first_departure};

use ojp_feed_rows::StopTime;

/// The latest second of a timetable's day, 36:00:00.
pub const LATEST: u32 = 129_600;

/// The arrival of a row, and its departure where that is empty.
pub fn arrival(row: &StopTime) -> Option<u32>
    ensures { result ≡ arrival_of row.now }
{
    row.arrival.or(row.departure)
}

/// The departure of a row, and its arrival where that is empty.
pub fn departure(row: &StopTime) -> Option<u32>
    ensures { result ≡ departure_of row.now }
{
    row.departure.or(row.arrival)
}

/// Whether two rows have one sequence, where they stand by sequence.
pub fn has_doubled_sequence(rows: &[StopTime]) -> bool {
    let mut before = None;
    for row in rows {
        if before == Some(row.sequence) {
            return true;
        }
        before = Some(row.sequence);
    }
    false
}

/// Whether the first and the last row have a time.
pub fn has_times_at_ends(rows: &[StopTime]) -> bool {
    match (rows.first(), rows.last()) {
        (Some(first), Some(last)) => arrival(first).is_some() && arrival(last).is_some(),
        _ => true,
    }
}

/// Whether a time is before one above it.
pub fn falls(rows: &[StopTime]) -> bool {
    let mut before = 0;
    for row in rows {
        if is_before(arrival(row), before) {
            return true;
        }
        before = arrival(row).unwrap_or(before);
        if is_before(departure(row), before) {
            return true;
        }
        before = departure(row).unwrap_or(before);
    }
    false
}

// Whether there is a time and it is before the other.
fn is_before(time: Option<u32>, before: u32) -> bool {
    match time {
        Some(time) => time < before,
        None => false,
    }
}

/// The first departure.
pub fn begin(rows: &[StopTime]) -> u32
    ensures { result ≡ first_departure rows.now }
{
    match rows.first() {
        Some(first) => departure(first).unwrap_or(0),
        None => 0,
    }
}

/// The last departure.
pub fn end(rows: &[StopTime]) -> u32 {
    match rows.last() {
        Some(last) => departure(last).unwrap_or(0),
        None => 0,
    }
}
