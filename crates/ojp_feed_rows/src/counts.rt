//! What the reader of a feed passed over.

/// What a reader could not put into a `Feed`, counted.
#[derive(Clone, Copy, Debug, PartialEq, Eq)]
pub struct Passed {
    /// Rows of `stops.txt` whose `parent_station` names no stop.
    pub unknown_parents: u64,
    /// Rows of `stop_times.txt` whose `trip_id` names no trip.
    pub stray_stop_times: u64,
    /// Rows of `frequencies.txt` whose `trip_id` names no trip.
    pub stray_frequencies: u64,
    /// Rows of `transfers.txt` of type 0 or 1, or without a time, which ask for nothing.
    pub untimed_transfers: u64,
    /// Rows of `transfers.txt` that name a route or a trip, or a stop that is not there.
    pub special_transfers: u64,
    /// Rows of `transfers.txt` of types 3 to 5.
    pub typed_transfers: u64,
    /// Rows of `trips.txt` whose `block_id` stands in an earlier row.
    pub chained_trips: u64,
    /// Rows of `routes.txt` and `stop_times.txt` with a `continuous_pickup` or `continuous_drop_off` that is neither empty nor 1.
    pub continuous_rows: u64,
}
