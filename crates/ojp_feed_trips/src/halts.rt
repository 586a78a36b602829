//! A halt of a trip.

/// Calls of a trip at one place, one behind the other. The times are seconds of the service day as the trip has them.
#[derive(Clone, Copy, Debug, PartialEq, Eq)]
pub struct Halt {
    pub place: usize,
    pub arrives: u32,
    pub departs: u32,
    /// The first and the last of its rows, counted from 0 in the trip.
    pub first: usize,
    pub last: usize,
    /// Whether passengers may board, and alight.
    pub boards: bool,
    pub alights: bool,
}
