//! The hops of a timetable, as a scan names them.

/// A hop of a journey, from a call to the next: the number of the journey, and the position of the call that it
/// leaves, both from 0.
#[derive(Clone, Copy, Debug, PartialEq, Eq)]
pub struct Hop {
    pub journey: usize,
    pub position: usize,
}
