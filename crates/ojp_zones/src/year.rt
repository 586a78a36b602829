//! What is kept of a year while its noons are told.

/// The second offset in a year, in seconds east of UTC. It holds from the day `from` on and before
/// the day `to`, or outside of those days where `to` is the earlier one.
#[derive(Clone, Copy)]
pub struct Season {
    pub east: i32,
    pub from: u32,
    pub to: u32,
}

/// A year, the first day of the next, and the season of the second offset if there is one.
#[derive(Clone, Copy)]
pub struct Year {
    pub number: u16,
    pub next: u32,
    pub season: Option<Season>,
}
