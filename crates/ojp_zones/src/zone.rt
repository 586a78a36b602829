//! A zone: its offset from UTC, and the time of the year at which another holds.

/// A day of each year: the `week`-th such weekday of the month, and for week 5 the last. The month
/// is 1 to 12, the week 1 to 5, and the weekday 0 to 6, where 0 is Sunday.
#[derive(Clone, Copy, Debug, PartialEq, Eq)]
pub struct DateRule {
    pub month: u32,
    pub week: u32,
    pub weekday: u32,
}

/// The second offset of a zone, in seconds east of UTC. It holds from the day `from` of each year
/// on and before the day `to`.
#[derive(Clone, Copy, Debug, PartialEq, Eq)]
pub struct Summer {
    pub east: i32,
    pub from: DateRule,
    pub to: DateRule,
}

/// A zone by its offset in seconds east of UTC, and its second offset if it has one.
#[derive(Clone, Copy, Debug, PartialEq, Eq)]
pub struct Zone {
    pub east: i32,
    pub summer: Option<Summer>,
}
