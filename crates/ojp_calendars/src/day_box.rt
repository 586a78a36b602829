//! A box of operating days.

use ojp_values::Day;

/// The operating days from the first to the last that lie on the marked weekdays, Monday first: the
/// days of one service.
#[derive(Clone, Copy, Debug, PartialEq, Eq)]
pub struct DayBox {
    pub first: Day,
    pub last: Day,
    pub weekdays: [bool; 7],
}
