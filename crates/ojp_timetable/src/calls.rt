//! The calls of a journey.

use ojp_values::StopRef;

/// A call of a journey at a stop. The offsets are seconds from the beginning of the operating day,
/// 0 to 129,600; the first call of a journey has no arrival and the last no departure.
#[derive(Clone, Copy, Debug, PartialEq, Eq)]
pub struct Call {
    pub stop: StopRef,
    pub arrives: Option<u32>,
    pub departs: Option<u32>,
}
