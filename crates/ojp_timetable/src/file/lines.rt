//! What a line of a timetable says.

use crate::calls::Call;
use ojp_values::{Code, Label, Name, Neighbour, StopRef};
use ojp_zones::zone::Zone;

/// The first and the last day of a service, as days since 1970-01-01, and the weekdays on which it
/// runs, Monday first.
#[derive(Clone, Copy, Debug, PartialEq, Eq)]
pub struct Dates {
    pub first: u32,
    pub last: u32,
    pub marks: [bool; 7],
}

/// What a line says: the head line, the region, the zone; a stop or an exchange point with its
/// change time in seconds and its name; a neighbour at an exchange point; a service; a journey with
/// its label, its service and its line; a call of the journey above.
#[derive(Clone, Copy, Debug)]
pub enum Line {
    Header,
    Region(Code),
    Zone(Zone),
    Place(StopRef, u32, Name),
    Neighbour(StopRef, Neighbour),
    Service(Label, Dates),
    Journey(Label, Label, Label),
    Call(Call),
}

/// What the lines above leave open: nothing, a journey without calls, or a journey whose last call
/// departs at that offset.
#[derive(Clone, Copy, Debug, PartialEq, Eq)]
pub enum Open {
    Nothing,
    Begun,
    Since(u32),
}

/// Why a line of a timetable is refused.
#[derive(Clone, Copy, Debug, PartialEq, Eq)]
pub enum TableReason {
    /// It is none of the lines of a timetable, or stands at a wrong place.
    LineForm,
    /// A field is not of its kind or range.
    Value,
    /// The zone is neither an offset nor a rule.
    BadZone,
    /// The stop is one of another region.
    ForeignStop,
    /// What it declares stands above already.
    DoubledName,
    /// The stop, or the exchange point of a neighbour, does not stand above.
    UnknownStop,
    /// The service does not stand above.
    UnknownService,
    /// A time is before one above it.
    FallingTimes,
    /// It passes a limit.
    Limit,
}
