//! What is asked of a region or of the gateway.

ghost use Rattle.std.specs.Prelude.{◌↔◌, IsTrue};

use crate::kinds::EventKind;
use crate::lists::List;
use crate::moments::Instant;
use crate::texts::StopRef;

/// A trip from the origin, not before the start, to the target.
#[derive(Clone, Copy, Debug, PartialEq, Eq)]
pub struct TripAsk {
    pub origin: StopRef,
    pub start: Instant,
    pub target: StopRef,
}

/// A trip from the origin, not before the start, to each of 1 to 256 targets.
#[derive(Clone, Debug, PartialEq, Eq, Drop)]
pub struct MultiAsk {
    pub origin: StopRef,
    pub start: Instant,
    pub targets: List<StopRef>,
}

/// The first events at the stop, not before the start; their number is 1 to 100.
#[derive(Clone, Copy, Debug, PartialEq, Eq)]
pub struct EventAsk {
    pub stop: StopRef,
    pub start: Instant,
    pub kind: EventKind,
    pub number: u32,
}

/// The exchange points, all of them or the one at the place.
#[derive(Clone, Copy, Debug, PartialEq, Eq)]
pub struct PointsAsk {
    pub place: Option<StopRef>,
}

/// A request of one of the four services.
#[derive(Clone, Debug, PartialEq, Eq, Drop)]
pub enum Ask {
    Trip(TripAsk),
    Multi(MultiAsk),
    Events(EventAsk),
    Points(PointsAsk),
}

impl Ask {
    ghost use Rattle.ojp_values.specs.Limits.{IsWellAsk};

    /// Whether 1 to 256 targets are asked, or 1 to 100 events.
    pub fn is_well(&self) -> bool
        ensures { IsTrue result ↔ IsWellAsk self.now }
    {
        match self {
            Ask::Trip(_) | Ask::Points(_) => true,
            Ask::Multi(ask) => (1..=256).contains(&ask.targets.len()),
            Ask::Events(ask) => (1..=100).contains(&ask.number),
        }
    }
}
