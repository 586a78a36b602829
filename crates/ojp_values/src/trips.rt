//! Trips and their legs, stop events and exchange points.

ghost use Rattle.std.specs.Prelude.{◌↔◌, IsTrue, All};
ghost use Rattle.ojp_values.specs.Limits.{IsChange, IsWellNeighbour};

use crate::lists::List;
use crate::moments::{Day, Instant};
use crate::texts::{Code, Label, Name, StopRef};

/// A ride on one journey of a region's operating day, from boarding to alighting.
#[derive(Clone, Copy, Debug, PartialEq, Eq)]
pub struct Leg {
    pub region: Code,
    pub journey: Label,
    pub line: Label,
    pub day: Day,
    pub board: StopRef,
    pub board_name: Name,
    pub departs: Instant,
    pub alight: StopRef,
    pub alight_name: Name,
    pub arrives: Instant,
}

/// Legs from an origin to a target. The duration is in seconds.
#[derive(Clone, Debug, PartialEq, Eq, Drop)]
pub struct Trip {
    pub duration: u32,
    pub start: Instant,
    pub end: Instant,
    pub transfers: u32,
    pub legs: List<Leg>,
}

/// A departure or an arrival; the order is the place of its call in the journey, from 1.
#[derive(Clone, Copy, Debug, PartialEq, Eq)]
pub struct Event {
    pub region: Code,
    pub journey: Label,
    pub line: Label,
    pub day: Day,
    pub stop: StopRef,
    pub order: u32,
    pub moment: Instant,
}

/// The change time, in seconds, from the rides of another region at an exchange point.
#[derive(Clone, Copy, Debug, PartialEq, Eq)]
pub struct Neighbour {
    pub code: Code,
    pub change: u32,
}

/// An exchange point of a region, with its change time in seconds and the regions that meet there.
#[derive(Clone, Debug, PartialEq, Eq, Drop)]
pub struct Point {
    pub region: Code,
    pub stop: StopRef,
    pub change: u32,
    pub neighbours: List<Neighbour>,
}

impl Trip {
    ghost use Rattle.ojp_values.specs.Limits.{IsWellTrip};

    /// Whether there are 1 to 86,401 legs.
    pub fn is_well(&self) -> bool
        ensures { IsTrue result ↔ IsWellTrip self.now }
    {
        let legs = self.legs.len();
        1 <= legs && legs <= 86_401
    }
}

impl Neighbour {
    /// Whether the change takes 1 to 7,200 seconds.
    pub fn is_well(&self) -> bool
        ensures { IsTrue result ↔ IsWellNeighbour self.now }
    {
        is_change(self.change)
    }
}

impl Point {
    ghost use Rattle.ojp_values.specs.Limits.{IsWellPoint};

    /// Whether there are at most 31 neighbours, and each change takes 1 to 7,200 seconds.
    pub fn is_well(&self) -> bool
        ensures { IsTrue result ↔ IsWellPoint self.now }
    {
        is_change(self.change)
            && self.neighbours.len() <= 31
            && are_well(self.neighbours.as_slice())
    }
}

fn are_well(neighbours: &[Neighbour]) -> bool
    ensures { IsTrue result ↔ All IsWellNeighbour neighbours.now }
{
    neighbours.iter().all(|neighbour| neighbour.is_well())
}

/// Whether a change may take so many seconds.
fn is_change(seconds: u32) -> bool
    ensures { IsTrue result ↔ IsChange seconds }
{
    1 <= seconds && seconds <= 7_200
}
