//! What is kept of a stop, of a journey and of a call.

use crate::calls::Call;
use ojp_values::{Label, Name, StopRef};

/// The change time of a stop in seconds, and its name.
#[derive(Clone, Copy, Debug)]
pub struct PlaceFacts {
    pub change: u32,
    pub name: Name,
}

/// The line of a journey, the number of its service, and where its calls begin in the row of all
/// calls. They end where those of the next journey begin.
#[derive(Clone, Copy, Debug)]
pub struct Head {
    pub line: Label,
    pub service: usize,
    pub first_call: usize,
}

/// A call with the number of its stop among the places.
#[derive(Clone, Copy, Debug)]
pub struct FoundCall {
    pub call: Call,
    pub place: usize,
}

/// A call that a line says: the text of its stop, with the number of the stop where it stands above,
/// its arrival and its departure.
#[derive(Clone, Copy, Debug)]
pub struct SaidCall<'a> {
    pub stop: &'a [u8],
    pub place: Option<usize>,
    pub arrives: Option<u32>,
    pub departs: Option<u32>,
}

/// A call as it is kept: the number of its stop among the places, its arrival and its departure.
#[derive(Clone, Copy, Debug)]
pub struct KeptCall {
    pub place: usize,
    pub arrives: Option<u32>,
    pub departs: Option<u32>,
}

/// The labels that the line of a journey says: its own, that of its service and that of its line.
#[derive(Clone, Copy, Debug)]
pub struct SaidJourney {
    pub id: Label,
    pub service: Label,
    pub line: Label,
}

/// A journey that a line says, with the number of its service.
#[derive(Clone, Copy, Debug)]
pub struct FoundJourney {
    pub said: SaidJourney,
    pub service: usize,
}

/// A journey: its label, its line, the number of its service, and how many calls it has.
#[derive(Clone, Copy, Debug, PartialEq, Eq)]
pub struct JourneyView {
    pub id: Label,
    pub line: Label,
    pub service: usize,
    pub calls: usize,
}

/// A stop or an exchange point with its change time in seconds and its name.
#[derive(Clone, Copy, Debug, PartialEq, Eq)]
pub struct PlaceView {
    pub stop: StopRef,
    pub change: u32,
    pub name: Name,
}
