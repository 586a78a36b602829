//! The kinds of field in documents and timetable files.

use thiserror::Error;

/// What a field of a document holds.
#[derive(Clone, Copy, Debug, PartialEq, Eq)]
pub enum Kind {
    StopRef,
    Code,
    Label,
    Name,
    Moment,
    Day,
    Seconds,
    Change,
    Number,
    Count,
    EventKind,
}

/// Whether stop events are asked at their departures or their arrivals.
#[derive(Clone, Copy, Debug, PartialEq, Eq)]
pub enum EventKind {
    Departure,
    Arrival,
}

/// A text or number that is no value of the kind.
#[derive(Clone, Copy, Debug, PartialEq, Eq, Error)]
#[error("not a value of its kind")]
pub struct BadText {
    pub kind: Kind,
}
