//! What becomes of a trip.

/// What becomes of a trip: it is written, or left out by the first of these reasons that applies.
#[derive(Clone, Copy, Debug, PartialEq, Eq)]
pub enum Fate {
    Written,
    UnknownRoute,
    UnknownService,
    UnknownStop,
    /// Its service has no day in the window, or its rows of `frequencies.txt` no departure.
    NoDay,
    DoubledSequence,
    /// Its first or its last call has no time.
    NoTimeAtEnd,
    FallingTimes,
    /// A call is past 36:00:00 of the service day.
    PastEnd,
    TooFewCalls,
}

/// What was changed of the calls of written trips, counted, each repetition and service line but once.
#[derive(Clone, Copy, Debug, PartialEq, Eq)]
pub struct Changed {
    /// Calls without times, whose time was spread evenly.
    pub spread: u64,
    /// Calls that were joined with the one before at the same stop.
    pub joined: u64,
    /// Calls that were dropped because they forbid to board or to alight.
    pub dropped: u64,
    /// Calls that forbid to board or to alight and are kept as open ones.
    pub opened: u64,
    /// Calls on demand that are written as open ones.
    pub on_demand: u64,
}
