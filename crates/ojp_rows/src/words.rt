//! The words of rows.

use ojp_values::{Code, Day, Instant, StopRef, TripAsk};
use std::str;

/// The bytes as text.
pub(crate) fn text_of(bytes: &[u8]) -> Option<&str> {
    str::from_utf8(bytes).ok()
}

/// A number.
pub(crate) fn number_of(word: &str) -> Option<u32> {
    word.parse::<u32>().ok()
}

/// A moment, as 2024-05-06T08:00:00Z, or by its seconds since 1970-01-01 UTC.
pub(crate) fn moment_of(word: &str) -> Option<Instant> {
    match Instant::read(word.as_bytes()) {
        Some(moment) => Some(moment),
        None => Instant::new(u64::from(number_of(word)?)).ok(),
    }
}

/// A day, as 2024-05-06.
pub(crate) fn day_of(word: &str) -> Option<Day> {
    Day::read(word.as_bytes())
}

/// The code of a region.
pub(crate) fn code_of(word: &str) -> Option<Code> {
    Code::new(word).ok()
}

/// A reference to a stop.
pub(crate) fn stop_of(word: &str) -> Option<StopRef> {
    StopRef::new(word).ok()
}

/// The ask of the words `ORIGIN START TARGET`.
pub(crate) fn ask_of(words: &str) -> Option<TripAsk> {
    let (origin, rest) = words.split_once(" ")?;
    let (start, target) = rest.split_once(" ")?;
    Some(TripAsk {
        origin: stop_of(origin)?,
        start: moment_of(start)?,
        target: stop_of(target)?,
    })
}
