//! Fields of a row's lines.

use crate::words::{day_of, number_of};
use ojp_feed_rows::{Access, LocationKind};

/// A time of day, as 08:00:00, in seconds; none behind `-`.
pub(crate) fn time(text: &str) -> Option<Option<u32>> {
    if text == "-" {
        return Some(None);
    }
    let (hours, rest) = text.split_once(":")?;
    let (minutes, seconds) = rest.split_once(":")?;
    let hours = number_of(hours)?.checked_mul(3_600)?;
    let minutes = number_of(minutes)?.checked_mul(60)?;
    Some(Some(
        hours
            .checked_add(minutes)?
            .checked_add(number_of(seconds)?)?,
    ))
}

/// The number of a day, by its date.
pub(crate) fn day(text: &str) -> Option<u32> {
    Some(day_of(text)?.number())
}

/// Whether a mark is `1`.
pub(crate) fn mark(text: &str) -> bool {
    text == "1"
}

/// Seven marks, Monday first.
pub(crate) fn marks(text: &str) -> Option<[bool; 7]> {
    match text.as_bytes() {
        [a, b, c, d, e, f, g] => Some([
            *a == b'1',
            *b == b'1',
            *c == b'1',
            *d == b'1',
            *e == b'1',
            *f == b'1',
            *g == b'1',
        ]),
        _ => None,
    }
}

/// The number of another row, and none behind `-`.
pub(crate) fn reference(text: &str) -> Option<Option<u32>> {
    if text == "-" {
        Some(None)
    } else {
        Some(Some(number_of(text)?))
    }
}

/// Whether passengers may board or alight.
pub(crate) fn access(text: &str) -> Option<Access> {
    match text {
        "0" => Some(Access::Open),
        "1" => Some(Access::Closed),
        "2" => Some(Access::OnDemand),
        _ => None,
    }
}

/// What a stop is.
pub(crate) fn kind(text: &str) -> Option<LocationKind> {
    match text {
        "0" => Some(LocationKind::Platform),
        "1" => Some(LocationKind::Station),
        "2" => Some(LocationKind::Entrance),
        "3" => Some(LocationKind::Node),
        "4" => Some(LocationKind::BoardingArea),
        _ => None,
    }
}
