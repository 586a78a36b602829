//! Fields of rows.

ghost use Rattle.std.specs.Prelude.{◌≡◌, ◌≤◌, ◌<◌, IfSome};
ghost use Rattle.ojp_values.specs.Numbers.{Reads};
ghost use Rattle.ojp_zones.specs.Numbers.{number_if};
ghost use Rattle.ojp_feed_lines.specs.Fields.{access_of, compact_day, empty_or_time, flag_of, is_continuous, is_count, is_time, location_of, time_of, value_if};

use ojp_feed_rows::{Access, LocationKind};
use ojp_values::{Day, are_digits, read_digits};
use ojp_zones::numbers::read_pair;

/// The number that one to ten digits write, if it is at most `most`; leading zeros are allowed.
#[tactic(auto, unfolding(crate::specs::Fields::is_count))]
pub fn read_count(text: &[u8], most: u32) -> Option<u32>
    ensures value { result ≡ number_if (is_count most text.now) text.now }
    ensures within { IfSome result (λ n. n ≤ most) }
{
    if text.len() > 10 {
        return None;
    }
    if !are_digits(text) {
        return None;
    }
    read_digits(text, most)
}

/// A time as `H:MM:SS`, with one to three digits of hours, in seconds.
#[tactic(auto, unfolding(crate::specs::Fields::is_time))]
pub fn read_time(text: &[u8]) -> Option<u32>
    ensures value { result ≡ value_if (is_time text.now) (time_of text.now) }
    ensures within { IfSome result (λ n. n < 3_600_000) }
{
    let length = text.len();
    if length < 7 {
        return None;
    }
    if length > 9 {
        return None;
    }
    if text[length - 6] != b':' {
        return None;
    }
    if text[length - 3] != b':' {
        return None;
    }
    let hours = read_count(&text[0..length - 6], 999)?;
    let minutes = read_pair(&text[length - 5..length - 3], 59)?;
    let seconds = read_pair(&text[length - 2..length], 59)?;
    Some(3600 * hours + 60 * minutes + seconds)
}

/// A time, where the field is not empty; the outer is none where it is no time.
pub fn read_empty_or_time(text: &[u8]) -> Option<Option<u32>>
    ensures { result ≡ empty_or_time text.now }
{
    if text.is_empty() {
        return Some(None);
    }
    match read_time(text) {
        Some(time) => Some(Some(time)),
        None => None,
    }
}

/// A date as `YYYYMMDD`, as days since 1970-01-01, from 1970-01-03 to 2199-12-28.
pub fn read_date(text: &[u8]) -> Option<u32>
    ensures { Reads (λ n. (2 ≤ n) × (n ≤ 84002)) compact_day text.now result }
{
    match text {
        [y0, y1, y2, y3, m0, m1, d0, d1] => {
            match Day::read(&[*y0, *y1, *y2, *y3, b'-', *m0, *m1, b'-', *d0, *d1]) {
                Some(day) => Some(day.number()),
                None => None,
            }
        }
        _ => None,
    }
}

/// `0` or `1`.
pub fn read_flag(text: &str) -> Option<bool>
    ensures { result ≡ flag_of text.now }
{
    if text == "0" {
        Some(false)
    } else if text == "1" {
        Some(true)
    } else {
        None
    }
}

/// A `pickup_type` or `drop_off_type`.
pub fn read_access(text: &str) -> Option<Access>
    ensures { result ≡ access_of text.now }
{
    if text == "" {
        Some(Access::Open)
    } else if text == "0" {
        Some(Access::Open)
    } else if text == "1" {
        Some(Access::Closed)
    } else if text == "2" {
        Some(Access::OnDemand)
    } else if text == "3" {
        Some(Access::OnDemand)
    } else {
        None
    }
}

/// A `location_type`.
pub fn read_location(text: &str) -> Option<LocationKind>
    ensures { result ≡ location_of text.now }
{
    if text == "" {
        Some(LocationKind::Platform)
    } else if text == "0" {
        Some(LocationKind::Platform)
    } else if text == "1" {
        Some(LocationKind::Station)
    } else if text == "2" {
        Some(LocationKind::Entrance)
    } else if text == "3" {
        Some(LocationKind::Node)
    } else if text == "4" {
        Some(LocationKind::BoardingArea)
    } else {
        None
    }
}

/// Whether a `continuous_pickup` or `continuous_drop_off` promises something.
pub fn is_continuous(text: &str) -> bool
    ensures { result ≡ is_continuous text.now }
{
    text != "" && text != "1"
}
