//! Reading the text of a zone.
ghost use Rattle.std.specs.Prelude.{◌≡◌, ◌≤◌, ◌<◌, ◌==◌, pos, neg_ℤ, ◌+ℤ◌, ◌≤ℤ◌, Some, None, IfSome, option_map, option_copied, length, slice_index, cond, drop};
ghost use Rattle.std.specs.List.{prefix_len};
ghost use Rattle.std.specs.Char.{is_ascii_alphabetic};
ghost use Rattle.ojp_zones.specs.Parts.{parts};
ghost use Rattle.ojp_zones.specs.Noons.{IsRule, IsZone, IsOffset};
ghost use Rattle.ojp_zones.specs.Zones.{is_sign, unsigned, fixed_zone, clock_parts, hour_parts, offset_zone, rule_offset, is_quoted_byte, behind_quoted, behind_plain, behind_name, is_offset_byte, offset_end, day_parts, date_parts, date_rule, second_offset, changing, changing_behind, named_offset, rule_zone, zone_of};

use crate::numbers::{read_hour, read_number, read_pair};
use crate::parts::Split;
use crate::splits::split;
use crate::zone::{DateRule, Summer, Zone};

const HOUR: u32 = 3600;

fn is_sign(byte: u8) -> bool
    ensures { result ≡ is_sign byte }
{
    byte == b'+' || byte == b'-'
}

// The text without the sign at its front, if there is one.
fn unsigned(text: &[u8]) -> &[u8]
    ensures { result.now ≡ unsigned text.now }
{
    match text {
        [b'+' | b'-', rest @ ..] => rest,
        _ => text,
    }
}

// The seconds of `hh:mm`, up to 14:59.
fn read_clock(text: &[u8]) -> Option<u32>
    ensures value { result ≡ clock_parts (parts 58 text.now) }
    ensures within { IfSome result (λ n. n ≤ 53940) }
{
    match split(text, b':') {
        Split::One(_) => None,
        Split::Two(hours, minutes) => {
            let hours = read_pair(hours, 14)?;
            let minutes = read_pair(minutes, 59)?;
            Some(HOUR * hours + 60 * minutes)
        }
        Split::Three(_, _, _) => None,
        Split::More => None,
    }
}

// The seconds of `h` or `h:mm`, up to 14:59.
fn read_hours(text: &[u8]) -> Option<u32>
    ensures value { result ≡ hour_parts (parts 58 text.now) }
    ensures within { IfSome result (λ n. n ≤ 53940) }
{
    match split(text, b':') {
        Split::One(hours) => {
            let hours = read_hour(hours, 14)?;
            Some(HOUR * hours)
        }
        Split::Two(hours, minutes) => {
            let hours = read_hour(hours, 14)?;
            let minutes = read_pair(minutes, 59)?;
            Some(HOUR * hours + 60 * minutes)
        }
        Split::Three(_, _, _) => None,
        Split::More => None,
    }
}

// So many seconds east of UTC.
fn east(seconds: u32) -> i32
    requires { seconds ≤ 53940 }
    ensures { result ≡ pos seconds }
{
    seconds as i32
}

// So many seconds west of UTC.
fn west(seconds: u32) -> i32
    requires { seconds ≤ 53940 }
    ensures { result ≡ neg_ℤ (pos seconds) }
{
    -(seconds as i32)
}

fn has_minus(text: &[u8]) -> bool
    ensures { result ≡ (slice_index text.now 0 == 45) }
{
    match text {
        [b'-', ..] => true,
        _ => false,
    }
}

// The zone of `+hh:mm` or `-hh:mm`.
#[tactic(auto, unfolding(crate::specs::Zones::offset_zone))]
fn read_offset_zone(text: &[u8]) -> Option<Zone>
    ensures value { result ≡ offset_zone text.now }
    ensures well { IfSome result IsZone }
{
    let seconds = read_clock(unsigned(text))?;
    let east = if has_minus(text) {
        west(seconds)
    } else {
        east(seconds)
    };
    Some(Zone { east, summer: None })
}

// The seconds east of UTC of an offset in a rule.
#[tactic(auto, unfolding(crate::specs::Zones::rule_offset))]
fn read_rule_offset(text: &[u8]) -> Option<i32>
    ensures value { result ≡ rule_offset text.now }
    ensures within { IfSome result (λ east. (neg_ℤ (pos 53940) ≤ℤ east) × (east ≤ℤ pos 53940)) }
{
    let seconds = read_hours(unsigned(text))?;
    if has_minus(text) {
        Some(east(seconds))
    } else {
        Some(west(seconds))
    }
}

// How many of the bytes, from the first on, are a letter, a digit or a sign.
fn quoted_length(text: &[u8]) -> usize
    ensures { result ≡ prefix_len is_quoted_byte text.now }
{
    text.iter()
        .take_while(|b| b.is_ascii_alphanumeric() || is_sign(**b))
        .count()
}

// How many of the bytes, from the first on, are letters.
fn letters_length(text: &[u8]) -> usize
    ensures { result ≡ prefix_len is_ascii_alphabetic text.now }
{
    text.iter().take_while(|b| b.is_ascii_alphabetic()).count()
}

// What stands behind the `<` at the front.
fn behind_angle(text: &[u8]) -> Option<&[u8]>
    ensures { option_copied result ≡ cond (slice_index text.now 0 == 60) (Some (drop 1 text.now)) None }
{
    match text {
        [b'<', rest @ ..] => Some(rest),
        _ => None,
    }
}

// What stands behind a name of `count` bytes that ends at the byte `>`.
fn behind_quoted(text: &[u8], count: usize) -> Option<&[u8]>
    requires { count ≤ length text.now }
    ensures { behind_quoted count text.now ≡ option_copied result }
{
    if count < 3 {
        return None;
    }
    if count > 16 {
        return None;
    }
    match text.split_at(count).1 {
        [b'>', rest @ ..] => Some(rest),
        _ => None,
    }
}

// What stands behind the name at the front of the text.
#[tactic(auto, unfolding(crate::specs::Zones::behind_name))]
fn behind_name(text: &[u8]) -> Option<&[u8]>
    ensures { behind_name text.now ≡ option_copied result }
{
    if let Some(quoted) = behind_angle(text) {
        return behind_quoted(quoted, quoted_length(quoted));
    }
    let length = letters_length(text);
    if length < 3 {
        return None;
    }
    if length > 16 {
        return None;
    }
    Some(text.split_at(length).1)
}

// The day of `Mm.w.d`.
fn read_day(text: &[u8]) -> Option<DateRule>
    ensures value { result ≡ day_parts (parts 46 text.now) }
    ensures well { IfSome result IsRule }
{
    match split(text, b'.') {
        Split::One(_) => None,
        Split::Two(_, _) => None,
        Split::Three([b'M', month @ ..], week, weekday) => {
            let month = read_number(month, 1, 12)?;
            let week = read_number(week, 1, 5)?;
            let weekday = read_number(weekday, 0, 6)?;
            Some(DateRule {
                month,
                week,
                weekday,
            })
        }
        Split::Three(_, _, _) => None,
        Split::More => None,
    }
}

// The day of a date, which may have an hour behind a slash.
#[tactic(auto, unfolding(crate::specs::Zones::date_rule))]
fn read_date(text: &[u8]) -> Option<DateRule>
    ensures value { result ≡ date_rule text.now }
    ensures well { IfSome result IsRule }
{
    match split(text, b'/') {
        Split::One(day) => read_day(day),
        Split::Two(day, hour) => {
            let _ = read_hour(hour, 10)?;
            read_day(day)
        }
        Split::Three(_, _, _) => None,
        Split::More => None,
    }
}

// The second offset, which is one hour further east than the first where it is left out.
fn read_second_offset(first: i32, text: &[u8]) -> Option<i32>
    requires low { neg_ℤ (pos 53940) ≤ℤ first }
    requires high { first ≤ℤ pos 53940 }
    ensures value { result ≡ second_offset first text.now }
    ensures within { IfSome result IsOffset }
{
    match text {
        [] => Some(first + HOUR as i32),
        _ => read_rule_offset(text),
    }
}

// The zone with a second name, its offset, and two dates of change.
fn read_changing(first: i32, text: &[u8], from: &[u8], to: &[u8]) -> Option<Zone>
    requires low { neg_ℤ (pos 53940) ≤ℤ first }
    requires high { first ≤ℤ pos 53940 }
    ensures value { result ≡ changing first text.now from.now to.now }
    ensures well { IfSome result IsZone }
{
    let offset = behind_name(text)?;
    let second = read_second_offset(first, offset)?;
    let from = read_date(from)?;
    let to = read_date(to)?;
    Some(Zone {
        east: first,
        summer: Some(Summer {
            east: second,
            from,
            to,
        }),
    })
}

// How many of the bytes, from the first on, an offset may have.
fn offset_end(text: &[u8]) -> usize
    ensures { result ≡ offset_end text.now }
{
    text.iter()
        .take_while(|b| !(b.is_ascii_alphabetic() || **b == b'<'))
        .count()
}

// The zone of a rule behind its first name.
fn read_behind_name(text: &[u8], from: &[u8], to: &[u8]) -> Option<Zone>
    ensures value { result ≡ changing_behind text.now from.now to.now }
    ensures well { IfSome result IsZone }
{
    let (offset, second) = text.split_at(offset_end(text));
    let first = read_rule_offset(offset)?;
    read_changing(first, second, from, to)
}

// The zone of a name and an offset.
fn read_named(text: &[u8]) -> Option<Zone>
    ensures value { result ≡ option_map fixed_zone (named_offset text.now) }
    ensures well { IfSome result IsZone }
{
    let east = read_rule_offset(behind_name(text)?)?;
    Some(Zone { east, summer: None })
}

// The zone of a rule.
#[tactic(auto, unfolding(crate::specs::Zones::rule_zone))]
fn read_rule_zone(text: &[u8]) -> Option<Zone>
    ensures value { result ≡ rule_zone text.now }
    ensures well { IfSome result IsZone }
{
    match split(text, b',') {
        Split::One(names) => read_named(names),
        Split::Two(_, _) => None,
        Split::Three(names, from, to) => read_behind_name(behind_name(names)?, from, to),
        Split::More => None,
    }
}

/// The zone that the text names: an offset from UTC as `+01:00`, or a rule as
/// `CET-1CEST,M3.5.0,M10.5.0/3`. It is `None` where the text names none.
#[tactic(auto, unfolding(crate::specs::Zones::zone_of))]
pub fn read_zone(text: &[u8]) -> Option<Zone>
    ensures value { result ≡ zone_of text.now }
    ensures well { IfSome result IsZone }
{
    match text {
        [b'+' | b'-', ..] => read_offset_zone(text),
        _ => read_rule_zone(text),
    }
}
