//! The zone of a zone file's table on the days of a window.

ghost use Rattle.std.specs.Prelude.{◌≡◌, ◌≤◌, IfOk, IfSome, IfNone, All, MatchOption, Contains};
ghost use Rattle.ojp_zones.specs.Noons.{IsRule};
ghost use Rattle.ojp_calendars.specs.Noons.{ClockWithin, Fits, east_at};
ghost use Rattle.ojp_calendars.specs.Texts.{offset_text, rule_text};
ghost use Rattle.ojp_calendars.specs.Rules.{NoChangeFits, NoMadeFits, NoPairFits, NoRuleFits, NoneFits};

use crate::dates::{first_change, window_dates};
use crate::noons::{east_at, fits};
use crate::texts::{offset_text, rule_text};
use crate::window::Window;
use jiff_tz::Tzif;
use ojp_values::{Day, FIRST_DAY, LAST_DAY};
use ojp_zones::zone::DateRule;
use std::alloc::{AllocError, Global};

/// Two offsets, in seconds east of UTC.
#[derive(Clone, Copy)]
struct Offsets {
    east: i32,
    second: i32,
    ghost east_within: { ClockWithin east },
    ghost second_within: { ClockWithin second },
}

/// The rule with these offsets and dates, if it fits.
fn rule_if_fits(
    alloc: Global,
    window: &Window,
    offsets: &Offsets,
    from: &DateRule,
    to: &DateRule,
) -> Result<Option<Vec<u8>>, AllocError>
    requires from { IsRule from.now }
    requires to { IsRule to.now }
    ensures fits { IfOk result (λ found. IfSome found (λ text. Fits window.now.table.now window.now.first window.now.last text.items)) }
    ensures none { IfOk result (λ found. IfNone found (¬ Fits window.now.table.now window.now.first window.now.last (rule_text offsets.now.east offsets.now.second from.now to.now))) }
{
    let text = rule_text(alloc, offsets.east, offsets.second, from, to)?;
    if fits(alloc, window, &text)? {
        Ok(Some(text))
    } else {
        Ok(None)
    }
}

/// The first rule that fits with the second offset from that date on, and before one of the dates.
fn rule_from(
    alloc: Global,
    window: &Window,
    offsets: &Offsets,
    from: &DateRule,
    dates: &[DateRule],
) -> Result<Option<Vec<u8>>, AllocError>
    requires from { IsRule from.now }
    requires dates { All IsRule dates.now }
    ensures fits { IfOk result (λ found. IfSome found (λ text. Fits window.now.table.now window.now.first window.now.last text.items)) }
    ensures none { IfOk result (λ found. IfNone found (NoRuleFits window.now.table.now window.now.first window.now.last offsets.now.east offsets.now.second from.now dates.now)) }
{
    for to in dates {
        match rule_if_fits(alloc, window, offsets, from, to)? {
            Some(text) => return Ok(Some(text)),
            None => {}
        }
    }
    Ok(None)
}

/// The first rule that fits, with two of the dates.
fn rule_of(
    alloc: Global,
    window: &Window,
    offsets: &Offsets,
    dates: &[DateRule],
) -> Result<Option<Vec<u8>>, AllocError>
    requires { All IsRule dates.now }
    ensures fits { IfOk result (λ found. IfSome found (λ text. Fits window.now.table.now window.now.first window.now.last text.items)) }
    ensures none { IfOk result (λ found. IfNone found (NoPairFits window.now.table.now window.now.first window.now.last offsets.now.east offsets.now.second dates.now)) }
{
    for from in dates {
        match rule_from(alloc, window, offsets, from, dates)? {
            Some(text) => return Ok(Some(text)),
            None => {}
        }
    }
    Ok(None)
}

/// The text itself, if it fits.
fn if_fits(alloc: Global, window: &Window, text: &[u8]) -> Result<Option<Vec<u8>>, AllocError>
    ensures fits { IfOk result (λ found. IfSome found (λ given. (given.items ≡ text.now) × Fits window.now.table.now window.now.first window.now.last text.now)) }
    ensures none { IfOk result (λ found. IfNone found (¬ Fits window.now.table.now window.now.first window.now.last text.now)) }
{
    if fits(alloc, window, text)? {
        Ok(Some(Vec::from_slice(alloc, text)?))
    } else {
        Ok(None)
    }
}

/// The offsets about the noons of two days.
fn offsets_of(table: &Tzif, first: u32, change: u32) -> Offsets
    requires from { FIRST_DAY ≤ first }
    requires to { first ≤ LAST_DAY }
    requires change_from { FIRST_DAY ≤ change }
    requires change_to { change ≤ LAST_DAY }
    ensures east { result.east ≡ east_at table.now first }
    ensures second { result.second ≡ east_at table.now change }
{
    Offsets {
        east: east_at(table, first),
        second: east_at(table, change),
    }
}

/// The first rule that fits, of the window's changes and its first day.
fn changing_rule(alloc: Global, window: &Window) -> Result<Option<Vec<u8>>, AllocError>
    requires { window.now.first ≤ LAST_DAY }
    ensures fits { IfOk result (λ found. IfSome found (λ text. Fits window.now.table.now window.now.first window.now.last text.items)) }
    ensures none { IfOk result (λ found. IfNone found (NoChangeFits window.now.table.now window.now.first window.now.last)) }
{
    let Some(change) = first_change(window) else {
        return Ok(None);
    };
    let offsets = offsets_of(window.table, window.first, change);
    let dates = window_dates(alloc, window)?;
    rule_of(alloc, window, &offsets, &dates)
}

/// `+hh:mm`, with the offset about the noon of the first day of the window.
fn first_offset(window: &Window) -> [u8; 6]
    requires { window.now.first ≤ LAST_DAY }
    ensures { result ≡ offset_text (east_at window.now.table.now window.now.first) }
{
    offset_text(east_at(window.table, window.first))
}

/// The first text that fits of those that are made of the table.
fn made_zone(alloc: Global, window: &Window) -> Result<Option<Vec<u8>>, AllocError>
    requires { window.now.first ≤ LAST_DAY }
    ensures fits { IfOk result (λ found. IfSome found (λ text. Fits window.now.table.now window.now.first window.now.last text.items)) }
    ensures none { IfOk result (λ found. IfNone found (NoMadeFits window.now.table.now window.now.first window.now.last)) }
{
    match if_fits(alloc, window, &first_offset(window)) {
        Ok(Some(text)) => Ok(Some(text)),
        Ok(None) => changing_rule(alloc, window),
        Err(failed) => Err(failed),
    }
}

/// The text of a zone whose noons are those of the zone file on each day from the first to the last,
/// or `None` where none of the texts fits that are tried: `line`, which is the file's last; `+hh:mm`
/// with the offset of the first day; and rules with that offset and the first other one, whose dates
/// are those of the days on which the offset changes and of the first day.
pub fn zone_rule(
    alloc: Global,
    table: &Tzif,
    line: &[u8],
    first: Day,
    last: Day,
) -> Result<Option<Vec<u8>>, AllocError>
    ensures zoned { IfOk result (λ found. IfSome found (λ text. Fits table.now first last text.items)) }
    ensures kept { Fits table.now first last line.now → IfOk result (λ found. IfSome found (λ text. text.items ≡ line.now)) }
    ensures none { IfOk result (λ found. IfNone found (NoneFits table.now line.now first last)) }
{
    let window = Window {
        table,
        first: first.number(),
        last: last.number(),
    };
    match if_fits(alloc, &window, line) {
        Ok(Some(text)) => Ok(Some(text)),
        Ok(None) => made_zone(alloc, &window),
        Err(failed) => Err(failed),
    }
}
