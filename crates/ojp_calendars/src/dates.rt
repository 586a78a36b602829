//! The dates of a rule that a window suggests.

ghost use Rattle.std.specs.Prelude.{◌≡◌, ◌≤◌, ◌<◌, ◌↔◌, IsTrue, IfOk, OnOk, All, Contains, MatchOption};
ghost use Rattle.ojp_zones.specs.Noons.{IsRule};
ghost use Rattle.ojp_calendars.specs.Noons.{east_at};
ghost use Rattle.ojp_calendars.specs.Rules.{GrowsBy, HasDates, HasMarks, IsChange, IsFirstChange, IsSteady, nth_date};

use crate::noons::east_at;
use crate::window::Window;
use jiff_tz::Tzif;
use ojp_values::dates::date_of_day;
use ojp_values::{FIRST_DAY, LAST_DAY};
use ojp_zones::zone::DateRule;
use std::alloc::{AllocError, Global};

/// The day as a date of each year: its month, which such weekday of the month it is, and the weekday.
#[tactic(auto, unfolding(crate::specs::Rules::nth_date))]
fn nth_date(day: u32) -> DateRule
    requires { day ≤ LAST_DAY }
    ensures value { result ≡ nth_date day }
    ensures well { IsRule result }
{
    let date = date_of_day(day);
    DateRule {
        month: u32::from(date.month),
        week: (u32::from(date.day) - 1) / 7 + 1,
        weekday: (day + 4) % 7,
    }
}

/// Adds the date, unless it is there.
fn add(dates: &mut Vec<DateRule>, date: DateRule) -> Result<(), AllocError>
    requires well { IsRule date }
    requires all_well { All IsRule dates.old.items }
    ensures kept { OnOk result (GrowsBy dates.old.items dates.new.items) }
    ensures added { OnOk result (Contains dates.new.items date) }
    ensures well { OnOk result (All IsRule dates.new.items) }
{
    if dates.contains(&date) {
        return Ok(());
    }
    dates.push(date)?;
    Ok(())
}

/// Adds the day as a date of each year: that weekday of the month, and the last such weekday of it.
fn add_day(dates: &mut Vec<DateRule>, day: u32) -> Result<(), AllocError>
    requires day { day ≤ LAST_DAY }
    requires all_well { All IsRule dates.old.items }
    ensures kept { OnOk result (GrowsBy dates.old.items dates.new.items) }
    ensures added { OnOk result (HasDates dates.new.items day) }
    ensures well { OnOk result (All IsRule dates.new.items) }
{
    let nth = nth_date(day);
    add(dates, nth)?;
    add(dates, DateRule { week: 5, ..nth })?;
    Ok(())
}

/// Whether one offset holds about the noons of two days.
fn is_same(table: &Tzif, day: u32, other: u32) -> bool
    requires from { FIRST_DAY ≤ day }
    requires to { day ≤ LAST_DAY }
    requires other_from { FIRST_DAY ≤ other }
    requires other_to { other ≤ LAST_DAY }
    ensures { IsTrue result ↔ (east_at table.now day ≡ east_at table.now other) }
{
    east_at(table, day) == east_at(table, other)
}

/// Adds the dates of the day, if another offset holds on it than on the day before.
fn add_change(dates: &mut Vec<DateRule>, table: &Tzif, day: u32) -> Result<(), AllocError>
    requires from { FIRST_DAY < day }
    requires to { day ≤ LAST_DAY }
    requires all_well { All IsRule dates.old.items }
    ensures kept { OnOk result (GrowsBy dates.old.items dates.new.items) }
    ensures added { OnOk result (IsChange table.now day → HasDates dates.new.items day) }
    ensures well { OnOk result (All IsRule dates.new.items) }
{
    if is_same(table, day, day - 1) {
        return Ok(());
    }
    add_day(dates, day)
}

/// The dates of the first day of the window and of each on which another offset holds than before.
pub(crate) fn window_dates(alloc: Global, window: &Window) -> Result<Vec<DateRule>, AllocError>
    ensures well { IfOk result (λ dates. All IsRule dates.items) }
    ensures all { IfOk result (λ dates. HasMarks window.now.table.now window.now.first window.now.last dates.items) }
{
    let mut dates = Vec::new(alloc);
    if window.last < window.first {
        return Ok(dates);
    }
    add_day(&mut dates, window.first)?;
    for day in window.first + 1..window.last + 1 {
        add_change(&mut dates, window.table, day)?;
    }
    Ok(dates)
}

/// The first day of the window on which another offset holds than on its first day.
pub(crate) fn first_change(window: &Window) -> Option<u32>
    requires { window.now.first ≤ LAST_DAY }
    ensures { MatchOption result (IsSteady window.now.table.now window.now.first window.now.last) (IsFirstChange window.now.table.now window.now.first window.now.last) }
{
    for day in window.first + 1..window.last + 1 {
        if !is_same(window.table, day, window.first) {
            return Some(day);
        }
    }
    None
}
