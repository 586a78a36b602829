//! Days of the calendar as numbers, where 1970-01-01 is day 0.
ghost use Rattle.std.specs.Prelude.{◌≡◌, ◌≤◌, ◌<◌, ◌+◌};
ghost use Rattle.ojp_zones.specs.Days.{day_number, next_month};
ghost use Rattle.ojp_zones.specs.Noons.{IsRule, change_day, first_on, nth_of};

use crate::zone::DateRule;
use jiff_core::civil::Date;

// The number of -9999-01-01 is this much below 0.
const DAYS_BEFORE: u32 = 4_371_587;

/// The number of the first day of a month, in a year from 1970 to 2200.
pub fn month_start(year: u16, month: u32) -> u32
    requires from { 1970 ≤ year }
    requires to { year ≤ 2200 }
    requires month_from { 1 ≤ month }
    requires month_to { month ≤ 12 }
    ensures value { result ≡ day_number year month 1 }
    ensures within { result < 100_000 }
{
    match Date::new(year as i16, month as i8, 1) {
        Ok(date) => date.days_since_min() - DAYS_BEFORE,
        Err(_) => unreachable!(),
    }
}

// The first day of that weekday from the day on, where 0 is Sunday.
fn first_on(weekday: u32, day: u32) -> u32
    requires weekday { weekday ≤ 6 }
    requires day { day < 100_000 }
    ensures value { result ≡ first_on weekday day }
    ensures within { result < 100_007 }
{
    day + (weekday + 7 - (day + 4) % 7) % 7
}

/// The first day of the month after.
pub fn next_month(year: u16, month: u32) -> u32
    requires from { 1970 ≤ year }
    requires to { year < 2200 }
    requires month_from { 1 ≤ month }
    requires month_to { month ≤ 12 }
    ensures value { result ≡ next_month year month }
    ensures within { result < 100_000 }
{
    if month == 12 {
        month_start(year + 1, 1)
    } else {
        month_start(year, month + 1)
    }
}

// Of the weekdays from `start` on the one of that week, and for week 5 the last before `next`.
fn nth_of(week: u32, start: u32, next: u32) -> u32
    requires week_from { 1 ≤ week }
    requires week_to { week ≤ 5 }
    requires start { start < 200_000 }
    ensures { result ≡ nth_of week start next }
{
    if week < 5 {
        start + 7 * (week - 1)
    } else if start + 28 < next {
        start + 28
    } else {
        start + 21
    }
}

/// The day of a rule in a year from 1970 to 2199.
#[tactic(auto, unfolding(crate::specs::Noons::change_day))]
pub fn change_day(year: u16, rule: &DateRule) -> u32
    requires from { 1970 ≤ year }
    requires to { year < 2200 }
    requires rule { IsRule rule.now }
    ensures { result ≡ change_day year rule.now }
{
    let start = first_on(rule.weekday, month_start(year, rule.month));
    nth_of(rule.week, start, next_month(year, rule.month))
}
