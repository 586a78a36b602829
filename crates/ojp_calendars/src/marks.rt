//! Marks of days: what is left of a set while its boxes are found.

ghost use Rattle.std.specs.Prelude.{◌≡◌, ◌≤◌, ◌<◌, ◌+◌, true, false, length};
ghost use Rattle.ojp_calendars.specs.Days.{weekday};
ghost use Rattle.ojp_calendars.specs.Marks.{Clears, KeepsClear, Reaches, marked, on};

use ojp_values::{Day, LAST_DAY};

/// The weekday so many days after the first, where Monday is 0.
fn weekday_at(first: Day, index: usize) -> usize
    requires { index ≤ LAST_DAY }
    ensures value { result ≡ weekday (first + index) }
    ensures within { result < 7 }
{
    (first.number() as usize + index + 3) % 7
}

/// Whether the day so many days after the first is on one of the weekdays.
fn is_on(first: Day, weekdays: &[bool; 7], index: usize) -> bool
    requires { index ≤ LAST_DAY }
    ensures { result ≡ on first weekdays.now index }
{
    weekdays[weekday_at(first, index)]
}

/// The weekdays of a box that begins on the day: its own, and those of the days left among the next six.
pub(crate) fn opened(first: Day, left: &[bool], index: usize) -> [bool; 7]
    requires inside { index < length left.now }
    requires days { length left.now ≤ LAST_DAY }
    ensures { on first result index ≡ true }
{
    let mut weekdays = [false; 7];
    weekdays[weekday_at(first, index)] = true;
    for next in index + 1..left.len().min(index + 7) {
        if left[next] {
            weekdays[weekday_at(first, next)] = true;
        }
    }
    weekdays
}

/// Whether a box ends before a day that is on one of its weekdays or not, and left or not: where it
/// lacks the day, and if it stands alone, where another box would have to have the day.
fn ends(on: bool, left: bool, alone: bool) -> bool
    ensures { result ≡ false → on ≡ true → left ≡ true }
{
    if on { !left } else { alone && left }
}

/// Where a box of these weekdays ends that begins on the day: behind its last day, and before one that
/// it lacks.
pub(crate) fn reach(
    first: Day,
    left: &[bool],
    index: usize,
    weekdays: &[bool; 7],
    alone: bool,
) -> usize
    requires inside { index < length left.now }
    requires left { marked left.now index ≡ true }
    requires days { length left.now ≤ LAST_DAY }
    ensures { Reaches first left.now weekdays.now index result }
{
    for next in index + 1..left.len() {
        let is_left = left[next];
        let is_on = is_on(first, weekdays, next);
        if ends(is_on, is_left, alone) {
            return next;
        }
    }
    left.len()
}

/// Takes the day off those that are left, if it is on one of the weekdays, and gives the last such day.
fn clear_day(
    first: Day,
    left: &mut Vec<bool>,
    weekdays: &[bool; 7],
    next: usize,
    last: usize,
) -> usize
    requires inside { next < length left.old.items }
    requires days { length left.old.items ≤ LAST_DAY }
    ensures { KeepsClear first left.old.items left.new.items weekdays.now next last result }
{
    if is_on(first, weekdays, next) {
        left[next] = false;
        next
    } else {
        last
    }
}

/// Takes the days of a box off those that are left, and gives the last of them.
pub(crate) fn clear(
    first: Day,
    left: &mut Vec<bool>,
    index: usize,
    end: usize,
    weekdays: &[bool; 7],
) -> usize
    requires inside { index < end }
    requires end { end ≤ length left.old.items }
    requires on { on first weekdays.now index ≡ true }
    requires days { length left.old.items ≤ LAST_DAY }
    ensures { Clears first left.old.items left.new.items weekdays.now index end result }
{
    left[index] = false;
    let mut last = index;
    for next in index + 1..end {
        last = clear_day(first, left, weekdays, next, last);
    }
    last
}
