//! A set of operating days as boxes.

ghost use Rattle.std.specs.Prelude.{◌≡◌, ◌<◌, ◌≤◌, ◌+◌, ◌⊎◌, IfOk, OnOk, All, length};
ghost use Rattle.ojp_calendars.specs.Days.{AreExact, IsTight};
ghost use Rattle.ojp_calendars.specs.Marks.{AreBoxes, KeepsSwept};

use crate::day_box::DayBox;
use crate::marks::{clear, opened, reach};
use ojp_values::{Day, LAST_DAY};
use std::alloc::{AllocError, Global};

/// The day so many days after the first.
fn day_at(first: Day, index: usize) -> Day
    requires { first + index ≤ LAST_DAY }
    ensures { result ≡ first + index }
{
    match Day::new(first.number() + index as u32) {
        Ok(day) => day,
        Err(_) => unreachable!(),
    }
}

/// Where the day is left, opens a box on it and takes the days of the box off those that are left.
fn step(
    first: Day,
    left: &mut Vec<bool>,
    boxes: &mut Vec<DayBox>,
    index: usize,
    alone: bool,
) -> Result<(), AllocError>
    requires inside { index < length left.old.items }
    requires days { first + length left.old.items ≤ LAST_DAY + 1 }
    ensures { OnOk result (KeepsSwept first left.old.items left.new.items boxes.old.items boxes.new.items index) }
{
    if !left[index] {
        return Ok(());
    }
    let weekdays = opened(first, left, index);
    let end = reach(first, left, index, &weekdays, alone);
    let last = clear(first, left, index, end, &weekdays);
    boxes.push(DayBox {
        first: day_at(first, index),
        last: day_at(first, last),
        weekdays,
    })?;
    Ok(())
}

/// The boxes that are opened day by day, each with the weekdays that it has on its first seven days.
/// A box ends before the first day that it lacks; one that stands alone, also before the first day
/// that is in the set and not under it.
fn sweep(alloc: Global, first: Day, marks: &[bool], alone: bool) -> Result<Vec<DayBox>, AllocError>
    requires { first + length marks.now ≤ LAST_DAY + 1 }
    ensures { IfOk result (λ boxes. AreBoxes first marks.now boxes.items) }
{
    let mut left = Vec::from_slice(alloc, marks)?;
    let mut boxes = Vec::new(alloc);
    for index in 0..marks.len() {
        step(first, &mut left, &mut boxes, index, alone)?;
    }
    Ok(boxes)
}

/// Those of the boxes that are fewer.
fn fewer(together: Vec<DayBox>, alone: Vec<DayBox>) -> Vec<DayBox>
    ensures either { (result.items ≡ together.items) ⊎ (result.items ≡ alone.items) }
    ensures not_more { (length result.items ≤ length together.items) × (length result.items ≤ length alone.items) }
{
    if alone.len() < together.len() {
        alone
    } else {
        together
    }
}

/// The set of days as disjoint boxes, each of which begins and ends with days of the set, where mark
/// `i` tells whether the set has the day `i` days after the first.
///
/// A day that is under no box opens one, with its own weekday and each other whose next day is in the
/// set and under no box, and the box ends before its first missing day. Then one box at a time is
/// tried, cut where a weekday contradicts itself, and what has fewer boxes is taken.
pub fn boxes(alloc: Global, first: Day, marks: &[bool]) -> Result<Vec<DayBox>, AllocError>
    requires { first + length marks.now ≤ LAST_DAY + 1 }
    ensures exact { IfOk result (λ boxes. AreExact first marks.now boxes.items) }
    ensures tight { IfOk result (λ boxes. All IsTight boxes.items) }
{
    let together = sweep(alloc, first, marks, false)?;
    let alone = sweep(alloc, first, marks, true)?;
    Ok(fewer(together, alone))
}
