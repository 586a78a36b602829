//! The days of a service.

ghost use Rattle.std.specs.Prelude.{◌≡◌, ◌≤◌, ◌<◌, ◌+◌, ◌%◌, ℕ, false, length, slice_index_or, IfOk};
ghost use Rattle.ojp_feed_plans.specs.Days.{AreDays, excepted, runs_weekly};

use crate::memory::put;
use ojp_feed_rows::{Exception, Service, Weekly};
use ojp_values::NoMemory;
use std::alloc::Global;

/// For each day from the one to the other, whether the service runs on it.
pub fn days_of(
    alloc: Global,
    service: &Service,
    first: u32,
    last: u32,
) -> Result<Vec<bool>, NoMemory>
    requires { last ≤ 84002 }
    ensures { IfOk result (λ days. AreDays service.now first last days.items) }
{
    let mut days = Vec::new(alloc);
    for day in first..last + 1 {
        put(&mut days, runs_weekly(&service.weekly, day))?;
    }
    for exception in service.exceptions.as_slice() {
        except(&mut days, first, exception);
    }
    Ok(days)
}

// Whether the row of `calendar.txt` has the day.
fn runs_weekly(weekly: &Option<Weekly>, day: u32) -> bool
    ensures { result ≡ runs_weekly weekly.now day }
{
    match weekly {
        Some(weekly) => { weekly.first <= day && day <= weekly.last && weekly.marks[weekday(day)] }
        None => false,
    }
}

// The weekday, 0 for Monday; day 0 is Thursday 1970-01-01.
fn weekday(day: u32) -> usize
    ensures value { result ≡ (day + 3) % 7 }
    ensures small { result < 7 }
{
    (day as usize + 3) % 7
}

// Has the exception hold, where it is of a day from the first on.
fn except(days: &mut Vec<bool>, first: u32, exception: &Exception)
    ensures long { length days.new.items ≡ length days.old.items }
    ensures each { (k : ℕ) → k < length days.old.items → slice_index_or days.new.items k false ≡ excepted (first + k) (slice_index_or days.old.items k false) exception.now }
{
    if exception.day < first {
        return;
    }
    let place = (exception.day - first) as usize;
    if place < days.len() {
        days[place] = exception.runs;
    }
}
