//! The operating days around a moment.

ghost use Rattle.std.specs.Prelude.{◌≡◌, ◌↔◌, ◌*◌, ◌<◌, ◌≤◌, ◌^◌, length, IsTrue, IfOk};
ghost use Rattle.ojp_values.specs.declared.moments.TheConstants.{FIRST_DAY, LAST_DAY};
ghost use Rattle.ojp_timetable.specs.Runs.{RunsOn, IsWell};
ghost use Rattle.ojp_scan.specs.Days.{CoverWindow, IsBase, AreBases, AreMarks, HasRoomFor, AreDaysFrom};

use ojp_sweep::Days;
use ojp_timetable::Timetable;
use ojp_values::{Day, NoMemory};
use std::alloc::Global;

/// A call is at most so many seconds after the midnight of its operating day in UTC: its offset is that of a
/// day and a half at most, and the noon of a zone at most 57,540 seconds after that of UTC.
const LATEST_CALL: u64 = 129_600 + 57_540;

const DAY_LONG: u64 = 86_400;

/// The number of the first of four days in a row that have every run from the start to a day later.
pub fn first_day(start: u64) -> u64
    ensures window { CoverWindow result start }
    ensures early { 86400 * result ≤ start }
{
    start.saturating_sub(LATEST_CALL - DAY_LONG + 1) / DAY_LONG
}

/// The operating day of that number.
pub fn day_of(number: u64) -> Day
    requires low { FIRST_DAY ≤ number }
    requires high { number ≤ LAST_DAY }
    ensures { result ≡ number }
{
    match Day::new(number as u32) {
        Ok(day) => day,
        Err(_) => unreachable!(),
    }
}

/// Room for four days of the timetable's services.
pub fn room_for_days(alloc: Global, table: &Timetable) -> Result<Days, NoMemory>
    requires { IsWell table.now }
    ensures { IfOk result (λ days. HasRoomFor days table.now) }
{
    let Ok(bases) = Vec::from_elem(alloc, 0, 4) else {
        return Err(NoMemory);
    };
    let Ok(running) = Vec::from_elem(alloc, false, 4 * table.services()) else {
        return Err(NoMemory);
    };
    Ok(Days { bases, running })
}

/// Sets the four days to those from the first on.
pub fn set_days(days: &mut Days, table: &Timetable, first: u64)
    requires well { IsWell table.now }
    requires room { HasRoomFor days.old table.now }
    requires first { first < 2 ^ 31 }
    ensures { AreDaysFrom days.new table.now first }
{
    set_bases(&mut days.bases, table, first);
    set_marks(&mut days.running, table, first);
}

/// Sets the moments at which the days begin.
fn set_bases(bases: &mut Vec<u64>, table: &Timetable, first: u64)
    requires well { IsWell table.now }
    requires room { length bases.old.items ≡ 4 }
    requires first { first < 2 ^ 31 }
    ensures { AreBases bases.new.items table.now first 4 }
{
    'days: for day in 0..4 {
        bases[day] = base_of(table, first + day as u64);
    }
}

/// The moment at which the day begins, and 0 where it is no operating day.
fn base_of(table: &Timetable, day: u64) -> u64
    requires well { IsWell table.now }
    requires day { day < 2 ^ 32 }
    ensures { IsBase table.now day result }
{
    match Day::new(day as u32) {
        Ok(day) => table.moment(day, 0).seconds(),
        Err(_) => 0,
    }
}

/// Marks which services run on the days.
fn set_marks(running: &mut Vec<bool>, table: &Timetable, first: u64)
    requires room { length running.old.items ≡ 4 * length table.now.services }
    requires first { first < 2 ^ 31 }
    ensures { AreMarks running.new.items table.now first (4 * length table.now.services) }
{
    'marks: for index in 0..running.len() {
        running[index] = is_running(table, index / 4, first + (index % 4) as u64);
    }
}

/// Whether the service runs on the day.
fn is_running(table: &Timetable, service: usize, day: u64) -> bool
    requires service { service < length table.now.services }
    requires day { day < 2 ^ 32 }
    ensures { IsTrue result ↔ RunsOn table.now service day }
{
    match Day::new(day as u32) {
        Ok(day) => table.runs_on(service, day),
        Err(_) => false,
    }
}
