//! The noons of a zone file's table.

ghost use Rattle.std.specs.Prelude.{◌≡◌, ◌≤◌, ◌<◌, ◌+◌, ◌*◌, ◌↔◌, pos, ◌≤ℤ◌, neg_ℤ, IsTrue, IfOk, slice_index, length};
ghost use Rattle.ojp_values.specs.Dates.{operating_days};
ghost use Rattle.ojp_zones.specs.Noons.{AreNear};
ghost use Rattle.ojp_calendars.specs.Noons.{ClockWithin, Fits, HaveNoons, ShowsNoon, clock_at, east_at};

use crate::window::Window;
use jiff_core::Timestamp;
use jiff_tz::Tzif;
use ojp_values::{FIRST_DAY, LAST_DAY};
use ojp_zones::noons::Noons;
use ojp_zones::zone_text::read_zone;
use std::alloc::{AllocError, Global};

/// The seconds that the clock is ahead of UTC at a moment.
#[tactic(auto, unfolding(crate::specs::Noons::clock_at))]
pub(crate) fn clock_at(table: &Tzif, second: i64) -> i32
    requires from { neg_ℤ (pos 100_000) ≤ℤ second }
    requires to { second ≤ℤ pos 7_300_000_000 }
    ensures value { result ≡ clock_at table.now second }
    ensures within { ClockWithin result }
{
    let moment = Timestamp {
        nanosecond: i128::from(second) * 1_000_000_000,
    };
    table.to_offset(moment).seconds
}

/// The seconds that the clock is ahead of UTC about the noon of the day.
#[tactic(auto, unfolding(crate::specs::Noons::east_at))]
pub(crate) fn east_at(table: &Tzif, day: u32) -> i32
    requires from { FIRST_DAY ≤ day }
    requires to { day ≤ LAST_DAY }
    ensures value { result ≡ east_at table.now day }
    ensures within { ClockWithin result }
{
    let noon = 86_400 * i64::from(day) + 43_200;
    let near = clock_at(table, noon);
    clock_at(table, noon - i64::from(near))
}

/// Whether the clock shows noon of the day at the moment.
fn shows_noon(table: &Tzif, day: u32, moment: u64) -> bool
    requires day { day ≤ LAST_DAY }
    requires moment { moment ≤ 7_300_000_000 }
    ensures { IsTrue result ↔ ShowsNoon table.now day moment }
{
    let east = i64::from(clock_at(table, moment as i64));
    moment as i64 + east == 86_400 * i64::from(day) + 43_200
}

/// Whether the clock shows noon at each of these noons in the window.
fn have_noons(window: &Window, noons: &Noons) -> bool
    requires days { length noons.now ≡ operating_days }
    requires near { AreNear noons.now }
    ensures { IsTrue result ↔ HaveNoons window.now.table.now window.now.first window.now.last noons.now }
{
    for day in window.first..window.last + 1 {
        if !shows_noon(window.table, day, noons.at(day)) {
            return false;
        }
    }
    true
}

/// Whether the text names a zone whose noons in the window are those of the table.
pub(crate) fn fits(alloc: Global, window: &Window, text: &[u8]) -> Result<bool, AllocError>
    ensures { IfOk result (λ fits. IsTrue fits ↔ Fits window.now.table.now window.now.first window.now.last text.now) }
{
    match read_zone(text) {
        None => Ok(false),
        Some(zone) => {
            let noons = Noons::new(alloc, &zone)?;
            Ok(have_noons(window, &noons))
        }
    }
}
