//! The moments of the noons of the operating days.
ghost use Rattle.std.specs.Prelude.{◌≡◌, ◌≤◌, ◌<◌, ◌+◌, ◌*◌, ◌&&◌, pos, neg_ℤ, ◌-◌, ◌-ℤ◌, ◌≤ℤ◌, IfOk, length, slice_index};
ghost use Rattle.ojp_values.specs.Dates.{operating_days};
ghost use Rattle.ojp_zones.specs.Days.{day_number};
ghost use Rattle.ojp_zones.specs.declared.zone.Zone.{Zone as ZoneValue};
ghost use Rattle.ojp_zones.specs.Noons.{AreAllYears, AreNear, AreNoons, HoldsDay, IsOffset, IsYear, IsZone, east_by, east_on, is_second};

use crate::calendar::{change_day, month_start};
use crate::year::{Season, Year};
use crate::zone::Zone;
use ojp_values::{FIRST_DAY, LAST_DAY};
use std::alloc::{AllocError, Global};
use std::marker::Model;

// The moment of the noon at an offset.
fn noon(day: u32, east: i32) -> u64
    requires day { FIRST_DAY ≤ day }
    requires east { IsOffset east }
    ensures { pos result ≡ pos (86400 * day + 43200) -ℤ east }
{
    (86_400 * i64::from(day) + 43_200 - i64::from(east)) as u64
}

// Whether the second offset holds on the day, where the changes are on the days `from` and `to`.
fn is_second(from: u32, to: u32, day: u32) -> bool
    ensures { result ≡ is_second from to day }
{
    (from <= day && day < to) || (to < from && (day < to || from <= day))
}

// The year of that number in the zone.
fn year_in(zone: &Zone, number: u16) -> Year
    requires zone { IsZone zone.now }
    requires from { 1970 ≤ number }
    requires to { number < 2200 }
    ensures is { IsYear zone.now result }
    ensures number { result.number ≡ number }
{
    let season = match &zone.summer {
        None => None,
        Some(summer) => Some(Season {
            east: summer.east,
            from: change_day(number, &summer.from),
            to: change_day(number, &summer.to),
        }),
    };
    Year {
        number,
        next: month_start(number + 1, 1),
        season,
    }
}

// The noon of a day of the year.
fn noon_in(zone: &Zone, year: &Year, day: u32) -> u64
    requires zone { IsZone zone.now }
    requires year { IsYear zone.now year.now }
    requires day { FIRST_DAY ≤ day }
    ensures { pos result ≡ pos (86400 * day + 43200) -ℤ east_on zone.now year.now.number day }
{
    match &year.season {
        None => noon(day, zone.east),
        Some(season) => {
            if is_second(season.from, season.to, day) {
                noon(day, season.east)
            } else {
                noon(day, zone.east)
            }
        }
    }
}

// The years from 1970 to 2199 in the zone.
fn years(alloc: Global, zone: &Zone) -> Result<Vec<Year>, AllocError>
    requires { IsZone zone.now }
    ensures { IfOk result (λ years. AreAllYears zone.now years.items) }
{
    let mut years = Vec::with_capacity(alloc, 230)?;
    for number in 1970..2200 {
        years.push(year_in(zone, number))?;
    }
    Ok(years)
}

// The number of the year in which the day lies.
fn year_with(years: &[Year], day: u32) -> usize
    requires { day ≤ LAST_DAY }
    ensures { (zone : ZoneValue) → AreAllYears zone years.now → HoldsDay zone years.now day result }
{
    years.partition_point(|year| year.next <= day)
}

/// The noons of the operating days in a zone. They are seen as the list of their moments, from the
/// first day on, in seconds since 1970-01-01T00:00:00Z, and kept by the years of the zone.
#[derive(Drop)]
pub struct Noons {
    zone: Zone,
    years: Vec<Year>,
}

impl Model for Noons {
    ghost use Rattle.std.specs.Prelude.{ℕ, List};
    ghost use Rattle.ojp_zones.specs.Noons.{AreAllYears, noons_of};

    ghost Value = { List ℕ };

    ghost view = { λ n. noons_of n.zone };

    ghost invariant = { λ n. AreAllYears n.zone n.years.items };
}

impl Noons {
    /// The noons in the zone.
    pub fn new(alloc: Global, zone: &Zone) -> Result<Noons, AllocError>
        requires { IsZone zone.now }
        ensures noons { IfOk result (AreNoons zone.now) }
        ensures days { IfOk result (λ noons. length noons ≡ operating_days) }
        ensures near { IfOk result AreNear }
    {
        let years = years(alloc, zone)?;
        Ok(Noons { zone: *zone, years })
    }

    /// The moment of the noon of the day; takes no memory.
    pub fn at(&self, day: u32) -> u64
        requires from { FIRST_DAY ≤ day }
        requires to { day ≤ LAST_DAY }
        ensures { result ≡ slice_index self.now (day - FIRST_DAY) }
    {
        let years = self.years.as_slice();
        noon_in(&self.zone, &years[year_with(years, day)], day)
    }
}
