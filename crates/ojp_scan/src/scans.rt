//! The scan: earliest arrivals from one origin at one start.

ghost use Rattle.std.specs.Prelude.{◌≡◌, ◌<◌, ◌≤◌, ℕ, Some, MatchBool, MatchOption, IfOk, length, reverse, slice_get};
ghost use Rattle.ojp_values.specs.Lists.{Earliest};
ghost use Rattle.ojp_values.specs.Texts.{Text};
ghost use Rattle.ojp_timetable.specs.Tables.{Timetable as Table};
ghost use Rattle.ojp_timetable.specs.Journeys.{ArrivesWithin, Regional, Leads};
ghost use Rattle.ojp_timetable.specs.Answers.{HasNoTrip};
ghost use Rattle.ojp_scan.specs.Hops.{AreHops};
ghost use Rattle.ojp_scan.specs.Networks.{place_number};
ghost use Rattle.ojp_scan.specs.Scans.{hops_of, IsMadeFor, IsScanOf, IsReached};
ghost use Rattle.ojp_scan.specs.Trips.{IsStarted};
ghost use Rattle.ojp_scan.specs.Walks.{IsFirstAt, IsArrivedAt, IsLastLeg};

use crate::days::{day_of, first_day, room_for_days, set_days};
use crate::hops::Hop;
use crate::legs::{LastLeg, leg_of};
use crate::networks::{network_of, numbers_of};
use indexmap::IndexMap;
use ojp_sweep::{Asked, Connection, Days, Sweep};
use ojp_timetable::Timetable;
use ojp_values::{Instant, Leg, List, NoMemory, StopRef};
use std::alloc::Global;

/// A search over the timetable for which it was made. It may be started by `from` any number of times.
#[derive(Drop)]
pub struct Scan {
    numbers: IndexMap<StopRef, u32>,
    first: u64,
    days: Days,
    asked: Asked,
    sweep: Sweep,
}

impl Scan {
    /// A scan for the timetable, not yet started. It takes here all the memory that `from` and `arrival` use.
    pub fn new(alloc: Global, table: &Timetable) -> Result<Scan, NoMemory>
        ensures { IfOk result (λ scan. IsMadeFor scan table.now) }
    {
        table.is_well();
        let numbers = numbers_of(alloc, table)?;
        let days = room_for_days(alloc, table)?;
        let net = network_of(alloc, table)?;
        let Ok(sweep) = Sweep::new(alloc, net) else {
            return Err(NoMemory);
        };
        let asked = Asked {
            origin: 0,
            start: 0,
            in_round: false,
        };
        Ok(Scan {
            numbers,
            first: 0,
            days,
            asked,
            sweep,
        })
    }

    /// The number of hops of the timetable.
    pub fn hops(&self) -> usize
        ensures count { result ≡ length (hops_of self.now) }
        ensures all { (table : Table) → IsMadeFor self.now table → AreHops table (hops_of self.now) }
    {
        self.sweep.net().sorted.as_slice().len()
    }

    /// The hop of that number, by departure, journey and position.
    pub fn hop(&self, i: usize) -> Hop
        requires { i < length (hops_of self.now) }
        ensures { slice_get (hops_of self.now) i ≡ Some result }
    {
        let connection = &self.sweep.net().sorted[i];
        Hop {
            journey: connection.journey as usize,
            position: connection.position as usize,
        }
    }

    /// Finds the earliest arrivals at all stops, for one who leaves the origin not before the start. It
    /// takes no memory.
    pub fn from(&mut self, table: &Timetable, origin: StopRef, start: Instant)
        requires made { IsMadeFor self.old table.now }
        ensures { IsScanOf self.new table.now origin start }
    {
        let start = start.seconds();
        self.first = first_day(start);
        set_days(&mut self.days, table, self.first);
        self.asked = Asked {
            origin: table.place_of(origin).unwrap_or(table.places()),
            start,
            in_round: false,
        };
        self.sweep.from(&self.days, self.asked);
    }

    /// The number of the stop among the places.
    fn place_of(&self, stop: StopRef) -> Option<usize>
        ensures { (table : Table) → IsMadeFor self.now table → result ≡ place_number table stop }
    {
        match self.numbers.get(&stop) {
            Some(number) => Some(*number as usize),
            None => None,
        }
    }

    /// The earliest arrival at the stop within the requested day, by a journey from the origin of the last
    /// `from`; `None` exactly where there is no such journey. It takes no memory.
    pub fn arrival(&self, stop: StopRef) -> Option<Instant>
        ensures { (table : Table) (origin : Text) (start : ℕ) → IsScanOf self.now table origin start → MatchOption result (HasNoTrip table origin start stop) (λ moment. Earliest (ArrivesWithin table origin start stop) moment) }
    {
        let place = self.place_of(stop)?;
        if place == self.asked.origin {
            return None;
        }
        let arrives = self.sweep.arrival(place)?;
        Instant::new(arrives).ok()
    }

    /// The legs of a journey to the stop that arrives at `arrival`.
    pub fn legs(
        &self,
        alloc: Global,
        table: &Timetable,
        stop: StopRef,
    ) -> Result<List<Leg>, NoMemory>
        requires reached { IsReached self.now table.now stop }
        ensures { (origin : Text) (start : ℕ) → IsScanOf self.now table.now origin start → IfOk result (λ legs. (moment : ℕ) × Earliest (ArrivesWithin table.now origin start stop) moment × Regional table.now origin start stop moment legs) }
    {
        let place = self.place_of(stop).unwrap();
        let end = self.sweep.arrival(place).unwrap();
        let mut legs = self.legs_back(alloc, table, stop, place, end)?;
        legs.as_mut_slice().reverse();
        Ok(List::from_items(legs))
    }

    /// The legs to a place that was reached, from the last to the first.
    fn legs_back(
        &self,
        alloc: Global,
        table: &Timetable,
        stop: StopRef,
        place: usize,
        end: u64,
    ) -> Result<Vec<Leg>, NoMemory>
        requires started { IsStarted self.now table.now }
        requires place { place_number table.now stop ≡ Some place }
        requires end { IsFirstAt self.now place end }
        ensures { (origin : Text) (start : ℕ) → IsScanOf self.now table.now origin start → IfOk result (λ legs. Leads table.now origin start (reverse legs.items) stop end) }
    {
        let mut legs = Vec::new(alloc);
        let mut at = place;
        let mut before = end.saturating_add(1);
        'back: loop {
            let last = self.last_leg(table, at);
            if legs.push(last.leg).is_err() {
                return Err(NoMemory);
            }
            at = last.from;
            before = last.leg.departs.seconds();
            if self.is_start(at, before) {
                return Ok(legs);
            }
        }
    }

    /// The last leg of a journey that arrives at the place first.
    fn last_leg(&self, table: &Timetable, place: usize) -> LastLeg
        requires started { IsStarted self.now table.now }
        requires arrived { IsArrivedAt self.now place }
        ensures { IsLastLeg self.now table.now result.leg result.from place }
    {
        let hop = self.sweep.hop(place);
        let first = self.connection(hop.board);
        let last = self.connection(hop.alight);
        let day = day_of(self.first + u64::from(hop.day));
        LastLeg {
            leg: leg_of(table, day, &first, &last),
            from: first.from as usize,
        }
    }

    /// The connection of that number.
    fn connection(&self, number: u32) -> Connection
        requires { number < length self.now.sweep.net.sorted.items }
        ensures { slice_get self.now.sweep.net.sorted.items number ≡ Some result }
    {
        self.sweep.net().sorted[number as usize]
    }

    /// Whether one may leave the place at that moment as it is the origin.
    fn is_start(&self, place: usize, departs: u64) -> bool
        ensures { MatchBool result ((place ≡ self.now.asked.origin) × (self.now.asked.start ≤ departs)) ((place ≡ self.now.asked.origin) × (self.now.asked.start ≤ departs) → ⊥) }
    {
        place == self.asked.origin && self.asked.start <= departs
    }
}
