//! The place of each stop: its station, or the exchange point that the operator has there.

use crate::memory::put;
use indexmap::IndexMap;
use ojp_feed_rows::{Exchange, Feed, Stop};
use ojp_values::{NoMemory, StopRef};
use std::alloc::Global;

/// The places of a feed, by number: the stops of the feed by theirs, and behind them the exchange points in the order of
/// their first lines.
#[derive(Drop)]
pub struct Places {
    /// Of each stop the number of its place.
    pub of_stop: Vec<usize>,
    /// The first line of each exchange point, with the greatest change of its lines.
    pub points: Vec<Exchange>,
}

/// The places of the feed.
pub fn places_of(alloc: Global, feed: &Feed) -> Result<Places, NoMemory> {
    let stops = feed.stops.as_slice();
    let mut stations = Vec::new(alloc);
    for number in 0..stops.len() {
        put(&mut stations, station_of(stops, number))?;
    }
    let points = points_of(alloc, feed.operator.exchanges.as_slice())?;
    let at = points_at(alloc, feed, stations.as_slice(), &points)?;
    let mut of_stop = Vec::new(alloc);
    for station in stations.as_slice() {
        put(&mut of_stop, place_of(at.as_slice(), *station))?;
    }
    Ok(Places {
        of_stop,
        points: points.lines,
    })
}

// The place at the station.
fn place_of(at: &[usize], station: usize) -> usize {
    match at.get(station) {
        Some(place) => *place,
        None => station,
    }
}

/// The station of a stop: a boarding area stands at a platform, and that at a station.
pub fn station_of(stops: &[Stop], number: usize) -> usize {
    parent_of(stops, parent_of(stops, number))
}

// The stop that a stop is part of, and itself where it is part of none.
fn parent_of(stops: &[Stop], number: usize) -> usize {
    match stops.get(number) {
        Some(stop) => match stop.parent {
            Some(parent) => parent as usize,
            None => number,
        },
        None => number,
    }
}

/// The exchange points, each with its number, in the order of their first lines.
#[derive(Drop)]
struct Points {
    numbers: IndexMap<StopRef, usize>,
    /// The first line of each, with the greatest change of its lines.
    lines: Vec<Exchange>,
}

// The exchange points of the operator's lines.
fn points_of(alloc: Global, lines: &[Exchange]) -> Result<Points, NoMemory> {
    let mut points = Points {
        numbers: IndexMap::new(alloc),
        lines: Vec::new(alloc),
    };
    for line in lines {
        points.add(line)?;
    }
    Ok(points)
}

impl Points {
    // Adds a line.
    fn add(&mut self, line: &Exchange) -> Result<(), NoMemory> {
        if let Some(number) = self.number_of(&line.point) {
            raise(&mut self.lines, number, line.change);
            return Ok(());
        }
        let next = self.lines.len();
        match self.numbers.insert(line.point, next) {
            Ok(_) => put(&mut self.lines, *line),
            Err(_) => Err(NoMemory),
        }
    }

    // The number of the exchange point.
    fn number_of(&self, point: &StopRef) -> Option<usize> {
        match self.numbers.get(point) {
            Some(number) => Some(*number),
            None => None,
        }
    }
}

// Raises the change of a point to at least so much.
fn raise(lines: &mut Vec<Exchange>, number: usize, change: u32) {
    if number < lines.len() {
        let mut line = lines[number];
        line.change = line.change.max(change);
        lines[number] = line;
    }
}

// Of each stop the number of the place that stands at it, were it a station.
fn points_at(
    alloc: Global,
    feed: &Feed,
    stations: &[usize],
    points: &Points,
) -> Result<Vec<usize>, NoMemory> {
    let mut at = Vec::new(alloc);
    for number in 0..stations.len() {
        put(&mut at, number)?;
    }
    for line in feed.operator.exchanges.as_slice() {
        if let Some(point) = points.number_of(&line.point) {
            put_at(&mut at, place_of(stations, line.stop as usize), point);
        }
    }
    Ok(at)
}

// Has the exchange point stand at the station.
fn put_at(at: &mut Vec<usize>, station: usize, point: usize) {
    let stops = at.len();
    if station < stops {
        at[station] = stops.saturating_add(point);
    }
}
