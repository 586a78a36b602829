//! A plan of a timetable.

use crate::counts::Counts;
use ojp_calendars::DayBox;
use ojp_feed_rows::NeighbourOf;
use ojp_feed_trips::{Fate, Pattern};
use ojp_values::{Label, Name, StopRef};

/// A stop or an exchange point: its reference, the seconds of a change and its name.
#[derive(Clone, Copy, Debug, PartialEq, Eq)]
pub struct PlannedPlace {
    pub stop: StopRef,
    pub change: u32,
    pub name: Name,
}

/// A journey: the pattern of that number, whose first row departs at the start, on the days of the box.
#[derive(Clone, Copy, Debug, PartialEq, Eq)]
pub struct PlannedJourney {
    pub label: Label,
    pub line: Label,
    pub days: DayBox,
    pub pattern: usize,
    pub start: u32,
}

/// What a timetable of a feed declares.
#[derive(Debug, Drop)]
pub struct Plan {
    /// The stops that are served, in the order of the feed, and behind them the exchange points.
    pub places: Vec<PlannedPlace>,
    pub neighbours: Vec<NeighbourOf>,
    /// The days of the services, which are named by them.
    pub services: Vec<DayBox>,
    /// The trips that are written, in the order of the feed.
    pub patterns: Vec<Pattern>,
    /// Of each stop of the feed the number of its place in the feed, as halts have it.
    pub of_stop: Vec<usize>,
    /// Of each place of the feed the number of its place here.
    pub numbers: Vec<usize>,
    pub journeys: Vec<PlannedJourney>,
    /// What becomes of each trip.
    pub fates: Vec<Fate>,
    /// What the report counts.
    pub counts: Counts,
}
