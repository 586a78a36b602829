//! The journeys of a plan.

ghost use Rattle.std.specs.Prelude.{◌≡◌, ◌+◌, ◌*◌, ◌<◌, ◌≤◌, ◌∷◌, ◌++◌, [], Some, None, cond, length, map, nat_lt, option_copied, slice_get, slice_index_or, IfErr, IfOk, OnOk};
ghost use Rattle.std.specs.List.{All, list_any};
ghost use Rattle.std.specs.String.{string_bytes};
ghost use Rattle.ojp_values.specs.Texts.{Text};
ghost use Rattle.ojp_feed_labels.specs.Doubles.{own_labels};
ghost use Rattle.ojp_feed_plans.specs.Adding.{Adds};
ghost use Rattle.ojp_feed_plans.specs.Days.{AreBoxesIn};
ghost use Rattle.ojp_feed_plans.specs.Journeys.{AreAllRuns, IsJourneyOf, IsMade, IsOfPattern, IsOfStart, IsOfTrip, run_of, runs_at, runs_of_start, runs_of_starts};
ghost use Rattle.ojp_feed_plans.specs.Labels.{AreKeys, AreLabelled, is_key, journey_label, labels_of, labels_of_trip, pattern_id, repeats, start_labels, starts_labels, stem, stem_labels, trip_ids};
ghost use Rattle.ojp_feed_plans.specs.Refusals.{AreIdsRefused, AreJourneysRefused, AreLabelsRefused, IsPast, trip_number};
ghost use Rattle.ojp_feed_trips.specs.Starts.{departures};

use crate::memory::put;
use crate::plans::PlannedJourney;
use crate::refusals::PlanRefused;
use crate::trips::{JOURNEYS, boxes_of_trip};
use indexmap::IndexMap;
use ojp_calendars::DayBox;
use ojp_feed_labels::{LabelsRefused, hashed, label_of, own_labels, repeated};
use ojp_feed_rows::{Feed, Route, Trip};
use ojp_feed_trips::{Pattern, starts_of};
use ojp_values::{Label, NoMemory};
use std::alloc::Global;

/// The most calls of a timetable.
pub const CALLS: usize = 100_000;

/// The most bytes of a trip's label, which leaves room for what tells its journeys apart.
const TRIP_LABEL: usize = 21;

/// Journeys, and what is known of them: the trip of each label, and how many calls they have.
#[derive(Drop)]
pub struct Journeys {
    pub journeys: Vec<PlannedJourney>,
    pub calls: usize,
    pub labels: u64,
    trips: IndexMap<Label, usize>,
}

/// The journeys of the patterns, where the services of the feed have these days.
pub fn journeys_of(
    alloc: Global,
    feed: &Feed,
    patterns: &[Pattern],
    boxes: &[Vec<DayBox>],
) -> Result<Journeys, PlanRefused>
    requires { AreBoxesIn feed.now (map (λ boxes. boxes.items) boxes.now) }
    ensures stem { IfOk result (λ made. All (IsJourneyOf feed.now patterns.now) made.journeys.items) }
    ensures all { IfOk result (λ made. AreAllRuns feed.now (map (λ boxes. boxes.items) boxes.now) patterns.now made.journeys.items) }
    ensures labels { IfOk result (λ made. AreLabelled feed.now (map (λ boxes. boxes.items) boxes.now) patterns.now made.journeys.items) }
    ensures refused { IfErr result (AreJourneysRefused feed.now (map (λ boxes. boxes.items) boxes.now) patterns.now) }
{
    let labels = match trip_labels(alloc, feed, patterns) {
        Ok(labels) => labels,
        Err(refused) => return Err(refused),
    };
    let own = labels.as_slice();
    let Ok(trips) = labels_seen(alloc, own) else {
        return Err(PlanRefused::NoMemory);
    };
    let mut made = Journeys {
        journeys: Vec::new(alloc),
        calls: 0,
        labels: 0,
        trips,
    };
    for (number, pattern) in patterns.iter().enumerate() {
        let label = label_at(own, number);
        made.add_pattern(alloc, feed, boxes, pattern, number, label)?;
    }
    match labels_apart(alloc, patterns, made.journeys.as_slice()) {
        Ok(()) => Ok(made),
        Err(refused) => Err(refused),
    }
}

// The label at the place, which each pattern has.
fn label_at(labels: &[Label], number: usize) -> Label
    ensures { (other : Text) → number < length labels.now → result ≡ slice_index_or labels.now number other }
{
    match labels.get(number) {
        Some(label) => *label,
        None => label_of(b"-", 32),
    }
}

// The trip of the pattern.
fn trip_of<'a>(feed: &'a Feed, pattern: &Pattern) -> Option<&'a Trip>
    ensures { option_copied result ≡ slice_get feed.now.trips.items pattern.now.trip }
{
    feed.trips.as_slice().get(pattern.trip)
}

// The labels of the patterns' trips.
fn trip_labels(alloc: Global, feed: &Feed, patterns: &[Pattern]) -> Result<Vec<Label>, PlanRefused>
    ensures each { IfOk result (λ labels. labels.items ≡ own_labels 21 (trip_ids feed.now patterns.now)) }
    ensures refused { IfErr result (AreIdsRefused feed.now patterns.now) }
{
    let Ok(ids) = ids_of(alloc, feed, patterns) else {
        return Err(PlanRefused::NoMemory);
    };
    match own_labels(alloc, ids.as_slice(), TRIP_LABEL) {
        Ok(labels) => Ok(labels.into_items()),
        Err(LabelsRefused::NoMemory) => Err(PlanRefused::NoMemory),
        Err(LabelsRefused::Doubled { first, second }) => Err(PlanRefused::DoubledTrips {
            first: trip_at(patterns, first),
            second: trip_at(patterns, second),
        }),
    }
}

// The ids of the patterns' trips.
fn ids_of<'a>(alloc: Global, feed: &'a Feed, patterns: &[Pattern]) -> Result<Vec<&'a str>, NoMemory>
    ensures { IfOk result (λ ids. map (λ id. id.now) ids.items ≡ trip_ids feed.now patterns.now) }
{
    let mut ids = Vec::new(alloc);
    for pattern in patterns {
        put(&mut ids, id_of(feed, pattern))?;
    }
    Ok(ids)
}

// The id of the pattern's trip.
fn id_of<'a>(feed: &'a Feed, pattern: &Pattern) -> &'a str
    ensures { result.now ≡ pattern_id feed.now pattern.now }
{
    match trip_of(feed, pattern) {
        Some(trip) => trip.id.as_str(),
        None => "",
    }
}

// The trip of the pattern of that number.
fn trip_at(patterns: &[Pattern], number: usize) -> usize
    ensures { result ≡ trip_number patterns.now number }
{
    match patterns.get(number) {
        Some(pattern) => pattern.trip,
        None => number,
    }
}

// Looks for two journeys of one label.
fn labels_apart(
    alloc: Global,
    patterns: &[Pattern],
    journeys: &[PlannedJourney],
) -> Result<(), PlanRefused>
    ensures { IfErr result (AreLabelsRefused patterns.now journeys.now) }
{
    let mut seen: IndexMap<Label, usize> = IndexMap::new(alloc);
    for journey in journeys {
        match seen.insert(journey.label, journey.pattern) {
            Ok(None) => {}
            Ok(Some(first)) => {
                return Err(PlanRefused::DoubledTrips {
                    first: trip_at(patterns, first),
                    second: trip_at(patterns, journey.pattern),
                });
            }
            Err(_) => return Err(PlanRefused::NoMemory),
        }
    }
    Ok(())
}

// The labels, each with its number.
fn labels_seen(alloc: Global, labels: &[Label]) -> Result<IndexMap<Label, usize>, NoMemory>
    ensures { IfOk result (AreKeys labels.now) }
{
    let mut seen = IndexMap::new(alloc);
    for number in 0..labels.len() {
        let label = label_at(labels, number);
        let Ok(_) = seen.insert(label, number) else {
            return Err(NoMemory);
        };
    }
    Ok(seen)
}

// The label of the trip's line, by the short name of its route, else by its id.
fn line_of(feed: &Feed, trip: &Trip) -> Label {
    match trip.route {
        Some(route) => match feed.routes.as_slice().get(route as usize) {
            Some(route) => label_of(line_name(route).as_bytes(), 32),
            None => label_of(b"-", 32),
        },
        None => label_of(b"-", 32),
    }
}

// The short name of the route, else its id.
fn line_name(route: &Route) -> &str {
    if route.short_name.is_empty() {
        route.id.as_str()
    } else {
        route.short_name.as_str()
    }
}

/// What the journeys of a trip have in common: its number among the patterns, its labels, and whether it is repeated.
#[derive(Clone, Copy)]
struct Common {
    number: usize,
    label: Label,
    line: Label,
    is_repeated: bool,
}

impl Common {
    // The label of the journey that departs so, for the box of that number of so many.
    fn label_of(&self, start: u32, place: usize, count: usize) -> Label
        requires { place < count }
        ensures { result ≡ journey_label self.now.is_repeated count self.now.label start place }
    {
        repeated(self.label, self.departure(start), line_of_box(place, count))
    }

    // The departure, where the trip is repeated.
    fn departure(&self, start: u32) -> Option<u32>
        ensures { result ≡ cond self.now.is_repeated (Some start) None }
    {
        if self.is_repeated { Some(start) } else { None }
    }
}

// The number of a box, from 1, where there are several.
fn line_of_box(place: usize, count: usize) -> Option<u64>
    requires { place < count }
    ensures { result ≡ cond (nat_lt 1 count) (Some (place + 1)) None }
{
    if count > 1 {
        Some(place as u64 + 1)
    } else {
        None
    }
}

impl Journeys {
    // Adds the journeys of the pattern of that number.
    fn add_pattern(
        &mut self,
        alloc: Global,
        feed: &Feed,
        boxes: &[Vec<DayBox>],
        pattern: &Pattern,
        number: usize,
        label: Label,
    ) -> Result<(), PlanRefused>
        requires { length self.old.journeys.items ≤ 20000 }
        ensures stem { OnOk result (Adds (IsOfPattern feed.now (map (λ boxes. boxes.items) boxes.now) number pattern.now) self.old.journeys.items self.new.journeys.items) }
        ensures all { OnOk result (map run_of self.new.journeys.items ≡ map run_of self.old.journeys.items ++ runs_at feed.now (map (λ boxes. boxes.items) boxes.now) number pattern.now) }
        ensures labels { OnOk result (labels_of self.new.journeys.items ≡ labels_of self.old.journeys.items ++ labels_of_trip (is_key self.old.trips) (map (λ boxes. boxes.items) boxes.now) label (slice_get feed.now.trips.items pattern.now.trip)) }
        ensures trips { OnOk result (self.new.trips ≡ self.old.trips) }
        ensures calls { OnOk result (self.new.calls ≡ self.old.calls + length (runs_at feed.now (map (λ boxes. boxes.items) boxes.now) number pattern.now) * length pattern.now.halts.items) }
        ensures few { OnOk result (length self.new.journeys.items ≤ 20000) }
        ensures past { IfErr result (IsPast (length self.old.journeys.items + length (runs_at feed.now (map (λ boxes. boxes.items) boxes.now) number pattern.now)) (self.old.calls + length (runs_at feed.now (map (λ boxes. boxes.items) boxes.now) number pattern.now) * length pattern.now.halts.items)) }
    {
        let Some(trip) = trip_of(feed, pattern) else {
            return Ok(());
        };
        let common = Common {
            number,
            label,
            line: line_of(feed, trip),
            is_repeated: !trip.frequencies.is_empty(),
        };
        let days = boxes_of_trip(trip, boxes);
        self.add_trip(alloc, trip, common, pattern.halts.len(), days)
    }

    // Adds the journeys of a trip: one for each of its departures and boxes.
    fn add_trip(
        &mut self,
        alloc: Global,
        trip: &Trip,
        common: Common,
        calls: usize,
        days: &[DayBox],
    ) -> Result<(), PlanRefused>
        requires few { length self.old.journeys.items ≤ 20000 }
        requires repeated { common.is_repeated ≡ repeats trip.now }
        ensures stem { OnOk result (Adds (IsOfTrip trip.now common.number days.now) self.old.journeys.items self.new.journeys.items) }
        ensures all { OnOk result (map run_of self.new.journeys.items ≡ map run_of self.old.journeys.items ++ runs_of_starts common.number days.now (departures trip.now)) }
        ensures labels { OnOk result (labels_of self.new.journeys.items ≡ labels_of self.old.journeys.items ++ stem_labels (is_key self.old.trips) (string_bytes trip.now.id) (repeats trip.now) (length days.now) common.label (departures trip.now)) }
        ensures trips { OnOk result (self.new.trips ≡ self.old.trips) }
        ensures calls { OnOk result (self.new.calls ≡ self.old.calls + length (runs_of_starts common.number days.now (departures trip.now)) * calls) }
        ensures few { OnOk result (length self.new.journeys.items ≤ 20000) }
        ensures past { IfErr result (IsPast (length self.old.journeys.items + length (runs_of_starts common.number days.now (departures trip.now))) (self.old.calls + length (runs_of_starts common.number days.now (departures trip.now)) * calls)) }
    {
        let Ok(starts) = starts_of(alloc, trip, JOURNEYS) else {
            return Err(PlanRefused::NoMemory);
        };
        let named = self.apart(trip, common, starts.as_slice(), days.len());
        if named.label.text() != trip.id.as_bytes() {
            self.labels = self.labels.saturating_add(1);
        }
        for start in starts.as_slice() {
            self.add_days(named, *start, calls, days)?;
        }
        Ok(())
    }

    // The same in the hashed form, where a label of its journeys would be that of another trip.
    fn apart(&self, trip: &Trip, common: Common, starts: &[u32], count: usize) -> Common
        ensures number { result.number ≡ common.number }
        ensures repeated { result.is_repeated ≡ common.is_repeated }
        ensures label { result.label ≡ stem (is_key self.now.trips) (string_bytes trip.now.id) common.is_repeated count common.label starts.now }
    {
        if (common.is_repeated || count > 1) && self.are_taken(&common, starts, count) {
            let label = hashed(trip.id.as_bytes(), TRIP_LABEL);
            Common { label, ..common }
        } else {
            common
        }
    }

    // Whether a label of the journeys that depart so is that of a trip.
    fn are_taken(&self, common: &Common, starts: &[u32], count: usize) -> bool
        ensures { result ≡ list_any (is_key self.now.trips) (starts_labels common.now.is_repeated count common.now.label starts.now) }
    {
        let mut found = false;
        for start in starts {
            found |= self.is_taken(common, *start, count);
        }
        found
    }

    // The same of a departure.
    fn is_taken(&self, common: &Common, start: u32, count: usize) -> bool
        ensures { result ≡ list_any (is_key self.now.trips) (start_labels common.now.is_repeated count common.now.label start) }
    {
        let mut found = false;
        for place in 0..count {
            let label = common.label_of(start, place, count);
            found |= self.trips.contains_key(&label);
        }
        found
    }

    // Adds the journeys of a departure.
    fn add_days(
        &mut self,
        common: Common,
        start: u32,
        calls: usize,
        days: &[DayBox],
    ) -> Result<(), PlanRefused>
        requires { length self.old.journeys.items ≤ 20000 }
        ensures stem { OnOk result (Adds (IsOfStart common.number start days.now) self.old.journeys.items self.new.journeys.items) }
        ensures all { OnOk result (map run_of self.new.journeys.items ≡ map run_of self.old.journeys.items ++ runs_of_start common.number days.now start) }
        ensures labels { OnOk result (labels_of self.new.journeys.items ≡ labels_of self.old.journeys.items ++ start_labels common.is_repeated (length days.now) common.label start) }
        ensures trips { OnOk result (self.new.trips ≡ self.old.trips) }
        ensures calls { OnOk result (self.new.calls ≡ self.old.calls + length days.now * calls) }
        ensures few { OnOk result (length self.new.journeys.items ≤ 20000) }
        ensures past { IfErr result (IsPast (length self.old.journeys.items + length days.now) (self.old.calls + length days.now * calls)) }
    {
        for (place, found) in days.iter().enumerate() {
            let label = common.label_of(start, place, days.len());
            self.add(common, label, start, calls, *found)?;
        }
        Ok(())
    }

    // Adds a journey.
    fn add(
        &mut self,
        common: Common,
        label: Label,
        start: u32,
        calls: usize,
        days: DayBox,
    ) -> Result<(), PlanRefused>
        ensures stem { OnOk result (Adds (IsMade common.number start days) self.old.journeys.items self.new.journeys.items) }
        ensures all { OnOk result (map run_of self.new.journeys.items ≡ map run_of self.old.journeys.items ++ record { pattern = common.number; start = start; days = days } ∷ []) }
        ensures labels { OnOk result (labels_of self.new.journeys.items ≡ labels_of self.old.journeys.items ++ label ∷ []) }
        ensures trips { OnOk result (self.new.trips ≡ self.old.trips) }
        ensures calls { OnOk result (self.new.calls ≡ self.old.calls + calls) }
        ensures few { OnOk result (length self.new.journeys.items ≤ 20000) }
        ensures past { IfErr result (IsPast (length self.old.journeys.items + 1) (self.old.calls + calls)) }
    {
        if self.journeys.len() >= JOURNEYS {
            return Err(PlanRefused::TooManyJourneys);
        }
        let calls = self.calls.saturating_add(calls);
        if calls > CALLS {
            return Err(PlanRefused::TooManyCalls);
        }
        self.calls = calls;
        let journey = PlannedJourney {
            label,
            line: common.line,
            days,
            pattern: common.number,
            start,
        };
        match put(&mut self.journeys, journey) {
            Ok(()) => Ok(()),
            Err(NoMemory) => Err(PlanRefused::NoMemory),
        }
    }
}
