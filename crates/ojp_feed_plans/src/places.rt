//! The places of a plan.

ghost use Rattle.std.specs.Prelude.{◌≡◌, List, map, slice_get, slice_index_or, IfErr, IfOk};
ghost use Rattle.ojp_feed_plans.specs.Labels.{stop_id, stop_ids};
ghost use Rattle.ojp_feed_plans.specs.Refusals.{ArePlacesRefused};
ghost use Rattle.ojp_feed_plans.specs.Served.{served_stops};
ghost use Rattle.ojp_feed_trips.specs.declared.weighing.Pattern.{Pattern};

use crate::changes::{Changes, changes_of};
use crate::memory::{is_marked, put};
use crate::plans::PlannedPlace;
use crate::refusals::PlanRefused;
use crate::served::{Served, served_below, served_by, unserved};
use crate::stations::Places;
use ojp_feed_labels::{LabelsRefused, name_of, own_labels};
use ojp_feed_rows::{Exchange, Feed, Settings};
use ojp_feed_trips::Pattern;
use ojp_values::{Code, Label, NoMemory, StopRef};
use std::alloc::Global;

/// The places of a plan; by the number of a place of the feed that of the plan; and what was counted.
#[derive(Drop)]
pub struct Placing {
    pub places: Vec<PlannedPlace>,
    pub numbers: Vec<usize>,
    pub labels: u64,
    pub names: u64,
    pub unserved: u64,
    pub held: u64,
    pub between: u64,
}

/// The places that the patterns of the feed serve.
pub fn placed_of(
    alloc: Global,
    feed: &Feed,
    settings: &Settings,
    places: &Places,
    patterns: &[Pattern],
) -> Result<Placing, PlanRefused>
    ensures { IfErr result (ArePlacesRefused feed.now patterns.now) }
{
    let stops = feed.stops.len();
    let count = stops.saturating_add(places.points.len());
    let Ok(served) = served_by(alloc, feed, patterns, places.of_stop.as_slice(), count) else {
        return Err(PlanRefused::NoMemory);
    };
    let Ok(changes) = changes_of(alloc, feed, places, count) else {
        return Err(PlanRefused::NoMemory);
    };
    let Ok(own) = served_below(alloc, &served, stops) else {
        return Err(PlanRefused::NoMemory);
    };
    let Ok(numbers) = numbers_of(alloc, &served, stops, places.points.len()) else {
        return Err(PlanRefused::NoMemory);
    };
    let mut placing = Placing {
        places: Vec::new(alloc),
        numbers,
        labels: 0,
        names: 0,
        unserved: unserved(feed, &served),
        held: changes.held,
        between: changes.between,
    };
    let labels = match stop_labels(alloc, feed, own.as_slice()) {
        Ok(labels) => labels,
        Err(refused) => return Err(refused),
    };
    let Ok(()) = placing.add_stops(
        alloc,
        feed,
        settings,
        own.as_slice(),
        labels.as_slice(),
        &served,
        &changes,
    ) else {
        return Err(PlanRefused::NoMemory);
    };
    let Ok(()) = placing.add_points(alloc, feed, places.points.as_slice()) else {
        return Err(PlanRefused::NoMemory);
    };
    Ok(placing)
}

// By the number of a place of the feed, the number of the place of the plan: the served stops, then the exchange points.
fn numbers_of(
    alloc: Global,
    served: &Served,
    stops: usize,
    points: usize,
) -> Result<Vec<usize>, NoMemory> {
    let mut numbers = Vec::new(alloc);
    let mut next: usize = 0;
    for place in 0..stops.saturating_add(points) {
        put(&mut numbers, next)?;
        if place >= stops || is_marked(served.places.as_slice(), place) {
            next = next.saturating_add(1);
        }
    }
    Ok(numbers)
}

impl Placing {
    // Adds the own stops of these numbers.
    fn add_stops(
        &mut self,
        alloc: Global,
        feed: &Feed,
        settings: &Settings,
        numbers: &[usize],
        labels: &[Label],
        served: &Served,
        changes: &Changes,
    ) -> Result<(), NoMemory> {
        for (label, number) in labels.iter().zip(numbers) {
            let change = changes.at(*number, served.several.as_slice(), settings);
            self.add_own(alloc, feed, settings.code, *number, *label, change)?;
        }
        Ok(())
    }

    // Adds the exchange points.
    fn add_points(
        &mut self,
        alloc: Global,
        feed: &Feed,
        points: &[Exchange],
    ) -> Result<(), NoMemory> {
        for point in points {
            self.add_point(alloc, feed, point)?;
        }
        Ok(())
    }

    // Adds an own stop.
    fn add_own(
        &mut self,
        alloc: Global,
        feed: &Feed,
        code: Code,
        number: usize,
        label: Label,
        change: u32,
    ) -> Result<(), NoMemory> {
        let Some(row) = feed.stops.as_slice().get(number) else {
            return Ok(());
        };
        let Some(stop) = own_stop(alloc, code, label)? else {
            return Ok(());
        };
        if label.text() != row.id.as_bytes() {
            self.labels = self.labels.saturating_add(1);
        }
        self.add(alloc, stop, change, row.name.as_str(), label)
    }

    // Adds an exchange point.
    fn add_point(&mut self, alloc: Global, feed: &Feed, point: &Exchange) -> Result<(), NoMemory> {
        let Some(label) = local_part(&point.point) else {
            return Ok(());
        };
        let name = match feed.stops.as_slice().get(point.stop as usize) {
            Some(row) => row.name.as_str(),
            None => "",
        };
        self.add(alloc, point.point, point.change, name, label)
    }

    // Adds a place, whose name is the label where it has none.
    fn add(
        &mut self,
        alloc: Global,
        stop: StopRef,
        change: u32,
        name: &str,
        label: Label,
    ) -> Result<(), NoMemory> {
        let Ok((name, is_changed)) = name_of(alloc, name, label) else {
            return Err(NoMemory);
        };
        if is_changed {
            self.names = self.names.saturating_add(1);
        }
        put(&mut self.places, PlannedPlace { stop, change, name })
    }
}

// The labels of the stops of these numbers.
fn stop_labels(alloc: Global, feed: &Feed, numbers: &[usize]) -> Result<Vec<Label>, PlanRefused>
    ensures { (patterns : List Pattern) → numbers.now ≡ served_stops feed.now patterns → IfErr result (ArePlacesRefused feed.now patterns) }
{
    let Ok(ids) = ids_of(alloc, feed, numbers) else {
        return Err(PlanRefused::NoMemory);
    };
    match own_labels(alloc, ids.as_slice(), 32) {
        Ok(labels) => Ok(labels.into_items()),
        Err(LabelsRefused::NoMemory) => Err(PlanRefused::NoMemory),
        Err(LabelsRefused::Doubled { first, second }) => Err(PlanRefused::DoubledStops {
            first: number_at(numbers, first),
            second: number_at(numbers, second),
        }),
    }
}

// The ids of the stops of these numbers.
fn ids_of<'a>(alloc: Global, feed: &'a Feed, numbers: &[usize]) -> Result<Vec<&'a str>, NoMemory>
    ensures { IfOk result (λ ids. map (λ id. id.now) ids.items ≡ stop_ids feed.now numbers.now) }
{
    let mut ids = Vec::new(alloc);
    for number in numbers {
        put(&mut ids, id_of(feed, *number))?;
    }
    Ok(ids)
}

// The id of the stop of that number.
fn id_of(feed: &Feed, number: usize) -> &str
    ensures { result.now ≡ stop_id (slice_get feed.now.stops.items number) }
{
    match feed.stops.as_slice().get(number) {
        Some(row) => row.id.as_str(),
        None => "",
    }
}

/// The number at the place, and the place where there is none.
pub fn number_at(numbers: &[usize], place: usize) -> usize
    ensures { result ≡ slice_index_or numbers.now place place }
{
    match numbers.get(place) {
        Some(number) => *number,
        None => place,
    }
}

// The region's own stop of that label.
fn own_stop(alloc: Global, code: Code, label: Label) -> Result<Option<StopRef>, NoMemory> {
    let mut text = Vec::new(alloc);
    for part in [code.text(), b":".as_slice(), label.text()] {
        if text.extend_from_slice(part).is_err() {
            return Err(NoMemory);
        }
    }
    Ok(StopRef::from_bytes(text.as_slice()))
}

// What stands behind the colon of a reference.
fn local_part(stop: &StopRef) -> Option<Label> {
    match stop.text() {
        [b'x', b':', local @ ..] => Label::from_bytes(local),
        _ => None,
    }
}
