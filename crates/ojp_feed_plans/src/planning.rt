//! The plan of a feed.

ghost use Rattle.std.specs.Prelude.{◌≡◌, IfErr, IfOk};
ghost use Rattle.std.specs.List.{All};
ghost use Rattle.ojp_feed_plans.specs.Journeys.{AreComplete, IsJourneyOf};
ghost use Rattle.ojp_feed_plans.specs.Plans.{AreWeighed, IsPlanOf};
ghost use Rattle.ojp_feed_plans.specs.Refusals.{IsPlanRefused};

use crate::boxes::boxes_of;
use crate::counting::counts_of;
use crate::journeys::{Journeys, journeys_of};
use crate::memory::put;
use crate::places::{Placing, placed_of};
use crate::plans::{Plan, PlannedJourney};
use crate::refusals::PlanRefused;
use crate::stations::{Places, places_of};
use crate::trips::{Weighing, weigh_all};
use indexmap::IndexMap;
use ojp_calendars::{DayBox, label};
use ojp_feed_rows::{Feed, NeighbourOf, Settings};
use ojp_values::{Label, NoMemory};
use std::alloc::Global;

/// What a timetable of the feed declares.
pub fn plan(alloc: Global, feed: &Feed, settings: &Settings) -> Result<Plan, PlanRefused>
    ensures of { IfOk result (IsPlanOf feed.now) }
    ensures refused { IfErr result (IsPlanRefused feed.now) }
{
    let Ok(places) = places_of(alloc, feed) else {
        return Err(PlanRefused::NoMemory);
    };
    let Ok(boxes) = boxes_of(alloc, feed) else {
        return Err(PlanRefused::NoMemory);
    };
    let of_stop = places.of_stop.as_slice();
    let days = boxes.as_slice();
    let Ok(weighing) = weigh_all(alloc, feed, days, of_stop, settings.as_open) else {
        return Err(PlanRefused::NoMemory);
    };
    let patterns = weighing.patterns.as_slice();
    let made = match journeys_of(alloc, feed, patterns, days) {
        Ok(made) => made,
        Err(refused) => return Err(refused),
    };
    let placed = match placed_of(alloc, feed, settings, &places, patterns) {
        Ok(placed) => placed,
        Err(refused) => return Err(refused),
    };
    let Ok(services) = services_of(alloc, made.journeys.as_slice()) else {
        return Err(PlanRefused::NoMemory);
    };
    let Ok(neighbours) = Vec::from_slice(alloc, feed.operator.neighbours.as_slice()) else {
        return Err(PlanRefused::NoMemory);
    };
    Ok(joined(feed, places, weighing, made, placed, services, neighbours))
}

// The plan of its parts.
fn joined(
    feed: &Feed,
    places: Places,
    weighing: Weighing,
    made: Journeys,
    placed: Placing,
    services: Vec<DayBox>,
    neighbours: Vec<NeighbourOf>,
) -> Plan
    requires weighed { AreWeighed feed.now places.of_stop.items weighing.fates.items weighing.patterns.items }
    requires made { All (IsJourneyOf feed.now weighing.patterns.items) made.journeys.items }
    requires complete { AreComplete feed.now weighing.patterns.items made.journeys.items }
    ensures { IsPlanOf feed.now result }
{
    let counts = counts_of(feed, &weighing, &made, &placed);
    Plan {
        places: placed.places,
        neighbours,
        services,
        patterns: weighing.patterns,
        of_stop: places.of_stop,
        numbers: placed.numbers,
        journeys: made.journeys,
        fates: weighing.fates,
        counts,
    }
}

// The days of the journeys, each once, in their order.
fn services_of(alloc: Global, journeys: &[PlannedJourney]) -> Result<Vec<DayBox>, NoMemory> {
    let mut seen: IndexMap<Label, DayBox> = IndexMap::new(alloc);
    let mut services = Vec::new(alloc);
    for journey in journeys {
        match seen.insert(label(&journey.days), journey.days) {
            Ok(None) => put(&mut services, journey.days)?,
            Ok(Some(_)) => {}
            Err(_) => return Err(NoMemory),
        }
    }
    Ok(services)
}
