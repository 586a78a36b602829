//! The counts of a plan.

ghost use Rattle.std.specs.Prelude.{◌≡◌};
ghost use Rattle.ojp_feed_plans.specs.Tallies.{tally_of};

use crate::counts::{Counts, tally_of};
use crate::journeys::Journeys;
use crate::places::Placing;
use crate::trips::Weighing;
use ojp_feed_rows::Feed;
use ojp_feed_trips::{Changed, Pattern, inexact};

/// The counts of a plan.
pub fn counts_of(feed: &Feed, weighing: &Weighing, made: &Journeys, placed: &Placing) -> Counts
    ensures { result.tally ≡ tally_of weighing.now.fates.items }
{
    let changed = changed_of(weighing.patterns.as_slice());
    Counts {
        tally: tally_of(weighing.fates.as_slice()),
        journeys: made.journeys.len() as u64,
        calls: made.calls as u64,
        unserved_stops: placed.unserved,
        spread: changed.spread,
        joined: changed.joined,
        dropped: changed.dropped,
        opened: changed.opened,
        on_demand: changed.on_demand,
        inexact: inexact_of(feed, weighing.patterns.as_slice()),
        labels: made.labels.saturating_add(placed.labels),
        names: placed.names,
        held: placed.held,
        between: placed.between,
    }
}

// What was changed of all patterns.
fn changed_of(patterns: &[Pattern]) -> Changed {
    let mut all = Changed {
        spread: 0,
        joined: 0,
        dropped: 0,
        opened: 0,
        on_demand: 0,
    };
    for pattern in patterns {
        all = sum(&all, &pattern.changed);
    }
    all
}

// Both together.
fn sum(one: &Changed, other: &Changed) -> Changed {
    Changed {
        spread: one.spread.saturating_add(other.spread),
        joined: one.joined.saturating_add(other.joined),
        dropped: one.dropped.saturating_add(other.dropped),
        opened: one.opened.saturating_add(other.opened),
        on_demand: one.on_demand.saturating_add(other.on_demand),
    }
}

// The rows of `frequencies.txt` of these trips that are not exact.
fn inexact_of(feed: &Feed, patterns: &[Pattern]) -> u64 {
    let mut count: u64 = 0;
    for pattern in patterns {
        if let Some(trip) = feed.trips.as_slice().get(pattern.trip) {
            count = count.saturating_add(inexact(trip));
        }
    }
    count
}
