//! A feed and its settings while lines are added.

use ojp_feed_rows::{Feed, Operator, Passed, Settings, Window};
use ojp_values::Code;
use std::alloc::Global;

/// A feed and its settings.
#[derive(Drop)]
pub(crate) struct Draft {
    pub feed: Feed,
    pub settings: Settings,
}

/// Nothing passed over.
const NOTHING: Passed = Passed {
    unknown_parents: 0,
    stray_stop_times: 0,
    stray_frequencies: 0,
    untimed_transfers: 0,
    special_transfers: 0,
    typed_transfers: 0,
    chained_trips: 0,
    continuous_rows: 0,
};

/// A feed without rows, for region AA in UTC, on the first day there is.
pub(crate) fn empty(alloc: Global) -> Option<Draft> {
    let settings = Settings {
        code: Code::from_bytes(b"AA")?,
        zone: String::from_str(alloc, "+00:00").ok()?,
        change: 60,
        station_change: 180,
        as_open: false,
    };
    let feed = Feed {
        zone_name: String::new(alloc),
        stops: Vec::new(alloc),
        routes: Vec::new(alloc),
        services: Vec::new(alloc),
        trips: Vec::new(alloc),
        transfers: Vec::new(alloc),
        operator: Operator {
            exchanges: Vec::new(alloc),
            neighbours: Vec::new(alloc),
            changes: Vec::new(alloc),
        },
        window: Window { first: 2, last: 2 },
        passed: NOTHING,
    };
    Some(Draft { feed, settings })
}
