//! The times of changes at the places.

use crate::memory::{is_marked, set, unset, value};
use crate::stations::Places;
use ojp_feed_rows::{Feed, Settings, Transfer};
use ojp_values::NoMemory;
use std::alloc::Global;

/// What the operator and the feed say of changes, by place; and how much of it was held to the limits or left out.
#[derive(Drop)]
pub struct Changes {
    asked: Vec<Option<u32>>,
    own: Vec<Option<u32>>,
    greatest: Vec<Option<u32>>,
    pub held: u64,
    pub between: u64,
}

/// What is said of changes at so many places.
pub fn changes_of(
    alloc: Global,
    feed: &Feed,
    places: &Places,
    count: usize,
) -> Result<Changes, NoMemory> {
    let mut changes = Changes {
        asked: unset(alloc, count)?,
        own: unset(alloc, count)?,
        greatest: unset(alloc, count)?,
        held: 0,
        between: 0,
    };
    for line in &feed.operator.changes {
        if let Some(place) = places.of_stop.as_slice().get(line.stop as usize) {
            set(&mut changes.asked, *place, line.change);
        }
    }
    for row in &feed.transfers {
        changes.note(row, places.of_stop.as_slice());
    }
    Ok(changes)
}

impl Changes {
    // Notes a row of `transfers.txt`.
    fn note(&mut self, row: &Transfer, of_stop: &[usize]) {
        let from = of_stop.get(row.from as usize);
        let to = of_stop.get(row.to as usize);
        let (Some(from), Some(to)) = (from, to) else {
            return;
        };
        if from != to {
            self.between = self.between.saturating_add(1);
            return;
        }
        let seconds = row.seconds.clamp(1, 7_200);
        if seconds != row.seconds {
            self.held = self.held.saturating_add(1);
        }
        let place = *from;
        if row.from == row.to && row.from as usize == place {
            set(&mut self.own, place, seconds);
        } else {
            let before = value(self.greatest.as_slice(), place).unwrap_or(0);
            set(&mut self.greatest, place, before.max(seconds));
        }
    }

    /// The seconds of a change at the place: the operator's, else the station's own, else the greatest within it, else those of
    /// the settings.
    pub fn at(&self, place: usize, several: &[bool], settings: &Settings) -> u32 {
        let asked = value(self.asked.as_slice(), place);
        let own = value(self.own.as_slice(), place);
        let greatest = value(self.greatest.as_slice(), place);
        match asked.or(own).or(greatest) {
            Some(seconds) => seconds,
            None => {
                if is_marked(several, place) {
                    settings.station_change
                } else {
                    settings.change
                }
            }
        }
    }
}
