//! The days of each service of a feed, as boxes.

ghost use Rattle.std.specs.Prelude.{◌≡◌, map, IfOk};
ghost use Rattle.ojp_feed_plans.specs.Days.{AreBoxes, AreBoxesIn, boxes_at};

use crate::days::days_of;
use crate::memory::put;
use ojp_calendars::{DayBox, boxes};
use ojp_feed_rows::{Feed, Service, Window};
use ojp_values::{Day, NoMemory};
use std::alloc::Global;

/// Of each service of the feed its days in the window, as boxes.
pub fn boxes_of(alloc: Global, feed: &Feed) -> Result<Vec<Vec<DayBox>>, NoMemory>
    ensures { IfOk result (λ all. AreBoxesIn feed.now (map (λ boxes. boxes.items) all.items)) }
{
    let mut all = Vec::new(alloc);
    for service in feed.services.as_slice() {
        put(&mut all, boxes_in(alloc, service, feed.window)?)?;
    }
    Ok(all)
}

// The days of the service in the window; none where it is no window.
fn boxes_in(alloc: Global, service: &Service, window: Window) -> Result<Vec<DayBox>, NoMemory>
    ensures { IfOk result (λ boxes. AreBoxes service.now window boxes.items) }
{
    let Ok(first) = Day::new(window.first.max(2)) else {
        return Ok(Vec::new(alloc));
    };
    let days = days_of(alloc, service, first.number(), window.last.min(84_002))?;
    match boxes(alloc, first, days.as_slice()) {
        Ok(found) => Ok(found),
        Err(_) => Err(NoMemory),
    }
}

/// The boxes of the service of that number, and none where there is no such service.
pub fn boxes_at(all: &[Vec<DayBox>], service: usize) -> &[DayBox]
    ensures { result.now ≡ boxes_at (map (λ boxes. boxes.items) all.now) service }
{
    match all.get(service) {
        Some(found) => found.as_slice(),
        None => &[],
    }
}
