//! The latest day with which a feed keeps the limits of a timetable.

ghost use Rattle.std.specs.Prelude.{◌≡◌};

use ojp_feed::{ConvertRefused, convert};
use ojp_feed_rows::{Feed, Settings, Window};
use ojp_timetable::TableReason;
use std::alloc::Global;

/// Where a limit is passed, a day up to which the feed is converted (`latest_fit`).
pub(crate) fn fit_for(
    alloc: Global,
    refused: ConvertRefused,
    feed: &mut Feed,
    settings: &Settings,
) -> Option<u32>
    ensures stops { feed.new.stops ≡ feed.old.stops }
    ensures trips { feed.new.trips ≡ feed.old.trips }
{
    if is_limit(refused) {
        latest_fit(alloc, feed, settings)
    } else {
        None
    }
}

/// Whether a shorter window may help.
fn is_limit(refused: ConvertRefused) -> bool {
    match refused {
        ConvertRefused::TooManyJourneys => true,
        ConvertRefused::TooManyCalls => true,
        ConvertRefused::Line { reason, .. } => reason == TableReason::Limit,
        _ => false,
    }
}

/// A day, before the last of the window, up to which the feed is converted: the latest, as far as more days never need fewer
/// journeys; none where not even the first day is. The window of the feed is left as that was tried last.
fn latest_fit(alloc: Global, feed: &mut Feed, settings: &Settings) -> Option<u32>
    ensures stops { feed.new.stops ≡ feed.old.stops }
    ensures trips { feed.new.trips ≡ feed.old.trips }
{
    let first = feed.window.first;
    let mut low = first;
    let mut high = feed.window.last;
    let mut fits = None;
    'days: for _ in 0..32u32 {
        if low >= high {
            break;
        }
        let middle = low + (high - low) / 2;
        feed.window = Window {
            first,
            last: middle,
        };
        match convert(alloc, feed, settings) {
            Ok(_) => {
                fits = Some(middle);
                low = middle + 1;
            }
            Err(ConvertRefused::NoMemory) => return None,
            Err(_) => high = middle,
        }
    }
    fits
}
