//! The targets of a pair.

ghost use Rattle.std.specs.Prelude.{◌≡◌, IfOk};
ghost use Rattle.ojp_records.specs.Pairs.{ends_towards};
ghost use Rattle.ojp_labels.specs.Boards.{has_any};
ghost use Rattle.ojp_labels.specs.Hearing.{way_stops};

use crate::hearing::is_away;
use ojp_exchange::Book;
use ojp_values::{Code, List, NoMemory, StopRef, TripAsk};
use std::alloc::Global;

/// Whether the pair has any target. At most two of the region's places lead to none: those at the stop and at the
/// requested target.
pub fn has_target(book: &Book, ask: &TripAsk, region: Code, stop: StopRef) -> bool
    ensures { result ≡ has_any (ends_towards book.now ask.now.target stop region) }
{
    'ways: for &way in book.ways(region) {
        if is_away(ask, stop, &book.spot(way)) {
            return true;
        }
    }
    book.serves(region, ask.target)
}

// The exchange points by which the region leads on, but for the stop and the requested target.
fn way_stops(
    alloc: Global,
    book: &Book,
    ask: &TripAsk,
    region: Code,
    stop: StopRef,
) -> Result<Vec<StopRef>, NoMemory>
    ensures { IfOk result (λ stops. stops.items ≡ way_stops book.now ask.now stop region) }
{
    let mut stops = Vec::new(alloc);
    'ways: for &way in book.ways(region) {
        let spot = book.spot(way);
        if is_away(ask, stop, &spot) {
            if stops.push(spot.stop).is_err() {
                return Err(NoMemory);
            }
        }
    }
    Ok(stops)
}

/// The targets of the pair: the region's exchange points that lead on, rising, and then the requested target.
pub fn targets_of(
    alloc: Global,
    book: &Book,
    ask: &TripAsk,
    region: Code,
    stop: StopRef,
) -> Result<List<StopRef>, NoMemory>
    ensures { IfOk result (λ targets. targets ≡ ends_towards book.now ask.now.target stop region) }
{
    let mut stops = way_stops(alloc, book, ask, region, stop)?;
    if book.serves(region, ask.target) {
        if stops.push(ask.target).is_err() {
            return Err(NoMemory);
        }
    }
    Ok(List::from_items(stops))
}
