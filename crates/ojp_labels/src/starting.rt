//! The labels of a board to which nothing was told.

ghost use Rattle.std.specs.Prelude.{◌≡◌, true, [], IfOk};
ghost use Rattle.ojp_values.specs.Texts.{home};
ghost use Rattle.ojp_exchange.specs.Book.{serves};
ghost use Rattle.ojp_labels.specs.Boards.{start_at, AreLabels, IsLabel, IsOwnLabel};

use crate::labels::Label;
use crate::targets::has_target;
use ojp_exchange::{Book, Spot};
use ojp_values::{NoMemory, StopRef, TripAsk};
use std::alloc::Global;

// The asked start in seconds, where the stop is the origin.
#[tactic(auto, unfolding(ojp_values::specs::Texts::same))]
fn first_start(ask: &TripAsk, stop: StopRef) -> Option<u64>
    ensures { result ≡ start_at ask.now stop }
{
    if stop == ask.origin {
        Some(ask.start.seconds())
    } else {
        None
    }
}

// The label of the pair of the spot.
fn first_label(book: &Book, ask: &TripAsk, spot: &Spot) -> Label
    requires { serves book.now spot.now.region spot.now.stop ≡ true }
    ensures { IsLabel book.now ask.now [] [] spot.now result }
{
    Label {
        start: first_start(ask, spot.stop),
        told: false,
        failed: false,
        has_target: has_target(book, ask, spot.region, spot.stop),
    }
}

/// The label of each place.
pub fn first_labels(alloc: Global, book: &Book, ask: &TripAsk) -> Result<Vec<Label>, NoMemory>
    ensures { IfOk result (λ labels. AreLabels book.now ask.now [] [] labels.items) }
{
    let mut labels = Vec::new(alloc);
    'places: for place in 0..book.places() {
        let label = first_label(book, ask, &book.spot(place));
        if labels.push(label).is_err() {
            return Err(NoMemory);
        }
    }
    Ok(labels)
}

/// The label of the origin's own pair; one of which nothing is known, where the origin is an exchange point.
pub fn own_label(book: &Book, ask: &TripAsk) -> Label
    ensures { IsOwnLabel book.now ask.now [] result (home ask.now.origin) }
{
    match ask.origin.region() {
        Some(region) => first_label(
            book,
            ask,
            &Spot {
                stop: ask.origin,
                region,
                change: 0,
            },
        ),
        None => Label {
            start: None,
            told: false,
            failed: false,
            has_target: false,
        },
    }
}
