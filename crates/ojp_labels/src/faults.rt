//! How a search ends.

ghost use Rattle.std.specs.Prelude.{◌≡◌, Some};
ghost use Rattle.ojp_values.specs.Texts.{home};
ghost use Rattle.ojp_records.specs.Ends.{fault_by, lesser_text};
ghost use Rattle.ojp_labels.specs.Labels.{failed_by};
ghost use Rattle.ojp_labels.specs.Boards.{failed_code, lesser_code};

use crate::labels::{Label, can_improve};
use ojp_exchange::Spot;
use ojp_records::PlaceState;
use ojp_values::{Code, Fault, Instant, StopRef, TripAsk};

/// The first fault that applies; `None` where there is none and a best arrival.
pub fn fault_by(
    ask: &TripAsk,
    origin: PlaceState,
    target: PlaceState,
    check: Option<Code>,
    pair: Option<Code>,
    best: Option<Instant>,
) -> Option<Fault>
    ensures { result ≡ fault_by ask.now.origin ask.now.target origin target check pair best }
{
    if origin == PlaceState::Unknown {
        return Some(Fault::StopUnknown(ask.origin));
    }
    if target == PlaceState::Unknown {
        return Some(Fault::StopUnknown(ask.target));
    }
    match (check, pair, best) {
        (Some(region), _, _) => Some(Fault::RegionFailed(region)),
        (None, Some(region), _) => Some(Fault::RegionFailed(region)),
        (None, None, Some(_)) => None,
        (None, None, None) => Some(Fault::NoTrip(ask.target)),
    }
}

// The lesser of the two codes.
#[tactic(auto, unfolding(ojp_values::specs::Texts::text_lt))]
fn lesser(code: Code, other: Code) -> Code
    ensures { result ≡ lesser_text code (Some other) }
{
    if other < code { other } else { code }
}

/// The lesser of the codes, or the one that there is.
pub fn lesser_code(left: Option<Code>, right: Option<Code>) -> Option<Code>
    ensures { result ≡ lesser_code left right }
{
    match (left, right) {
        (None, other) => other,
        (Some(code), None) => Some(code),
        (Some(code), Some(other)) => Some(lesser(code, other)),
    }
}

/// The region of the stop, where its check failed.
pub fn failed_code(state: PlaceState, stop: StopRef) -> Option<Code>
    ensures { result ≡ failed_code state (home stop) }
{
    if state == PlaceState::CheckFailed {
        stop.region()
    } else {
        None
    }
}

/// The region of the spot, where a failure of its pair stands.
pub fn failed_by(ask: &TripAsk, best: Option<Instant>, spot: &Spot, label: &Label) -> Option<Code>
    ensures { result ≡ failed_by ask.now best spot.now label.now }
{
    let start = label.start?;
    if label.has_target && label.failed && can_improve(ask, best, start) {
        Some(spot.region)
    } else {
        None
    }
}
