//! What a board keeps of a pair: its least known start, and what was told of it there.

ghost use Rattle.std.specs.Prelude.{◌≡◌, ◌<◌, ◌≤◌, ◌^◌, length};
ghost use Rattle.ojp_records.specs.Wanted.{is_before, can_improve};
ghost use Rattle.ojp_labels.specs.Labels.{open_start, lowered, lowered_by, marked, marked_at, IsWithin};

use ojp_exchange::{Edge, Spot};
use ojp_records::Query;
use ojp_values::{Instant, LAST_SECOND, TripAsk};

/// The requested day: arrivals more than so many seconds after the asked start are ignored.
pub const DAY_LONG: u64 = 86_400;

/// The least known start of a pair in seconds, if one is known; whether the pair was told at this start, and whether
/// it failed there; and whether it has any target.
#[derive(Clone, Copy, Debug)]
pub struct Label {
    pub start: Option<u64>,
    pub told: bool,
    pub failed: bool,
    pub has_target: bool,
}

impl Label {
    // The label after the start became known.
    fn lowered(self, start: u64) -> Label
        ensures { result ≡ lowered self start }
    {
        if is_before(start, self.start) {
            Label {
                start: Some(start),
                told: false,
                failed: false,
                has_target: self.has_target,
            }
        } else {
            self
        }
    }

    /// The label after the pair was told at the start.
    pub fn marked(self, start: u64, failed: bool) -> Label
        ensures { result ≡ marked self start failed }
    {
        if self.start == Some(start) {
            Label {
                start: self.start,
                told: true,
                failed,
                has_target: self.has_target,
            }
        } else {
            self
        }
    }
}

// Whether the start is before the other; before none, every start is.
fn is_before(start: u64, other: Option<u64>) -> bool
    ensures { result ≡ is_before start other }
{
    match other {
        None => true,
        Some(other) => start < other,
    }
}

// Whether the start is before the best arrival; before any is heard, every start is.
fn is_before_best(start: u64, best: Option<Instant>) -> bool
    ensures { result ≡ is_before start best }
{
    match best {
        None => true,
        Some(arrival) => start < arrival.seconds(),
    }
}

/// Whether a start can still lead to a better arrival.
pub fn can_improve(ask: &TripAsk, best: Option<Instant>, start: u64) -> bool
    ensures { result ≡ can_improve ask.now best start }
{
    is_before_best(start, best) && start <= ask.start.seconds() + DAY_LONG && start <= LAST_SECOND
}

/// The start at which the label wants its pair: the least known one, where the pair has a target, was not told at it
/// and it can improve.
pub fn open_start(ask: &TripAsk, best: Option<Instant>, label: &Label) -> Option<Instant>
    ensures { result ≡ open_start ask.now best label.now }
{
    let start = label.start?;
    if !label.has_target || label.told || !can_improve(ask, best, start) {
        return None;
    }
    let Ok(start) = Instant::new(start) else {
        return None;
    };
    Some(start)
}

/// The query of the pair of the spot at the start.
pub fn reach_from(spot: &Spot, start: Instant) -> Query
    ensures { result ≡ Query.Reach spot.now.region spot.now.stop start }
{
    Query::Reach {
        region: spot.region,
        stop: spot.stop,
        start,
    }
}

/// Marks that the pair at the place was told at the start.
pub fn mark(labels: &mut Vec<Label>, place: usize, start: u64, failed: bool)
    requires { place < length labels.old.items }
    ensures { labels.new.items ≡ marked_at labels.old.items place start failed }
{
    let label = labels[place];
    labels[place] = label.marked(start, failed);
}

/// Makes the starts known to which one who arrived at the moment may change.
pub fn arrive(labels: &mut Vec<Label>, edges: &[Edge], moment: u64)
    requires within { IsWithin edges.now (length labels.old.items) }
    requires room { moment ≤ 2 ^ 40 }
    ensures { labels.new.items ≡ lowered_by edges.now moment labels.old.items }
{
    'edges: for edge in edges {
        let label = labels[edge.to];
        labels[edge.to] = label.lowered(moment + u64::from(edge.change));
    }
}
