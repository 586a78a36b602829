//! Look-ups among exchange points that rise by stop and region. None takes memory.

ghost use Rattle.std.specs.Prelude.{◌≡◌, ◌≢◌, ◌<◌, ◌≤◌, ◌∷◌, [], false, true, Some, length, slice_get, IfSome, MatchBool, MatchOption};
ghost use Rattle.std.specs.Ordering.{is_lt};
ghost use Rattle.ojp_values.specs.Lists.{IsRising};
ghost use Rattle.ojp_values.specs.Texts.{Text, same, text_lt};
ghost use Rattle.ojp_exchange.specs.Kept.{entry_lt, HasNoPoint, IsPointAt, Says, SaysNothing};
ghost use Rattle.ojp_exchange.specs.Places.{IsCodeAt, IsNoCode};
ghost use Rattle.ojp_exchange.specs.Points.{AreParted, HasNeighbour, HasNoNeighbour, IsStretch};

use ojp_values::{Code, Neighbour, Point, StopRef};
use std::cmp::Ordering;

/// Where the point stands to the other, by stop and region.
#[tactic(auto, unfolding(ojp_values::specs::Texts::text_lt, ojp_values::specs::Texts::same))]
pub fn order_of(point: &Point, other: &Point) -> Ordering
    ensures { is_lt result ≡ entry_lt point.now other.now }
{
    match point.stop.cmp(&other.stop) {
        Ordering::Equal => point.region.cmp(&other.region),
        order => order,
    }
}

// Whether the point stands before that of the region at the stop.
#[tactic(auto, unfolding(ojp_values::specs::Texts::text_lt, ojp_values::specs::Texts::same))]
fn is_below(point: &Point, stop: &StopRef, region: &Code) -> bool
    ensures { result ≡ entry_lt point.now (record point.now { stop = stop.now; region = region.now }) }
{
    point.stop < *stop || (point.stop == *stop && point.region < *region)
}

// Whether the point is that of the region at the stop.
fn is_of(point: &Point, stop: &StopRef, region: &Code) -> bool
    ensures { MatchBool result ((point.now.stop ≡ stop.now) × (point.now.region ≡ region.now)) ((point.now.stop ≡ stop.now) × (point.now.region ≡ region.now) → ⊥) }
{
    point.stop == *stop && point.region == *region
}

/// The number of the region's point at the stop.
pub fn place_of(points: &[Point], stop: &StopRef, region: &Code) -> Option<usize>
    requires { IsRising entry_lt points.now }
    ensures { MatchOption result (HasNoPoint points.now stop.now region.now) (IsPointAt points.now stop.now region.now) }
{
    let mut low = 0;
    let mut high = points.len();
    'halves: while low < high {
        let middle = low + (high - low) / 2;
        let point = &points[middle];
        if is_of(point, stop, region) {
            return Some(middle);
        }
        if is_below(point, stop, region) {
            low = middle + 1;
        } else {
            high = middle;
        }
    }
    None
}

// Whether the neighbour has the code.
fn has_code(neighbour: &Neighbour, code: &Code) -> bool
    ensures { MatchBool result (neighbour.now.code ≡ code.now) (neighbour.now.code ≢ code.now) }
{
    neighbour.code == *code
}

/// The time that is declared for the code.
pub fn change_among(neighbours: &[Neighbour], code: &Code) -> Option<u32>
    ensures { MatchOption result (HasNoNeighbour neighbours.now code.now) (HasNeighbour neighbours.now code.now) }
{
    'neighbours: for neighbour in neighbours {
        if has_code(neighbour, code) {
            return Some(neighbour.change);
        }
    }
    None
}

/// The time that the region declares for a change at the stop from the other.
pub fn change_from(points: &[Point], stop: &StopRef, region: &Code, other: &Code) -> Option<u32>
    requires { IsRising entry_lt points.now }
    ensures { MatchOption result (SaysNothing points.now stop.now region.now other.now) (Says points.now stop.now region.now other.now) }
{
    match place_of(points, stop, region) {
        None => None,
        Some(place) => change_among(points[place].neighbours.as_slice(), other),
    }
}

// Whether the point is one of the region.
fn is_in(point: &Point, region: &Code) -> bool
    ensures { MatchBool result (point.now.region ≡ region.now) (point.now.region ≢ region.now) }
{
    point.region == *region
}

// The number of the region's point among those from the one number to before the other.
fn place_within(points: &[Point], from: usize, to: usize, region: &Code) -> Option<usize>
    requires { to ≤ length points.now }
    ensures within { IfSome result (λ place. place < length points.now) }
    ensures found { (stop : Text) → IsStretch points.now stop from to → MatchOption result (HasNoPoint points.now stop region.now) (IsPointAt points.now stop region.now) }
{
    'points: for place in from..to {
        if is_in(&points[place], region) {
            return Some(place);
        }
    }
    None
}

/// The time that the region declares for a change at the stop from the other, where the points there
/// are those from the one number to before the other.
pub fn change_within(
    points: &[Point],
    from: usize,
    to: usize,
    region: &Code,
    other: &Code,
) -> Option<u32>
    requires rise { IsRising entry_lt points.now }
    requires within { to ≤ length points.now }
    ensures { (stop : Text) → IsStretch points.now stop from to → MatchOption result (SaysNothing points.now stop region.now other.now) (Says points.now stop region.now other.now) }
{
    match place_within(points, from, to, region) {
        None => None,
        Some(place) => change_among(points[place].neighbours.as_slice(), other),
    }
}

// Whether the point is at a stop before that one.
#[tactic(auto, unfolding(ojp_values::specs::Texts::text_lt))]
fn is_at_earlier(point: &Point, stop: &StopRef) -> bool
    ensures { result ≡ text_lt point.now.stop stop.now }
{
    point.stop < *stop
}

// Whether the point is at the stop.
#[tactic(auto, unfolding(ojp_values::specs::Texts::same))]
fn is_at(point: &Point, stop: &StopRef) -> bool
    ensures { result ≡ same stop.now point.now.stop }
{
    *stop == point.stop
}

/// How many points are at stops before that one.
pub fn count_before(points: &[Point], stop: &StopRef) -> usize
    requires { IsRising entry_lt points.now }
    ensures { AreParted points.now stop.now result }
{
    let mut low = 0;
    let mut high = points.len();
    'halves: while low < high {
        let middle = low + (high - low) / 2;
        if is_at_earlier(&points[middle], stop) {
            low = middle + 1;
        } else {
            high = middle;
        }
    }
    low
}

/// How many points are at stops before that one and at that one, where so many are at those before.
pub fn count_through(points: &[Point], stop: &StopRef, from: usize) -> usize
    requires rise { IsRising entry_lt points.now }
    requires parted { AreParted points.now stop.now from }
    ensures { IsStretch points.now stop.now from result }
{
    'points: for i in from..points.len() {
        if !is_at(&points[i], stop) {
            return i;
        }
    }
    points.len()
}

// Whether the codes are the same.
fn is_code(code: &Code, other: &Code) -> bool
    ensures { MatchBool result (code.now ≡ other.now) (code.now ≢ other.now) }
{
    *code == *other
}

/// The number of the code among these.
pub fn number_of(codes: &[Code], code: &Code) -> Option<usize>
    ensures { MatchOption result (IsNoCode codes.now code.now) (λ number. IsCodeAt codes.now number code.now) }
{
    'codes: for number in 0..codes.len() {
        let other = &codes[number];
        if is_code(other, code) {
            return Some(number);
        }
    }
    None
}
