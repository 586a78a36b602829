//! The limits of a book, and whether its regions agree.

ghost use Rattle.std.specs.Prelude.{◌≡◌, ◌≢◌, ◌<◌, None, Some, length, map, IsTrue, MatchBool, MatchOption};
ghost use Rattle.std.specs.List.{list_any};
ghost use Rattle.ojp_values.specs.Lists.{Among, Each, IsRising};
ghost use Rattle.ojp_values.specs.Texts.{same};
ghost use Rattle.ojp_values.specs.declared.trips.Point.{Point as PointValue};
ghost use Rattle.ojp_exchange.specs.Kept.{entry_lt, spot_of, stops_of};
ghost use Rattle.ojp_exchange.specs.Joins.{first_twice};
ghost use Rattle.ojp_exchange.specs.Disputes.{AllReturn, IsFirstLacking, IsFirstPoint, IsLacking, IsLastThere, Returns};
ghost use Rattle.ojp_exchange.specs.Points.{IsStretch};

use crate::places::{change_within, count_before, count_through};
use ojp_values::{Code, Neighbour, Point, StopRef};

/// The first code that stands twice in a row.
pub fn first_twice(codes: &[Code]) -> Option<Code>
    ensures { result ≡ first_twice codes.now }
{
    'codes: for i in 1..codes.len() {
        if is_same(&codes[i - 1], &codes[i]) {
            return Some(codes[i]);
        }
    }
    None
}

// Whether the codes are the same.
#[tactic(auto, unfolding(ojp_values::specs::Texts::same))]
fn is_same(code: &Code, other: &Code) -> bool
    ensures { result ≡ same code.now other.now }
{
    *code == *other
}

/// How many stops the rising points have.
pub fn stops_in(points: &[Point]) -> usize
    ensures { result ≡ length (stops_of (map spot_of points.now)) }
{
    let mut count = 0;
    'points: for i in 0..points.len() {
        if is_last(points, i) {
            count += 1;
        }
    }
    count
}

// Whether the point of that number is the last of those at its stop.
fn is_last(points: &[Point], i: usize) -> bool
    requires { i < length points.now }
    ensures { IsLastThere points.now i result }
{
    if i + 1 == points.len() {
        return true;
    }
    !is_at_stop_of(&points[i], &points[i + 1])
}

// Whether the points are at one stop.
#[tactic(auto, unfolding(ojp_values::specs::Texts::same))]
fn is_at_stop_of(point: &Point, other: &Point) -> bool
    ensures { result ≡ same point.now.stop other.now.stop }
{
    point.stop == other.stop
}

// Whether the code is among these.
#[tactic(auto, unfolding(ojp_values::specs::Texts::same))]
pub fn has_code(codes: &[Code], code: &Code) -> bool
    ensures { result ≡ list_any (same code.now) codes.now }
{
    codes.iter().any(|other| *code == *other)
}

// Whether the neighbour is one of the regions, and does not declare the point's region there, where
// the points at its stop are those from the one number to before the other.
fn lacks(
    codes: &[Code],
    points: &[Point],
    from: usize,
    to: usize,
    point: &Point,
    neighbour: &Neighbour,
) -> bool
    requires rise { IsRising entry_lt points.now }
    requires stretch { IsStretch points.now point.now.stop from to }
    ensures { MatchBool result (IsLacking codes.now points.now point.now neighbour.now) (Returns codes.now points.now point.now neighbour.now) }
{
    match change_within(points, from, to, &neighbour.code, &point.region) {
        Some(_) => false,
        None => has_code(codes, &neighbour.code),
    }
}

// The first neighbour of the point that lacks its return, where the points at its stop are those
// from the one number to before the other.
fn first_lacking(
    codes: &[Code],
    points: &[Point],
    from: usize,
    to: usize,
    point: &Point,
) -> Option<Code>
    requires rise { IsRising entry_lt points.now }
    requires stretch { IsStretch points.now point.now.stop from to }
    ensures { MatchOption result (AllReturn codes.now points.now point.now) (IsFirstLacking codes.now points.now point.now) }
{
    let neighbours = point.neighbours.as_slice();
    'neighbours: for neighbour in neighbours {
        if lacks(codes, points, from, to, point, neighbour) {
            return Some(neighbour.code);
        }
    }
    None
}

/// A region that declares another at a point, which does not declare it there.
#[derive(Clone, Copy, Debug, PartialEq, Eq)]
pub struct Dispute {
    pub point: StopRef,
    pub left: Code,
    pub right: Code,
}

/// The first such, by point and codes.
pub fn first_dispute(codes: &[Code], points: &[Point]) -> Option<Dispute>
    requires { IsRising entry_lt points.now }
    ensures { MatchOption result ((point : PointValue) → Among point points.now → AllReturn codes.now points.now point) (λ found. IsFirstPoint codes.now points.now found.point found.left found.right) }
{
    let mut from = 0;
    let mut to = 0;
    'places: for place in 0..points.len() {
        let point = &points[place];
        if place == to {
            from = count_before(points, &point.stop);
            to = count_through(points, &point.stop, from);
        }
        if let Some(right) = first_lacking(codes, points, from, to, point) {
            return Some(Dispute {
                point: point.stop,
                left: point.region,
                right,
            });
        }
    }
    None
}
