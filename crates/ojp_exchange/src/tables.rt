//! What a book finds at once by the number of a place or of a region.

ghost use Rattle.std.specs.Prelude.{◌≡◌, ◌+◌, ◌<◌, ◌++◌, ◌∷◌, [], length, IfOk, OnOk};
ghost use Rattle.ojp_exchange.specs.Tables.{AreChangesAdded, AreInOrder, IsEdgeTable, IsStretchOf, IsWayTable, is_way, ways_in};

use crate::places::{change_among, count_before, count_through};
use crate::spots::Edge;
use ojp_values::{Code, NoMemory, Point};
use std::alloc::Global;

/// For each place where one who arrived there may change to. The edges of a place begin at the
/// number that `firsts` has for it, and end where those of the next place begin.
#[derive(Drop)]
pub struct EdgeTable {
    pub edges: Vec<Edge>,
    pub firsts: Vec<usize>,
}

/// For each region its places that lead on to another region, in the same way.
#[derive(Drop)]
pub struct WayTable {
    pub ways: Vec<usize>,
    pub firsts: Vec<usize>,
}

/// The edges of the points.
pub fn edges_of(alloc: Global, points: &[Point]) -> Result<EdgeTable, NoMemory>
    requires { AreInOrder points.now }
    ensures { IfOk result (λ table. IsEdgeTable points.now table.edges.items table.firsts.items) }
{
    let mut edges = Vec::new(alloc);
    let mut firsts = firsts_of(alloc, points.len())?;
    let mut from = 0;
    let mut to = 0;
    'places: for place in 0..points.len() {
        if place == to {
            from = count_before(points, &points[place].stop);
            to = count_through(points, &points[place].stop, from);
        }
        add_edges(points, place, from, to, &mut edges)?;
        if firsts.push(edges.len()).is_err() {
            return Err(NoMemory);
        }
    }
    Ok(EdgeTable { edges, firsts })
}

// The number at which the first part begins, with room for so many more.
fn firsts_of(alloc: Global, parts: usize) -> Result<Vec<usize>, NoMemory>
    ensures { IfOk result (λ firsts. firsts.items ≡ 0 ∷ []) }
{
    let mut firsts = Vec::new(alloc);
    if firsts.push(0).is_err() || firsts.reserve(parts).is_err() {
        return Err(NoMemory);
    }
    Ok(firsts)
}

// Adds the edges of the place, where the points at its stop are those from the one number to before
// the other.
fn add_edges(
    points: &[Point],
    place: usize,
    from: usize,
    to: usize,
    edges: &mut Vec<Edge>,
) -> Result<(), NoMemory>
    requires order { AreInOrder points.now }
    requires place { place < length points.now }
    requires stretch { IsStretchOf points.now place from to }
    ensures { OnOk result (AreChangesAdded points.now place edges.old.items edges.new.items) }
{
    let region = points[place].region;
    'others: for other in from..to {
        if let Some(change) = change_among(points[other].neighbours.as_slice(), &region) {
            if edges.push(Edge { to: other, change }).is_err() {
                return Err(NoMemory);
            }
        }
    }
    Ok(())
}

/// The ways of the regions, where the edges of the points begin at those numbers.
pub fn ways_of(
    alloc: Global,
    codes: &[Code],
    points: &[Point],
    edge_firsts: &[usize],
) -> Result<WayTable, NoMemory>
    requires { length edge_firsts.now ≡ length points.now + 1 }
    ensures { IfOk result (λ table. IsWayTable codes.now points.now edge_firsts.now table.ways.items table.firsts.items) }
{
    let mut ways = Vec::new(alloc);
    let mut firsts = firsts_of(alloc, codes.len())?;
    'regions: for code in codes {
        add_ways(points, edge_firsts, code, &mut ways)?;
        if firsts.push(ways.len()).is_err() {
            return Err(NoMemory);
        }
    }
    Ok(WayTable { ways, firsts })
}

// Adds the ways of the region.
fn add_ways(
    points: &[Point],
    edge_firsts: &[usize],
    code: &Code,
    ways: &mut Vec<usize>,
) -> Result<(), NoMemory>
    requires { length edge_firsts.now ≡ length points.now + 1 }
    ensures { OnOk result (ways.new.items ≡ ways.old.items ++ ways_in points.now edge_firsts.now code.now) }
{
    'places: for place in 0..points.len() {
        if is_way(points, edge_firsts, code, place) {
            if ways.push(place).is_err() {
                return Err(NoMemory);
            }
        }
    }
    Ok(())
}

// Whether the point of that number is one of the region, and has edges.
#[tactic(auto, unfolding(ojp_values::specs::Texts::same))]
fn is_way(points: &[Point], edge_firsts: &[usize], code: &Code, place: usize) -> bool
    requires sizes { length edge_firsts.now ≡ length points.now + 1 }
    requires place { place < length points.now }
    ensures { result ≡ is_way points.now edge_firsts.now code.now place }
{
    *code == points[place].region && edge_firsts[place] < edge_firsts[place + 1]
}
