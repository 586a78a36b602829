//! What lists of exchange points declare, in one row.

ghost use Rattle.std.specs.Prelude.{◌≡◌, ◌++◌, map, IfOk, OnOk, IsSorted, IsPermutation};
ghost use Rattle.std.specs.List.{filter, flat_map};
ghost use Rattle.std.specs.List.Sorted.{IsSortedBy};
ghost use Rattle.ojp_values.specs.Texts.{same, text_lt};
ghost use Rattle.ojp_values.specs.declared.trips.Point.{Point as PointValue};
ghost use Rattle.ojp_exchange.specs.declared.region_points.RegionPoints.{RegionPoints as ListValue};
ghost use Rattle.ojp_exchange.specs.Kept.{entry_lt, points_at};

use crate::places::order_of;
use crate::region_points::RegionPoints;
use ojp_values::{Code, List, NoMemory, Point, StopRef};
use std::alloc::Global;

// A copy of the exchange point.
fn copy_of(alloc: Global, point: &Point) -> Result<Point, NoMemory>
    ensures { IfOk result (λ copy. copy ≡ point.now) }
{
    let Ok(neighbours) = List::from_slice(alloc, point.neighbours.as_slice()) else {
        return Err(NoMemory);
    };
    Ok(Point {
        region: point.region,
        stop: point.stop,
        change: point.change,
        neighbours,
    })
}

/// Adds copies of the points.
pub fn add_copies(alloc: Global, points: &[Point], all: &mut Vec<Point>) -> Result<(), NoMemory>
    ensures { OnOk result (all.new.items ≡ all.old.items ++ points.now) }
{
    'points: for point in points {
        let copy = copy_of(alloc, point)?;
        if all.push(copy).is_err() {
            return Err(NoMemory);
        }
    }
    Ok(())
}

// The points of all lists, one list after another.
fn all_points(alloc: Global, lists: &[RegionPoints]) -> Result<Vec<Point>, NoMemory>
    ensures { IfOk result (λ points. points.items ≡ flat_map (λ (list : ListValue). list.points) lists.now) }
{
    let mut all = Vec::new(alloc);
    'lists: for list in lists {
        add_copies(alloc, list.points.as_slice(), &mut all)?;
    }
    Ok(all)
}

/// The points of all lists by stop and region.
pub fn sorted_points(alloc: Global, lists: &[RegionPoints]) -> Result<Vec<Point>, NoMemory>
    ensures same { IfOk result (λ points. IsPermutation (flat_map (λ (list : ListValue). list.points) lists.now) points.items) }
    ensures sorted { IfOk result (λ points. IsSortedBy entry_lt points.items) }
{
    let mut points = all_points(alloc, lists)?;
    points.sort_unstable_by(|point, other| order_of(point, other));
    Ok(points)
}

// The codes of the lists.
fn all_codes(alloc: Global, lists: &[RegionPoints]) -> Result<Vec<Code>, NoMemory>
    ensures { IfOk result (λ codes. codes.items ≡ map (λ (list : ListValue). list.code) lists.now) }
{
    let mut codes = Vec::new(alloc);
    'lists: for list in lists {
        if codes.push(list.code).is_err() {
            return Err(NoMemory);
        }
    }
    Ok(codes)
}

/// The codes of the lists, sorted.
#[tactic(auto, unfolding(ojp_values::specs::Texts::text_lt))]
pub fn sorted_codes(alloc: Global, lists: &[RegionPoints]) -> Result<Vec<Code>, NoMemory>
    ensures same { IfOk result (λ codes. IsPermutation (map (λ (list : ListValue). list.code) lists.now) codes.items) }
    ensures sorted { IfOk result (λ codes. IsSortedBy text_lt codes.items) }
{
    let mut codes = all_codes(alloc, lists)?;
    codes.sort_unstable();
    Ok(codes)
}

/// The regions of the points, in their order.
pub fn regions_of(alloc: Global, points: &[Point]) -> Result<Vec<Code>, NoMemory>
    ensures { IfOk result (λ regions. regions.items ≡ map (λ (point : PointValue). point.region) points.now) }
{
    let mut regions = Vec::new(alloc);
    'points: for point in points {
        if regions.push(point.region).is_err() {
            return Err(NoMemory);
        }
    }
    Ok(regions)
}

/// Copies of all points, or of those at the place.
pub fn copies_at(
    alloc: Global,
    points: &[Point],
    place: Option<StopRef>,
) -> Result<List<Point>, NoMemory>
    ensures { IfOk result (λ found. found ≡ points_at place points.now) }
{
    let mut found = Vec::new(alloc);
    match place {
        None => add_copies(alloc, points, &mut found)?,
        Some(stop) => add_copies_at(alloc, points, &stop, &mut found)?,
    }
    Ok(List::from_items(found))
}

// Adds copies of the points at the stop.
#[tactic(auto, unfolding(ojp_values::specs::Texts::same))]
fn add_copies_at(
    alloc: Global,
    points: &[Point],
    stop: &StopRef,
    found: &mut Vec<Point>,
) -> Result<(), NoMemory>
    ensures { OnOk result (found.new.items ≡ found.old.items ++ filter (λ (point : PointValue). same stop.now point.stop) points.now) }
{
    'points: for point in points {
        if *stop == point.stop {
            let copy = copy_of(alloc, point)?;
            if found.push(copy).is_err() {
                return Err(NoMemory);
            }
        }
    }
    Ok(())
}
