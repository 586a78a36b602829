//! Exchange points by rising reference, each with its neighbours by rising code.
ghost use Rattle.std.specs.Prelude.{◌≡◌, OnOk, IfOk, position, bytes_eq};
ghost use Rattle.ojp_values.specs.Texts.{text_lt};
ghost use Rattle.ojp_values.specs.declared.trips.Point.{Point as PointValue};
ghost use Rattle.ojp_values.specs.declared.trips.Neighbour.{Neighbour as NeighbourValue};
ghost use Rattle.ojp_timetable.specs.Contents.{points_with, with_neighbour, with_point};

use ojp_values::{Code, List, Neighbour, NoMemory, Point, StopRef};
use std::alloc::Global;
use std::mem;

// The first point of a greater reference.
#[tactic(auto, unfolding(ojp_values::specs::Texts::text_lt))]
fn point_after(points: &[Point], stop: &StopRef) -> Option<usize>
    ensures { result ≡ position (λ (other : PointValue). text_lt stop.now other.stop) points.now }
{
    points.iter().position(|other| *stop < other.stop)
}

// The first neighbour of a greater code.
#[tactic(auto, unfolding(ojp_values::specs::Texts::text_lt))]
fn neighbour_after(neighbours: &[Neighbour], code: &Code) -> Option<usize>
    ensures { result ≡ position (λ (other : NeighbourValue). text_lt code.now other.code) neighbours.now }
{
    neighbours.iter().position(|other| *code < other.code)
}

/// Adds the point in its place.
pub fn insert_point(points: &mut Vec<Point>, point: Point) -> Result<(), NoMemory>
    ensures { OnOk result (points.new.items ≡ with_point points.old.items point) }
{
    let place = point_after(points.as_slice(), &point.stop).unwrap_or(points.len());
    let Ok(()) = points.insert(place, point) else {
        return Err(NoMemory);
    };
    Ok(())
}

// The neighbours with one more in its place.
fn insert_neighbour(
    neighbours: List<Neighbour>,
    neighbour: &Neighbour,
) -> Result<List<Neighbour>, NoMemory>
    ensures { IfOk result (λ list. list ≡ with_neighbour neighbours neighbour.now) }
{
    let place = neighbour_after(neighbours.as_slice(), &neighbour.code).unwrap_or(neighbours.len());
    let mut items = neighbours.into_items();
    let Ok(()) = items.insert(place, *neighbour) else {
        return Err(NoMemory);
    };
    Ok(List::from_items(items))
}

// The number of the point of that reference.
fn point_number(points: &[Point], stop: &StopRef) -> Option<usize>
    ensures { result ≡ position (λ (point : PointValue). bytes_eq stop.now point.stop) points.now }
{
    points.iter().position(|point| *stop == point.stop)
}

/// Adds the neighbour in its place at the point of that reference, if there is one. Where there is
/// no memory the point may be left without its neighbours.
pub fn insert_neighbour_at(
    alloc: Global,
    points: &mut Vec<Point>,
    stop: &StopRef,
    neighbour: &Neighbour,
) -> Result<(), NoMemory>
    ensures { OnOk result (points.new.items ≡ points_with points.old.items stop.now neighbour.now) }
{
    let Some(number) = point_number(points.as_slice(), stop) else {
        return Ok(());
    };
    let point = &mut points[number];
    let neighbours = mem::replace(&mut point.neighbours, List::new(alloc));
    point.neighbours = insert_neighbour(neighbours, neighbour)?;
    Ok(())
}
