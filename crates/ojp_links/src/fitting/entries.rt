//! Which stop events and exchange points fit an ask.

ghost use Rattle.std.specs.Prelude.{◌↔◌, ◌≡◌, ◌≢◌, IsTrue, All};
ghost use Rattle.ojp_values.specs.declared.trips.Neighbour.{Neighbour as Listed};
ghost use Rattle.ojp_timetable.specs.Points.{IsPointOf};
ghost use Rattle.ojp_links.specs.Fits.{FitsEvent, FitsEventsReply, FitsPointsReply};
ghost use Rattle.ojp_links.specs.Entries.{AreEventsOf, AreNeighboursOf, ArePointsOf, IsOnePoint, IsPointAt};

use crate::fitting::rising::rises;
use ojp_values::{
    Code, Event, EventAsk, EventsReply, Fault, Neighbour, Point, PointsReply, StopRef,
};

/// The seconds of the requested day.
const DAY: u64 = 86_400;

/// The most exchange points of one region.
const MOST_POINTS: usize = 255;

/// Whether the reply has at most the asked number of events of the region at the stop, in their order,
/// or says that the stop is unknown.
pub(crate) fn fits_events(region: &Code, ask: &EventAsk, reply: &EventsReply) -> bool
    ensures { IsTrue result ↔ FitsEventsReply region.now ask.now reply.now }
{
    match reply {
        EventsReply::Events(events) => are_events(region, ask, events.as_slice()),
        EventsReply::Fault(Fault::StopUnknown(stop)) => *stop == ask.stop,
        EventsReply::Fault(_) => false,
    }
}

fn are_events(region: &Code, ask: &EventAsk, events: &[Event]) -> bool
    ensures { IsTrue result ↔ AreEventsOf region.now ask.now events.now }
{
    events.len() <= ask.number as usize && all_events(region, ask, events) && rises(events)
}

fn all_events(region: &Code, ask: &EventAsk, events: &[Event]) -> bool
    ensures { IsTrue result ↔ All (FitsEvent region.now ask.now) events.now }
{
    events.iter().all(|event| is_event(region, ask, event))
}

/// Whether the event is one of the region at the asked stop, within the asked day.
fn is_event(region: &Code, ask: &EventAsk, event: &Event) -> bool
    ensures { IsTrue result ↔ FitsEvent region.now ask.now event.now }
{
    event.region == *region
        && event.stop == ask.stop
        && ask.start <= event.moment
        && event.moment.seconds() <= ask.start.seconds() + DAY
}

/// Whether the reply has rising entries of the region; where a place was asked, its one entry, or that
/// the place is unknown.
pub(crate) fn fits_points(region: &Code, place: &Option<StopRef>, reply: &PointsReply) -> bool
    ensures { IsTrue result ↔ FitsPointsReply region.now place.now reply.now }
{
    match place {
        None => match reply {
            PointsReply::Points(points) => are_points(region, points.as_slice()),
            PointsReply::Fault(_) => false,
        },
        Some(place) => match reply {
            PointsReply::Points(points) => is_one_point(region, place, points.as_slice()),
            PointsReply::Fault(Fault::StopUnknown(stop)) => *stop == *place,
            PointsReply::Fault(_) => false,
        },
    }
}

fn are_points(region: &Code, points: &[Point]) -> bool
    ensures { IsTrue result ↔ ArePointsOf region.now points.now }
{
    points.len() <= MOST_POINTS && all_points(region, points) && rises(points)
}

fn all_points(region: &Code, points: &[Point]) -> bool
    ensures { IsTrue result ↔ All (IsPointOf region.now) points.now }
{
    points.iter().all(|point| is_point(region, point))
}

/// Whether this is the one entry of the place.
fn is_one_point(region: &Code, place: &StopRef, points: &[Point]) -> bool
    ensures { IsTrue result ↔ IsOnePoint region.now place.now points.now }
{
    let Some((point, others)) = points.split_first() else {
        return false;
    };
    if !others.is_empty() {
        return false;
    }
    is_point_at(region, place, point)
}

/// Whether the entry is the region's one at the place.
fn is_point_at(region: &Code, place: &StopRef, point: &Point) -> bool
    ensures { IsTrue result ↔ IsPointAt region.now place.now point.now }
{
    point.stop == *place && is_point(region, point)
}

/// Whether the entry is an exchange point of the region, with rising neighbours other than the region.
fn is_point(region: &Code, point: &Point) -> bool
    ensures { IsTrue result ↔ IsPointOf region.now point.now }
{
    if !point.stop.is_exchange() {
        return false;
    }
    point.region == *region && are_neighbours(region, point.neighbours.as_slice())
}

/// Whether the neighbours rise by code, and none is the region itself.
fn are_neighbours(region: &Code, neighbours: &[Neighbour]) -> bool
    ensures { IsTrue result ↔ AreNeighboursOf region.now neighbours.now }
{
    rises(neighbours) && are_others(region, neighbours)
}

fn are_others(region: &Code, neighbours: &[Neighbour]) -> bool
    ensures { IsTrue result ↔ All (λ (neighbour : Listed). neighbour.code ≢ region.now) neighbours.now }
{
    neighbours.iter().all(|neighbour| neighbour.code != *region)
}
