//! What a region answers to an ask.

ghost use Rattle.std.specs.Prelude.{◌≡◌, IfOk};
ghost use Rattle.ojp_values.specs.Limits.{IsWellAsk, IsWellDelivery};
ghost use Rattle.ojp_timetable.specs.Answers.{EventsAnswered, PointsAnswered, RegionAnswers};
ghost use Rattle.ojp_timetable.specs.Runs.{IsWell};
ghost use Rattle.ojp_scan.specs.Scans.{IsMadeFor};
ghost use Rattle.ojp_region.specs.Replies.{points_reply};

use crate::trips::multi_answer;
use ojp_exchange::points_of;
use ojp_scan::Scan;
use ojp_scan::answers::answer_trip;
use ojp_stop_events::events;
use ojp_timetable::Timetable;
use ojp_values::{
    Ask, Delivery, EventAsk, EventsReply, Fault, List, NoMemory, Point, PointsAsk, PointsReply,
    StopRef,
};
use std::alloc::Global;

/// The region's answer to an ask, by its timetable. The answer to an ask within the limits of a document
/// is within them too.
pub fn answer(
    alloc: Global,
    table: &Timetable,
    scan: &mut Scan,
    ask: &Ask,
) -> Result<Delivery, NoMemory>
    requires made { IsMadeFor scan.old table.now }
    ensures made { IsMadeFor scan.new table.now }
    ensures answered { IfOk result (λ delivery. RegionAnswers table.now ask.now delivery) }
    ensures well { IsWellAsk ask.now → IfOk result (λ delivery. IsWellDelivery delivery) }
{
    answer_by_kind(alloc, table, scan, ask)
}

/// The answer by the service that is asked.
fn answer_by_kind(
    alloc: Global,
    table: &Timetable,
    scan: &mut Scan,
    ask: &Ask,
) -> Result<Delivery, NoMemory>
    requires made { IsMadeFor scan.old table.now }
    ensures made { IsMadeFor scan.new table.now }
    ensures answered { IfOk result (λ delivery. RegionAnswers table.now ask.now delivery) }
{
    match ask {
        Ask::Trip(ask) => answer_trip(alloc, table, scan, ask),
        Ask::Multi(ask) => multi_answer(alloc, table, scan, ask),
        Ask::Events(ask) => events_answer(alloc, table, ask),
        Ask::Points(ask) => points_answer(alloc, table, ask),
    }
}

/// The first events at the stop, or that it is unknown.
fn events_answer(alloc: Global, table: &Timetable, ask: &EventAsk) -> Result<Delivery, NoMemory>
    ensures { IfOk result (λ delivery. EventsAnswered table.now ask.now delivery) }
{
    if !table.has(ask.stop) {
        let unknown = Fault::StopUnknown(ask.stop);
        return Ok(Delivery::Events(EventsReply::Fault(unknown)));
    }
    let found = events(alloc, table, ask)?;
    Ok(Delivery::Events(EventsReply::Events(found)))
}

/// The exchange points, all or the one at the place, or that it is unknown.
fn points_answer(alloc: Global, table: &Timetable, ask: &PointsAsk) -> Result<Delivery, NoMemory>
    requires { IsWell table.now }
    ensures { IfOk result (λ delivery. PointsAnswered table.now ask.now delivery) }
{
    let found = points_of(alloc, table, ask.place)?;
    Ok(Delivery::Points(points_reply(ask.place, found)))
}

/// The reply that lists the points found at the place.
fn points_reply(place: Option<StopRef>, found: List<Point>) -> PointsReply
    ensures { result ≡ points_reply place found }
{
    match place {
        Some(stop) if found.is_empty() => PointsReply::Fault(Fault::StopUnknown(stop)),
        _ => PointsReply::Points(found),
    }
}
