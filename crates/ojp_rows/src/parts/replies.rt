//! Replies against what is expected of them, with moments worked out by hand.

use crate::words::{code_of, moment_of, number_of, stop_of};
use ojp_links::{Expect, fits};
use ojp_values::*;
use std::alloc::Global;

/// 2024-05-06T08:10:00Z, when the trip departs; it arrives 600 seconds later.
const DEPARTS: u64 = 1_714_983_000;

/// Whether the trip fits the region's code, the start of the ask and the duration of a row, and the kind of the ask.
pub(crate) fn trip_fits(alloc: Global, text: &str) -> Option<String> {
    let mut words = text.split(" ");
    let code = code_of(words.next()?)?;
    let start = moment_of(words.next()?)?;
    let reply = results(alloc, number_of(words.next()?)?)?;
    let outcome = trip_outcome(alloc, code, start, &reply);
    drop(reply);
    outcome
}

fn trip_outcome(alloc: Global, code: Code, start: Instant, reply: &Delivery) -> Option<String> {
    let is_of_kind = is_fit(Expect::Kind(ask_from(alloc, start)?), reply);
    let ask = ask_from(alloc, start)?;
    let is_fit = is_fit(Expect::Region { code, ask }, reply);
    format!(in alloc; "{is_fit} {is_of_kind}").ok()
}

/// Whether the reply is as expected.
fn is_fit(expect: Expect, reply: &Delivery) -> bool {
    let is_fit = fits(&expect, reply);
    drop(expect);
    is_fit
}

/// A trip of one leg of AA from AA:a to AA:b.
fn leg() -> Option<Leg> {
    Some(Leg {
        region: code_of("AA")?,
        journey: Label::new("J1").ok()?,
        line: Label::new("L5").ok()?,
        day: Day::new(19_849).ok()?,
        board: stop_of("AA:a")?,
        board_name: Name::new("Alder").ok()?,
        departs: Instant::new(DEPARTS).ok()?,
        alight: stop_of("AA:b")?,
        alight_name: Name::new("Beech").ok()?,
        arrives: Instant::new(DEPARTS + 600).ok()?,
    })
}

/// The delivery of the trip of that leg, with this duration, as the one result of many.
fn results(alloc: Global, duration: u32) -> Option<Delivery> {
    let leg = leg()?;
    let trip = Trip {
        duration,
        start: leg.departs,
        end: leg.arrives,
        transfers: 0,
        legs: List::from_slice(alloc, &[leg]).ok()?,
    };
    let mut found = List::new(alloc);
    found.push(TripResult::Trip(trip)).ok()?;
    Some(Delivery::Multi(MultiReply::Results(found)))
}

/// An ask from AA:a to AA:b, from the moment on.
fn ask_from(alloc: Global, start: Instant) -> Option<Ask> {
    Some(Ask::Multi(MultiAsk {
        origin: stop_of("AA:a")?,
        start,
        targets: List::from_slice(alloc, &[stop_of("AA:b")?]).ok()?,
    }))
}

/// Whether two departures of AA:a at the moments of a row fit an ask for two of them.
pub(crate) fn events_fit(alloc: Global, text: &str) -> Option<String> {
    let (first, second) = text.split_once(" ")?;
    let code = code_of("AA")?;
    let mut events = List::new(alloc);
    events.push(event(moment_of(first)?)?).ok()?;
    events.push(event(moment_of(second)?)?).ok()?;
    let ask = Ask::Events(EventAsk {
        stop: stop_of("AA:a")?,
        start: Instant::new(DEPARTS).ok()?,
        kind: EventKind::Departure,
        number: 2,
    });
    let reply = Delivery::Events(EventsReply::Events(events));
    outcome_of(alloc, Expect::Region { code, ask }, reply)
}

/// A departure of J1 of the day at AA:a.
fn event(moment: Instant) -> Option<Event> {
    Some(Event {
        region: code_of("AA")?,
        journey: Label::new("J1").ok()?,
        line: Label::new("L5").ok()?,
        day: Day::new(19_849).ok()?,
        stop: stop_of("AA:a")?,
        order: 1,
        moment,
    })
}

fn outcome_of(alloc: Global, expect: Expect, reply: Delivery) -> Option<String> {
    let is_fit = is_fit(expect, &reply);
    drop(reply);
    format!(in alloc; "{is_fit}").ok()
}

/// Whether the point of a row fits behind that of x:P, which has the neighbours BB and CC.
pub(crate) fn points_fit(alloc: Global, text: &str) -> Option<String> {
    let code = code_of("AA")?;
    let mut points = List::new(alloc);
    points.push(point(alloc, "x:P BB CC")?).ok()?;
    points.push(point(alloc, text)?).ok()?;
    let ask = Ask::Points(PointsAsk { place: None });
    let reply = Delivery::Points(PointsReply::Points(points));
    outcome_of(alloc, Expect::Region { code, ask }, reply)
}

/// An entry of AA: its stop and its neighbours.
fn point(alloc: Global, text: &str) -> Option<Point> {
    let (stop, codes) = text.split_once(" ")?;
    let mut neighbours = List::new(alloc);
    for code in codes.split(" ") {
        let code = code_of(code)?;
        neighbours.push(Neighbour { code, change: 300 }).ok()?;
    }
    Some(Point {
        region: code_of("AA")?,
        stop: stop_of(stop)?,
        change: 60,
        neighbours,
    })
}
