//! Feeds read line by line.

use crate::feeds::drafts::{Draft, empty};
use crate::feeds::fields::{access, day, kind, mark, marks, reference, time};
use crate::words::{code_of, number_of, stop_of};
use ojp_feed_rows::{
    Exception, Exchange, Frequency, NeighbourOf, Route, Service, Stop, StopChange, StopTime,
    Transfer, Trip, Weekly, Window,
};
use std::alloc::Global;

/// The feed of a row.
pub(crate) fn read(alloc: Global, row: &str) -> Option<Draft> {
    let mut draft = empty(alloc)?;
    match read_lines(alloc, &mut draft, row) {
        Some(()) => Some(draft),
        None => {
            drop(draft);
            None
        }
    }
}

/// Adds each line.
fn read_lines(alloc: Global, draft: &mut Draft, lines: &str) -> Option<()> {
    for line in lines.lines() {
        let (word, rest) = line.split_once(" ")?;
        read_line(alloc, draft, word, rest)?;
    }
    Some(())
}

/// The first field, and what stands behind it.
fn first(text: &str) -> (&str, &str) {
    match text.split_once(" ") {
        Some((field, rest)) => (field, rest),
        None => (text, ""),
    }
}

/// Adds a line.
fn read_line(alloc: Global, draft: &mut Draft, word: &str, rest: &str) -> Option<()> {
    match word {
        "zone" => read_zone(alloc, draft, rest),
        "window" => read_window(draft, rest),
        "open" => read_open(draft, rest),
        "stop" => read_stop(alloc, draft, rest),
        "route" => read_route(alloc, draft, rest),
        "service" => read_service(alloc, draft, rest),
        "trip" => read_trip(alloc, draft, rest),
        _ => read_part(draft, word, rest),
    }
}

/// Adds a line that belongs to one above, or the operator's.
fn read_part(draft: &mut Draft, word: &str, rest: &str) -> Option<()> {
    match word {
        "exception" => read_exception(draft, rest),
        "at" => read_call(draft, rest),
        "frequency" => read_frequency(draft, rest),
        "transfer" => read_transfer(draft, rest),
        "exchange" => read_exchange(draft, rest),
        "neighbour" => read_neighbour(draft, rest),
        "change" => read_change(draft, rest),
        _ => None,
    }
}

/// `zone ZONE`
fn read_zone(alloc: Global, draft: &mut Draft, rest: &str) -> Option<()> {
    draft.settings.zone = String::from_str(alloc, rest).ok()?;
    Some(())
}

/// `window DATE DATE`
fn read_window(draft: &mut Draft, rest: &str) -> Option<()> {
    let (from, to) = first(rest);
    draft.feed.window = Window {
        first: day(from)?,
        last: day(to)?,
    };
    Some(())
}

/// `open 1`: calls are kept as open ones.
fn read_open(draft: &mut Draft, rest: &str) -> Option<()> {
    draft.settings.as_open = mark(rest);
    Some(())
}

/// `stop ID KIND PARENT NAME`
fn read_stop(alloc: Global, draft: &mut Draft, rest: &str) -> Option<()> {
    let (id, rest) = first(rest);
    let (kind_text, rest) = first(rest);
    let (parent, name) = first(rest);
    let stop = Stop {
        id: String::from_str(alloc, id).ok()?,
        name: String::from_str(alloc, name).ok()?,
        kind: kind(kind_text)?,
        parent: reference(parent)?,
    };
    draft.feed.stops.push(stop).ok()
}

/// `route ID NAME`
fn read_route(alloc: Global, draft: &mut Draft, rest: &str) -> Option<()> {
    let (id, name) = first(rest);
    let route = Route {
        id: String::from_str(alloc, id).ok()?,
        short_name: String::from_str(alloc, name).ok()?,
    };
    draft.feed.routes.push(route).ok()
}

/// `service ID`, and where it has a row of weekdays `DATE DATE MARKS`
fn read_service(alloc: Global, draft: &mut Draft, rest: &str) -> Option<()> {
    let (id, rest) = first(rest);
    let service = Service {
        id: String::from_str(alloc, id).ok()?,
        weekly: read_weekly(rest),
        exceptions: Vec::new(alloc),
    };
    draft.feed.services.push(service).ok()
}

/// `DATE DATE MARKS`
fn read_weekly(text: &str) -> Option<Weekly> {
    let (from, rest) = first(text);
    let (to, weekdays) = first(rest);
    Some(Weekly {
        first: day(from)?,
        last: day(to)?,
        marks: marks(weekdays)?,
    })
}

/// `exception DATE 1`, or `0`, of the service above
fn read_exception(draft: &mut Draft, rest: &str) -> Option<()> {
    let (date, runs) = first(rest);
    let exception = Exception {
        day: day(date)?,
        runs: mark(runs),
    };
    let mut service = draft.feed.services.pop()?;
    service.exceptions.push(exception).ok()?;
    draft.feed.services.push(service).ok()
}

/// `trip ID ROUTE SERVICE`; `?` behind these where one of its stops is unknown
fn read_trip(alloc: Global, draft: &mut Draft, rest: &str) -> Option<()> {
    let (id, rest) = first(rest);
    let (route, rest) = first(rest);
    let (service, unknown) = first(rest);
    let trip = Trip {
        id: String::from_str(alloc, id).ok()?,
        route: reference(route)?,
        service: reference(service)?,
        has_unknown_stop: unknown == "?",
        stop_times: Vec::new(alloc),
        frequencies: Vec::new(alloc),
    };
    draft.feed.trips.push(trip).ok()
}

/// `at SEQUENCE STOP ARRIVAL DEPARTURE BOARDING ALIGHTING`, of the trip above
fn read_call(draft: &mut Draft, rest: &str) -> Option<()> {
    let (sequence, rest) = first(rest);
    let (stop, rest) = first(rest);
    let (arrival, rest) = first(rest);
    let (departure, rest) = first(rest);
    let (boarding, alighting) = first(rest);
    let row = StopTime {
        sequence: number_of(sequence)?,
        stop: number_of(stop)?,
        arrival: time(arrival)?,
        departure: time(departure)?,
        boarding: access(boarding)?,
        alighting: access(alighting)?,
    };
    let mut trip = draft.feed.trips.pop()?;
    trip.stop_times.push(row).ok()?;
    draft.feed.trips.push(trip).ok()
}

/// `frequency START END HEADWAY 1`, of the trip above; `0` where it is not exact
fn read_frequency(draft: &mut Draft, rest: &str) -> Option<()> {
    let (start, rest) = first(rest);
    let (end, rest) = first(rest);
    let (headway, exact) = first(rest);
    let row = Frequency {
        start: time(start)??,
        end: time(end)??,
        headway: number_of(headway)?,
        exact: mark(exact),
    };
    let mut trip = draft.feed.trips.pop()?;
    trip.frequencies.push(row).ok()?;
    draft.feed.trips.push(trip).ok()
}

/// `transfer STOP STOP SECONDS`
fn read_transfer(draft: &mut Draft, rest: &str) -> Option<()> {
    let (from, rest) = first(rest);
    let (to, seconds) = first(rest);
    let row = Transfer {
        from: number_of(from)?,
        to: number_of(to)?,
        seconds: number_of(seconds)?,
    };
    draft.feed.transfers.push(row).ok()
}

/// `exchange POINT CHANGE STOP`
fn read_exchange(draft: &mut Draft, rest: &str) -> Option<()> {
    let (at, rest) = first(rest);
    let (change, stop) = first(rest);
    let line = Exchange {
        point: stop_of(at)?,
        change: number_of(change)?,
        stop: number_of(stop)?,
    };
    draft.feed.operator.exchanges.push(line).ok()
}

/// `neighbour POINT CODE CHANGE`
fn read_neighbour(draft: &mut Draft, rest: &str) -> Option<()> {
    let (at, rest) = first(rest);
    let (region, change) = first(rest);
    let line = NeighbourOf {
        point: stop_of(at)?,
        region: code_of(region)?,
        change: number_of(change)?,
    };
    draft.feed.operator.neighbours.push(line).ok()
}

/// `change CHANGE STOP`
fn read_change(draft: &mut Draft, rest: &str) -> Option<()> {
    let (change, stop) = first(rest);
    let line = StopChange {
        change: number_of(change)?,
        stop: number_of(stop)?,
    };
    draft.feed.operator.changes.push(line).ok()
}
