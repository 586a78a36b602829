//! What is written of queries, points and trips.

use crate::words::text_of;
use ojp_labels::Query;
use ojp_values::{Code, Fault, Instant, Leg, Point, StopRef, Trip};

/// Writes the query behind the word.
pub(crate) fn show_query<R: Print>(rt: &R, word: &str, query: &Query) -> Option<()> {
    match query {
        Query::Check { region, stop } => show_check(rt, word, region, stop),
        Query::Reach {
            region,
            stop,
            start,
        } => show_reach(rt, word, region, stop, *start),
    }
}

fn show_check<R: Print>(rt: &R, word: &str, region: &Code, stop: &StopRef) -> Option<()> {
    let region = text_of(region.text())?;
    let stop = text_of(stop.text())?;
    println!(rt; "{word} check {region} {stop}").ok()
}

fn show_reach<R: Print>(
    rt: &R,
    word: &str,
    region: &Code,
    stop: &StopRef,
    start: Instant,
) -> Option<()> {
    let region = text_of(region.text())?;
    let stop = text_of(stop.text())?;
    let start = start.text();
    let start = text_of(&start)?;
    println!(rt; "{word} reach {region} {stop} {start}").ok()
}

/// Writes the exchange point with its neighbours.
pub(crate) fn show_point<R: Print>(rt: &R, point: &Point) -> Option<()> {
    let region = text_of(point.region.text())?;
    let stop = text_of(point.stop.text())?;
    let change = point.change;
    println!(rt; "{region} {stop} {change}").ok()?;
    for neighbour in point.neighbours.as_slice() {
        let code = text_of(neighbour.code.text())?;
        let change = neighbour.change;
        println!(rt; "- {code} {change}").ok()?;
    }
    Some(())
}

/// Writes the fault that a search ends with.
pub(crate) fn show_fault<R: Print>(rt: &R, fault: &Fault) -> Option<()> {
    match fault {
        Fault::StopUnknown(stop) => show_end(rt, "unknown", stop.text()),
        Fault::NoTrip(stop) => show_end(rt, "no trip", stop.text()),
        Fault::RegionFailed(code) => show_end(rt, "region failed", code.text()),
        Fault::SameStop(_) | Fault::NotServed => None,
    }
}

fn show_end<R: Print>(rt: &R, word: &str, name: &[u8]) -> Option<()> {
    let name = text_of(name)?;
    println!(rt; "{word} {name}").ok()
}

/// Writes the trip: its legs, and then its start, end, duration and transfers.
pub(crate) fn show_trip<R: Print>(rt: &R, trip: &Trip) -> Option<()> {
    for leg in trip.legs.as_slice() {
        show_leg(rt, leg)?;
    }
    let start = trip.start.text();
    let end = trip.end.text();
    let (start, end) = (text_of(&start)?, text_of(&end)?);
    let (duration, transfers) = (trip.duration, trip.transfers);
    println!(rt; "trip {start} {end} {duration} {transfers}").ok()
}

fn show_leg<R: Print>(rt: &R, leg: &Leg) -> Option<()> {
    let region = text_of(leg.region.text())?;
    let journey = text_of(leg.journey.text())?;
    let board = text_of(leg.board.text())?;
    let alight = text_of(leg.alight.text())?;
    println!(rt; "ride {region} {journey} {board} {alight}").ok()
}
