//! Rows of scans: a timetable, a line of four hyphens, and an ask, `ORIGIN START TARGET`, with the start in seconds. A row
//! is told by the hops of the scan in their order, each as the number of its journey and its position, and by the start,
//! the end and the changes of the trip; `none` where there is no trip.

ghost use Rattle.ojp_scan.specs.Scans.{IsMadeFor};

use crate::words::ask_of;
use ojp_scan::Scan;
use ojp_scan::answers::answer_trip;
use ojp_timetable::Timetable;
use ojp_values::{Delivery, TripAsk, TripReply};

/// Writes the hops of the row's timetable and the trip of its ask.
pub(crate) fn tell<R: AllocGlobal + Print>(rt: &R, row: &str) -> Option<()> {
    let (table, ask) = row.split_once("----\n")?;
    let ask = ask_of(ask.strip_suffix("\n")?)?;
    let Ok(table) = Timetable::read(rt.alloc(), table.as_bytes()) else {
        return None;
    };
    let told = tell_table(rt, &table, &ask);
    drop(table);
    told
}

fn tell_table<R: AllocGlobal + Print>(rt: &R, table: &Timetable, ask: &TripAsk) -> Option<()> {
    let Ok(mut scan) = Scan::new(rt.alloc(), table) else {
        return None;
    };
    let told = tell_scan(rt, table, &mut scan, ask);
    drop(scan);
    told
}

fn tell_scan<R: AllocGlobal + Print>(
    rt: &R,
    table: &Timetable,
    scan: &mut Scan,
    ask: &TripAsk,
) -> Option<()>
    requires { IsMadeFor scan.old table.now }
{
    tell_hops(rt, scan)?;
    tell_trip(rt, table, scan, ask)
}

/// Writes a line for each hop of the scan.
fn tell_hops<R: Print>(rt: &R, scan: &Scan) -> Option<()> {
    for i in 0..scan.hops() {
        let hop = scan.hop(i);
        let (journey, position) = (hop.journey, hop.position);
        println!(rt; "hop {journey} {position}").ok()?;
    }
    Some(())
}

/// Writes the start, the end and the changes of the trip.
fn tell_trip<R: AllocGlobal + Print>(
    rt: &R,
    table: &Timetable,
    scan: &mut Scan,
    ask: &TripAsk,
) -> Option<()>
    requires { IsMadeFor scan.old table.now }
{
    let delivery = answer_trip(rt.alloc(), table, scan, ask).ok()?;
    let told = tell_delivery(rt, &delivery);
    drop(delivery);
    told
}

fn tell_delivery<R: Print>(rt: &R, delivery: &Delivery) -> Option<()> {
    match delivery {
        Delivery::Trip(TripReply::Trip(trip)) => {
            let (start, end, changes) = (trip.start.seconds(), trip.end.seconds(), trip.transfers);
            println!(rt; "trip {start} {end} {changes}").ok()
        }
        _ => println!(rt; "none").ok(),
    }
}
