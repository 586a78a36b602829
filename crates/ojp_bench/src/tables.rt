//! What a region does once over the largest timetable, and the book of as many regions as it may have. What a round made
//! goes to standard output, its processor time to standard error.

ghost use Rattle.ojp_exchange.specs.Joins.{AreWellLists};
ghost use Rattle.ojp_scan.specs.Scans.{IsMadeFor};

use crate::lists::lists;
use crate::texts::{FIRST_OWN, MIDNIGHT, text};
use crate::timing::now;
use ojp_exchange::{Book, RegionPoints};
use ojp_scan::Scan;
use ojp_timetable::Timetable;
use ojp_values::{Instant, StopRef};
use std::time::Duration;

/// Scans the largest timetable so often.
pub fn scans(rt: &HostRuntime, rounds: u32) -> Option<()> {
    let text = text(rt.alloc())?;
    let bytes = text.len();
    println!(rt; "text {bytes}").ok()?;
    for _ in 0..rounds {
        scan(rt, text.as_slice())?;
    }
    Some(())
}

/// Joins the books of regions that share 500 and 2,000 points, so often.
pub fn joins(rt: &HostRuntime, rounds: u32) -> Option<()> {
    joins_over(rt, 500, rounds)?;
    joins_over(rt, 2_000, rounds)
}

/// Joins the book of regions that share so many points, so often.
fn joins_over(rt: &HostRuntime, points: u32, rounds: u32) -> Option<()> {
    let lists = lists(rt.alloc(), points)?;
    join_each(rt, lists.as_slice(), rounds)
}

/// Joins the book of the lists so often.
fn join_each(rt: &HostRuntime, lists: &[RegionPoints], rounds: u32) -> Option<()>
    requires { AreWellLists lists.now }
{
    for _ in 0..rounds {
        join(rt, lists)?;
    }
    Some(())
}

/// Reads the timetable, makes a scan for it, and searches from a stop over a day.
fn scan(rt: &HostRuntime, text: &[u8]) -> Option<()> {
    let begin = now(rt)?;
    let Ok(table) = Timetable::read(rt.alloc(), text) else {
        return None;
    };
    let told = scan_table(rt, &table, begin);
    drop(table);
    told
}

/// Makes a scan for the timetable, which was begun to be read at that time, and searches.
fn scan_table(rt: &HostRuntime, table: &Timetable, begin: Duration) -> Option<()> {
    let read = now(rt)?;
    let Ok(mut scan) = Scan::new(rt.alloc(), table) else {
        return None;
    };
    let told = search_table(rt, table, &mut scan, begin, read);
    drop(scan);
    told
}

/// Searches the timetable, which was read from the one time to the other, by its scan, and tells sizes and times.
fn search_table(
    rt: &HostRuntime,
    table: &Timetable,
    scan: &mut Scan,
    begin: Duration,
    read: Duration,
) -> Option<()>
    requires { IsMadeFor scan.old table.now }
{
    let made = now(rt)?;
    search(table, scan)?;
    let found = now(rt)?;
    tell_sizes(rt, table.journeys(), scan.hops())?;
    tell_times(rt, begin, read, made, found)
}

/// Searches from a stop over a day.
fn search(table: &Timetable, scan: &mut Scan) -> Option<()>
    requires { IsMadeFor scan.old table.now }
{
    let origin = StopRef::new(FIRST_OWN).ok()?;
    let start = Instant::new(MIDNIGHT).ok()?;
    scan.from(table, origin, start);
    Some(())
}

/// Writes how many journeys and hops there are.
fn tell_sizes(rt: &HostRuntime, journeys: usize, hops: usize) -> Option<()> {
    println!(rt; "journeys {journeys} hops {hops}").ok()
}

/// Writes the processor time of each part.
fn tell_times(
    rt: &HostRuntime,
    begin: Duration,
    read: Duration,
    made: Duration,
    found: Duration,
) -> Option<()> {
    let reading = read.saturating_sub(begin).as_micros();
    let making = made.saturating_sub(read).as_micros();
    let finding = found.saturating_sub(made).as_micros();
    eprintln!(rt; "read {reading} new {making} from {finding} microseconds").ok()
}

/// Joins the book of the lists.
fn join(rt: &HostRuntime, lists: &[RegionPoints]) -> Option<()>
    requires { AreWellLists lists.now }
{
    let begin = now(rt)?;
    let Ok(book) = Book::join(rt.alloc(), lists) else {
        return None;
    };
    let told = tell_book(rt, &book, begin);
    drop(book);
    told
}

/// Writes how many places the book has, whose joining was begun at that time.
fn tell_book(rt: &HostRuntime, book: &Book, begin: Duration) -> Option<()> {
    let joining = now(rt)?.saturating_sub(begin).as_micros();
    let places = book.places();
    println!(rt; "places {places}").ok()?;
    eprintln!(rt; "join {places} {joining} microseconds").ok()
}
