//! How the program fails, with its status and its line.

ghost use Rattle.std.specs.Prelude.{◌≡◌, ◌≤◌, ◌++◌, codes, slice_get, string_bytes};
ghost use Rattle.std.specs.List.{flat_map};
ghost use Rattle.ojp_feed_plans.specs.Labels.{stop_id, trip_id};
ghost use Rattle.ojp_steps.specs.Lent.{lent, Tells};
ghost use Rattle.ojp_gtfs_cli.specs.Failures.{failure_of_conversion, failure_of_feed, failure_of_file, status_of};
ghost use Rattle.ojp_gtfs_cli.specs.Lines.{conversion_lines, doubled_line, feed_line, file_name, fit_line, long_line, memory_line, no_rule_line, other_line, place_text, refused_line, unread_line};
ghost use Rattle.ojp_gtfs_cli.specs.Runs.{IsFailed};

use crate::days::day_text;
use itoa::Buffer;
use ojp_feed::ConvertRefused;
use ojp_feed_lines::{FeedFile, FeedRefused, RowReason};
use ojp_feed_rows::{Feed, Window};
use ojp_outside::{Sink, put_parts};
use ojp_region::FileRefused;

/// Why no timetable was written.
#[derive(Clone, Copy, Debug, PartialEq, Eq)]
pub(crate) enum Failure {
    /// The words are of another form.
    Words,
    /// A file could not be read.
    Unread,
    /// The feed, or another file, is refused.
    Refused,
    /// Memory ran out.
    Memory,
}

impl Failure {
    /// The exit status.
    pub fn status(self) -> u8
        ensures failed { IsFailed result }
        ensures value { result ≡ status_of self }
    {
        match self {
            Failure::Words => 2,
            Failure::Unread => 3,
            Failure::Memory => 5,
            Failure::Refused => 6,
        }
    }
}

/// Writes the parts; nobody can be told of a fault on standard error.
pub(crate) fn put<E: Sink>(report: &mut E, parts: &[&[u8]])
    ensures told { Tells (lent E.seen report.old report.new) (flat_map (λ part. part.now) parts.now) }
    ensures later { (E.seen report.old).faults ≤ (E.seen report.new).faults }
{
    let _ = put_parts(report, parts);
}

pub(crate) fn bad_words<E: Sink>(report: &mut E) -> Failure
    ensures { result ≡ Failure.Words }
{
    put(report, &[b"ojp_gtfs: bad words\n"]);
    Failure::Words
}

pub(crate) fn no_memory<E: Sink>(report: &mut E) -> Failure
    ensures failure { result ≡ Failure.Memory }
    ensures told { Tells (lent E.seen report.old report.new) memory_line }
{
    put(report, &[b"no memory\n"]);
    Failure::Memory
}

pub(crate) fn tell_output<E: Sink>(report: &mut E) {
    put(report, &[b"output\n"]);
}

/// A file could not be read.
pub(crate) fn unread<E: Sink>(report: &mut E, file: &str) -> Failure
    ensures failure { result ≡ Failure.Unread }
    ensures told { Tells (lent E.seen report.old report.new) (unread_line file.now) }
{
    put(report, &[b"store: ", file.as_bytes(), b"\n"]);
    Failure::Unread
}

/// A file has more bytes than a file may have.
pub(crate) fn too_long<E: Sink>(report: &mut E, file: &str) -> Failure
    ensures failure { result ≡ Failure.Unread }
    ensures told { Tells (lent E.seen report.old report.new) (long_line file.now) }
{
    put(report, &[b"too long: ", file.as_bytes(), b"\n"]);
    Failure::Unread
}

/// `FILE: line N: `
fn tell_place<E: Sink>(report: &mut E, file: &str, line: u64)
    ensures told { Tells (lent E.seen report.old report.new) (place_text file.now line) }
    ensures later { (E.seen report.old).faults ≤ (E.seen report.new).faults }
{
    let mut digits = Buffer::new();
    let number = digits.format(line);
    put(
        report,
        &[file.as_bytes(), b": line ", number.as_bytes(), b": "],
    );
}

/// A line of a file is refused, for a reason in words, behind which a column may stand.
pub(crate) fn refused_line<E: Sink>(
    report: &mut E,
    file: &str,
    line: u64,
    words: &str,
    column: &str,
) -> Failure
    ensures failure { result ≡ Failure.Refused }
    ensures told { Tells (lent E.seen report.old report.new) (refused_line file.now line (words.now ++ column.now)) }
    ensures later { (E.seen report.old).faults ≤ (E.seen report.new).faults }
{
    tell_place(report, file, line);
    put(report, &[words.as_bytes(), column.as_bytes(), b"\n"]);
    Failure::Refused
}

/// The name of a file of the feed; that of the operator's is given.
fn name_of<'a>(file: FeedFile, operator: &'a str) -> &'a str
    ensures { result.now ≡ file_name operator.now file }
{
    match file {
        FeedFile::Operator => operator,
        file => file.name(),
    }
}

/// A feed was not read.
pub(crate) fn refused_feed<E: Sink>(report: &mut E, refused: FeedRefused, operator: &str) -> Failure
    ensures failure { result ≡ failure_of_feed refused }
    ensures told { Tells (lent E.seen report.old report.new) (feed_line operator.now refused) }
{
    match refused {
        FeedRefused::Unread(file) => unread(report, name_of(file, operator)),
        FeedRefused::At { file, line, reason } => {
            let (words, column) = reason.words();
            refused_line(report, name_of(file, operator), line, words, column)
        }
        FeedRefused::NoMemory => no_memory(report),
    }
}

/// Another region's file was not taken.
pub(crate) fn refused_file<E: Sink>(report: &mut E, file: &str, refused: FileRefused) -> Failure
    ensures failure { result ≡ failure_of_file refused }
    ensures told { Tells (lent E.seen report.old report.new) (other_line file.now refused) }
{
    match refused {
        FileRefused::Failed => unread(report, file),
        FileRefused::TooLong => too_long(report, file),
        FileRefused::At { line, reason } => refused_line(report, file, line, reason.words(), ""),
        FileRefused::NoMemory => no_memory(report),
    }
}

/// No rule was found whose noons are those of the zone file.
pub(crate) fn no_rule<E: Sink>(report: &mut E, zone: &str, window: Window) -> Failure
    ensures failure { result ≡ Failure.Refused }
    ensures told { Tells (lent E.seen report.old report.new) (no_rule_line zone.now window) }
{
    put(
        report,
        &[
            b"agency.txt: no rule for ",
            zone.as_bytes(),
            b" from ",
            &day_text(window.first),
            b" to ",
            &day_text(window.last),
            b": shorten the window or give --zone\n",
        ],
    );
    Failure::Refused
}

/// The feed does not become a timetable; where a limit is passed, up to which day it would.
pub(crate) fn refused_conversion<E: Sink>(
    report: &mut E,
    feed: &Feed,
    refused: ConvertRefused,
    fits: Option<u32>,
) -> Failure
    ensures failure { result ≡ failure_of_conversion refused }
    ensures told { Tells (lent E.seen report.old report.new) (conversion_lines feed.now.stops.items feed.now.trips.items fits refused) }
{
    match refused {
        ConvertRefused::NoMemory => no_memory(report),
        ConvertRefused::DoubledStops { first, second } => {
            let (one, other) = (stop_id(feed, first), stop_id(feed, second));
            doubled(report, "stops.txt", one, other)
        }
        ConvertRefused::DoubledTrips { first, second } => {
            let (one, other) = (trip_id(feed, first), trip_id(feed, second));
            doubled(report, "trips.txt", one, other)
        }
        ConvertRefused::TooManyJourneys => {
            past_limit(report, b"timetable: more than 20000 journeys\n", fits)
        }
        ConvertRefused::TooManyCalls => {
            past_limit(report, b"timetable: more than 100000 calls\n", fits)
        }
        ConvertRefused::Line { line, reason } => {
            let failure = refused_line(report, "timetable", line, reason.words(), "");
            tell_fit(report, fits);
            failure
        }
    }
}

fn past_limit<E: Sink>(report: &mut E, line: &[u8], fits: Option<u32>) -> Failure
    ensures failure { result ≡ Failure.Refused }
    ensures told { Tells (lent E.seen report.old report.new) (line.now ++ fit_line fits) }
{
    put(report, &[line]);
    tell_fit(report, fits);
    Failure::Refused
}

/// Up to which day the feed would become a timetable.
fn tell_fit<E: Sink>(report: &mut E, fits: Option<u32>)
    ensures told { Tells (lent E.seen report.old report.new) (fit_line fits) }
    ensures later { (E.seen report.old).faults ≤ (E.seen report.new).faults }
{
    match fits {
        Some(day) => put(report, &[b"it fits with --to ", &day_text(day), b"\n"]),
        None => {}
    }
}

fn doubled<E: Sink>(report: &mut E, file: &str, one: &str, other: &str) -> Failure
    ensures failure { result ≡ Failure.Refused }
    ensures told { Tells (lent E.seen report.old report.new) (doubled_line file.now one.now other.now) }
{
    put(
        report,
        &[
            file.as_bytes(),
            b": one label for ",
            one.as_bytes(),
            b" and ",
            other.as_bytes(),
            b"\n",
        ],
    );
    Failure::Refused
}

fn stop_id(feed: &Feed, number: usize) -> &str
    ensures { result.now ≡ stop_id (slice_get feed.now.stops.items number) }
{
    match feed.stops.get(number) {
        Some(stop) => stop.id.as_str(),
        None => "",
    }
}

fn trip_id(feed: &Feed, number: usize) -> &str
    ensures { result.now ≡ trip_id (slice_get feed.now.trips.items number) }
{
    match feed.trips.get(number) {
        Some(trip) => trip.id.as_str(),
        None => "",
    }
}
