//! Runs of `ojp_gtfs` over the sample feed in memory, each with an edit: of each are told the status, what became of the
//! output, and the report.

mod edits;
mod rows;

use crate::command::words_of;
use crate::gtfs::edits::edited;
use crate::gtfs::rows::{Row, row_of};
use ojp_feed_lines::{MemFile, MemFolder};
use ojp_gtfs_cli::run;
use ojp_outside::{FileStore, MemSink, Store};
use std::alloc::Global;
use std::str;

/// The files of the sample.
const FILES: [&str; 8] = [
    "agency.txt",
    "stops.txt",
    "routes.txt",
    "trips.txt",
    "stop_times.txt",
    "calendar.txt",
    "calendar_dates.txt",
    "frequencies.txt",
];

/// Tells what becomes of each row, which is a line.
pub fn tell_rows(host: &HostRuntime, rows: &str) -> Option<()> {
    let alloc = host.alloc();
    let mut store = FileStore::new(host.clone().ok()?);
    let expected = store.read_file(alloc, "region.tt").ok()?;
    for line in rows.lines() {
        let row = row_of(line)?;
        tell(host, alloc, &row, &mut store, expected.as_slice())?;
    }
    Some(())
}

/// Tells what becomes of the row.
fn tell<S: Store>(
    host: &HostRuntime,
    alloc: Global,
    row: &Row<'_>,
    store: &mut S,
    expected: &[u8],
) -> Option<()> {
    let words = words_of(alloc, row.words)?;
    let mut folder = folder_of(alloc, row, store)?;
    let mut output = MemSink::new(alloc, Vec::new(alloc));
    let mut report = MemSink::new(alloc, Vec::new(alloc));
    let status = run(
        alloc,
        &words,
        "zoneinfo",
        &mut folder,
        store,
        &mut output,
        &mut report,
    );
    let written = written_as(output.written(), expected);
    tell_report(host, row.name, status, written, report.written())
}

fn tell_report(
    host: &HostRuntime,
    name: &str,
    status: u8,
    written: &str,
    report: &[u8],
) -> Option<()> {
    let report = str::from_utf8(report).ok()?;
    println!(host; "{name}: status {status}, {written}\n{report}").ok()
}

/// What became of the output.
fn written_as(output: &[u8], expected: &[u8]) -> &'static str {
    if output.is_empty() {
        "nothing written"
    } else if output == expected {
        "the sample's timetable"
    } else {
        "another timetable"
    }
}

/// The sample's files, one of them as the row has it.
fn folder_of<S: Store>(alloc: Global, row: &Row<'_>, store: &mut S) -> Option<MemFolder> {
    let mut files = Vec::new(alloc);
    for name in FILES {
        if name != row.file || row.old != "-" {
            files.push(file_of(alloc, row, name, store)?).ok()?;
        }
    }
    if row.old == "*" && !FILES.contains(&row.file) {
        files
            .push(MemFile {
                name: String::from_str(alloc, row.file).ok()?,
                bytes: edited(alloc, b"", row)?,
                breaks: false,
            })
            .ok()?;
    }
    Some(MemFolder::new(files))
}

/// A file of the sample, edited where it is the row's.
fn file_of<S: Store>(alloc: Global, row: &Row<'_>, name: &str, store: &mut S) -> Option<MemFile> {
    let mut path = String::from_str(alloc, "feed/").ok()?;
    path.push_str(name).ok()?;
    let bytes = store.read_file(alloc, path.as_str()).ok()?;
    if name != row.file {
        return Some(MemFile {
            name: String::from_str(alloc, name).ok()?,
            bytes,
            breaks: false,
        });
    }
    Some(MemFile {
        name: String::from_str(alloc, name).ok()?,
        bytes: edited(alloc, bytes.as_slice(), row)?,
        breaks: row.old == "!",
    })
}
