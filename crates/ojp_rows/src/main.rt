//! Tells rows of what the layers below the commands do. The input is sections, each headed by a line `#### NAME`; the
//! module of a section says what its rows are. The stored run has the same headings, and below each what comes of its
//! rows, worked out by hand.
#![tactic(auto)]

mod boards;
mod calendars;
mod feeds;
mod links;
mod parts;
mod scans;
mod sections;
mod sockets;
mod tables;
mod words;

use crate::sections::{Host, Section};
use ojp_outside::{Source, StdSource, read_all};
use std::process::ExitCode;
use std::str;

/// The most bytes of all rows.
const MOST: usize = 1 << 24;

/// What stands before the name of a section.
const HEADING: &str = "#### ";

fn main(rt: HostRuntime) -> ExitCode {
    let mut input = StdSource::new(rt.stdin());
    match run(&rt, &mut input) {
        Some(()) => ExitCode::SUCCESS,
        None => ExitCode::FAILURE,
    }
}

/// Writes what comes of each row of the input; none where one is no row, or reading, writing or memory fails.
fn run<R: Host, I: Source>(rt: &R, input: &mut I) -> Option<()> {
    let text = read_all(rt.alloc(), input, MOST).ok()?;
    let text = str::from_utf8(text.as_slice()).ok()?;
    for section in text.strip_prefix(HEADING)?.split(HEADING) {
        tell_section(rt, section)?;
    }
    Some(())
}

/// Writes the heading of a section, and what comes of each of its rows.
fn tell_section<R: Host>(rt: &R, section: &str) -> Option<()> {
    let (name, rows) = section.split_once("\n")?;
    println!(rt; "{HEADING}{name}").ok()?;
    let section = Section::named(name)?;
    let end = section.row_end();
    for row in rows.strip_suffix(end).unwrap_or(rows).split(end) {
        section.tell(rt, row)?;
    }
    Some(())
}
