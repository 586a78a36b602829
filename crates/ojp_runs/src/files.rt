//! Runs over real files.

use crate::command::words_of;
use crate::outcome::{Outcome, PIECE, outcome_here};
use ojp_outside::{FileStore, MemSink, MemSource, Store};
use std::str;

/// Writes the output of each row, and ends the line; none where a status is not 0. A row is a line: the words, and behind
/// a less-than sign the file of the input.
pub fn tell_rows(host: &HostRuntime, rows: &str) -> Option<()> {
    for row in rows.lines() {
        let outcome = outcome_of(host, row)?;
        tell_output(host, &outcome)?;
    }
    Some(())
}

fn tell_output(host: &HostRuntime, outcome: &Outcome) -> Option<()> {
    if outcome.status != 0 {
        return None;
    }
    let output = str::from_utf8(outcome.output.written()).ok()?;
    println!(host; "{output}").ok()
}

fn outcome_of(host: &HostRuntime, row: &str) -> Option<Outcome> {
    let alloc = host.alloc();
    let (words, input) = row.split_once(" < ")?;
    let words = words_of(alloc, words)?;
    let mut store = FileStore::new(host.clone().ok()?);
    let input = store.read_file(alloc, input).ok()?;
    let input = MemSource::new(input, PIECE, Vec::new(alloc));
    let output = MemSink::new(alloc, Vec::new(alloc));
    Some(outcome_here(alloc, &words, store, input, output))
}
