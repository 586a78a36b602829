//! Runs of the commands that wait for nobody, over files in memory.

mod questions;

use crate::command::{Command, command_of};
use crate::here::questions::answers;
use crate::outcome::{Outcome, outcome_here};
use crate::row::{BETWEEN, file_of, row_of};
use std::alloc::Global;

/// Tells what comes of each row.
pub fn tell_rows(host: &HostRuntime, rows: &str) -> Option<()> {
    for row in rows.split(BETWEEN) {
        tell_row(host, row)?;
    }
    Some(())
}

/// Tells what comes of a row. Its first line says what is tried: a run of its words, or the same over each front of the
/// input, or the questions to the timetable.
fn tell_row(host: &HostRuntime, row: &str) -> Option<()> {
    let alloc = host.alloc();
    let row = row_of(row)?;
    let input = row.sent.strip_suffix("\n")?;
    match row.line {
        "cuts" => tell_held(host, are_cut(alloc, row.files, input)?),
        "questions" => tell_held(host, answers(alloc, row.files)?),
        line => outcome_of(alloc, line, row.files, input)?.tell(host),
    }
}

fn tell_held(host: &HostRuntime, holds: bool) -> Option<()> {
    let word = if holds { "holds" } else { "fails" };
    println!(host; "{word}").ok()
}

/// Runs the words of the line over a store with these files, and over this input.
fn outcome_of(alloc: Global, line: &str, files: &str, input: &str) -> Option<Outcome> {
    let command = command_of(alloc, line)?;
    outcome_by(alloc, &command, files, input)
}

fn outcome_by(alloc: Global, command: &Command, files: &str, input: &str) -> Option<Outcome> {
    if !command.doors.is_empty() {
        return None;
    }
    let input = command.input_of(alloc, input)?;
    let output = command.empty_output(alloc)?;
    let store = command.store_of(alloc, files_of(alloc, files)?)?;
    Some(outcome_here(alloc, &command.words, store, input, output))
}

/// The files of a row: the first is `a.tt`, and each other one follows its name behind four plus signs.
fn files_of(alloc: Global, files: &str) -> Option<Vec<(String, Vec<u8>)>> {
    let mut named = Vec::new(alloc);
    let mut parts = files.split("++++ ");
    named.push(file_of(alloc, "a.tt", parts.next()?)?).ok()?;
    for part in parts {
        let (name, text) = part.split_once("\n")?;
        named.push(file_of(alloc, name, text)?).ok()?;
    }
    Some(named)
}

/// Whether `plan a.tt` ends with status 1 and no output over each front of the input.
fn are_cut(alloc: Global, files: &str, input: &str) -> Option<bool> {
    for end in 0..input.len() {
        let outcome = outcome_of(alloc, "plan a.tt", files, input.get(..end)?)?;
        if !is_refused(&outcome) {
            return Some(false);
        }
    }
    Some(true)
}

fn is_refused(outcome: &Outcome) -> bool {
    outcome.status == 1 && outcome.output.written().is_empty()
}
