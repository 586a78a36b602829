//! Runs of the commands that may wait, over doors and links in memory.

ghost use Rattle.std.specs.Prelude.{◌≡◌, [], IfSome, None, false, map};
ghost use Rattle.ojp_links.specs.Seen.{AreDistinct, NoneLive, region_of_table};

mod connections;

use crate::command::{Command, command_of};
use crate::net::connections::connections_of;
use crate::outcome::Outcome;
use crate::row::{BETWEEN, Row, file_of, row_of};
use ojp_cli::run_net;
use ojp_links::{Runtime, WaitLinks};
use ojp_links_mem::MemLinks;
use ojp_outside::{Doors, MemDoors, MemSink};
use ojp_timetable::Timetable;
use std::alloc::Global;
use std::str;

/// The files of regions: one region, one whose server is not there, and both.
const REGION_FILES: [(&str, &str); 3] = [
    ("r.txt", "AA AA 9001\n"),
    ("z.txt", "ZZ ZZ 9001\n"),
    ("two.txt", "AA AA 9001\nAA ZZ 9002\n"),
];

/// A row: its command, its files, and what it sends. In place of connections, a row of `ask` has its input.
#[derive(Drop)]
struct Run<'a> {
    command: Command,
    files: &'a str,
    input: &'a str,
    connections: &'a str,
}

fn run_of(alloc: Global, row: &str) -> Option<Run<'_>> {
    let Row { line, files, sent } = row_of(row)?;
    let (input, connections) = if line.starts_with("ask ") {
        (sent.strip_suffix("\n")?, "")
    } else {
        ("", sent)
    };
    Some(Run {
        command: command_of(alloc, line)?,
        files,
        input,
        connections,
    })
}

/// Tells what comes of each row.
pub fn tell_rows<R: Runtime>(host: &HostRuntime, waiting: &mut R, rows: &str) -> Option<()> {
    for row in rows.split(BETWEEN) {
        tell_row(host, waiting, row)?;
    }
    Some(())
}

fn tell_row<R: Runtime>(host: &HostRuntime, waiting: &mut R, row: &str) -> Option<()> {
    let run = run_of(host.alloc(), row)?;
    tell_run(host, waiting, &run)
}

/// Runs the words of a row over its timetable file and its connections, parted by lines of four hyphens, and writes what the
/// run gave and each response.
fn tell_run<R: Runtime>(host: &HostRuntime, waiting: &mut R, run: &Run<'_>) -> Option<()> {
    let alloc = host.alloc();
    let connections = connections_of(alloc, run.connections)?;
    let mut doors = run.command.doors_of(alloc, connections)?;
    let told = tell_over(host, waiting, run, &mut doors);
    drop(doors);
    told
}

fn tell_over<R: Runtime>(
    host: &HostRuntime,
    waiting: &mut R,
    run: &Run<'_>,
    doors: &mut MemDoors,
) -> Option<()>
    requires { doors.old.out ≡ None }
{
    outcome_of(host.alloc(), waiting, run, doors)?.tell(host)?;
    tell_responses(host, doors)
}

/// Writes what each connection was answered that came back.
fn tell_responses(host: &HostRuntime, doors: &MemDoors) -> Option<()> {
    for i in 0..doors.returned() {
        let response = str::from_utf8(doors.written(i)).ok()?;
        println!(host; "{response}").ok()?;
    }
    Some(())
}

/// What a run gives. Each region is served by the timetable of the file whose code is the host.
fn outcome_of<R: Runtime>(
    alloc: Global,
    waiting: &mut R,
    run: &Run<'_>,
    doors: &mut MemDoors,
) -> Option<Outcome>
    requires { doors.old.out ≡ None }
{
    let tables = tables_of(alloc, run.files)?;
    let Ok(mut links) = MemLinks::unopened(alloc, tables, 0) else {
        return None;
    };
    let outcome = outcome_over(alloc, waiting, run, doors, &mut links);
    drop(links);
    outcome
}

fn outcome_over<R: Runtime, D: Doors, L: WaitLinks>(
    alloc: Global,
    waiting: &mut R,
    run: &Run<'_>,
    doors: &mut D,
    links: &mut L,
) -> Option<Outcome>
    requires none_out { (D.seen doors.old).is_out ≡ false }
    requires none { (L.seen links.old).fixed.stations ≡ [] }
    requires none_live { NoneLive (L.seen links.old) }
{
    let mut input = run.command.input_of(alloc, run.input)?;
    let mut output = run.command.empty_output(alloc)?;
    let files = files_of(alloc, run.files)?;
    let mut store = run.command.store_of(alloc, files)?;
    let mut faults = MemSink::new(alloc, Vec::new(alloc));
    let status = run_net(
        waiting,
        alloc,
        &run.command.words,
        &mut input,
        &mut output,
        &mut faults,
        &mut store,
        doors,
        links,
    );
    Some(Outcome {
        status,
        output,
        faults,
    })
}

/// The timetable of the text; none where it is not one.
fn tables_of(alloc: Global, text: &str) -> Option<Vec<Timetable>>
    ensures { IfSome result (λ tables. AreDistinct (map region_of_table tables.items)) }
{
    let mut tables = Vec::new(alloc);
    if let Ok(table) = Timetable::read(alloc, text.as_bytes()) {
        let Ok(()) = tables.push(table) else {
            return None;
        };
    }
    Some(tables)
}

/// The timetable file, and the files of regions.
fn files_of(alloc: Global, table: &str) -> Option<Vec<(String, Vec<u8>)>> {
    let mut files = Vec::new(alloc);
    files.push(file_of(alloc, "a.tt", table)?).ok()?;
    for (name, text) in REGION_FILES {
        files.push(file_of(alloc, name, text)?).ok()?;
    }
    Some(files)
}
