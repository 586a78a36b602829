//! Runs the commands of `ojp` and `ojp_gtfs`: standard input is parted into sections, each under a line of four number signs
//! and its kind. Its stored run has what each run of a section gave, under the same line.
#![tactic(auto)]

mod command;
mod files;
mod gtfs;
mod here;
mod loads;
mod net;
mod outcome;
mod row;

use ojp_links::Runtime;
use ojp_outside::{StdSource, read_all};
use std::process::ExitCode;
use std::str;

/// The most bytes of all sections.
const MOST: usize = 1 << 24;

/// What heads a section; it stands nowhere else.
const HEAD: &str = "#### ";

fn main(mut rt: HostRuntime) -> ExitCode {
    let Ok(host) = rt.clone() else {
        return ExitCode::FAILURE;
    };
    match run(&host, &mut rt) {
        Some(()) => ExitCode::SUCCESS,
        None => ExitCode::FAILURE,
    }
}

/// Tells each section; none where one is no section, or reading, writing or memory fails. The commands that may wait do it by
/// the second runtime.
fn run<R: Runtime>(host: &HostRuntime, waiting: &mut R) -> Option<()> {
    let mut input = StdSource::new(host.stdin());
    let bytes = read_all(host.alloc(), &mut input, MOST).ok()?;
    let sections = str::from_utf8(bytes.as_slice()).ok()?.strip_prefix(HEAD)?;
    for section in sections.split(HEAD) {
        let (kind, rows) = section.split_once("\n")?;
        println!(host; "{HEAD}{kind}").ok()?;
        tell_section(host, waiting, kind, rows)?;
    }
    Some(())
}

/// Tells what each row of a section of this kind gives.
fn tell_section<R: Runtime>(
    host: &HostRuntime,
    waiting: &mut R,
    kind: &str,
    rows: &str,
) -> Option<()> {
    match kind {
        "files" => files::tell_rows(host, rows),
        "here" => here::tell_rows(host, rows),
        "net" => net::tell_rows(host, waiting, rows),
        "load" => loads::tell_rows(host, rows),
        "gtfs" => gtfs::tell_rows(host, rows),
        _ => None,
    }
}
