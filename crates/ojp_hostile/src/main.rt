//! Uses servers and a gateway in memory. The input is two parts, each under a line of four number signs and its name: `region`
//! is rows of what a region answers (`region.rt`), and `hostile` is texts and rows of what hostile clients and regions might do
//! (`rows.rt`). The stored run has under the same lines what each row gives, worked out by hand from the definitions.
#![tactic(auto)]

mod connections;
mod gates;
mod polls;
mod region;
mod rows;
mod searches;
mod tables;
mod tallies;
mod texts;
mod waits;

use ojp_links::Runtime;
use ojp_outside::{Source, StdSource, read_all};
use std::process::ExitCode;
use std::str;

/// The most bytes of the input.
const MOST: usize = 1 << 24;

/// What heads the rows of a region.
const REGION: &str = "#### region\n";

/// What heads the texts and rows of hostile clients and regions.
const HOSTILE: &str = "#### hostile\n";

fn main(rt: HostRuntime) -> ExitCode {
    let mut input = StdSource::new(rt.stdin());
    match run(&rt, &mut input) {
        Some(()) => ExitCode::SUCCESS,
        None => ExitCode::FAILURE,
    }
}

/// Writes what each row of the input gives; none where one is no row, or reading, writing or memory fails.
fn run<R: AllocGlobal + Print + Runtime, I: Source>(rt: &R, input: &mut I) -> Option<()> {
    let text = read_all(rt.alloc(), input, MOST).ok()?;
    let text = str::from_utf8(text.as_slice()).ok()?;
    let (rows, texts) = text.strip_prefix(REGION)?.split_once(HOSTILE)?;
    print!(rt; "{REGION}").ok()?;
    region::tell_rows(rt, rows)?;
    print!(rt; "{HOSTILE}").ok()?;
    rows::tell_texts(rt, texts)
}
