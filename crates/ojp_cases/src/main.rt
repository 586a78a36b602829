//! Tries the tables of `ojp_vectors` in pieces of three lengths: a line a table and length says that each case
//! holds, or the number of the first that does not.
#![tactic(auto)]

use ojp_vectors::shipped::{choice_cases, field_cases, reason_cases};
use std::process::ExitCode;

fn main(rt: HostRuntime) -> ExitCode {
    match run(&rt) {
        Some(()) => ExitCode::SUCCESS,
        None => ExitCode::FAILURE,
    }
}

/// Tries each table; none where writing or memory fails.
fn run(rt: &HostRuntime) -> Option<()> {
    for piece in [1, 7, 512] {
        tell(
            rt,
            "choices",
            piece,
            choice_cases().wrong(rt.alloc(), piece).ok()?,
        )?;
        tell(
            rt,
            "fields",
            piece,
            field_cases().wrong(rt.alloc(), piece).ok()?,
        )?;
        tell(
            rt,
            "reasons",
            piece,
            reason_cases().wrong(rt.alloc(), piece).ok()?,
        )?;
    }
    Some(())
}

/// Writes the outcome of a table.
fn tell(rt: &HostRuntime, table: &str, piece: usize, wrong: Option<usize>) -> Option<()> {
    match wrong {
        None => println!(rt; "{table} {piece} hold").ok(),
        Some(case) => println!(rt; "{table} {piece} wrong {case}").ok(),
    }
}
