//! Measures the writer and the readers over documents and messages in memory, and what a region does once over the largest
//! timetable: `ojp_bench WORK ROUNDS`, where `all` stands for every work. What a round made goes to standard output, its
//! processor time to standard error.
#![tactic(auto)]

mod inputs;
mod lists;
mod tables;
mod texts;
mod timing;
mod work;

use crate::inputs::Inputs;
use crate::tables::{joins, scans};
use crate::timing::now;
use crate::work::{Work, is_read_again};
use std::env;
use std::process::ExitCode;

fn main(rt: HostRuntime) -> ExitCode {
    match run(&rt) {
        Some(()) => ExitCode::SUCCESS,
        None => ExitCode::FAILURE,
    }
}

/// Does each work that the first word names as often as the second says.
fn run(rt: &HostRuntime) -> Option<()> {
    let mut words = env::args(rt).ok()?.skip(1);
    let name = words.next()?;
    let rounds = words.next()?.parse::<u32>().ok()?;
    match name.as_str() {
        "scan" => scans(rt, rounds),
        "join" => joins(rt, rounds),
        "all" => {
            measure_named(rt, "all", rounds)?;
            scans(rt, rounds)?;
            joins(rt, rounds)
        }
        name => measure_named(rt, name, rounds),
    }
}

/// Does each work over documents and messages that the name stands for so often.
fn measure_named(rt: &HostRuntime, name: &str, rounds: u32) -> Option<()> {
    let inputs = Inputs::new(rt.alloc())?;
    let told = measure_over(rt, name, rounds, &inputs);
    drop(inputs);
    told
}

/// Tells whether the delivery is read again, and does each work that the name stands for so often.
fn measure_over(rt: &HostRuntime, name: &str, rounds: u32, inputs: &Inputs) -> Option<()> {
    let is_same = is_read_again(rt.alloc(), inputs)?;
    println!(rt; "read again {is_same}").ok()?;
    for work in Work::ALL {
        if name == "all" || name == work.name() {
            measure(rt, work, rounds, inputs)?;
        }
    }
    Some(())
}

/// Does the work so often, and tells its bytes and its time.
fn measure(rt: &HostRuntime, work: Work, rounds: u32, inputs: &Inputs) -> Option<()> {
    let mut bytes = 0;
    let begin = now(rt)?;
    for _ in 0..rounds {
        bytes = work.once(rt.alloc(), inputs)?;
    }
    let spent = now(rt)?.saturating_sub(begin);
    let name = work.name();
    println!(rt; "{name} {bytes}").ok()?;
    if rounds > 0 {
        let micros = spent.as_micros() / u128::from(rounds);
        eprintln!(rt; "{name}: {micros} microseconds a round").ok()?;
    }
    Some(())
}
