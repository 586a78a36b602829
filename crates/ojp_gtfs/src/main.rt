//! The program `ojp_gtfs`: it makes the real folder, files and streams, and calls the top call.
#![tactic(auto)]

use ojp_feed_lines::SystemFolder;
use ojp_gtfs_cli::run;
use ojp_outside::{FileStore, StdSink, put_all};
use std::io::ErrorKind;
use std::process::ExitCode;
use std::{env, io};

/// Where the system keeps its zone files.
const ZONEINFO: &str = "/usr/share/zoneinfo";

/// The status and the line for want of memory.
const NO_MEMORY: (u8, &[u8]) = (5, b"no memory\n");

fn main(rt: HostRuntime) -> ExitCode {
    let mut report = StdSink::new(rt.stderr());
    match convert(&rt, &mut report) {
        Ok(status) => ExitCode::from(status),
        Err(_) => {
            let _ = put_all(&mut report, NO_MEMORY.1);
            ExitCode::from(NO_MEMORY.0)
        }
    }
}

/// Runs the words behind the program's name over the folder that the first of them names.
fn convert(rt: &HostRuntime, report: &mut StdSink<io::Stderr>) -> io::Result<u8> {
    let alloc = rt.alloc();
    let words = words_of(rt)?;
    let path = match words.first() {
        Some(word) => String::from_str(alloc, word.as_str())?,
        None => String::new(alloc),
    };
    let mut folder = SystemFolder::new(rt.clone()?, path);
    let mut store = FileStore::new(rt.clone()?);
    let mut output = StdSink::new(rt.stdout());
    Ok(run(
        alloc,
        &words,
        ZONEINFO,
        &mut folder,
        &mut store,
        &mut output,
        report,
    ))
}

/// The words; where they can't be had as text the list is empty, and the top call refuses it.
fn words_of(rt: &HostRuntime) -> io::Result<Vec<String>> {
    match read_words(rt) {
        Ok(words) => Ok(words),
        Err(error) => match error.kind() {
            ErrorKind::OutOfMemory => Err(error),
            _ => Ok(Vec::new(rt.alloc())),
        },
    }
}

fn read_words(rt: &HostRuntime) -> io::Result<Vec<String>> {
    let mut words = Vec::new(rt.alloc());
    for word in env::args(rt)?.skip(1) {
        words.push(word)?;
    }
    Ok(words)
}
