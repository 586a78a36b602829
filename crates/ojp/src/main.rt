//! The program `ojp`: it makes the real streams, files, doors, links and words, and calls a top call.
#![tactic(auto)]

use ojp_cli::{run_here, run_net};
use ojp_links_mem::FileLinks;
use ojp_links_net::NetLinks;
use ojp_outside::{FileStore, StdClock, StdSink, StdSource, TcpDoors, put_all};
use std::io::ErrorKind;
use std::process::ExitCode;
use std::{env, io};

/// The status and the line for want of memory.
const NO_MEMORY: (u8, &[u8]) = (5, b"no memory\n");

fn main(mut rt: HostRuntime) -> ExitCode {
    let alloc = rt.alloc();
    let mut input = StdSource::new(rt.stdin());
    let mut output = StdSink::new(rt.stdout());
    let mut faults = StdSink::new(rt.stderr());
    let (Some(words), Ok(parts)) = (words_of(&rt), parts_of(&rt)) else {
        let _ = put_all(&mut faults, NO_MEMORY.1);
        return ExitCode::from(NO_MEMORY.0);
    };
    let mut store = FileStore::new(parts.files);
    let status = match words.first() {
        Some(word) if may_wait(word.as_str()) => {
            let mut doors = TcpDoors::new(parts.doors);
            let clock = StdClock::new(parts.clock);
            let mut links = NetLinks::new(alloc, parts.links, clock);
            run_net(
                &mut rt,
                alloc,
                &words,
                &mut input,
                &mut output,
                &mut faults,
                &mut store,
                &mut doors,
                &mut links,
            )
        }
        _ => {
            let mut files = FileLinks::new(alloc, store);
            run_here(
                alloc,
                &words,
                &mut input,
                &mut output,
                &mut faults,
                &mut files,
            )
        }
    };
    ExitCode::from(status)
}

/// The command of the word may wait.
fn may_wait(word: &str) -> bool {
    word == "region" || word == "gateway" || word == "ask"
}

/// What the files, the doors, the links and their clock each run by.
#[derive(Drop)]
struct Parts {
    files: HostRuntime,
    doors: HostRuntime,
    links: HostRuntime,
    clock: HostRuntime,
}

fn parts_of(rt: &HostRuntime) -> io::Result<Parts> {
    Ok(Parts {
        files: rt.clone()?,
        doors: rt.clone()?,
        links: rt.clone()?,
        clock: rt.clone()?,
    })
}

/// The words behind the program's name; none where memory ran out. Where they can't be had as text the list is empty, and the
/// top call refuses it.
fn words_of(rt: &HostRuntime) -> Option<Vec<String>> {
    match read_words(rt) {
        Ok(words) => Some(words),
        Err(error) => match error.kind() {
            ErrorKind::OutOfMemory => None,
            _ => Some(Vec::new(rt.alloc())),
        },
    }
}

fn read_words(rt: &HostRuntime) -> io::Result<Vec<String>> {
    let mut words = Vec::new(rt.alloc());
    for word in env::args(rt)?.skip(1) {
        words.push(word)?;
    }
    Ok(words)
}
