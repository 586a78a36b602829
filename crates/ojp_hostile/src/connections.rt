//! Connections to a server, some of whose calls fail.

ghost use Rattle.std.specs.Prelude.{◌<◌};
ghost use Rattle.ojp_links.specs.Seen.{NoneLive};
ghost use Rattle.ojp_links_mem.specs.Memory.{links_of};

use crate::gates::{learned, links_to, serve_by_waits, serve_resting};
use crate::tallies::Tally;
use ojp_http::Served;
use ojp_links::Runtime;
use ojp_links_mem::MemLinks;
use ojp_outside::{MemSink, MemSource};
use ojp_region::serve_one;
use ojp_scan::Scan;
use ojp_timetable::Timetable;
use std::alloc::Global;
use std::str;

/// The most bytes of a read.
pub(crate) const PIECE: usize = 64;

/// The number of calls that no connection here reaches.
const CALLS: u64 = 100;

/// Who serves.
#[derive(Clone, Copy)]
pub(crate) enum Server {
    /// The region, by its timetable.
    Region,
    Gateway(Pace),
}

/// What a gateway does after a turn.
#[derive(Clone, Copy)]
pub(crate) enum Pace {
    Rests,
    /// It waits where nothing came.
    Waits,
}

/// The numbers of the read and of the write that fail; 0 where none does.
#[derive(Clone, Copy)]
pub(crate) struct Failing {
    pub read: u64,
    pub write: u64,
}

/// How a connection was served, and what was written to it.
#[derive(Drop)]
pub(crate) struct Outcome {
    pub served: Served,
    pub output: MemSink,
}

impl Outcome {
    /// Whether the other connection was served alike.
    pub fn is_same_as(&self, other: &Outcome) -> bool {
        self.served == other.served && self.output.written() == other.output.written()
    }
}

/// That no call fails.
pub(crate) const NONE_FAILS: Failing = Failing { read: 0, write: 0 };

/// Both ends of a connection on which these bytes come, at most `most` by a read.
pub(crate) fn connection(
    alloc: Global,
    bytes: &[u8],
    most: usize,
    failing: Failing,
) -> Option<(MemSource, MemSink)>
    requires { 0 < most }
{
    let bytes = Vec::from_slice(alloc, bytes).ok()?;
    let reads = Vec::from_slice(alloc, &[failing.read]).ok()?;
    let writes = Vec::from_slice(alloc, &[failing.write]).ok()?;
    let input = MemSource::new(bytes, most, reads);
    Some((input, MemSink::new(alloc, writes)))
}

/// How a server with the timetables serves the bytes.
pub(crate) fn outcome_of<R: Runtime>(
    rt: &R,
    alloc: Global,
    server: Server,
    tables: &str,
    bytes: &[u8],
    failing: Failing,
) -> Option<Outcome> {
    let (mut input, mut output) = connection(alloc, bytes, PIECE, failing)?;
    let served = serve(rt, alloc, server, tables, &mut input, &mut output)?;
    Some(Outcome { served, output })
}

/// How the server serves the connection.
fn serve<R: Runtime>(
    rt: &R,
    alloc: Global,
    server: Server,
    tables: &str,
    input: &mut MemSource,
    output: &mut MemSink,
) -> Option<Served> {
    let pace = match server {
        Server::Region => return by_region(alloc, tables, input, output),
        Server::Gateway(pace) => pace,
    };
    let mut links = links_to(alloc, tables, 0, 0, Vec::new(alloc))?;
    let served = serve_over(rt, alloc, pace, &mut links, input, output);
    drop(links);
    served
}

/// How the region of the timetable serves the connection.
pub(crate) fn by_region(
    alloc: Global,
    table: &str,
    input: &mut MemSource,
    output: &mut MemSink,
) -> Option<Served> {
    let Ok(table) = Timetable::read(alloc, table.as_bytes()) else {
        return None;
    };
    let served = by_table(alloc, &table, input, output);
    drop(table);
    served
}

fn by_table(
    alloc: Global,
    table: &Timetable,
    input: &mut MemSource,
    output: &mut MemSink,
) -> Option<Served> {
    let Ok(mut scan) = Scan::new(alloc, table) else {
        return None;
    };
    let served = serve_one(alloc, table, &mut scan, input, output);
    drop(scan);
    Some(served)
}

/// How a gateway that learns its book over the links serves the connection.
fn serve_over<R: Runtime>(
    rt: &R,
    alloc: Global,
    pace: Pace,
    links: &mut MemLinks,
    input: &mut MemSource,
    output: &mut MemSink,
) -> Option<Served>
    requires { NoneLive (links_of links.old) }
{
    let book = learned(alloc, links)?;
    let served = match pace {
        Pace::Rests => serve_resting(alloc, &book, links, input, output),
        Pace::Waits => serve_by_waits(rt, alloc, &book, links, input, output),
    };
    drop(book);
    Some(served)
}

/// The body of a response.
pub(crate) fn body_of(output: &MemSink) -> Option<&str> {
    let (_, body) = text_of(output)?.split_once("\r\n\r\n")?;
    Some(body)
}

/// What was written, as text.
pub(crate) fn text_of(output: &MemSink) -> Option<&str> {
    match str::from_utf8(output.written()) {
        Ok(text) => Some(text),
        Err(_) => None,
    }
}

/// Each read up to the last one fails in turn, and nothing is written then.
pub(crate) fn failed_reads<R: Runtime>(
    rt: &R,
    alloc: Global,
    server: Server,
    tables: &str,
    bytes: &[u8],
) -> Option<Tally> {
    let mut tally = Tally::new();
    for read in 1..CALLS {
        let failing = Failing { read, write: 0 };
        let outcome = outcome_of(rt, alloc, server, tables, bytes, failing)?;
        if outcome.served == Served::Answered(200) {
            break;
        }
        let is_nothing = outcome.output.written().is_empty();
        tally.count(read, outcome.served == Served::ReadFault && is_nothing);
    }
    Some(tally)
}

/// Each write fails in turn, and a prefix of the response is written then.
pub(crate) fn failed_writes<R: Runtime>(
    rt: &R,
    alloc: Global,
    server: Server,
    tables: &str,
    bytes: &[u8],
) -> Option<Tally> {
    let whole = outcome_of(rt, alloc, server, tables, bytes, NONE_FAILS)?;
    let mut tally = Tally::new();
    for write in 1..CALLS {
        let failing = Failing { read: 0, write };
        let outcome = outcome_of(rt, alloc, server, tables, bytes, failing)?;
        if outcome.served == Served::Answered(200) {
            break;
        }
        let is_prefix = is_proper_prefix(outcome.output.written(), whole.output.written());
        tally.count(write, outcome.served == Served::WriteFault && is_prefix);
    }
    Some(tally)
}

fn is_proper_prefix(part: &[u8], whole: &[u8]) -> bool {
    part.len() < whole.len() && whole.starts_with(part)
}

/// The bytes are cut at each length below their whole, and the request is refused as cut.
pub(crate) fn cuts<R: Runtime>(
    rt: &R,
    alloc: Global,
    server: Server,
    tables: &str,
    bytes: &[u8],
) -> Option<Tally> {
    let mut tally = Tally::new();
    for length in 0..bytes.len() {
        let outcome = outcome_of(rt, alloc, server, tables, &bytes[..length], NONE_FAILS)?;
        let is_cut = body_of(&outcome.output)? == "Cut\n";
        tally.count(
            length as u64,
            outcome.served == Served::Answered(400) && is_cut,
        );
    }
    Some(tally)
}
