//! Rows of what a region answers over HTTP: a timetable, a line of four hyphens, and the body of a request. A row is told
//! by its response to the body with its length, and by whether the body in one chunk, read byte by byte, has the same.
//! Behind the word `raw` stand the lines of a head, which is the whole of what is sent; behind `fails`, the read or the
//! write that fails, and the body.

ghost use Rattle.std.specs.Prelude.{◌<◌};

use crate::connections::{Failing, NONE_FAILS, Outcome, by_region, connection, text_of};
use ojp_http::request;
use ojp_values::read_number;
use std::alloc::Global;

/// Writes what comes of each row.
pub(crate) fn tell_rows<R: AllocGlobal + Print>(rt: &R, rows: &str) -> Option<()> {
    for row in rows.split("====\n") {
        tell_row(rt, row)?;
    }
    Some(())
}

fn tell_row<R: AllocGlobal + Print>(rt: &R, row: &str) -> Option<()> {
    let alloc = rt.alloc();
    let (table, body) = row.split_once("----\n")?;
    if let Some(head) = body.strip_prefix("raw\n") {
        return tell_outcome(rt, &by_head(alloc, table, head)?);
    }
    if let Some(call) = body.strip_prefix("fails ") {
        return tell_outcome(rt, &by_fault(alloc, table, call)?);
    }
    tell_body(rt, table, body.strip_suffix("\n")?)
}

/// Writes how a connection ended, and what was written to it.
fn tell_outcome<R: Print>(rt: &R, outcome: &Outcome) -> Option<()> {
    let served = outcome.served;
    let text = text_of(&outcome.output)?;
    println!(rt; "{served:?}\n{text}").ok()
}

/// Writes the response to the body with its length, and whether the body in one chunk has the same.
fn tell_body<R: AllocGlobal + Print>(rt: &R, table: &str, body: &str) -> Option<()> {
    let outcome = by_length(rt.alloc(), table, body)?;
    tell_both(rt, table, body, &outcome)
}

fn tell_both<R: AllocGlobal + Print>(
    rt: &R,
    table: &str,
    body: &str,
    outcome: &Outcome,
) -> Option<()> {
    tell_outcome(rt, outcome)?;
    let is_same = by_chunk(rt.alloc(), table, body)?.is_same_as(outcome);
    println!(rt; "in a chunk {is_same}").ok()
}

/// How the head of these lines, or nothing where there is none, is served.
fn by_head(alloc: Global, table: &str, head: &str) -> Option<Outcome> {
    let mut bytes = Vec::new(alloc);
    for line in head.lines() {
        bytes.extend_from_slice(line.as_bytes()).ok()?;
        bytes.extend_from_slice(b"\r\n").ok()?;
    }
    outcome_of(alloc, table, bytes.as_slice(), 1, NONE_FAILS)
}

/// How a body is served in reads of at most 100 bytes where a call fails, which the first line names as `read 2`
/// or `write 1`.
fn by_fault(alloc: Global, table: &str, row: &str) -> Option<Outcome> {
    let (call, body) = row.split_once("\n")?;
    let bytes = request(alloc, b"AA", body.strip_suffix("\n")?.as_bytes()).ok()?;
    outcome_of(alloc, table, bytes.as_slice(), 100, failing_of(call)?)
}

/// The call that fails.
fn failing_of(call: &str) -> Option<Failing> {
    let (of, number) = call.split_once(" ")?;
    let number = u64::from(read_number(number.as_bytes())?);
    match of {
        "read" => Some(Failing {
            read: number,
            write: 0,
        }),
        "write" => Some(Failing {
            read: 0,
            write: number,
        }),
        _ => None,
    }
}

/// How the body with its length is served.
fn by_length(alloc: Global, table: &str, body: &str) -> Option<Outcome> {
    let bytes = request(alloc, b"AA", body.as_bytes()).ok()?;
    outcome_of(alloc, table, bytes.as_slice(), 4096, NONE_FAILS)
}

/// How the body in one chunk is served.
fn by_chunk(alloc: Global, table: &str, body: &str) -> Option<Outcome> {
    let size = body.len();
    let bytes = format!(in alloc;
        "POST /ojp HTTP/1.1\r\nHost: AA\r\nTransfer-Encoding: chunked\r\n\r\n{size:x}\r\n{body}\r\n0\r\n\r\n"
    ).ok()?;
    outcome_of(alloc, table, bytes.as_bytes(), 1, NONE_FAILS)
}

/// How the region serves a connection with these bytes, in reads of at most `most` bytes.
fn outcome_of(
    alloc: Global,
    table: &str,
    bytes: &[u8],
    most: usize,
    failing: Failing,
) -> Option<Outcome>
    requires { 0 < most }
{
    let (mut input, mut output) = connection(alloc, bytes, most, failing)?;
    let served = by_region(alloc, table, &mut input, &mut output)?;
    Some(Outcome { served, output })
}
