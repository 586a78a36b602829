//! Rows of what hostile clients and regions might do. The part is named texts, parted by lines of four equals signs; those
//! named `asks`, `calls`, `searches`, `replies`, `polls` and `waits` have rows, a line each, in the names of others. A row over
//! many lengths or calls gives how many there were, and that each ended as it must, or the first that did not.

use crate::connections::{
    NONE_FAILS, Outcome, Pace, Server, body_of, cuts, failed_reads, failed_writes, outcome_of,
    text_of,
};
use crate::polls::{Polls, spelled, told_of};
use crate::searches::{cut_replies, search};
use crate::tallies::{Tally, tell_tally};
use crate::texts::{document, named, request_of};
use crate::waits::wait_for;
use ojp_links::Runtime;
use ojp_outside::MemSink;
use ojp_values::read_number;
use std::alloc::Global;

/// Writes what each row gives.
pub(crate) fn tell_texts<R: AllocGlobal + Print + Runtime>(rt: &R, texts: &str) -> Option<()> {
    let alloc = rt.alloc();
    tell_asks(rt, alloc, texts)?;
    tell_calls(rt, alloc, texts)?;
    tell_searches(rt, alloc, texts)?;
    tell_replies(rt, alloc, texts)?;
    tell_polls(rt, alloc, texts)?;
    tell_waits(rt, alloc, texts)
}

/// Each request goes to the three servers, which answer alike.
fn tell_asks<R: Print + Runtime>(rt: &R, alloc: Global, texts: &str) -> Option<()> {
    for row in named(texts, "asks")?.lines() {
        let bytes = request_of(alloc, texts, row)?;
        tell_ask(rt, alloc, texts, row, bytes.as_slice())?;
    }
    Some(())
}

/// Writes the answer of the region, and whether the gateways have the same.
fn tell_ask<R: Print + Runtime>(
    rt: &R,
    alloc: Global,
    texts: &str,
    row: &str,
    bytes: &[u8],
) -> Option<()> {
    let tables = named(texts, "a")?;
    let outcome = outcome_of(rt, alloc, Server::Region, tables, bytes, NONE_FAILS)?;
    tell_alike(rt, alloc, texts, row, bytes, &outcome)
}

fn tell_alike<R: Print + Runtime>(
    rt: &R,
    alloc: Global,
    texts: &str,
    row: &str,
    bytes: &[u8],
    outcome: &Outcome,
) -> Option<()> {
    let is_same = is_alike(rt, alloc, Pace::Rests, texts, bytes, outcome)?
        && is_alike(rt, alloc, Pace::Waits, texts, bytes, outcome)?;
    let (served, body) = (outcome.served, short(texts, body_of(&outcome.output)?)?);
    println!(rt; "{row}: {served:?} {body}, alike {is_same}").ok()
}

/// Whether the gateway has the same outcome.
fn is_alike<R: Runtime>(
    rt: &R,
    alloc: Global,
    pace: Pace,
    texts: &str,
    bytes: &[u8],
    outcome: &Outcome,
) -> Option<bool> {
    let (server, tables) = (Server::Gateway(pace), named(texts, "a")?);
    let other = outcome_of(rt, alloc, server, tables, bytes, NONE_FAILS)?;
    Some(other.is_same_as(outcome))
}

/// The body, or that it is the trip.
fn short<'a>(texts: &str, body: &'a str) -> Option<&'a str> {
    if body == document(texts, "trip")? {
        return Some("the trip");
    }
    Some(body.trim_end())
}

/// Each row has a server, what befalls its calls or bytes, and the request.
fn tell_calls<R: Print + Runtime>(rt: &R, alloc: Global, texts: &str) -> Option<()> {
    for row in named(texts, "calls")?.lines() {
        let tally = tally_of(rt, alloc, texts, row)?;
        tell_tally(rt, row, tally)?;
    }
    Some(())
}

fn tally_of<R: Runtime>(rt: &R, alloc: Global, texts: &str, row: &str) -> Option<Tally> {
    let (server, rest) = row.split_once(" ")?;
    let (fate, request) = rest.split_once(" ")?;
    let server = server_of(server)?;
    let tables = named(texts, "a")?;
    let bytes = request_of(alloc, texts, request)?;
    match fate {
        "reads" => failed_reads(rt, alloc, server, tables, bytes.as_slice()),
        "writes" => failed_writes(rt, alloc, server, tables, bytes.as_slice()),
        "cuts" => cuts(rt, alloc, server, tables, bytes.as_slice()),
        _ => None,
    }
}

fn server_of(word: &str) -> Option<Server> {
    match word {
        "region" => Some(Server::Region),
        "paced" => Some(Server::Gateway(Pace::Rests)),
        "waiting" => Some(Server::Gateway(Pace::Waits)),
        _ => None,
    }
}

/// Each row is a search over regions with a script.
fn tell_searches<R: Print>(rt: &R, alloc: Global, texts: &str) -> Option<()> {
    for row in named(texts, "searches")?.lines() {
        let outcome = search(alloc, texts, row)?;
        tell_outcome(rt, texts, row, &outcome)?;
    }
    Some(())
}

fn tell_outcome<R: Print>(rt: &R, texts: &str, row: &str, outcome: &Outcome) -> Option<()> {
    let served = outcome.served;
    let body = short(texts, body_of(&outcome.output)?)?;
    println!(rt; "{row}: {served:?} {body}").ok()
}

/// Each row is the most bytes of a look at replies that are cut.
fn tell_replies<R: Print>(rt: &R, alloc: Global, texts: &str) -> Option<()> {
    for row in named(texts, "replies")?.lines() {
        let most = read_number(row.as_bytes())? as usize;
        let tally = cut_replies(alloc, texts, most)?;
        tell_tally(rt, row, tally)?;
    }
    Some(())
}

/// Each row is one subrequest.
fn tell_polls<R: Print>(rt: &R, alloc: Global, texts: &str) -> Option<()> {
    for row in named(texts, "polls")?.lines() {
        tell_poll(rt, alloc, texts, row)?;
    }
    Some(())
}

fn tell_poll<R: Print>(rt: &R, alloc: Global, texts: &str, row: &str) -> Option<()> {
    let told = told_of(alloc, texts, row)?;
    let polls = told.polls;
    let heard = spelled(alloc, told.end)?;
    tell_heard(rt, texts, row, polls, &heard)
}

/// Writes the document that was heard, and by how many polls.
fn tell_heard<R: Print>(
    rt: &R,
    texts: &str,
    row: &str,
    polls: Polls,
    heard: &MemSink,
) -> Option<()> {
    let Polls { pending, moved } = polls;
    let body = short(texts, text_of(heard)?)?;
    println!(rt; "{row}: {pending} pending, {moved} moved, {body}").ok()
}

/// Each row is a search by the gateway that may wait.
fn tell_waits<R: Print + Runtime>(rt: &R, alloc: Global, texts: &str) -> Option<()> {
    for row in named(texts, "waits")?.lines() {
        let rests = tell_wait(rt, alloc, texts, row)?;
        println!(rt; "{rests} rests").ok()?;
    }
    Some(())
}

/// Writes the answer, and gives how many rests it took.
fn tell_wait<R: Print + Runtime>(rt: &R, alloc: Global, texts: &str, row: &str) -> Option<u64> {
    let (outcome, rests) = wait_for(rt, alloc, texts, row)?;
    tell_outcome(rt, texts, row, &outcome)?;
    Some(rests)
}
