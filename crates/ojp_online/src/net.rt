//! The top call of the commands that may wait.

ghost use Rattle.std.specs.Prelude.{◌≡◌, ◌⊎◌, ℕ, [], false};
ghost use Rattle.ojp_links.specs.Seen.{NoneLive};
ghost use Rattle.ojp_steps.specs.Lent.{lent};
ghost use Rattle.ojp_steps.specs.Serving.{seen_as};
ghost use Rattle.ojp_online.specs.Commands.{text_in};
ghost use Rattle.ojp_online.specs.Words.{named_by};
ghost use Rattle.ojp_online.specs.Runs.{AskDue, GatewayDue, IsDue, RegionDue, RunsAs, RunsAsk, RunsGateway, RunsRegion, outside};

use crate::asking::ask;
use crate::joining::gateway;
use crate::serving_region::region;
use crate::words::{AskWords, Command, ServerWords, address_of, listening_of, read_words};
use ojp_links::{Runtime, WaitLinks};
use ojp_outside::{Doors, Sink, Source, Store};
use ojp_steps::failures::{Failure, conclude};
use std::alloc::Global;

/// Runs the command of the words, and gives the exit status. It may wait, and its promise holds if it returns.
///
/// `region FILE PORT` reads a timetable file, listens at the port, writes `ready` as a line, and answers the requests
/// that come: each connection has one. `gateway REGIONS PORT` reads a file of regions, learns from their servers at which
/// points they meet, and serves them together in the same way. With `--count N` both end after so many connections.
/// `ask HOST PORT` reads one request document, sends it to a server, and writes the delivery document that it gives.
pub fn run_net<R: Runtime, I: Source, O: Sink, E: Sink, F: Store, D: Doors, L: WaitLinks>(
    rt: &mut R,
    alloc: Global,
    words: &[String],
    input: &mut I,
    output: &mut O,
    faults: &mut E,
    store: &mut F,
    doors: &mut D,
    links: &mut L,
) -> u8
    requires none_out { (D.seen doors.old).is_out ≡ false }
    requires none { (L.seen links.old).fixed.stations ≡ [] }
    requires none_live { NoneLive (L.seen links.old) }
    // What was done, with its status and its line; or why it was not, and what was left alone.
    ensures runs { RunsAs (named_by words.now) (outside (lent I.seen input.old input.new) (lent O.seen output.old output.new)
        (lent E.seen faults.old faults.new) (lent F.seen store.old store.new) (lent (λ d. seen_as (D.seen d) (D.faults d)) doors.old doors.new) (lent L.seen links.old links.new)) result }
    // Where nothing outside failed, a status comes where it is due, or memory ran out.
    ensures due { (status : ℕ) → IsDue (named_by words.now) (outside (lent I.seen input.old input.new) (lent O.seen output.old output.new)
        (lent E.seen faults.old faults.new) (lent F.seen store.old store.new) (lent (λ d. seen_as (D.seen d) (D.faults d)) doors.old doors.new) (lent L.seen links.old links.new)) status
        → (result ≡ 5) ⊎ (result ≡ status) }
    // No ask is live.
    ensures none_live { NoneLive (L.seen links.new) }
{
    match read_words(words) {
        Some(Command::Region(words)) => run_region(rt, alloc, words, output, faults, store, doors),
        Some(Command::Gateway(words)) => {
            run_gateway(rt, alloc, words, output, faults, store, doors, links)
        }
        Some(Command::Ask(words)) => run_ask(rt, alloc, words, input, output, faults, links),
        None => conclude(&Err(Failure::Words), faults),
    }
}

/// Runs `region` by its words.
fn run_region<R: Runtime, O: Sink, E: Sink, F: Store, D: Doors>(
    rt: &R,
    alloc: Global,
    words: ServerWords<'_>,
    output: &mut O,
    faults: &mut E,
    store: &mut F,
    doors: &mut D,
) -> u8
    requires none_out { (D.seen doors.old).is_out ≡ false }
    ensures runs { RunsRegion words.entry.file.now words.entry.port.now (text_in words.entry.count) (lent O.seen output.old output.new)
        (lent E.seen faults.old faults.new) (lent F.seen store.old store.new) (lent (λ d. seen_as (D.seen d) (D.faults d)) doors.old doors.new) result }
    ensures due { (status : ℕ) → RegionDue words.entry.file.now words.entry.port.now (text_in words.entry.count) (lent O.seen output.old output.new)
        (lent F.seen store.old store.new) (lent (λ d. seen_as (D.seen d) (D.faults d)) doors.old doors.new) status → (result ≡ 5) ⊎ (result ≡ status) }
{
    match listening_of(words.port, words.count) {
        Some(listening) => conclude(
            &region(rt, alloc, words.file, listening, output, store, doors),
            faults,
        ),
        None => conclude(&Err(Failure::Words), faults),
    }
}

/// Runs `gateway` by its words.
fn run_gateway<R: Runtime, O: Sink, E: Sink, F: Store, D: Doors, L: WaitLinks>(
    rt: &mut R,
    alloc: Global,
    words: ServerWords<'_>,
    output: &mut O,
    faults: &mut E,
    store: &mut F,
    doors: &mut D,
    links: &mut L,
) -> u8
    requires none_out { (D.seen doors.old).is_out ≡ false }
    requires none { (L.seen links.old).fixed.stations ≡ [] }
    requires none_live { NoneLive (L.seen links.old) }
    ensures runs { RunsGateway words.entry.file.now words.entry.port.now (text_in words.entry.count) (lent O.seen output.old output.new)
        (lent E.seen faults.old faults.new) (lent F.seen store.old store.new) (lent (λ d. seen_as (D.seen d) (D.faults d)) doors.old doors.new) (lent L.seen links.old links.new) result }
    ensures due { (status : ℕ) → GatewayDue words.entry.file.now words.entry.port.now (text_in words.entry.count) (lent O.seen output.old output.new)
        (lent F.seen store.old store.new) (lent (λ d. seen_as (D.seen d) (D.faults d)) doors.old doors.new) (lent L.seen links.old links.new) status → (result ≡ 5) ⊎ (result ≡ status) }
    ensures none_live { NoneLive (L.seen links.new) }
{
    match listening_of(words.port, words.count) {
        Some(listening) => conclude(
            &gateway(
                rt, alloc, words.file, listening, output, store, doors, links,
            ),
            faults,
        ),
        None => conclude(&Err(Failure::Words), faults),
    }
}

/// Runs `ask` by its words.
fn run_ask<R: Runtime, I: Source, O: Sink, E: Sink, L: WaitLinks>(
    rt: &mut R,
    alloc: Global,
    words: AskWords<'_>,
    input: &mut I,
    output: &mut O,
    faults: &mut E,
    links: &mut L,
) -> u8
    requires none { (L.seen links.old).fixed.stations ≡ [] }
    requires none_live { NoneLive (L.seen links.old) }
    ensures runs { RunsAsk words.entry.host.now words.entry.port.now (lent I.seen input.old input.new) (lent O.seen output.old output.new)
        (lent E.seen faults.old faults.new) (lent L.seen links.old links.new) result }
    ensures due { (status : ℕ) → AskDue words.entry.host.now words.entry.port.now (lent I.seen input.old input.new) (lent O.seen output.old output.new)
        (lent L.seen links.old links.new) status → (result ≡ 5) ⊎ (result ≡ status) }
    ensures none_live { NoneLive (L.seen links.new) }
{
    match address_of(words.host, words.port) {
        Some(port) => conclude(
            &ask(rt, alloc, words.host, port, input, output, links),
            faults,
        ),
        None => conclude(&Err(Failure::Words), faults),
    }
}
