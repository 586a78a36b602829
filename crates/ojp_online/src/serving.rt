//! The connections of a gateway's port, served one after another over links.

ghost use Rattle.std.specs.Prelude.{◌≡◌, false};
ghost use Rattle.ojp_grammar.specs.Answering.{AnswersBody};
ghost use Rattle.ojp_links.specs.Seen.{NoneLive};
ghost use Rattle.ojp_turns.specs.Held.{HasRegions};
ghost use Rattle.ojp_steps.specs.Lent.{lent};
ghost use Rattle.ojp_steps.specs.Serving.{seen_as, ServesAt, ServesNext, ServesUntil};
ghost use Rattle.ojp_online.specs.Gateways.{GatewayGives, PassesOn};

use ojp_exchange::Book;
use ojp_gateway::serve_waiting;
use ojp_links::{Runtime, WaitLinks};
use ojp_outside::{DoorRefused, Doors, Sink};
use ojp_steps::serving::{Listening, NotServed, start};
use std::alloc::Global;

/// Listens at the port, says so, and serves the connections that come, over the links whose book this is.
pub(crate) fn serve_gateway<R: Runtime, O: Sink, D: Doors, L: WaitLinks>(
    rt: &R,
    alloc: Global,
    book: &Book,
    listening: Listening,
    output: &mut O,
    doors: &mut D,
    links: &mut L,
) -> Result<(), NotServed>
    requires regions { HasRegions book.now (L.seen links.old) }
    requires none_live { NoneLive (L.seen links.old) }
    requires none_out { (D.seen doors.old).is_out ≡ false }
    ensures passes { PassesOn book.now (L.seen links.old) (L.seen links.new) }
    ensures serves { let lent_output = lent O.seen output.old output.new in
        let lent_doors = lent (λ d. seen_as (D.seen d) (D.faults d)) doors.old doors.new in
        ServesAt (AnswersBody (GatewayGives book.now (L.seen links.new))) listening.port listening.count lent_output lent_doors result }
{
    match start(listening, output, doors) {
        Ok(()) => {}
        Err(refused) => return Err(refused),
    }
    match serve_all(rt, alloc, book, doors, links) {
        DoorRefused::Closed => Ok(()),
        DoorRefused::Failed => Err(NotServed::Doors),
    }
}

/// Serves connections until the doors give none.
fn serve_all<R: Runtime, D: Doors, L: WaitLinks>(
    rt: &R,
    alloc: Global,
    book: &Book,
    doors: &mut D,
    links: &mut L,
) -> DoorRefused
    requires regions { HasRegions book.now (L.seen links.old) }
    requires none_live { NoneLive (L.seen links.old) }
    requires none_out { (D.seen doors.old).is_out ≡ false }
    requires fresh { (D.seen doors.old).given ≡ 0 }
    ensures passes { PassesOn book.now (L.seen links.old) (L.seen links.new) }
    ensures serves { ServesUntil (AnswersBody (GatewayGives book.now (L.seen links.new))) (seen_as (D.seen doors.old) (D.faults doors.old)) (seen_as (D.seen doors.new) (D.faults doors.new)) result }
{
    'serving: for _ in rt.forever() {
        match serve_next(rt, alloc, book, doors, links) {
            Ok(()) => {}
            Err(refused) => return refused,
        }
    }
    unreachable!()
}

/// Takes the next connection, serves it, whatever comes of it, and gives it back.
fn serve_next<R: Runtime, D: Doors, L: WaitLinks>(
    rt: &R,
    alloc: Global,
    book: &Book,
    doors: &mut D,
    links: &mut L,
) -> Result<(), DoorRefused>
    requires regions { HasRegions book.now (L.seen links.old) }
    requires none_live { NoneLive (L.seen links.old) }
    requires none_out { (D.seen doors.old).is_out ≡ false }
    ensures passes { PassesOn book.now (L.seen links.old) (L.seen links.new) }
    ensures served { ServesNext (AnswersBody (GatewayGives book.now (L.seen links.new))) (seen_as (D.seen doors.old) (D.faults doors.old)) (seen_as (D.seen doors.new) (D.faults doors.new)) result }
{
    let (mut input, mut output) = match doors.next() {
        Ok(connection) => connection,
        Err(DoorRefused::Closed) => return Err(DoorRefused::Closed),
        Err(DoorRefused::Failed) => return Err(DoorRefused::Failed),
    };
    // The loop has the runtime lent, so that the call is lent a reference to it.
    let mut lent = rt;
    let _ = serve_waiting(&mut lent, alloc, book, links, &mut input, &mut output);
    doors.back(input, output);
    Ok(())
}
