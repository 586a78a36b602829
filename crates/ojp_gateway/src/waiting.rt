//! Answers over links that may wait.

ghost use Rattle.ojp_links.specs.Seen.{NoneLive};
ghost use Rattle.ojp_turns.specs.Held.{HasRegions};
ghost use Rattle.ojp_turns.specs.Searches.{CanTurn};
ghost use Rattle.ojp_gateway.specs.Passing.{Sought};
ghost use Rattle.ojp_gateway.specs.Answering.{AnswersAsk};

use crate::answering::{Answer, Begun, begin, conclude};
use ojp_exchange::Book;
use ojp_links::{Runtime, WaitLinks};
use ojp_traces::Trace;
use ojp_turns::{Outcome, Search, Turn};
use ojp_values::{Ask, NoMemory};
use std::alloc::Global;

/// Answers an ask over links that may wait. It may wait; its promise holds if it returns.
///
/// # Errors
///
/// `NoMemory` where memory ran out. No ask is live then either.
pub fn answer_waiting<R: Runtime, L: WaitLinks>(
    rt: &mut R,
    alloc: Global,
    book: &Book,
    links: &mut L,
    ask: &Ask,
) -> Result<Answer, NoMemory>
    requires regions { HasRegions book.now (L.seen links.old) }
    requires none_live { NoneLive (L.seen links.old) }
    ensures { AnswersAsk book.now (L.seen links.old) (L.seen links.new) ask.now result }
{
    match begin(alloc, book, ask)? {
        Begun::Answered(answer) => Ok(answer),
        Begun::Search(mut search) => {
            let mut trace = Trace::off(alloc);
            let outcome = seek_waiting(rt, book, links, &mut search, &mut trace);
            conclude(search, outcome)
        }
    }
}

// Brings a search to its end. Where nothing came it waits before the next turn.
fn seek_waiting<R: Runtime, L: WaitLinks>(
    rt: &R,
    book: &Book,
    links: &mut L,
    search: &mut Search,
    trace: &mut Trace,
) -> Outcome
    requires { CanTurn book.now search.old (L.seen links.old) }
    ensures { Sought book.now (L.seen links.old) (L.seen links.new) search.old search.new result }
{
    'searching: for _ in rt.forever() {
        match search.turn(book, links, trace) {
            Turn::Moved => {}
            Turn::Waits => {
                // The loop has the runtime lent, so that the links are lent a reference to it.
                let mut lent = rt;
                links.wait(&mut lent)
            }
            Turn::Done(outcome) => return outcome,
        }
    }
    unreachable!()
}
