//! Searches that are brought to their end.

ghost use Rattle.std.specs.Prelude.{MatchOption};
ghost use Rattle.ojp_traces.specs.Lines.{Gains};
ghost use Rattle.ojp_turns.specs.Searches.{CanTurn};
ghost use Rattle.ojp_gateway.specs.Passing.{Sought, StepsOn};
ghost use Rattle.ojp_gateway.specs.Ordering.{EndsDue, SoughtInOrder, StepsDue};

use ojp_exchange::Book;
use ojp_links::PacedLinks;
use ojp_traces::Trace;
use ojp_turns::{Outcome, Search, Turn};

// One turn, and a rest unless it was the last one.
fn step_paced<L: PacedLinks>(
    book: &Book,
    links: &mut L,
    search: &mut Search,
    trace: &mut Trace,
) -> Option<Outcome>
    requires { CanTurn book.now search.old (L.seen links.old) }
    ensures steps { MatchOption result (StepsOn book.now (L.seen links.old) (L.seen links.new) search.old search.new) (Sought book.now (L.seen links.old) (L.seen links.new) search.old search.new) }
    ensures gains { Gains trace.old trace.new }
    ensures ordered { MatchOption result (StepsDue book.now (L.seen links.old) (L.seen links.new) search.old search.new trace.old trace.new) (EndsDue book.now (L.seen links.old) (L.seen links.new) search.old search.new trace.old trace.new) }
{
    match search.turn(book, links, trace) {
        Turn::Moved => {
            links.rest();
            None
        }
        Turn::Waits => {
            links.rest();
            None
        }
        Turn::Done(outcome) => Some(outcome),
    }
}

/// Brings a search to its end. It takes one turn after another, with a rest between them. A trace that is on gains the
/// lines of each turn.
pub fn seek_paced<L: PacedLinks>(
    book: &Book,
    links: &mut L,
    search: &mut Search,
    trace: &mut Trace,
) -> Outcome
    requires { CanTurn book.now search.old (L.seen links.old) }
    ensures sought { Sought book.now (L.seen links.old) (L.seen links.new) search.old search.new result }
    ensures gains { Gains trace.old trace.new }
    ensures ordered { SoughtInOrder book.now (L.seen links.old) (L.seen links.new) search.old trace.old trace.new result }
{
    // Each round but the last makes an ask, of which there is a bound; within a round patience and what is left fall.
    'searching: for _ in 0..u64::MAX {
        let before = search.asks();
        'hearing: loop {
            match step_paced(book, links, search, trace) {
                Some(outcome) => return outcome,
                None => {
                    if search.asks() != before {
                        break 'hearing;
                    }
                }
            }
        }
    }
    unreachable!()
}
