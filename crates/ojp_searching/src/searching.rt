//! A search that is polled to its end.

ghost use Rattle.std.specs.Prelude.{◌≡◌, ℕ, true, Some};
ghost use Rattle.futures.specs.Poll.{IfReady, OnPending};
ghost use Rattle.futures.specs.Task.{Covers, Keeps};
ghost use Rattle.ojp_turns.specs.Searches.{CanTurn};
ghost use Rattle.ojp_searching.specs.Futures.{CanPoll, Gives, IsOf, NeedsNothing, PollsOnce, TurnsAndRests};

use futures::Future;
use futures::task::{Context, Poll};
use ojp_exchange::Book;
use ojp_links::PacedLinks;
use ojp_traces::Trace;
use ojp_turns::{Outcome, Search, Turn};
use std::alloc::Global;

/// What a search that was polled to its end gives: its outcome, and the search and its links back.
#[derive(Drop)]
pub struct Sought<L: PacedLinks> {
    pub outcome: Outcome,
    pub search: Search,
    pub links: L,
}

/// A search that goes on, with its links.
#[derive(Drop)]
pub(crate) struct Going<L: PacedLinks> {
    pub search: Search,
    pub links: L,
}

/// A search with its book and its links, as a future. Until it has given its value, a poll is one turn and one rest, and
/// asks to be polled again where that turn was not the last. A later poll asks to be polled again, and does nothing else.
#[derive(Drop)]
pub struct Searching<L: PacedLinks> {
    alloc: Global,
    book: Book,
    going: Option<Going<L>>,
}

impl<L: PacedLinks> Searching<L> {
    /// The search over these links, with its book. It takes no memory.
    pub fn new(alloc: Global, search: Search, book: Book, links: L) -> Searching<L>
        requires { CanTurn book search (L.seen links) }
        ensures of { IsOf book search links result }
        ensures can_poll { CanPoll L.seen result }
    {
        Searching {
            alloc,
            book,
            going: Some(Going { search, links }),
        }
    }
}

impl<L: PacedLinks> Future for Searching<L> {
    type Output = Sought<L>;

    ghost can_poll = { λ s. CanPoll L.seen s };

    ghost gives = { λ s x. Gives L.seen s x };

    fn poll(&mut self, cx: &mut Context<'_>) -> Poll<Sought<L>>
        requires { CanPoll L.seen self.old }
        ensures value { IfReady result (Gives L.seen self.old) }
        ensures again { OnPending result (CanPoll L.seen self.new) }
        ensures same { OnPending result ((x : _) → Gives L.seen self.new x → Gives L.seen self.old x) }
        ensures registered { OnPending result (Covers cx.new NeedsNothing) }
        ensures kept { Keeps cx.old cx.new }
        ensures once { PollsOnce L.seen self.old self.new result }
        ensures yielded { OnPending result (cx.new.is_woken ≡ true) }
    {
        let Some(going) = self.going.take() else {
            return cx.yield_now();
        };
        match turn_and_rest(self.alloc, &self.book, going) {
            Ok(going) => {
                self.going = Some(going);
                cx.yield_now()
            }
            Err(sought) => Poll::Ready(sought),
        }
    }
}

// One turn and one rest. The error is what the search gives, where that turn was the last.
fn turn_and_rest<L: PacedLinks>(
    alloc: Global,
    book: &Book,
    going: Going<L>,
) -> Result<Going<L>, Sought<L>>
    requires { CanTurn book.now going.search (L.seen going.links) }
    ensures { TurnsAndRests L.seen book.now going result }
{
    let Going {
        mut search,
        mut links,
    } = going;
    let mut trace = Trace::off(alloc);
    let turn = search.turn(book, &mut links, &mut trace);
    links.rest();
    match turn {
        Turn::Moved => Ok(Going { search, links }),
        Turn::Waits => Ok(Going { search, links }),
        Turn::Done(outcome) => Err(Sought {
            outcome,
            search,
            links,
        }),
    }
}
