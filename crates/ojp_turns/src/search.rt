//! A search, by turns.

ghost use Rattle.std.specs.Prelude.{◌≡◌, ◌≢◌, ◌≤◌, [], IfOk, true};
ghost use Rattle.ojp_records.specs.Wanted.{wanted};
ghost use Rattle.ojp_labels.specs.Boards.{IsBoardOf, ask_of, told_of};
ghost use Rattle.ojp_turns.specs.Held.{HasRegions, StandsIn};
ghost use Rattle.ojp_turns.specs.Slots.{AreAsked, IsWithinBound};
ghost use Rattle.ojp_turns.specs.Turning.{Passes, Settles};
ghost use Rattle.ojp_turns.specs.Searches.{CanTurn, EndsAs, IsNewFor, Turns, asks_of, is_done, record_of};
ghost use Rattle.ojp_turns.specs.Tracing.{Grew, Traces, TracesTurn, turns_of};
ghost use Rattle.ojp_turns.specs.Ordering.{OrderedTurn, TurnOrder};

use crate::asking::{Asked, ask_all};
use crate::cancelling::{cancel_all, cancel_rest};
use crate::kept::Kept;
use crate::polling::poll_all;
use crate::tracing::trace_drops;
use ojp_exchange::Book;
use ojp_join::joined;
use ojp_labels::Board;
use ojp_links::Links;
use ojp_records::Entry;
use ojp_traces::Trace;
use ojp_values::{Fault, List, NoMemory, Trip, TripAsk};
use std::alloc::Global;
use std::collections::VecDeque;

/// How a search ended.
#[derive(Debug, Drop)]
pub enum Outcome {
    /// With a trip.
    Trip(Trip),
    /// With a fault.
    Fault(Fault),
    /// Memory ran out.
    NoMemory,
}

/// What a turn did.
#[derive(Debug, Drop)]
pub enum Turn {
    /// An ask was made or ended, or was given a byte.
    Moved,
    /// Nothing came yet.
    Waits,
    /// The search is done, and nothing of it is live.
    Done(Outcome),
}

/// A search over regions: its board, what it has live, and what it asked.
#[derive(Drop)]
pub struct Search {
    alloc: Global,
    board: Board,
    subs: VecDeque<Kept>,
    asked: Asked,
    turns: u64,
    done: bool,
}

impl Search {
    /// A search that has asked nothing yet.
    pub fn new(alloc: Global, book: &Book, ask: &TripAsk) -> Result<Search, NoMemory>
        requires { ask.now.origin ≢ ask.now.target }
        ensures new { IfOk result (IsNewFor book.now ask.now) }
        ensures no_turn { IfOk result (λ s. turns_of s ≡ 0) }
    {
        let Ok(board) = Board::new(alloc, book, ask) else {
            return Err(NoMemory);
        };
        let Ok(asked) = Asked::none(alloc, board.slots()) else {
            return Err(NoMemory);
        };
        Ok(Search {
            alloc,
            board,
            subs: VecDeque::new(alloc),
            asked,
            turns: 0,
            done: false,
        })
    }

    /// One turn: polls each live subrequest once, in the order asked, cancels those that are no longer wanted, and asks
    /// what is wanted and not live. Where nothing is live then, the search is done. A trace that is on gains a line for each
    /// of these events.
    pub fn turn<L: Links>(&mut self, book: &Book, links: &mut L, trace: &mut Trace) -> Turn
        requires { CanTurn book.now self.old (L.seen links.old) }
        ensures turns { Turns book.now (L.seen links.old) (L.seen links.new) self.old self.new result }
        ensures traces { Traces book.now self.old self.new trace.old trace.new result }
        ensures ordered { OrderedTurn book.now (L.seen links.old) (L.seen links.new) self.old self.new trace.old trace.new result }
    {
        self.turns = self.turns.saturating_add(1);
        let stepped = run_turn(
            self.turns,
            self.alloc,
            book,
            &mut self.board,
            links,
            &mut self.subs,
            &mut self.asked,
            trace,
        );
        match stepped {
            Ok(moved) => {
                if !self.subs.is_empty() {
                    return if moved { Turn::Moved } else { Turn::Waits };
                }
                self.done = true;
                Turn::Done(ended_as(self.alloc, book, &self.board))
            }
            Err(NoMemory) => {
                cancel_rest(links, &mut self.subs);
                self.done = true;
                Turn::Done(Outcome::NoMemory)
            }
        }
    }

    /// The record: all that was told to the search, in the order told. It takes no memory.
    pub fn told(&self) -> &[Entry]
        ensures { result.now ≡ record_of self.now }
    {
        self.board.told()
    }

    /// How many asks were made. It takes no memory.
    pub fn asks(&self) -> u64
        ensures { result ≡ asks_of self.now }
    {
        self.asked.count()
    }

    /// Gives the record away. It takes no memory.
    pub fn into_told(self) -> List<Entry>
        requires { is_done self ≡ true }
        ensures { result ≡ record_of self }
    {
        let Search { board, .. } = self;
        board.into_told()
    }
}

// One turn over the parts of a search. Says whether something moved.
fn run_turn<L: Links>(
    turn: u64,
    alloc: Global,
    book: &Book,
    board: &mut Board,
    links: &mut L,
    subs: &mut VecDeque<Kept>,
    asked: &mut Asked,
    trace: &mut Trace,
) -> Result<bool, NoMemory>
    requires of { IsBoardOf board.old book.now }
    requires differ { (ask_of board.old).origin ≢ (ask_of board.old).target }
    requires regions { HasRegions book.now (L.seen links.old) }
    requires stands { StandsIn book.now (ask_of board.old) (told_of board.old) subs.old.items (L.seen links.old) }
    requires asked { AreAsked book.now (ask_of board.old) (told_of board.old) subs.old.items asked.old.last.items }
    requires bounded { IsWithinBound book.now (ask_of board.old) asked.old.last.items asked.old.count }
    ensures of { IsBoardOf board.new book.now }
    ensures ask { ask_of board.new ≡ ask_of board.old }
    ensures stands { StandsIn book.now (ask_of board.old) (told_of board.new) subs.new.items (L.seen links.new) }
    ensures bounded { IsWithinBound book.now (ask_of board.old) asked.new.last.items asked.new.count }
    ensures more_asks { asked.old.count ≤ asked.new.count }
    ensures passes { Passes book.now (ask_of board.old) (L.seen links.old) (L.seen links.new) subs.old.items (told_of board.old) (told_of board.new) }
    ensures asked { IfOk result (λ moved. AreAsked book.now (ask_of board.old) (told_of board.new) subs.new.items asked.new.last.items) }
    ensures settles { IfOk result (λ moved. Settles moved book.now (ask_of board.old) (L.seen links.old) (L.seen links.new) subs.old.items subs.new.items asked.old.count asked.new.count (told_of board.old) (told_of board.new)) }
    ensures traced { IfOk result (λ moved. TracesTurn turn book.now (ask_of board.old) subs.old.items subs.new.items (told_of board.old) (told_of board.new) asked.old.count asked.new.count trace.old trace.new) }
    ensures grew { Grew turn trace.old trace.new }
    ensures ordered { IfOk result (λ moved. TurnOrder turn book.now (ask_of board.old) (L.seen links.old) (L.seen links.new) subs.old.items subs.new.items (told_of board.old) (told_of board.new) asked.old.count asked.new.count trace.old trace.new) }
{
    let Ok(came) = poll_all(turn, book, board, links, subs, trace) else {
        return Err(NoMemory);
    };
    let Ok(()) = trace_drops(turn, book, board, subs, trace) else {
        return Err(NoMemory);
    };
    let cancelled = cancel_all(book, board, links, subs);
    let Ok(some) = ask_all(turn, alloc, book, board, links, subs, asked, trace) else {
        return Err(NoMemory);
    };
    Ok(came | cancelled | some)
}

// How a search ended that wants nothing more.
fn ended_as(alloc: Global, book: &Book, board: &Board) -> Outcome
    requires of { IsBoardOf board.now book.now }
    requires settled { wanted book.now (ask_of board.now) (told_of board.now) ≡ [] }
    ensures { EndsAs book.now (ask_of board.now) (told_of board.now) result }
{
    match board.fault(book) {
        Some(fault) => Outcome::Fault(fault),
        None => match joined(alloc, book, board) {
            Ok(trip) => Outcome::Trip(trip),
            Err(NoMemory) => Outcome::NoMemory,
        },
    }
}
