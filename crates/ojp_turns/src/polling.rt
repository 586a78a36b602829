//! The polls of a turn: each live subrequest is looked at once, and the board is told each end.

ghost use Rattle.std.specs.Prelude.{◌≡◌, ◌≢◌, ◌<◌, length, IfOk, OnErr, None};
ghost use Rattle.ojp_links.specs.Seen.{codes_of};
ghost use Rattle.ojp_links.specs.Calls.{Keeps, NotRaised, OthersStay};
ghost use Rattle.ojp_records.specs.Told.{IsOpenQuery};
ghost use Rattle.ojp_labels.specs.Boards.{IsBoardOf, ask_of, told_of};
ghost use Rattle.ojp_turns.specs.Held.{IsForIn, StandsIn, key_of};
ghost use Rattle.ojp_turns.specs.Faults.{RejectsNone};
ghost use Rattle.ojp_turns.specs.Polling.{EndFits, FirstPolled, Round, Steps, TellsEnd, WholeRound};
ghost use Rattle.ojp_turns.specs.Tracing.{Grew, TracesEnds, TracesFirst, first_number};
ghost use Rattle.ojp_turns.specs.Ordering.{FirstOrder, PollOrder, RoundOrder};

use crate::kept::Kept;
use crate::tracing::trace_end;
use ojp_exchange::Book;
use ojp_labels::Board;
use ojp_links::Links;
use ojp_links::laws::sure_is_never_hopeless;
use ojp_records::Query;
use ojp_subrequests::{SubEnd, SubPoll};
use ojp_traces::Trace;
use ojp_values::NoMemory;
use std::collections::VecDeque;

/// What one poll found.
pub enum Step {
    /// Nothing came.
    Waits,
    /// Bytes came, and more are needed.
    Moved,
    /// The subrequest is over, and its end was told.
    Over,
}

// Tells the board how a subrequest of the query ended.
fn tell_end(book: &Book, board: &mut Board, query: &Query, end: SubEnd) -> Result<(), NoMemory>
    requires of { IsBoardOf board.old book.now }
    requires fresh { IsOpenQuery book.now (ask_of board.old) (told_of board.old) query.now }
    requires fits { EndFits book.now (ask_of board.old) query.now end }
    ensures of { IsBoardOf board.new book.now }
    ensures ask { ask_of board.new ≡ ask_of board.old }
    ensures told { IfOk result (λ done. TellsEnd end query.now (told_of board.old) (told_of board.new)) }
    ensures err { OnErr result (told_of board.new ≡ told_of board.old) }
{
    match end {
        SubEnd::Heard(reply) => board.hear(book, query, reply),
        SubEnd::Failed => board.fail(book, query),
        SubEnd::NoMemory => Err(NoMemory),
    }
}

// Polls a subrequest, and tells the board its end.
fn poll_one<L: Links>(
    book: &Book,
    board: &mut Board,
    links: &mut L,
    kept: &mut Kept,
) -> Result<Step, NoMemory>
    requires of { IsBoardOf board.old book.now }
    requires differ { (ask_of board.old).origin ≢ (ask_of board.old).target }
    requires held { IsForIn book.now (ask_of board.old) (codes_of (L.seen links.old).fixed) (L.seen links.old).live kept.old }
    requires fresh { IsOpenQuery book.now (ask_of board.old) (told_of board.old) kept.old.query }
    ensures of { IsBoardOf board.new book.now }
    ensures ask { ask_of board.new ≡ ask_of board.old }
    ensures keeps { Keeps (L.seen links.old) (L.seen links.new) }
    ensures others { OthersStay (L.seen links.old) (L.seen links.new) (key_of kept.old) }
    ensures patience { NotRaised (L.seen links.old).patience (L.seen links.new).patience }
    ensures steps { IfOk result (λ step. Steps step book.now (ask_of board.old) (L.seen links.old) (L.seen links.new) kept.old kept.new (told_of board.old) (told_of board.new)) }
    ensures told { OnErr result (told_of board.new ≡ told_of board.old) }
    ensures gone { OnErr result ((L.seen links.new).live (key_of kept.old) ≡ None) }
    ensures rejects_none { RejectsNone book.now (ask_of board.old) (told_of board.old) (L.seen links.old) (L.seen links.new) }
    ensures made { (L.seen links.new).made ≡ (L.seen links.old).made }
    ensures ordered { IfOk result (λ step. PollOrder step book.now (ask_of board.old) (told_of board.old) (L.seen links.old) (L.seen links.new) kept.old) }
{
    sure_is_never_hopeless();
    links.is_sound();
    match kept.sub.poll(links) {
        SubPoll::Pending => Ok(Step::Waits),
        SubPoll::Moved => Ok(Step::Moved),
        SubPoll::Over(end) => match tell_end(book, board, &kept.query, end) {
            Ok(()) => Ok(Step::Over),
            Err(NoMemory) => Err(NoMemory),
        },
    }
}

// Polls the first subrequest, and puts it behind the others if it goes on. Says whether something came.
fn poll_first<L: Links>(
    book: &Book,
    board: &mut Board,
    links: &mut L,
    subs: &mut VecDeque<Kept>,
) -> Result<bool, NoMemory>
    requires some { 0 < length subs.old.items }
    requires of { IsBoardOf board.old book.now }
    requires differ { (ask_of board.old).origin ≢ (ask_of board.old).target }
    requires stands { StandsIn book.now (ask_of board.old) (told_of board.old) subs.old.items (L.seen links.old) }
    ensures of { IsBoardOf board.new book.now }
    ensures ask { ask_of board.new ≡ ask_of board.old }
    ensures stands { StandsIn book.now (ask_of board.old) (told_of board.new) subs.new.items (L.seen links.new) }
    ensures polled { FirstPolled book.now (ask_of board.old) (L.seen links.old) (L.seen links.new) subs.old.items subs.new.items (told_of board.old) (told_of board.new) result }
    ensures made { (L.seen links.new).made ≡ (L.seen links.old).made }
    ensures ordered { IfOk result (λ moved. FirstOrder book.now (ask_of board.old) (L.seen links.old) (L.seen links.new) subs.old.items subs.new.items (told_of board.old) (told_of board.new)) }
{
    let Some(mut kept) = subs.pop_front() else {
        unreachable!();
    };
    match poll_one(book, board, links, &mut kept) {
        Ok(Step::Waits) => {
            subs.push_back_reserved(kept);
            Ok(false)
        }
        Ok(Step::Moved) => {
            subs.push_back_reserved(kept);
            Ok(true)
        }
        Ok(Step::Over) => {
            drop(kept);
            Ok(true)
        }
        Err(NoMemory) => {
            drop(kept);
            Err(NoMemory)
        }
    }
}

// The number of the first subrequest.
fn first_number(subs: &VecDeque<Kept>) -> u64
    requires { 0 < length subs.now.items }
    ensures { result ≡ first_number subs.now.items }
{
    subs[0].number
}

// Polls the first subrequest, and tells the trace its end. Says whether something came.
fn poll_next<L: Links>(
    turn: u64,
    book: &Book,
    board: &mut Board,
    links: &mut L,
    subs: &mut VecDeque<Kept>,
    trace: &mut Trace,
) -> Result<bool, NoMemory>
    requires some { 0 < length subs.old.items }
    requires of { IsBoardOf board.old book.now }
    requires differ { (ask_of board.old).origin ≢ (ask_of board.old).target }
    requires stands { StandsIn book.now (ask_of board.old) (told_of board.old) subs.old.items (L.seen links.old) }
    ensures of { IsBoardOf board.new book.now }
    ensures ask { ask_of board.new ≡ ask_of board.old }
    ensures stands { StandsIn book.now (ask_of board.old) (told_of board.new) subs.new.items (L.seen links.new) }
    ensures polled { FirstPolled book.now (ask_of board.old) (L.seen links.old) (L.seen links.new) subs.old.items subs.new.items (told_of board.old) (told_of board.new) result }
    ensures made { (L.seen links.new).made ≡ (L.seen links.old).made }
    ensures ordered { IfOk result (λ moved. FirstOrder book.now (ask_of board.old) (L.seen links.old) (L.seen links.new) subs.old.items subs.new.items (told_of board.old) (told_of board.new)) }
    ensures traced { IfOk result (λ moved. TracesFirst turn subs.old.items (told_of board.old) (told_of board.new) trace.old trace.new) }
    ensures err { OnErr result (trace.new ≡ trace.old) }
{
    let number = first_number(subs);
    let before = board.told().len();
    match poll_first(book, board, links, subs) {
        Ok(one) => match trace_end(turn, number, board.told(), before, trace) {
            Ok(()) => Ok(one),
            Err(NoMemory) => Err(NoMemory),
        },
        Err(NoMemory) => Err(NoMemory),
    }
}

/// Polls each subrequest once, in the order asked, and tells the board each end. Says whether something came.
pub fn poll_all<L: Links>(
    turn: u64,
    book: &Book,
    board: &mut Board,
    links: &mut L,
    subs: &mut VecDeque<Kept>,
    trace: &mut Trace,
) -> Result<bool, NoMemory>
    requires of { IsBoardOf board.old book.now }
    requires differ { (ask_of board.old).origin ≢ (ask_of board.old).target }
    requires stands { StandsIn book.now (ask_of board.old) (told_of board.old) subs.old.items (L.seen links.old) }
    ensures of { IsBoardOf board.new book.now }
    ensures ask { ask_of board.new ≡ ask_of board.old }
    ensures stands { StandsIn book.now (ask_of board.old) (told_of board.new) subs.new.items (L.seen links.new) }
    ensures round { Round book.now (ask_of board.old) (L.seen links.old) (L.seen links.new) subs.old.items subs.new.items (told_of board.old) (told_of board.new) }
    ensures whole { IfOk result (λ moved. WholeRound moved book.now (ask_of board.old) (L.seen links.old) (L.seen links.new) subs.old.items subs.new.items (told_of board.old) (told_of board.new)) }
    ensures traced { IfOk result (λ moved. TracesEnds turn subs.old.items (told_of board.old) (told_of board.new) trace.old trace.new) }
    ensures grew { Grew turn trace.old trace.new }
    ensures made { (L.seen links.new).made ≡ (L.seen links.old).made }
    ensures ordered { IfOk result (λ moved. RoundOrder turn book.now (ask_of board.old) (L.seen links.old) (L.seen links.new) subs.old.items subs.new.items (told_of board.old) (told_of board.new)) }
{
    let mut moved = false;
    let count = subs.len();
    'polling: for _ in 0..count {
        match poll_next(turn, book, board, links, subs, trace) {
            Ok(one) => moved |= one,
            Err(NoMemory) => return Err(NoMemory),
        }
    }
    Ok(moved)
}
