//! What a turn tells the trace of its search.

ghost use Rattle.std.specs.Prelude.{◌≡◌, ◌+◌, ◌≤◌, [], ◌∷◌, drop, length, map, OnOk, OnErr};
ghost use Rattle.ojp_labels.specs.Boards.{IsBoardOf, ask_of, told_of};
ghost use Rattle.ojp_turns.specs.Tracing.{Adds, Grew, asked_events, drops_of, end_by};

use crate::kept::Kept;
use ojp_exchange::Book;
use ojp_labels::Board;
use ojp_records::{Entry, Query};
use ojp_traces::{Event, Trace};
use ojp_values::NoMemory;
use std::collections::VecDeque;

// The event of an ask with the number that ended with the entry.
fn end_event(number: u64, entry: &Entry) -> Event
    ensures { result ≡ end_by number entry.now }
{
    match &entry.reply {
        Some(_) => Event::Replied { number },
        None => Event::Failed { number },
    }
}

/// Tells how the ask with the number ended, where the record has an entry more than so many.
pub fn trace_end(
    turn: u64,
    number: u64,
    told: &[Entry],
    before: usize,
    trace: &mut Trace,
) -> Result<(), NoMemory>
    requires { length told.now ≤ before + 1 }
    ensures ok { OnOk result (Adds turn trace.old trace.new (map (end_by number) (drop before told.now))) }
    ensures err { OnErr result (trace.new ≡ trace.old) }
{
    if before >= told.len() {
        return Ok(());
    }
    trace.add(turn, &end_event(number, &told[before]))
}

// Tells that a subrequest is dropped, where it is not wanted.
fn trace_drop(
    turn: u64,
    book: &Book,
    board: &Board,
    kept: &Kept,
    trace: &mut Trace,
) -> Result<(), NoMemory>
    requires { IsBoardOf board.now book.now }
    ensures ok { OnOk result (Adds turn trace.old trace.new (drops_of book.now (ask_of board.now) (told_of board.now) (kept.now ∷ []))) }
    ensures err { OnErr result (trace.new ≡ trace.old) }
{
    if board.is_wanted(book, &kept.query) {
        return Ok(());
    }
    trace.add(
        turn,
        &Event::Dropped {
            number: kept.number,
        },
    )
}

/// Tells which subrequests are dropped, in the order asked.
pub fn trace_drops(
    turn: u64,
    book: &Book,
    board: &Board,
    subs: &VecDeque<Kept>,
    trace: &mut Trace,
) -> Result<(), NoMemory>
    requires { IsBoardOf board.now book.now }
    ensures ok { OnOk result (Adds turn trace.old trace.new (drops_of book.now (ask_of board.now) (told_of board.now) subs.now.items)) }
    ensures grew { Grew turn trace.old trace.new }
{
    if !trace.is_on() {
        return Ok(());
    }
    'dropping: for number in 0..subs.len() {
        match trace_drop(turn, book, board, &subs[number], trace) {
            Ok(()) => {}
            Err(NoMemory) => return Err(NoMemory),
        }
    }
    Ok(())
}

/// Tells that the query was asked with the number, and whether it was refused at once.
pub fn trace_ask(
    turn: u64,
    number: u64,
    query: Query,
    refused: bool,
    trace: &mut Trace,
) -> Result<(), NoMemory>
    ensures ok { OnOk result (Adds turn trace.old trace.new (asked_events number query refused)) }
    ensures grew { Grew turn trace.old trace.new }
{
    match trace.add(turn, &Event::Asked { number, query }) {
        Ok(()) => {}
        Err(NoMemory) => return Err(NoMemory),
    }
    if !refused {
        return Ok(());
    }
    trace.add(turn, &Event::Failed { number })
}
