//! A board, and what is told to it.

ghost use Rattle.std.specs.Prelude.{◌≡◌, MatchBool, IfSome};
ghost use Rattle.ojp_links.specs.Fits.{Fits};
ghost use Rattle.ojp_records.specs.Records.{region_of};
ghost use Rattle.ojp_labels.specs.Boards.{IsBoardOf};

use crate::boards::answers::answer_of;
use ojp_exchange::Book;
use ojp_labels::{Board, Query};
use ojp_links::{Expect, fits};
use ojp_timetable::Timetable;
use ojp_values::{Ask, Code, Delivery, StopRef, TripAsk};
use std::alloc::Global;

/// The board of the ask, to which nothing was told.
pub(crate) fn board_of(alloc: Global, book: &Book, ask: &TripAsk) -> Option<Board>
    ensures { IfSome result (λ board. IsBoardOf board book.now) }
{
    if is_stop(&ask.origin, &ask.target) {
        return None;
    }
    match Board::new(alloc, book, ask) {
        Ok(board) => Some(board),
        Err(_) => None,
    }
}

/// Whether the stops are the same.
fn is_stop(stop: &StopRef, other: &StopRef) -> bool
    ensures { MatchBool result (stop.now ≡ other.now) (stop.now ≡ other.now → ⊥) }
{
    *stop == *other
}

/// The wanted query of that number, counted from 0.
pub(crate) fn wanted_at(alloc: Global, board: &Board, book: &Book, number: u32) -> Option<Query>
    requires { IsBoardOf board.now book.now }
{
    let mut live = Vec::new(alloc);
    for _ in 0..number {
        let query = board.next_wanted(book, live.as_slice())?;
        if live.push(query).is_err() {
            return None;
        }
    }
    board.next_wanted(book, live.as_slice())
}

/// Tells what the query's region answers to the query, which is wanted; the reply fits.
pub(crate) fn hear(
    alloc: Global,
    tables: &[Timetable],
    board: &mut Board,
    book: &Book,
    query: &Query,
) -> Option<()>
    requires { IsBoardOf board.old book.now }
    ensures { IsBoardOf board.new book.now }
{
    if !board.is_wanted(book, query) {
        return None;
    }
    let Ok(ask) = board.document(book, query) else {
        return None;
    };
    let reply = reply_of(alloc, tables, region_of(query), ask)?;
    board.hear(book, query, reply).ok()
}

/// What the region with the code answers to the ask, if it fits.
fn reply_of(alloc: Global, tables: &[Timetable], code: Code, ask: Ask) -> Option<Delivery>
    ensures { IfSome result (Fits code ask) }
{
    let Some(reply) = answer_of(alloc, tables, code, &ask) else {
        drop(ask);
        return None;
    };
    let expect = Expect::Region { code, ask };
    let is_fit = fits(&expect, &reply);
    drop(expect);
    if is_fit {
        Some(reply)
    } else {
        drop(reply);
        None
    }
}

/// Tells the failure of the query, which is wanted.
pub(crate) fn fail(board: &mut Board, book: &Book, query: &Query) -> Option<()>
    requires { IsBoardOf board.old book.now }
    ensures { IsBoardOf board.new book.now }
{
    if !board.is_wanted(book, query) {
        return None;
    }
    board.fail(book, query).ok()
}

/// The region that the query asks.
fn region_of(query: &Query) -> Code
    ensures { result ≡ region_of query.now }
{
    match query {
        Query::Check { region, .. } => *region,
        Query::Reach { region, .. } => *region,
    }
}
