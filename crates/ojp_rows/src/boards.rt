//! Rows of searches: timetables parted by lines of four plus signs, a line of four hyphens, an ask, `ORIGIN START TARGET`,
//! and a step a line: `wanted`, or `hear NUMBER` or `fail NUMBER` for the wanted query of that number. A row is told by
//! what its board wants and is told, and by how the search ends. For `points PLACE` in place of an ask it is told by the
//! exchange points of its book at the place, or by `all` of them.

mod answers;
mod searches;
mod shown;

ghost use Rattle.ojp_labels.specs.Boards.{IsBoardOf};

use crate::boards::searches::{board_of, fail, hear, wanted_at};
use crate::boards::shown::{show_fault, show_point, show_query, show_trip};
use crate::tables::{book_of, tables_of};
use crate::words::{ask_of, number_of, stop_of};
use ojp_exchange::Book;
use ojp_join::joined;
use ojp_labels::{Board, Query};
use ojp_timetable::Timetable;
use ojp_values::{Instant, Trip, TripAsk};
use std::alloc::Global;

/// Writes what comes of the row, and a line that ends it.
pub(crate) fn tell<R: AllocGlobal + Print>(rt: &R, row: &str) -> Option<()> {
    let (texts, rest) = row.split_once("----\n")?;
    let (ask, steps) = rest.split_once("\n")?;
    tell_texts(rt, texts, ask, steps)?;
    println!(rt; "====").ok()
}

fn tell_texts<R: AllocGlobal + Print>(rt: &R, texts: &str, ask: &str, steps: &str) -> Option<()> {
    let tables = tables_of(rt.alloc(), texts)?;
    tell_tables(rt, tables.as_slice(), ask, steps)
}

fn tell_tables<R: AllocGlobal + Print>(
    rt: &R,
    tables: &[Timetable],
    ask: &str,
    steps: &str,
) -> Option<()> {
    let book = book_of(rt.alloc(), tables)?.ok()?;
    let told = tell_book(rt, tables, &book, ask, steps);
    drop(book);
    told
}

fn tell_book<R: AllocGlobal + Print>(
    rt: &R,
    tables: &[Timetable],
    book: &Book,
    ask: &str,
    steps: &str,
) -> Option<()> {
    match ask.strip_prefix("points ") {
        Some(place) => show_points(rt, book, place),
        None => search(rt, tables, book, ask, steps),
    }
}

/// Writes the exchange points of the book at the place, or all of them.
fn show_points<R: AllocGlobal + Print>(rt: &R, book: &Book, place: &str) -> Option<()> {
    let place = match place {
        "all" => None,
        place => Some(stop_of(place)?),
    };
    let points = book.points(rt.alloc(), place).ok()?;
    for point in points.as_slice() {
        show_point(rt, point)?;
    }
    Some(())
}

/// Tells the steps of a search, and writes them, its end, and how many entries there are.
fn search<R: AllocGlobal + Print>(
    rt: &R,
    tables: &[Timetable],
    book: &Book,
    ask: &str,
    steps: &str,
) -> Option<()> {
    let ask = ask_of(ask)?;
    let mut board = board_of(rt.alloc(), book, &ask)?;
    let count = tell_board(rt, tables, &mut board, book, &ask, steps);
    let told = board.into_told();
    let count = count?;
    let is_whole = told.len() == count;
    println!(rt; "told {count} {is_whole}").ok()
}

/// Tells the steps, writes them and the end, and gives how many entries there are.
fn tell_board<R: AllocGlobal + Print>(
    rt: &R,
    tables: &[Timetable],
    board: &mut Board,
    book: &Book,
    ask: &TripAsk,
    steps: &str,
) -> Option<usize>
    requires { IsBoardOf board.old book.now }
{
    if board.ask() != *ask || !board.told().is_empty() {
        return None;
    }
    tell_steps(rt, tables, board, book, steps)?;
    end(rt, board, book)?;
    Some(board.told().len())
}

/// Tells the steps, a line each.
fn tell_steps<R: AllocGlobal + Print>(
    rt: &R,
    tables: &[Timetable],
    board: &mut Board,
    book: &Book,
    steps: &str,
) -> Option<()>
    requires { IsBoardOf board.old book.now }
    ensures { IsBoardOf board.new book.now }
{
    'steps: for step in steps.lines() {
        tell_step(rt, tables, board, book, step)?;
    }
    Some(())
}

/// Tells one step: that the wanted query of a number is heard, that it failed, or only what is wanted.
fn tell_step<R: AllocGlobal + Print>(
    rt: &R,
    tables: &[Timetable],
    board: &mut Board,
    book: &Book,
    step: &str,
) -> Option<()>
    requires { IsBoardOf board.old book.now }
    ensures { IsBoardOf board.new book.now }
{
    let Some((word, number)) = step.split_once(" ") else {
        return show_wanted(rt, board, book);
    };
    let number = number_of(number)?;
    let query = wanted_at(rt.alloc(), board, book, number)?;
    show_query(rt, word, &query)?;
    tell_word(rt.alloc(), tables, board, book, word, &query)
}

fn tell_word(
    alloc: Global,
    tables: &[Timetable],
    board: &mut Board,
    book: &Book,
    word: &str,
    query: &Query,
) -> Option<()>
    requires { IsBoardOf board.old book.now }
    ensures { IsBoardOf board.new book.now }
{
    match word {
        "hear" => hear(alloc, tables, board, book, query),
        "fail" => fail(board, book, query),
        _ => None,
    }
}

/// Writes what is wanted, by the numbers of the board.
fn show_wanted<R: Print>(rt: &R, board: &Board, book: &Book) -> Option<()>
    requires { IsBoardOf board.now book.now }
{
    'slots: for number in 0..board.slots() {
        if let Some(query) = board.slot(book, number) {
            show_query(rt, "wanted", &query)?;
        }
    }
    Some(())
}

/// Writes whether nothing is wanted, and the fault, or the best arrival and the joined trip.
fn end<R: AllocGlobal + Print>(rt: &R, board: &Board, book: &Book) -> Option<()>
    requires { IsBoardOf board.now book.now }
{
    let is_settled = board.is_settled(book);
    println!(rt; "settled {is_settled}").ok()?;
    match board.fault(book) {
        Some(fault) => show_fault(rt, &fault),
        None => show_joined(rt, board, book),
    }
}

/// Writes the joined trip.
fn show_joined<R: AllocGlobal + Print>(rt: &R, board: &Board, book: &Book) -> Option<()>
    requires { IsBoardOf board.now book.now }
{
    let best = board.best()?;
    let Ok(trip) = joined(rt.alloc(), book, board) else {
        return None;
    };
    show_best(rt, &trip, best)
}

/// Writes whether the trip ends at the best arrival, and the trip.
fn show_best<R: Print>(rt: &R, trip: &Trip, best: Instant) -> Option<()> {
    let is_best = trip.end == best;
    println!(rt; "best {is_best}").ok()?;
    show_trip(rt, trip)
}
