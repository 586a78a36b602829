//! Rows of what the layers below the commands do, whose first word says what is tried. In the text of a row `$` stands for
//! a line end, `^` and `~` for its carriage return and its line feed alone, and `@3*ab@` for `ababab`.

mod books;
mod frames;
mod outside;
mod real;
mod replies;
mod spelled;

use std::alloc::Global;
use std::net::Net;
use std::rt::{Clock, Files};

/// Writes what comes of a row.
pub(crate) fn tell<R: AllocGlobal + Print + Files + Clock + Net>(rt: &R, row: &str) -> Option<()> {
    let outcome = outcome_of(rt, rt.alloc(), row)?;
    println!(rt; "{outcome}").ok()
}

fn outcome_of<R: Files + Clock + Net>(rt: &R, alloc: Global, row: &str) -> Option<String> {
    let (word, text) = row.split_once(" ")?;
    match word {
        "ask" => frames::asked(alloc, text),
        "failing" => frames::failed(alloc, text),
        "refused" => frames::refused(alloc, text),
        "reply" => frames::replied(alloc, text),
        "bytes" => frames::replied_by_bytes(alloc, text),
        "request" => frames::requested(alloc, text),
        "response" => frames::responded(alloc, text),
        "broken" => frames::broken(alloc, text),
        "memory" => frames::wanting(alloc),
        "real" => real_outcome(rt, alloc, text),
        _ => other_outcome(alloc, word, text),
    }
}

/// The same for rows that frame nothing.
fn other_outcome(alloc: Global, word: &str, text: &str) -> Option<String> {
    match word {
        "trip" => replies::trip_fits(alloc, text),
        "events" => replies::events_fit(alloc, text),
        "points" => replies::points_fit(alloc, text),
        "join" => books::book_outcome(alloc, text),
        "changes" => books::book_changes(alloc, text),
        "places" => books::book_places(alloc, text),
        "outside" => outside_outcome(alloc, text),
        _ => None,
    }
}

/// What the forms in memory of what is outside give.
fn outside_outcome(alloc: Global, what: &str) -> Option<String> {
    match what {
        "source" => outside::source(alloc),
        "reading" => outside::reading(alloc),
        "sink" => outside::sink(alloc),
        "store" => outside::store(alloc),
        "adapters" => outside::adapters(alloc),
        "clock" => outside::clock(alloc),
        "doors" => outside::doors(alloc),
        _ => None,
    }
}

/// What real files, clocks and sockets give.
fn real_outcome<R: Files + Clock + Net>(rt: &R, alloc: Global, what: &str) -> Option<String> {
    match what {
        "file" => real::file(rt, alloc),
        "time" => real::time(rt, alloc),
        "sockets" => real::sockets(rt, alloc),
        _ => None,
    }
}
