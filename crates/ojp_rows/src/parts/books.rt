//! Books of small regions, by what their timetables declare.

use crate::parts::spelled::bytes_of;
use crate::tables::book_of;
use crate::words::{code_of, stop_of, text_of};
use ojp_exchange::{Book, BookRefused};
use ojp_timetable::Timetable;
use std::alloc::Global;

/// The timetables of a row, which are parted by bars.
fn tables_of(alloc: Global, texts: &str) -> Option<Vec<Timetable>> {
    let mut tables = Vec::new(alloc);
    for text in texts.split("|") {
        let bytes = bytes_of(alloc, text)?;
        let Ok(table) = Timetable::read(alloc, &bytes) else {
            return None;
        };
        tables.push(table).ok()?;
    }
    Some(tables)
}

/// The book of these timetables, or why they make none.
fn joined(alloc: Global, texts: &str) -> Option<Result<Book, BookRefused>> {
    let tables = tables_of(alloc, texts)?;
    book_of(alloc, tables.as_slice())
}

/// Why the timetables of a row make no book, or that they make one.
pub(crate) fn book_outcome(alloc: Global, texts: &str) -> Option<String> {
    match joined(alloc, texts)?.err() {
        Some(refused) => refusal_text(alloc, refused),
        None => String::from_str(alloc, "joined").ok(),
    }
}

/// A refusal by its point and its regions.
fn refusal_text(alloc: Global, refused: BookRefused) -> Option<String> {
    match refused {
        BookRefused::Disagree { point, left, right } => {
            let point = text_of(point.text())?;
            let left = text_of(left.text())?;
            let right = text_of(right.text())?;
            format!(in alloc; "disagree {point} {left} {right}").ok()
        }
        BookRefused::TwiceRegion(code) => {
            let code = text_of(code.text())?;
            format!(in alloc; "twice {code}").ok()
        }
        BookRefused::TooMany | BookRefused::NoMemory => None,
    }
}

/// The changes at x:P and the places of the book of a row.
pub(crate) fn book_changes(alloc: Global, texts: &str) -> Option<String> {
    let book = joined(alloc, texts)?.ok()?;
    let text = changes_text(alloc, &book);
    drop(book);
    text
}

fn changes_text(alloc: Global, book: &Book) -> Option<String> {
    let (aa, bb) = (code_of("AA")?, code_of("BB")?);
    let cc = code_of("CC")?;
    let point = stop_of("x:P")?;
    let there = book.change(point, aa, bb);
    let back = book.change(point, bb, aa);
    let never = book.change(point, cc, aa);
    let are_all = book.regions_at(point) == book.regions();
    let places = book.places();
    let ways = book.ways(aa);
    format!(in alloc; "{there:?} {back:?} {never:?} {are_all} {places} {ways:?}").ok()
}

/// Where the second place of the book of a row leads, and which regions serve AA:a.
pub(crate) fn book_places(alloc: Global, texts: &str) -> Option<String> {
    let book = joined(alloc, texts)?.ok()?;
    let text = places_text(alloc, &book);
    drop(book);
    text
}

fn places_text(alloc: Global, book: &Book) -> Option<String> {
    let (aa, bb) = (code_of("AA")?, code_of("BB")?);
    let stop = stop_of("AA:a")?;
    if book.places() < 2 {
        return None;
    }
    let edge = *book.edges(1).first()?;
    if edge.to >= book.places() {
        return None;
    }
    let spot = book.spot(edge.to);
    let (to, change, place) = (edge.to, edge.change, book.place_of(spot.stop, spot.region));
    let (first, second) = (book.number_of(aa), book.number_of(bb));
    let (serves, passes) = (book.serves(aa, stop), book.serves(bb, stop));
    format!(in alloc; "{to} {change} {place:?} {first:?} {second:?} {serves} {passes}").ok()
}
