//! The timetables of rows, and what these declare together.

ghost use Rattle.std.specs.Prelude.{IfSome, map};
ghost use Rattle.ojp_timetable.specs.Points.{AreWellPoints};
ghost use Rattle.ojp_exchange.specs.Joins.{AreWellLists};
ghost use Rattle.ojp_links.specs.Seen.{AreDistinct, region_of_table};

use ojp_exchange::{Book, BookRefused, RegionPoints, points_of};
use ojp_timetable::Timetable;
use std::alloc::Global;

/// The timetable of this text alone.
pub(crate) fn alone(alloc: Global, table: &str) -> Option<Vec<Timetable>>
    ensures { IfSome result (λ tables. AreDistinct (map region_of_table tables.items)) }
{
    let table = Timetable::read(alloc, table.as_bytes()).ok()?;
    let mut tables = Vec::new(alloc);
    let Ok(()) = tables.push(table) else {
        return None;
    };
    Some(tables)
}

/// The timetables of the texts, which are parted by lines of four plus signs.
pub(crate) fn tables_of(alloc: Global, texts: &str) -> Option<Vec<Timetable>> {
    let mut tables = Vec::new(alloc);
    for text in texts.split("++++\n") {
        let Ok(table) = Timetable::read(alloc, text.as_bytes()) else {
            return None;
        };
        tables.push(table).ok()?;
    }
    Some(tables)
}

/// The book of what the timetables declare, or why they make none.
pub(crate) fn book_of(alloc: Global, tables: &[Timetable]) -> Option<Result<Book, BookRefused>> {
    let lists = lists_of(alloc, tables)?;
    Some(Book::join(alloc, lists.as_slice()))
}

fn lists_of(alloc: Global, tables: &[Timetable]) -> Option<Vec<RegionPoints>>
    ensures { IfSome result (λ lists. AreWellLists lists.items) }
{
    let mut lists = Vec::new(alloc);
    'tables: for table in tables {
        let list = declared(alloc, table)?;
        if lists.push(list).is_err() {
            return None;
        }
    }
    Some(lists)
}

fn declared(alloc: Global, table: &Timetable) -> Option<RegionPoints>
    ensures { IfSome result (λ list. AreWellPoints list.code list.points) }
{
    table.is_well();
    let Ok(points) = points_of(alloc, table, None) else {
        return None;
    };
    Some(RegionPoints {
        code: table.region(),
        points,
    })
}
