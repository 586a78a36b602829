//! The links to the regions of a network, and their book.

ghost use Rattle.std.specs.Prelude.{◌≡◌, IfOk, List, map};
ghost use Rattle.ojp_values.specs.Lists.{IsRising};
ghost use Rattle.ojp_values.specs.Texts.{text_lt};
ghost use Rattle.ojp_timetable.specs.Tables.{Timetable};
ghost use Rattle.ojp_links.specs.Seen.{region_of_table};
ghost use Rattle.ojp_links_mem.specs.Memory.{links_of};
ghost use Rattle.ojp_load.specs.Ready.{AreLinksOpen, IsReady, MakeBook};

use ojp_exchange::Book;
use ojp_gateway::{LearnRefused, learn_paced};
use ojp_links::Links;
use ojp_links_mem::MemLinks;
use ojp_timetable::Timetable;
use ojp_values::NoMemory;
use std::alloc::Global;

/// Links to the regions of these timetables, which rise by code.
pub(crate) fn open(alloc: Global, tables: Vec<Timetable>) -> Result<MemLinks, NoMemory>
    requires { IsRising text_lt (map region_of_table tables.items) }
    ensures { IfOk result (λ links. AreLinksOpen tables.items (links_of links)) }
{
    MemLinks::new(alloc, tables, 0, 0)
}

/// Learns the book of the regions.
pub(crate) fn learn(alloc: Global, links: &mut MemLinks) -> Result<Book, NoMemory>
    requires { (tables : List Timetable) × MakeBook tables × AreLinksOpen tables (links_of links.old) }
    ensures { (tables : List Timetable) → AreLinksOpen tables (links_of links.old) → IfOk result (λ book. IsReady tables book (links_of links.new)) }
{
    links.is_sound();
    let learned = learn_paced(alloc, links);
    links.is_sound();
    match learned {
        Ok(book) => Ok(book),
        // The regions of a network agree, and their links do not fail.
        Err(refused) => Err(memory_of(refused)),
    }
}

// Want of memory, where no book was learned for no other reason.
fn memory_of(refused: LearnRefused) -> NoMemory
    requires { refused ≡ LearnRefused.NoMemory }
{
    match refused {
        LearnRefused::NoMemory => NoMemory,
        LearnRefused::Book(_) => unreachable!(),
        LearnRefused::Region(_) => unreachable!(),
    }
}
