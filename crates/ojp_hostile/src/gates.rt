//! Gateways over regions in memory.

ghost use Rattle.std.specs.Prelude.{IfSome, ◌≤◌};
ghost use Rattle.ojp_links.specs.Seen.{NoneLive};
ghost use Rattle.ojp_links_mem.specs.Memory.{links_of};
ghost use Rattle.ojp_hostile.specs.Ready.{IsReady};

use crate::tables::tables_of;
use ojp_exchange::Book;
use ojp_gateway::{learn_paced, serve_paced, serve_waiting};
use ojp_http::Served;
use ojp_links::Runtime;
use ojp_links_mem::{MemLinks, Script};
use ojp_outside::{MemSink, MemSource};
use std::alloc::Global;

/// The regions of the timetables, in this order of their replies, of which a look gives at most `most` bytes.
pub(crate) fn links_to(
    alloc: Global,
    tables: &str,
    order: u64,
    most: usize,
    script: Vec<Script>,
) -> Option<MemLinks>
    ensures { IfSome result (λ links. NoneLive (links_of links)) }
{
    let tables = tables_of(alloc, tables)?;
    match MemLinks::scripted(alloc, tables, order.min(10), most, script) {
        Ok(links) => Some(links),
        Err(_) => None,
    }
}

/// The book of the regions.
pub(crate) fn learned(alloc: Global, links: &mut MemLinks) -> Option<Book>
    requires { NoneLive (links_of links.old) }
    ensures { IfSome result (λ book. IsReady book (links_of links.new)) }
{
    match learn_paced(alloc, links) {
        Ok(book) => Some(book),
        Err(_) => None,
    }
}

/// How the gateway serves a connection, with a rest after each turn.
pub(crate) fn serve_resting(
    alloc: Global,
    book: &Book,
    links: &mut MemLinks,
    input: &mut MemSource,
    output: &mut MemSink,
) -> Served
    requires { IsReady book.now (links_of links.old) }
    ensures { IsReady book.now (links_of links.new) }
{
    serve_paced(alloc, book, links, input, output).served
}

/// The same by the server that may wait.
pub(crate) fn serve_by_waits<R: Runtime>(
    rt: &R,
    alloc: Global,
    book: &Book,
    links: &mut MemLinks,
    input: &mut MemSource,
    output: &mut MemSink,
) -> Served
    requires { IsReady book.now (links_of links.old) }
    ensures { IsReady book.now (links_of links.new) }
{
    let mut lent = rt;
    serve_waiting(&mut lent, alloc, book, links, input, output).served
}
