//! A gateway whose regions are added by their codes.

ghost use Rattle.std.specs.Prelude.{IfSome};
ghost use Rattle.ojp_links.specs.Seen.{NoneLive};
ghost use Rattle.ojp_links_mem.specs.Memory.{links_of};
ghost use Rattle.ojp_hostile.specs.Ready.{HasCodes, IsReady};

use crate::connections::{NONE_FAILS, Outcome, PIECE, connection};
use crate::gates::serve_by_waits;
use crate::tables::{has_code, tables_of};
use crate::texts::{named, request_of};
use ojp_exchange::Book;
use ojp_gateway::learn_waiting;
use ojp_links::{Runtime, WaitLinks};
use ojp_links_mem::MemLinks;
use ojp_values::Code;
use std::alloc::Global;

/// What the gateway that may wait answers, and how many rests it took: the row has the timetables, the request, and
/// the codes of the regions.
pub(crate) fn wait_for<R: Runtime>(
    rt: &R,
    alloc: Global,
    texts: &str,
    row: &str,
) -> Option<(Outcome, u64)> {
    let (tables, rest) = row.split_once(" ")?;
    let (request, codes) = rest.split_once(" ")?;
    let bytes = request_of(alloc, texts, request)?;
    let mut links = opened(alloc, named(texts, tables)?, codes)?;
    let waited = waited_for(rt, alloc, &mut links, bytes.as_slice());
    drop(links);
    waited
}

/// The same once the book was learned over the links.
fn waited_for<R: Runtime>(
    rt: &R,
    alloc: Global,
    links: &mut MemLinks,
    bytes: &[u8],
) -> Option<(Outcome, u64)>
    requires { NoneLive (links_of links.old) }
{
    let book = learned(rt, alloc, links)?;
    count_anew(&book, links);
    let before = links.rests();
    let outcome = post(rt, alloc, &book, links, bytes);
    drop(book);
    Some((outcome?, links.rests().saturating_sub(before)))
}

/// Counts asks from 1 again, in order 0.
fn count_anew(book: &Book, links: &mut MemLinks)
    requires { IsReady book.now (links_of links.old) }
    ensures { IsReady book.now (links_of links.new) }
{
    let _ = book;
    links.renumber(0);
}

/// Posts the request to the gateway.
fn post<R: Runtime>(
    rt: &R,
    alloc: Global,
    book: &Book,
    links: &mut MemLinks,
    bytes: &[u8],
) -> Option<Outcome>
    requires { IsReady book.now (links_of links.old) }
{
    let (mut input, mut output) = connection(alloc, bytes, PIECE, NONE_FAILS)?;
    let served = serve_by_waits(rt, alloc, book, links, &mut input, &mut output);
    Some(Outcome { served, output })
}

/// The book of the regions.
fn learned<R: Runtime>(rt: &R, alloc: Global, links: &mut MemLinks) -> Option<Book>
    requires { NoneLive (links_of links.old) }
    ensures { IfSome result (λ book. IsReady book (links_of links.new)) }
{
    let mut lent = rt;
    match learn_waiting(&mut lent, alloc, links) {
        Ok(book) => Some(book),
        Err(_) => None,
    }
}

/// Links to the regions with these codes, which the timetables answer.
fn opened(alloc: Global, tables: &str, names: &str) -> Option<MemLinks>
    ensures { IfSome result (λ links. NoneLive (links_of links)) }
{
    let tables = tables_of(alloc, tables)?;
    let Ok(mut links) = MemLinks::unopened(alloc, tables, 0) else {
        return None;
    };
    let mut codes = Vec::new(alloc);
    'names: for name in names.split_whitespace() {
        if add_region(&mut links, &mut codes, name).is_none() {
            drop(links);
            return None;
        }
    }
    Some(links)
}

/// Adds the region whose code and host are the name, unless it is there.
fn add_region(links: &mut MemLinks, codes: &mut Vec<Code>, name: &str) -> Option<()>
    requires { HasCodes codes.old.items (links_of links.old) }
    ensures { IfSome result (λ done. HasCodes codes.new.items (links_of links.new)) }
{
    let Ok(code) = Code::new(name) else {
        return None;
    };
    if has_code(codes.as_slice(), &code) {
        return None;
    }
    let Ok(()) = links.add(code, name, 80) else {
        return None;
    };
    let Ok(()) = codes.push(code) else {
        return None;
    };
    Some(())
}
