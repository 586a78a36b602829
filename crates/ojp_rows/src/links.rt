//! Rows of links to a region in memory: a timetable, a line of four hyphens, and links a line. `new ORDER MOST` are links
//! made by `new`; `scripted ORDER MOST` those whose first ask fails, whose second fails at its look, and whose third has
//! the reply `hello`; `added CODE` those to which the region AA was added, with this code as its host. Links are told by
//! their first three asks: the rests before the reply came, and the bytes of the first look.

ghost use Rattle.std.specs.Prelude.{◌≤◌};

mod asking;

use crate::links::asking::{End, add_region, ask_first};
use crate::tables::alone;
use crate::words::number_of;
use ojp_links_mem::{MemLinks, Script, What};
use std::alloc::Global;

/// Writes what each of the links gives.
pub(crate) fn tell<R: AllocGlobal + Print>(rt: &R, row: &str) -> Option<()> {
    let (table, lines) = row.split_once("----\n")?;
    for line in lines.lines() {
        tell_links(rt, table, line)?;
    }
    Some(())
}

/// Writes the line of links and their first three asks.
fn tell_links<R: AllocGlobal + Print>(rt: &R, table: &str, line: &str) -> Option<()> {
    let mut links = links_of(rt.alloc(), table, line)?;
    let told = tell_asks(rt, &mut links, line);
    drop(links);
    told
}

fn tell_asks<R: Print>(rt: &R, links: &mut MemLinks, line: &str) -> Option<()> {
    println!(rt; "{line}").ok()?;
    for number in 1..4_u64 {
        tell_end(rt, number, ask_first(links)?)?;
    }
    let rests = links.rests();
    println!(rt; "{rests} rests").ok()
}

/// Writes how the ask with the number ended.
fn tell_end<R: Print>(rt: &R, number: u64, end: End) -> Option<()> {
    match end {
        End::Refused => println!(rt; "{number}: refused").ok(),
        End::Failed(rests) => println!(rt; "{number}: {rests} rests, failed").ok(),
        End::Got(rests, bytes) => println!(rt; "{number}: {rests} rests, {bytes} bytes").ok(),
    }
}

/// The links of a line.
fn links_of(alloc: Global, table: &str, line: &str) -> Option<MemLinks> {
    let (kind, rest) = line.split_once(" ")?;
    if kind == "added" {
        return added(alloc, table, rest);
    }
    let (order, most) = rest.split_once(" ")?;
    let order = u64::from(number_of(order)?).min(10);
    let most = number_of(most)? as usize;
    if kind == "scripted" {
        return scripted(alloc, table, order, most);
    }
    MemLinks::new(alloc, alone(alloc, table)?, order, most).ok()
}

/// The links to which the region AA was added, with this text as its host.
fn added(alloc: Global, table: &str, host: &str) -> Option<MemLinks> {
    let mut links = MemLinks::unopened(alloc, alone(alloc, table)?, 0).ok()?;
    match add_region(&mut links, host) {
        Some(()) => Some(links),
        None => {
            drop(links);
            None
        }
    }
}

/// The links with the script.
fn scripted(alloc: Global, table: &str, order: u64, most: usize) -> Option<MemLinks>
    requires { order ≤ 10 }
{
    let script = script(alloc)?;
    MemLinks::scripted(alloc, alone(alloc, table)?, order, most, script).ok()
}

/// The first ask fails, the second fails at its look, and the third has a stated reply. The last entry comes
/// after another for its ask, and so says nothing.
fn script(alloc: Global) -> Option<Vec<Script>> {
    let hello = Vec::from_slice(alloc, b"hello").ok()?;
    let mut script = Vec::new(alloc);
    script
        .push(Script {
            ask: 3,
            what: What::Reply(hello),
        })
        .ok()?;
    script
        .push(Script {
            ask: 1,
            what: What::FailAsk,
        })
        .ok()?;
    script
        .push(Script {
            ask: 2,
            what: What::FailMore,
        })
        .ok()?;
    script
        .push(Script {
            ask: 3,
            what: What::FailAsk,
        })
        .ok()?;
    Some(script)
}
