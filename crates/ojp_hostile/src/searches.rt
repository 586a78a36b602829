//! Searches over regions some of whose asks fail or have other replies.

ghost use Rattle.ojp_links.specs.Seen.{NoneLive};
ghost use Rattle.ojp_links_mem.specs.Memory.{links_of};
ghost use Rattle.ojp_hostile.specs.Ready.{IsReady};

use crate::connections::{NONE_FAILS, Outcome, PIECE, body_of, connection};
use crate::gates::{learned, links_to, serve_resting};
use crate::tallies::Tally;
use crate::texts::{document, named, request_of};
use ojp_exchange::Book;
use ojp_http::write_response;
use ojp_links_mem::{MemLinks, Script, What};
use ojp_outside::MemSink;
use ojp_values::read_number;
use std::alloc::Global;

/// What a script says of asks by their numbers, as `8` of one that fails and `4:NAME` of one with this document as
/// its reply. The asks that learn the book are counted too, one a region.
fn script_of(alloc: Global, texts: &str, words: &str) -> Option<Vec<Script>> {
    let mut script = Vec::new(alloc);
    for word in words.split_whitespace() {
        script.push(entry_of(alloc, texts, word)?).ok()?;
    }
    Some(script)
}

fn entry_of(alloc: Global, texts: &str, word: &str) -> Option<Script> {
    match word.split_once(":") {
        None => Some(Script {
            ask: u64::from(read_number(word.as_bytes())?),
            what: What::FailAsk,
        }),
        Some((ask, name)) => Some(Script {
            ask: u64::from(read_number(ask.as_bytes())?),
            what: What::Reply(response_of(alloc, document(texts, name)?)?),
        }),
    }
}

/// The response of status 200 with the document.
fn response_of(alloc: Global, document: &str) -> Option<Vec<u8>> {
    let mut sink = MemSink::new(alloc, Vec::new(alloc));
    write_response(200, document.as_bytes(), &mut sink).ok()?;
    Vec::from_slice(alloc, sink.written()).ok()
}

/// What a gateway answers to a request: its timetables, the order of replies, the request and the script. With one region
/// order 4, and with three order 1, gives the asks behind those that learn the book the rests of order 0.
pub(crate) fn search(alloc: Global, texts: &str, row: &str) -> Option<Outcome> {
    let (tables, rest) = row.split_once(" ")?;
    let (order, rest) = rest.split_once(" ")?;
    let (request, words) = rest.split_once(" ").unwrap_or((rest, ""));
    let order = u64::from(read_number(order.as_bytes())?);
    let tables = named(texts, tables)?;
    let bytes = request_of(alloc, texts, request)?;
    let mut links = links_to(alloc, tables, order, 0, script_of(alloc, texts, words)?)?;
    let outcome = post_first(alloc, &mut links, bytes.as_slice());
    drop(links);
    outcome
}

/// Posts the request to a gateway that learns its book over the links.
fn post_first(alloc: Global, links: &mut MemLinks, bytes: &[u8]) -> Option<Outcome>
    requires { NoneLive (links_of links.old) }
{
    let book = learned(alloc, links)?;
    let outcome = post(alloc, &book, links, bytes);
    drop(book);
    outcome
}

/// Posts the request to the gateway.
fn post(alloc: Global, book: &Book, links: &mut MemLinks, bytes: &[u8]) -> Option<Outcome>
    requires { IsReady book.now (links_of links.old) }
    ensures { IsReady book.now (links_of links.new) }
{
    let (mut input, mut output) = connection(alloc, bytes, PIECE, NONE_FAILS)?;
    let served = serve_resting(alloc, book, links, &mut input, &mut output);
    Some(Outcome { served, output })
}

/// The reply to the fourth ask is cut at each length below its whole, where a look gives at most `most` bytes. The region
/// fails for the request, and the next request is answered.
pub(crate) fn cut_replies(alloc: Global, texts: &str, most: usize) -> Option<Tally> {
    let reply = response_of(alloc, document(texts, "multi")?)?;
    let bytes = request_of(alloc, texts, "post")?;
    let mut tally = Tally::new();
    for length in 0..reply.len() {
        let is_right = is_overcome(alloc, texts, &reply[..length], most, bytes.as_slice())?;
        tally.count(length as u64, is_right);
    }
    Some(tally)
}

/// Whether the region fails for the request, and the next request is answered, where the fourth ask has this reply.
fn is_overcome(
    alloc: Global,
    texts: &str,
    reply: &[u8],
    most: usize,
    bytes: &[u8],
) -> Option<bool> {
    let tables = named(texts, "a")?;
    let mut links = links_to(alloc, tables, 4, most, script_with(alloc, reply)?)?;
    let is_right = is_overcome_over(alloc, texts, &mut links, bytes);
    drop(links);
    is_right
}

/// That the fourth ask has this reply.
fn script_with(alloc: Global, reply: &[u8]) -> Option<Vec<Script>> {
    let what = What::Reply(Vec::from_slice(alloc, reply).ok()?);
    let mut script = Vec::new(alloc);
    script.push(Script { ask: 4, what }).ok()?;
    Some(script)
}

/// The same by a gateway that learns its book over the links.
fn is_overcome_over(alloc: Global, texts: &str, links: &mut MemLinks, bytes: &[u8]) -> Option<bool>
    requires { NoneLive (links_of links.old) }
{
    let book = learned(alloc, links)?;
    let is_right = are_failed_and_trip(alloc, texts, &book, links, bytes);
    drop(book);
    is_right
}

/// Whether the first answer is that the region failed, and the second is the trip.
fn are_failed_and_trip(
    alloc: Global,
    texts: &str,
    book: &Book,
    links: &mut MemLinks,
    bytes: &[u8],
) -> Option<bool>
    requires { IsReady book.now (links_of links.old) }
{
    let first = post(alloc, book, links, bytes)?;
    let second = post(alloc, book, links, bytes)?;
    Some(is_document(texts, &first, "failed")? && is_document(texts, &second, "trip")?)
}

/// Whether the answer is the document with the name.
fn is_document(texts: &str, outcome: &Outcome, name: &str) -> Option<bool> {
    Some(body_of(&outcome.output)? == document(texts, name)?)
}
