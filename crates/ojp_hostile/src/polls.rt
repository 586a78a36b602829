//! A subrequest that is polled until it is over.

ghost use Rattle.std.specs.Prelude.{◌≡◌, IfSome, None};
ghost use Rattle.ojp_values.specs.Limits.{IsWellAsk};
ghost use Rattle.ojp_subrequests.specs.Subrequests.{IsHeldIn};

use crate::gates::links_to;
use crate::texts::{document, named};
use ojp_bodies::read_ask;
use ojp_encode::write;
use ojp_links::PacedLinks;
use ojp_outside::MemSink;
use ojp_subrequests::{SubEnd, SubPoll, Subreply};
use ojp_values::{Ask, Delivery, Doc, read_number};
use std::alloc::Global;

/// The most polls.
const MOST: usize = 1 << 24;

/// How often a poll found nothing, and how often bytes.
#[derive(Clone, Copy)]
pub(crate) struct Polls {
    pub pending: u64,
    pub moved: u64,
}

/// What was heard, and by how many polls.
#[derive(Drop)]
pub(crate) struct Told {
    pub polls: Polls,
    pub end: SubEnd,
}

/// What one subrequest hears where each look gives at most so many bytes: the row has this number and the request.
pub(crate) fn told_of(alloc: Global, texts: &str, row: &str) -> Option<Told> {
    let (most, request) = row.split_once(" ")?;
    let most = read_number(most.as_bytes())? as usize;
    let request = document(texts, request)?;
    let mut links = links_to(alloc, named(texts, "a")?, 0, most, Vec::new(alloc))?;
    let told = ask_first(alloc, &mut links, request);
    drop(links);
    told
}

/// The ask that the text spells.
fn ask_of(alloc: Global, text: &str) -> Option<Ask>
    ensures { IfSome result IsWellAsk }
{
    match read_ask(alloc, text.as_bytes()) {
        Ok(ask) => Some(ask),
        Err(_) => None,
    }
}

/// Asks the first region.
fn ask_first<L: PacedLinks>(alloc: Global, links: &mut L, request: &str) -> Option<Told> {
    if links.regions() == 0 {
        return None;
    }
    let ask = ask_of(alloc, request)?;
    match Subreply::begin(alloc, links, 0, ask, true) {
        Ok(mut sub) => {
            let told = hear(links, &mut sub);
            drop(sub);
            told
        }
        Err(_) => None,
    }
}

/// Polls the subrequest until it is over, with a rest after each poll.
fn hear<L: PacedLinks>(links: &mut L, sub: &mut Subreply) -> Option<Told>
    requires { IsHeldIn sub.old (L.seen links.old) }
{
    let mut polls = Polls {
        pending: 0,
        moved: 0,
    };
    'polls: for _ in 0..MOST {
        if let Some(end) = poll_once(links, sub, &mut polls) {
            return Some(Told { polls, end });
        }
    }
    None
}

/// Polls once, and rests where the subrequest goes on; how it ended, if it is over.
fn poll_once<L: PacedLinks>(links: &mut L, sub: &mut Subreply, polls: &mut Polls) -> Option<SubEnd>
    requires { IsHeldIn sub.old (L.seen links.old) }
    ensures { result ≡ None → IsHeldIn sub.new (L.seen links.new) }
{
    match sub.poll(links) {
        SubPoll::Pending => {
            polls.pending = polls.pending.saturating_add(1);
            links.rest();
            None
        }
        SubPoll::Moved => {
            polls.moved = polls.moved.saturating_add(1);
            links.rest();
            None
        }
        SubPoll::Over(end) => Some(end),
    }
}

/// The document of what was heard, if a reply was.
pub(crate) fn spelled(alloc: Global, end: SubEnd) -> Option<MemSink> {
    match end {
        SubEnd::Heard(delivery) => spelled_delivery(alloc, delivery),
        SubEnd::Failed => None,
        SubEnd::NoMemory => None,
    }
}

fn spelled_delivery(alloc: Global, delivery: Delivery) -> Option<MemSink> {
    let document = Doc::Delivery(delivery);
    let spelled = spelled_document(alloc, &document);
    drop(document);
    spelled
}

fn spelled_document(alloc: Global, document: &Doc) -> Option<MemSink> {
    if !document.is_well() {
        return None;
    }
    let mut sink = MemSink::new(alloc, Vec::new(alloc));
    write(document, &mut sink).ok()?;
    Some(sink)
}
