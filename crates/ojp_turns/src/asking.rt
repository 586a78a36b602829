//! The asks of a turn: what is wanted and not live is asked.

ghost use Rattle.std.specs.Prelude.{◌≡◌, ◌≢◌, ℕ, ◌+◌, ◌^◌, ◌<◌, ◌≤◌, length, map, slice_index_or, slice_set, Some, None, IfOk, OnErr, MatchBool};
ghost use Rattle.ojp_values.specs.Lists.{Among};
ghost use Rattle.ojp_links.specs.Seen.{code_at, codes_of};
ghost use Rattle.ojp_links.specs.Calls.{Keeps};
ghost use Rattle.ojp_records.specs.declared.queries.Query.{Query as QueryValue};
ghost use Rattle.ojp_records.specs.Records.{region_of};
ghost use Rattle.ojp_records.specs.Wanted.{wanted};
ghost use Rattle.ojp_labels.specs.Slots.{slots};
ghost use Rattle.ojp_labels.specs.Boards.{IsBoardOf, ask_of, told_of};
ghost use Rattle.ojp_turns.specs.Held.{HasRegions, NotAmong, StandsIn, query_of};
ghost use Rattle.ojp_turns.specs.Slots.{IsLastAt, IsNoneAsked};
ghost use Rattle.ojp_turns.specs.Asking.{AsksMore, AsksSome, IsAsked, IsAsking, StayLive};
ghost use Rattle.ojp_turns.specs.Tracing.{AsksThis, Grew, IsAskedAs, TracesAsks, TracesThis};
ghost use Rattle.ojp_turns.specs.Ordering.{AsksOrder, BeginOrder};

use crate::kept::Kept;
use crate::tracing::trace_ask;
use ojp_exchange::Book;
use ojp_labels::Board;
use ojp_links::Links;
use ojp_records::{Query, same_query};
use ojp_subrequests::{BeginRefused, Subreply};
use ojp_traces::Trace;
use ojp_values::{Code, NoMemory};
use std::alloc::Global;
use std::collections::VecDeque;

/// What was asked last at each number of a board, and how many asks were made.
#[derive(Drop)]
pub struct Asked {
    last: Vec<Option<Query>>,
    count: u64,
}

impl Asked {
    /// Nothing was asked at so many numbers.
    pub fn none(alloc: Global, numbers: usize) -> Result<Asked, NoMemory>
        ensures { IfOk result (IsNoneAsked numbers) }
    {
        let mut last = Vec::new(alloc);
        'numbers: for _ in 0..numbers {
            if last.push(None).is_err() {
                return Err(NoMemory);
            }
        }
        Ok(Asked { last, count: 0 })
    }

    /// How many asks were made.
    pub fn count(&self) -> u64
        ensures { result ≡ self.now.count }
    {
        self.count
    }

    // Whether the query was asked last at the number.
    fn is_last(&self, number: usize, query: &Query) -> bool
        requires { number < length self.now.last.items }
        ensures { MatchBool result (IsLastAt self.now.last.items number query.now) (IsLastAt self.now.last.items number query.now → ⊥) }
    {
        match &self.last[number] {
            Some(last) => same_query(last, query),
            None => false,
        }
    }

    // The query that was asked last at the number.
    fn last_at(&self, number: usize) -> Option<Query>
        requires { number < length self.now.last.items }
        ensures { result ≡ slice_index_or self.now.last.items number None }
    {
        self.last[number]
    }

    // The query was asked at the number.
    fn note(&mut self, number: usize, query: Query)
        requires within { number < length self.old.last.items }
        requires fits { self.old.count + 1 < 2 ^ 64 }
        ensures last { self.new.last.items ≡ slice_set self.old.last.items number (Some query) }
        ensures count { self.new.count ≡ self.old.count + 1 }
    {
        self.last[number] = Some(query);
        self.count += 1;
    }
}

// The number of the region with the code.
fn region_number<L: Links>(links: &L, code: Code) -> usize
    requires { Among code (codes_of (L.seen links.now).fixed) }
    ensures below { result < length (L.seen links.now).fixed.stations }
    ensures code { code_at (L.seen links.now) result ≡ code }
{
    'regions: for region in 0..links.regions() {
        if links.code(region) == code {
            return region;
        }
    }
    unreachable!()
}

// Asks a wanted query that is not live. It is live then, unless its region could not be asked; then its failure was told.
fn ask_one<L: Links>(
    alloc: Global,
    book: &Book,
    board: &mut Board,
    links: &mut L,
    subs: &mut VecDeque<Kept>,
    query: Query,
    number: u64,
) -> Result<(), NoMemory>
    requires of { IsBoardOf board.old book.now }
    requires stands { StandsIn book.now (ask_of board.old) (told_of board.old) subs.old.items (L.seen links.old) }
    requires regions { HasRegions book.now (L.seen links.old) }
    requires wanted { Among query (wanted book.now (ask_of board.old) (told_of board.old)) }
    requires missing { NotAmong query (map query_of subs.old.items) }
    ensures of { IsBoardOf board.new book.now }
    ensures ask { ask_of board.new ≡ ask_of board.old }
    ensures stands { StandsIn book.now (ask_of board.old) (told_of board.new) subs.new.items (L.seen links.new) }
    ensures keeps { Keeps (L.seen links.old) (L.seen links.new) }
    ensures rejections { (L.seen links.new).rejections ≡ (L.seen links.old).rejections }
    ensures same { StayLive (L.seen links.old) (L.seen links.new) subs.old.items }
    ensures asked { IfOk result (λ done. IsAsked (L.seen links.old) (L.seen links.new) subs.old.items subs.new.items (told_of board.old) (told_of board.new) query) }
    ensures numbered { IfOk result (λ done. IsAskedAs number subs.old.items subs.new.items (told_of board.old) (told_of board.new) query) }
    ensures ordered { IfOk result (λ done. (asks : ℕ) → number ≡ asks + 1 → BeginOrder (L.seen links.old) (L.seen links.new) asks subs.old.items subs.new.items) }
    ensures told { OnErr result (told_of board.new ≡ told_of board.old) }
    ensures subs { OnErr result (subs.new.items ≡ subs.old.items) }
{
    let region = region_number(links, query_region(&query));
    let Ok(asking) = board.document(book, &query) else {
        return Err(NoMemory);
    };
    let Ok(()) = subs.reserve(1) else {
        return Err(NoMemory);
    };
    match Subreply::begin(alloc, links, region, asking, true) {
        Ok(sub) => {
            subs.push_back_reserved(Kept { query, number, sub });
            Ok(())
        }
        Err(BeginRefused::Failed) => match board.fail(book, &query) {
            Ok(()) => Ok(()),
            Err(NoMemory) => Err(NoMemory),
        },
        Err(BeginRefused::NoMemory) => Err(NoMemory),
    }
}

// The region that the query asks.
fn query_region(query: &Query) -> Code
    ensures { result ≡ region_of query.now }
{
    match *query {
        Query::Check { region, .. } => region,
        Query::Reach { region, .. } => region,
    }
}

// Asks what is wanted at the number, unless it is live. Says whether it did.
fn ask_at<L: Links>(
    alloc: Global,
    book: &Book,
    board: &mut Board,
    links: &mut L,
    subs: &mut VecDeque<Kept>,
    asked: &mut Asked,
    number: usize,
) -> Result<bool, NoMemory>
    requires of { IsBoardOf board.old book.now }
    requires differ { (ask_of board.old).origin ≢ (ask_of board.old).target }
    requires regions { HasRegions book.now (L.seen links.old) }
    requires asking { IsAsking book.now (ask_of board.old) (told_of board.old) subs.old.items asked.old.last.items asked.old.count (L.seen links.old) }
    requires within { number < length book.now.spots + 3 }
    ensures of { IsBoardOf board.new book.now }
    ensures ask { ask_of board.new ≡ ask_of board.old }
    ensures asking { IsAsking book.now (ask_of board.old) (told_of board.new) subs.new.items asked.new.last.items asked.new.count (L.seen links.new) }
    ensures counts { asked.old.count ≤ asked.new.count }
    ensures more { AsksMore book.now (ask_of board.old) (L.seen links.old) (L.seen links.new) subs.old.items subs.new.items (told_of board.old) (told_of board.new) }
    ensures some { IfOk result (λ some. AsksSome some asked.old.count asked.new.count (L.seen links.old) (L.seen links.new) subs.old.items subs.new.items (told_of board.old) (told_of board.new)) }
    ensures live { IfOk result (λ some. (query : QueryValue) → slice_index_or (slots book.now (ask_of board.old) (told_of board.new)) number None ≡ Some query → Among query (map query_of subs.new.items)) }
    ensures ordered { IfOk result (λ some. BeginOrder (L.seen links.old) (L.seen links.new) asked.old.count subs.old.items subs.new.items) }
    ensures this { IfOk result (λ some. AsksThis some book.now (ask_of board.old) number subs.old.items subs.new.items (told_of board.old) (told_of board.new) asked.old.count asked.new.count asked.new.last.items) }
{
    let Some(query) = board.slot(book, number) else {
        return Ok(false);
    };
    if asked.is_last(number, &query) {
        return Ok(false);
    }
    match ask_one(alloc, book, board, links, subs, query, asked.count() + 1) {
        Ok(()) => {
            asked.note(number, query);
            Ok(true)
        }
        Err(NoMemory) => Err(NoMemory),
    }
}

// Asks what is wanted at the number, unless it is live, and tells the trace. Says whether it did.
fn ask_next<L: Links>(
    turn: u64,
    alloc: Global,
    book: &Book,
    board: &mut Board,
    links: &mut L,
    subs: &mut VecDeque<Kept>,
    asked: &mut Asked,
    number: usize,
    trace: &mut Trace,
) -> Result<bool, NoMemory>
    requires of { IsBoardOf board.old book.now }
    requires differ { (ask_of board.old).origin ≢ (ask_of board.old).target }
    requires regions { HasRegions book.now (L.seen links.old) }
    requires asking { IsAsking book.now (ask_of board.old) (told_of board.old) subs.old.items asked.old.last.items asked.old.count (L.seen links.old) }
    requires within { number < length book.now.spots + 3 }
    ensures of { IsBoardOf board.new book.now }
    ensures ask { ask_of board.new ≡ ask_of board.old }
    ensures asking { IsAsking book.now (ask_of board.old) (told_of board.new) subs.new.items asked.new.last.items asked.new.count (L.seen links.new) }
    ensures counts { asked.old.count ≤ asked.new.count }
    ensures more { AsksMore book.now (ask_of board.old) (L.seen links.old) (L.seen links.new) subs.old.items subs.new.items (told_of board.old) (told_of board.new) }
    ensures some { IfOk result (λ some. AsksSome some asked.old.count asked.new.count (L.seen links.old) (L.seen links.new) subs.old.items subs.new.items (told_of board.old) (told_of board.new)) }
    ensures live { IfOk result (λ some. (query : QueryValue) → slice_index_or (slots book.now (ask_of board.old) (told_of board.new)) number None ≡ Some query → Among query (map query_of subs.new.items)) }
    ensures ordered { IfOk result (λ some. BeginOrder (L.seen links.old) (L.seen links.new) asked.old.count subs.old.items subs.new.items) }
    ensures traced { IfOk result (λ some. TracesThis some turn book.now (ask_of board.old) number subs.old.items subs.new.items (told_of board.old) (told_of board.new) asked.old.count asked.new.count trace.old trace.new) }
    ensures grew { Grew turn trace.old trace.new }
{
    let before = board.told().len();
    match ask_at(alloc, book, board, links, subs, asked, number) {
        Ok(some) => {
            if !some {
                return Ok(false);
            }
            let Some(query) = asked.last_at(number) else {
                unreachable!();
            };
            let refused = board.told().len() > before;
            match trace_ask(turn, asked.count(), query, refused, trace) {
                Ok(()) => Ok(true),
                Err(NoMemory) => Err(NoMemory),
            }
        }
        Err(NoMemory) => Err(NoMemory),
    }
}

/// Asks what is wanted and not live, in the order of the board. Says whether an ask was made.
pub fn ask_all<L: Links>(
    turn: u64,
    alloc: Global,
    book: &Book,
    board: &mut Board,
    links: &mut L,
    subs: &mut VecDeque<Kept>,
    asked: &mut Asked,
    trace: &mut Trace,
) -> Result<bool, NoMemory>
    requires of { IsBoardOf board.old book.now }
    requires differ { (ask_of board.old).origin ≢ (ask_of board.old).target }
    requires regions { HasRegions book.now (L.seen links.old) }
    requires asking { IsAsking book.now (ask_of board.old) (told_of board.old) subs.old.items asked.old.last.items asked.old.count (L.seen links.old) }
    ensures of { IsBoardOf board.new book.now }
    ensures ask { ask_of board.new ≡ ask_of board.old }
    ensures asking { IsAsking book.now (ask_of board.old) (told_of board.new) subs.new.items asked.new.last.items asked.new.count (L.seen links.new) }
    ensures counts { asked.old.count ≤ asked.new.count }
    ensures more { AsksMore book.now (ask_of board.old) (L.seen links.old) (L.seen links.new) subs.old.items subs.new.items (told_of board.old) (told_of board.new) }
    ensures some { IfOk result (λ some. AsksSome some asked.old.count asked.new.count (L.seen links.old) (L.seen links.new) subs.old.items subs.new.items (told_of board.old) (told_of board.new)) }
    ensures none_missing { IfOk result (λ some. (query : QueryValue) → Among query (wanted book.now (ask_of board.old) (told_of board.new)) → Among query (map query_of subs.new.items)) }
    ensures ordered { IfOk result (λ some. AsksOrder (L.seen links.old) (L.seen links.new) subs.old.items subs.new.items asked.old.count asked.new.count (told_of board.old) (told_of board.new)) }
    ensures traced { IfOk result (λ some. TracesAsks turn book.now (ask_of board.old) subs.old.items subs.new.items (told_of board.old) (told_of board.new) asked.old.count asked.new.count trace.old trace.new) }
    ensures grew { Grew turn trace.old trace.new }
{
    let mut some = false;
    let count = board.slots();
    'asking: for number in 0..count {
        match ask_next(turn, alloc, book, board, links, subs, asked, number, trace) {
            Ok(one) => some |= one,
            Err(NoMemory) => return Err(NoMemory),
        }
    }
    Ok(some)
}
