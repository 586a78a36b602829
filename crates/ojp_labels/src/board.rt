//! The board of a search: its record, and what it keeps beside it to answer at once.

ghost use Rattle.std.specs.Prelude.{◌≡◌, ◌≢◌, ℕ, ◌+◌, ◌<◌, ◌↔◌, ◌++◌, ◌∷◌, [], length, slice_index_or, Some, None, IsTrue, MatchBool, IfOk, IfSome, OnOk, OnErr};
ghost use Rattle.ojp_values.specs.Lists.{Among};
ghost use Rattle.ojp_values.specs.Texts.{Text, home};
ghost use Rattle.ojp_exchange.specs.Book.{Book as Flat};
ghost use Rattle.ojp_exchange.specs.Places.{IsPairAt};
ghost use Rattle.ojp_records.specs.Starts.{best};
ghost use Rattle.ojp_records.specs.Wanted.{wanted, IsNext};
ghost use Rattle.ojp_records.specs.Told.{document, IsOpenQuery, ReplyFits};
ghost use Rattle.ojp_records.specs.Ends.{failed_check, fault, least_text};
ghost use Rattle.ojp_labels.specs.Slots.{are_known, known_slot, origin_slot, slots, somes, target_slot};
ghost use Rattle.ojp_labels.specs.Boards.{ask_of, entry_of, failed_places, kept_slots, is_own, own_failed, own_slot, own_spot_of, own_told, told_of, IsBoardOf, IsUnchanged};

use crate::comparing::{is_live, is_this, stop_check};
use crate::faults::{failed_by, failed_code, fault_by, lesser_code};
use crate::hearing::{mark_pair, take_reply};
use crate::labels::{Label, open_start, reach_from};
use crate::starting::{first_labels, own_label};
use crate::states::{first_state, reply_state, state_after};
use crate::targets::targets_of;
use ojp_exchange::{Book, Spot};
use ojp_records::{Entry, PlaceState, Query};
use ojp_values::{
    Ask, Code, Delivery, EventAsk, EventKind, Fault, Instant, List, MultiAsk, NoMemory, StopRef,
    TripAsk,
};
use std::alloc::Global;

/// The record of a search. Beside it stand the best arrival, what is known of origin and target, and for each pair its
/// least known start, so that no question goes over the record.
#[derive(Drop)]
pub struct Board {
    alloc: Global,
    ask: TripAsk,
    told: Vec<Entry>,
    best: Option<Instant>,
    origin: PlaceState,
    target: PlaceState,
    own: Label,
    labels: Vec<Label>,
}

impl Board {
    /// The board of a search to which nothing was told. It takes the memory for its pairs.
    pub fn new(alloc: Global, book: &Book, ask: &TripAsk) -> Result<Board, NoMemory>
        requires { ask.now.origin ≢ ask.now.target }
        ensures of { IfOk result (λ board. IsBoardOf board book.now) }
        ensures ask { IfOk result (λ board. ask_of board ≡ ask.now) }
        ensures told { IfOk result (λ board. told_of board ≡ []) }
    {
        // The book is well, and the origin is a reference to a stop.
        book.is_well();
        let _origin = ask.origin.text();
        let labels = first_labels(alloc, book, ask)?;
        Ok(Board {
            alloc,
            ask: *ask,
            told: Vec::new(alloc),
            best: None,
            origin: first_state(book, ask.origin),
            target: first_state(book, ask.target),
            own: own_label(book, ask),
            labels,
        })
    }

    /// The ask of the search.
    pub fn ask(&self) -> TripAsk
        ensures { result ≡ ask_of self.now }
    {
        self.ask
    }

    /// The record: all that was told to the board, in the order told.
    pub fn told(&self) -> &[Entry]
        ensures { result.now ≡ told_of self.now }
    {
        self.told.as_slice()
    }

    /// Gives the record away.
    pub fn into_told(self) -> List<Entry>
        ensures { result ≡ told_of self }
    {
        let Board { told, .. } = self;
        List::from_items(told)
    }

    /// The best arrival: the least one heard at the requested target within the day.
    pub fn best(&self) -> Option<Instant>
        ensures { (book : Flat) → IsBoardOf self.now book → result ≡ best book (ask_of self.now) (told_of self.now) }
    {
        self.best
    }

    /// The subrequest that asks the query.
    pub fn document(&self, book: &Book, query: &Query) -> Result<Ask, NoMemory>
        ensures { IfOk result (λ asked. asked ≡ document book.now (ask_of self.now) query.now) }
    {
        match *query {
            Query::Check { stop, .. } => Ok(Ask::Events(EventAsk {
                stop,
                start: self.ask.start,
                kind: EventKind::Departure,
                number: 1,
            })),
            Query::Reach {
                region,
                stop,
                start,
            } => {
                let targets = targets_of(self.alloc, book, &self.ask, region, stop)?;
                Ok(Ask::Multi(MultiAsk {
                    origin: stop,
                    start,
                    targets,
                }))
            }
        }
    }

    /// Tells the reply to an open query. At an error the reply is dropped, and the board is as it was.
    pub fn hear(&mut self, book: &Book, query: &Query, reply: Delivery) -> Result<(), NoMemory>
        requires of { IsBoardOf self.old book.now }
        requires fresh { IsOpenQuery book.now (ask_of self.old) (told_of self.old) query.now }
        requires fits { ReplyFits book.now (ask_of self.old) query.now (Some reply) }
        ensures of { IsBoardOf self.new book.now }
        ensures told { OnOk result (told_of self.new ≡ told_of self.old ++ entry_of query.now (Some reply) ∷ []) }
        ensures ask { ask_of self.new ≡ ask_of self.old }
        ensures err { OnErr result (IsUnchanged self.old self.new) }
    {
        self.tell(book, *query, Some(reply))
    }

    /// Tells the failure of an open query. At an error the board is as it was.
    pub fn fail(&mut self, book: &Book, query: &Query) -> Result<(), NoMemory>
        requires of { IsBoardOf self.old book.now }
        requires fresh { IsOpenQuery book.now (ask_of self.old) (told_of self.old) query.now }
        ensures of { IsBoardOf self.new book.now }
        ensures told { OnOk result (told_of self.new ≡ told_of self.old ++ entry_of query.now None ∷ []) }
        ensures ask { ask_of self.new ≡ ask_of self.old }
        ensures err { OnErr result (IsUnchanged self.old self.new) }
    {
        self.tell(book, *query, None)
    }

    /// The first wanted query that is not live.
    pub fn next_wanted(&self, book: &Book, live: &[Query]) -> Option<Query>
        requires { IsBoardOf self.now book.now }
        ensures { IsNext (wanted book.now (ask_of self.now) (told_of self.now)) live.now result }
    {
        'slots: for number in 0..self.slots() {
            if let Some(query) = self.slot(book, number) {
                if !is_live(live, &query) {
                    return Some(query);
                }
            }
        }
        None
    }

    /// Whether the query is wanted.
    pub fn is_wanted(&self, book: &Book, query: &Query) -> bool
        requires { IsBoardOf self.now book.now }
        ensures { MatchBool result (Among query.now (wanted book.now (ask_of self.now) (told_of self.now))) (Among query.now (wanted book.now (ask_of self.now) (told_of self.now)) → ⊥) }
    {
        if is_this(&self.slot(book, 0), query) {
            return true;
        }
        if is_this(&self.slot(book, 1), query) {
            return true;
        }
        if is_this(&self.slot(book, 2), query) {
            return true;
        }
        is_this(&self.slot_of(book, query), query)
    }

    /// Whether nothing is wanted.
    pub fn is_settled(&self, book: &Book) -> bool
        requires { IsBoardOf self.now book.now }
        ensures { IsTrue result ↔ (wanted book.now (ask_of self.now) (told_of self.now) ≡ []) }
    {
        self.next_wanted(book, &[]).is_none()
    }

    /// The fault that the search ends with, where nothing is wanted; `None` exactly where a trip is the answer.
    pub fn fault(&self, book: &Book) -> Option<Fault>
        requires { IsBoardOf self.now book.now }
        ensures { result ≡ fault book.now (ask_of self.now) (told_of self.now) }
    {
        let check = self.failed_check();
        let pair = lesser_code(self.own_failed(), self.failed_pair(book));
        fault_by(&self.ask, self.origin, self.target, check, pair, self.best)
    }

    /// How many numbers there are: those of the origin, of the target, of the origin's own pair and of each place of the
    /// book. What is wanted at them, in their order, is what the record wants.
    pub fn slots(&self) -> usize
        ensures count { (book : Flat) → IsBoardOf self.now book → result ≡ length book.spots + 3 }
        ensures wanted { (book : Flat) → IsBoardOf self.now book → somes (slots book (ask_of self.now) (told_of self.now)) ≡ wanted book (ask_of self.now) (told_of self.now) }
    {
        self.labels.len() + 3
    }

    /// What is wanted at the number.
    pub fn slot(&self, book: &Book, number: usize) -> Option<Query>
        requires of { IsBoardOf self.now book.now }
        requires within { number < length book.now.spots + 3 }
        ensures { result ≡ slice_index_or (slots book.now (ask_of self.now) (told_of self.now)) number None }
    {
        self.kept_slot(book, number)
    }
}

// What the public calls are made of.
impl Board {
    fn tell(&mut self, book: &Book, query: Query, reply: Option<Delivery>) -> Result<(), NoMemory>
        requires of { IsBoardOf self.old book.now }
        requires fresh { IsOpenQuery book.now self.old.ask self.old.told.items query }
        requires fits { ReplyFits book.now self.old.ask query reply }
        ensures of { OnOk result (IsBoardOf self.new book.now) }
        ensures told { OnOk result (self.new.told.items ≡ self.old.told.items ++ entry_of query reply ∷ []) }
        ensures ask { self.new.ask ≡ self.old.ask }
        ensures err { OnErr result (IsUnchanged self.old self.new) }
    {
        match query {
            Query::Check { region, stop } => self.tell_check(book, region, stop, reply),
            Query::Reach {
                region,
                stop,
                start,
            } => self.tell_reach(book, region, stop, start, reply),
        }
    }

    // Tells the reply to an open query of a pair, or its failure where there is none.
    fn tell_reach(
        &mut self,
        book: &Book,
        region: Code,
        stop: StopRef,
        start: Instant,
        reply: Option<Delivery>,
    ) -> Result<(), NoMemory>
        requires of { IsBoardOf self.old book.now }
        requires fresh { IsOpenQuery book.now self.old.ask self.old.told.items (Query.Reach region stop start) }
        requires fits { ReplyFits book.now self.old.ask (Query.Reach region stop start) reply }
        ensures of { OnOk result (IsBoardOf self.new book.now) }
        ensures told { OnOk result (self.new.told.items ≡ self.old.told.items ++ entry_of (Query.Reach region stop start) reply ∷ []) }
        ensures ask { self.new.ask ≡ self.old.ask }
        ensures err { OnErr result (IsUnchanged self.old self.new) }
    {
        if self.told.reserve(1).is_err() {
            return Err(NoMemory);
        }
        let failed = reply.is_none();
        self.own = own_told(&self.ask, region, stop, start.seconds(), failed, self.own);
        mark_pair(
            &mut self.labels,
            book,
            region,
            stop,
            start.seconds(),
            failed,
        );
        self.best = take_reply(
            &mut self.labels,
            self.best,
            book,
            &self.ask,
            region,
            stop,
            &reply,
        );
        let entry = Entry {
            query: Query::Reach {
                region,
                stop,
                start,
            },
            reply,
        };
        match self.told.push(entry) {
            Ok(()) => Ok(()),
            Err(_) => unreachable!(),
        }
    }

    // Tells the reply to an open check, or its failure where there is none.
    fn tell_check(
        &mut self,
        book: &Book,
        region: Code,
        stop: StopRef,
        reply: Option<Delivery>,
    ) -> Result<(), NoMemory>
        requires of { IsBoardOf self.old book.now }
        requires fresh { IsOpenQuery book.now self.old.ask self.old.told.items (Query.Check region stop) }
        requires fits { ReplyFits book.now self.old.ask (Query.Check region stop) reply }
        ensures of { OnOk result (IsBoardOf self.new book.now) }
        ensures told { OnOk result (self.new.told.items ≡ self.old.told.items ++ entry_of (Query.Check region stop) reply ∷ []) }
        ensures ask { self.new.ask ≡ self.old.ask }
        ensures err { OnErr result (IsUnchanged self.old self.new) }
    {
        if self.told.reserve(1).is_err() {
            return Err(NoMemory);
        }
        let state = reply_state(&reply);
        self.origin = state_after(self.ask.origin, stop, state, self.origin);
        self.target = state_after(self.ask.target, stop, state, self.target);
        let entry = Entry {
            query: Query::Check { region, stop },
            reply,
        };
        match self.told.push(entry) {
            Ok(()) => Ok(()),
            Err(_) => unreachable!(),
        }
    }

    fn origin_slot(&self) -> Option<Query>
        ensures { result ≡ origin_slot self.now.ask self.now.origin }
    {
        match self.origin {
            PlaceState::Unheard => stop_check(self.ask.origin),
            PlaceState::Known | PlaceState::Unknown | PlaceState::CheckFailed => None,
        }
    }

    fn target_slot(&self) -> Option<Query>
        ensures { result ≡ target_slot self.now.ask self.now.origin self.now.target }
    {
        match (self.origin, self.target) {
            (PlaceState::Unknown, _) => None,
            (_, PlaceState::Unheard) => stop_check(self.ask.target),
            (_, _) => None,
        }
    }

    fn are_known(&self) -> bool
        ensures { result ≡ are_known self.now.origin self.now.target }
    {
        match (self.origin, self.target) {
            (PlaceState::Known, PlaceState::Known) => true,
            (_, _) => false,
        }
    }

    // The origin's own pair, if the origin is no exchange point.
    fn own_spot(&self) -> Option<Spot>
        ensures { result ≡ own_spot_of self.now.ask (home self.now.ask.origin) }
    {
        let region = self.ask.origin.region()?;
        Some(Spot {
            stop: self.ask.origin,
            region,
            change: 0,
        })
    }

    fn own_slot(&self) -> Option<Query>
        ensures { result ≡ known_slot (are_known self.now.origin self.now.target) (own_slot self.now.ask self.now.best self.now.own (home self.now.ask.origin)) }
    {
        if !self.are_known() {
            return None;
        }
        let spot = self.own_spot()?;
        match open_start(&self.ask, self.best, &self.own) {
            Some(start) => Some(reach_from(&spot, start)),
            None => None,
        }
    }

    // What is wanted at the number, by what is kept.
    fn kept_slot(&self, book: &Book, number: usize) -> Option<Query>
        requires count { length self.now.labels.items ≡ length book.now.spots }
        requires within { number < length self.now.labels.items + 3 }
        ensures { result ≡ slice_index_or (kept_slots book.now self.now) number None }
    {
        if number == 0 {
            return self.origin_slot();
        }
        if number == 1 {
            return self.target_slot();
        }
        if number == 2 {
            return self.own_slot();
        }
        self.place_slot(book, number - 3)
    }

    // What is wanted at the place.
    fn place_slot(&self, book: &Book, place: usize) -> Option<Query>
        requires count { length self.now.labels.items ≡ length book.now.spots }
        requires within { place < length self.now.labels.items }
        ensures { result ≡ slice_index_or (kept_slots book.now self.now) (place + 3) None }
    {
        if !self.are_known() {
            return None;
        }
        match open_start(&self.ask, self.best, &self.labels[place]) {
            Some(start) => Some(reach_from(&book.spot(place), start)),
            None => None,
        }
    }

    // What is wanted at the place of the query, if it is of a pair of the book.
    fn slot_of(&self, book: &Book, query: &Query) -> Option<Query>
        requires { IsBoardOf self.now book.now }
        ensures some { IfSome result (λ found. Among found (wanted book.now self.now.ask self.now.told.items)) }
        ensures all { (place start : ℕ) (stop region : Text) → query.now ≡ Query.Reach region stop start → IsPairAt book.now place stop region → result ≡ slice_index_or (slots book.now self.now.ask self.now.told.items) (place + 3) None }
    {
        let Query::Reach { region, stop, .. } = *query else {
            return None;
        };
        match book.place_of(stop, region) {
            Some(place) => self.slot(book, place + 3),
            None => None,
        }
    }

    // The least code whose place check failed, if there is one.
    fn failed_check(&self) -> Option<Code>
        ensures { result ≡ least_text (failed_check self.now.origin (home self.now.ask.origin) ++ failed_check self.now.target (home self.now.ask.target)) }
    {
        let origin = failed_code(self.origin, self.ask.origin);
        let target = failed_code(self.target, self.ask.target);
        lesser_code(origin, target)
    }

    // The least code that has a place of which a failure stands, if there is one.
    fn failed_pair(&self, book: &Book) -> Option<Code>
        requires { length self.now.labels.items ≡ length book.now.spots }
        ensures { result ≡ least_text (failed_places self.now.ask self.now.best book.now.spots self.now.labels.items) }
    {
        let mut least = None;
        'places: for place in (0..self.labels.len()).rev() {
            let failed = failed_by(&self.ask, self.best, &book.spot(place), &self.labels[place]);
            least = lesser_code(failed, least);
        }
        least
    }

    fn own_failed(&self) -> Option<Code>
        ensures { result ≡ own_failed self.now.ask self.now.best self.now.own (home self.now.ask.origin) }
    {
        let spot = self.own_spot()?;
        failed_by(&self.ask, self.best, &spot, &self.own)
    }
}

// Whether the pair is the origin's own.
#[tactic(auto, unfolding(ojp_values::specs::Texts::same))]
fn is_own(ask: &TripAsk, region: Code, stop: StopRef) -> bool
    ensures { result ≡ is_own ask.now region stop }
{
    match ask.origin.region() {
        Some(code) => region == code && ask.origin == stop,
        None => false,
    }
}

// The own label after the pair was told at the start.
fn own_told(
    ask: &TripAsk,
    region: Code,
    stop: StopRef,
    start: u64,
    failed: bool,
    own: Label,
) -> Label
    ensures { result ≡ own_told ask.now region stop start failed own }
{
    if is_own(ask, region, stop) {
        own.marked(start, failed)
    } else {
        own
    }
}
