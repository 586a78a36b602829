//! What the gateway answers to an ask.

ghost use Rattle.std.specs.Prelude.{◌≡◌, [], IfOk, true};
ghost use Rattle.ojp_values.specs.Limits.{IsWellDelivery};
ghost use Rattle.ojp_values.specs.declared.asks.Ask.TheVariants as asks;
ghost use Rattle.ojp_links.specs.Seen.{NoneLive};
ghost use Rattle.ojp_traces.specs.Lines.{Gains};
ghost use Rattle.ojp_turns.specs.Held.{HasRegions};
ghost use Rattle.ojp_turns.specs.Searches.{is_done};
ghost use Rattle.ojp_gateway.specs.Answers.{PointsByBook, delivery_of_points};
ghost use Rattle.ojp_gateway.specs.Answering.{AnswersAsk, Begins, IsOutcome};
ghost use Rattle.ojp_gateway.specs.Ordering.{IsTraced, TakesSearch};

use crate::seeking::seek_paced;
use ojp_exchange::Book;
use ojp_links::PacedLinks;
use ojp_records::Entry;
use ojp_traces::Trace;
use ojp_turns::{Outcome, Search};
use ojp_values::{
    Ask, Delivery, EventsReply, Fault, List, MultiReply, NoMemory, Point, PointsAsk, PointsReply,
    StopRef, TripAsk, TripReply,
};
use std::alloc::Global;

/// What an ask to the gateway gave, with the record of its search. The record is empty for every ask that is not for a
/// trip between two different stops.
#[derive(Debug, Drop)]
pub struct Answer {
    pub delivery: Delivery,
    pub told: List<Entry>,
}

/// Answers an ask over paced links. A trace that is on gains the lines of the search, where there is one: where the
/// links tell their order and their timetables, those of the definition.
///
/// # Errors
///
/// `NoMemory` where memory ran out. No ask is live then either.
pub fn answer_paced<L: PacedLinks>(
    alloc: Global,
    book: &Book,
    links: &mut L,
    ask: &Ask,
    trace: &mut Trace,
) -> Result<Answer, NoMemory>
    requires regions { HasRegions book.now (L.seen links.old) }
    requires none_live { NoneLive (L.seen links.old) }
    ensures answers { AnswersAsk book.now (L.seen links.old) (L.seen links.new) ask.now result }
    ensures gains { Gains trace.old trace.new }
    ensures traced { IsTraced book.now (L.seen links.old) (L.seen links.new) ask.now trace.old trace.new result }
{
    match begin(alloc, book, ask)? {
        Begun::Answered(answer) => Ok(answer),
        Begun::Search(mut search) => {
            let outcome = seek_paced(book, links, &mut search, trace);
            conclude(search, outcome)
        }
    }
}

/// An ask that was answered, or the search that is to answer it.
#[derive(Drop)]
pub(crate) enum Begun {
    Answered(Answer),
    Search(Search),
}

/// Answers an ask that takes no search, or makes its search.
pub(crate) fn begin(alloc: Global, book: &Book, ask: &Ask) -> Result<Begun, NoMemory>
    ensures begins { IfOk result (Begins book.now ask.now) }
    ensures search { IfOk result (TakesSearch ask.now) }
{
    match ask {
        Ask::Trip(ask) => begin_trip(alloc, book, ask),
        Ask::Multi(_) => {
            let unserved = Delivery::Multi(MultiReply::Fault(Fault::NotServed));
            Ok(Begun::Answered(without_search(alloc, unserved)))
        }
        Ask::Events(_) => {
            let unserved = Delivery::Events(EventsReply::Fault(Fault::NotServed));
            Ok(Begun::Answered(without_search(alloc, unserved)))
        }
        Ask::Points(ask) => match answer_points(alloc, book, ask) {
            Ok(answer) => Ok(Begun::Answered(answer)),
            Err(NoMemory) => Err(NoMemory),
        },
    }
}

/// Makes the search for a trip between two different stops.
fn begin_trip(alloc: Global, book: &Book, ask: &TripAsk) -> Result<Begun, NoMemory>
    ensures begins { IfOk result (Begins book.now (asks.Trip ask.now)) }
    ensures search { IfOk result (TakesSearch (asks.Trip ask.now)) }
{
    if ask.origin == ask.target {
        let same = Fault::SameStop(ask.origin);
        let delivery = Delivery::Trip(TripReply::Fault(same));
        return Ok(Begun::Answered(without_search(alloc, delivery)));
    }
    match Search::new(alloc, book, ask) {
        Ok(search) => Ok(Begun::Search(search)),
        Err(NoMemory) => Err(NoMemory),
    }
}

/// The answer by the outcome of a search that is done, with its record.
pub(crate) fn conclude(search: Search, outcome: Outcome) -> Result<Answer, NoMemory>
    requires done { is_done search ≡ true }
    ensures { IfOk result (IsOutcome search outcome) }
{
    let told = search.into_told();
    match outcome {
        Outcome::Trip(trip) => Ok(Answer {
            delivery: Delivery::Trip(TripReply::Trip(trip)),
            told,
        }),
        Outcome::Fault(fault) => Ok(Answer {
            delivery: Delivery::Trip(TripReply::Fault(fault)),
            told,
        }),
        Outcome::NoMemory => Err(NoMemory),
    }
}

/// Answers an ask for exchange points from the book.
fn answer_points(alloc: Global, book: &Book, ask: &PointsAsk) -> Result<Answer, NoMemory>
    ensures told { IfOk result (λ answer. answer.told ≡ []) }
    ensures points { IfOk result (λ answer. PointsByBook book.now ask.now.place answer.delivery) }
    ensures well { IfOk result (λ answer. IsWellDelivery answer.delivery) }
{
    book.is_well();
    let points = book.points(alloc, ask.place)?;
    Ok(without_search(alloc, delivery_of_points(ask.place, points)))
}

/// The delivery that lists the points found at the place.
fn delivery_of_points(place: Option<StopRef>, found: List<Point>) -> Delivery
    ensures { result ≡ delivery_of_points place found }
{
    match place {
        Some(stop) if found.is_empty() => {
            Delivery::Points(PointsReply::Fault(Fault::StopUnknown(stop)))
        }
        _ => Delivery::Points(PointsReply::Points(found)),
    }
}

/// An answer that took no search.
fn without_search(alloc: Global, delivery: Delivery) -> Answer
    ensures told { result.told ≡ [] }
    ensures delivery { result.delivery ≡ delivery }
{
    Answer {
        delivery,
        told: List::new(alloc),
    }
}
