//! How a board takes the trips of a reply.

ghost use Rattle.std.specs.Prelude.{◌≡◌, ◌+◌, ◌<◌, ◌≤◌, ℕ, nat_le, [], ◌∷◌, length, take, Some};
ghost use Rattle.ojp_exchange.specs.Book.{Spot as OneSpot};
ghost use Rattle.ojp_timetable.specs.Runs.{day_long};
ghost use Rattle.ojp_exchange.specs.Places.{IsSpotAt};
ghost use Rattle.ojp_records.specs.Pairs.{ends_towards};
ghost use Rattle.ojp_values.specs.Lists.{lesser};
ghost use Rattle.ojp_records.specs.Starts.{lesser_of};
ghost use Rattle.ojp_labels.specs.Hearing.{AnswersEach, IsMarked, told_in, best_by, is_away, way_stops, told_by, Follow};

use crate::labels::{DAY_LONG, Label, arrive, mark};
use ojp_exchange::{Book, Spot};
use ojp_values::{Code, Delivery, Instant, MultiReply, StopRef, TripAsk, TripResult};

// Whether the moment is within the requested day.
fn is_within_day(ask: &TripAsk, moment: Instant) -> bool
    ensures { result ≡ nat_le moment (ask.now.start + day_long) }
{
    moment.seconds() <= ask.start.seconds() + DAY_LONG
}

// Takes the result at the exchange point of the place.
fn take_result(labels: &mut Vec<Label>, book: &Book, ask: &TripAsk, way: usize, one: &TripResult)
    requires way { way < length book.now.spots }
    requires count { length labels.old.items ≡ length book.now.spots }
    ensures count { length labels.new.items ≡ length book.now.spots }
    ensures follow { (spot : OneSpot) → IsSpotAt book.now way spot → Follow book.now ask.now (told_by ask.now spot.region (spot.stop ∷ []) (one.now ∷ [])) labels.old.items labels.new.items }
{
    book.is_well();
    let TripResult::Trip(trip) = one else {
        return;
    };
    if is_within_day(ask, trip.end) {
        arrive(labels, book.edges(way), trip.end.seconds());
    }
}

/// Whether the spot is neither the stop nor the requested target.
#[tactic(auto, unfolding(ojp_values::specs::Texts::same))]
pub fn is_away(ask: &TripAsk, stop: StopRef, spot: &Spot) -> bool
    ensures { result ≡ is_away ask.now stop spot.now }
{
    stop != spot.stop && ask.target != spot.stop
}

// Takes the results at the exchange points by which the region leads on; answers how many there were.
fn take_ways(
    labels: &mut Vec<Label>,
    book: &Book,
    ask: &TripAsk,
    region: Code,
    stop: StopRef,
    found: &[TripResult],
) -> usize
    requires count { length labels.old.items ≡ length book.now.spots }
    requires each { length (way_stops book.now ask.now stop region) ≤ length found.now }
    ensures count { length labels.new.items ≡ length book.now.spots }
    ensures taken { result ≡ length (way_stops book.now ask.now stop region) }
    ensures follow { Follow book.now ask.now (told_by ask.now region (way_stops book.now ask.now stop region) (take result found.now)) labels.old.items labels.new.items }
{
    let mut next = 0;
    'ways: for &way in book.ways(region) {
        let spot = book.spot(way);
        if is_away(ask, stop, &spot) {
            take_result(labels, book, ask, way, &found[next]);
            next += 1;
        }
    }
    next
}

// The earlier of the two moments.
fn earlier(moment: Instant, other: Instant) -> Instant
    ensures { result ≡ lesser moment (Some other) }
{
    if moment.seconds() <= other.seconds() {
        moment
    } else {
        other
    }
}

// The earlier of the best arrival and this one.
fn better(best: Option<Instant>, end: Instant) -> Option<Instant>
    ensures { result ≡ lesser_of best (Some end) }
{
    match best {
        Some(arrival) => Some(earlier(arrival, end)),
        None => Some(end),
    }
}

// Takes the result at the requested target; answers the best arrival.
fn take_end(
    labels: &mut Vec<Label>,
    best: Option<Instant>,
    book: &Book,
    ask: &TripAsk,
    region: Code,
    one: &TripResult,
) -> Option<Instant>
    requires count { length labels.old.items ≡ length book.now.spots }
    ensures count { length labels.new.items ≡ length book.now.spots }
    ensures follow { Follow book.now ask.now (told_by ask.now region (ask.now.target ∷ []) (one.now ∷ [])) labels.old.items labels.new.items }
    ensures best { result ≡ lesser_of best (best_by ask.now (told_by ask.now region (ask.now.target ∷ []) (one.now ∷ []))) }
{
    book.is_well();
    let TripResult::Trip(trip) = one else {
        return best;
    };
    if !is_within_day(ask, trip.end) {
        return best;
    }
    if let Some(place) = book.place_of(ask.target, region) {
        arrive(labels, book.edges(place), trip.end.seconds());
    }
    better(best, trip.end)
}

// Takes the results of a reply of the region, from the stop; answers the best arrival.
fn take_results(
    labels: &mut Vec<Label>,
    best: Option<Instant>,
    book: &Book,
    ask: &TripAsk,
    region: Code,
    stop: StopRef,
    found: &[TripResult],
) -> Option<Instant>
    requires count { length labels.old.items ≡ length book.now.spots }
    requires each { length (ends_towards book.now ask.now.target stop region) ≡ length found.now }
    ensures count { length labels.new.items ≡ length book.now.spots }
    ensures follow { Follow book.now ask.now (told_by ask.now region (ends_towards book.now ask.now.target stop region) found.now) labels.old.items labels.new.items }
    ensures best { result ≡ lesser_of best (best_by ask.now (told_by ask.now region (ends_towards book.now ask.now.target stop region) found.now)) }
{
    let next = take_ways(labels, book, ask, region, stop, found);
    if book.serves(region, ask.target) {
        take_end(labels, best, book, ask, region, &found[next])
    } else {
        best
    }
}

/// Takes what the reply to a query of a pair tells, if there is one; answers the best arrival.
pub fn take_reply(
    labels: &mut Vec<Label>,
    best: Option<Instant>,
    book: &Book,
    ask: &TripAsk,
    region: Code,
    stop: StopRef,
    reply: &Option<Delivery>,
) -> Option<Instant>
    requires count { length labels.old.items ≡ length book.now.spots }
    requires each { AnswersEach (ends_towards book.now ask.now.target stop region) reply.now }
    ensures count { length labels.new.items ≡ length book.now.spots }
    ensures follow { Follow book.now ask.now (told_in ask.now region (ends_towards book.now ask.now.target stop region) reply.now) labels.old.items labels.new.items }
    ensures best { result ≡ lesser_of best (best_by ask.now (told_in ask.now region (ends_towards book.now ask.now.target stop region) reply.now)) }
{
    match reply {
        None => best,
        Some(delivery) => take_delivery(labels, best, book, ask, region, stop, delivery),
    }
}

fn take_delivery(
    labels: &mut Vec<Label>,
    best: Option<Instant>,
    book: &Book,
    ask: &TripAsk,
    region: Code,
    stop: StopRef,
    delivery: &Delivery,
) -> Option<Instant>
    requires count { length labels.old.items ≡ length book.now.spots }
    requires each { AnswersEach (ends_towards book.now ask.now.target stop region) (Some delivery.now) }
    ensures count { length labels.new.items ≡ length book.now.spots }
    ensures follow { Follow book.now ask.now (told_in ask.now region (ends_towards book.now ask.now.target stop region) (Some delivery.now)) labels.old.items labels.new.items }
    ensures best { result ≡ lesser_of best (best_by ask.now (told_in ask.now region (ends_towards book.now ask.now.target stop region) (Some delivery.now))) }
{
    match delivery {
        Delivery::Multi(reply) => take_multi(labels, best, book, ask, region, stop, reply),
        Delivery::Trip(_) | Delivery::Events(_) | Delivery::Points(_) => best,
    }
}

fn take_multi(
    labels: &mut Vec<Label>,
    best: Option<Instant>,
    book: &Book,
    ask: &TripAsk,
    region: Code,
    stop: StopRef,
    reply: &MultiReply,
) -> Option<Instant>
    requires count { length labels.old.items ≡ length book.now.spots }
    requires each { AnswersEach (ends_towards book.now ask.now.target stop region) (Some (Delivery.Multi reply.now)) }
    ensures count { length labels.new.items ≡ length book.now.spots }
    ensures follow { Follow book.now ask.now (told_in ask.now region (ends_towards book.now ask.now.target stop region) (Some (Delivery.Multi reply.now))) labels.old.items labels.new.items }
    ensures best { result ≡ lesser_of best (best_by ask.now (told_in ask.now region (ends_towards book.now ask.now.target stop region) (Some (Delivery.Multi reply.now)))) }
{
    match reply {
        MultiReply::Results(found) => {
            take_results(labels, best, book, ask, region, stop, found.as_slice())
        }
        MultiReply::Fault(_) => best,
    }
}

/// Marks that the pair was told at the start, if the region declares the stop.
pub fn mark_pair(
    labels: &mut Vec<Label>,
    book: &Book,
    region: Code,
    stop: StopRef,
    start: u64,
    failed: bool,
)
    requires count { length labels.old.items ≡ length book.now.spots }
    ensures count { length labels.new.items ≡ length book.now.spots }
    ensures marked { IsMarked book.now region stop start failed labels.old.items labels.new.items }
{
    if let Some(place) = book.place_of(stop, region) {
        mark(labels, place, start, failed);
    }
}
