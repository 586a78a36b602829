//! Laws of asks and their replies, each the contract of a function with nothing to do.

ghost use Rattle.ojp_links.specs.Laws.{AnswersAreOfKind, AnswersFit, HeardIsGiven, KindIsNeverHopeless, OneDelivery, SureIsNeverHopeless};

use ojp_grammar::laws::{documents_are_short, one_spelling};
use ojp_http::laws::{
    a_body_is_the_only_outcome, an_answer_is_a_reply, no_reply_begins_another, one_body,
};

/// What a region answers is of the ask's kind.
pub fn answers_are_of_kind()
    ensures { AnswersAreOfKind }
{}

/// What a region answers fits the ask, where each place is known to it and no target is the origin.
pub fn answers_fit()
    ensures { AnswersFit }
{}

/// A reply carries one delivery, and no whole reply begins another.
pub fn one_delivery()
    ensures { OneDelivery }
{
    one_body();
    no_reply_begins_another();
    one_spelling();
}

/// A reply that was drawn from what a region's server wrote for the request is the answer of the region's
/// timetable to the ask.
pub fn heard_is_given()
    ensures { HeardIsGiven }
{
    a_body_is_the_only_outcome();
    an_answer_is_a_reply();
    documents_are_short();
    one_spelling();
    one_delivery();
}

/// Bytes that were drawn from what a region's server wrote may become a reply that fits, where the region
/// is sure of the ask.
pub fn sure_is_never_hopeless()
    ensures { SureIsNeverHopeless }
{
    a_body_is_the_only_outcome();
    an_answer_is_a_reply();
    documents_are_short();
    one_spelling();
    answers_fit();
}

/// Bytes that were drawn from what a region's server wrote may become a reply of the ask's kind.
pub fn kind_is_never_hopeless()
    ensures { KindIsNeverHopeless }
{
    a_body_is_the_only_outcome();
    an_answer_is_a_reply();
    documents_are_short();
    one_spelling();
    answers_are_of_kind();
}
