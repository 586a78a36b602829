//! Laws of whole messages, each the contract of a function with nothing to do.

ghost use Rattle.ojp_http.specs.Laws.{OneOutcome, OneBody, NoReplyBeginsAnother, BodyIsOnly, AnswerIsReply, OthersAreRefused, RequestIsAsk};
ghost use Rattle.ojp_http.specs.Replying.{BeginsNoReply};
ghost use Rattle.ojp_http.specs.Responses.{no_memory_response};
ghost use Rattle.ojp_http.specs.Continued.{BodyGoesOn, OpenHoldsNone, OpenGoesOn};
ghost use Rattle.ojp_http.specs.Few.{FewAreWithin};

/// A request has one outcome, but where its head or its trailer is malformed: there the bytes that are
/// full, or end before they are, allow a second one.
pub fn one_outcome()
    ensures { OneOutcome }
{}

/// A reply has one body.
pub fn one_body()
    ensures { OneBody }
{}

/// No whole reply begins a longer one.
pub fn no_reply_begins_another()
    ensures { NoReplyBeginsAnother }
{}

/// The body of a reply that goes on begins with what came of it.
pub fn a_body_goes_on()
    ensures { BodyGoesOn }
{}

/// While a reply goes on, no front of the bytes is a whole one, and the body of each reply that they
/// begin begins with what was gained.
pub fn an_open_reply()
    ensures none { OpenHoldsNone }
    ensures goes_on { OpenGoesOn }
{}

/// Bytes with few line feeds are within their limits.
pub fn few_are_within()
    ensures { FewAreWithin }
{}

/// Where the bytes give a body, no other outcome is allowed.
pub fn a_body_is_the_only_outcome()
    ensures { BodyIsOnly }
{}

/// A response of status 200 is a whole reply with its text as the body.
pub fn an_answer_is_a_reply()
    ensures { AnswerIsReply }
{}

/// No reply begins with a response of another status, nor with the one for want of memory.
pub fn other_responses_are_no_replies()
    ensures others { OthersAreRefused }
    ensures no_memory { BeginsNoReply no_memory_response }
{}

/// The bytes of a request give its body and no other outcome.
pub fn a_request_gives_its_body()
    ensures { RequestIsAsk }
{}
