//! The delivery of a response, read back.

ghost use Rattle.std.specs.Prelude.{◌≡◌, IfOk};
ghost use Rattle.ojp_values.specs.Texts.{Text};
ghost use Rattle.ojp_values.specs.declared.replies.Delivery.{Delivery};
ghost use Rattle.ojp_grammar.specs.Answering.{SpellsDelivery};
ghost use Rattle.ojp_http.specs.Asking.{HttpReply};
ghost use Rattle.ojp_load.specs.Replies.{IsResponse};

use ojp_decode::{Fed, ReadRefused, Reader};
use ojp_grammar::laws::{documents_are_short, one_spelling};
use ojp_grammar::refusals::Want;
use ojp_http::laws::{an_answer_is_a_reply, an_open_reply, no_reply_begins_another, one_body};
use ojp_http::{Reply, ReplyFed, ReplyRefused};
use ojp_values::{Delivery, Doc, List, NoMemory};
use std::alloc::Global;

/// The delivery that a whole response holds.
pub(crate) fn delivery_of(alloc: Global, bytes: &[u8]) -> Result<Delivery, NoMemory>
    requires { (delivery : Delivery) × IsResponse bytes.now delivery }
    ensures { (delivery : Delivery) → IsResponse bytes.now delivery → IfOk result (λ read. read ≡ delivery) }
{
    an_answer_is_a_reply();
    documents_are_short();
    let body = body_of(alloc, bytes)?;
    read_delivery(alloc, body.as_slice())
}

// The body of a whole reply.
fn body_of(alloc: Global, bytes: &[u8]) -> Result<List<u8>, NoMemory>
    requires { (body : Text) × HttpReply bytes.now body }
    ensures { (body : Text) → HttpReply bytes.now body → IfOk result (λ read. read ≡ body) }
{
    an_open_reply();
    no_reply_begins_another();
    one_body();
    let mut reply = Reply::new(alloc);
    let mut body = List::new(alloc);
    match reply.feed(bytes, &mut body) {
        Ok(ReplyFed::Whole { .. }) => Ok(body),
        Ok(ReplyFed::More) => unreachable!(),
        Err(ReplyRefused::Bad) => unreachable!(),
        Err(ReplyRefused::NoMemory) => Err(NoMemory),
    }
}

// The delivery whose document the text is.
fn read_delivery(alloc: Global, text: &[u8]) -> Result<Delivery, NoMemory>
    requires { (delivery : Delivery) × SpellsDelivery delivery text.now }
    ensures { (delivery : Delivery) → SpellsDelivery delivery text.now → IfOk result (λ read. read ≡ delivery) }
{
    one_spelling();
    let mut reader = Reader::new(alloc, Want::Delivery);
    match reader.feed(text) {
        Ok(Fed::Whole { .. }) => {}
        Ok(Fed::More) => unreachable!(),
        Err(ReadRefused::At(_)) => unreachable!(),
        Err(ReadRefused::NoMemory) => return Err(NoMemory),
    }
    match reader.finish() {
        Ok(Doc::Delivery(delivery)) => Ok(delivery),
        Ok(Doc::Ask(_)) => unreachable!(),
        Err(_) => unreachable!(),
    }
}
