//! What the body of a request is read as, and what the body of a response is.

ghost use Rattle.std.specs.Prelude.{◌≡◌, IfOk};
ghost use Rattle.ojp_values.specs.Limits.{IsWellDelivery};
ghost use Rattle.ojp_values.specs.declared.documents.Doc.TheVariants as docs;
ghost use Rattle.ojp_grammar.specs.Answering.{SpellsDelivery};
ghost use Rattle.ojp_grammar.specs.Reasons.{refusal_line};
ghost use Rattle.ojp_bodies.specs.Reading.{Reads};

use itoa::Buffer;
use ojp_encode::write;
use ojp_grammar::refusals::{Refused, Want, WholeRefused};
use ojp_grammar::whole::whole;
use ojp_outside::{MemSink, WriteFault, put_parts};
use ojp_values::{Ask, Delivery, Doc, NoMemory};
use std::alloc::Global;

/// The ask that the body spells, or where it is refused and why.
#[tactic(auto, using(crate::proofs::AskFacts::well_ask))]
pub fn read_ask(alloc: Global, body: &[u8]) -> Result<Ask, WholeRefused>
    ensures { Reads body.now result }
{
    match whole(alloc, Want::Request, body) {
        Ok(Doc::Ask(ask)) => Ok(ask),
        Ok(Doc::Delivery(_)) => unreachable!(),
        Err(refused) => Err(refused),
    }
}

/// The document of a delivery, in memory.
pub fn spell(alloc: Global, delivery: Delivery) -> Result<MemSink, NoMemory>
    requires { IsWellDelivery delivery }
    ensures { IfOk result (λ text. SpellsDelivery delivery text.written) }
{
    let mut text = MemSink::new(alloc, Vec::new(alloc));
    match write(&Doc::Delivery(delivery), &mut text) {
        Ok(()) => Ok(text),
        // A sink in memory that no write is to fail has only want of memory.
        Err(WriteFault) => Err(NoMemory),
    }
}

/// The line that tells a refusal, in memory.
pub fn tell(alloc: Global, refused: Refused) -> Result<MemSink, NoMemory>
    ensures { IfOk result (λ text. text.written ≡ refusal_line refused.at refused.reason) }
{
    let mut digits = Buffer::new();
    let number = digits.format(refused.at);
    let mut text = MemSink::new(alloc, Vec::new(alloc));
    let parts: [&[u8]; 5] = [
        b"byte ",
        number.as_bytes(),
        b": ",
        refused.reason.words().as_bytes(),
        b"\n",
    ];
    match put_parts(&mut text, &parts) {
        Ok(()) => Ok(text),
        Err(WriteFault) => Err(NoMemory),
    }
}
