//! Documents.

ghost use Rattle.std.specs.Prelude.{◌≡◌, ◌^◌, length, OnOk, OnErr};
ghost use Rattle.std.specs.Io.KnownBytes.{Appends};
ghost use Rattle.ojp_values.specs.Limits.{IsWell};
ghost use Rattle.ojp_outside.specs.Causes.{HasCause};
ghost use Rattle.ojp_outside.specs.Known.{AppendsPrefix};
ghost use Rattle.ojp_grammar.specs.Items.{spell};
ghost use Rattle.ojp_grammar.specs.Documents.{items};
ghost use Rattle.ojp_grammar.specs.Documents as grammar;
ghost use Rattle.ojp_encode.specs.Writing.{Writes};

use crate::lists::put_around;
use crate::markup::*;
use crate::spelled::Spelled;
use ojp_outside::{Sink, WriteFault};
use ojp_tables::runs::*;
use ojp_values::Doc;

/// Writes the document, and takes no memory.
///
/// # Errors
///
/// `WriteFault` where a write failed; a prefix of the document is written then.
pub fn write<S: Sink>(doc: &Doc, sink: &mut S) -> Result<(), WriteFault>
    requires { IsWell doc.now }
    ensures ok { OnOk result (Appends (S.seen sink.old).written (S.seen sink.new).written (spell (items doc.now))) }
    ensures err { OnErr result (AppendsPrefix (S.seen sink.old).written (S.seen sink.new).written (spell (items doc.now))) }
    ensures well { OnOk result (grammar.IsWell doc.now) }
    ensures cause { HasCause (S.seen sink.old).faults (S.seen sink.new).faults result }
{
    doc.put(sink)
}

/// The number of bytes of the document; takes no memory.
pub fn length(doc: &Doc) -> u64
    requires { IsWell doc.now }
    ensures { result ≡ length (spell (items doc.now)) }
{
    doc.length()
}

impl Spelled for Doc {
    ghost bytes = { λ d. spell (items d) };

    ghost is_well = { IsWell };

    ghost fits = { grammar.IsWell };

    ghost most = { 2 ^ 41 };

    fn put<S: Sink>(&self, sink: &mut S) -> Result<(), WriteFault> {
        match self {
            Doc::Ask(ask) => put_around(sink, &[REQUEST_START], ask, REQUEST_END),
            Doc::Delivery(delivery) => put_around(sink, &[DELIVERY_START], delivery, DELIVERY_END),
        }
    }

    fn length(&self) -> u64 {
        match self {
            Doc::Ask(ask) => REQUEST_MARKUP + ask.length(),
            Doc::Delivery(delivery) => DELIVERY_MARKUP + delivery.length(),
        }
    }
}
