//! The plain reader: whole bytes, and the document that they spell.
#![tactic(auto)]

ghost use Rattle.std.specs.Prelude.{◌≡◌, ◌≤◌, None, IfOk, IfErr, MatchOption};
ghost use Rattle.ojp_grammar.specs.Documents.{IsWanted, Spells};
ghost use Rattle.ojp_grammar.specs.Whole.{IsWholeRefused, IsWhyNot};

use crate::machine::{Machine, Ran};
use crate::refusals::{Reason, Refused, Want, WholeRefused};
use ojp_values::Doc;
use std::alloc::Global;

/// The document that the bytes spell, or where they are refused and why.
pub fn whole(alloc: Global, want: Want, bytes: &[u8]) -> Result<Doc, WholeRefused>
    ensures document { IfOk result (λ doc. IsWanted want doc × Spells doc bytes.now) }
    ensures refused { IfErr result (IsWholeRefused want bytes.now) }
{
    let mut machine = Machine::new(alloc, want);
    let ran = machine.run(bytes);
    let at = machine.at;
    let document = machine.into_document();
    let Ok(ran) = ran else {
        return Err(WholeRefused::NoMemory);
    };
    match why_not(ran, bytes.len()) {
        Some(reason) => Err(refused(at, reason)),
        None => match document {
            Some(document) => Ok(document),
            None => unreachable!(),
        },
    }
}

/// Why so many bytes are no document after a run over them.
fn why_not(ran: Ran, length: usize) -> Option<Reason>
    ensures { MatchOption result ((ran.stop ≡ None) × (length ≤ ran.took)) (IsWhyNot ran length) }
{
    match ran.stop {
        Some(reason) => Some(reason),
        None => {
            if ran.took < length {
                Some(Reason::Trailing)
            } else {
                None
            }
        }
    }
}

/// The refusal at a place, for a reason.
fn refused(at: usize, reason: Reason) -> WholeRefused
    ensures { result ≡ WholeRefused.At (record { at = at; reason = reason }) }
{
    WholeRefused::At(Refused {
        at: at as u64,
        reason,
    })
}
