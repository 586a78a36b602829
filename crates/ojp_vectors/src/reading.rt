//! What a reader makes of bytes that it is fed in pieces.
ghost use Rattle.std.specs.Prelude.{◌≡◌, ◌≢◌, ◌≤◌, ◌++◌, IfOk, List, ℕ};
ghost use Rattle.ojp_grammar.specs.declared.refusals.Want.{Want};
ghost use Rattle.ojp_decode.specs.Progress.{reading, whole};
ghost use Rattle.ojp_decode.specs.Standing.{HasRead};
ghost use Rattle.ojp_vectors.specs.Cases.{IsOutcome, outcome_by};

use crate::case::CaseOutcome;
use ojp_decode::{Fed, ReadRefused, Reader};
use ojp_grammar::refusals::Want;
use ojp_values::NoMemory;
use std::alloc::Global;

/// What a reader makes of the bytes, fed in pieces of this length.
pub(crate) fn outcome_of(
    alloc: Global,
    want: Want,
    bytes: &[u8],
    piece: usize,
) -> Result<CaseOutcome, NoMemory>
    requires { 1 ≤ piece }
    ensures { IfOk result (λ outcome. IsOutcome want bytes.now outcome) }
{
    let mut reader = Reader::new(alloc, want);
    let mut left = bytes;
    'pieces: while !left.is_empty() {
        let (front, behind) = left.split_at(left.len().min(piece));
        match reader.feed(front) {
            Ok(Fed::More) => left = behind,
            Ok(Fed::Whole { used }) => return outcome_behind(reader, &left[used..]),
            Err(refused) => return outcome_at(refused),
        }
    }
    outcome_at_end(reader)
}

/// What comes of a document with these bytes behind it.
fn outcome_behind(mut reader: Reader, behind: &[u8]) -> Result<CaseOutcome, NoMemory>
    requires { (want : Want) × (before : List ℕ) × HasRead reader (whole want before) }
    ensures { (want : Want) (before : List ℕ) → HasRead reader (whole want before) → IfOk result (λ outcome. IsOutcome want (before ++ behind.now) outcome) }
{
    if behind.is_empty() {
        return outcome_at_end(reader);
    }
    match reader.feed(behind) {
        Ok(_) => unreachable!(),
        Err(refused) => outcome_at(refused),
    }
}

/// What comes of the bytes fed where no more follow.
fn outcome_at_end(reader: Reader) -> Result<CaseOutcome, NoMemory>
    ensures reading { (want : Want) (bytes : List ℕ) → HasRead reader (reading want bytes) → IfOk result (λ outcome. IsOutcome want bytes outcome) }
    ensures whole { (want : Want) (bytes : List ℕ) → HasRead reader (whole want bytes) → IfOk result (λ outcome. IsOutcome want bytes outcome) }
{
    match reader.finish() {
        Ok(_) => Ok(CaseOutcome::Document),
        Err(refused) => outcome_at(refused),
    }
}

/// A refusal as an outcome.
fn outcome_at(refused: ReadRefused) -> Result<CaseOutcome, NoMemory>
    ensures { result ≡ outcome_by refused }
{
    match refused {
        ReadRefused::At(refused) => Ok(CaseOutcome::At {
            at: refused.at,
            reason: refused.reason,
        }),
        ReadRefused::NoMemory => Err(NoMemory),
    }
}
