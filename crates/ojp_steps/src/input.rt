//! One document, read from an input in pieces.

ghost use Rattle.std.specs.Prelude.{◌≡◌, ◌≢◌, ◌≤◌, ◌++◌, length, List, [], take, ℕ};
ghost use Rattle.ojp_grammar.specs.declared.refusals.Want.{Want};
ghost use Rattle.ojp_steps.specs.Lent.{lent};
ghost use Rattle.ojp_steps.specs.Inputs.{ReadsAs, ReadsAsk, failure_of_input};
ghost use Rattle.ojp_steps.specs.Pieces.{FeedsAll, Finishes, HasTaken, input_refusal};
ghost use Rattle.ojp_decode.specs.Progress.{whole};
ghost use Rattle.ojp_decode.specs.Standing.{HasRead};
ghost use Rattle.ojp_grammar.specs.Whole.{IsWhole};

use crate::failures::Failure;
use ojp_decode::{Fed, ReadRefused, Reader};
use ojp_grammar::refusals::{Reason, Want};
use ojp_outside::{Failed, Source};
use ojp_values::{Ask, Doc};
use std::alloc::Global;

/// The most bytes of a read.
const PIECE: usize = 8192;

/// Why an input gives no document.
#[derive(Clone, Copy, Debug, PartialEq, Eq)]
pub enum InputRefused {
    /// All that the input had left spells no wanted document: the place, counted in bytes, and the reason.
    At { at: u64, reason: Reason },
    /// A read failed.
    Failed,
    /// Memory ran out.
    NoMemory,
}

/// Reads the one document that the input has left: to the end of the input, or to the first bytes
/// that refuse it whatever follows.
///
/// # Errors
///
/// `At` where the bytes spell no wanted document, `Failed` where a read failed, `NoMemory` where memory ran out.
pub fn read_document<I: Source>(
    alloc: Global,
    want: Want,
    input: &mut I,
) -> Result<Doc, InputRefused>
    ensures { ReadsAs want (lent I.seen input.old input.new) result }
{
    let mut reader = Reader::new(alloc, want);
    let mut piece = [0u8; PIECE];
    'reading: loop {
        // The loop ends: each turn feeds a byte at least, and no document has 2^41 bytes.
        let count = match input.read(&mut piece) {
            Ok(count) => count,
            Err(Failed) => return Err(InputRefused::Failed),
        };
        if count == 0 {
            return finish(reader);
        }
        match feed_all(&mut reader, &piece[..count]) {
            Ok(()) => {}
            Err(refused) => return Err(refusal_of(refused)),
        }
    }
}

/// Reads the one request document that the input has left, as `read_document` does.
///
/// # Errors
///
/// Those of `read_document`.
pub fn read_request<I: Source>(alloc: Global, input: &mut I) -> Result<Ask, InputRefused>
    ensures { ReadsAsk (lent I.seen input.old input.new) result }
{
    match read_document(alloc, Want::Request, input) {
        Ok(Doc::Ask(ask)) => Ok(ask),
        Ok(Doc::Delivery(_)) => unreachable!(),
        Err(refused) => Err(refused),
    }
}

/// Feeds the whole piece; bytes of it that stand behind a document are refused.
fn feed_all(reader: &mut Reader, piece: &[u8]) -> Result<(), ReadRefused>
    requires { (want : Want) × (fed : List ℕ) × HasTaken want fed reader.old }
    ensures { (want : Want) (fed : List ℕ) → HasTaken want fed reader.old → FeedsAll want fed piece.now result reader.new }
{
    match reader.feed(piece) {
        Ok(Fed::More) => Ok(()),
        Ok(Fed::Whole { used }) => feed_behind(reader, piece, used),
        Err(refused) => Err(refused),
    }
}

/// Feeds what stands in the piece behind a document that uses so many bytes of it.
fn feed_behind(reader: &mut Reader, piece: &[u8], used: usize) -> Result<(), ReadRefused>
    requires { used ≤ length piece.now }
    ensures { (want : Want) (fed : List ℕ) → HasRead reader.old (whole want (fed ++ take used piece.now))
        → (piece.now ≢ [] → IsWhole want (fed ++ take used piece.now)) → FeedsAll want fed piece.now result reader.new }
{
    match reader.feed(&piece[used..]) {
        Ok(_) => Ok(()),
        Err(refused) => Err(refused),
    }
}

/// The document, at the end of the input.
fn finish(reader: Reader) -> Result<Doc, InputRefused>
    ensures { (want : Want) (fed : List ℕ) → HasTaken want fed reader → Finishes want fed result }
{
    match reader.finish() {
        Ok(document) => Ok(document),
        Err(refused) => Err(refusal_of(refused)),
    }
}

fn refusal_of(refused: ReadRefused) -> InputRefused
    ensures { result ≡ input_refusal refused }
{
    match refused {
        ReadRefused::At(refused) => InputRefused::At {
            at: refused.at,
            reason: refused.reason,
        },
        ReadRefused::NoMemory => InputRefused::NoMemory,
    }
}

/// The failure of a command that could not take the input.
pub fn failure_of(refused: InputRefused) -> Failure<'static>
    ensures { result ≡ failure_of_input refused }
{
    match refused {
        InputRefused::At { at, reason } => Failure::Document { at, reason },
        InputRefused::Failed => Failure::Input,
        InputRefused::NoMemory => Failure::Memory,
    }
}
