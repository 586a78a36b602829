//! Documents, read in pieces.
ghost use Rattle.std.specs.Prelude.{◌≡◌, ◌≢◌, ◌++◌, ◌∷◌, ◌≤◌, ℕ, [], List, length, drop, MatchBool};
ghost use Rattle.ojp_grammar.specs.declared.refusals.Reason.TheVariants.{Truncated};
ghost use Rattle.ojp_grammar.specs.Machine.{StaysCut};
ghost use Rattle.ojp_grammar.specs.Running.{Stands};
ghost use Rattle.ojp_decode.specs.Progress.{Progress, reading};
ghost use Rattle.ojp_decode.specs.Standing.{HasRead, Feeds, Gives, KeepsFor, IsWaiting, ReadsOn, stage_of};

use crate::cuts::stays_cut_behind;
use crate::fed::{Fed, ReadRefused, Stage};
use arrayvec::ArrayVec;
use ojp_grammar::machine::{Cut, Machine, stays_cut};
use ojp_grammar::refusals::{Reason, Refused, Want};
use ojp_values::Doc;
use std::alloc::Global;
use std::marker::Model;

/// One more byte than the longest item has: so many bytes decide whether the item in front comes.
const MOST: usize = 513;

/// One document, whatever pieces it comes in. Of the bytes fed it keeps those of the item that the last
/// piece cut, and of the items before the values that they give.
#[derive(Drop)]
pub struct Reader {
    stage: Stage,
    machine: Machine,
    kept: ArrayVec<u8, MOST>,
}

impl Model for Reader {
    ghost use Rattle.std.specs.Coded.{codes};
    ghost use Rattle.ojp_grammar.specs.contracts.shapes.Shape as shapes;
    ghost use Rattle.ojp_decode.specs.Standing.{ReaderView, IsSound};

    ghost Value = { ReaderView };

    ghost coded = { Prim.hlevel (codes, shapes.the_row.coded) };

    ghost view = { λ r. record { stage = r.stage; machine = r.machine; kept = r.kept.items } };

    ghost invariant = { λ r. IsSound r.stage r.machine r.kept.items };
}

/// The refusal at a place, for a reason.
fn refused(at: usize, reason: Reason) -> ReadRefused
    ensures { result ≡ ReadRefused.At (record { at = at; reason = reason }) }
{
    ReadRefused::At(Refused {
        at: at as u64,
        reason,
    })
}

/// Whether more bytes may still become what is wanted.
fn is_truncated(reason: Reason) -> bool
    ensures { MatchBool result (reason ≡ Truncated) (reason ≢ Truncated) }
{
    match reason {
        Reason::Truncated => true,
        Reason::Markup | Reason::Field(_) | Reason::Trailing => false,
    }
}

/// The stage behind an answer.
fn stage_after(fed: Result<Fed, ReadRefused>) -> Stage
    ensures { result ≡ stage_of fed }
{
    match fed {
        Ok(Fed::More) => Stage::Reading,
        Ok(Fed::Whole { used: _ }) => Stage::Whole,
        Err(refused) => Stage::Over(refused),
    }
}

/// Reads a piece from a place on, where the machine is.
fn read_piece(
    machine: &mut Machine,
    kept: &mut ArrayVec<u8, MOST>,
    piece: &[u8],
    passed: usize,
) -> Result<Fed, ReadRefused>
    requires within { passed ≤ length piece.now }
    requires stands { (bytes : List ℕ) × Stands machine.old bytes (drop passed piece.now) }
    requires none { kept.old.items ≡ [] }
    ensures { (bytes : List ℕ) → Stands machine.old bytes (drop passed piece.now) → ReadsOn machine.old.want bytes piece.now result machine.new kept.new.items }
{
    let Ok(ran) = machine.run(&piece[passed..]) else {
        return Err(ReadRefused::NoMemory);
    };
    let used = passed + ran.took;
    let Some(reason) = ran.stop else {
        return Ok(Fed::Whole { used });
    };
    if !is_truncated(reason) {
        return Err(refused(machine.at, reason));
    }
    let Ok(()) = kept.try_extend_from_slice(&piece[used..]) else {
        unreachable!()
    };
    Ok(Fed::More)
}

/// Keeps the piece too, where the item that was cut is known to stay cut: no byte of it is looked at anew.
fn keep_cut(machine: &Machine, kept: &mut ArrayVec<u8, MOST>, piece: &[u8]) -> bool
    ensures { MatchBool result ((bytes : List ℕ) → IsWaiting machine.now bytes kept.old.items → IsWaiting machine.now (bytes ++ piece.now) kept.new.items) (kept.new.items ≡ kept.old.items) }
{
    let Some(cut) = machine.cut else {
        return false;
    };
    match *piece {
        [byte] => keep_byte(cut, kept, byte),
        _ => keep_piece(cut, kept, piece),
    }
}

/// The same for one byte.
fn keep_byte(cut: Cut, kept: &mut ArrayVec<u8, MOST>, byte: u8) -> bool
    ensures { MatchBool result (StaysCut cut (length kept.old.items) (byte ∷ []) × (kept.new.items ≡ kept.old.items ++ byte ∷ [])) (kept.new.items ≡ kept.old.items) }
{
    if !stays_cut_behind(cut, kept.len(), byte) {
        return false;
    }
    match kept.try_push(byte) {
        Ok(()) => true,
        Err(_) => false,
    }
}

/// The same for any piece.
fn keep_piece(cut: Cut, kept: &mut ArrayVec<u8, MOST>, piece: &[u8]) -> bool
    ensures { MatchBool result (StaysCut cut (length kept.old.items) piece.now × (kept.new.items ≡ kept.old.items ++ piece.now)) (kept.new.items ≡ kept.old.items) }
{
    if !stays_cut(cut, kept.len(), piece) {
        return false;
    }
    match kept.try_extend_from_slice(piece) {
        Ok(()) => true,
        Err(_) => false,
    }
}

/// Reads on with a piece behind the bytes that are kept.
fn read_on(
    machine: &mut Machine,
    kept: &mut ArrayVec<u8, MOST>,
    piece: &[u8],
) -> Result<Fed, ReadRefused>
    requires { (bytes : List ℕ) × IsWaiting machine.old bytes kept.old.items }
    ensures { (bytes : List ℕ) → IsWaiting machine.old bytes kept.old.items → ReadsOn machine.old.want (bytes ++ piece.now) piece.now result machine.new kept.new.items }
{
    if keep_cut(machine, kept, piece) {
        Ok(Fed::More)
    } else {
        read_behind(machine, kept, piece)
    }
}

/// The same where the item that was cut may be whole with the piece.
fn read_behind(
    machine: &mut Machine,
    kept: &mut ArrayVec<u8, MOST>,
    piece: &[u8],
) -> Result<Fed, ReadRefused>
    requires { (bytes : List ℕ) × IsWaiting machine.old bytes kept.old.items }
    ensures { (bytes : List ℕ) → IsWaiting machine.old bytes kept.old.items → ReadsOn machine.old.want (bytes ++ piece.now) piece.now result machine.new kept.new.items }
{
    if kept.is_empty() {
        return read_piece(machine, kept, piece, 0);
    }
    let before = kept.len();
    let room = piece.len().min(MOST - before);
    let Ok(()) = kept.try_extend_from_slice(&piece[..room]) else {
        unreachable!()
    };
    let Ok(ran) = machine.run(kept.as_slice()) else {
        return Err(ReadRefused::NoMemory);
    };
    let Some(reason) = ran.stop else {
        kept.clear();
        return Ok(Fed::Whole {
            used: ran.took - before,
        });
    };
    if !is_truncated(reason) {
        return Err(refused(machine.at, reason));
    }
    if ran.took < before {
        return Ok(Fed::More);
    }
    let passed = ran.took - before;
    kept.clear();
    if room < piece.len() {
        return read_piece(machine, kept, piece, passed);
    }
    let Ok(()) = kept.try_extend_from_slice(&piece[passed..]) else {
        unreachable!()
    };
    Ok(Fed::More)
}

impl Reader {
    /// Before the first byte. Takes no memory.
    pub fn new(alloc: Global, want: Want) -> Reader
        ensures { HasRead result (reading want []) }
    {
        Reader {
            stage: Stage::Reading,
            machine: Machine::new(alloc, want),
            kept: ArrayVec::new(),
        }
    }

    /// How many bytes are kept: at most 512, and none but while a document goes on.
    pub fn kept(&self) -> usize
        ensures { (progress : Progress) → HasRead self.now progress → KeepsFor progress result }
    {
        match self.stage {
            Stage::Reading => self.kept.len(),
            Stage::Whole | Stage::Over(_) => 0,
        }
    }

    /// Reads a piece of the document.
    ///
    /// # Errors
    ///
    /// `At` where the bytes are refused whatever follows, or follow a whole document, and `NoMemory`.
    /// After either every call answers the same.
    pub fn feed(&mut self, piece: &[u8]) -> Result<Fed, ReadRefused>
        ensures { (before : Progress) → HasRead self.old before → Feeds before piece.now result self.new }
    {
        match self.stage {
            Stage::Over(refused) => Err(refused),
            Stage::Whole if piece.is_empty() => Ok(Fed::Whole { used: 0 }),
            Stage::Whole => {
                let refused = refused(self.machine.at, Reason::Trailing);
                self.stage = Stage::Over(refused);
                Err(refused)
            }
            Stage::Reading => {
                let fed = read_on(&mut self.machine, &mut self.kept, piece);
                self.stage = stage_after(fed);
                fed
            }
        }
    }

    /// The document that the bytes fed spell; takes no memory.
    ///
    /// # Errors
    ///
    /// `At` where more bytes of a document may come, with the place at which they are missing, and
    /// where a piece was refused; `NoMemory` where a piece was answered so.
    pub fn finish(self) -> Result<Doc, ReadRefused>
        ensures { (progress : Progress) → HasRead self progress → Gives progress result }
    {
        let Reader {
            stage,
            machine,
            kept: _,
        } = self;
        let at = machine.at;
        let document = machine.into_document();
        match stage {
            Stage::Over(refused) => Err(refused),
            Stage::Reading => Err(refused(at, Reason::Truncated)),
            Stage::Whole => match document {
                Some(document) => Ok(document),
                None => unreachable!(),
            },
        }
    }
}
