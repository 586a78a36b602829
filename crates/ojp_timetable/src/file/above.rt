//! The lines above the next one.
ghost use Rattle.std.specs.Prelude.{◌≡◌, ◌+◌, ◌<◌, ◌≤◌, ◌^◌, ◌∷◌, None, Some, false, true, codes, length, OnOk, IfOk, IfErr, IsSome, unwrap_or};
ghost use Rattle.ojp_timetable.specs.Fields.{body, fields_of};
ghost use Rattle.ojp_timetable.specs.Runs.{IsOffset};
ghost use Rattle.ojp_timetable.specs.Kept.{IsKeptByNumber, call_kept};
ghost use Rattle.ojp_timetable.specs.Contents.{service_number};
ghost use Rattle.ojp_timetable.specs.Said.{is_closed, journey_line, kept_said, numbered};
ghost use Rattle.ojp_zones.specs.Noons.{IsZone};

use crate::draft::Draft;
use crate::file::checks::{first_failing, first_failing_of_call, first_failing_of_journey};
use crate::file::fields::body;
use crate::file::lines::{Line, Open, TableReason};
use crate::file::refusals::{LineRefused, TableRefused};
use crate::file::said::{
    behind_call, behind_journey, is_closed, left_by, left_open, read_call_line, read_journey_line,
    read_said,
};
use crate::kept::{FoundJourney, KeptCall, SaidCall};
use ojp_outside::FILE_LIMIT;
use std::alloc::Global;
use std::marker::Model;

/// The most bytes that a file may have.
pub const BYTES: u64 = FILE_LIMIT as u64;

/// The lines above the next one: how many, their bytes, what they leave open and what they declare.
#[derive(Drop)]
pub struct Above {
    lines: u64,
    bytes: u64,
    left: Open,
    draft: Draft,
}

// What is kept of the call.
fn kept(said: &SaidCall<'_>) -> KeptCall
    requires { IsSome said.now.place }
    ensures place { said.now.place ≡ Some result.place }
    ensures times { (result.arrives ≡ said.now.arrives) × (result.departs ≡ said.now.departs) }
{
    match said.place {
        Some(place) => KeptCall {
            place,
            arrives: said.arrives,
            departs: said.departs,
        },
        None => unreachable!(),
    }
}

impl Model for Above {
    ghost use Rattle.ojp_timetable.specs.Lines.{Above as AboveValue};
    ghost use Rattle.ojp_timetable.specs.WellContents.{IsWellAbove};

    ghost Value = { AboveValue };

    ghost view = { λ a. record { lines = a.lines; bytes = a.bytes; left = a.left; contents = a.draft } };

    ghost invariant = { λ a. IsWellAbove (record { lines = a.lines; bytes = a.bytes; left = a.left; contents = a.draft }) };
}

impl Above {
    ghost use Rattle.ojp_timetable.specs.Lines.{IsWellLine, after_line, no_lines};
    ghost use Rattle.ojp_timetable.specs.WellContents.{AreWholeBut, GoesOnFrom, IsWellAbove, IsWellContents, MayStand, Passes};
    ghost use Rattle.ojp_timetable.specs.Checks.{is_cut, is_long, read_line};
    ghost use Rattle.ojp_timetable.specs.TableText.{reason_of, with_line};
    ghost use Rattle.ojp_timetable.specs.Refusals.{IsLineRefusal, left_after};

    /// No lines; takes no memory.
    pub fn new(alloc: Global) -> Above
        ensures { result ≡ no_lines }
    {
        Above {
            lines: 0,
            bytes: 0,
            left: Open::Nothing,
            draft: Draft::new(alloc),
        }
    }

    /// No lines, with room for what those of so many bytes may declare.
    pub fn with_room(alloc: Global, bytes: usize) -> Result<Above, TableRefused>
        ensures none { IfOk result (λ above. above ≡ no_lines) }
        ensures room { IfErr result (λ refused. refused ≡ TableRefused.NoMemory) }
    {
        let Ok(draft) = Draft::with_room(alloc, bytes) else {
            return Err(TableRefused::NoMemory);
        };
        Ok(Above {
            lines: 0,
            bytes: 0,
            left: Open::Nothing,
            draft,
        })
    }

    /// How many lines there are.
    pub fn lines(&self) -> u64
        ensures { result ≡ self.now.lines }
    {
        self.lines
    }

    /// Whether a file may not end here.
    pub fn is_cut(&self) -> bool
        ensures { result ≡ is_cut self.now }
    {
        self.lines < 3 || !is_closed(&self.left)
    }

    // Whether the line ends past the last byte that a file may have.
    #[tactic(auto, unfolding(crate::specs::Checks::is_long))]
    fn is_long(&self, text: &[u8]) -> bool
        ensures value { result ≡ is_long self.now text.now }
        ensures short { result ≡ false → self.now.bytes + length text.now ≤ BYTES }
    {
        text.len() as u64 > BYTES - self.bytes
    }

    // What the line says, or the first check that it fails.
    #[tactic(auto, unfolding(crate::specs::Checks::read_line))]
    fn read_line(&self, text: &[u8]) -> Result<Line, TableReason>
        ensures value { result ≡ read_line self.now text.now }
        ensures well { IfOk result (IsWellLine self.now.lines) }
        ensures stands { IfOk result (MayStand self.now.left) }
        ensures passes { IfOk result (Passes self.now.contents self.now.left) }
        ensures short { OnOk result (self.now.bytes + length text.now ≤ BYTES) }
    {
        let line = read_said(self.lines, &self.draft, &self.left, body(text))?;
        match first_failing(&self.draft, &self.left, self.is_long(text), &line) {
            None => Ok(line),
            Some(reason) => Err(reason),
        }
    }

    // What is kept of the call that the line says, or the first check that it fails, where this stands behind
    // its word.
    #[tactic(auto, unfolding(crate::specs::Checks::read_line))]
    fn read_call(&self, text: &[u8], rest: &[u8]) -> Result<KeptCall, TableReason>
        requires below { 3 ≤ self.now.lines }
        requires call { fields_of (body text.now) ≡ codes "call" ∷ fields_of rest.now }
        ensures value { kept_said self.now.contents.places result ≡ read_line self.now text.now }
        ensures within { IfOk result (λ kept. IsOffset kept.arrives × IsOffset kept.departs) }
        ensures stands { IfOk result (λ kept. GoesOnFrom self.now.left (call_kept self.now.contents.places kept)) }
        ensures passes { IfOk result (λ kept. Passes self.now.contents self.now.left (Line.Call (call_kept self.now.contents.places kept))) }
        ensures place { IfOk result (IsKeptByNumber self.now.contents.places) }
        ensures short { OnOk result (self.now.bytes + length text.now ≤ BYTES) }
    {
        let said = read_call_line(&self.draft, &self.left, rest)?;
        let is_long = self.is_long(text);
        match first_failing_of_call(&self.draft, &self.left, is_long, &said) {
            None => Ok(kept(&said)),
            Some(reason) => Err(reason),
        }
    }

    // Takes a line of a call, where this stands behind its word.
    fn take_call(&mut self, alloc: Global, text: &[u8], rest: &[u8]) -> Result<(), LineRefused>
        requires room { self.old.lines + 1 < 2 ^ 64 }
        requires below { 3 ≤ self.old.lines }
        requires call { fields_of (body text.now) ≡ codes "call" ∷ fields_of rest.now }
        ensures taken { OnOk result (self.new ≡ with_line self.old text.now) }
        ensures passed { OnOk result (reason_of (read_line self.old text.now) ≡ None) }
        ensures refused { IfErr result (IsLineRefusal (read_line self.old text.now)) }
        ensures left { IfErr result (λ refused. self.new ≡ left_after self.old refused) }
    {
        let kept = match self.read_call(text, rest) {
            Ok(kept) => kept,
            Err(reason) => return Err(LineRefused::Reason(reason)),
        };
        let Ok(()) = self.draft.add_call(&kept) else {
            *self = Above::new(alloc);
            return Err(LineRefused::NoMemory);
        };
        self.lines += 1;
        self.bytes += text.len() as u64;
        self.left = left_by(kept.departs);
        Ok(())
    }

    // The journey that the line says with the number of its service, or the first check that it fails, where this
    // stands behind its word.
    #[tactic(auto, unfolding(crate::specs::Checks::read_line))]
    fn read_journey(&self, text: &[u8], rest: &[u8]) -> Result<FoundJourney, TableReason>
        requires below { 3 ≤ self.now.lines }
        requires journey { fields_of (body text.now) ≡ codes "journey" ∷ fields_of rest.now }
        ensures value { numbered result ≡ read_line self.now text.now }
        ensures stands { OnOk result (is_closed self.now.left ≡ true) }
        ensures passes { IfOk result (λ found. Passes self.now.contents self.now.left (journey_line found.said)) }
        ensures service { IfOk result (λ found. found.service ≡ unwrap_or (service_number self.now.contents found.said.service) 0) }
        ensures short { OnOk result (self.now.bytes + length text.now ≤ BYTES) }
    {
        let said = read_journey_line(&self.left, rest)?;
        let service = self.draft.service_number(&said.service);
        let is_known = service.is_some();
        let is_long = self.is_long(text);
        match first_failing_of_journey(&self.draft, is_long, is_known, &said) {
            None => Ok(FoundJourney {
                said,
                service: service.unwrap_or(0),
            }),
            Some(reason) => Err(reason),
        }
    }

    // Takes a line of a journey, where this stands behind its word.
    fn take_journey(&mut self, alloc: Global, text: &[u8], rest: &[u8]) -> Result<(), LineRefused>
        requires room { self.old.lines + 1 < 2 ^ 64 }
        requires below { 3 ≤ self.old.lines }
        requires journey { fields_of (body text.now) ≡ codes "journey" ∷ fields_of rest.now }
        ensures taken { OnOk result (self.new ≡ with_line self.old text.now) }
        ensures passed { OnOk result (reason_of (read_line self.old text.now) ≡ None) }
        ensures refused { IfErr result (IsLineRefusal (read_line self.old text.now)) }
        ensures left { IfErr result (λ refused. self.new ≡ left_after self.old refused) }
    {
        let found = match self.read_journey(text, rest) {
            Ok(found) => found,
            Err(reason) => return Err(LineRefused::Reason(reason)),
        };
        let Ok(()) = self
            .draft
            .add_journey_of(&found.said.id, &found.said.line, found.service)
        else {
            *self = Above::new(alloc);
            return Err(LineRefused::NoMemory);
        };
        self.lines += 1;
        self.bytes += text.len() as u64;
        self.left = Open::Begun;
        Ok(())
    }

    // Takes a line of any kind.
    fn take_line(&mut self, alloc: Global, text: &[u8]) -> Result<(), LineRefused>
        requires { self.old.lines + 1 < 2 ^ 64 }
        ensures taken { OnOk result (self.new ≡ with_line self.old text.now) }
        ensures passed { OnOk result (reason_of (read_line self.old text.now) ≡ None) }
        ensures refused { IfErr result (IsLineRefusal (read_line self.old text.now)) }
        ensures left { IfErr result (λ refused. self.new ≡ left_after self.old refused) }
    {
        let line = match self.read_line(text) {
            Ok(line) => line,
            Err(reason) => return Err(LineRefused::Reason(reason)),
        };
        let Ok(()) = self.draft.add(alloc, &line) else {
            *self = Above::new(alloc);
            return Err(LineRefused::NoMemory);
        };
        self.lines += 1;
        self.bytes += text.len() as u64;
        self.left = left_open(&line);
        Ok(())
    }

    /// Takes the line. A line that fails a check leaves all as it was; where there is no memory for a
    /// line, all lines are forgotten.
    pub fn take(&mut self, alloc: Global, text: &[u8]) -> Result<(), LineRefused>
        requires { self.old.lines + 1 < 2 ^ 64 }
        ensures taken { OnOk result (self.new ≡ with_line self.old text.now) }
        ensures passed { OnOk result (reason_of (read_line self.old text.now) ≡ None) }
        ensures refused { IfErr result (IsLineRefusal (read_line self.old text.now)) }
        ensures left { IfErr result (λ refused. self.new ≡ left_after self.old refused) }
    {
        if self.lines >= 3 {
            if let Some(rest) = behind_call(body(text)) {
                return self.take_call(alloc, text, rest);
            }
            if let Some(rest) = behind_journey(body(text)) {
                return self.take_journey(alloc, text, rest);
            }
        }
        self.take_line(alloc, text)
    }

    /// What the lines declare; takes no memory.
    pub fn into_draft(self) -> Draft
        ensures value { result ≡ self.contents }
        ensures named { 2 ≤ self.lines → 0 < length self.contents.region }
        ensures zone { IsZone self.contents.zone }
        ensures well { IsWellContents self.contents }
        ensures whole { AreWholeBut self.left self.contents.journeys }
    {
        let Above { draft, .. } = self;
        draft
    }
}
