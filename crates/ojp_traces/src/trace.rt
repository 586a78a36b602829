//! The lines of a search.

ghost use Rattle.std.specs.Prelude.{◌≡◌, [], ◌++◌, true, false, OnOk, OnErr};
ghost use Rattle.std.specs.List.{flat_map};
ghost use Rattle.ojp_traces.specs.Lines.{check_line, event_line, query_line, reach_line, with_text, word_line};

use crate::events::Event;
use itoa::Buffer;
use ojp_records::Query;
use ojp_values::{Code, Instant, NoMemory, StopRef};
use std::alloc::Global;
use std::marker::Model;

/// The lines of a search, where it is on; where it is off, it stays empty.
#[derive(Drop)]
pub struct Trace {
    is_on: bool,
    bytes: Vec<u8>,
}

impl Model for Trace {
    ghost use Rattle.ojp_traces.specs.Lines.{TraceView};

    ghost Value = { TraceView };

    ghost view = { λ t. record { on = t.is_on; lines = t.bytes.items } };
}

impl Trace {
    /// A trace that stays empty. It takes no memory.
    pub fn off(alloc: Global) -> Trace
        ensures off { result.on ≡ false }
        ensures empty { result.lines ≡ [] }
    {
        Trace {
            is_on: false,
            bytes: Vec::new(alloc),
        }
    }

    /// A trace that grows by each event. It takes no memory yet.
    pub fn on(alloc: Global) -> Trace
        ensures on { result.on ≡ true }
        ensures empty { result.lines ≡ [] }
    {
        Trace {
            is_on: true,
            bytes: Vec::new(alloc),
        }
    }

    /// Whether it is on.
    pub fn is_on(&self) -> bool
        ensures { result ≡ self.now.on }
    {
        self.is_on
    }

    /// The lines, each ended by a line feed. It takes no memory.
    pub fn lines(&self) -> &[u8]
        ensures { result.now ≡ self.now.lines }
    {
        self.bytes.as_slice()
    }

    /// Adds the line of an event in the turn, where the trace is on.
    ///
    /// # Errors
    ///
    /// `NoMemory`; the trace is as before.
    pub fn add(&mut self, turn: u64, event: &Event) -> Result<(), NoMemory>
        ensures ok { OnOk result (self.new ≡ with_text self.old (event_line turn event.now)) }
        ensures err { OnErr result (self.new ≡ self.old) }
    {
        if !self.is_on {
            return Ok(());
        }
        match event {
            Event::Asked { number, query } => self.add_query(turn, *number, query),
            Event::Replied { number } => self.add_words(turn, b" reply ", *number),
            Event::Failed { number } => self.add_words(turn, b" fail ", *number),
            Event::Dropped { number } => self.add_words(turn, b" drop ", *number),
        }
    }
}

// The parts of a line.
impl Trace {
    // Adds the line of a query that is asked.
    fn add_query(&mut self, turn: u64, number: u64, query: &Query) -> Result<(), NoMemory>
        ensures on { self.new.on ≡ self.old.on }
        ensures ok { OnOk result (self.new.lines ≡ self.old.lines ++ query_line turn number query.now) }
        ensures err { OnErr result (self.new.lines ≡ self.old.lines) }
    {
        match query {
            Query::Check { region, stop } => self.add_check(turn, number, region, stop),
            Query::Reach {
                region,
                stop,
                start,
            } => self.add_reach(turn, number, region, stop, *start),
        }
    }

    // Adds the line of a place check.
    fn add_check(
        &mut self,
        turn: u64,
        number: u64,
        region: &Code,
        stop: &StopRef,
    ) -> Result<(), NoMemory>
        ensures on { self.new.on ≡ self.old.on }
        ensures ok { OnOk result (self.new.lines ≡ self.old.lines ++ check_line turn number region.now stop.now) }
        ensures err { OnErr result (self.new.lines ≡ self.old.lines) }
    {
        let mut turn_digits = Buffer::new();
        let mut digits = Buffer::new();
        self.add_parts(&[
            turn_digits.format(turn).as_bytes(),
            b" check ",
            digits.format(number).as_bytes(),
            b" ",
            region.text(),
            b" ",
            stop.text(),
            b"\n",
        ])
    }

    // Adds the line of a pair.
    fn add_reach(
        &mut self,
        turn: u64,
        number: u64,
        region: &Code,
        stop: &StopRef,
        start: Instant,
    ) -> Result<(), NoMemory>
        ensures on { self.new.on ≡ self.old.on }
        ensures ok { OnOk result (self.new.lines ≡ self.old.lines ++ reach_line turn number region.now stop.now start) }
        ensures err { OnErr result (self.new.lines ≡ self.old.lines) }
    {
        let mut turn_digits = Buffer::new();
        let mut digits = Buffer::new();
        let moment = start.text();
        self.add_parts(&[
            turn_digits.format(turn).as_bytes(),
            b" ask ",
            digits.format(number).as_bytes(),
            b" ",
            region.text(),
            b" ",
            stop.text(),
            b" ",
            &moment,
            b"\n",
        ])
    }

    // Adds a line of the turn, the words and the number.
    fn add_words(&mut self, turn: u64, words: &[u8], number: u64) -> Result<(), NoMemory>
        ensures on { self.new.on ≡ self.old.on }
        ensures ok { OnOk result (self.new.lines ≡ self.old.lines ++ word_line turn words.now number) }
        ensures err { OnErr result (self.new.lines ≡ self.old.lines) }
    {
        let mut turn_digits = Buffer::new();
        let mut digits = Buffer::new();
        self.add_parts(&[
            turn_digits.format(turn).as_bytes(),
            words,
            digits.format(number).as_bytes(),
            b"\n",
        ])
    }

    // Adds the parts; where memory runs out, the lines are as before.
    fn add_parts(&mut self, parts: &[&[u8]]) -> Result<(), NoMemory>
        ensures on { self.new.on ≡ self.old.on }
        ensures ok { OnOk result (self.new.lines ≡ self.old.lines ++ flat_map (λ part. part.now) parts.now) }
        ensures err { OnErr result (self.new.lines ≡ self.old.lines) }
    {
        let before = self.bytes.len();
        'parts: for part in parts {
            if self.bytes.extend_from_slice(part).is_err() {
                self.bytes.truncate(before);
                return Err(NoMemory);
            }
        }
        Ok(())
    }
}
