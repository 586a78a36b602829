//! Whole legs at the front of bytes.
#![tactic(auto)]

ghost use Rattle.std.specs.Prelude.{◌≡◌, ◌++◌, ◌≤◌, IfSome, IsTrue, length};
ghost use Rattle.ojp_values.specs.Texts.{is_stop_ref, is_code, is_label, is_name, escaped};
ghost use Rattle.ojp_values.specs.Dates.{moment_text, day_text};
ghost use Rattle.ojp_values.specs.declared.moments.TheConstants.{FIRST_DAY, LAST_DAY, LAST_SECOND};
ghost use Rattle.ojp_grammar.specs.Fronts.{ReadsLeg};

use memchr::memchr;
use ojp_tables::runs::*;
use ojp_tables::take_tag;
use ojp_values::{Code, Day, Instant, Label, Leg, Name, StopRef};
use std::marker::Model;

/// The bytes that are left to read.
#[derive(Drop)]
pub struct Front<'a> {
    bytes: &'a [u8],
}

impl<'a> Model for Front<'a> {
    ghost use Rattle.std.specs.Prelude.{ℕ, List};

    ghost Value = { List ℕ };

    ghost view = { λ front. front.bytes.now };
}

impl<'a> Front<'a> {
    /// All the bytes are left.
    pub fn new(bytes: &'a [u8]) -> Front<'a>
        ensures { result ≡ bytes.now }
    {
        Front { bytes }
    }

    /// How many bytes are left.
    pub fn len(&self) -> usize
        ensures { result ≡ length self.now }
    {
        self.bytes.len()
    }

    /// Passes over a text, if it stands at the front.
    #[tactic(auto, using(crate::proofs::Cuts::begun))]
    fn pass(&mut self, text: &[u8]) -> Option<()>
        ensures { IfSome result (λ _. self.old ≡ text.now ++ self.new) }
    {
        if self.bytes.starts_with(text) {
            let (_, rest) = self.bytes.split_at(text.len());
            self.bytes = rest;
            Some(())
        } else {
            None
        }
    }

    /// Takes the bytes before the next `<`.
    fn run(&mut self) -> &'a [u8]
        ensures { self.old ≡ result.now ++ self.new }
    {
        let bytes = self.bytes;
        match memchr(b'<', bytes) {
            Some(len) => {
                let (run, rest) = bytes.split_at(len);
                self.bytes = rest;
                run
            }
            None => {
                self.bytes = &[];
                bytes
            }
        }
    }

    /// Passes over the run, and takes the reference behind it.
    fn stop_behind(&mut self, run: &[u8]) -> Option<StopRef>
        ensures { IfSome result (λ s. (self.old ≡ run.now ++ (s ++ self.new)) × IsTrue (is_stop_ref s)) }
    {
        take_tag!(self; run);
        StopRef::from_bytes(self.run())
    }

    /// Passes over the run, and takes the code behind it.
    fn code_behind(&mut self, run: &[u8]) -> Option<Code>
        ensures { IfSome result (λ s. (self.old ≡ run.now ++ (s ++ self.new)) × IsTrue (is_code s)) }
    {
        take_tag!(self; run);
        Code::from_bytes(self.run())
    }

    /// Passes over the run, and takes the label behind it.
    fn label_behind(&mut self, run: &[u8]) -> Option<Label>
        ensures { IfSome result (λ s. (self.old ≡ run.now ++ (s ++ self.new)) × IsTrue (is_label s)) }
    {
        take_tag!(self; run);
        Label::from_bytes(self.run())
    }

    /// Passes over the run, and takes the name behind it.
    fn name_behind(&mut self, run: &[u8]) -> Option<Name>
        ensures { IfSome result (λ s. (self.old ≡ run.now ++ (escaped s ++ self.new)) × IsTrue (is_name s)) }
    {
        take_tag!(self; run);
        Name::read_escaped(self.run())
    }

    /// Passes over the run, and takes the moment behind it.
    fn moment_behind(&mut self, run: &[u8]) -> Option<Instant>
        ensures { IfSome result (λ n. (self.old ≡ run.now ++ (moment_text n ++ self.new)) × (n ≤ LAST_SECOND)) }
    {
        take_tag!(self; run);
        Instant::read(self.run())
    }

    /// Passes over the run, and takes the day behind it.
    fn day_behind(&mut self, run: &[u8]) -> Option<Day>
        ensures { IfSome result (λ n. (self.old ≡ run.now ++ (day_text n ++ self.new)) × (FIRST_DAY ≤ n) × (n ≤ LAST_DAY)) }
    {
        take_tag!(self; run);
        Day::read(self.run())
    }

    /// A leg that stands whole at the front; takes no memory.
    pub fn leg(&mut self) -> Option<Leg>
        ensures { IfSome result (λ leg. ReadsLeg self.old leg self.new) }
    {
        let board = self.stop_behind(LEG_START)?;
        let board_name = self.name_behind(STOP_NAME)?;
        let departs = self.moment_behind(NAME_TIME)?;
        let alight = self.stop_behind(BOARD_ALIGHT)?;
        let alight_name = self.name_behind(STOP_NAME)?;
        let arrives = self.moment_behind(NAME_TIME)?;
        let day = self.day_behind(ALIGHT_SERVICE)?;
        let journey = self.label_behind(DAY_JOURNEY)?;
        let line = self.label_behind(JOURNEY_LINE)?;
        let region = self.code_behind(LINE_REGION)?;
        self.pass(LEG_END)?;
        Some(Leg {
            region,
            journey,
            line,
            day,
            board,
            board_name,
            departs,
            alight,
            alight_name,
            arrives,
        })
    }
}
