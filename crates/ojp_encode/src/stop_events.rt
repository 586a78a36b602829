//! Stop events.

ghost use Rattle.ojp_grammar.specs.Syntax.{Fits};
ghost use Rattle.ojp_grammar.specs.Grammar.{EVENT};
ghost use Rattle.ojp_grammar.specs.Documents.{event_said};
ghost use Rattle.ojp_encode.specs.Writing.{Writes, spelling};

use crate::lengths::{DAY, MOMENT, code_length, label_length, number_length, stop_length};
use crate::lists::put;
use crate::markup::*;
use crate::spelled::Spelled;
use itoa::Buffer;
use ojp_outside::{Sink, WriteFault};
use ojp_tables::put_tag;
use ojp_tables::runs::*;
use ojp_values::Event;

impl Spelled for Event {
    ghost bytes = { λ e. spelling EVENT (event_said e) };

    ghost is_well = { λ _. Unit {0} };

    ghost fits = { λ e. Fits EVENT (event_said e) };

    ghost most = { 4_096 };

    fn put<S: Sink>(&self, sink: &mut S) -> Result<(), WriteFault> {
        let mut digits = Buffer::new();
        let stop = self.stop.text();
        let order = digits.format(self.order).as_bytes();
        let moment: &[u8] = &self.moment.text();
        let day: &[u8] = &self.day.text();
        let journey = self.journey.text();
        let line = self.line.text();
        let region = self.region.text();
        put_tag!(put, sink;
            EVENT_START, stop, STOP_ORDER, order, ORDER_TIME, moment, TIME_SERVICE, day,
            DAY_JOURNEY, journey, JOURNEY_LINE, line, LINE_REGION, region, EVENT_END
        )
    }

    fn length(&self) -> u64 {
        let halt = stop_length(&self.stop) + number_length(self.order) + MOMENT;
        let journey = label_length(&self.journey) + label_length(&self.line);
        EVENT_MARKUP + halt + DAY + journey + code_length(&self.region)
    }
}
