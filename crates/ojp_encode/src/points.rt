//! Exchange points and the regions that meet there.

ghost use Rattle.std.specs.Prelude.{◌^◌};
ghost use Rattle.ojp_values.specs.Limits.{IsWellNeighbour, IsWellPoint};
ghost use Rattle.ojp_grammar.specs.Syntax.{Fits};
ghost use Rattle.ojp_grammar.specs.Grammar.{NEIGHBOUR, POINT};
ghost use Rattle.ojp_grammar.specs.Documents.{neighbour_said, point_said};
ghost use Rattle.ojp_encode.specs.Writing.{Writes, spelling};

use crate::lengths::{code_length, length_each, number_length, stop_length};
use crate::lists::{put, put_list};
use crate::markup::*;
use crate::spelled::Spelled;
use itoa::Buffer;
use ojp_outside::{Sink, WriteFault};
use ojp_tables::put_tag;
use ojp_tables::runs::*;
use ojp_values::{Neighbour, Point};

impl Spelled for Neighbour {
    ghost bytes = { λ n. spelling NEIGHBOUR (neighbour_said n) };

    ghost is_well = { IsWellNeighbour };

    ghost fits = { λ n. Fits NEIGHBOUR (neighbour_said n) };

    ghost most = { 1_024 };

    fn put<S: Sink>(&self, sink: &mut S) -> Result<(), WriteFault> {
        let mut digits = Buffer::new();
        let code = self.code.text();
        let change = digits.format(self.change).as_bytes();
        put_tag!(put, sink; NEIGHBOUR_START, code, CODE_CHANGE, change, NEIGHBOUR_END)
    }

    fn length(&self) -> u64 {
        NEIGHBOUR_MARKUP + code_length(&self.code) + number_length(self.change)
    }
}

impl Spelled for Point {
    ghost bytes = { λ p. spelling POINT (point_said p) };

    ghost is_well = { IsWellPoint };

    ghost fits = { λ p. Fits POINT (point_said p) };

    ghost most = { 2 ^ 16 };

    fn put<S: Sink>(&self, sink: &mut S) -> Result<(), WriteFault> {
        let mut digits = Buffer::new();
        let region = self.region.text();
        let stop = self.stop.text();
        let change = digits.format(self.change).as_bytes();
        let neighbours = self.neighbours.as_slice();
        put_list(
            sink,
            &[
                POINT_START,
                region,
                REGION_STOP,
                stop,
                STOP_CHANGE,
                change,
                CHANGE_END,
            ],
            neighbours,
            POINT_END,
        )
    }

    fn length(&self) -> u64 {
        let fields = code_length(&self.region)
            + stop_length(&self.stop)
            + number_length(self.change);
        let neighbours = self.neighbours.as_slice();
        POINT_MARKUP + fields + length_each(neighbours)
    }
}
