//! Trips and their legs.

ghost use Rattle.std.specs.Prelude.{◌^◌};
ghost use Rattle.ojp_values.specs.Limits.{IsWellTrip};
ghost use Rattle.ojp_grammar.specs.Syntax.{Fits};
ghost use Rattle.ojp_grammar.specs.Grammar.{LEG, TRIP};
ghost use Rattle.ojp_grammar.specs.Documents.{leg_said, trip_said};
ghost use Rattle.ojp_encode.specs.Writing.{Writes, spelling};

use crate::lengths::{
    DAY, MOMENT, code_length, label_length, length_each, name_length, number_length, stop_length,
};
use crate::lists::{put, put_list};
use crate::markup::*;
use crate::names::{Room, escape};
use crate::spelled::Spelled;
use itoa::Buffer;
use ojp_outside::{Sink, WriteFault};
use ojp_tables::put_tag;
use ojp_tables::runs::*;
use ojp_values::{Leg, Trip};

impl Spelled for Leg {
    ghost bytes = { λ l. spelling LEG (leg_said l) };

    ghost is_well = { λ _. Unit {0} };

    ghost fits = { λ l. Fits LEG (leg_said l) };

    ghost most = { 8_192 };

    fn put<S: Sink>(&self, sink: &mut S) -> Result<(), WriteFault> {
        let mut board_room = Room::new();
        let mut alight_room = Room::new();
        let board = self.board.text();
        let board_name = escape(&self.board_name, &mut board_room);
        let departs: &[u8] = &self.departs.text();
        let alight = self.alight.text();
        let alight_name = escape(&self.alight_name, &mut alight_room);
        let arrives: &[u8] = &self.arrives.text();
        let day: &[u8] = &self.day.text();
        let journey = self.journey.text();
        let line = self.line.text();
        let region = self.region.text();
        put_tag!(put, sink;
            LEG_START, board, STOP_NAME, board_name, NAME_TIME, departs, BOARD_ALIGHT, alight,
            STOP_NAME, alight_name, NAME_TIME, arrives, ALIGHT_SERVICE, day, DAY_JOURNEY, journey,
            JOURNEY_LINE, line, LINE_REGION, region, LEG_END
        )
    }

    fn length(&self) -> u64 {
        let board = stop_length(&self.board) + name_length(&self.board_name) + MOMENT;
        let alight = stop_length(&self.alight) + name_length(&self.alight_name) + MOMENT;
        let journey = label_length(&self.journey) + label_length(&self.line);
        LEG_MARKUP + board + alight + DAY + journey + code_length(&self.region)
    }
}

impl Spelled for Trip {
    ghost bytes = { λ t. spelling TRIP (trip_said t) };

    ghost is_well = { IsWellTrip };

    ghost fits = { λ t. Fits TRIP (trip_said t) };

    ghost most = { 2 ^ 30 };

    fn put<S: Sink>(&self, sink: &mut S) -> Result<(), WriteFault> {
        let mut duration_digits = Buffer::new();
        let mut transfers_digits = Buffer::new();
        let duration = duration_digits.format(self.duration).as_bytes();
        let start: &[u8] = &self.start.text();
        let end: &[u8] = &self.end.text();
        let transfers = transfers_digits.format(self.transfers).as_bytes();
        let legs = self.legs.as_slice();
        put_list(
            sink,
            &[
                TRIP_START,
                duration,
                DURATION_TIME,
                start,
                START_END,
                end,
                END_TRANSFERS,
                transfers,
                TRANSFERS_END,
            ],
            legs,
            TRIP_END,
        )
    }

    fn length(&self) -> u64 {
        let numbers = number_length(self.duration) + number_length(self.transfers);
        let legs = self.legs.as_slice();
        TRIP_MARKUP + numbers + MOMENT + MOMENT + length_each(legs)
    }
}
