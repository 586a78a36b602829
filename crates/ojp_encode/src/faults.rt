//! Faults.

ghost use Rattle.ojp_grammar.specs.Syntax.{Fits};
ghost use Rattle.ojp_grammar.specs.Grammar.{FAULT};
ghost use Rattle.ojp_grammar.specs.Documents.{fault_said};
ghost use Rattle.ojp_encode.specs.Writing.{Writes, spelling};

use crate::lengths::{code_length, stop_length};
use crate::lists::put;
use crate::markup::*;
use crate::spelled::Spelled;
use ojp_outside::{Sink, WriteFault};
use ojp_tables::put_tag;
use ojp_tables::runs::*;
use ojp_values::Fault;

impl Spelled for Fault {
    ghost bytes = { λ f. spelling FAULT (fault_said f) };

    ghost is_well = { λ _. Unit {0} };

    ghost fits = { λ f. Fits FAULT (fault_said f) };

    ghost most = { 1_024 };

    fn put<S: Sink>(&self, sink: &mut S) -> Result<(), WriteFault> {
        match self {
            Fault::SameStop(stop) => {
                let stop = stop.text();
                put_tag!(put, sink; SAME_STOP_START, stop, FAULT_END)
            }
            Fault::StopUnknown(stop) => {
                let stop = stop.text();
                put_tag!(put, sink; STOP_UNKNOWN_START, stop, FAULT_END)
            }
            Fault::NoTrip(stop) => {
                let stop = stop.text();
                put_tag!(put, sink; NO_TRIP_START, stop, FAULT_END)
            }
            Fault::RegionFailed(code) => {
                let code = code.text();
                put_tag!(put, sink; REGION_FAILED_START, code, FAULT_END)
            }
            Fault::NotServed => put_tag!(put, sink; NOT_SERVED_FAULT),
        }
    }

    fn length(&self) -> u64 {
        match self {
            Fault::SameStop(stop) => SAME_STOP_MARKUP + stop_length(stop),
            Fault::StopUnknown(stop) => STOP_UNKNOWN_MARKUP + stop_length(stop),
            Fault::NoTrip(stop) => NO_TRIP_MARKUP + stop_length(stop),
            Fault::RegionFailed(code) => REGION_FAILED_MARKUP + code_length(code),
            Fault::NotServed => NOT_SERVED_MARKUP,
        }
    }
}
