//! One connection of a region's server.

ghost use Rattle.std.specs.Prelude.{◌≡◌, ◌⊎◌};
ghost use Rattle.ojp_outside.specs.Causes.{Rests};
ghost use Rattle.ojp_grammar.specs.Answering.{AnswersBody};
ghost use Rattle.ojp_http.specs.Asking.{ReadsNoFurther};
ghost use Rattle.ojp_http.specs.Connections.{Serves, wire};
ghost use Rattle.ojp_bodies.specs.Reading.{IsAsked};
ghost use Rattle.ojp_scan.specs.Scans.{IsMadeFor};
ghost use Rattle.ojp_timetable.specs.Answers.{RegionAnswers};

use crate::answers::answer;
use ojp_bodies::{decline, deliver, take_ask};
use ojp_http::{Served, give_up};
use ojp_outside::{Sink, Source};
use ojp_scan::Scan;
use ojp_timetable::Timetable;
use ojp_values::NoMemory;
use std::alloc::Global;

/// Reads one request and writes the response to it: a refusal of HTTP, a refusal of the document, or the
/// region's answer. Of what the input has behind the request only the rest of its last piece is read.
pub fn serve_one<I: Source, O: Sink>(
    alloc: Global,
    table: &Timetable,
    scan: &mut Scan,
    input: &mut I,
    output: &mut O,
) -> Served
    requires made { IsMadeFor scan.old table.now }
    ensures made { IsMadeFor scan.new table.now }
    ensures serves { Serves (AnswersBody (RegionAnswers table.now))
        (wire (I.seen input.old) (O.seen output.old)) (wire (I.seen input.new) (O.seen output.new)) result }
    ensures complete { IsAsked (I.seen input.old).left
        → Rests (I.seen input.old).faults (I.seen input.new).faults
        → Rests (O.seen output.old).faults (O.seen output.new).faults
        → (result ≡ Served.Answered 200) ⊎ (result ≡ Served.NoMemory) }
    ensures taken { ReadsNoFurther (I.seen input.old).left (I.seen input.new).left }
{
    match take_ask(alloc, input) {
        Ok(ask) => match answer(alloc, table, scan, &ask) {
            Ok(delivery) => deliver(alloc, delivery, output),
            Err(NoMemory) => give_up(output),
        },
        Err(declined) => decline(alloc, declined, output),
    }
}
