//! Lines.

ghost use Rattle.std.specs.Prelude.{◌≡◌, [], ◌∷◌, ◌++◌, OnOk};
ghost use Rattle.ojp_lines.specs.Lines.{call_text, head_text, journey_text, line_text, neighbour_text, place_text, service_text};

use crate::fields::{put, put_field, put_number, put_time};
use ojp_values::NoMemory;

/// Writes the first three lines: the title, the code of the region, and the zone.
#[tactic(auto, unfolding(crate::specs::Lines::head_text))]
pub fn put_head(out: &mut Vec<u8>, region: &[u8], zone: &[u8]) -> Result<(), NoMemory>
    ensures { OnOk result (out.new.items ≡ out.old.items ++ head_text region.now zone.now) }
{
    put(out, b"ojp-timetable 1\n")?;
    put_pair(out, b"region", region)?;
    put_pair(out, b"zone", zone)
}

// Writes the line of a word and one field.
fn put_pair(out: &mut Vec<u8>, word: &[u8], field: &[u8]) -> Result<(), NoMemory>
    ensures { OnOk result (out.new.items ≡ out.old.items ++ line_text (word.now ∷ field.now ∷ [])) }
{
    put(out, word)?;
    put_field(out, field)?;
    put(out, b"\n")
}

/// Writes the line of a place: `stop` or `exchange`, the stop, the change time in seconds, and the name.
#[tactic(auto, unfolding(crate::specs::Lines::place_text))]
pub fn put_place(
    out: &mut Vec<u8>,
    word: &[u8],
    stop: &[u8],
    change: u64,
    name: &[u8],
) -> Result<(), NoMemory>
    ensures { OnOk result (out.new.items ≡ out.old.items ++ place_text word.now stop.now change name.now) }
{
    put(out, word)?;
    put_field(out, stop)?;
    put_number(out, change)?;
    put_field(out, name)?;
    put(out, b"\n")
}

/// Writes the line of a neighbour: the stop, the neighbour's code, and the time of a change from it in seconds.
#[tactic(auto, unfolding(crate::specs::Lines::neighbour_text))]
pub fn put_neighbour(
    out: &mut Vec<u8>,
    stop: &[u8],
    code: &[u8],
    change: u64,
) -> Result<(), NoMemory>
    ensures { OnOk result (out.new.items ≡ out.old.items ++ neighbour_text stop.now code.now change) }
{
    put(out, b"neighbour")?;
    put_field(out, stop)?;
    put_field(out, code)?;
    put_number(out, change)?;
    put(out, b"\n")
}

/// Writes the line of a service: its label, its first and its last day as `YYYY-MM-DD`, and the marks of its weekdays.
#[tactic(auto, unfolding(crate::specs::Lines::service_text))]
pub fn put_service(
    out: &mut Vec<u8>,
    id: &[u8],
    first: &[u8],
    last: &[u8],
    marks: &[u8],
) -> Result<(), NoMemory>
    ensures { OnOk result (out.new.items ≡ out.old.items ++ service_text id.now first.now last.now marks.now) }
{
    put(out, b"service")?;
    put_field(out, id)?;
    put_field(out, first)?;
    put_field(out, last)?;
    put_field(out, marks)?;
    put(out, b"\n")
}

/// Writes the line of a journey: its label, that of its service, and that of its line.
#[tactic(auto, unfolding(crate::specs::Lines::journey_text))]
pub fn put_journey(
    out: &mut Vec<u8>,
    id: &[u8],
    service: &[u8],
    line: &[u8],
) -> Result<(), NoMemory>
    ensures { OnOk result (out.new.items ≡ out.old.items ++ journey_text id.now service.now line.now) }
{
    put(out, b"journey")?;
    put_field(out, id)?;
    put_field(out, service)?;
    put_field(out, line)?;
    put(out, b"\n")
}

/// Writes the line of a call: the stop, and the arrival and the departure in seconds, `-` for none.
#[tactic(auto, unfolding(crate::specs::Lines::call_text))]
pub fn put_call(
    out: &mut Vec<u8>,
    stop: &[u8],
    arrives: Option<u64>,
    departs: Option<u64>,
) -> Result<(), NoMemory>
    ensures { OnOk result (out.new.items ≡ out.old.items ++ call_text stop.now arrives departs) }
{
    put(out, b"call")?;
    put_field(out, stop)?;
    put_time(out, arrives)?;
    put_time(out, departs)?;
    put(out, b"\n")
}
