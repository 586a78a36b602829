//! Reading the lines of a timetable.
ghost use Rattle.std.specs.Prelude.{◌≡◌, ◌<◌, ◌≤◌, ◌+◌, ◌++◌, ◌∷◌, List, ℕ, true, length, OnOk, IfErr};
ghost use Rattle.ojp_timetable.specs.Lines.{no_lines};
ghost use Rattle.ojp_timetable.specs.Said.{is_closed};
ghost use Rattle.ojp_timetable.specs.TableText.{ArePassed, above_of, lines_of};
ghost use Rattle.ojp_timetable.specs.Refusals.{IsRefusal, refusal_of};

use crate::file::above::Above;
use crate::file::lines::TableReason;
use crate::file::refusals::{LineRefused, TableRefused};
use memchr::memchr;
use std::alloc::Global;

/// The first line of a text with its line feed, and the text behind it.
pub fn split_line(text: &[u8]) -> (&[u8], &[u8])
    requires { 0 < length text.now }
    ensures lines { lines_of text.now ≡ result.0.now ∷ lines_of result.1.now }
    ensures shorter { length result.1.now < length text.now }
{
    match memchr(b'\n', text) {
        Some(end) => text.split_at(end + 1),
        None => (text, b""),
    }
}

// The refusal of the line of that number.
fn refusal(refused: LineRefused, line: u64) -> TableRefused
    ensures { result ≡ refusal_of refused line }
{
    match refused {
        LineRefused::Reason(reason) => TableRefused::At { line, reason },
        LineRefused::NoMemory => TableRefused::NoMemory,
    }
}

/// Reads all lines of the text, where none is above them.
pub fn read_lines(alloc: Global, bytes: &[u8], above: &mut Above) -> Result<(), TableRefused>
    requires { above.old ≡ no_lines }
    ensures passed { OnOk result (ArePassed (lines_of bytes.now) (length (lines_of bytes.now) + 1)) }
    ensures made { OnOk result (above.new ≡ above_of (lines_of bytes.now)) }
    ensures head { OnOk result (3 ≤ above.new.lines) }
    ensures closed { OnOk result (is_closed above.new.left ≡ true) }
    ensures refused { IfErr result (IsRefusal bytes.now) }
{
    let mut rest = bytes;
    while !rest.is_empty() {
        let (line, more) = split_line(rest);
        let number = above.lines() + 1;
        if let Err(refused) = above.take(alloc, line) {
            return Err(refusal(refused, number));
        }
        rest = more;
    }
    if above.is_cut() {
        return Err(TableRefused::At {
            line: above.lines() + 1,
            reason: TableReason::LineForm,
        });
    }
    Ok(())
}
