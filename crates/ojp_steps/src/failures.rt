//! How a command fails, with its status and its text.

ghost use Rattle.std.specs.Prelude.{◌≡◌, ◌≤◌};
ghost use Rattle.std.specs.List.{flat_map};
ghost use Rattle.std.specs.Io.KnownBytes.{Appends};
ghost use Rattle.ojp_outside.specs.Causes.{Rests};
ghost use Rattle.ojp_grammar.specs.Reasons.{refusal_text};
ghost use Rattle.ojp_steps.specs.Lent.{lent, Tells};
ghost use Rattle.ojp_steps.specs.Failures.{dispute_text, failure_of_book, line_of, refused_line_text, region_text, status_of, text_of, twice_text};
ghost use Rattle.ojp_steps.specs.Endings.{Concludes};

use itoa::Buffer;
use ojp_exchange::BookRefused;
use ojp_grammar::refusals::Reason;
use ojp_outside::{Sink, put_parts};
use ojp_timetable::TableReason;
use ojp_values::{Code, StopRef};

/// Why a command did not come to its end.
#[derive(Clone, Copy, Debug, PartialEq, Eq)]
pub enum Failure<'a> {
    /// The input spells no document that was asked for: the place, counted in bytes, and the reason.
    Document {
        at: u64,
        reason: Reason,
    },
    /// The words are not those of a command.
    Words,
    /// A file could not be read.
    Unread {
        file: &'a str,
    },
    /// A file has more bytes than a file may have.
    TooLong {
        file: &'a str,
    },
    /// A read of the input failed.
    Input,
    /// A write of the output failed.
    Output,
    /// Memory ran out.
    Memory,
    /// A file is no timetable, or no file of regions: its first line that fails a check, and the check.
    Line {
        file: &'a str,
        line: u64,
        reason: TableReason,
    },
    /// Two timetables are of the region with this code, the least such.
    Twice {
        code: Code,
    },
    /// The regions have more exchange points than a book may have.
    TooMany,
    /// At the exchange point the region `left` declares the region `right`, which does not declare it; the least such.
    Disagree {
        point: StopRef,
        left: Code,
        right: Code,
    },
    /// The link to the region failed, or its reply did not fit.
    Region {
        code: Code,
    },
    /// The doors could not listen, or gave no connection.
    Doors,
}

impl Failure<'_> {
    /// The exit status.
    pub fn status(&self) -> u8
        ensures { result ≡ status_of self.now }
    {
        match self {
            Failure::Document { .. } => 1,
            Failure::Words => 2,
            Failure::Unread { .. } => 3,
            Failure::TooLong { .. } => 3,
            Failure::Input => 3,
            Failure::Output => 4,
            Failure::Memory => 5,
            Failure::Line { .. } => 6,
            Failure::Twice { .. } => 7,
            Failure::TooMany => 7,
            Failure::Disagree { .. } => 7,
            Failure::Region { .. } => 8,
            Failure::Doors => 9,
        }
    }
}

/// The failure of a command whose regions make no book.
pub fn failure_of_book(reason: BookRefused) -> Failure<'static>
    ensures { result ≡ failure_of_book reason }
{
    match reason {
        BookRefused::TwiceRegion(code) => Failure::Twice { code },
        BookRefused::TooMany => Failure::TooMany,
        BookRefused::Disagree { point, left, right } => Failure::Disagree { point, left, right },
        BookRefused::NoMemory => Failure::Memory,
    }
}

/// The status of a command that ended so. A failure is told as one line; a write of it that fails
/// changes no status.
pub fn conclude<E: Sink>(ended: &Result<(), Failure<'_>>, faults: &mut E) -> u8
    ensures { Concludes ended.now (lent E.seen faults.old faults.new) result }
{
    match ended {
        Ok(()) => 0,
        Err(failure) => {
            tell(failure, faults);
            failure.status()
        }
    }
}

fn tell<E: Sink>(failure: &Failure<'_>, faults: &mut E)
    ensures told { Tells (lent E.seen faults.old faults.new) (line_of (text_of failure.now)) }
    ensures later { (E.seen faults.old).faults ≤ (E.seen faults.new).faults }
{
    match *failure {
        Failure::Document { at, reason } => tell_document(at, reason, faults),
        Failure::Words => put(faults, &[b"ojp: bad words\n"]),
        Failure::Unread { file } => put(faults, &[b"store: ", file.as_bytes(), b"\n"]),
        Failure::TooLong { file } => put(faults, &[b"too long: ", file.as_bytes(), b"\n"]),
        Failure::Input => put(faults, &[b"input\n"]),
        Failure::Output => put(faults, &[b"output\n"]),
        Failure::Memory => put(faults, &[b"no memory\n"]),
        Failure::Line { file, line, reason } => tell_line(file, line, reason.words(), faults),
        Failure::Twice { code } => tell_twice(code.text(), faults),
        Failure::TooMany => put(faults, &[b"too many\n"]),
        Failure::Disagree { point, left, right } => tell_dispute(
            point.text(),
            left.text(),
            right.text(),
            faults,
        ),
        Failure::Region { code } => tell_region(code.text(), faults),
        Failure::Doors => put(faults, &[b"doors\n"]),
    }
}

fn tell_document<E: Sink>(at: u64, reason: Reason, faults: &mut E)
    ensures told { Tells (lent E.seen faults.old faults.new) (line_of (refusal_text at reason)) }
    ensures later { (E.seen faults.old).faults ≤ (E.seen faults.new).faults }
{
    let mut digits = Buffer::new();
    let number = digits.format(at);
    put(
        faults,
        &[
            b"byte ",
            number.as_bytes(),
            b": ",
            reason.words().as_bytes(),
            b"\n",
        ],
    );
}

fn tell_line<E: Sink>(file: &str, line: u64, reason: &str, faults: &mut E)
    ensures told { Tells (lent E.seen faults.old faults.new) (line_of (refused_line_text file.now line reason.now)) }
    ensures later { (E.seen faults.old).faults ≤ (E.seen faults.new).faults }
{
    let mut digits = Buffer::new();
    let number = digits.format(line);
    put(
        faults,
        &[
            file.as_bytes(),
            b": line ",
            number.as_bytes(),
            b": ",
            reason.as_bytes(),
            b"\n",
        ],
    );
}

fn tell_dispute<E: Sink>(point: &[u8], left: &[u8], right: &[u8], faults: &mut E)
    ensures told { Tells (lent E.seen faults.old faults.new) (line_of (dispute_text point.now left.now right.now)) }
    ensures later { (E.seen faults.old).faults ≤ (E.seen faults.new).faults }
{
    put(
        faults,
        &[b"regions disagree: ", point, b" ", left, b" ", right, b"\n"],
    );
}

fn tell_twice<E: Sink>(code: &[u8], faults: &mut E)
    ensures told { Tells (lent E.seen faults.old faults.new) (line_of (twice_text code.now)) }
    ensures later { (E.seen faults.old).faults ≤ (E.seen faults.new).faults }
{
    put(faults, &[b"region twice: ", code, b"\n"]);
}

fn tell_region<E: Sink>(code: &[u8], faults: &mut E)
    ensures told { Tells (lent E.seen faults.old faults.new) (line_of (region_text code.now)) }
    ensures later { (E.seen faults.old).faults ≤ (E.seen faults.new).faults }
{
    put(faults, &[b"region failed: ", code, b"\n"]);
}

/// Writes the parts; nobody can be told of a fault on standard error.
fn put<E: Sink>(faults: &mut E, parts: &[&[u8]])
    ensures told { Tells (lent E.seen faults.old faults.new) (flat_map (λ part. part.now) parts.now) }
    ensures later { (E.seen faults.old).faults ≤ (E.seen faults.new).faults }
{
    let _ = put_parts(faults, parts);
}
