//! The zone of a zone file.

ghost use Rattle.std.specs.Prelude.{◌≡◌, ◌≤◌, ◌==◌, not, length, IfOk, IfErr};
ghost use Rattle.std.specs.List.{suffix_len};
ghost use Rattle.ojp_calendars.specs.Files.{HasCause, IsZoned, last_line, without_feed};

use crate::faults::ZoneFault;
use crate::rules::zone_rule;
use jiff_core::Error;
use jiff_tz::Tzif;
use ojp_values::Day;
use std::alloc::Global;

/// The text without the line feed at its end, if there is one.
fn without_feed(text: &[u8]) -> &[u8]
    ensures { result.now ≡ without_feed text.now }
{
    match text {
        [front @ .., b'\n'] => front,
        _ => text,
    }
}

/// How many bytes at the end are no line feeds.
fn last_length(text: &[u8]) -> usize
    ensures value { result ≡ suffix_len (λ b. not (b == 10)) text.now }
    ensures within { result ≤ length text.now }
{
    text.iter().rev().take_while(|byte| **byte != b'\n').count()
}

/// The last line of a file, without its line feed.
#[tactic(auto, unfolding(crate::specs::Files::last_line))]
pub fn last_line(file: &[u8]) -> &[u8]
    ensures { result.now ≡ last_line file.now }
{
    let text = without_feed(file);
    text.split_at(text.len() - last_length(text)).1
}

/// The text of a zone whose noons are those of the zone file on each day from the first to the last.
pub fn zone_of_file(alloc: Global, file: &[u8], first: Day, last: Day) -> Result<Vec<u8>, ZoneFault>
    ensures zoned { IfOk result (λ text. IsZoned file.now first last text.items) }
    ensures cause { IfErr result (HasCause file.now first last) }
{
    let table = match Tzif::parse(alloc, None, file) {
        Ok(table) => table,
        Err(Error::OutOfMemory) => return Err(ZoneFault::Memory),
        Err(_) => return Err(ZoneFault::File),
    };
    match zone_rule(alloc, &table, last_line(file), first, last) {
        Ok(Some(text)) => Ok(text),
        Ok(None) => Err(ZoneFault::Rule),
        Err(_) => Err(ZoneFault::Memory),
    }
}
