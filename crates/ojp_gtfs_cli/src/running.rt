//! The top call.

ghost use Rattle.std.specs.Prelude.{◌≡◌};
ghost use Rattle.ojp_steps.specs.Lent.{IsUnused, lent};
ghost use Rattle.ojp_gtfs_cli.specs.Causes.{FolderGoesOn, IsUnread};
ghost use Rattle.ojp_gtfs_cli.specs.Runs.{IsDone, IsRefused, Puts, PutsAs, WritesAs};
ghost use Rattle.ojp_gtfs_cli.specs.Words.{AskForNothing, texts_of};

use crate::converting::{Done, convert_feed};
use crate::failures::{bad_words, no_memory, tell_output};
use crate::report::tell;
use crate::words::read_words;
use ojp_feed_lines::Folder;
use ojp_feed_notices::{Seen, look};
use ojp_outside::{Sink, Store, WriteFault, put_all};
use ojp_values::NoMemory;
use std::alloc::Global;

/// The status where `--strict` was asked for and there is something to look at.
const LOOK: u8 = 10;

/// The status where a write of the output failed.
const OUTPUT: u8 = 4;

/// Converts the feed of the folder as the words say, and gives the exit status. Zone files stand in the folder `zoneinfo` of
/// the store, which also has the operator's file and those of other regions.
///
/// The timetable goes to the output, once it is read back and all else is done; the report and any failure go to `report`.
pub fn run<D: Folder, S: Store, O: Sink, E: Sink>(
    alloc: Global,
    words: &[String],
    zoneinfo: &str,
    folder: &mut D,
    store: &mut S,
    output: &mut O,
    report: &mut E,
) -> u8
    // What the output gained: the timetable of the folder's feed as the words ask for it, a front of it, or nothing.
    ensures written { WritesAs (texts_of words.now) zoneinfo.now
        (D.seen folder.old).contents
        (S.seen store.old).contents
        (lent O.seen output.old output.new)
        result }
    // Why nothing was written.
    ensures words { result ≡ 2 → AskForNothing (texts_of words.now) }
    ensures unread { result ≡ 3 → IsUnread zoneinfo.now (lent D.seen folder.old folder.new) (lent S.seen store.old store.new) }
    ensures refused { result ≡ 6 → IsRefused (texts_of words.now) zoneinfo.now
        (D.seen folder.old).contents
        (S.seen store.old).contents
        (lent E.seen report.old report.new) }
    // The status of bad words is due, and nothing else is done then.
    ensures due { AskForNothing (texts_of words.now) → result ≡ 2 }
    ensures alone { result ≡ 2 → IsUnused (lent D.seen folder.old folder.new) × IsUnused (lent S.seen store.old store.new) }
    ensures folder { FolderGoesOn (D.seen folder.old) (D.seen folder.new) }
    ensures store { (S.seen store.new).contents ≡ (S.seen store.old).contents }
{
    let Some(asked) = read_words(words) else {
        return bad_words(report).status();
    };
    let strict = asked.options.strict;
    match convert_feed(alloc, &asked, zoneinfo, folder, store, report) {
        Ok(done) => finish(alloc, &done, strict, output, report),
        Err(failure) => failure.status(),
    }
}

/// Writes the report, and then the timetable.
fn finish<O: Sink, E: Sink>(
    alloc: Global,
    done: &Done,
    strict: bool,
    output: &mut O,
    report: &mut E,
) -> u8
    ensures { PutsAs strict (lent O.seen output.old output.new) done.now.converted.text.items result }
{
    tell(done, report);
    let seen = Seen {
        feed: &done.feed,
        table: &done.converted.table,
        unserved: done.converted.plan.counts.unserved_stops,
        others: &done.others,
    };
    let told = match look(alloc, seen, report) {
        Ok(told) => told,
        Err(NoMemory) => return no_memory(report).status(),
    };
    let status = status_of(strict, told);
    write(&done.converted.text, status, output, report)
}

/// Writes the text, and gives the status where that is done.
fn write<O: Sink, E: Sink>(text: &[u8], status: u8, output: &mut O, report: &mut E) -> u8
    ensures { Puts (lent O.seen output.old output.new) text.now status result }
{
    match put_all(output, text) {
        Ok(()) => status,
        Err(WriteFault) => {
            tell_output(report);
            OUTPUT
        }
    }
}

/// The status by the number of lines to look at.
fn status_of(strict: bool, told: u64) -> u8
    ensures { IsDone strict result }
{
    if strict && told > 0 { LOOK } else { 0 }
}
