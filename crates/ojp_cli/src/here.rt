//! The top call of the commands that wait for nobody.

ghost use Rattle.std.specs.Prelude.{◌≡◌, ◌⊎◌, ℕ};
ghost use Rattle.ojp_links_mem.specs.Files.{HasReadNone, files_seen};
ghost use Rattle.ojp_steps.specs.Lent.{lent};
ghost use Rattle.ojp_cli.specs.Words.{named_by};
ghost use Rattle.ojp_cli.specs.Runs.{RunsAs, IsDue};

use crate::commands::check::check;
use crate::commands::load::load_network;
use crate::words::{Command, read_order, read_words};
use ojp_links_mem::FileLinks;
use ojp_outside::{Sink, Source, Store};
use ojp_plan::plan;
use ojp_steps::failures::{Failure, conclude};
use std::alloc::Global;

/// Runs the command of the words, and gives the exit status. It waits for nobody.
///
/// `plan [--order N] [--trace] FILE..` reads 1 to 32 timetable files and one request document, and writes the delivery
/// document with which their regions answer it together; N, from 0 to 10, is the order in which their replies become ready,
/// and with `--trace` the lines of the search are written to standard error before. `check` reads one document and writes
/// the name of its request or delivery element, as a line. Both read the input to its end, or to the first bytes that refuse
/// the document whatever follows. `load NUMBER` makes a network of regions and asks from the number, puts the asks through
/// the gateway, and writes four lines about their trips.
pub fn run_here<I: Source, O: Sink, E: Sink, F: Store + Drop>(
    alloc: Global,
    words: &[String],
    input: &mut I,
    output: &mut O,
    faults: &mut E,
    files: &mut FileLinks<F>,
) -> u8
    requires fresh { HasReadNone (files_seen F.seen files.old) }
    // What was done, with its status and its line; or why it was not, and what was left alone.
    ensures runs { RunsAs (named_by words.now)
        (lent I.seen input.old input.new)
        (lent O.seen output.old output.new)
        (lent E.seen faults.old faults.new)
        (lent (files_seen F.seen) files.old files.new)
        result }
    // Where nothing outside failed, a status comes where it is due, or memory ran out.
    ensures due { (status : ℕ) → IsDue (named_by words.now)
        (lent I.seen input.old input.new)
        (lent O.seen output.old output.new)
        (lent (files_seen F.seen) files.old files.new)
        status → (result ≡ 5) ⊎ (result ≡ status) }
{
    match read_words(words) {
        Some(Command::Plan(words)) => match read_order(words.order) {
            Some(order) => conclude(
                &plan(
                    alloc,
                    order,
                    words.traces,
                    words.files,
                    input,
                    output,
                    faults,
                    files,
                ),
                faults,
            ),
            None => conclude(&Err(Failure::Words), faults),
        },
        Some(Command::Load(number)) => load_network(alloc, number, output, faults),
        Some(Command::Check) => conclude(&check(alloc, input, output), faults),
        None => conclude(&Err(Failure::Words), faults),
    }
}
