//! The command itself.

ghost use Rattle.std.specs.Prelude.{◌≡◌, ◌≤◌, [], map, string_bytes};
ghost use Rattle.ojp_links_mem.specs.Files.{HasReadNone, files_seen};
ghost use Rattle.ojp_steps.specs.Lent.{lent, TellsTrace};
ghost use Rattle.ojp_plan.specs.Plans.{MakesText, PlansAs};

use crate::answering::answer_text;
use crate::learning::prepare;
use ojp_links_mem::FileLinks;
use ojp_outside::{MemSink, Sink, Source, Store, WriteFault, put_all};
use ojp_steps::failures::Failure;
use ojp_steps::input::{failure_of, read_request};
use ojp_traces::Trace;
use ojp_values::NoMemory;
use std::alloc::Global;

/// Reads the timetable files in their order and one request, and writes the delivery that their regions answer together.
/// `order` is the order in which their replies become ready, from 0 to 10; the delivery does not depend on it, but for
/// which of several equally early trips is given. Where `traces` is true, the lines of the search are told before.
///
/// # Errors
///
/// The failure of the first step that failed: the files, the book of their regions, the input, the answer, the output.
pub fn plan<'a, I: Source, O: Sink, E: Sink, F: Store + Drop>(
    alloc: Global,
    order: u64,
    traces: bool,
    names: &'a [String],
    input: &mut I,
    output: &mut O,
    faults: &mut E,
    files: &mut FileLinks<F>,
) -> Result<(), Failure<'a>>
    requires order { order ≤ 10 }
    requires fresh { HasReadNone (files_seen F.seen files.old) }
    ensures { PlansAs order traces (map (λ name. string_bytes name) names.now)
        (lent (files_seen F.seen) files.old files.new)
        (lent I.seen input.old input.new)
        (lent O.seen output.old output.new)
        (lent E.seen faults.old faults.new)
        result }
{
    let mut trace = trace_of(alloc, traces);
    let text = match planned_text(alloc, order, names, input, files, &mut trace) {
        Ok(text) => text,
        Err(failure) => return Err(failure),
    };
    tell_trace(&trace, faults);
    match put_all(output, text.written()) {
        Ok(()) => Ok(()),
        Err(WriteFault) => Err(Failure::Output),
    }
}

/// The document of the answer, in memory.
fn planned_text<'a, I: Source, F: Store + Drop>(
    alloc: Global,
    order: u64,
    names: &'a [String],
    input: &mut I,
    files: &mut FileLinks<F>,
    trace: &mut Trace,
) -> Result<MemSink, Failure<'a>>
    requires order { order ≤ 10 }
    requires fresh { HasReadNone (files_seen F.seen files.old) }
    requires empty { trace.old.lines ≡ [] }
    ensures { MakesText order trace.old.on trace.new.lines (map (λ name. string_bytes name) names.now)
        (lent (files_seen F.seen) files.old files.new)
        (lent I.seen input.old input.new)
        result }
{
    let book = match prepare(alloc, order, names, files) {
        Ok(book) => book,
        Err(failure) => return Err(failure),
    };
    let ask = match read_request(alloc, input) {
        Ok(ask) => ask,
        Err(refused) => return Err(failure_of(refused)),
    };
    match answer_text(alloc, &book, files, &ask, trace) {
        Ok(text) => Ok(text),
        Err(NoMemory) => Err(Failure::Memory),
    }
}

/// A trace that is on where one is asked for.
fn trace_of(alloc: Global, traces: bool) -> Trace
    ensures on { result.on ≡ traces }
    ensures empty { result.lines ≡ [] }
{
    if traces {
        Trace::on(alloc)
    } else {
        Trace::off(alloc)
    }
}

/// Writes the lines of the trace, if there are any; a write that fails changes nothing else.
fn tell_trace<E: Sink>(trace: &Trace, faults: &mut E)
    ensures told { TellsTrace (lent E.seen faults.old faults.new) trace.now.lines }
    ensures later { (E.seen faults.old).faults ≤ (E.seen faults.new).faults }
{
    let lines = trace.lines();
    if lines.is_empty() {
        return;
    }
    let _ = put_all(faults, lines);
}
