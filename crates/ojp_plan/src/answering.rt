//! The request is answered by the regions of the files, and the answer is spelled.

ghost use Rattle.std.specs.Prelude.{◌≡◌, ℕ, IfOk, List, []};
ghost use Rattle.ojp_values.specs.Limits.{IsWellDelivery};
ghost use Rattle.ojp_timetable.specs.GatewayAnswers.{GatewayAnswers};
ghost use Rattle.ojp_timetable.specs.Tables.{Timetable};
ghost use Rattle.ojp_links_mem.specs.Files.{links_seen};
ghost use Rattle.ojp_plan.specs.Plans.{AnswersAs, IsTraceFor};
ghost use Rattle.ojp_plan.specs.Ready.{IsLearnedOf};

use ojp_bodies::spell;
use ojp_exchange::Book;
use ojp_gateway::answer_paced;
use ojp_links::Links;
use ojp_links_mem::FileLinks;
use ojp_outside::{MemSink, Store};
use ojp_traces::Trace;
use ojp_values::{Ask, Delivery, NoMemory};
use std::alloc::Global;

/// The document of the answer, in memory.
pub(crate) fn answer_text<F: Store + Drop>(
    alloc: Global,
    book: &Book,
    files: &mut FileLinks<F>,
    ask: &Ask,
    trace: &mut Trace,
) -> Result<MemSink, NoMemory>
    requires { (given : List Timetable) × (order : ℕ) × IsLearnedOf given order book.now (links_seen files.old) }
    ensures answers { (given : List Timetable) (order : ℕ) → IsLearnedOf given order book.now (links_seen files.old) → IfOk result (λ text. AnswersAs given ask.now text.written) }
    ensures traced { (given : List Timetable) (order : ℕ) → IsLearnedOf given order book.now (links_seen files.old) → (links_seen files.old).made ≡ 0 → trace.old.lines ≡ []
        → IfOk result (λ text. IsTraceFor trace.old.on given order ask.now trace.new.lines) }
{
    let delivery = answer_ask(alloc, book, files, ask, trace)?;
    spell(alloc, delivery)
}

/// What the regions answer together; it is within the limits of a document.
fn answer_ask<F: Store + Drop>(
    alloc: Global,
    book: &Book,
    files: &mut FileLinks<F>,
    ask: &Ask,
    trace: &mut Trace,
) -> Result<Delivery, NoMemory>
    requires { (given : List Timetable) × (order : ℕ) × IsLearnedOf given order book.now (links_seen files.old) }
    ensures answers { (given : List Timetable) (order : ℕ) → IsLearnedOf given order book.now (links_seen files.old) → IfOk result (GatewayAnswers given ask.now) }
    ensures well { IfOk result (λ delivery. IsWellDelivery delivery) }
    ensures traced { (given : List Timetable) (order : ℕ) → IsLearnedOf given order book.now (links_seen files.old) → (links_seen files.old).made ≡ 0 → trace.old.lines ≡ []
        → IfOk result (λ delivery. IsTraceFor trace.old.on given order ask.now trace.new.lines) }
{
    files.is_sound();
    let answer = answer_paced(alloc, book, files, ask, trace);
    files.is_sound();
    match answer {
        Ok(answer) => Ok(answer.delivery),
        Err(NoMemory) => Err(NoMemory),
    }
}
