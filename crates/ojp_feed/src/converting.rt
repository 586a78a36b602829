//! A feed converted.

ghost use Rattle.std.specs.Prelude.{◌≡◌, IfErr, IfOk};
ghost use Rattle.ojp_timetable.specs.TableText.{IsText};
ghost use Rattle.ojp_feed_plans.specs.Plans.{AddsUp, IsComplete, IsSound};
ghost use Rattle.ojp_feed.specs.Converting.{IsCause, planned_refusal, refusal_of};
ghost use Rattle.ojp_feed.specs.Texts.{text_of};

use crate::texts::text_of;
use ojp_feed_plans::{Plan, PlanRefused, plan};
use ojp_feed_rows::{Feed, Settings};
use ojp_timetable::{TableReason, TableRefused, Timetable};
use std::alloc::Global;

/// A feed converted: the text of its timetable, the plan of it with what the report tells, and the timetable that the text is of.
#[derive(Drop)]
pub struct Converted {
    pub text: Vec<u8>,
    pub plan: Plan,
    pub table: Timetable,
}

/// Why a feed is not converted: two stops, or two trips, of one label, by their numbers in the feed, or two trips with journeys
/// of one label, one trip twice where both are its own; more journeys or calls than a timetable may have; a line of the text that
/// a timetable refuses, with the reason, as a limit that is passed; or there is no memory.
#[derive(Clone, Copy, Debug, PartialEq, Eq)]
pub enum ConvertRefused {
    DoubledStops { first: usize, second: usize },
    DoubledTrips { first: usize, second: usize },
    TooManyJourneys,
    TooManyCalls,
    Line { line: u64, reason: TableReason },
    NoMemory,
}

/// Converts the feed: its text is accepted as that of the timetable, and spells a plan in which each trip is written or left out
/// for one reason, each journey is one of its trip's, and each departure of a trip that is written has journeys on all its days.
pub fn convert(alloc: Global, feed: &Feed, settings: &Settings) -> Result<Converted, ConvertRefused>
    ensures accepted { IfOk result (λ converted. IsText converted.text.items converted.table) }
    ensures spelled { IfOk result (λ converted. converted.text.items ≡ text_of settings.now converted.plan) }
    ensures adds_up { IfOk result (λ converted. AddsUp feed.now converted.plan) }
    ensures sound { IfOk result (λ converted. IsSound feed.now converted.plan) }
    ensures complete { IfOk result (λ converted. IsComplete feed.now converted.plan) }
    ensures refused { IfErr result (IsCause feed.now settings.now) }
{
    let plan = match plan(alloc, feed, settings) {
        Ok(plan) => plan,
        Err(refused) => return Err(refused_by_plan(refused)),
    };
    let Ok(text) = text_of(alloc, settings, &plan) else {
        return Err(ConvertRefused::NoMemory);
    };
    match Timetable::read(alloc, text.as_slice()) {
        Ok(table) => Ok(Converted { text, plan, table }),
        Err(refused) => Err(refused_by_reading(refused)),
    }
}

// The refusal of a plan.
fn refused_by_plan(refused: PlanRefused) -> ConvertRefused
    ensures { result ≡ planned_refusal refused }
{
    match refused {
        PlanRefused::DoubledStops { first, second } => {
            ConvertRefused::DoubledStops { first, second }
        }
        PlanRefused::DoubledTrips { first, second } => {
            ConvertRefused::DoubledTrips { first, second }
        }
        PlanRefused::TooManyJourneys => ConvertRefused::TooManyJourneys,
        PlanRefused::TooManyCalls => ConvertRefused::TooManyCalls,
        PlanRefused::NoMemory => ConvertRefused::NoMemory,
    }
}

// The refusal of a text.
fn refused_by_reading(refused: TableRefused) -> ConvertRefused
    ensures { result ≡ refusal_of refused }
{
    match refused {
        TableRefused::At { line, reason } => ConvertRefused::Line { line, reason },
        TableRefused::NoMemory => ConvertRefused::NoMemory,
    }
}
