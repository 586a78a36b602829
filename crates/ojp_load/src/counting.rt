//! The asks of a network are counted by what the gateway answers.

ghost use Rattle.std.specs.Prelude.{◌≡◌, ◌≤◌, ◌+◌, ◌∷◌, [], IfOk, IfSome, List, length};
ghost use Rattle.ojp_values.specs.Lists.{Each};
ghost use Rattle.ojp_timetable.specs.Tables.{Timetable};
ghost use Rattle.ojp_links_mem.specs.Memory.{links_of};
ghost use Rattle.ojp_load.specs.Asking.{Counts};
ghost use Rattle.ojp_load.specs.Loads.{seconds_of, trips_of};
ghost use Rattle.ojp_load.specs.Ready.{IsGoodAsk, IsReady};

use crate::asking::ask_one;
use ojp_exchange::Book;
use ojp_links_mem::MemLinks;
use ojp_network::shapes::LoadAsk;
use ojp_values::NoMemory;
use std::alloc::Global;

/// How many asks have a trip, and how many seconds after their starts these arrive, all together.
#[derive(Clone, Copy, Debug, PartialEq, Eq)]
pub(crate) struct Summary {
    pub(crate) trips: u64,
    pub(crate) seconds: u64,
}

/// Puts the asks through the gateway, one after another.
pub(crate) fn count(
    alloc: Global,
    book: &Book,
    links: &mut MemLinks,
    asks: &[LoadAsk],
) -> Result<Summary, NoMemory>
    requires ready { (tables : List Timetable) × IsReady tables book.now (links_of links.old) × Each (IsGoodAsk tables) asks.now }
    requires few { length asks.now ≤ 200 }
    ensures { (tables : List Timetable) → IsReady tables book.now (links_of links.old) → Each (IsGoodAsk tables) asks.now
        → IfOk result (λ summary. Counts tables asks.now summary.trips summary.seconds) }
{
    let mut summary = Summary {
        trips: 0,
        seconds: 0,
    };
    for load in asks {
        let told = ask_one(alloc, book, links, load)?;
        summary = counted(summary, told);
    }
    Ok(summary)
}

// The counts with one more ask.
fn counted(summary: Summary, told: Option<u64>) -> Summary
    requires trips { summary.trips ≤ 200 }
    requires seconds { summary.seconds ≤ 17_280_000 }
    requires in_day { IfSome told (λ seconds. seconds ≤ 86400) }
    ensures trips { result.trips ≡ summary.trips + trips_of (told ∷ []) }
    ensures seconds { result.seconds ≡ summary.seconds + seconds_of (told ∷ []) }
{
    match told {
        None => summary,
        Some(seconds) => Summary {
            trips: summary.trips + 1,
            seconds: summary.seconds + seconds,
        },
    }
}
