//! Codes that two timetables have.

ghost use Rattle.std.specs.Prelude.{◌≡◌, map, IfOk, IsPermutation};
ghost use Rattle.std.specs.List.Sorted.{IsSortedBy};
ghost use Rattle.ojp_values.specs.Texts.{text_lt};
ghost use Rattle.ojp_links.specs.Seen.{region_of_table};
ghost use Rattle.ojp_links_mem.specs.Files.{IsTwiceAnswer};

use ojp_exchange::first_twice;
use ojp_timetable::Timetable;
use ojp_values::{Code, NoMemory};
use std::alloc::Global;

/// The codes of the timetables, in their order.
fn codes_of(alloc: Global, tables: &[Timetable]) -> Result<Vec<Code>, NoMemory>
    ensures { IfOk result (λ codes. codes.items ≡ map region_of_table tables.now) }
{
    let mut codes = Vec::new(alloc);
    'tables: for table in tables {
        if codes.push(table.region()).is_err() {
            return Err(NoMemory);
        }
    }
    Ok(codes)
}

/// The codes of the timetables, sorted.
#[tactic(auto, unfolding(ojp_values::specs::Texts::text_lt))]
fn sorted_codes(alloc: Global, tables: &[Timetable]) -> Result<Vec<Code>, NoMemory>
    ensures same { IfOk result (λ codes. IsPermutation (map region_of_table tables.now) codes.items) }
    ensures sorted { IfOk result (λ codes. IsSortedBy text_lt codes.items) }
{
    let mut codes = codes_of(alloc, tables)?;
    codes.sort_unstable();
    Ok(codes)
}

/// The least code that two of the timetables have, if there is one.
pub(crate) fn twice_in(alloc: Global, tables: &[Timetable]) -> Result<Option<Code>, NoMemory>
    ensures { IfOk result (IsTwiceAnswer (map region_of_table tables.now)) }
{
    let codes = sorted_codes(alloc, tables)?;
    Ok(first_twice(codes.as_slice()))
}
