//! Timetables by the codes of their regions.

ghost use Rattle.std.specs.Prelude.{◌≡◌, map, length, IsPermutation};
ghost use Rattle.std.specs.Ordering.{is_lt};
ghost use Rattle.ojp_values.specs.Texts.{text_lt};
ghost use Rattle.ojp_links.specs.Seen.{AreDistinct, region_of_table};
ghost use Rattle.ojp_links_mem.specs.Memory.{AreRising};

use ojp_timetable::Timetable;
use std::cmp::Ordering;

/// Puts the timetables into rising order of their codes.
pub(crate) fn sort_tables(tables: &mut Vec<Timetable>)
    requires { AreDistinct (map region_of_table tables.old.items) }
    ensures rising { AreRising tables.old.items tables.new.items }
    ensures distinct { AreDistinct (map region_of_table tables.new.items) }
{
    tables.sort_unstable_by(|table, other| order_of(table, other));
}

/// Where the code of the timetable's region stands to the other's.
#[tactic(auto, unfolding(ojp_values::specs::Texts::text_lt))]
fn order_of(table: &Timetable, other: &Timetable) -> Ordering
    ensures { is_lt result ≡ text_lt table.now.region other.now.region }
{
    table.region().cmp(&other.region())
}
