//! The command `region`: one timetable, served at a port.

ghost use Rattle.std.specs.Prelude.{◌≡◌, false, Ok, Err};
ghost use Rattle.ojp_steps.specs.Lent.{lent};
ghost use Rattle.ojp_steps.specs.Endings.{HasEnding};
ghost use Rattle.ojp_steps.specs.Serving.{seen_as};
ghost use Rattle.ojp_online.specs.Regions.{RegionServed, RegionFails};

use ojp_outside::{Doors, Sink, Store};
use ojp_region::read_table;
use ojp_steps::failures::Failure;
use ojp_steps::files::failure_of;
use ojp_steps::serving::{Listening, NotServed, serve_at};
use std::alloc::Global;
use std::sync::Wait;

/// Reads the timetable file, and serves it where the words say.
pub(crate) fn region<'a, R: Wait, O: Sink, F: Store, D: Doors>(
    rt: &R,
    alloc: Global,
    file: &'a str,
    listening: Listening,
    output: &mut O,
    store: &mut F,
    doors: &mut D,
) -> Result<(), Failure<'a>>
    requires none_out { (D.seen doors.old).is_out ≡ false }
    ensures { let lent_store = lent F.seen store.old store.new in
        let lent_output = lent O.seen output.old output.new in
        let lent_doors = lent (λ d. seen_as (D.seen d) (D.faults d)) doors.old doors.new in
        HasEnding (RegionServed file.now listening.port listening.count lent_store lent_output lent_doors)
        (RegionFails file.now listening.port listening.count lent_store lent_output lent_doors) result }
{
    let table = match read_table(alloc, file, store) {
        Ok(table) => table,
        Err(refused) => return Err(failure_of(file, refused)),
    };
    let served = serve_at(rt, alloc, &table, listening, output, doors);
    drop(table);
    match served {
        Ok(()) => Ok(()),
        Err(NotServed::Memory) => Err(Failure::Memory),
        Err(NotServed::Output) => Err(Failure::Output),
        Err(NotServed::Doors) => Err(Failure::Doors),
    }
}
