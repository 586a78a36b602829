//! The timetables of a network.

ghost use Rattle.std.specs.Prelude.{IfOk};
ghost use Rattle.ojp_values.specs.Lists.{Each, Pairwise};
ghost use Rattle.ojp_timetable.specs.TableText.{IsText};
ghost use Rattle.ojp_load.specs.Ready.{IsAccepted};

use ojp_timetable::{TableRefused, Timetable};
use ojp_values::{List, NoMemory};
use std::alloc::Global;

/// The timetables whose texts the files are.
pub(crate) fn tables_of(alloc: Global, files: &[List<u8>]) -> Result<Vec<Timetable>, NoMemory>
    requires { Each IsAccepted files.now }
    ensures { IfOk result (λ tables. Pairwise IsText files.now tables.items) }
{
    let mut tables = Vec::new(alloc);
    for file in files {
        let table = match Timetable::read(alloc, file.as_slice()) {
            Ok(table) => table,
            // No line of the file is refused.
            Err(TableRefused::At { .. }) => unreachable!(),
            Err(TableRefused::NoMemory) => return Err(NoMemory),
        };
        match tables.push(table) {
            Ok(()) => {}
            Err(_) => return Err(NoMemory),
        }
    }
    Ok(tables)
}
