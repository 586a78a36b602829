//! Timetable files, read from a store.

ghost use Rattle.ojp_region.specs.Files.{ReadsFile};

use ojp_outside::{Store, StoreRefused};
use ojp_timetable::{TableReason, TableRefused, Timetable};
use std::alloc::Global;

/// Why a file gives no timetable.
#[derive(Clone, Copy, Debug, PartialEq, Eq)]
pub enum FileRefused {
    /// The file could not be read; the store's count of faults rose.
    Failed,
    /// The file has more bytes than a file may have.
    TooLong,
    /// The file is no timetable: its first line that fails a check, and the check.
    At { line: u64, reason: TableReason },
    /// Memory ran out.
    NoMemory,
}

/// Reads the file of the store, which is to be a timetable.
///
/// # Errors
///
/// `Failed` where the store could not read it, `TooLong` where it has more bytes than a file may have, `At` where it is
/// no timetable, `NoMemory` where memory ran out.
pub fn read_table<F: Store>(
    alloc: Global,
    file: &str,
    store: &mut F,
) -> Result<Timetable, FileRefused>
    ensures { ReadsFile file.now (F.seen store.old) (F.seen store.new) result }
{
    let bytes = match store.read_file(alloc, file) {
        Ok(bytes) => bytes,
        Err(StoreRefused::Failed) => return Err(FileRefused::Failed),
        Err(StoreRefused::TooLong) => return Err(FileRefused::TooLong),
        Err(StoreRefused::NoMemory) => return Err(FileRefused::NoMemory),
    };
    match Timetable::read(alloc, &bytes) {
        Ok(table) => Ok(table),
        Err(TableRefused::At { line, reason }) => Err(FileRefused::At { line, reason }),
        Err(TableRefused::NoMemory) => Err(FileRefused::NoMemory),
    }
}
