//! Files of regions, read from a store.

ghost use Rattle.ojp_steps.specs.Lent.{lent};
ghost use Rattle.ojp_online.specs.RegionFiles.{ReadsRegions};

use ojp_outside::{Store, StoreRefused};
use ojp_region::FileRefused;
use ojp_regions::{RegionLine, RegionsRefused, read_regions};
use ojp_values::List;
use std::alloc::Global;

/// Reads the file, which is to be a file of regions.
pub(crate) fn read_region_file<F: Store>(
    alloc: Global,
    file: &str,
    store: &mut F,
) -> Result<List<RegionLine>, FileRefused>
    ensures { ReadsRegions file.now (lent F.seen store.old store.new) result }
{
    let bytes = match store.read_file(alloc, file) {
        Ok(bytes) => bytes,
        Err(StoreRefused::Failed) => return Err(FileRefused::Failed),
        Err(StoreRefused::TooLong) => return Err(FileRefused::TooLong),
        Err(StoreRefused::NoMemory) => return Err(FileRefused::NoMemory),
    };
    match read_regions(alloc, &bytes) {
        Ok(regions) => Ok(regions),
        Err(RegionsRefused::At { line, reason }) => Err(FileRefused::At { line, reason }),
        Err(RegionsRefused::NoMemory) => Err(FileRefused::NoMemory),
    }
}
