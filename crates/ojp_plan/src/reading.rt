//! The files are read, in their order.

ghost use Rattle.std.specs.Prelude.{map, string_bytes};
ghost use Rattle.ojp_links_mem.specs.Files.{HasReadNone, files_seen};
ghost use Rattle.ojp_steps.specs.Lent.{lent};
ghost use Rattle.ojp_plan.specs.Files.{ReadsFiles};

use ojp_links_mem::FileLinks;
use ojp_outside::Store;
use ojp_steps::failures::Failure;
use ojp_steps::files::failure_of;

/// Reads the files, which are to be timetables, up to the first that is none.
pub(crate) fn read_files<'a, F: Store + Drop>(
    names: &'a [String],
    files: &mut FileLinks<F>,
) -> Result<(), Failure<'a>>
    requires fresh { HasReadNone (files_seen F.seen files.old) }
    ensures { ReadsFiles (map (λ name. string_bytes name) names.now) (lent (files_seen F.seen) files.old files.new) result }
{
    'reading: for name in names {
        match files.read(name.as_str()) {
            Ok(_) => {}
            Err(refused) => return Err(failure_of(name.as_str(), refused)),
        }
    }
    Ok(())
}
