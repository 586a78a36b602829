//! A folder of files.

ghost use Rattle.std.specs.Prelude.{◌≡◌, ◌≤◌, ◌<◌, ℕ, IfOk, Err, nat_lt};
ghost use Rattle.ojp_outside.specs.Causes.{Rose};
ghost use Rattle.ojp_feed_lines.specs.Folders.{FolderView, IsOpened, IsTooLong, Lacks};

use crate::files::FeedFile;
use std::alloc::Global;
use std::io::Read;

/// The most bytes of a file: 536,870,912.
pub const MOST_BYTES: u64 = 536_870_912;

/// Why a file was not opened.
#[derive(Clone, Copy, Debug, PartialEq, Eq)]
pub enum OpenRefused {
    /// There is no such file.
    Missing,
    /// The file has more than `MOST_BYTES` bytes.
    TooLong,
    /// The call failed; the count of faults rose.
    Failed,
    /// Memory ran out.
    NoMemory,
}

/// A file that was opened, with a count of its reads that failed for another reason than want of memory.
pub trait OpenedFile: Read + Drop {
    /// How many reads failed.
    ghost faults: { Self → ℕ };

    /// Whether a read failed.
    fn has_failed(&self) -> bool
        ensures { result ≡ nat_lt 0 (faults self.now) };
}

/// A folder that opens its files for reading, with a count of faults that never falls. One that is taken back adds its own.
pub trait Folder {
    type File: OpenedFile;

    /// The contents of each file, where they are told, and the count of faults.
    ghost seen: { Self → FolderView };

    /// Opens the file.
    fn open(&mut self, alloc: Global, file: FeedFile) -> Result<Self::File, OpenRefused>
        ensures kept { (seen self.new).contents ≡ (seen self.old).contents }
        ensures opened { IfOk result (λ opened. IsOpened (seen self.old).contents file (Self.File.remaining opened)) }
        ensures sound { IfOk result (λ opened. Self.File.faults opened ≡ 0) }
        ensures missing { result ≡ Err OpenRefused.Missing → Lacks (seen self.old).contents file }
        ensures too_long { result ≡ Err OpenRefused.TooLong → IsTooLong (seen self.old).contents file }
        ensures later { (seen self.old).faults ≤ (seen self.new).faults }
        ensures failed { result ≡ Err OpenRefused.Failed → Rose (seen self.old).faults (seen self.new).faults };

    /// Takes a file back.
    fn close(&mut self, file: Self::File)
        ensures kept { (seen self.new).contents ≡ (seen self.old).contents }
        ensures later { (seen self.old).faults ≤ (seen self.new).faults }
        ensures rose { 0 < Self.File.faults file → Rose (seen self.old).faults (seen self.new).faults };
}
