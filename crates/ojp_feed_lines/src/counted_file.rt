//! A reader that counts its faults.

ghost use Rattle.std.specs.Prelude.{◌≡◌};
ghost use Rattle.ojp_feed_lines.specs.Folders.{added};

use crate::folder::OpenedFile;
use std::io;
use std::io::{ErrorKind, Read};

/// A reader with a count of its reads that failed for another reason than want of memory.
#[derive(Drop)]
pub struct CountedFile<R: Read + Drop> {
    reader: R,
    faults: u64,
}

impl<R: Read + Drop> CountedFile<R> {
    /// The reader, none of whose reads failed.
    pub(crate) fn new(reader: R) -> CountedFile<R>
        ensures reader { result.reader ≡ reader }
        ensures faults { result.faults ≡ 0 }
    {
        CountedFile { reader, faults: 0 }
    }

    /// The count with the faults of the file.
    pub(crate) fn added_to(&self, count: u64) -> u64
        ensures { result ≡ added count self.now.faults }
    {
        count.saturating_add(self.faults)
    }
}

impl<R: Read + Drop> Read for CountedFile<R> {
    ghost remaining = { λ s. R.remaining s.reader };

    fn read(&mut self, into: &mut [u8]) -> io::Result<usize> {
        match self.reader.read(into) {
            Ok(count) => Ok(count),
            Err(error) => {
                if error.kind() != ErrorKind::OutOfMemory {
                    self.faults = self.faults.saturating_add(1);
                }
                Err(error)
            }
        }
    }
}

impl<R: Read + Drop> OpenedFile for CountedFile<R> {
    ghost faults = { λ s. s.faults };

    fn has_failed(&self) -> bool {
        self.faults > 0
    }
}
