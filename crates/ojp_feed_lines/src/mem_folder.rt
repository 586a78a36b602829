//! A folder in memory.

ghost use Rattle.std.specs.Prelude.{◌≡◌, ◌≢◌, ◌<◌, ◌≤◌, Err, IfErr, IfOk, Some, find, length, option_copied, string_bytes};
ghost use Rattle.std.specs.Io.Cursor.{cursor_remaining};
ghost use Rattle.std.specs.Str.{bytes_eq};
ghost use Rattle.ojp_feed_lines.specs.MemFolders.{files_of};

use crate::files::FeedFile;
use crate::folder::{Folder, MOST_BYTES, OpenRefused, OpenedFile};
use std::alloc::Global;
use std::io;
use std::io::{Cursor, ErrorKind, Read};

/// A file in memory.
#[derive(Drop)]
pub struct MemFile {
    pub name: String,
    pub bytes: Vec<u8>,
    /// A read behind the last byte fails in place of ending the file.
    pub breaks: bool,
}

/// Files in memory, with a count of faults; of several of one name the first is opened.
#[derive(Drop)]
pub struct MemFolder {
    files: Vec<MemFile>,
    faults: u64,
}

impl MemFolder {
    pub fn new(files: Vec<MemFile>) -> MemFolder
        ensures { ⟦<MemFolder as Folder>⟧.seen result ≡ record { contents = Some (files_of files.items); faults = 0 } }
    {
        MemFolder { files, faults: 0 }
    }
}

/// A reader of a file in memory, with a count of its reads that failed.
#[derive(Drop)]
pub struct MemReader {
    bytes: Cursor<Vec<u8>>,
    breaks: bool,
    faults: u64,
}

impl Read for MemReader {
    ghost remaining = { λ s. cursor_remaining (λ v. Some v.items) s.bytes };

    fn read(&mut self, into: &mut [u8]) -> io::Result<usize> {
        match self.bytes.read(into) {
            Ok(0) if self.breaks => {
                self.faults = self.faults.saturating_add(1);
                Err(io::Error::from(ErrorKind::Other))
            }
            count => count,
        }
    }
}

impl OpenedFile for MemReader {
    ghost faults = { λ s. s.faults };

    fn has_failed(&self) -> bool {
        self.faults > 0
    }
}

/// A reader of a copy of the bytes.
fn reader_of(alloc: Global, file: &MemFile) -> Result<MemReader, OpenRefused>
    ensures opened { IfOk result (λ reader. cursor_remaining (λ v. Some v.items) reader.bytes ≡ Some file.now.bytes.items) }
    ensures sound { IfOk result (λ reader. reader.faults ≡ 0) }
    ensures found { IfErr result (λ e. e ≢ OpenRefused.Missing) }
    ensures too_long { IfErr result (λ e. e ≡ OpenRefused.TooLong → MOST_BYTES < length file.now.bytes.items) }
    ensures not_failed { IfErr result (λ e. e ≢ OpenRefused.Failed) }
{
    if file.bytes.len() as u64 > MOST_BYTES {
        return Err(OpenRefused::TooLong);
    }
    match Vec::from_slice(alloc, file.bytes.as_slice()) {
        Ok(bytes) => Ok(MemReader {
            bytes: Cursor::new(bytes),
            breaks: file.breaks,
            faults: 0,
        }),
        Err(_) => Err(OpenRefused::NoMemory),
    }
}

/// The first file of this name.
fn find_named<'a>(files: &'a [MemFile], name: &str) -> Option<&'a MemFile>
    ensures { option_copied result ≡ find (λ f. bytes_eq (string_bytes f.name) name.now) files.now }
{
    files.iter().find(|file| file.name.as_str() == name)
}

impl Folder for MemFolder {
    type File = MemReader;

    ghost seen = { λ s. record { contents = Some (files_of s.files.items); faults = s.faults } };

    fn open(&mut self, alloc: Global, file: FeedFile) -> Result<MemReader, OpenRefused> {
        match find_named(&self.files, file.name()) {
            Some(file) => reader_of(alloc, file),
            None => Err(OpenRefused::Missing),
        }
    }

    fn close(&mut self, file: MemReader) {
        self.faults = self.faults.saturating_add(file.faults);
    }
}
