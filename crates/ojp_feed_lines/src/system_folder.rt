//! A folder of the system.

ghost use Rattle.std.specs.Prelude.{◌≡◌, None};

use crate::counted_file::CountedFile;
use crate::files::FeedFile;
use crate::folder::{Folder, MOST_BYTES, OpenRefused};
use std::alloc::{AllocError, Global};
use std::fs::OpenFile;
use std::io::{ErrorKind, Read, Take};
use std::rt::Files;
use std::{fs, io};

/// A folder of the system, by its path, with a count of faults. It tells no contents.
#[derive(Drop)]
pub struct SystemFolder<R: Files + Drop> {
    files: R,
    path: String,
    faults: u64,
}

impl<R: Files + Drop> SystemFolder<R> {
    pub fn new(files: R, path: String) -> SystemFolder<R>
        ensures { ⟦<SystemFolder<R> as Folder>⟧.seen result ≡ record { contents = None; faults = 0 } }
    {
        SystemFolder {
            files,
            path,
            faults: 0,
        }
    }
}

/// A reader whose reads fail once it gave more than `MOST_BYTES` bytes, as of a file that grew since it was opened.
#[derive(Drop)]
pub struct Bounded<R: Read + Drop> {
    reader: Take<R>,
}

impl<R: Read + Drop> Bounded<R> {
    fn new(reader: R) -> Bounded<R> {
        Bounded {
            reader: reader.take(MOST_BYTES + 1),
        }
    }
}

impl<R: Read + Drop> Read for Bounded<R> {
    fn read(&mut self, into: &mut [u8]) -> io::Result<usize> {
        if self.reader.limit() == 0 {
            return Err(io::Error::from(ErrorKind::Other));
        }
        self.reader.read(into)
    }
}

/// The path of a file in a folder.
fn path_in(alloc: Global, folder: &str, name: &str) -> Result<String, AllocError> {
    let mut path = String::from_str(alloc, folder)?;
    path.push_str("/")?;
    path.push_str(name)?;
    Ok(path)
}

/// Opens a file that is not too long.
fn open_in<R: Files>(
    files: &R,
    alloc: Global,
    folder: &str,
    name: &str,
) -> Result<R::File, OpenRefused> {
    let Ok(path) = path_in(alloc, folder, name) else {
        return Err(OpenRefused::NoMemory);
    };
    let file = match fs::open(files, path.as_str()) {
        Ok(file) => file,
        Err(error) => return Err(refusal(error.kind())),
    };
    match file.metadata() {
        Ok(metadata) if metadata.len() <= MOST_BYTES => Ok(file),
        Ok(_) => Err(OpenRefused::TooLong),
        Err(_) => Err(OpenRefused::Failed),
    }
}

fn refusal(cause: ErrorKind) -> OpenRefused {
    match cause {
        ErrorKind::NotFound => OpenRefused::Missing,
        ErrorKind::OutOfMemory => OpenRefused::NoMemory,
        _ => OpenRefused::Failed,
    }
}

impl<R: Files + Drop> Folder for SystemFolder<R> {
    type File = CountedFile<Bounded<R::File>>;

    ghost seen = { λ s. record { contents = None; faults = s.faults } };

    fn open(
        &mut self,
        alloc: Global,
        file: FeedFile,
    ) -> Result<CountedFile<Bounded<R::File>>, OpenRefused> {
        match open_in(&self.files, alloc, self.path.as_str(), file.name()) {
            Ok(file) => Ok(CountedFile::new(Bounded::new(file))),
            Err(OpenRefused::Failed) => {
                self.faults = self.faults.saturating_add(1);
                Err(OpenRefused::Failed)
            }
            Err(refused) => Err(refused),
        }
    }

    fn close(&mut self, file: CountedFile<Bounded<R::File>>) {
        self.faults = file.added_to(self.faults);
    }
}
