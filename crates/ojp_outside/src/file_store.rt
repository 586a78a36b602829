//! A store over the files of the system.
ghost use Rattle.std.specs.Prelude.{◌≡◌, ◌≢◌, ◌≤◌, ◌<◌, ◌+◌, ℕ, List, IfOk, IfErr, OnErr, OnOk, vec_len, None, Ok, Err, vec_items, Option};
ghost use Rattle.ojp_outside.specs.Causes.{Rose};

use crate::reading::read_all;
use crate::{FILE_LIMIT, SourceRefused, StdSource, Store, StoreRefused};
use std::alloc::Global;
use std::fs;
use std::rt::Files;

/// The files of the system, with a count of the reads that failed; a missing file is one. It tells
/// no contents.
#[derive(Drop)]
pub struct FileStore<R: Files + Drop> {
    files: R,
    faults: u64,
}

impl<R: Files + Drop> FileStore<R> {
    pub fn new(files: R) -> FileStore<R>
        ensures { ⟦<FileStore<R> as Store>⟧.seen result ≡ record { contents = None; failed_name = None; faults = 0 } }
    {
        FileStore { files, faults: 0 }
    }
}

/// Reads a file whole, within the limit.
fn read_whole<R: Files>(files: &R, alloc: Global, name: &str) -> Result<Vec<u8>, StoreRefused>
    ensures limit { IfOk result (λ bytes. vec_len bytes ≤ FILE_LIMIT) }
{
    let Ok(file) = fs::open(files, name) else {
        return Err(StoreRefused::Failed);
    };
    match read_all(alloc, &mut StdSource::new(file), FILE_LIMIT + 1) {
        Ok(bytes) if bytes.len() <= FILE_LIMIT => Ok(bytes),
        Ok(_) => Err(StoreRefused::TooLong),
        Err(SourceRefused::Failed) => Err(StoreRefused::Failed),
        Err(SourceRefused::NoMemory) => Err(StoreRefused::NoMemory),
    }
}

impl<R: Files + Drop> Store for FileStore<R> {
    ghost seen = { λ s. record { contents = None; failed_name = None; faults = s.faults } };

    fn read_file(&mut self, alloc: Global, name: &str) -> Result<Vec<u8>, StoreRefused> {
        match read_whole(&self.files, alloc, name) {
            Ok(bytes) => Ok(bytes),
            Err(StoreRefused::Failed) => {
                self.faults = self.faults.saturating_add(1);
                Err(StoreRefused::Failed)
            }
            Err(refused) => Err(refused),
        }
    }
}
