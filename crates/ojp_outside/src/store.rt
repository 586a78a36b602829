//! A store of files by name.
ghost use Rattle.std.specs.Prelude.{◌≡◌, ◌≢◌, ◌≤◌, ◌<◌, IfOk, IfSome, IsSomeAnd, ◌⊎◌, length, vec_len, None, Err};
ghost use Rattle.ojp_outside.specs.Causes.{Rose};
ghost use Rattle.ojp_outside.specs.Files.{failed_name_after, IsContents};
ghost use Rattle.ojp_outside.specs.Seen.{StoreView};

use std::alloc::Global;

/// The most bytes of a file that is read: 16 MiB.
pub const FILE_LIMIT: usize = 16_777_216;

/// Why a file was not read.
#[derive(Clone, Copy, Debug, PartialEq, Eq)]
pub enum StoreRefused {
    /// A read failed, or there is no such file.
    Failed,
    /// The file has more than `FILE_LIMIT` bytes.
    TooLong,
    /// Memory ran out.
    NoMemory,
}

/// Files by name, with a count of faults that never falls.
pub trait Store {
    /// The contents by name and the name given to the last read that failed, where they are told, and
    /// how often a read failed.
    ghost seen: { Self → StoreView };

    /// Reads a file whole, at most `FILE_LIMIT` bytes.
    fn read_file(&mut self, alloc: Global, name: &str) -> Result<Vec<u8>, StoreRefused>
        ensures ok { IfOk result (λ bytes. IsContents (seen self.old).contents name.now bytes.items) }
        ensures limit { IfOk result (λ bytes. vec_len bytes ≤ FILE_LIMIT) }
        ensures missing { IfSome (seen self.old).contents (λ files. files name.now ≡ None → (result ≡ Err StoreRefused.Failed) ⊎ (result ≡ Err StoreRefused.NoMemory)) }
        ensures too_long { result ≡ Err StoreRefused.TooLong
            → IfSome (seen self.old).contents (λ files. IsSomeAnd (files name.now) (λ bytes. FILE_LIMIT < length bytes)) }
        ensures kept { (seen self.new).contents ≡ (seen self.old).contents }
        ensures failed_name { (seen self.new).failed_name ≡ failed_name_after (seen self.old).failed_name result name.now }
        ensures later { (seen self.old).faults ≤ (seen self.new).faults }
        ensures at_rest { result ≢ Err StoreRefused.Failed → (seen self.new).faults ≡ (seen self.old).faults }
        ensures failed { result ≡ Err StoreRefused.Failed → Rose (seen self.old).faults (seen self.new).faults };
}
