//! A store in memory.
ghost use Rattle.std.specs.Prelude.{◌≡◌, ◌≤◌, ◌<◌, ℕ, List, IfOk, IfSome, IsSomeAnd, IsErr, IsTrue, IsOk, length, vec_len, Some, None, Ok, Err, option_copied, ◌≢◌, ◌⊎◌, find, string_bytes};
ghost use Rattle.std.specs.Str.{bytes_eq};
ghost use Rattle.std.specs.Option.{option_map};
ghost use Rattle.ojp_outside.specs.Memory.{named_contents};
ghost use Rattle.ojp_outside.specs.Causes.{Rose, next_count};
ghost use Rattle.ojp_outside.specs.Planned.{is_planned};
ghost use Rattle.ojp_outside.specs.MemorySeen.{store_of};
ghost use Rattle.ojp_outside.specs.Files.{failed_name_after, faults_after_read, IsContents, first_named};

use crate::plan::Plan;
use crate::{FILE_LIMIT, Store, StoreRefused};
use std::alloc::Global;
use std::marker::Model;

/// Files in memory. Of several files of one name the first holds.
#[derive(Drop)]
pub struct MemStore {
    files: Vec<(String, Vec<u8>)>,
    failed_name: Option<String>,
    plan: Plan,
}

impl Model for MemStore {
    ghost use Rattle.std.specs.Option.{option_map};
    ghost use Rattle.std.specs.Prelude.{string_bytes};
    ghost use Rattle.ojp_outside.specs.Memory.{MemStoreView, named_contents};

    ghost Value = { MemStoreView };

    ghost view = { λ s. record { files = named_contents s.files.items; failed_name = option_map string_bytes s.failed_name; fails_at = s.plan.fails_at.items; calls = s.plan.calls; faults = s.plan.faults } };
}

impl MemStore {
    /// A store of these files. Its reads of the numbers in `faults`, counted from 1, fail.
    pub fn new(files: Vec<(String, Vec<u8>)>, faults: Vec<u64>) -> MemStore
        ensures { result ≡ record { files = named_contents files.items; failed_name = None; fails_at = faults.items; calls = 0; faults = 0 } }
    {
        MemStore {
            files,
            failed_name: None,
            plan: Plan::new(faults),
        }
    }

    /// Fails, keeps the name and counts the fault.
    fn fail(&mut self, alloc: Global, name: &str) -> Result<Vec<u8>, StoreRefused>
        ensures failed { (result ≡ Err StoreRefused.Failed) ⊎ (result ≡ Err StoreRefused.NoMemory) }
        ensures failed_name { Some self.new.failed_name ≡ failed_name_after (Some self.old.failed_name) result name.now }
        ensures later { self.old.faults ≤ self.new.faults }
        ensures faults { self.new.faults ≡ faults_after_read result self.old.faults }
        ensures kept { self.new ≡ record self.old { failed_name = self.new.failed_name; faults = self.new.faults } }
    {
        match String::from_str(alloc, name) {
            Ok(name) => {
                self.failed_name = Some(name);
                self.plan.count_fault();
                Err(StoreRefused::Failed)
            }
            Err(_) => Err(StoreRefused::NoMemory),
        }
    }
}

/// The contents of the first file of this name.
fn find_named<'a>(files: &'a [(String, Vec<u8>)], name: &str) -> Option<&'a [u8]>
    ensures { option_copied result ≡ option_map (λ f. f.1.items) (find (λ f. bytes_eq (string_bytes f.0) name.now) files.now) }
{
    files
        .iter()
        .find(|file| file.0.as_str() == name)
        .map(|file| file.1.as_slice())
}

impl Store for MemStore {
    ghost seen = { store_of };

    #[tactic(auto, using(crate::proofs::Named::first_named_is))]
    fn read_file(&mut self, alloc: Global, name: &str) -> Result<Vec<u8>, StoreRefused>
        ensures ok { IfOk result (λ bytes. first_named self.old.files name.now ≡ Some bytes.items) }
        ensures limit { IfOk result (λ bytes. vec_len bytes ≤ FILE_LIMIT) }
        ensures missing { first_named self.old.files name.now ≡ None → (result ≡ Err StoreRefused.Failed) ⊎ (result ≡ Err StoreRefused.NoMemory) }
        ensures too_long { result ≡ Err StoreRefused.TooLong → IsSomeAnd (first_named self.old.files name.now) (λ bytes. FILE_LIMIT < length bytes) }
        ensures kept { Some (first_named self.new.files) ≡ Some (first_named self.old.files) }
        ensures failed_name { Some self.new.failed_name ≡ failed_name_after (Some self.old.failed_name) result name.now }
        ensures later { self.old.faults ≤ self.new.faults }
        ensures failed { result ≡ Err StoreRefused.Failed → Rose self.old.faults self.new.faults }
        ensures planned { IsTrue (is_planned self.new.calls self.old.fails_at) → (result ≡ Err StoreRefused.Failed) ⊎ (result ≡ Err StoreRefused.NoMemory) }
        ensures failed_only { result ≡ Err StoreRefused.Failed → IsTrue (is_planned self.new.calls self.old.fails_at) ⊎ (first_named self.old.files name.now ≡ None) }
        ensures at_rest { result ≢ Err StoreRefused.Failed → self.new.faults ≡ self.old.faults }
        ensures faults { self.new.faults ≡ faults_after_read result self.old.faults }
        ensures calls { self.new.calls ≡ next_count self.old.calls }
        ensures fails_at { self.new.fails_at ≡ self.old.fails_at }
        ensures files { self.new.files ≡ self.old.files }
    {
        if self.plan.is_planned_now() {
            return self.fail(alloc, name);
        }
        match find_named(&self.files, name) {
            Some(bytes) => whole(alloc, bytes),
            None => self.fail(alloc, name),
        }
    }
}

/// A copy of the bytes, where they are within the limit.
fn whole(alloc: Global, bytes: &[u8]) -> Result<Vec<u8>, StoreRefused>
    ensures ok { IfOk result (λ copy. copy.items ≡ bytes.now) }
    ensures limit { IfOk result (λ copy. vec_len copy ≤ FILE_LIMIT) }
    ensures too_long { result ≡ Err StoreRefused.TooLong → FILE_LIMIT < length bytes.now }
    ensures not_failed { result ≢ Err StoreRefused.Failed }
{
    if bytes.len() > FILE_LIMIT {
        return Err(StoreRefused::TooLong);
    }
    match Vec::from_slice(alloc, bytes) {
        Ok(copy) => Ok(copy),
        Err(_) => Err(StoreRefused::NoMemory),
    }
}
