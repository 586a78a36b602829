//! Ids by number.

ghost use Rattle.std.specs.Prelude.{◌≡◌, ◌≤◌, ◌↔◌, ◌∷◌, ◌++◌, [], Contains, IfErr, IfOk, IsTrue, List, MatchOption, Ok, OnOk, length, false, string_bytes, true};
ghost use Rattle.csv.specs.Records.{field_at, fields_of};
ghost use Rattle.ojp_feed_lines.specs.Causes.{IsIdRefusal};
ghost use Rattle.ojp_feed_lines.specs.IdTexts.{HoldsIds, id_texts};
ghost use Rattle.ojp_feed_lines.specs.Lines.{IsIdOf};
ghost use Rattle.ojp_feed_lines.specs.OperatorCauses.{IsUnknown};
ghost use Rattle.ojp_feed_lines.specs.Refusals.{IsRowRefusal};
ghost use Rattle.ojp_feed_lines.specs.Rows.{Record, or_nothing};

use crate::columns::Column;
use crate::folder::OpenedFile;
use crate::refusals::{FeedRefused, RowReason};
use crate::table::Table;
use indexmap::IndexSet;
use std::alloc::Global;

/// The most ids of a file.
const MOST_IDS: usize = 100_000_000;

/// The ids of a file, numbered from 0 in their order.
#[derive(Drop)]
pub(crate) struct Ids {
    ids: IndexSet<String>,
}

impl Ids {
    pub fn new(alloc: Global) -> Ids
        ensures { id_texts result ≡ [] }
    {
        Ids {
            ids: IndexSet::new(alloc),
        }
    }

    /// The number of the id.
    pub fn number(&self, id: &str) -> Option<u32>
        ensures { MatchOption result (IsUnknown (id_texts self.now) id.now) (λ number. IsIdOf (id_texts self.now) number id.now) }
    {
        match self.ids.get_index_of(id) {
            Some(number) if number <= u32::MAX as usize => Some(number as u32),
            Some(_) => None,
            None => None,
        }
    }

    /// Whether the id is there.
    pub fn contains(&self, id: &str) -> bool
        ensures { result ≡ false → ¬ Contains (id_texts self.now) id.now }
    {
        self.ids.contains(id)
    }

    /// Adds an id, and tells whether it was new.
    pub fn add(&mut self, alloc: Global, id: &str) -> Result<bool, FeedRefused>
        ensures memory { IfErr result (λ e. e ≡ FeedRefused.NoMemory) }
        ensures added { result ≡ Ok true → id_texts self.new ≡ id_texts self.old ++ id.now ∷ [] }
        ensures there { result ≡ Ok false → Contains (id_texts self.old) id.now }
    {
        let text = owned(alloc, id)?;
        match self.ids.insert(text) {
            Ok(added) => Ok(added),
            Err(_) => Err(FeedRefused::NoMemory),
        }
    }

    /// Whether as many ids are there as a file may have.
    pub fn is_full(&self) -> bool
        ensures { IsTrue result → MOST_IDS ≤ length (id_texts self.now) }
    {
        self.ids.len() >= MOST_IDS
    }

    /// Adds the id of a row, which must be new.
    pub fn add_row<F: OpenedFile>(
        &mut self,
        alloc: Global,
        table: &Table<F>,
        place: usize,
        column: Column,
    ) -> Result<(), FeedRefused>
        ensures refused { IfErr result (λ e. IsRowRefusal table.now.file e) }
        ensures added { OnOk result (id_texts self.new ≡ id_texts self.old ++ or_nothing (field_at (fields_of table.now.row) place) ∷ []) }
        ensures taken { OnOk result ((rows : List Record) → HoldsIds self.old place rows → HoldsIds self.new place (rows ++ fields_of table.now.row ∷ [])) }
        ensures why { IfErr result (IsIdRefusal (id_texts self.old) (or_nothing (field_at (fields_of table.now.row) place)) column) }
    {
        if self.is_full() {
            return Err(table.refused(RowReason::Limit));
        }
        let id = table.field(place);
        if id.is_empty() {
            return Err(table.refused(RowReason::Value(column)));
        }
        if self.add(alloc, id)? {
            Ok(())
        } else {
            Err(table.refused(RowReason::Doubled(column)))
        }
    }
}

/// A text of its own.
pub(crate) fn owned(alloc: Global, text: &str) -> Result<String, FeedRefused>
    ensures text { IfOk result (λ owned. string_bytes owned ≡ text.now) }
    ensures memory { IfErr result (λ e. e ≡ FeedRefused.NoMemory) }
{
    match String::from_str(alloc, text) {
        Ok(owned) => Ok(owned),
        Err(_) => Err(FeedRefused::NoMemory),
    }
}

/// Puts a row behind the others.
pub(crate) fn put<T: Drop>(rows: &mut Vec<T>, row: T) -> Result<(), FeedRefused>
    ensures put { OnOk result (rows.new.items ≡ rows.old.items ++ row ∷ []) }
    ensures memory { IfErr result (λ e. e ≡ FeedRefused.NoMemory) }
{
    match rows.push(row) {
        Ok(()) => Ok(()),
        Err(_) => Err(FeedRefused::NoMemory),
    }
}
