//! A file of a folder, row by row.

ghost use Rattle.std.specs.Prelude.{◌≡◌, ◌≤◌, ◌<◌, ◌∷◌, ◌++◌, List, [], IfErr, IfOk, OnOk, IsTrue, Ok, true, false};
ghost use Rattle.csv.specs.Reading.{reader_source};
ghost use Rattle.csv.specs.Records.{fields_of};
ghost use Rattle.ojp_values.specs.Texts.{Text};
ghost use Rattle.ojp_feed_lines.specs.Rows.{OfFile, Record};
ghost use Rattle.ojp_feed_lines.specs.Tables.{HasEnded, HasRead, HasTaken, HasTakenAll};
ghost use Rattle.ojp_outside.specs.Causes.{Rose};
ghost use Rattle.ojp_feed_lines.specs.Folders.{Lacks};
ghost use Rattle.ojp_feed_lines.specs.Causes.{IsFor, IsOfHead, IsOfRow, IsOfText, needs};
ghost use Rattle.ojp_feed_lines.specs.Refusals.{Explains, IsNeeded, IsRowRefusal, IsTableRefusal, is_unread};
ghost use Rattle.ojp_feed_lines.specs.declared.files.FeedFile.{FeedFile};

use crate::columns::Column;
use crate::files::FeedFile;
use crate::folder::{Folder, MOST_BYTES, OpenRefused, OpenedFile};
use crate::refusals::{FeedRefused, RowReason};
use crate::table::Table;
use std::alloc::Global;

/// What the rows of a file become.
pub(crate) trait Rows {
    /// The places of the columns.
    type Columns: Copy;

    /// The file of the rows.
    ghost file: { FeedFile };

    /// The places are those of the columns in the head line.
    ghost places: { Self.Columns → Record → Type 0 };

    /// What was taken stands for these records.
    ghost holds: { Self → Self.Columns → List Record → Type 0 };

    /// The places by the head line, at which the table is.
    fn columns<F: OpenedFile>(table: &Table<F>) -> Result<Self::Columns, FeedRefused>
        ensures places { IfOk result (λ columns. places columns (fields_of table.now.row)) }
        ensures refused { IfErr result (λ e. IsRowRefusal table.now.file e) }
        ensures why { IfErr result (λ e. IsOfHead file (fields_of table.now.row) e) };

    /// Takes the row at which the table is.
    fn take_row<F: OpenedFile>(
        &mut self,
        alloc: Global,
        table: &Table<F>,
        columns: Self::Columns,
    ) -> Result<(), FeedRefused>
        ensures taken { OnOk result ((rows : List Record) → holds self.old columns rows → holds self.new columns (rows ++ fields_of table.now.row ∷ [])) }
        ensures refused { IfErr result (λ e. IsRowRefusal table.now.file e) }
        ensures why { IfErr result (λ e. (head : Record) (above : List Record) → places columns head → holds self.old columns above
            → IsOfRow file head above (fields_of table.now.row) e) };
}

/// Takes each row of a file of the folder, whose head line must have the key, and tells whether the file is there.
pub(crate) fn take_file<D: Folder, T: Rows>(
    alloc: Global,
    folder: &mut D,
    file: FeedFile,
    key: Column,
    rows: &mut T,
) -> Result<bool, FeedRefused>
    requires file { file ≡ T.file }
    requires key { IsTrue (needs file key) }
    ensures kept { (D.seen folder.new).contents ≡ (D.seen folder.old).contents }
    ensures later { (D.seen folder.old).faults ≤ (D.seen folder.new).faults }
    ensures unread { IfErr result (λ e. IsTrue (is_unread e) → Rose (D.seen folder.old).faults (D.seen folder.new).faults) }
    ensures taken { result ≡ Ok true → ((columns : T.Columns) → T.holds rows.old columns [])
        → OfFile (D.seen folder.old).contents file (HasTaken T.places (T.holds rows.new)) }
    ensures missing { result ≡ Ok false → Lacks (D.seen folder.old).contents file }
    ensures refused { IfErr result (λ e. ((columns : T.Columns) → T.holds rows.old columns []) → Explains (D.seen folder.old).contents e) }
{
    let from = match folder.open(alloc, file) {
        Ok(from) => from,
        Err(OpenRefused::Missing) => return Ok(false),
        Err(OpenRefused::TooLong) => return Err(too_long(file)),
        Err(OpenRefused::Failed) => return Err(FeedRefused::Unread(file)),
        Err(OpenRefused::NoMemory) => return Err(FeedRefused::NoMemory),
    };
    let mut table = Table::new(alloc, file, from);
    let taken = take_table(alloc, &mut table, key, rows);
    folder.close(table.into_file());
    match taken {
        Ok(()) => Ok(true),
        Err(refused) => Err(refused),
    }
}

/// The same for a file that must be there.
#[tactic(auto, using(crate::proofs::Explained::is_missed))]
pub(crate) fn take_needed<D: Folder, T: Rows>(
    alloc: Global,
    folder: &mut D,
    file: FeedFile,
    key: Column,
    rows: &mut T,
) -> Result<(), FeedRefused>
    requires file { file ≡ T.file }
    requires key { IsTrue (needs file key) }
    requires needed { IsNeeded file }
    ensures taken { OnOk result (((columns : T.Columns) → T.holds rows.old columns [])
        → OfFile (D.seen folder.old).contents file (HasTaken T.places (T.holds rows.new))) }
    ensures kept { (D.seen folder.new).contents ≡ (D.seen folder.old).contents }
    ensures later { (D.seen folder.old).faults ≤ (D.seen folder.new).faults }
    ensures unread { IfErr result (λ e. IsTrue (is_unread e) → Rose (D.seen folder.old).faults (D.seen folder.new).faults) }
    ensures refused { IfErr result (λ e. ((columns : T.Columns) → T.holds rows.old columns []) → Explains (D.seen folder.old).contents e) }
{
    let is_there = take_file(alloc, folder, file, key, rows)?;
    if is_there { Ok(()) } else { Err(missing(file)) }
}

/// The file is not there.
pub(crate) fn missing(file: FeedFile) -> FeedRefused
    ensures { result ≡ FeedRefused.At file 1 RowReason.MissingFile }
{
    FeedRefused::At {
        file,
        line: 1,
        reason: RowReason::MissingFile,
    }
}

/// The file has more bytes than a file may have.
fn too_long(file: FeedFile) -> FeedRefused
    ensures table { IsTableRefusal file result }
    ensures read { is_unread result ≡ false }
    ensures limit { IsFor RowReason.Limit result }
{
    FeedRefused::At {
        file,
        line: 1,
        reason: RowReason::Limit,
    }
}

/// Takes the head line, which must have the key, and then each row.
fn take_table<F: OpenedFile, T: Rows>(
    alloc: Global,
    table: &mut Table<F>,
    key: Column,
    rows: &mut T,
) -> Result<(), FeedRefused>
    requires { IsTrue (needs T.file key) }
    ensures taken { OnOk result ((bytes : Text) → HasRead F.remaining table.old.rows bytes []
        → ((columns : T.Columns) → T.holds rows.old columns []) → HasTakenAll T.places (T.holds rows.new) bytes) }
    ensures refused { IfErr result (λ e. IsTableRefusal table.old.file e) }
    ensures why { IfErr result (λ e. (text : Text) → HasRead F.remaining table.old.rows text []
        → ((columns : T.Columns) → T.holds rows.old columns []) → IsOfText T.file text e) }
    ensures unread { IfErr result (λ e. IsTrue (is_unread e) → 0 < F.faults (reader_source table.new.rows)) }
{
    if !table.next()? {
        return Err(table.refused(RowReason::MissingColumn(key)));
    }
    let columns = T::columns(table)?;
    take_rows(alloc, table, columns, rows)
}

/// Takes each row that is left of the table.
fn take_rows<F: OpenedFile, T: Rows>(
    alloc: Global,
    table: &mut Table<F>,
    columns: T::Columns,
    rows: &mut T,
) -> Result<(), FeedRefused>
    ensures taken { OnOk result ((bytes : Text) (head : Record) → HasRead F.remaining table.old.rows bytes (head ∷ [])
        → T.holds rows.old columns [] → (all : List Record) × HasEnded bytes (head ∷ all) × T.holds rows.new columns all) }
    ensures refused { IfErr result (λ e. IsTableRefusal table.old.file e) }
    ensures why { IfErr result (λ e. (text : Text) (head : Record) → HasRead F.remaining table.old.rows text (head ∷ [])
        → T.places columns head → T.holds rows.old columns [] → IsOfText T.file text e) }
    ensures unread { IfErr result (λ e. IsTrue (is_unread e) → 0 < F.faults (reader_source table.new.rows)) }
{
    'taking: for _count in 0..MOST_BYTES {
        if !table.next()? {
            return Ok(());
        }
        rows.take_row(alloc, table, columns)?;
    }
    Err(table.refused(RowReason::Limit))
}
