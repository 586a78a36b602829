//! The rows of a file, one after another.

ghost use Rattle.std.specs.Prelude.{◌≡◌, ◌<◌, ◌∷◌, ◌++◌, ◌↔◌, List, [], None, IfErr, IfOk, IfSome, IsTrue, Ok, Some, true, false, length};
ghost use Rattle.csv.specs.Reading.{reader_source, strip_bom};
ghost use Rattle.csv.specs.Records.{field_at, fields_of};
ghost use Rattle.ojp_values.specs.Texts.{Text};
ghost use Rattle.ojp_feed_lines.specs.Causes.{IsFor, IsOfHead, IsOfText, LacksName, TellsKind, needs};
ghost use Rattle.ojp_feed_lines.specs.Columns.{column_name};
ghost use Rattle.ojp_feed_lines.specs.Rows.{IsPlace, Record, at_place, or_nothing};
ghost use Rattle.ojp_feed_lines.specs.Tables.{HasEnded, HasRead};
ghost use Rattle.ojp_feed_lines.specs.Refusals.{IsRowRefusal, IsTableRefusal, is_of_row, is_unread};
ghost use Rattle.ojp_feed_lines.specs.declared.files.FeedFile.{FeedFile};

use crate::columns::Column;
use crate::files::FeedFile;
use crate::folder::OpenedFile;
use crate::refusals::{FeedRefused, RowReason};
use csv::{ErrorKind, Position, Reader, ReaderBuilder, StringRecord};
use std::alloc::Global;

/// A file under its head line, at one of its rows.
#[derive(Drop)]
pub(crate) struct Table<F: OpenedFile> {
    file: FeedFile,
    rows: Reader<F>,
    row: StringRecord,
    line: u64,
}

impl<F: OpenedFile> Table<F> {
    /// The rows of a file, at none of them.
    pub fn new(alloc: Global, file: FeedFile, from: F) -> Table<F>
        ensures file { result.file ≡ file }
        ensures read { IfSome (F.remaining from) (λ bytes. HasRead F.remaining result.rows (strip_bom bytes) []) }
    {
        let rows = ReaderBuilder::new()
            .has_headers(false)
            .from_reader(alloc, from);
        Table {
            file,
            rows,
            row: StringRecord::new(alloc),
            line: 1,
        }
    }

    /// The file, which may be read in part.
    pub fn into_file(self) -> F
        ensures { result ≡ reader_source self.rows }
    {
        self.rows.into_inner()
    }

    /// Goes to the next row, the first time to the head line; false behind the last.
    pub fn next(&mut self) -> Result<bool, FeedRefused>
        ensures file { self.new.file ≡ self.old.file }
        ensures at { IfErr result (λ e. IsTableRefusal self.old.file e) }
        ensures unread { IfErr result (λ e. IsTrue (is_unread e) → 0 < F.faults (reader_source self.new.rows)) }
        ensures row { result ≡ Ok true → (bytes : Text) (rows : List Record)
            → HasRead F.remaining self.old.rows bytes rows → HasRead F.remaining self.new.rows bytes (rows ++ fields_of self.new.row ∷ []) }
        ensures end { result ≡ Ok false → (bytes : Text) (rows : List Record)
            → HasRead F.remaining self.old.rows bytes rows → HasEnded bytes rows }
        ensures why { IfErr result (λ e. (file : FeedFile) (text : Text) (rows : List Record)
            → HasRead F.remaining self.old.rows text rows → IsOfText file text e) }
    {
        match self.rows.read_record(&mut self.row) {
            Ok(found) => {
                self.line = self.line_now(found);
                Ok(found)
            }
            Err(error) => Err(self.refusal(error.into_kind())),
        }
    }

    /// The line where the row begins, and the last one where there is no row.
    fn line_now(&self, is_row: bool) -> u64 {
        match self.row.position() {
            Some(at) if is_row => at.line,
            _ => self.rows.position().line,
        }
    }

    /// The refusal of a row that could not be read. An error that the file does not count is want of memory.
    #[tactic(auto, using(crate::proofs::Explained::some_fault))]
    fn refusal(&self, cause: ErrorKind) -> FeedRefused
        ensures at { IsTableRefusal self.now.file result }
        ensures unread { IsTrue (is_unread result) → 0 < F.faults (reader_source self.now.rows) }
        ensures kind { TellsKind cause result }
    {
        match cause {
            ErrorKind::Utf8 { pos, .. } => at(self.file, pos, RowReason::NotText),
            ErrorKind::UnequalLengths { pos, .. } => at(self.file, pos, RowReason::Width),
            _ => {
                if self.rows.get_ref().has_failed() {
                    FeedRefused::Unread(self.file)
                } else {
                    FeedRefused::NoMemory
                }
            }
        }
    }

    /// The place of the column among the names of the row.
    pub fn place(&self, column: Column) -> Option<usize>
        ensures under { IsPlace (fields_of self.now.row) (column_name column) result }
        ensures none { result ≡ None → LacksName (fields_of self.now.row) (column_name column) }
    {
        for place in 0..self.row.len() {
            if self.is_named(place, column) {
                return Some(place);
            }
        }
        None
    }

    /// Whether the field at that place is the name of the column.
    fn is_named(&self, place: usize, column: Column) -> bool
        ensures { IsTrue result ↔ (field_at (fields_of self.now.row) place ≡ Some (column_name column)) }
    {
        match self.row.get(place) {
            Some(name) => name == column.name(),
            None => false,
        }
    }

    /// The place of the column, which the head line must have.
    pub fn needed(&self, column: Column) -> Result<usize, FeedRefused>
        ensures place { IfOk result (λ place. IsPlace (fields_of self.now.row) (column_name column) (Some place)) }
        ensures refused { IfErr result (λ e. IsRowRefusal self.now.file e) }
        ensures why { IfErr result (λ e. (file : FeedFile) → IsTrue (needs file column) → IsOfHead file (fields_of self.now.row) e) }
    {
        match self.place(column) {
            Some(place) => Ok(place),
            None => Err(self.refused(RowReason::MissingColumn(column))),
        }
    }

    /// The field at that place of the row, and nothing where there is none.
    pub fn field(&self, place: usize) -> &str
        ensures { result.now ≡ or_nothing (field_at (fields_of self.now.row) place) }
    {
        match self.row.get(place) {
            Some(field) => field,
            None => "",
        }
    }

    /// The field at that place, where the file has the column.
    pub fn field_of(&self, place: Option<usize>) -> &str
        ensures { result.now ≡ at_place (fields_of self.now.row) place }
    {
        match place {
            Some(place) => self.field(place),
            None => "",
        }
    }

    /// The refusal of the row.
    pub fn refused(&self, reason: RowReason) -> FeedRefused
        requires { IsTrue (is_of_row reason) }
        ensures row { IsRowRefusal self.now.file result }
        ensures table { IsTableRefusal self.now.file result }
        ensures read { is_unread result ≡ false }
        ensures reason { IsFor reason result }
    {
        FeedRefused::At {
            file: self.file,
            line: self.line,
            reason,
        }
    }

    /// The value of a field that was read.
    pub fn value<T>(&self, read: Option<T>, column: Column) -> Result<T, FeedRefused>
        ensures value { IfOk result (λ value. read ≡ Some value) }
        ensures refused { IfErr result (λ e. IsRowRefusal self.now.file e) }
        ensures why { IfErr result (λ e. (read ≡ None) × IsFor (RowReason.Value column) e) }
    {
        match read {
            Some(value) => Ok(value),
            None => Err(self.refused(RowReason::Value(column))),
        }
    }

    /// The text of a field, of one byte or more.
    pub fn id(&self, place: usize, column: Column) -> Result<&str, FeedRefused>
        ensures text { IfOk result (λ id. id.now ≡ or_nothing (field_at (fields_of self.now.row) place)) }
        ensures refused { IfErr result (λ e. IsRowRefusal self.now.file e) }
        ensures why { IfErr result (λ e. (or_nothing (field_at (fields_of self.now.row) place) ≡ []) × IsFor (RowReason.Value column) e) }
    {
        let id = self.field(place);
        if id.is_empty() {
            Err(self.refused(RowReason::Value(column)))
        } else {
            Ok(id)
        }
    }
}

fn at(file: FeedFile, place: Option<Position>, reason: RowReason) -> FeedRefused
    requires { IsTrue (is_of_row reason) }
    ensures table { IsTableRefusal file result }
    ensures read { is_unread result ≡ false }
    ensures reason { IsFor reason result }
{
    let line = match place {
        Some(place) => place.line,
        None => 1,
    };
    FeedRefused::At { file, line, reason }
}
