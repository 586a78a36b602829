//! Why a line, and why a text, is not taken.

use crate::file::lines::TableReason;

/// Why a line is not taken.
#[derive(Clone, Copy, Debug, PartialEq, Eq)]
pub enum LineRefused {
    Reason(TableReason),
    NoMemory,
}

/// Why a text is no timetable: the first line that fails a check, counted from 1, and the first
/// check that it fails. A text that ends too soon is refused at the line after its last.
#[derive(Clone, Copy, Debug, PartialEq, Eq)]
pub enum TableRefused {
    At { line: u64, reason: TableReason },
    NoMemory,
}
