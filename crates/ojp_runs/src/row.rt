//! Rows that have files of their own.

use std::alloc::Global;

/// What parts the rows of a section.
pub const BETWEEN: &str = "====\n";

/// What parts a row.
pub const WITHIN: &str = "----\n";

/// A row: its first line, and behind it the files and what is sent, parted by lines of four hyphens.
#[derive(Clone, Copy)]
pub struct Row<'a> {
    pub line: &'a str,
    pub files: &'a str,
    pub sent: &'a str,
}

pub fn row_of(row: &str) -> Option<Row<'_>> {
    let (line, rest) = row.split_once("\n----\n")?;
    let (files, sent) = rest.split_once(WITHIN)?;
    Some(Row { line, files, sent })
}

/// A file of this name and text.
pub fn file_of(alloc: Global, name: &str, text: &str) -> Option<(String, Vec<u8>)> {
    let text = Vec::from_slice(alloc, text.as_bytes()).ok()?;
    Some((String::from_str(alloc, name).ok()?, text))
}
