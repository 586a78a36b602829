//! Edits of files.

use crate::gtfs::rows::Row;
use std::alloc::Global;

/// The bytes as the row edits them.
pub fn edited(alloc: Global, bytes: &[u8], row: &Row<'_>) -> Option<Vec<u8>> {
    let old = plain(alloc, row.old.as_bytes())?;
    let new = plain(alloc, row.new.as_bytes())?;
    if row.old == "!" {
        return Vec::from_slice(alloc, bytes).ok();
    }
    if row.old == "*" {
        return Some(new);
    }
    let place = place_of(bytes, old.as_slice())?;
    let mut text = Vec::from_slice(alloc, bytes.get(..place)?).ok()?;
    let rest = bytes.get(place.saturating_add(old.len())..)?;
    text.extend_from_slice(new.as_slice()).ok()?;
    text.extend_from_slice(rest).ok()?;
    Some(text)
}

/// The bytes with a line feed for each `^`, and a byte that is no text for each `~`.
fn plain(alloc: Global, text: &[u8]) -> Option<Vec<u8>> {
    let mut bytes = Vec::new(alloc);
    for byte in text {
        bytes.push(meant(*byte)).ok()?;
    }
    Some(bytes)
}

fn meant(byte: u8) -> u8 {
    match byte {
        b'^' => b'\n',
        b'~' => 0xff,
        other => other,
    }
}

/// Where the one text first stands in the other.
fn place_of(text: &[u8], part: &[u8]) -> Option<usize> {
    for place in 0..text.len() {
        if text[place..].starts_with(part) {
            return Some(place);
        }
    }
    None
}
