//! Rows of sets of days and of zone files. `boxes DAY MARKS`, with a mark `1` or `.` for each day from that one on, is told
//! by the labels of the boxes; `zone DAY DAY HEX`, with the bytes of a zone file, by the zone's text on these days. What is
//! told was worked out elsewhere.

use crate::words::{day_of, text_of};
use ojp_calendars::{boxes, label, zone_of_file};
use std::alloc::Global;

/// Writes what comes of a row on a line.
pub(crate) fn tell<R: AllocGlobal + Print>(rt: &R, row: &str) -> Option<()> {
    let (of, row) = row.split_once(" ")?;
    match of {
        "boxes" => tell_boxes(rt, row),
        "zone" => tell_zone(rt, row),
        _ => None,
    }
}

/// Whether each day is marked; none where a byte is no mark, or for want of memory.
fn read_marks(alloc: Global, text: &str) -> Option<Vec<bool>> {
    let mut marks = Vec::new(alloc);
    for byte in text.as_bytes() {
        match byte {
            b'1' => marks.push(true).ok()?,
            b'.' => marks.push(false).ok()?,
            _ => return None,
        }
    }
    Some(marks)
}

/// Writes the labels of the boxes of a row on a line.
fn tell_boxes<R: AllocGlobal + Print>(rt: &R, row: &str) -> Option<()> {
    let alloc = rt.alloc();
    let (first, marks) = row.split_once(" ")?;
    let first = day_of(first)?;
    let marks = read_marks(alloc, marks)?;
    if marks.len() > 1000 || first.number() > 80_000 {
        return None;
    }
    print!(rt; "boxes").ok()?;
    for days in &boxes(alloc, first, marks.as_slice()).ok()? {
        let label = label(days);
        let text = text_of(label.text())?;
        print!(rt; " {text}").ok()?;
    }
    println!(rt; "").ok()
}

/// Writes the text of the zone of a row on a line, or why there is none.
fn tell_zone<R: AllocGlobal + Print>(rt: &R, row: &str) -> Option<()> {
    let alloc = rt.alloc();
    let (first, row) = row.split_once(" ")?;
    let (last, file) = row.split_once(" ")?;
    let first = day_of(first)?;
    let last = day_of(last)?;
    let file = hex::decode(alloc, file).ok()?;
    match zone_of_file(alloc, file.as_slice(), first, last) {
        Ok(text) => {
            let text = text_of(text.as_slice())?;
            println!(rt; "zone {text}").ok()
        }
        Err(fault) => println!(rt; "zone {fault:?}").ok(),
    }
}
