//! Rows of feeds: small feeds, whose lines begin with what they declare (`feeds/reading.rt`). A row is told by its timetable,
//! or why it is refused, by what became of each trip, and by what was counted.

mod drafts;
mod fields;
mod reading;

use crate::feeds::drafts::Draft;
use crate::feeds::reading::read;
use crate::words::text_of;
use ojp_feed::{Converted, convert};

/// Writes what a row becomes, and a line that ends it.
pub(crate) fn tell<R: AllocGlobal + Print>(rt: &R, row: &str) -> Option<()> {
    let draft = read(rt.alloc(), row)?;
    let told = tell_draft(rt, &draft);
    drop(draft);
    told
}

fn tell_draft<R: AllocGlobal + Print>(rt: &R, draft: &Draft) -> Option<()> {
    match convert(rt.alloc(), &draft.feed, &draft.settings) {
        Err(refused) => println!(rt; "{refused:?}\n====").ok(),
        Ok(converted) => {
            let told = tell_converted(rt, &converted);
            drop(converted);
            told
        }
    }
}

/// Writes the timetable, what became of each trip, and what was counted.
fn tell_converted<R: Print>(rt: &R, converted: &Converted) -> Option<()> {
    let text = text_of(converted.text.as_slice())?;
    let fates = &converted.plan.fates;
    let counts = converted.plan.counts;
    println!(rt; "{text}{fates:?}\n{counts:?}\n====").ok()
}
