//! Taking a text apart where it has few parts.
ghost use Rattle.std.specs.Prelude.{◌≡◌};
ghost use Rattle.ojp_zones.specs.Splits.{IsSplit};

use crate::parts::{Parts, Split};

/// The parts of the text.
pub fn split(text: &[u8], separator: u8) -> Split<'_>
    ensures { IsSplit separator text.now result }
{
    let mut parts = Parts::new(text, separator);
    let Some(first) = parts.next() else {
        return Split::More;
    };
    let Some(second) = parts.next() else {
        return Split::One(first);
    };
    let Some(third) = parts.next() else {
        return Split::Two(first, second);
    };
    match parts.next() {
        None => Split::Three(first, second, third),
        Some(_) => Split::More,
    }
}
