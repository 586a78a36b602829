//! The name of a stop.

use ojp_values::{Label, Name, NoMemory};
use std::alloc::Global;

/// The most bytes of a name.
const MOST: usize = 100;

/// The name with a space for each character that no name has, cut within 100 bytes; the label where nothing is left. The other
/// answer is whether it is another text than the name given.
pub fn name_of(alloc: Global, name: &str, label: Label) -> Result<(Name, bool), NoMemory> {
    if let Some(same) = Name::from_bytes(name.as_bytes()) {
        return Ok((same, false));
    }
    let text = cleaned(alloc, name)?;
    match Name::from_bytes(text.as_bytes()) {
        Some(cleaned) => Ok((cleaned, true)),
        None => Ok((label_name(label), true)),
    }
}

// The characters that fit, with a space for each that no name has.
fn cleaned(alloc: Global, name: &str) -> Result<String, NoMemory> {
    let mut text = String::new(alloc);
    for given in name.chars() {
        let kept = if is_barred(given) { ' ' } else { given };
        if text.len() > MOST - 4 && text.len() + kept.len_utf8() > MOST {
            break;
        }
        if text.push(kept).is_err() {
            return Err(NoMemory);
        }
    }
    Ok(text)
}

// Whether no name has the character.
fn is_barred(given: char) -> bool {
    given < ' ' || given == '\u{FFFE}' || given == '\u{FFFF}'
}

// The label as a name.
#[tactic(auto, using(crate::proofs::NameFacts::label_is_name))]
fn label_name(label: Label) -> Name {
    match Name::from_bytes(label.text()) {
        Some(name) => name,
        None => unreachable!(),
    }
}
