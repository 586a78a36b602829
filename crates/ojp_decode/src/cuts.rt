//! Items that are cut short, and one more byte of them.

ghost use Rattle.std.specs.Prelude.{◌∷◌, [], IsTrue};
ghost use Rattle.ojp_grammar.specs.declared.machine.Cut.TheVariants.{Field, Text};
ghost use Rattle.ojp_grammar.specs.Machine.{StaysCut};

use ojp_grammar::machine::{Cut, LONGEST_FIELD};
use ojp_tables::markup::markup;

/// Whether an item that is cut short behind so many of its bytes still is behind one more.
pub fn stays_cut_behind(cut: Cut, passed: usize, byte: u8) -> bool
    ensures { IsTrue result → StaysCut cut passed (byte ∷ []) }
{
    match cut {
        Cut::Text(n) => text_goes_on(n, passed, byte),
        Cut::Field => field_goes_on(passed, byte),
    }
}

/// Whether the byte stands in the text of a number behind so many others, and is not its last.
fn text_goes_on(n: u8, passed: usize, byte: u8) -> bool
    ensures { IsTrue result → StaysCut (Text n) passed (byte ∷ []) }
{
    if n >= 99 {
        return false;
    }
    let text = markup().at(n as usize);
    if passed >= text.len().saturating_sub(1) {
        return false;
    }
    text[passed] == byte
}

/// Whether the byte may stand in a field behind so many others.
fn field_goes_on(passed: usize, byte: u8) -> bool
    ensures { IsTrue result → StaysCut Field passed (byte ∷ []) }
{
    if passed >= LONGEST_FIELD {
        return false;
    }
    byte != b'<'
}
