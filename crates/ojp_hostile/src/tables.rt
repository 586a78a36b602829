//! Timetables of the input.

ghost use Rattle.std.specs.Prelude.{◌≡◌, ◌++◌, ◌∷◌, [], IfSome, map};
ghost use Rattle.std.specs.List.{list_any};
ghost use Rattle.ojp_values.specs.Texts.{same};
ghost use Rattle.ojp_links.specs.Seen.{AreDistinct, region_of_table};
ghost use Rattle.ojp_hostile.specs.Ready.{AreOfRegions};

use ojp_timetable::Timetable;
use ojp_values::Code;
use std::alloc::Global;

/// The timetables of the text, which are parted by lines of four hyphens.
pub(crate) fn tables_of(alloc: Global, text: &str) -> Option<Vec<Timetable>>
    ensures { IfSome result (λ tables. AreDistinct (map region_of_table tables.items)) }
{
    let mut tables = Vec::new(alloc);
    let mut codes = Vec::new(alloc);
    'tables: for part in text.split("----\n") {
        let Ok(table) = Timetable::read(alloc, part.as_bytes()) else {
            return None;
        };
        add_table(&mut tables, &mut codes, table)?;
    }
    Some(tables)
}

/// Adds the timetable, whose region none of the others has, and its region to theirs.
fn add_table(tables: &mut Vec<Timetable>, codes: &mut Vec<Code>, table: Timetable) -> Option<()>
    requires { AreOfRegions codes.old.items tables.old.items }
    ensures { IfSome result (λ done. AreOfRegions codes.new.items tables.new.items) }
{
    let code = table.region();
    add(tables, table)?;
    if has_code(codes.as_slice(), &code) {
        return None;
    }
    add(codes, code)?;
    Some(())
}

/// Adds the item behind the others; none for want of memory.
fn add<T: Drop>(items: &mut Vec<T>, item: T) -> Option<()>
    ensures { IfSome result (λ done. items.new.items ≡ items.old.items ++ item ∷ []) }
{
    let Ok(()) = items.push(item) else {
        return None;
    };
    Some(())
}

/// Whether the code is among these.
pub(crate) fn has_code(codes: &[Code], code: &Code) -> bool
    ensures { result ≡ list_any (λ other. same other code.now) codes.now }
{
    codes.contains(code)
}
