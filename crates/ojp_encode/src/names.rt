//! Names as documents spell them, with `&`, `<` and `>` escaped.

ghost use Rattle.std.specs.Prelude.{◌≡◌, ◌≤◌, ◌+◌, ◌++◌, IsTrue, length};
ghost use Rattle.ojp_values.specs.Texts.{escaped, is_name};

use arrayvec::ArrayVec;
use ojp_values::Name;
use ojp_values::names::spell_front;

/// Room for any name: the text of a field has at most 512 bytes.
pub type Room = ArrayVec<u8, 512>;

/// The spelling of the name, in the room.
pub fn escape<'a>(name: &Name, room: &'a mut Room) -> &'a [u8]
    ensures value { result.now ≡ escaped name.now }
    ensures short { length result.now ≤ 512 }
    ensures well { IsTrue (is_name name.now) }
{
    room.clear();
    let mut rest = name.text();
    'parts: while let Some((part, left)) = spell_front(rest) {
        push_all(part, room);
        rest = left;
    }
    room.as_slice()
}

fn push_all(text: &[u8], room: &mut Room)
    requires { length room.old.items + length text.now ≤ 512 }
    ensures { room.new.items ≡ room.old.items ++ text.now }
{
    match room.try_extend_from_slice(text) {
        Ok(()) => {}
        Err(_) => unreachable!(),
    }
}
