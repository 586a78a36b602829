//! Names as documents spell them, with `&`, `<` and `>` escaped.

ghost use Rattle.std.specs.Prelude.{◌≡◌, ◌↔◌, ◌≤◌, ◌<◌, false, [], ◌++◌, length, IsTrue, IsNone, IfSome, MatchOption, option_map};
ghost use Rattle.std.specs.List.{position, position_or_len};
ghost use Rattle.ojp_values.specs.Numbers.{Reads};
ghost use Rattle.ojp_values.specs.Texts.{is_name, escaped, escaped_byte};
ghost use Rattle.ojp_values.specs.Escapes.{first_byte, first_escape, is_escaped_byte};

use crate::texts::Name;
use arrayvec::ArrayVec;

impl Name {
    /// The name that the text of a document spells.
    pub fn read_escaped(text: &[u8]) -> Option<Name>
        ensures { Reads (λ name. IsTrue (is_name name)) escaped text.now result }
    {
        // Most names spell themselves.
        if plain_len(text) == text.len() {
            return Name::from_bytes(text);
        }
        let mut name: ArrayVec<u8, 100> = ArrayVec::new();
        let mut rest = text;
        'bytes: while !rest.is_empty() {
            if name.is_full() {
                return None;
            }
            let (byte, after) = first_spelled(rest)?;
            name.push(byte);
            rest = after;
        }
        Name::from_bytes(name.as_slice())
    }

    /// The number of bytes of the name as a document spells it.
    pub fn escaped_len(&self) -> usize
        ensures { result ≡ length (escaped self.now) }
    {
        let mut rest = self.text();
        let mut len = 0;
        'parts: while let Some((part, left)) = spell_front(rest) {
            len += part.len();
            rest = left;
        }
        len
    }
}

/// The first bytes of the spelling of a name, or of the rest of one, and what of it they leave to
/// be spelled; none of nothing. Called again on what is left, it spells all of it, without memory.
#[tactic(auto, using(crate::proofs::Escapes::escaped_plain, crate::proofs::Escapes::plain_rest))]
pub fn spell_front(name: &[u8]) -> Option<(&[u8], &[u8])>
    ensures none { IsNone result ↔ (name.now ≡ []) }
    ensures front { IfSome result (λ parts. escaped name.now ≡ parts.0.now ++ escaped parts.1.now) }
    ensures shorter { IfSome result (λ parts. length parts.1.now < length name.now) }
{
    let (first, rest) = name.split_first()?;
    match escape_of(*first) {
        Some(escape) => Some((escape, rest)),
        None => Some(name.split_at(plain_len(name))),
    }
}

/// The spelling of a byte that is not spelled as itself.
fn escape_of(byte: u8) -> Option<&'static [u8]>
    ensures { MatchOption result (is_escaped_byte byte ≡ false) (λ escape. escape.now ≡ escaped_byte byte) }
{
    match byte {
        b'&' => Some(b"&amp;"),
        b'<' => Some(b"&lt;"),
        b'>' => Some(b"&gt;"),
        _ => None,
    }
}

/// The number of bytes before the first that is escaped.
fn plain_len(name: &[u8]) -> usize
    ensures value { result ≡ position_or_len is_escaped_byte name.now }
    ensures fits { result ≤ length name.now }
{
    first_escapable(name).unwrap_or(name.len())
}

fn first_escapable(name: &[u8]) -> Option<usize>
    ensures { result ≡ position is_escaped_byte name.now }
{
    name.iter().position(|&byte| is_escapable(byte))
}

fn is_escapable(byte: u8) -> bool
    ensures { result ≡ is_escaped_byte byte }
{
    byte == b'&' || byte == b'<' || byte == b'>'
}

/// The byte whose spelling the text begins with, and what stands behind it.
fn first_spelled(text: &[u8]) -> Option<(u8, &[u8])>
    ensures { option_map (λ read. (read.0, read.1.now)) result ≡ first_byte text.now }
{
    match text {
        [] => None,
        [b'&', rest @ ..] => first_escaped(rest),
        [b'<' | b'>', ..] => None,
        [byte, rest @ ..] => Some((*byte, rest)),
    }
}

/// The same behind a `&`.
fn first_escaped(rest: &[u8]) -> Option<(u8, &[u8])>
    ensures { option_map (λ read. (read.0, read.1.now)) result ≡ first_escape rest.now }
{
    if rest.starts_with(b"amp;") {
        Some((b'&', &rest[4..]))
    } else if rest.starts_with(b"lt;") {
        Some((b'<', &rest[3..]))
    } else if rest.starts_with(b"gt;") {
        Some((b'>', &rest[3..]))
    } else {
        None
    }
}
