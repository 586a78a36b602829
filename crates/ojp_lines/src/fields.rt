//! Fields of lines.

ghost use Rattle.std.specs.Prelude.{◌≡◌, ◌∷◌, ◌++◌, OnOk, cond};
ghost use Rattle.std.specs.Fmt.{decimal};
ghost use Rattle.ojp_lines.specs.Lines.{marks_text, time_text};

use itoa::Buffer;
use ojp_values::NoMemory;

/// Writes the bytes.
pub fn put(out: &mut Vec<u8>, bytes: &[u8]) -> Result<(), NoMemory>
    ensures { OnOk result (out.new.items ≡ out.old.items ++ bytes.now) }
{
    match out.extend_from_slice(bytes) {
        Ok(()) => Ok(()),
        Err(_) => Err(NoMemory),
    }
}

/// Writes a field behind another one: a space and the bytes.
pub fn put_field(out: &mut Vec<u8>, bytes: &[u8]) -> Result<(), NoMemory>
    ensures { OnOk result (out.new.items ≡ out.old.items ++ 32 ∷ bytes.now) }
{
    put(out, b" ")?;
    put(out, bytes)
}

/// Writes a field that is a number.
pub fn put_number(out: &mut Vec<u8>, number: u64) -> Result<(), NoMemory>
    ensures { OnOk result (out.new.items ≡ out.old.items ++ 32 ∷ decimal number) }
{
    let mut digits = Buffer::new();
    put_field(out, digits.format(number).as_bytes())
}

/// Writes a field that is a time, and `-` for none.
pub fn put_time(out: &mut Vec<u8>, time: Option<u64>) -> Result<(), NoMemory>
    ensures { OnOk result (out.new.items ≡ out.old.items ++ 32 ∷ time_text time) }
{
    match time {
        None => put_field(out, b"-"),
        Some(seconds) => put_number(out, seconds),
    }
}

// The mark of a weekday.
fn mark(runs: bool) -> u8
    ensures { result ≡ cond runs 49 48 }
{
    if runs { b'1' } else { b'0' }
}

/// The marks of seven weekdays, Monday first: `1` where a service runs, and else `0`.
pub fn marks(weekdays: &[bool; 7]) -> [u8; 7]
    ensures { result ≡ marks_text weekdays.now }
{
    let [a, b, c, d, e, f, g] = *weekdays;
    [
        mark(a),
        mark(b),
        mark(c),
        mark(d),
        mark(e),
        mark(f),
        mark(g),
    ]
}
