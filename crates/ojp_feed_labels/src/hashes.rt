//! The hashed form of an id.

ghost use Rattle.std.specs.Prelude.{◌≡◌, ◌≤◌, ◌<◌, ◌+◌, ◌%◌, ◌∷◌, ◌++◌, [], length, true};
ghost use Rattle.std.specs.List.{list_all};
ghost use Rattle.sha2.specs.Sha256.{sha256};
ghost use Rattle.arrayvec.specs.ArrayVec.{array_vec_len};
ghost use Rattle.ojp_values.specs.Texts.{is_local_byte};
ghost use Rattle.ojp_feed_labels.specs.Labels.{digit, digits, first_bits, hashed, local_byte};

use arrayvec::ArrayVec;
use ojp_values::Label;
use sha2::{Digest, Sha256};

/// The first bytes of the id, with `_` for those that no label has, then `-` and 8 base-32 digits of its SHA-256; at most `most`
/// bytes together.
pub fn hashed(id: &[u8], most: usize) -> Label
    requires room { 10 ≤ most }
    requires fits { most ≤ 32 }
    ensures value { result ≡ hashed most id.now }
    ensures short { length result ≤ most }
{
    let mut text: ArrayVec<u8, 32> = ArrayVec::new();
    let front = id.len().min(most - 9);
    for byte in &id[..front] {
        push_local(&mut text, local_byte(*byte));
    }
    push_local(&mut text, b'-');
    push_digits(&mut text, number_of(id));
    match Label::from_bytes(text.as_slice()) {
        Some(label) => label,
        None => unreachable!(),
    }
}

// Adds a byte that a label may have.
fn push_local(text: &mut ArrayVec<u8, 32>, byte: u8)
    requires room { array_vec_len text.old < 32 }
    requires local { is_local_byte byte ≡ true }
    ensures pushed { text.new.items ≡ text.old.items ++ byte ∷ [] }
    ensures local { list_all is_local_byte text.old.items ≡ true → list_all is_local_byte text.new.items ≡ true }
    ensures longer { array_vec_len text.new ≡ array_vec_len text.old + 1 }
{
    text.push(byte);
}

// The byte where a label may have it, and else `_`.
fn local_byte(byte: u8) -> u8
    ensures value { result ≡ local_byte byte }
    ensures local { is_local_byte result ≡ true }
{
    if matches!(byte, b'A'..=b'Z' | b'a'..=b'z' | b'0'..=b'9' | b'.' | b'_' | b'-') {
        byte
    } else {
        b'_'
    }
}

// The number of the first 40 bits of the SHA-256.
#[tactic(auto, unfolding(crate::specs::Labels::first_bits))]
fn number_of(id: &[u8]) -> u64
    ensures value { result ≡ first_bits (sha256 id.now) }
    ensures small { result < 1_099_511_627_776 }
{
    let digest: [u8; 32] = Sha256::digest(id);
    let [a, b, c, d, e, ..] = digest;
    let high = u64::from(a) * 65_536 + u64::from(b) * 256 + u64::from(c);
    let low = u64::from(d) * 256 + u64::from(e);
    high * 65_536 + low
}

// Adds the 8 base-32 digits of a number below 2^40, the highest first.
fn push_digits(text: &mut ArrayVec<u8, 32>, number: u64)
    requires room { array_vec_len text.old + 8 ≤ 32 }
    ensures pushed { text.new.items ≡ text.old.items ++ digits number }
    ensures local { list_all is_local_byte text.old.items ≡ true → list_all is_local_byte text.new.items ≡ true }
    ensures longer { array_vec_len text.new ≡ array_vec_len text.old + 8 }
{
    push_local(text, digit(number / 34_359_738_368));
    push_local(text, digit(number / 1_073_741_824));
    push_local(text, digit(number / 33_554_432));
    push_local(text, digit(number / 1_048_576));
    push_local(text, digit(number / 32_768));
    push_local(text, digit(number / 1_024));
    push_local(text, digit(number / 32));
    push_local(text, digit(number));
}

// The last base-32 digit of the number: a to z, then 2 to 7.
fn digit(number: u64) -> u8
    ensures value { result ≡ digit (number % 32) }
    ensures local { is_local_byte result ≡ true }
{
    let value = (number % 32) as u8;
    if value < 26 {
        b'a' + value
    } else {
        b'2' + (value - 26)
    }
}
