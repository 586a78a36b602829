//! The label of an id.

ghost use Rattle.std.specs.Prelude.{◌≡◌, ◌≤◌, Some, None, cond, length, IsTrue};
ghost use Rattle.arrayvec.specs.ArrayVec.{array_vec_len};
ghost use Rattle.ojp_values.specs.Texts.{is_label};
ghost use Rattle.ojp_feed_labels.specs.Labels.{dotted, is_dotted, label_of};

use crate::hashes::hashed;
use arrayvec::ArrayVec;
use ojp_values::Label;

/// The label of an id in at most `most` bytes: the id where it is one; the id with `.` for `:` where it has no `.` and that is
/// one; else the hashed form.
#[tactic(auto, unfolding(crate::specs::Labels::label_of))]
pub fn label_of(id: &[u8], most: usize) -> Label
    requires room { 10 ≤ most }
    requires fits { most ≤ 32 }
    ensures value { result ≡ label_of most id.now }
    ensures short { length result ≤ most }
    ensures stays { IsTrue (is_label id.now) → length id.now ≤ most → result ≡ id.now }
{
    if id.len() > most {
        return hashed(id, most);
    }
    if let Some(label) = Label::from_bytes(id) {
        return label;
    }
    match dotted(id) {
        Some(label) => label,
        None => hashed(id, most),
    }
}

/// The label that the id becomes with `.` for `:`, where it has no `.`.
fn dotted(id: &[u8]) -> Option<Label>
    requires { length id.now ≤ 32 }
    ensures { result ≡ cond (is_dotted id.now) (Some (dotted id.now)) None }
{
    if id.contains(&b'.') {
        return None;
    }
    let mut text: ArrayVec<u8, 32> = ArrayVec::new();
    for byte in id {
        text.push(if *byte == b':' { b'.' } else { *byte });
    }
    Label::from_bytes(text.as_slice())
}
