//! Lines of notices.

use itoa::Buffer;
use ojp_outside::{Sink, put_parts};

/// Writes `look at: ` and the parts as a line; nobody can be told of a fault on standard error.
pub(crate) fn tell<E: Sink>(report: &mut E, parts: &[&[u8]]) {
    let _ = put_parts(report, &[b"look at: "]);
    let _ = put_parts(report, parts);
    let _ = put_parts(report, &[b"\n"]);
}

/// The same with a number behind the words.
pub(crate) fn tell_count<E: Sink>(report: &mut E, words: &[u8], count: u64) {
    let mut digits = Buffer::new();
    let number = digits.format(count);
    tell(report, &[words, number.as_bytes()]);
}
