//! The bytes that texts of rows stand for.

use crate::words::number_of;
use std::alloc::Global;

/// The bytes that a text stands for: its parts between two `@` are repeated, the others are not.
pub(crate) fn bytes_of(alloc: Global, text: &str) -> Option<Vec<u8>> {
    let mut bytes = Vec::new(alloc);
    let mut is_repeated = false;
    for part in text.split("@") {
        if is_repeated {
            repeat(&mut bytes, part)?;
        } else {
            append(&mut bytes, part)?;
        }
        is_repeated = !is_repeated;
    }
    Some(bytes)
}

/// Adds the bytes of `COUNT*TEXT`.
fn repeat(bytes: &mut Vec<u8>, part: &str) -> Option<()> {
    let (count, text) = part.split_once("*")?;
    for _ in 0..number_of(count)? {
        append(bytes, text)?;
    }
    Some(())
}

/// Adds the bytes of a text in which nothing is repeated.
fn append(bytes: &mut Vec<u8>, text: &str) -> Option<()> {
    for byte in text.bytes() {
        match byte {
            b'$' => bytes.extend_from_slice(b"\r\n").ok()?,
            b'^' => bytes.push(b'\r').ok()?,
            b'~' => bytes.push(b'\n').ok()?,
            _ => bytes.push(byte).ok()?,
        }
    }
    Some(())
}
