//! Texts of the input, and the bytes that they describe.

use ojp_values::read_number;
use std::alloc::Global;

/// The text with the name: texts are parted by lines of four equals signs, and the first line of each is its name.
pub(crate) fn named<'a>(texts: &'a str, name: &str) -> Option<&'a str> {
    for section in texts.split("====\n") {
        let (first, text) = section.split_once("\n")?;
        if first == name {
            return Some(text);
        }
    }
    None
}

/// The document with the name, which is one line.
pub(crate) fn document<'a>(texts: &'a str, name: &str) -> Option<&'a str> {
    named(texts, name)?.strip_suffix("\n")
}

/// The bytes that the lines of the text with the name describe: `line` a line of HTTP, `bare` one that is ended by
/// a line feed alone, `doc` the document with a name, `many` so many lines, `long` a line with so many letters at its end.
pub(crate) fn request_of(alloc: Global, texts: &str, name: &str) -> Option<Vec<u8>> {
    let mut bytes = Vec::new(alloc);
    for line in named(texts, name)?.lines() {
        add_line(&mut bytes, texts, line)?;
    }
    Some(bytes)
}

/// Adds what a line describes.
fn add_line(bytes: &mut Vec<u8>, texts: &str, line: &str) -> Option<()> {
    let (kind, rest) = line.split_once(" ").unwrap_or((line, ""));
    match kind {
        "line" => add_text(bytes, rest, "\r\n"),
        "bare" => add_text(bytes, rest, "\n"),
        "doc" => add_text(bytes, document(texts, rest)?, ""),
        "many" => add_many(bytes, rest),
        "long" => add_long(bytes, rest),
        _ => None,
    }
}

/// Adds a text and its end.
fn add_text(bytes: &mut Vec<u8>, text: &str, end: &str) -> Option<()> {
    bytes.extend_from_slice(text.as_bytes()).ok()?;
    bytes.extend_from_slice(end.as_bytes()).ok()
}

/// Adds the same line so often.
fn add_many(bytes: &mut Vec<u8>, rest: &str) -> Option<()> {
    let (number, text) = rest.split_once(" ")?;
    for _ in 0..read_number(number.as_bytes())? {
        add_text(bytes, text, "\r\n")?;
    }
    Some(())
}

/// Adds a line that ends with so many letters.
fn add_long(bytes: &mut Vec<u8>, rest: &str) -> Option<()> {
    let (number, text) = rest.split_once(" ")?;
    add_text(bytes, text, "")?;
    for _ in 0..read_number(number.as_bytes())? {
        bytes.push(b'a').ok()?;
    }
    add_text(bytes, "", "\r\n")
}
