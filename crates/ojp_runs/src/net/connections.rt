//! The connections of a row.

use crate::outcome::PIECE;
use crate::row::WITHIN;
use ojp_http::request;
use ojp_outside::MemSource;
use ojp_values::read_number;
use std::alloc::Global;

/// The connections, parted by lines of four hyphens. Each is read in pieces of at most 100 bytes.
pub fn connections_of(alloc: Global, texts: &str) -> Option<Vec<MemSource>> {
    let mut connections = Vec::new(alloc);
    for text in texts.split(WITHIN) {
        if !text.is_empty() {
            connections.push(connection_of(alloc, text)?).ok()?;
        }
    }
    Some(connections)
}

/// One connection: the body of a request, ended by a line feed. Behind a first line `raw` stand the lines of all
/// that is sent; behind `fails`, the body of a request whose second read fails; behind `fill`, the length of a body
/// of the letter a.
fn connection_of(alloc: Global, text: &str) -> Option<MemSource> {
    if let Some(lines) = text.strip_prefix("raw\n") {
        return Some(source(lines_of(alloc, lines)?, Vec::new(alloc)));
    }
    let text = text.strip_suffix("\n")?;
    if let Some(length) = text.strip_prefix("fill\n") {
        return filled(alloc, length);
    }
    let mut failing = Vec::new(alloc);
    let body = match text.strip_prefix("fails\n") {
        Some(body) => {
            failing.push(2).ok()?;
            body
        }
        None => text,
    };
    Some(source(request_of(alloc, body.as_bytes())?, failing))
}

/// A request whose body has so many letters a.
fn filled(alloc: Global, length: &str) -> Option<MemSource> {
    let length = read_number(length.as_bytes())?;
    let mut body = Vec::new(alloc);
    for _ in 0..length {
        body.push(b'a').ok()?;
    }
    Some(source(request_of(alloc, body.as_slice())?, Vec::new(alloc)))
}

fn source(bytes: Vec<u8>, failing: Vec<u64>) -> MemSource {
    MemSource::new(bytes, PIECE, failing)
}

/// The lines, each with the end that lines of a head have.
fn lines_of(alloc: Global, lines: &str) -> Option<Vec<u8>> {
    let mut bytes = Vec::new(alloc);
    for line in lines.lines() {
        bytes.extend_from_slice(line.as_bytes()).ok()?;
        bytes.extend_from_slice(b"\r\n").ok()?;
    }
    Some(bytes)
}

/// A request with this body.
fn request_of(alloc: Global, body: &[u8]) -> Option<Vec<u8>> {
    let bytes = request(alloc, b"AA", body).ok()?;
    Vec::from_slice(alloc, bytes.as_slice()).ok()
}
