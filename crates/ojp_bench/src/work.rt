//! The works that are measured.

ghost use Rattle.std.specs.Prelude.{◌<◌};

use crate::inputs::Inputs;
use ojp_decode::Reader;
use ojp_encode::{length, write};
use ojp_grammar::refusals::Want;
use ojp_grammar::whole::whole;
use ojp_http::read_request;
use ojp_outside::{MemSink, MemSource};
use ojp_values::Doc;
use std::alloc::Global;

/// The most bytes of a read from a source.
const READ: usize = 65_536;

/// One work over the inputs.
#[derive(Clone, Copy)]
pub enum Work {
    /// Spells the delivery into memory.
    Write,
    /// Tells the length of the delivery.
    Length,
    /// Reads the delivery's spelling as a whole.
    Whole,
    /// Reads it in pieces of 64 KiB.
    Pieces,
    /// Reads it byte by byte.
    Bytes,
    /// Reads a request with a body in one part.
    Body,
    /// Reads a request with a body in chunks.
    Chunks,
}

impl Work {
    pub const ALL: [Work; 7] = [
        Work::Write,
        Work::Length,
        Work::Whole,
        Work::Pieces,
        Work::Bytes,
        Work::Body,
        Work::Chunks,
    ];

    pub fn name(self) -> &'static str {
        match self {
            Work::Write => "write",
            Work::Length => "length",
            Work::Whole => "whole",
            Work::Pieces => "pieces",
            Work::Bytes => "bytes",
            Work::Body => "body",
            Work::Chunks => "chunks",
        }
    }

    /// Does the work once, and gives how many bytes it wrote, told or read.
    pub fn once(self, alloc: Global, inputs: &Inputs) -> Option<u64> {
        match self {
            Work::Write => write_once(alloc, &inputs.delivery),
            Work::Length => length_once(&inputs.delivery),
            Work::Whole => whole_once(alloc, &inputs.spelled),
            Work::Pieces => feed_once(alloc, &inputs.spelled, READ),
            Work::Bytes => feed_once(alloc, &inputs.spelled, 1),
            Work::Body => read_once(alloc, &inputs.by_length),
            Work::Chunks => read_once(alloc, &inputs.in_chunks),
        }
    }
}

fn write_once(alloc: Global, document: &Doc) -> Option<u64> {
    if !document.is_well() {
        return None;
    }
    let mut sink = MemSink::new(alloc, Vec::new(alloc));
    write(document, &mut sink).ok()?;
    Some(sink.written().len() as u64)
}

fn length_once(document: &Doc) -> Option<u64> {
    if document.is_well() {
        Some(length(document))
    } else {
        None
    }
}

fn whole_once(alloc: Global, bytes: &[u8]) -> Option<u64> {
    whole(alloc, Want::Delivery, bytes).ok()?;
    Some(bytes.len() as u64)
}

fn feed_once(alloc: Global, bytes: &[u8], length: usize) -> Option<u64>
    requires { 0 < length }
{
    read_in_pieces(alloc, bytes, length)?;
    Some(bytes.len() as u64)
}

/// The delivery that the bytes spell, read in pieces of this length.
fn read_in_pieces(alloc: Global, bytes: &[u8], length: usize) -> Option<Doc>
    requires { 0 < length }
{
    let mut reader = Reader::new(alloc, Want::Delivery);
    match feed_all(&mut reader, bytes, length) {
        Some(()) => reader.finish().ok(),
        None => {
            drop(reader);
            None
        }
    }
}

/// Feeds the bytes to the reader in pieces of this length.
fn feed_all(reader: &mut Reader, bytes: &[u8], length: usize) -> Option<()>
    requires { 0 < length }
{
    for piece in bytes.chunks(length) {
        reader.feed(piece).ok()?;
    }
    Some(())
}

/// Whether the spelling gives the delivery again, as a whole and byte by byte.
pub fn is_read_again(alloc: Global, inputs: &Inputs) -> Option<bool> {
    Some(is_read_whole(alloc, inputs)? && is_read_by_bytes(alloc, inputs)?)
}

fn is_read_whole(alloc: Global, inputs: &Inputs) -> Option<bool> {
    let document = whole(alloc, Want::Delivery, &inputs.spelled).ok()?;
    Some(document == inputs.delivery)
}

fn is_read_by_bytes(alloc: Global, inputs: &Inputs) -> Option<bool> {
    let document = read_in_pieces(alloc, &inputs.spelled, 1)?;
    Some(document == inputs.delivery)
}

fn read_once(alloc: Global, bytes: &[u8]) -> Option<u64> {
    let bytes = Vec::from_slice(alloc, bytes).ok()?;
    let mut input = MemSource::new(bytes, READ, Vec::new(alloc));
    let body = read_request(alloc, &mut input).ok()?;
    Some(body.len() as u64)
}
