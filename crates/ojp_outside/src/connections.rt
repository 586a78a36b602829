//! Connections of doors in memory: to come, out, and come back.
ghost use Rattle.std.specs.Prelude.{◌≡◌};

use crate::{MemSink, MemSource};

/// A connection to come, and a copy of the bytes that it has left.
#[derive(Drop)]
pub struct Waiting {
    pub input: MemSource,
    pub left: Vec<u8>,
    ghost copied: { left.items ≡ input.left },
}

/// What the connection that is out had when it was given.
#[derive(Drop)]
pub struct Given {
    pub left: Vec<u8>,
    pub input_faults: u64,
    pub output_faults: u64,
}

/// A connection that came back.
#[derive(Drop)]
pub struct Returned {
    pub given: Given,
    pub input: MemSource,
    pub output: MemSink,
}
