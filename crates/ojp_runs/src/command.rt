//! The words of a run, and the calls of it that are to fail.

ghost use Rattle.std.specs.Prelude.{◌≡◌, IfSome, None};

use crate::outcome::PIECE;
use ojp_outside::{MemDoors, MemSink, MemSource, MemStore};
use ojp_values::read_number;
use std::alloc::Global;

/// The words of a run, and the numbers of the calls that fail.
#[derive(Drop)]
pub struct Command {
    pub words: Vec<String>,
    pub input: Vec<u64>,
    pub store: Vec<u64>,
    pub output: Vec<u64>,
    pub doors: Vec<u64>,
}

impl Command {
    /// An input of this text.
    pub fn input_of(&self, alloc: Global, text: &str) -> Option<MemSource> {
        let failing = Vec::from_slice(alloc, self.input.as_slice()).ok()?;
        let text = Vec::from_slice(alloc, text.as_bytes()).ok()?;
        Some(MemSource::new(text, PIECE, failing))
    }

    /// A store of these files, which have their names.
    pub fn store_of(&self, alloc: Global, files: Vec<(String, Vec<u8>)>) -> Option<MemStore> {
        let failing = Vec::from_slice(alloc, self.store.as_slice()).ok()?;
        Some(MemStore::new(files, failing))
    }

    /// An output to which nothing was written.
    pub fn empty_output(&self, alloc: Global) -> Option<MemSink> {
        let failing = Vec::from_slice(alloc, self.output.as_slice()).ok()?;
        Some(MemSink::new(alloc, failing))
    }

    /// Doors at which these connections come.
    pub fn doors_of(&self, alloc: Global, connections: Vec<MemSource>) -> Option<MemDoors>
        ensures { IfSome result (λ doors. doors.out ≡ None) }
    {
        let failing = Vec::from_slice(alloc, self.doors.as_slice()).ok()?;
        MemDoors::new(alloc, connections, failing).ok()
    }
}

/// The words of the line.
pub fn words_of(alloc: Global, line: &str) -> Option<Vec<String>> {
    let mut words = Vec::new(alloc);
    for word in line.split_whitespace() {
        words.push(String::from_str(alloc, word).ok()?).ok()?;
    }
    Some(words)
}

/// The words of the line, some of which name a call that is to fail: `!input=3`.
pub fn command_of(alloc: Global, line: &str) -> Option<Command> {
    let mut command = Command {
        words: Vec::new(alloc),
        input: Vec::new(alloc),
        store: Vec::new(alloc),
        output: Vec::new(alloc),
        doors: Vec::new(alloc),
    };
    add_words(alloc, &mut command, line)?;
    Some(command)
}

/// Adds each word of the line.
fn add_words(alloc: Global, command: &mut Command, line: &str) -> Option<()> {
    for word in line.split_whitespace() {
        match word.strip_prefix("!") {
            Some(call) => name_call(command, call)?,
            None => command
                .words
                .push(String::from_str(alloc, word).ok()?)
                .ok()?,
        }
    }
    Some(())
}

/// Adds a call to those that are to fail.
fn name_call(command: &mut Command, call: &str) -> Option<()> {
    let (of, number) = call.split_once("=")?;
    let number = u64::from(read_number(number.as_bytes())?);
    match of {
        "input" => command.input.push(number).ok(),
        "store" => command.store.push(number).ok(),
        "output" => command.output.push(number).ok(),
        "doors" => command.doors.push(number).ok(),
        _ => None,
    }
}
