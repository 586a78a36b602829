//! What a run gives.

use ojp_cli::run_here;
use ojp_links_mem::FileLinks;
use ojp_outside::{MemSink, MemSource, Store};
use std::alloc::Global;
use std::str;

/// The most bytes of a read.
pub const PIECE: usize = 100;

/// What a run gave.
#[derive(Drop)]
pub struct Outcome {
    pub status: u8,
    pub output: MemSink,
    pub faults: MemSink,
}

impl Outcome {
    /// Writes the status, the output and the text on standard error, a line each.
    pub fn tell(&self, host: &HostRuntime) -> Option<()> {
        let status = self.status;
        let output = str::from_utf8(self.output.written()).ok()?;
        let faults = str::from_utf8(self.faults.written()).ok()?;
        println!(host; "{status}\n{output}\n{faults}").ok()
    }
}

/// Runs the words of a command that waits for nobody, over the files of the store.
pub fn outcome_here<F: Store + Drop>(
    alloc: Global,
    words: &[String],
    store: F,
    mut input: MemSource,
    mut output: MemSink,
) -> Outcome {
    let mut files = FileLinks::new(alloc, store);
    let mut faults = MemSink::new(alloc, Vec::new(alloc));
    let status = run_here(
        alloc,
        words,
        &mut input,
        &mut output,
        &mut faults,
        &mut files,
    );
    drop(files);
    Outcome {
        status,
        output,
        faults,
    }
}
