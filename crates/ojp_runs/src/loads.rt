//! Runs of `load`.

use ojp_load::load;
use ojp_outside::MemSink;
use std::alloc::Global;
use std::str;

/// Writes what `load` writes of the number of each row, which is a line.
pub fn tell_rows(host: &HostRuntime, rows: &str) -> Option<()> {
    for row in rows.lines() {
        let number = row.parse::<u64>().ok()?;
        let text = text_of(host.alloc(), number)?;
        println!(host; "load {number}\n{text}").ok()?;
    }
    Some(())
}

/// What `load` writes of a number.
fn text_of(alloc: Global, number: u64) -> Option<String> {
    let mut output = MemSink::new(alloc, Vec::new(alloc));
    match load(alloc, number, &mut output) {
        Ok(()) => written(alloc, &output),
        Err(_) => None,
    }
}

fn written(alloc: Global, output: &MemSink) -> Option<String> {
    let text = str::from_utf8(output.written()).ok()?;
    String::from_str(alloc, text).ok()
}
