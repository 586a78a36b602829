//! Sources, sinks, stores, doors and clocks: each call once, and a failure in the middle.

ghost use Rattle.std.specs.Prelude.{◌≡◌, ◌<◌, IfSome, None, false};

use crate::words::text_of;
use ojp_outside::*;
use std::alloc::Global;
use std::io::Cursor;

/// What reads of at most three bytes of `abcde` give, of which the second fails.
pub(crate) fn source(alloc: Global) -> Option<String> {
    let mut source = abcde(alloc, 3, &[2])?;
    four_reads(alloc, &mut source)
}

/// A source of `abcde`, in reads of at most `most` bytes, of which those of these numbers fail.
fn abcde(alloc: Global, most: usize, failing: &[u64]) -> Option<MemSource>
    requires { 0 < most }
{
    let bytes = Vec::from_slice(alloc, b"abcde").ok()?;
    let failing = Vec::from_slice(alloc, failing).ok()?;
    Some(MemSource::new(bytes, most, failing))
}

fn four_reads<S: Source>(alloc: Global, source: &mut S) -> Option<String> {
    let mut told = String::new(alloc);
    for _ in 0..4 {
        read_once(alloc, source, &mut told)?;
    }
    Some(told)
}

/// Tells what one read gives.
fn read_once<S: Source>(alloc: Global, source: &mut S, told: &mut String) -> Option<()> {
    let mut piece = [0u8; 8];
    let read = match source.read(&mut piece) {
        Ok(count) => {
            let text = text_of(&piece[..count])?;
            format!(in alloc; "[{text}]").ok()?
        }
        Err(Failed) => String::from_str(alloc, "failed").ok()?,
    };
    told.push_str(&read).ok()
}

/// What of `abcde` is read to a limit of three, what behind it, and what where the second read fails.
pub(crate) fn reading(alloc: Global) -> Option<String> {
    let mut source = abcde(alloc, 2, &[])?;
    let mut failing = abcde(alloc, 2, &[2])?;
    reading_text(alloc, &mut source, &mut failing)
}

fn reading_text<S: Source>(alloc: Global, source: &mut S, failing: &mut S) -> Option<String> {
    let front = read_all(alloc, source, 3).ok()?;
    let rest = read_all(alloc, source, 9).ok()?;
    let refused = read_all(alloc, failing, 9).err()?;
    let front = text_of(front.as_slice())?;
    let rest = text_of(rest.as_slice())?;
    format!(in alloc; "{front} {rest} {refused:?}").ok()
}

/// What a sink holds whose fourth write fails.
pub(crate) fn sink(alloc: Global) -> Option<String> {
    let failing = Vec::from_slice(alloc, &[4]).ok()?;
    let mut sink = MemSink::new(alloc, failing);
    sink_text(alloc, &mut sink)
}

fn sink_text(alloc: Global, sink: &mut MemSink) -> Option<String> {
    let first = put_all(sink, b"ab").is_ok();
    let second = put_parts(sink, &[b"cd", b"", b"e", b"f", b"g"]).is_ok();
    let refused = sink.refused();
    let written = text_of(sink.written())?;
    format!(in alloc; "{first} {second} {written} {refused}").ok()
}

/// A store with two files of one name, whose third call fails.
fn files(alloc: Global) -> Option<MemStore> {
    let mut files = Vec::new(alloc);
    for (name, bytes) in [("a.tt", "one"), ("b.tt", "two"), ("a.tt", "three")] {
        let name = String::from_str(alloc, name).ok()?;
        let bytes = Vec::from_slice(alloc, bytes.as_bytes()).ok()?;
        files.push((name, bytes)).ok()?;
    }
    Some(MemStore::new(files, Vec::from_slice(alloc, &[3]).ok()?))
}

/// What four calls of it give.
pub(crate) fn store(alloc: Global) -> Option<String> {
    let mut store = files(alloc)?;
    store_text(alloc, &mut store)
}

fn store_text<S: Store>(alloc: Global, store: &mut S) -> Option<String> {
    let first = store.read_file(alloc, "a.tt").ok()?;
    let missing = store.read_file(alloc, "c.tt").err()?;
    let failed = store.read_file(alloc, "b.tt").err()?;
    let second = store.read_file(alloc, "b.tt").ok()?;
    let first = text_of(&first)?;
    let second = text_of(&second)?;
    format!(in alloc; "{first} {missing:?} {failed:?} {second}").ok()
}

/// What the adapters over std pass on: three bytes that are read, and five for which there is room for four.
pub(crate) fn adapters(alloc: Global) -> Option<String> {
    let mut source = StdSource::new(Cursor::new(b"abc".as_slice()));
    let bytes = read_all(alloc, &mut source, 9).ok()?;
    let mut room = [0u8; 4];
    let mut sink = StdSink::new(room.as_mut_slice());
    let is_written = put_all(&mut sink, b"abcde").is_ok();
    let text = text_of(bytes.as_slice())?;
    format!(in alloc; "{text} {is_written}").ok()
}

/// The moments that a clock of 4, 4 and 9 tells.
pub(crate) fn clock(alloc: Global) -> Option<String> {
    let mut clock = MemClock::new(Vec::from_slice(alloc, &[4, 4, 9]).ok()?);
    let (first, second) = (clock.now(), clock.now());
    let (third, fourth) = (clock.now(), clock.now());
    format!(in alloc; "{first} {second} {third} {fourth}").ok()
}

/// Doors with two connections, whose second call fails.
fn doors_of_two(alloc: Global) -> Option<MemDoors>
    ensures { IfSome result (λ doors. doors.out ≡ None) }
{
    let mut connections = Vec::new(alloc);
    for text in ["one", "two"] {
        let bytes = Vec::from_slice(alloc, text.as_bytes()).ok()?;
        let source = MemSource::new(bytes, 8, Vec::new(alloc));
        connections.push(source).ok()?;
    }
    let failing = Vec::from_slice(alloc, &[2]).ok()?;
    MemDoors::new(alloc, connections, failing).ok()
}

/// What the doors give where one connection is asked for.
pub(crate) fn doors(alloc: Global) -> Option<String> {
    let mut doors = doors_of_two(alloc)?;
    let text = doors_text(alloc, &mut doors);
    drop(doors);
    text
}

fn doors_text<D: Doors>(alloc: Global, doors: &mut D) -> Option<String>
where
    D::In: Drop,
    D::Out: Drop,
    requires { (D.seen doors.old).is_out ≡ false }
{
    doors.listen(80, Some(1)).ok()?;
    let failed = doors.next().err()?;
    let text = served(alloc, doors, 9)?;
    let closed = doors.next().err()?;
    format!(in alloc; "{failed:?} {text} {closed:?}").ok()
}

/// Reads the next connection to the limit, and answers it.
pub(crate) fn served<D: Doors>(alloc: Global, doors: &mut D, limit: usize) -> Option<String>
    requires { (D.seen doors.old).is_out ≡ false }
    ensures { IfSome result (λ _. (D.seen doors.new).is_out ≡ false) }
{
    let (mut input, mut output) = doors.next().ok()?;
    let read = read_all(alloc, &mut input, limit);
    let written = put_all(&mut output, b"answer");
    doors.back(input, output);
    written.ok()?;
    let bytes = read.ok()?;
    String::from_str(alloc, text_of(bytes.as_slice())?).ok()
}
