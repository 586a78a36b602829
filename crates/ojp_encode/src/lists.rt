//! Markup and fields, and what stands between them.

ghost use Rattle.std.specs.Prelude.{◌≡◌, [], ◌++◌, All, IsTrue, OnOk};
ghost use Rattle.std.specs.List.{flat_map};
ghost use Rattle.ojp_encode.specs.Writing.{Writes};

use crate::spelled::Spelled;
use arrayvec::ArrayVec;
use ojp_outside::{Sink, WriteFault, put_all, put_parts};

/// Room for the parts of a leg, whose spelling has at most 1,719 bytes.
type Page = ArrayVec<u8, 2_048>;

/// Writes the parts one after another: in one piece, where a page has room for them.
pub fn put<S: Sink>(sink: &mut S, parts: &[&[u8]]) -> Result<(), WriteFault>
    ensures { Writes (S.seen sink.old).written (S.seen sink.new).written (S.seen sink.old).faults (S.seen sink.new).faults
        (flat_map (λ part. part.now) parts.now) result }
{
    let mut page = Page::new();
    if gather(parts, &mut page) {
        put_all(sink, page.as_slice())
    } else {
        put_parts(sink, parts)
    }
}

/// Copies the parts one after another onto an empty page; false where they have no room there.
fn gather(parts: &[&[u8]], page: &mut Page) -> bool
    requires { page.old.items ≡ [] }
    ensures { IsTrue result → page.new.items ≡ flat_map (λ part. part.now) parts.now }
{
    for part in parts {
        match page.try_extend_from_slice(part) {
            Ok(()) => {}
            Err(_) => return false,
        }
    }
    true
}

/// Writes what stands before, the inner part, and what stands behind.
pub fn put_around<S: Sink, T: Spelled>(
    sink: &mut S,
    before: &[&[u8]],
    inner: &T,
    behind: &[u8],
) -> Result<(), WriteFault>
    requires { T.is_well inner.now }
    ensures spelled { Writes (S.seen sink.old).written (S.seen sink.new).written (S.seen sink.old).faults (S.seen sink.new).faults
        (flat_map (λ part. part.now) before.now ++ (T.bytes inner.now ++ behind.now)) result }
    ensures fits { OnOk result (T.fits inner.now) }
{
    put(sink, before)?;
    inner.put(sink)?;
    put_end(sink, behind)
}

/// Writes what stands before, the items, and what stands behind.
pub fn put_list<S: Sink, T: Spelled>(
    sink: &mut S,
    before: &[&[u8]],
    items: &[T],
    behind: &[u8],
) -> Result<(), WriteFault>
    requires { All T.is_well items.now }
    ensures spelled { Writes (S.seen sink.old).written (S.seen sink.new).written (S.seen sink.old).faults (S.seen sink.new).faults
        (flat_map (λ part. part.now) before.now ++ (flat_map T.bytes items.now ++ behind.now)) result }
    ensures fits { OnOk result (All T.fits items.now) }
{
    put(sink, before)?;
    put_each(sink, items)?;
    put_end(sink, behind)
}

/// Writes the items one after another.
fn put_each<S: Sink, T: Spelled>(sink: &mut S, items: &[T]) -> Result<(), WriteFault>
    requires { All T.is_well items.now }
    ensures spelled { Writes (S.seen sink.old).written (S.seen sink.new).written (S.seen sink.old).faults (S.seen sink.new).faults
        (flat_map T.bytes items.now) result }
    ensures fits { OnOk result (All T.fits items.now) }
{
    for item in items {
        item.put(sink)?;
    }
    Ok(())
}

fn put_end<S: Sink>(sink: &mut S, text: &[u8]) -> Result<(), WriteFault>
    ensures { Writes (S.seen sink.old).written (S.seen sink.new).written (S.seen sink.old).faults (S.seen sink.new).faults
        text.now result }
{
    put_all(sink, text)
}
