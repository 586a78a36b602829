//! A sink of bytes.
ghost use Rattle.std.specs.Prelude.{◌<◌, IfOk, OnOk, OnErr, length};
ghost use Rattle.std.specs.List.{flat_map};
ghost use Rattle.std.specs.Io.{WritesAtMost};
ghost use Rattle.std.specs.Io.KnownBytes.{WriteAppends, Appends};
ghost use Rattle.ojp_outside.specs.Causes.{HasCause};
ghost use Rattle.ojp_outside.specs.Known.{AppendsPrefix};
ghost use Rattle.ojp_outside.specs.Seen.{SinkView};

use crate::Failed;

/// A write failed, and a prefix of the bytes was written.
#[derive(Clone, Copy, Debug, PartialEq, Eq)]
pub struct WriteFault;

/// A sink of bytes with a count of faults that never falls.
pub trait Sink {
    /// The bytes written, where they are told, and how often a write failed.
    ghost seen: { Self → SinkView };

    /// Writes the first bytes of `from`, at least one where there is one. After `Failed` nothing of
    /// this call was written.
    fn write(&mut self, from: &[u8]) -> Result<usize, Failed>
        ensures bound { WritesAtMost result from.now }
        ensures some { 0 < length from.now → IfOk result (λ count. 0 < count) }
        ensures bytes { WriteAppends (seen self.old).written (seen self.new).written result from.now }
        ensures cause { HasCause (seen self.old).faults (seen self.new).faults result };
}

/// Writes all the bytes, and takes no memory.
///
/// # Errors
///
/// `WriteFault` where a write failed; a prefix of the bytes is written then.
pub fn put_all<S: Sink>(sink: &mut S, bytes: &[u8]) -> Result<(), WriteFault>
    ensures ok { OnOk result (Appends (S.seen sink.old).written (S.seen sink.new).written bytes.now) }
    ensures err { OnErr result (AppendsPrefix (S.seen sink.old).written (S.seen sink.new).written bytes.now) }
    ensures cause { HasCause (S.seen sink.old).faults (S.seen sink.new).faults result }
{
    let mut rest = bytes;
    'writing: while !rest.is_empty() {
        match sink.write(rest) {
            Ok(count) => rest = &rest[count..],
            Err(Failed) => return Err(WriteFault),
        }
    }
    Ok(())
}

/// Writes all the parts, one after another, and takes no memory.
///
/// # Errors
///
/// `WriteFault` where a write failed; a prefix of the parts' bytes is written then.
pub fn put_parts<S: Sink>(sink: &mut S, parts: &[&[u8]]) -> Result<(), WriteFault>
    ensures ok { OnOk result (Appends (S.seen sink.old).written (S.seen sink.new).written (flat_map (λ part. part.now) parts.now)) }
    ensures err { OnErr result (AppendsPrefix (S.seen sink.old).written (S.seen sink.new).written (flat_map (λ part. part.now) parts.now)) }
    ensures cause { HasCause (S.seen sink.old).faults (S.seen sink.new).faults result }
{
    for part in parts {
        match put_all(sink, part) {
            Ok(()) => {}
            Err(WriteFault) => return Err(WriteFault),
        }
    }
    Ok(())
}
