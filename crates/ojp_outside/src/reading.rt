//! Reading a source up to its end, or to a limit.
ghost use Rattle.std.specs.Prelude.{◌≡◌, ◌≢◌, ◌<◌, ◌≤◌, ◌++◌, ℕ, List, IfOk, OnErr, IsTrue, length, vec_len, Err};
ghost use Rattle.std.specs.Io.KnownBytes.{Consumes, IsAtEnd};
ghost use Rattle.ojp_outside.specs.Causes.{Rose};
ghost use Rattle.ojp_outside.specs.Known.{LosesPrefix};

use crate::{Failed, Source};
use std::alloc::Global;

/// Why a source was not read to its end.
#[derive(Clone, Copy, Debug, PartialEq, Eq)]
pub enum SourceRefused {
    /// A read failed.
    Failed,
    /// Memory ran out.
    NoMemory,
}

/// Reads to the end of the input, or until `most` bytes are there.
///
/// # Errors
///
/// `Failed` where a read failed, and `NoMemory`; the bytes read so far are lost then.
pub fn read_all<S: Source>(
    alloc: Global,
    source: &mut S,
    most: usize,
) -> Result<Vec<u8>, SourceRefused>
    ensures within { IfOk result (λ bytes. vec_len bytes ≤ most) }
    ensures taken { IfOk result (λ bytes. Consumes (S.seen source.old).left (S.seen source.new).left bytes.items) }
    ensures at_end { IfOk result (λ bytes. vec_len bytes < most → IsAtEnd (S.seen source.new).left) }
    ensures ended { IfOk result (λ bytes. vec_len bytes < most → IsTrue (S.seen source.new).ended) }
    ensures lost { OnErr result (LosesPrefix (S.seen source.old).left (S.seen source.new).left) }
    ensures later { (S.seen source.old).faults ≤ (S.seen source.new).faults }
    ensures at_rest { result ≢ Err SourceRefused.Failed → (S.seen source.new).faults ≡ (S.seen source.old).faults }
    ensures failed { result ≡ Err SourceRefused.Failed → Rose (S.seen source.old).faults (S.seen source.new).faults }
{
    let mut taken: Vec<u8> = Vec::new(alloc);
    let mut piece = [0u8; 8192];
    'reading: while taken.len() < most {
        let room = (most - taken.len()).min(8192);
        let count = match source.read(&mut piece[..room]) {
            Ok(count) => count,
            Err(Failed) => return Err(SourceRefused::Failed),
        };
        if count == 0 {
            break;
        }
        match taken.extend_from_slice(&piece[..count]) {
            Ok(()) => {}
            Err(_) => return Err(SourceRefused::NoMemory),
        }
    }
    Ok(taken)
}
