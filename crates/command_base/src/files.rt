//! The files, each read whole.

ghost use Rattle.std.specs.Prelude.{◌≡◌, ◌+◌, ◌-◌, ◌<◌, ◌≤◌, ℕ, List, [], length, vec_len, IfOk};
ghost use Rattle.cer_outside.specs.Causes.{HasCauseOrMemory};
ghost use Rattle.cer_outside.specs.Bytes.{ReadsOn, IsAtEnd};
ghost use Rattle.command_base.specs.SourceBytes.{AreFirst, IsRest, TookAtMost};

use cer_base::limits::LONGEST_TEXT;
use cer_base::{Memory, OrMemory};
use cer_outside::{Failed, Source};
use std::alloc::Global;

/// The most bytes of a file that are read: one more than a query text may have.
pub const MOST_READ: usize = LONGEST_TEXT + 1;

/// The most bytes that one read asks for.
const PIECE: usize = 65_536;

/// Reads the source until its end or until `MOST_READ` bytes.
pub fn read_whole<S: Source>(alloc: Global, source: &mut S) -> Result<Vec<u8>, OrMemory<Failed>>
    ensures bytes { IfOk result (λ bytes. AreFirst MOST_READ (S.left source.old) bytes.items) }
    ensures rest { IsRest (S.left source.old) (S.left source.new) }
    ensures within { TookAtMost MOST_READ (S.left source.old) (S.left source.new) }
    ensures cause { HasCauseOrMemory (S.faults source.old) (S.faults source.new) result }
{
    let mut bytes = Vec::new(alloc);
    let mut buffer = buffer_of(alloc, PIECE)?;
    while bytes.len() < MOST_READ {
        match read_piece(source, buffer.as_mut_slice(), &mut bytes) {
            Ok(0) => return Ok(bytes),
            Ok(_) => {}
            Err(stop) => return Err(stop),
        }
    }
    Ok(bytes)
}

/// A buffer of so many bytes.
fn buffer_of(alloc: Global, len: usize) -> Result<Vec<u8>, Memory>
    ensures { IfOk result (λ buffer. vec_len buffer ≡ len) }
{
    Ok(vec![in alloc; 0u8; len]?)
}

/// Reads once, at most up to `MOST_READ` bytes in all, puts what came at the end of the bytes, and
/// says how many came.
fn read_piece<S: Source>(
    source: &mut S,
    buffer: &mut [u8],
    bytes: &mut Vec<u8>,
) -> Result<usize, OrMemory<Failed>>
    requires some { 0 < length buffer.old }
    requires room { vec_len bytes.old < MOST_READ }
    ensures read { IfOk result (λ n. ReadsOn (S.left source.old) (S.left source.new)
        bytes.old.items bytes.new.items) }
    ensures count { IfOk result (λ n. vec_len bytes.new ≡ vec_len bytes.old + n) }
    ensures limit { IfOk result (λ n. vec_len bytes.new ≤ MOST_READ) }
    ensures end { IfOk result (λ n. n ≡ 0 → IsAtEnd (S.left source.new)) }
    ensures rest { IsRest (S.left source.old) (S.left source.new) }
    ensures within { TookAtMost (MOST_READ - vec_len bytes.old) (S.left source.old)
        (S.left source.new) }
    ensures cause { HasCauseOrMemory (S.faults source.old) (S.faults source.new) result }
{
    let want = buffer.len().min(MOST_READ - bytes.len());
    let count = match source.read(&mut buffer[..want]) {
        Ok(count) => count,
        Err(failed) => return Err(OrMemory::Fault(failed)),
    };
    bytes.extend_from_slice(&buffer[..count])?;
    Ok(count)
}
