//! What is told of a query text or of a line that is refused.

ghost use Rattle.std.specs.Prelude.{◌≡◌, IfOk, OnOk, OnErr};
ghost use Rattle.core_c.specs.Notes.{put_first, IsTold, line_feed_note, refusal_note};
ghost use Rattle.core_c.specs.Notes.{query_told, refusal_told};

use ceql_grammar::QueryError;
use cer_base::Memory;
use core_service::{LineRefusal, Refused};
use fault_notes::{event_note, query_note};
use std::alloc::Global;

/// Where a query text is refused, or which line is, and how many bytes its note has.
#[repr(C)]
#[derive(Drop)]
pub struct CoreFault {
    /// The line of the query text, from 1; or the number of the line that is refused.
    pub line: u64,
    /// The column in the query text, in bytes from 1; or 0.
    pub column: u64,
    /// How many bytes the note has, whether there was room for all of them or not.
    pub words: usize,
}

/// Copies as many of the values as there is room for.
pub fn copy_first<T: Copy>(from: &[T], room: &mut [T])
    ensures { room.new ≡ put_first from.now room.old }
{
    let count = from.len().min(room.len());
    room[..count].copy_from_slice(&from[..count]);
}

/// Tells the note at the place.
fn tell(line: u64, column: u64, note: &[u8], fault: &mut CoreFault, words: &mut [u8])
    ensures { IsTold (record { line = line; column = column; note = note.now })
        fault.new words.old words.new }
{
    fault.line = line;
    fault.column = column;
    fault.words = note.len();
    copy_first(note, words);
}

/// The note on bytes that were fed as a line and hold a line feed.
fn line_feed_note(alloc: Global, line: u64) -> Result<Vec<u8>, Memory>
    ensures { IfOk result (λ v. v.items ≡ line_feed_note line) }
{
    let note = format!(in alloc; "core: events line {line}: line feed in the line\n")?;
    Ok(note.into_bytes())
}

/// The note on a line that is refused.
fn refusal_note(alloc: Global, refused: Refused) -> Result<Vec<u8>, Memory>
    ensures { IfOk result (λ v. v.items ≡ refusal_note refused) }
{
    match refused.refusal {
        LineRefusal::LineFeed => line_feed_note(alloc, refused.line),
        LineRefusal::Event(fault) => event_note(alloc, refused.line, &fault),
    }
}

/// Tells why a query text is refused. After `Memory` nothing is told.
fn tell_error(
    alloc: Global,
    error: &QueryError,
    fault: &mut CoreFault,
    words: &mut [u8],
) -> Result<(), Memory>
    ensures told { OnOk result (IsTold (query_told error.now) fault.new words.old words.new) }
    ensures fault { OnErr result (fault.new ≡ fault.old) }
    ensures words { OnErr result (words.new ≡ words.old) }
{
    match query_note(alloc, &error.fault, error.place) {
        Ok(note) => {
            tell(
                error.place.line,
                error.place.col,
                note.as_slice(),
                fault,
                words,
            );
            Ok(())
        }
        Err(memory) => Err(memory),
    }
}

/// Tells why a query text is refused, and lets go of the error. After `Memory` nothing is told.
pub fn tell_query(
    alloc: Global,
    error: QueryError,
    fault: &mut CoreFault,
    words: &mut [u8],
) -> Result<(), Memory>
    ensures told { OnOk result (IsTold (query_told error) fault.new words.old words.new) }
    ensures fault { OnErr result (fault.new ≡ fault.old) }
    ensures words { OnErr result (words.new ≡ words.old) }
{
    tell_error(alloc, &error, fault, words)
}

/// Tells why a line is refused. After `Memory` nothing is told.
pub fn tell_refusal(
    alloc: Global,
    refused: Refused,
    fault: &mut CoreFault,
    words: &mut [u8],
) -> Result<(), Memory>
    ensures told { OnOk result (IsTold (refusal_told refused) fault.new words.old words.new) }
    ensures fault { OnErr result (fault.new ≡ fault.old) }
    ensures words { OnErr result (words.new ≡ words.old) }
{
    match refusal_note(alloc, refused) {
        Ok(note) => {
            tell(refused.line, 0, note.as_slice(), fault, words);
            Ok(())
        }
        Err(memory) => Err(memory),
    }
}
