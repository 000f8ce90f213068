//! The note of a cause, written to standard error.

ghost use Rattle.std.specs.Prelude.{◌≡◌, ◌⊎◌, OnOk, OnErr};
ghost use Rattle.command_base.specs.Notes.{note_of, TookNote, NeedsMemory, IsToldAs};

use cer_base::Memory;
use cer_outside::Sink;
use cer_outside::writing::put_all;
use command_base::{Cause, Stop};
use fault_notes::{
    checkpoint_note, clock_note, event_note, memory_note, open_note, query_note, read_note,
    too_long_note, usage_note, write_note,
};
use std::alloc::Global;

/// Writes the bytes. A fault is told by the sink's count alone.
fn put<N: Sink>(notes: &mut N, note: &[u8])
    ensures { TookNote (N.taken notes.old) (N.taken notes.new)
        (N.faults notes.old) (N.faults notes.new) note.now }
{
    let _ = put_all(notes, note);
}

/// Writes the note of the cause. Memory may run out before one that tells a text, a line or a
/// number; then nothing was written.
fn write_note_of<N: Sink>(alloc: Global, notes: &mut N, cause: &Cause) -> Result<(), Memory>
    ensures took { OnOk result (TookNote (N.taken notes.old) (N.taken notes.new)
        (N.faults notes.old) (N.faults notes.new) (note_of cause.now)) }
    ensures refused { OnErr result (NeedsMemory cause.now) }
    ensures unasked { OnErr result (notes.new ≡ notes.old) }
{
    match cause {
        Cause::Fine => put(notes, b""),
        Cause::Usage => put(notes, usage_note()),
        Cause::Queries { fault, place } => {
            let note = query_note(alloc, fault, *place)?;
            put(notes, note.as_slice());
        }
        Cause::ClockKind { name } => {
            let note = clock_note(alloc, name.as_str())?;
            put(notes, note.as_slice());
        }
        Cause::Event { line, fault } => {
            let note = event_note(alloc, *line, fault)?;
            put(notes, note.as_slice());
        }
        Cause::InputTooLong { taken } => {
            let note = too_long_note(alloc, *taken)?;
            put(notes, note.as_slice());
        }
        Cause::Checkpoint { line, fault } => {
            let note = checkpoint_note(alloc, *line, fault.words())?;
            put(notes, note.as_slice());
        }
        Cause::OpenFault { file, .. } => put(notes, open_note(*file)),
        Cause::ReadFault { file, .. } => put(notes, read_note(*file)),
        Cause::WriteFault { .. } => put(notes, write_note()),
        Cause::Memory => put(notes, memory_note()),
    }
    Ok(())
}

/// Writes the note of how the call ended. Where there is no memory for it, memory is the cause.
pub fn noted<S: Drop, N: Sink>(alloc: Global, notes: &mut N, stop: Stop<S>) -> Stop<S>
    ensures stop { IsToldAs stop.cause stop.failed result.cause result.failed }
    ensures left { ((result.cause ≡ stop.cause) × (result.left ≡ stop.left))
        ⊎ ((result.cause ≡ Cause.Memory) × (result.left ≡ None)) }
    ensures took { TookNote (N.taken notes.old) (N.taken notes.new)
        (N.faults notes.old) (N.faults notes.new) (note_of result.cause) }
{
    match write_note_of(alloc, notes, &stop.cause) {
        Ok(()) => stop,
        Err(Memory) => {
            put(notes, memory_note());
            Stop::of(Cause::Memory)
        }
    }
}
