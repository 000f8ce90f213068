//! The notes on an event file that was refused.

ghost use Rattle.std.specs.Prelude.{◌≡◌, IfOk};
ghost use Rattle.fault_notes.specs.Notes.{event_note, too_long_note};

use cer_base::Memory;
use event_reader::EventFault;
use std::alloc::Global;

/// `core: events line N: ` and the words of the fault. Lines are numbered from 1.
pub fn event_note(alloc: Global, line: u64, fault: &EventFault) -> Result<Vec<u8>, Memory>
    ensures { IfOk result (λ v. v.items ≡ event_note line fault.now) }
{
    let note = format!(in alloc; "core: events line {line}: {fault}\n")?;
    Ok(note.into_bytes())
}

/// The note on an event file of so many bytes or more.
pub fn too_long_note(alloc: Global, bytes: u64) -> Result<Vec<u8>, Memory>
    ensures { IfOk result (λ v. v.items ≡ too_long_note bytes) }
{
    let note = format!(in alloc; "core: events longer than {bytes} bytes\n")?;
    Ok(note.into_bytes())
}
