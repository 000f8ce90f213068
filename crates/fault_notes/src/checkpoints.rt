//! The note on a checkpoint that was refused.

ghost use Rattle.std.specs.Prelude.{◌≡◌, IfOk};
ghost use Rattle.fault_notes.specs.Notes.{checkpoint_note};

use cer_base::Memory;
use std::alloc::Global;

/// `core: checkpoint line N: ` and what is wrong with the line. Lines are numbered from 1.
pub fn checkpoint_note(alloc: Global, line: u64, words: &str) -> Result<Vec<u8>, Memory>
    ensures { IfOk result (λ v. v.items ≡ checkpoint_note line words.now) }
{
    let note = format!(in alloc; "core: checkpoint line {line}: {words}\n")?;
    Ok(note.into_bytes())
}
