//! The note on a query text that was refused.

ghost use Rattle.std.specs.Prelude.{◌≡◌, IfOk};
ghost use Rattle.fault_notes.specs.Notes.{clock_note, query_note};

use ceql_grammar::QueryFault;
use cer_base::{Location, Memory};
use std::alloc::Global;

/// The note on the name of a clock that some declared type does not have as a whole number.
pub fn clock_note(alloc: Global, name: &str) -> Result<Vec<u8>, Memory>
    ensures { IfOk result (λ v. v.items ≡ clock_note name.now) }
{
    let note = format!(in alloc;
        "core: queries 1:1: clock attribute {name} is not INT in every type\n"
    )?;
    Ok(note.into_bytes())
}

/// `core: queries L:C: ` and the words of the fault.
pub fn query_note(alloc: Global, fault: &QueryFault, place: Location) -> Result<Vec<u8>, Memory>
    ensures { IfOk result (λ v. v.items ≡ query_note fault.now place) }
{
    let Location { line, col } = place;
    let note = format!(in alloc; "core: queries {line}:{col}: {fault}\n")?;
    Ok(note.into_bytes())
}
