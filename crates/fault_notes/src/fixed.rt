//! The notes that hold nothing of a run.

ghost use Rattle.std.specs.Prelude.{◌≡◌};
ghost use Rattle.fault_notes.specs.Notes.{memory_note, open_note, read_note, usage_note, write_note};

use crate::File;

/// The note on words that ask for nothing.
pub fn usage_note() -> &'static [u8]
    ensures { result.now ≡ usage_note }
{
    b"core: usage: core_cli run QUERIES EVENTS [--order walk|sorted] [--compact-every N] [--max-bytes N], core_cli sample SEED COUNT, core_cli session QUERIES SCRIPT, core_cli reorder QUERIES EVENTS CLOCK LATE [--order walk|sorted] [--compact-every N] [--max-bytes N], core_cli explain QUERIES EVENTS QUERY START END [POSITION]..., core_cli save QUERIES EVENTS, core_cli resume QUERIES CHECKPOINT EVENTS [--order walk|sorted] [--compact-every N] [--max-bytes N]\n"
}

/// The note on a file that could not be opened.
pub fn open_note(file: File) -> &'static [u8]
    ensures { result.now ≡ open_note file }
{
    match file {
        File::Queries => b"core: cannot open queries\n",
        File::Checkpoint => b"core: cannot open checkpoint\n",
        File::Events => b"core: cannot open events\n",
    }
}

/// The note on a file that could not be read.
pub fn read_note(file: File) -> &'static [u8]
    ensures { result.now ≡ read_note file }
{
    match file {
        File::Queries => b"core: cannot read queries\n",
        File::Checkpoint => b"core: cannot read checkpoint\n",
        File::Events => b"core: cannot read events\n",
    }
}

/// The note on output that could not be written.
pub fn write_note() -> &'static [u8]
    ensures { result.now ≡ write_note }
{
    b"core: cannot write\n"
}

/// The note on memory that ran out.
pub fn memory_note() -> &'static [u8]
    ensures { result.now ≡ memory_note }
{
    b"core: out of memory\n"
}
