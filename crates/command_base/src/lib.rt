//! What all commands share: how they open their files, each in its turn, by which causes they end,
//! and what a command is to the program.
//!
//! Promised: `open`, `take_whole`, `read_accepted` and `read_engine` ask the host for one file
//! once, and give what it holds or the cause that it does not; `stop_of` gives the cause by which
//! what ran over a source ended. `specs/Tasks` says what a command is, and `specs/Ending` in one
//! relation how it ended: the clauses of the top call, `core_top::core_main`, follow from that.
//! It stands on `ceql_parser` for query texts, `stream_answers` for how a run over a source may
//! end, and `checkpoint_text` for the faults of checkpoints.
#![tactic(auto)]

use ceql_parser::QueryFault;
use cer_base::{Location, Text};
use checkpoint_text::CheckpointFault;
use event_reader::EventFault;
pub use fault_notes::File;
pub use files::MOST_READ;
pub use opening::{Stop, leaving, open, stop_of, take_whole};
pub use queries::{read_accepted, read_engine};

mod files;
mod opening;
mod queries;

/// Why the program ended.
#[derive(Drop)]
pub enum Cause {
    /// All was read and all answers were written: status 0.
    Fine,
    /// The words ask for nothing that the program does: status 2.
    Usage,
    /// The query text was refused, at this place: status 3.
    Queries { fault: QueryFault, place: Location },
    /// The clock of a run over late events is not a whole number in each declared type of the query
    /// text, which was accepted: status 3.
    ClockKind { name: Text },
    /// The event file was refused, or the script, at this line, from 1: status 4.
    Event { line: u64, fault: EventFault },
    /// The file could not be opened. The host's count of faults for its name rose in the call,
    /// from `before` to `after`: status 5.
    OpenFault { file: File, before: u64, after: u64 },
    /// The file could not be read. The source's count of faults rose from 0 to `after`: status 5.
    ReadFault { file: File, after: u64 },
    /// The output could not be written. Its count of faults rose in the call, from `before` to
    /// `after`: status 6.
    WriteFault { before: u64, after: u64 },
    /// Memory ran out: status 7.
    Memory,
    /// The event file, or the script, has this many bytes or more, which is what `--max-bytes` says
    /// or 2^40: status 8.
    InputTooLong { taken: u64 },
    /// The checkpoint was refused, at this line, from 1: status 9.
    Checkpoint { line: u64, fault: CheckpointFault },
}
