//! The notes that the program leaves on standard error: each text has its home here.
//!
//! Promised: each call gives exactly the bytes that `specs/Notes` says, with their line feed, or
//! memory ran out. The texts that hold nothing of a run are slices and take no memory.
//! It stands on `ceql_grammar` and `event_reader` for the faults and their words.
#![tactic(auto)]

mod checkpoints;
mod events;
mod fixed;
mod queries;

pub use checkpoints::checkpoint_note;
pub use events::{event_note, too_long_note};
pub use fixed::{memory_note, open_note, read_note, usage_note, write_note};
pub use queries::{clock_note, query_note};

/// A file that the program reads.
#[derive(Debug, Clone, Copy, PartialEq, Eq)]
pub enum File {
    /// The query text.
    Queries,
    /// The checkpoint that a run goes on from.
    Checkpoint,
    /// The events.
    Events,
}
