//! The program, from the words of its command line to the bytes that it writes.
//!
//! Promised: with status 0 the output of a run is exactly the answers of the query file over the
//! event file, each once, that of `reorder` the answers over its events in the order of their
//! clocks, that of `explain` is why one of them is an answer, that of `session` the steps of a
//! machine by the commands of its script, that of `save` a checkpoint of its events, and that of
//! `resume` the answers of the checkpoint's events and then those of its event file, after the
//! former; any other status names its one cause. These are clauses of `core_main`, in the
//! definitions of `command_base` and of the commands.
//! It stands on `command_words` for its words, a crate for each command, and `fault_notes` for its
//! notes.
#![tactic(auto)]

pub use command_base::{Cause, File};
use query_engine::Engine;
pub use top::core_main;

mod notes;
pub mod sure;
mod top;

/// How a call of the program ended.
#[derive(Drop)]
pub struct ProgramEnd<S> {
    /// The exit status, from 0 to 9.
    pub status: u8,
    pub cause: Cause,
    /// The source that failed, where the cause is a `ReadFault`.
    pub failed: Option<S>,
    /// The engine of a run whose status is 0, over late events or not.
    pub left: Option<Engine>,
}
