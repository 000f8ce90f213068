//! The command `reorder`: the answers over the events of a file that come late.
//!
//! The clock of an event is one attribute, and an event may come late by a bound: it waits until no
//! earlier one can come. Promised: `reorder` ends as `specs/Reordered` says of its task.
//! `write_late` runs a stream whose events come through a gate: it gives an engine the events of a
//! file by their clocks, ties in the order of their lines, and writes, after each, the answers of
//! all queries there, as `specs/Late` and `specs/LateOutput` say. Which events a file gives is one
//! thing, and every file gives some (`laws`). It stands on `command_base` for what all commands
//! share, `reorder_gate` for the events that wait and `stream_answers` for the answers.
#![tactic(auto)]

mod command;
mod feeding;
mod gated;
mod late;
pub mod laws;

pub use command::reorder;
pub use late::write_late;
