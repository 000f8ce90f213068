//! The command `explain`: why a complex event is an answer over an event file.
//!
//! Promised: `explain` ends as `specs/Explained` says of its task. `write_explanation` reads all
//! events of a file and writes by which events, under which names, a complex event came about, or
//! that it is no answer, as `specs/Explanations` says. Where the events stop before the end, or
//! memory runs out, nothing is written; after a fault of the sink it has taken a proper first part
//! (`specs/Written`).
//! It stands on `command_base` for what all commands share, `event_run` for the events,
//! `match_explain` for the explanation, and `answer_text` for its lines.
#![tactic(auto)]

mod command;
mod explanation;
mod written;

pub use command::explain;
pub use written::write_explanation;
