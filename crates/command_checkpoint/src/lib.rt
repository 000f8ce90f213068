//! The commands `save` and `resume`: the checkpoint of an event file, and the answers over the
//! events that come after those of a checkpoint.
//!
//! Promised: `save` and `resume` end as `specs/Saving` and `specs/GoingOn` say of their tasks; the
//! steps of `resume` are bounded as `specs/Counted` says, and it leaves the engine of `specs/Left`.
//! `save_events` writes what `specs/Saved` says of the events of a file, and `resume_answers` what
//! `specs/Resumed` says of those after a history. What is written is read again as the history of
//! exactly these events, and a run in two parts writes what one over both files writes (`laws`).
//! It stands on `command_base` for what all commands share, `checkpoint_text` for what is kept and
//! its text, `event_run` for the events and `stream_answers` for the answers.
#![tactic(auto)]

pub mod laws;
mod resume_command;
mod resumed;
mod save_command;
mod saving;

pub use resume_command::resume;
pub use resumed::resume_answers;
pub use save_command::save;
pub use saving::save_events;
