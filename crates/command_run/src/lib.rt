//! The command `run`: the answers of a query file's queries over an event file.
//!
//! Promised: `run` ends as `specs/Runs` says of its task: the output has taken exactly the answers,
//! or a first part of them by the cause, its steps are bounded, and with status 0 it leaves the
//! engine that stands for the file.
//! It stands on `command_base` for what all commands share, `stream_answers` for the answers over
//! an event file, and `command_words` for its words.
#![tactic(auto)]

mod command;

pub use command::run;
