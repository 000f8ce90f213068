//! The command `session`: a script of commands, by which events come and cursors give their answers
//! in the one order in which the lines stand.
//!
//! Promised: `play` ends as `specs/Played` says of its task, with its steps bounded as
//! `specs/Counted` says. `play_script` carries out the lines of a source in order and writes
//! exactly what `specs/Scripts` says; `read_command` answers exactly the command that a line
//! spells, or why it spells none; `Session::run` makes exactly one step of a model whose state is
//! the events so far and the open cursors, or refuses the command for its reason. A script stops in
//! one way (`laws`). It stands on `command_base` for what all commands share, `command_words` for
//! its words, and `query_engine` and `answer_blocks` for the answers.
#![tactic(auto)]

mod command;
pub mod laws;
mod lines;
mod numbers;
mod opened;
mod pulling;
mod script;
pub mod session;
mod session_command;

pub use command::{CommandFault, ScriptCommand, command_text, read_command};
pub use numbers::{MOST_CURSORS, MOST_PULLED};
pub use script::play_script;
pub use session::{Refusal, RunFault, Session};
pub use session_command::play;
