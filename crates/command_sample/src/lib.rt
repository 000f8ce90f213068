//! The command `sample`: two fixed queries over generated events, told in three lines.
//!
//! Promised: `sample` ends as `specs/Ending` says, by the clause of `write_sample`, which writes
//! exactly the lines that `specs/Summary` defines for a seed and a number of events, or after a
//! fault of the sink a proper first part of them; where memory ran out nothing was written.
//! It stands on `command_base` for how a command ends, `command_words` for its words, and
//! `query_engine`, whose answers it counts and adds up.
#![tactic(auto)]

mod command;
mod counting;
pub mod generator;
mod queries;
pub mod summary;

pub use command::sample;
pub use generator::sample_event;
pub use queries::{sample_queries, sample_schema};
pub use summary::write_sample;
