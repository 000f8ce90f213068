//! The answers of all queries at the engine's last position, as the lines that are written for them.
//!
//! Promised: `push_blocks` puts exactly the blocks of the queries after a text, each in order;
//! `write_blocks` writes them to a sink as the engine finds them, each line before the next answer
//! is pulled; a query that asks for ANY so many has that many lines, or one for each answer where
//! there are fewer. It stands on `query_engine` and `answer_text`.
#![tactic(auto)]

pub mod laws;
mod pulling;
pub mod sorted;
pub mod walk;

pub use sorted::push_blocks;
pub use walk::write_blocks;
