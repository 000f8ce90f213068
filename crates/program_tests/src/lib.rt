//! The program, as tests. Whole calls over files in memory: query text, event lines and words go in,
//! and status, output and note come out. And what the commands stand on: the words that ask for them,
//! answers over late events, checkpoints, and the queries of the sample. Nothing else stands here.
//!
//! It stands on `core_calls`, which makes the calls, on `command_words`, `command_reorder`,
//! `checkpoint_text`, `command_checkpoint` and `command_sample`.
#![tactic(auto)]

#[cfg(test)]
mod tests;
