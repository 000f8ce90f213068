//! The engine and what stands over it, as tests. Beside what was worked out by hand, and beside the
//! definition as `cel_plain` computes it: queries from their texts, events from their lines, and the
//! answers after each event. Then the lines of answers and their blocks, where a run ends, what stands
//! written then, and what the commands of a session are and do. Nothing else stands here.
//! It stands on `query_engine`, `cel_plain`, `ceql_parser` and `event_reader`, on `answer_text`,
//! `answer_blocks`, `event_run`, `stream_answers` and `command_session`, and makes queries by chance with
//! `rand_pcg`.
#![tactic(auto)]

#[cfg(test)]
mod held;
#[cfg(test)]
mod rows;
#[cfg(test)]
mod tests;
