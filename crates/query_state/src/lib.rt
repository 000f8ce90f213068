//! What is kept of one query, a part of the engine: its states, the nodes of its open matches, and its
//! keys with the lists of each; and what an event makes of these, in two phases. It keeps no clock: that
//! is of the events, and is handed over where it is needed.
//!
//! Promised: what stands for some events stands for one more once the event is committed, and a
//! refusal leaves everything as it was; a cursor gives exactly the recent members of the lists of
//! the last event's key; the steps and the nodes of an event are bounded by the states that were
//! found. It stands on `event_update` for the lists of a key, `window_clock` and `partition_table` for
//! the event, and `all_or_none` for the two phases.
#![tactic(auto)]

pub mod dropping;
pub mod lists;
pub mod matcher;
pub mod matches;
mod own;
mod reading;
pub mod state;
mod tables;
mod types;

pub use state::QueryState;
