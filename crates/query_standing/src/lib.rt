//! A query state along events: which definitions say that it stands for them, and the laws that tie
//! it to the query's answers.
//!
//! Promised, as laws: where what is kept stands for the events, the recent members of the accepting
//! states' lists are exactly the query's answers at the last event, each once; it stands for one
//! event more in each of the cases of an event. It has no code of its own. It stands on `cel_terms`
//! for answers, `cea_compile` for runs, `event_update` for the lists of a key, and `tecs_enumerate`
//! for what a cursor gives.
#![tactic(auto)]

pub mod laws;
