//! Whole calls of the program over files in memory, for tests: how a call is made, what it answers,
//! and what it leaves. No test stands here, so that this is proved once, for all rows.
//!
//! Rows run over a host whose calls may fail, compactions also over one that never does. It stands on
//! `core_top`.
#![tactic(auto)]

pub mod calls;
pub mod left;
