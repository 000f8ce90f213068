//! The meaning of a query, computed plainly, by the definitions themselves.
//!
//! Promised: `answers::answers` lists exactly the complex events of a query at a position, each
//! once; `matches::valuations` exactly the valuations of a formula with their intervals;
//! `predicate::holds` tells exactly whether a predicate holds of an event. The only other answer is
//! memory that ran out. It may take exponential time, and ends.
//! It stands on `cel_lists` for the lists that it makes, and on `cel_terms` and `stream_schema`.
#![tactic(auto)]

pub mod answers;
pub mod copies;
pub mod filter;
pub mod marks;
pub mod matches;
pub mod postfix;
pub mod predicate;
pub mod sequence;
pub mod single;
pub mod substream;
pub mod window;
