//! Which leaves of a query can read an event, as a set of their numbers.
//!
//! Promised: `Conditions::fill` puts in exactly the numbers of the leaves whose type is the event's
//! and whose tests hold of it, without taking memory, and looks at no leaf of another type. What the
//! range of a leaf's tests leaves to test where an event has a number of it is worked out once
//! (`checks`).
//! It stands on `query_leaves` for leaves and `stream_schema` for events.
#![tactic(auto)]

pub mod checks;
mod conditions;
mod groups;
pub mod holding;
pub mod outcomes;
pub mod ranges;
pub mod settling;
pub mod spans;

pub use conditions::Conditions;
