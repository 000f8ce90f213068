//! The position automaton of a query.
//!
//! Promised: `compile` gives exactly the position automaton of the leaves, whose first, last and
//! following leaves are those of the query's formula; and a query's answers are exactly the accepted
//! determinised runs of that automaton (`laws`). It stands on `cel_terms` and `cea_determinise`.
#![tactic(auto)]

mod building;
mod ends;
mod first;
mod followers;
pub mod laws;

pub use building::compile;
pub use first::first_of;
