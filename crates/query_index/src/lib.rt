//! Which queries an event can concern: a first look before any of them is asked.
//!
//! Promised: `LeafIndex::mark` marks each query that has a leaf which can read the event, and no other, and
//! tells which leaves of it can. So a query that is not marked has no leaf that can. It looks at leaves
//! of the event's type alone, where there are many only at those that the event's values may concern,
//! and first at the range of whole numbers that a leaf's tests ask for and at what the text
//! that they ask for opens with: only where these let the event through is what is left of the tests
//! held against the event. It takes no memory. It stands on `query_leaves` for leaves and on
//! `predicate_bits` for tests.
#![tactic(auto)]

mod buckets;
mod choosing;
mod index;
mod leaf_index;
mod marks;
mod parting;
mod rows;
mod runs;
mod shared_tests;
mod sharing;
mod text_prefilters;

pub use leaf_index::LeafIndex;
pub use rows::LeafRow;
