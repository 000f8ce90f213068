//! Why a complex event is one: by which events, under which names, it came about.
//!
//! Promised: `explain` gives a valuation of the query's formula that leaves exactly the marked
//! positions, and none exactly where the complex event is no answer of the query (`specs/Explains`).
//! The only other answer is that memory ran out. It searches the runs of the query's leaves, a leaf
//! and an event at a time, so it takes no time that is exponential in the events.
//! It stands on `cel_terms` for the meaning, `query_leaves`, `predicate_bits` and `cea_compile` for
//! the leaves and which may follow which, and `cel_plain` for the substream and the window.
#![tactic(auto)]

use cer_base::{Listed, Pos, Text};

mod bindings;
mod explanation;
mod finishing;
mod leaf_names;
mod moves;
mod spans;
mod turns;
mod walking;

pub use explanation::explain;

/// The positions of a set, ascending.
pub type Positions = Listed<Pos>;

/// A name, and the positions in its set.
#[derive(Drop)]
pub struct Binding {
    pub name: Text,
    pub positions: Positions,
}

/// The names whose sets are not empty, ascending by their bytes.
pub type Valuation = Listed<Binding>;
