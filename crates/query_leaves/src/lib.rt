//! The leaves of a query: the types that its formula reads, in order, each with the tests of all
//! filters that speak of it, and the shape of the formula over their numbers.
//!
//! Promised: `leaves_of` gives exactly the leaves of a query's tree, and its shape; those of a
//! checked query are lawful. The only other answer is that memory ran out. What a query means stands
//! in `cel_terms`; here stands what the automaton needs of it. It stands on `cel_terms` for terms and
//! `stream_schema` for types and values.
#![tactic(auto)]

use cel_terms::Op;
use cer_base::Listed;
use stream_schema::{TypeId, Value};

mod context;
pub mod digest;
mod draft;
mod expand;
mod leaf_of;
mod leaf_under;
mod numbering;
mod occurrence;
mod own_name;
mod query;
mod shared_tests;
mod test_of;

pub use query::leaves_of;
pub use shared_tests::Tests;

/// A test of one event, whose type's attributes are known by their places.
#[derive(Drop, Debug)]
pub enum Test {
    /// Holds of no event: the type lacks the attribute.
    No,
    /// The value at this place in the event, from 0, compares so with the literal.
    Cmp(u64, Op, Value),
    Not(Box<Test>),
    All(Vec<Test>),
    Any(Vec<Test>),
}

/// An occurrence of a type in a formula.
#[derive(Drop)]
pub struct Leaf {
    pub ty: TypeId,
    /// All of them hold of each event that it reads. Other leaves may have them too.
    pub tests: Tests,
    /// Whether the position that it reads is in the set of some name in the end.
    pub marked: bool,
}

/// A formula over the numbers of its leaves, from 0. It nests as the query's formula and its filters
/// do: chains and choices are lists.
#[derive(Drop, Debug)]
#[cycle(shape)]
pub enum Shape {
    Leaf(u64),
    /// One part after another; where there is none it reads nothing.
    Chain(Vec<ShapePart>),
    /// One of them; where there is none it reads nothing.
    Either(Vec<Shape>),
    /// One or more, each after the one before.
    Plus { tight: bool, part: Box<Shape> },
}

/// A part of a chain. Where tight, no event of the substream lies between it and the part before;
/// of the first part this says nothing.
#[derive(Drop, Debug)]
#[cycle(shape)]
pub struct ShapePart {
    pub tight: bool,
    pub part: Shape,
}

/// The leaves of a query, from left to right, and its shape over their numbers.
#[derive(Drop)]
pub struct Leaves {
    pub list: Listed<Leaf>,
    pub shape: Shape,
    pub strict: bool,
}
