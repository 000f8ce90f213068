//! Queries as terms, and what they mean: predicates of an event, valuations of a formula, and the
//! complex events that a query has at a position.
//!
//! The meaning stands in `specs/Predicate`, `specs/Meaning` and `specs/Answers`, and when a query is
//! checked for a schema in `specs/Checked`; they know no automaton, run or node. `laws` says what
//! follows of the meaning; `reading` tells whether a query reads an event, and an attribute's value.
//! It stands on `stream_schema` for types and events.
#![tactic(auto)]

ghost use Rattle.std.specs.Prelude.{◌≡◌, List, ℕ};

use cer_base::{Listed, Location, Text};
use stream_schema::Value;

pub mod laws;
pub mod reading;

pub use stream_schema::Op;

/// A name as it stands in a text. Its meaning looks at the text alone.
#[derive(Drop, Debug)]
pub struct Name {
    pub text: Text,
    pub place: Location,
}

pub type Names = Listed<Name>;

/// A predicate on one event.
#[derive(Drop, Debug)]
pub enum Pred {
    Cmp(Name, Op, Value),
    Not(Box<Pred>),
    All(Vec<Pred>),
    Any(Vec<Pred>),
}

/// A condition on a valuation.
#[derive(Drop, Debug)]
pub enum Filter {
    On(Name, Pred),
    All(Vec<Filter>),
    Any(Vec<Filter>),
}

#[derive(Drop, Debug)]
pub enum Postfix {
    Plus,
    NextPlus,
    Named(Name),
    Keep(Names),
}

/// A further part of a chain. A tight one has no event of the substream before it.
#[derive(Drop, Debug)]
#[cycle(formula)]
pub struct Link {
    pub tight: bool,
    pub next: Formula,
}

#[derive(Drop, Debug)]
#[cycle(formula)]
pub enum Formula {
    Of(Name),
    Chain(Vec<Formula>),
    Linked(Box<Formula>, Vec<Link>),
    Either(Vec<Formula>),
    Post(Box<Formula>, Vec<Postfix>),
    Under(Box<Formula>, Vec<Filter>),
}

#[derive(Drop, Debug)]
pub enum Window {
    Free,
    Events(u64),
    Clock(Name, i128),
}

#[derive(Drop, Debug)]
pub struct Query {
    pub select: Option<Names>,
    pub strict: bool,
    pub any: Option<u64>,
    pub streams: Names,
    pub formula: Formula,
    pub partition: Names,
    pub window: Window,
    pub place: Location,
}
