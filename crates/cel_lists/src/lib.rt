//! The valuations of a formula and the answers of a query as lists: which lists they are, step by
//! step, and that these have exactly what the meaning says.
//!
//! Promised: each query has a list of exactly its answers at each position (`laws`). The lists stand
//! in `specs/Lists` and `specs/Below`; nobody needs to believe them. Its code is the types of their
//! members. It stands on `cel_terms`.
#![tactic(auto)]

ghost use Rattle.std.specs.Prelude.{◌≡◌};

use cer_base::{Listed, Pos, Text};
use std::marker::Model;

pub mod laws;

/// What a valuation says of one position: the names whose sets have it.
#[derive(Drop, Debug)]
pub struct BoundAt {
    position: Pos,
    names: Vec<Text>,
}

impl Model for BoundAt {
    ghost use Rattle.cel_terms.specs.Meaning.{Bound};

    ghost Value = { Bound };

    ghost view = { λ b. record { position = b.position; names = b.names.items } };
}

impl BoundAt {
    /// The position with these names.
    pub fn new(position: Pos, names: Vec<Text>) -> BoundAt
        ensures { result ≡ record { position = position; names = names.items } }
    {
        BoundAt { position, names }
    }

    /// The position, from 0 in the whole stream.
    pub fn position(&self) -> Pos
        ensures { result ≡ self.now.position }
    {
        self.position
    }

    /// The names whose sets have the position.
    pub fn names(&self) -> &[Text]
        ensures { result.now ≡ self.now.names }
    {
        self.names.as_slice()
    }
}

/// A valuation with the positions where its interval starts and ends.
#[derive(Drop, Debug)]
pub struct Match {
    pub start: Pos,
    pub end: Pos,
    pub bounds: Listed<BoundAt>,
}
