//! Position automata of patterns, lazily determinised.
//!
//! Promised: the successors of a state on an event are exactly those of the definition
//! (`specs/Runs`, and `specs/Strict` for the phase); a state keeps its number, and no state has
//! two. Events that the same leaves can read are of one class, which is looked up once an event; a
//! pair of state and class that is known is then one look-up of two numbers, without memory. What a
//! whole row of states does on a class may be kept, and is then found at once. Each look-up, of a
//! class, of a row or of a pair, is a step.
//!
//! It stands on `cer_base` for sets of leaves and counts of steps, on `indexmap` for its tables,
//! and on `smallvec` for the rows of states.
#![tactic(auto)]

pub mod cea;
mod keys;
pub mod lazy_dfa;
mod places;
pub mod rows;
mod sets;
mod successor;
pub mod table;
