//! The grammar of query texts: which tokens are which statements.
//!
//! Promised: `parse` gives exactly the statements of the tokens, or exactly the fault of their nesting or
//! of the first token that does not fit, with its place; the only other answer is that memory ran
//! out. Which tokens are which statements is a relation, `specs/Statements` and what it stands on; the answer of
//! tokens stands in `specs/Texts`. That the grammar is unambiguous, and what it sees to in statements, is
//! proved in `laws`.
//! It stands on `ceql_lexer` for tokens and on `cel_terms` for terms.
#![tactic(auto)]

mod conditions;
mod declarations;
mod depth;
mod faults;
mod filters;
mod formulas;
pub mod laws;
mod names;
mod parsing;
mod predicates;
mod selects;
mod terms;
mod tokens;
mod values;

pub use faults::{QueryError, QueryFault};
pub use parsing::parse;
pub use terms::{AttrDecl, AttrDecls, KindDecl, NumberAt, Script, Select, Statement, Statements};
