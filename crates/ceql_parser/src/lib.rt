//! A query text, read: its schema and its checked queries, or its first fault.
//!
//! Promised: `read_queries` gives exactly what the text declares and asks, or exactly its first fault
//! with its place, and no other answer exists; each query that it gives is checked for the schema that
//! it gives. `check` is exact on statements in the same way; the only other answer is that memory ran
//! out.
//! What the answer of a text is stands in `specs/QueryTexts`; which test of statements fails first in
//! `specs/ScriptFaults`. That what is accepted is checked is proved in `promises`.
//! It stands on `ceql_lexer` for tokens, `ceql_grammar` for statements, whose calls it hands on,
//! `cel_terms` for terms and `stream_schema` for the schema.
#![tactic(auto)]

mod checking;
mod declaring;
mod filter_checks;
mod formula_checks;
mod leaf_counts;
mod name_checks;
mod name_sets;
mod pred_checks;
pub mod promises;
mod query_texts;
mod query_types;
mod refusals;
mod schema_lookups;
mod select_checks;

pub use ceql_grammar::{
    AttrDecl, AttrDecls, KindDecl, NumberAt, QueryError, QueryFault, Script, Select, Statement,
    Statements, laws, parse,
};
pub use checking::{Accepted, check, check_statements};
pub use query_texts::read_queries;
