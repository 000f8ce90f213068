//! What a text has, as tests show it, and rows of texts that are held against it.

use crate::tests::{repeated, same};
use ceql_parser::{QueryError, read_queries};
use cer_base::OrMemory;
use std::alloc::{AllocError, Global};
use std::process::Abort;
use std::test::*;
use stream_schema::Schema;

/// Declarations that most texts begin with.
pub const BASE: &str = "DECLARE EVENT A(v INT)\nDECLARE EVENT B(v INT)\nDECLARE STREAM S(A, B)\n";

/// The place of the fault, and its words.
fn told(alloc: Global, error: &QueryError) -> Result<String, AllocError> {
    format!(in alloc; "{}:{} {}", error.place.line, error.place.col, error.fault)
}

/// How many types the stream S has.
fn types_of_s(schema: &Schema) -> usize {
    match schema.streams("S") {
        Some(types) => types.as_slice().len(),
        None => 0,
    }
}

fn counts(alloc: Global, schema: &Schema, queries: usize) -> Result<String, AllocError> {
    let types = schema.types();
    let of_stream = types_of_s(schema);
    format!(in alloc; "{types} types, {of_stream} in S, {queries} queries")
}

/// The first fault of the text, or how many types it has, how many the stream S, and how many queries.
pub fn answer(alloc: Global, text: &[u8]) -> Result<String, AllocError> {
    match read_queries(alloc, text) {
        Ok(accepted) => counts(alloc, &accepted.schema, accepted.queries.as_slice().len()),
        Err(OrMemory::Fault(error)) => told(alloc, &error),
        Err(OrMemory::Memory) => Err(AllocError),
    }
}

/// Holds each row between these texts against what is wanted.
pub fn texts_hold(
    rt: &impl Abort,
    alloc: Global,
    before: &str,
    after: &str,
    rows: &[(&str, &str)],
) -> Result<(), Fail> {
    for (row, wanted) in rows {
        let text = format!(in alloc; "{before}{row}{after}")?;
        let shown = answer(alloc, text.as_bytes())?;
        same(rt, shown.as_str(), wanted, row);
    }
    Ok(())
}

/// A text: its beginning, a part that is repeated, what stands before the part and after it, and what is wanted.
pub struct LongText {
    pub base: &'static str,
    pub before: &'static str,
    pub part: &'static str,
    pub times: u64,
    pub after: &'static str,
    pub wanted: &'static str,
}

fn long_text(alloc: Global, row: &LongText) -> Result<String, AllocError> {
    let before = format!(in alloc; "{}{}", row.base, row.before)?;
    repeated(alloc, before.as_str(), row.part, row.times, row.after)
}

/// Holds each row against what is wanted.
pub fn long_texts_hold(rt: &impl Abort, alloc: Global, rows: &[LongText]) -> Result<(), Fail> {
    for row in rows {
        let text = long_text(alloc, row)?;
        let shown = answer(alloc, text.as_bytes())?;
        let name = format!(in alloc; "{} times {}", row.times, row.part)?;
        same(rt, shown.as_str(), row.wanted, name.as_str());
    }
    Ok(())
}
