//! The schema and the queries of the sample beside the text that they stand for.

use crate::tests::same;
use ceql_parser::read_queries;
use command_sample::{sample_queries, sample_schema};
use query_engine::Queries;
use std::alloc::{AllocError, Global};
use std::test::*;
use stream_schema::Schema;

const TEXT: &str = "\
DECLARE EVENT A(v INT)
DECLARE EVENT B(v INT)
DECLARE STREAM S(A, B)
SELECT * FROM S WHERE A AS a ; B AS b FILTER a[v < 64] AND b[v < 64] WITHIN 8 EVENTS
SELECT * FROM S WHERE A+ ; B WITHIN 6 EVENTS
";

fn shown(alloc: Global, schema: &Schema, queries: &Queries) -> Result<String, AllocError> {
    format!(in alloc; "{schema:?} {queries:?}")
}

/// What the text declares and asks, each field of it.
fn read(alloc: Global) -> Result<String, AllocError> {
    match read_queries(alloc, TEXT.as_bytes()) {
        Ok(accepted) => shown(alloc, &accepted.schema, &accepted.queries),
        Err(_) => "refused".to_string(alloc),
    }
}

/// The schema and the queries of the sample, shown.
fn built(alloc: Global) -> Result<String, AllocError> {
    let Ok(schema) = sample_schema(alloc) else {
        return Err(AllocError);
    };
    match sample_queries(alloc) {
        Ok(queries) => shown(alloc, &schema, &queries),
        Err(_) => Err(AllocError),
    }
}

/// Each field is the same, the places in the text too.
#[test]
fn the_terms_are_those_of_the_text(rt: HostRuntime) -> Result<(), Fail> {
    let read = read(rt.alloc())?;
    let built = built(rt.alloc())?;
    same(&rt, built.as_str(), read.as_str(), "the sample");
    Ok(())
}
