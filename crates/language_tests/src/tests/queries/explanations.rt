//! Which events explain the answers of small queries.

use crate::tests::queries::{ALIKE, accepted, events_of};
use crate::tests::{repeated, same};
use ceql_parser::Accepted;
use cer_base::Memory;
use match_explain::{Valuation, explain};
use std::alloc::{AllocError, Global};
use std::test::*;
use stream_schema::Event;

const THREE: &str = "SELECT b FROM S WHERE (A AS a ; A AS c) ; B AS b";

const EITHER: &str = "SELECT b FROM S WHERE A OR B AS b";

const SOME: &str = "SELECT * FROM S WHERE A+ ; B";

const STRICT: &str = "SELECT STRICT * FROM S WHERE A ; B";

const WITHIN: &str = "SELECT * FROM S WHERE A ; B WITHIN 1 EVENT";

const NEXT: &str = "SELECT * FROM S WHERE A : B PARTITION BY [v]";

const KEPT: &str = "SELECT * FROM S WHERE ((A+) AS a ; B AS b) KEEP [a]";

const FILTERED: &str = "SELECT * FROM S WHERE A AS x ; B AS y FILTER x[v = 1] OR y[v = 1]";

const MANY: &str = "SELECT * FROM S WHERE A+";

/// Writes the names with their positions.
fn write_valuation(text: &mut String, valuation: &Valuation) -> Result<(), AllocError> {
    for binding in valuation.as_slice() {
        text.push_str(binding.name.as_str())?;
        for position in binding.positions.as_slice() {
            write!(text, " {position}")?;
        }
        text.push_str("; ")?;
    }
    Ok(())
}

/// What explains the complex event with this start, this end and these marks, or `none`.
fn explanation(
    alloc: Global,
    accepted: &Accepted,
    events: &[Event],
    span: (u64, u64),
    marks: &[u64],
) -> Result<String, Memory> {
    let mut text = String::new(alloc);
    for query in accepted.queries.as_slice() {
        match explain(
            alloc,
            &accepted.schema,
            query,
            events,
            span.0,
            span.1,
            marks,
        )? {
            Some(valuation) => write_valuation(&mut text, &valuation)?,
            None => text.push_str("none")?,
        }
    }
    Ok(text)
}

/// The explanation by a query over the events of these lines, shown.
fn shown(
    alloc: Global,
    asked: &str,
    lines: &str,
    span: (u64, u64),
    marks: &[u64],
) -> Result<String, Fail> {
    let accepted = accepted(alloc, ALIKE, asked)?;
    let events = events_of(alloc, &accepted.schema, lines)?;
    Ok(explanation(alloc, &accepted, events.as_slice(), span, marks)?)
}

/// A query, its events, start and end of a complex event and its marks, and what explains it.
const ROWS: &[(&str, &str, (u64, u64), &[u64], &str)] = &[
    (
        THREE,
        "A,1;A,1;A,1;B,1",
        (1, 3),
        &[3],
        "A 1 2; B 3; a 1; b 3; c 2; ",
    ),
    (THREE, "A,1;A,1;A,1;B,1", (2, 3), &[3], "none"),
    (THREE, "A,1;A,1;A,1;B,1", (1, 3), &[1, 3], "none"),
    (THREE, "A,1;A,1;A,1;B,1", (1, 3), &[], "none"),
    (EITHER, "A,1", (0, 0), &[], "A 0; "),
    (EITHER, "A,1", (0, 0), &[0], "none"),
    (EITHER, "B,1", (0, 0), &[0], "B 0; b 0; "),
    (SOME, "A,1;A,1;B,1", (0, 2), &[0, 1, 2], "A 0 1; B 2; "),
    (SOME, "A,1;A,1;B,1", (0, 2), &[0, 2], "A 0; B 2; "),
    (SOME, "A,1;A,1;B,1", (0, 2), &[1, 2], "none"),
    (SOME, "A,1;A,1;B,1", (0, 2), &[2, 0], "none"),
    (SOME, "A,1;A,1;B,1", (0, 3), &[0, 2], "none"),
    (SOME, "A,1;A,1;B,1", (3, 3), &[], "none"),
    (STRICT, "A,1;A,1;B,1", (0, 2), &[0, 2], "none"),
    (STRICT, "A,1;A,1;B,1", (1, 2), &[1, 2], "A 1; B 2; "),
    (WITHIN, "A,1;A,1;B,1", (0, 2), &[0, 2], "none"),
    (WITHIN, "A,1;A,1;B,1", (1, 2), &[1, 2], "A 1; B 2; "),
    (NEXT, "A,1;A,2;B,1", (0, 2), &[0, 2], "A 0; B 2; "),
    (NEXT, "A,1;A,2;B,1", (1, 2), &[1, 2], "none"),
    (NEXT, "A,1;A,1;B,1", (0, 2), &[0, 2], "none"),
    (KEPT, "A,1;A,1;B,1", (0, 2), &[0, 1], "a 0 1; "),
    (FILTERED, "A,2;B,1", (0, 1), &[0, 1], "A 0; B 1; x 0; y 1; "),
    (FILTERED, "A,2;B,2", (0, 1), &[0, 1], "none"),
];

#[test]
fn explanations_of_small_queries(rt: HostRuntime) -> Result<(), Fail> {
    for &(asked, lines, span, marks, wanted) in ROWS {
        let shown = shown(rt.alloc(), asked, lines, span, marks)?;
        same(&rt, shown.as_str(), wanted, asked);
    }
    Ok(())
}

/// The positions below the count.
fn below(alloc: Global, count: u64) -> Result<Vec<u64>, AllocError> {
    let mut list = Vec::new(alloc);
    for position in 0..count {
        list.push(position)?;
    }
    Ok(list)
}

/// How many bytes explain A+ where it has read 5,000 events, written.
fn length_of_many(alloc: Global) -> Result<usize, Fail> {
    let lines = repeated(alloc, "", "A,1;", 4_999, "A,1")?;
    let marks = below(alloc, 5_000)?;
    let text = shown(alloc, MANY, lines.as_str(), (0, 4_999), marks.as_slice())?;
    Ok(text.len())
}

#[test]
fn an_iteration_over_five_thousand_events(rt: HostRuntime) -> Result<(), Fail> {
    // `A`, a blank before each position, 10 + 180 + 2,700 + 16,000 digits, `; `
    assert_eq!(rt; length_of_many(rt.alloc())?, 23_893);
    Ok(())
}
