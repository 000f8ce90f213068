//! Which answers the definition gives to small queries.

use crate::tests::queries::{ALIKE, accepted, events_of};
use cel_plain::answers::{ComplexEvent, answers};
use cel_terms::Query;
use cer_base::Memory;
use std::alloc::Global;
use std::test::*;
use stream_schema::{Event, Schema};

/// End, start and marks of each answer.
type Wanted = (u64, u64, &'static [u64]);

fn is_wanted(found: &ComplexEvent, end: u64, wanted: &[Wanted]) -> bool {
    for (its_end, start, marks) in wanted {
        if *its_end == end && *start == found.start() && *marks == found.marks() {
            return true;
        }
    }
    false
}

/// How many answers there are at the end, None where one is not wanted.
fn count_at(
    alloc: Global,
    schema: &Schema,
    query: &Query,
    events: &[Event],
    end: u64,
    wanted: &[Wanted],
) -> Result<Option<usize>, Memory> {
    let found = answers(alloc, schema, query, events, end)?;
    for answer in &found {
        if !is_wanted(answer, end, wanted) {
            return Ok(None);
        }
    }
    Ok(Some(found.len()))
}

fn are_answers(
    alloc: Global,
    schema: &Schema,
    query: &Query,
    events: &[Event],
    wanted: &[Wanted],
) -> Result<bool, Memory> {
    let mut count: usize = 0;
    for end in 0..events.len() {
        match count_at(alloc, schema, query, events, end as u64, wanted)? {
            Some(more) => count = count.saturating_add(more),
            None => return Ok(false),
        }
    }
    Ok(count == wanted.len())
}

/// Whether the query has exactly these answers over the events of the lines.
fn agrees(
    alloc: Global,
    declared: &str,
    asked: &str,
    lines: &str,
    wanted: &[Wanted],
) -> Result<bool, Fail> {
    let accepted = accepted(alloc, declared, asked)?;
    let events = events_of(alloc, &accepted.schema, lines)?;
    for query in accepted.queries.as_slice() {
        if !are_answers(alloc, &accepted.schema, query, events.as_slice(), wanted)? {
            return Ok(false);
        }
    }
    Ok(true)
}

/// The types have no attribute in common.
const APART: &str = "DECLARE EVENT A(v INT) DECLARE EVENT B(w INT) DECLARE STREAM S(A, B) ";

const DECIMAL: &str =
    "DECLARE EVENT A(v DECIMAL(2)) DECLARE EVENT B(v INT) DECLARE STREAM S(A, B) ";

const TEXT: &str = "DECLARE EVENT A(v STRING) DECLARE EVENT B(v INT) DECLARE STREAM S(A, B) ";

const THREE: &str = "A,1;A,2;A,3";

const PAIR: &str = "A,1;A,2;B,3";

/// Declarations, a query, lines of events, and the answers.
const ROWS: &[(&str, &str, &str, &[Wanted])] = &[
    // A repetition may skip events.
    (
        ALIKE,
        "SELECT * FROM S WHERE A+",
        THREE,
        &[
            (0, 0, &[0]),
            (1, 0, &[0, 1]),
            (1, 1, &[1]),
            (2, 0, &[0, 1, 2]),
            (2, 0, &[0, 2]),
            (2, 1, &[1, 2]),
            (2, 2, &[2]),
        ],
    ),
    // Two valuations have the same marks.
    (
        ALIKE,
        "SELECT b FROM S WHERE (A AS a ; A AS c) ; B AS b",
        "A,1;A,1;A,1;B,1",
        &[(3, 0, &[3]), (3, 1, &[3])],
    ),
    // An answer may have no marks.
    (
        ALIKE,
        "SELECT b FROM S WHERE A OR B AS b",
        "A,1",
        &[(0, 0, &[])],
    ),
    // A filter asks each event of a name.
    (
        ALIKE,
        "SELECT * FROM S WHERE A+ FILTER A[v > 1]",
        THREE,
        &[(1, 1, &[1]), (2, 1, &[1, 2]), (2, 2, &[2])],
    ),
    // It asks nothing of a name without events.
    (
        ALIKE,
        "SELECT * FROM S WHERE A OR B AS b FILTER A[v > 5]",
        "A,1;B,1",
        &[(1, 1, &[1])],
    ),
    (
        ALIKE,
        "SELECT * FROM S WHERE (A+)+",
        "A,1;A,1",
        &[(0, 0, &[0]), (1, 0, &[0, 1]), (1, 1, &[1])],
    ),
    // KEEP leaves the interval as it is.
    (
        ALIKE,
        "SELECT * FROM S WHERE ((A+) AS a ; B AS b) KEEP [a]",
        "A,1;A,1;B,1",
        &[(2, 0, &[0]), (2, 0, &[0, 1]), (2, 1, &[1])],
    ),
    (
        ALIKE,
        "SELECT * FROM S WHERE A : B",
        PAIR,
        &[(2, 1, &[1, 2])],
    ),
    // A tight link and a loose one, in both orders.
    (
        ALIKE,
        "SELECT * FROM S WHERE A : B ; A",
        "A,1;A,2;B,3;B,4;A,5",
        &[(4, 1, &[1, 2, 4])],
    ),
    (
        ALIKE,
        "SELECT * FROM S WHERE A ; A : B",
        PAIR,
        &[(2, 0, &[0, 1, 2])],
    ),
    (
        ALIKE,
        "SELECT * FROM S WHERE A :+",
        THREE,
        &[
            (0, 0, &[0]),
            (1, 0, &[0, 1]),
            (1, 1, &[1]),
            (2, 0, &[0, 1, 2]),
            (2, 1, &[1, 2]),
            (2, 2, &[2]),
        ],
    ),
    (
        ALIKE,
        "SELECT * FROM S WHERE A ; B WITHIN 1 EVENT",
        PAIR,
        &[(2, 1, &[1, 2])],
    ),
    (
        ALIKE,
        "SELECT * FROM S WHERE A ; B WITHIN 5 [v]",
        "A,10;A,10;B,15;B,16",
        &[(2, 0, &[0, 2]), (2, 1, &[1, 2])],
    ),
    (
        ALIKE,
        "SELECT * FROM S WHERE A ; B PARTITION BY [v]",
        "A,1;A,2;B,1",
        &[(2, 0, &[0, 2])],
    ),
    (
        ALIKE,
        "SELECT * FROM S WHERE A : B PARTITION BY [v]",
        "A,1;A,2;B,1",
        &[(2, 0, &[0, 2])],
    ),
    (
        ALIKE,
        "SELECT STRICT * FROM S WHERE A ; B",
        PAIR,
        &[(2, 1, &[1, 2])],
    ),
    (
        ALIKE,
        "SELECT STRICT b FROM S WHERE A AS a ; B AS b",
        PAIR,
        &[(2, 0, &[2]), (2, 1, &[2])],
    ),
    (
        ALIKE,
        "SELECT * FROM S WHERE A AS x ; B AS y FILTER x[v = 1] OR y[v = 1]",
        "A,1;B,1",
        &[(1, 0, &[0, 1])],
    ),
    // A type without the key is in no substream.
    (
        APART,
        "SELECT * FROM S WHERE A ; B PARTITION BY [v]",
        "A,1;B,1",
        &[],
    ),
    (
        APART,
        "SELECT * FROM S WHERE A PARTITION BY [v]",
        "A,1;B,1",
        &[(0, 0, &[0])],
    ),
    // A type without the attribute does not meet a comparison with it.
    (
        APART,
        "SELECT * FROM S WHERE (A OR B) AS x FILTER x[NOT v = 1]",
        "A,1;B,1",
        &[(1, 1, &[1])],
    ),
    (
        ALIKE,
        "SELECT * FROM S WHERE A ; B WITHIN 1 MINUTE [v]",
        "A,0;B,60;B,61",
        &[(1, 0, &[0, 1])],
    ),
    (
        DECIMAL,
        "SELECT * FROM S WHERE A FILTER A[v >= 1.5]",
        "A,1.49;A,1.50;A,2.00",
        &[(1, 1, &[1]), (2, 2, &[2])],
    ),
    (
        TEXT,
        "SELECT * FROM S WHERE A FILTER A[v = 'a,\"b\"']",
        "A,\"a,\"\"b\"\"\"",
        &[(0, 0, &[0])],
    ),
    (
        ALIKE,
        "SELECT * FROM S WHERE A ; B",
        PAIR,
        &[(2, 0, &[0, 2]), (2, 1, &[1, 2])],
    ),
    (
        ALIKE,
        "SELECT * FROM S WHERE A ; B WITHIN 0 EVENTS",
        PAIR,
        &[],
    ),
    (
        ALIKE,
        "SELECT * FROM S WHERE A ; B WITHIN 2 EVENTS",
        PAIR,
        &[(2, 0, &[0, 2]), (2, 1, &[1, 2])],
    ),
    (
        ALIKE,
        "SELECT * FROM S WHERE A WITHIN 5 [v]",
        "A,10",
        &[(0, 0, &[0])],
    ),
];

#[test]
fn answers_of_small_queries(rt: HostRuntime) -> Result<(), Fail> {
    for &(declared, asked, lines, wanted) in ROWS {
        let agreed = agrees(rt.alloc(), declared, asked, lines, wanted)?;
        assert!(rt; agreed, "{asked} over {lines} has other answers");
    }
    Ok(())
}
