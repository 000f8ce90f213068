//! Which leaves small queries have.

use crate::tests::queries::accepted;
use crate::tests::{repeated, same};
use ceql_parser::Accepted;
use cer_base::Memory;
use query_leaves::{Leaves, leaves_of};
use std::alloc::{AllocError, Global};
use std::test::*;

/// Declares the types A and B, and the stream of both.
const DECLARED: &str =
    "DECLARE EVENT A(u INT, v INT) DECLARE EVENT B(v INT, w INT) DECLARE STREAM S(A, B) ";

/// Writes whether the leaves are strict, then of each its type, whether it is marked and its tests,
/// then their shape.
fn write_leaves(text: &mut String, leaves: &Leaves) -> Result<(), AllocError> {
    if leaves.strict {
        text.push_str("strict; ")?;
    }
    for leaf in leaves.list.as_slice() {
        write!(
            text,
            "{} {} {:?}; ",
            leaf.ty,
            leaf.marked,
            leaf.tests.as_slice()
        )?;
    }
    write!(text, "{:?}", leaves.shape)
}

/// The leaves of what is asked, as a text.
fn leaves_text(alloc: Global, accepted: &Accepted) -> Result<String, Memory> {
    let mut text = String::new(alloc);
    for query in accepted.queries.as_slice() {
        let leaves = leaves_of(alloc, &accepted.schema, query)?;
        write_leaves(&mut text, &leaves)?;
    }
    Ok(text)
}

/// The leaves of a query, shown.
fn shown(alloc: Global, asked: &str) -> Result<String, Fail> {
    let accepted = accepted(alloc, DECLARED, asked)?;
    Ok(leaves_text(alloc, &accepted)?)
}

/// A query, its leaves, each with its type, whether it is marked and its tests, and their shape.
const ROWS: &[(&str, &str)] = &[
    (
        "SELECT * FROM S WHERE A AS x ; B AS y FILTER x[v = 1] OR y[v = 1]",
        "0 true [Cmp(1, Eq, Int(1))]; 1 true []; 0 true []; 1 true [Cmp(0, Eq, Int(1))]; Either([Chain([ShapePart { tight: false, part: Leaf(0) }, ShapePart { tight: false, part: Leaf(1) }]), Chain([ShapePart { tight: false, part: Leaf(2) }, ShapePart { tight: false, part: Leaf(3) }])])",
    ),
    (
        "SELECT * FROM S WHERE A AS x FILTER (x[v = 1] OR x[v = 2]) AND x[u = 3]",
        "0 true [Cmp(0, Eq, Int(3)), Cmp(1, Eq, Int(1))]; 0 true [Cmp(0, Eq, Int(3)), Cmp(1, Eq, Int(2))]; Either([Leaf(0), Leaf(1)])",
    ),
    // Names are added.
    (
        "SELECT * FROM S WHERE A AS x FILTER A[v = 1]",
        "0 true [Cmp(1, Eq, Int(1))]; Leaf(0)",
    ),
    // Names in a choice.
    (
        "SELECT * FROM S WHERE A AS x OR B FILTER x[v = 1]",
        "0 true [Cmp(1, Eq, Int(1))]; 1 true []; Either([Leaf(0), Leaf(1)])",
    ),
    // A type without the attribute.
    (
        "SELECT * FROM S WHERE (A OR B) AS x FILTER x[NOT w = 1]",
        "0 true [Not(No)]; 1 true [Not(Cmp(1, Eq, Int(1)))]; Either([Leaf(0), Leaf(1)])",
    ),
    (
        "SELECT * FROM S WHERE (A AS x ; B AS y) KEEP [x]",
        "0 true []; 1 false []; Chain([ShapePart { tight: false, part: Leaf(0) }, ShapePart { tight: false, part: Leaf(1) }])",
    ),
    (
        "SELECT STRICT y FROM S WHERE A AS x : B AS y",
        "strict; 0 false []; 1 true []; Chain([ShapePart { tight: false, part: Leaf(0) }, ShapePart { tight: true, part: Leaf(1) }])",
    ),
    (
        "SELECT * FROM S WHERE A ; B ; A",
        "0 true []; 1 true []; 0 true []; Chain([ShapePart { tight: false, part: Leaf(0) }, ShapePart { tight: false, part: Leaf(1) }, ShapePart { tight: false, part: Leaf(2) }])",
    ),
    // A tight link and a loose one.
    (
        "SELECT * FROM S WHERE A : B ; A",
        "0 true []; 1 true []; 0 true []; Chain([ShapePart { tight: false, part: Leaf(0) }, ShapePart { tight: true, part: Leaf(1) }, ShapePart { tight: false, part: Leaf(2) }])",
    ),
    (
        "SELECT * FROM S WHERE B+ :+",
        "1 true []; Plus { tight: false, part: Leaf(0) }",
    ),
];

#[test]
fn leaves_of_small_queries(rt: HostRuntime) -> Result<(), Fail> {
    for (asked, wanted) in ROWS {
        let shown = shown(rt.alloc(), asked)?;
        same(&rt, shown.as_str(), wanted, asked);
    }
    Ok(())
}

/// How many leaves A has under as many filters of two alternatives each.
fn count_under(alloc: Global, filters: u64) -> Result<usize, Fail> {
    let asked = repeated(
        alloc,
        "SELECT * FROM S WHERE A",
        " FILTER A[v = 1] OR A[u = 2]",
        filters,
        "",
    )?;
    let accepted = accepted(alloc, DECLARED, asked.as_str())?;
    let mut count = 0;
    for query in accepted.queries.as_slice() {
        let leaves = leaves_of(alloc, &accepted.schema, query)?;
        count = leaves.list.as_slice().len();
    }
    Ok(count)
}

/// How many filters there are, and how many leaves.
const COUNTS: &[(u64, usize)] = &[(0, 1), (1, 2), (11, 2048)];

#[test]
fn alternatives_multiply(rt: HostRuntime) -> Result<(), Fail> {
    for &(filters, count) in COUNTS {
        assert_eq!(rt;
            count_under(rt.alloc(), filters)?,
            count,
            "{filters} filters"
        );
    }
    Ok(())
}
