//! Small queries, taken from their texts to the states of the determinised automaton.

use crate::runs::{runs_are_answers, taken};
use crate::tables::{Look, has_table};
use cea_determinise::table::State;
use std::alloc::{AllocError, Global};
use std::test::*;

/// The successors of A+: 1 is {0}{}, 2 is {}{0}. Leaf numbers stand in braces, first those that have
/// just read and mind the next event, then those that wait.
const REPEATED: &[Look] = &[
    (0, 0, 1, Some(1), None),
    (1, 0, 1, Some(1), Some(2)),
    (2, 0, 1, Some(1), Some(2)),
    (1, 1, 1, None, Some(2)),
];

/// A ; B: 1 is {}{0}, since leaf 0 waits at once, 2 is {1}{}.
const SEQUENCE: &[Look] = &[
    (0, 0, 1, Some(1), None),
    (1, 1, 1, Some(2), Some(1)),
    (1, 0, 1, None, Some(1)),
    (2, 0, 1, None, None),
    (0, 1, 1, None, None),
];

/// A : B: 1 is {0}{}, 2 is {1}{}; nothing waits.
const NEXT: &[Look] = &[
    (0, 0, 1, Some(1), None),
    (1, 1, 1, Some(2), None),
    (1, 0, 1, None, None),
];

/// A :+: 1 is {0}{}.
const NEXT_REPEATED: &[Look] = &[
    (0, 0, 1, Some(1), None),
    (1, 0, 1, Some(1), None),
    (1, 1, 1, None, None),
];

/// A OR B AS b, b selected: leaf 0 is unmarked, 1 is marked; 1 is {0}{}, 2 is {1}{}.
const CHOICE: &[Look] = &[
    (0, 0, 1, None, Some(1)),
    (0, 1, 1, Some(2), None),
    (1, 0, 1, None, None),
];

/// STRICT A ; B: 1 is {}{0} within the marks, 2 is {1}{} within them, 3 is {}{0} after them.
const STRICT: &[Look] = &[
    (0, 0, 1, Some(1), None),
    (1, 1, 1, Some(2), Some(3)),
    (3, 1, 1, None, Some(3)),
    (1, 0, 1, None, Some(3)),
];

/// The filter makes leaves A with v = 1, B, A, B with v = 1: 1 is {}{0,2}, 2 is {}{2}, 3 is {1,3}{}, 4 is
/// {1}{}.
const FILTERED: &[Look] = &[
    (0, 0, 1, Some(1), None),
    (0, 0, 2, Some(2), None),
    (1, 1, 1, Some(3), Some(1)),
    (1, 1, 2, Some(4), Some(1)),
    (2, 1, 2, None, Some(2)),
];

/// Queries, their successors, the accepting states, and how many states other than the start are met.
const TABLES: &[(&str, &[Look], &[State], u64)] = &[
    // A sequence waits for any later event.
    ("SELECT * FROM S WHERE A ; B", SEQUENCE, &[2], 2),
    // A repetition goes back to where it begins.
    ("SELECT * FROM S WHERE A+", REPEATED, &[1], 2),
    // Repeating twice adds nothing.
    ("SELECT * FROM S WHERE (A+)+", REPEATED, &[1], 2),
    // Repeated twice, it is tight where both are.
    ("SELECT * FROM S WHERE (A+) :+", REPEATED, &[1], 2),
    ("SELECT * FROM S WHERE (A :+)+", REPEATED, &[1], 2),
    ("SELECT * FROM S WHERE (A :+) :+", NEXT_REPEATED, &[1], 1),
    // Tight followers let nothing pass.
    ("SELECT * FROM S WHERE A : B", NEXT, &[2], 2),
    // Nor do tight repetitions.
    ("SELECT * FROM S WHERE A :+", NEXT_REPEATED, &[1], 1),
    // A leaf of no selected name is unmarked.
    ("SELECT b FROM S WHERE A OR B AS b", CHOICE, &[1, 2], 2),
    // Strict marks stand in one run.
    ("SELECT STRICT * FROM S WHERE A ; B", STRICT, &[2], 3),
    // Alternatives of a filter are copies.
    (
        "SELECT * FROM S WHERE A AS x ; B AS y FILTER x[v = 1] OR y[v = 1]",
        FILTERED,
        &[3, 4],
        4,
    ),
];

#[test]
fn tables_are_those_worked_out_by_hand(rt: HostRuntime) -> Result<(), Fail> {
    for &(asked, looks, accepting, found) in TABLES {
        let agreed = has_table(rt.alloc(), asked, looks, accepting, found, &rt)?;
        assert!(rt; agreed, "{asked}");
    }
    Ok(())
}

const EVENTS: &[(u64, i64)] = &[(0, 1), (0, 2), (1, 1), (0, 1)];

/// On four events, every run of each query from every start with every choice of marks.
#[test]
fn accepted_runs_are_the_answers(rt: HostRuntime) -> Result<(), Fail> {
    for &(asked, _, _, _) in TABLES {
        assert!(rt;
            runs_are_answers(rt.alloc(), asked, EVENTS, &rt)?,
            "{asked}"
        );
    }
    Ok(())
}

/// A ; A ; .., 65 of them.
fn long_chain(alloc: Global) -> Result<String, AllocError> {
    let mut asked = "SELECT * FROM S WHERE A".to_string(alloc)?;
    for _ in 0..64 {
        asked.push_str(" ; A")?;
    }
    Ok(asked)
}

#[test]
fn the_65th_leaf_of_a_chain_alone_accepts(rt: HostRuntime) -> Result<(), Fail> {
    let asked = long_chain(rt.alloc())?;
    assert_eq!(rt; taken(rt.alloc(), asked.as_str(), &rt)?, (65, 1));
    Ok(())
}
