//! Texts and lines at their limits.

use super::rows::PLAIN;
use core_calls::calls::done_well;
use std::alloc::{AllocError, Global};
use std::process::Abort;
use std::test::*;

/// A type with a text, its stream, and a query of it for one text.
const ONE_TEXT: &str =
    "DECLARE EVENT N(s STRING)\nDECLARE STREAM S(N)\n\nSELECT * FROM S WHERE N FILTER N[s = 'a,\"b']\n";

/// A type with a text, its stream, and a query of it.
const ALL_TEXTS: &str =
    "DECLARE EVENT N(s STRING)\nDECLARE STREAM S(N)\n\nSELECT * FROM S WHERE N\n";

/// What is answered.
fn holds(
    rt: &impl Abort,
    alloc: Global,
    queries: &str,
    events: &str,
    wanted: &str,
    runtime: &HostRuntime,
) -> Result<(), Fail> {
    let told = done_well(
        alloc,
        "run q e",
        queries.as_bytes(),
        events.as_bytes(),
        runtime,
    )?;
    assert_eq!(rt; told.as_str(), wanted);
    Ok(())
}

/// The part so often, with what stands before and after it.
fn repeated(
    alloc: Global,
    front: &str,
    part: &str,
    times: usize,
    behind: &str,
) -> Result<String, AllocError> {
    let mut text = front.to_string(alloc)?;
    for _ in 0..times {
        text.push_str(part)?;
    }
    text.push_str(behind)?;
    Ok(text)
}

/// First parts of an event file, and what is answered over each.
const FIRST_PARTS: &[(&str, &str)] = &[
    ("", "0||"),
    ("N", "4||core: events line 1: 0 fields where 1 is wanted\n"),
    ("N,", "0||"),
    ("N,\"", "4||core: events line 1: open quote\n"),
    ("N,\"a", "4||core: events line 1: open quote\n"),
    ("N,\"a,", "4||core: events line 1: open quote\n"),
    ("N,\"a,\"", "0||"),
    ("N,\"a,\"\"", "4||core: events line 1: open quote\n"),
    ("N,\"a,\"\"b", "4||core: events line 1: open quote\n"),
    ("N,\"a,\"\"b\"", "0|1 [0,0] {0}\n|"),
    ("N,\"a,\"\"b\"\r", "0|1 [0,0] {0}\n|"),
    ("N,\"a,\"\"b\"\r\n", "0|1 [0,0] {0}\n|"),
];

/// Each first part of an event file, from none of it to all of it.
#[test]
fn first_parts_of_a_quoted_line(rt: HostRuntime) -> Result<(), Fail> {
    for &(events, wanted) in FIRST_PARTS {
        holds(&rt, rt.alloc(), ONE_TEXT, events, wanted, &rt)?;
    }
    Ok(())
}

const TOO_MANY: &str = "3||core: queries 4:1: more than 2048 leaves\n";

/// Of a chain, how many parts come after the first, and what stands after them; and what is answered.
const CHAINS: &[(usize, &str, &str)] = &[
    (63, "\n", "0||"),
    (2047, "\n", "0||"),
    (2048, "\n", TOO_MANY),
    (1023, " FILTER A[v = 1] OR A[v = 2]\n", "0||"),
    (1024, " FILTER A[v = 1] OR A[v = 2]\n", TOO_MANY),
];

#[test]
fn formulas_at_their_limits(rt: HostRuntime) -> Result<(), Fail> {
    let alloc = rt.alloc();
    for &(times, behind, wanted) in CHAINS {
        let query = repeated(alloc, "SELECT * FROM S WHERE A", " ; A", times, behind)?;
        let text = format!(in alloc; "{PLAIN}{query}")?;
        holds(&rt, alloc, text.as_str(), "A,1\n", wanted, &rt)?;
    }
    Ok(())
}

/// How many parentheses there are, and what is answered.
const PARENTHESES: &[(usize, &str)] = &[
    (64, "0|1 [0,0] {0}\n|"),
    (65, "3||core: queries 4:87: nested too deeply\n"),
];

/// Parentheses and queries of a text.
#[test]
fn texts_at_their_limits(rt: HostRuntime) -> Result<(), Fail> {
    let alloc = rt.alloc();
    for &(times, wanted) in PARENTHESES {
        let opened = repeated(alloc, "SELECT * FROM S WHERE ", "(", times, "A")?;
        let query = repeated(alloc, opened.as_str(), ")", times, "\n")?;
        let text = format!(in alloc; "{PLAIN}{query}")?;
        holds(&rt, alloc, text.as_str(), "A,1\n", wanted, &rt)?;
    }
    let queries = repeated(alloc, PLAIN, "SELECT * FROM S WHERE A\n", 1025, "")?;
    let wanted = "3||core: queries 1028:1: more than 1024 queries\n";
    holds(&rt, alloc, queries.as_str(), "A,1\n", wanted, &rt)
}

/// How many blanks a text has, the longest and one more, and what is answered.
const BLANKS: &[(usize, &str)] = &[
    (1_048_576, "3||core: queries 1:1048577: no query\n"),
    (
        1_048_577,
        "3||core: queries 1:1: text longer than 1048576 bytes\n",
    ),
];

/// How many bytes a line's text has, the longest and one more, and what is answered.
const LONG_LINES: &[(usize, &str)] = &[
    (65_534, "0|1 [0,0] {0}\n|"),
    (
        65_535,
        "4||core: events line 1: line longer than 65536 bytes\n",
    ),
];

#[test]
fn bytes_at_their_limit(rt: HostRuntime) -> Result<(), Fail> {
    let alloc = rt.alloc();
    for &(times, wanted) in BLANKS {
        let text = repeated(alloc, "", " ", times, "")?;
        holds(&rt, alloc, text.as_str(), "A,1\n", wanted, &rt)?;
    }
    for &(times, wanted) in LONG_LINES {
        let events = repeated(alloc, "N,", "x", times, "\n")?;
        holds(&rt, alloc, ALL_TEXTS, events.as_str(), wanted, &rt)?;
    }
    Ok(())
}
