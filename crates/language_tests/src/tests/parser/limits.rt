//! Texts at the limits of leaves, queries, nesting and bytes.

use crate::tests::parser::rows::{BASE, LongText, long_texts_hold};
use std::test::*;

/// Each text, and its fault or what it declares.
const LONG_TEXTS: &[LongText] = &[
    LongText {
        base: BASE,
        before: "SELECT * FROM S WHERE ",
        part: "A ; ",
        times: 64,
        after: "A",
        wanted: "2 types, 2 in S, 1 queries",
    },
    LongText {
        base: BASE,
        before: "SELECT * FROM S WHERE ",
        part: "A ; ",
        times: 2047,
        after: "A",
        wanted: "2 types, 2 in S, 1 queries",
    },
    LongText {
        base: BASE,
        before: "SELECT * FROM S WHERE ",
        part: "A ; ",
        times: 2048,
        after: "A",
        wanted: "4:1 more than 2048 leaves",
    },
    LongText {
        base: BASE,
        before: "SELECT * FROM S WHERE ",
        part: "A : ",
        times: 2048,
        after: "A",
        wanted: "4:1 more than 2048 leaves",
    },
    LongText {
        base: BASE,
        before: "SELECT * FROM S WHERE ",
        part: "A OR ",
        times: 2047,
        after: "B",
        wanted: "2 types, 2 in S, 1 queries",
    },
    LongText {
        base: BASE,
        before: "SELECT * FROM S WHERE ",
        part: "A OR ",
        times: 2048,
        after: "B",
        wanted: "4:1 more than 2048 leaves",
    },
    LongText {
        base: BASE,
        before: "SELECT * FROM S WHERE ",
        part: "A ; ",
        times: 1023,
        after: "A FILTER A[v = 1] OR A[v = 2]",
        wanted: "2 types, 2 in S, 1 queries",
    },
    LongText {
        base: BASE,
        before: "SELECT * FROM S WHERE ",
        part: "A ; ",
        times: 1024,
        after: "A FILTER A[v = 1] OR A[v = 2]",
        wanted: "4:1 more than 2048 leaves",
    },
    LongText {
        base: BASE,
        before: "SELECT * FROM S WHERE ",
        part: "A ; ",
        times: 2047,
        after: "A FILTER A[v = 1] AND A[v = 2]",
        wanted: "2 types, 2 in S, 1 queries",
    },
    LongText {
        base: BASE,
        before: "SELECT * FROM S WHERE A ",
        part: "FILTER A[v = 1] OR A[v = 2] ",
        times: 11,
        after: "",
        wanted: "2 types, 2 in S, 1 queries",
    },
    LongText {
        base: BASE,
        before: "SELECT * FROM S WHERE A ",
        part: "FILTER A[v = 1] OR A[v = 2] ",
        times: 12,
        after: "",
        wanted: "4:1 more than 2048 leaves",
    },
    LongText {
        base: BASE,
        before: "SELECT * FROM S WHERE ",
        part: "A ; ",
        times: 2048,
        after: "A PARTITION BY [w]",
        wanted: "4:1 more than 2048 leaves",
    },
    LongText {
        base: BASE,
        before: "",
        part: "SELECT * FROM S WHERE A\n",
        times: 1024,
        after: "",
        wanted: "2 types, 2 in S, 1024 queries",
    },
    LongText {
        base: BASE,
        before: "",
        part: "SELECT * FROM S WHERE A\n",
        times: 1025,
        after: "",
        wanted: "1028:1 more than 1024 queries",
    },
    LongText {
        base: BASE,
        before: "",
        part: "SELECT * FROM S WHERE A\n",
        times: 1024,
        after: "SELECT ANY 0 * FROM S WHERE A",
        wanted: "1028:1 more than 1024 queries",
    },
    LongText {
        base: BASE,
        before: "A ",
        part: "(",
        times: 65,
        after: "",
        wanted: "4:67 nested too deeply",
    },
    LongText {
        base: "",
        before: "",
        part: " ",
        times: 1_048_576,
        after: "",
        wanted: "1:1048577 no query",
    },
    LongText {
        base: "",
        before: "",
        part: "?",
        times: 1_048_577,
        after: "",
        wanted: "1:1 text longer than 1048576 bytes",
    },
];

#[test]
fn texts_at_the_limits(rt: HostRuntime) -> Result<(), Fail> {
    long_texts_hold(&rt, rt.alloc(), LONG_TEXTS)
}
