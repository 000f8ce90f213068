//! The first fault of a text, in its words and with its place, or what the text declares and asks.

mod limits;
mod rows;

use crate::tests::parser::rows::{BASE, answer, texts_hold};
use crate::tests::same;
use std::test::*;

/// Queries after the base: the query, and its fault or what the text declares.
const QUERIES: &[(&str, &str)] = &[
    ("SELECT * FROM S WHERE A", "2 types, 2 in S, 1 queries"),
    ("SELECT * FROM S WHERE C", "4:23 unknown type C"),
    ("SELECT * FROM T WHERE A", "4:15 unknown stream T"),
    ("SELECT x FROM S WHERE A", "4:8 unknown name x"),
    ("SELECT * FROM S WHERE A AS B", "4:28 name B taken"),
    (
        "SELECT * FROM S WHERE A FILTER A[w = 1]",
        "4:34 unknown attribute w",
    ),
    (
        "SELECT * FROM S WHERE A WITHIN 5 [w]",
        "4:35 window attribute w is not INT in every type",
    ),
    ("", "5:1 no query"),
    ("DECLARE EVENT A(x INT)", "4:15 name A taken"),
    (
        "SELECT * FROM S WHERE A FILTER A[v = 'x']",
        "4:34 attribute v is never STRING",
    ),
    (
        "SELECT * FROM S WHERE A FILTER A[v = TRUE]",
        "4:34 attribute v is never BOOL",
    ),
    (
        "SELECT * FROM S WHERE A FILTER A[v = 1.5]",
        "2 types, 2 in S, 1 queries",
    ),
    (
        "SELECT * FROM S WHERE A FILTER A[v < TRUE]",
        "4:34 attribute v is never BOOL",
    ),
    (
        "SELECT ANY 0 * FROM S WHERE A",
        "4:12 ANY takes 1 to 4294967295",
    ),
    (
        "SELECT ANY -1 * FROM S WHERE A",
        "4:12 ANY takes 1 to 4294967295",
    ),
    (
        "SELECT ANY 1 * FROM S WHERE A",
        "2 types, 2 in S, 1 queries",
    ),
    (
        "SELECT ANY 4294967295 * FROM S WHERE A",
        "2 types, 2 in S, 1 queries",
    ),
    (
        "SELECT ANY 4294967296 * FROM S WHERE A",
        "4:12 ANY takes 1 to 4294967295",
    ),
    (
        "SELECT ANY 0 * FROM T WHERE C",
        "4:12 ANY takes 1 to 4294967295",
    ),
    ("SELECT x FROM S WHERE C", "4:23 unknown type C"),
    ("SELECT x FROM T WHERE C", "4:15 unknown stream T"),
    (
        "SELECT x, A FROM S WHERE A AS x",
        "2 types, 2 in S, 1 queries",
    ),
    ("SELECT A, y FROM S WHERE A AS x", "4:11 unknown name y"),
    (
        "SELECT * FROM S WHERE A FILTER B[v = 1]",
        "4:32 unknown name B",
    ),
    (
        "SELECT * FROM S WHERE (A FILTER x[v = 1]) AS x",
        "4:33 unknown name x",
    ),
    (
        "SELECT * FROM S WHERE B ; (A AS x FILTER B[v = 1])",
        "4:42 unknown name B",
    ),
    (
        "SELECT * FROM S WHERE B ; A AS x FILTER B[v = 1]",
        "2 types, 2 in S, 1 queries",
    ),
    (
        "SELECT * FROM S WHERE A AS x KEEP [y] AS y",
        "4:36 unknown name y",
    ),
    (
        "SELECT * FROM S WHERE A AS x AS y KEEP [x, y, A]",
        "2 types, 2 in S, 1 queries",
    ),
    (
        "SELECT * FROM S WHERE A AS x ; B AS x",
        "2 types, 2 in S, 1 queries",
    ),
    (
        "SELECT * FROM S WHERE A : B :+ AS x FILTER x[v = 1]",
        "2 types, 2 in S, 1 queries",
    ),
    ("SELECT * FROM S WHERE A : C", "4:27 unknown type C"),
    (
        "SELECT * FROM S WHERE A OR B ; C OR D",
        "4:32 unknown type C",
    ),
    (
        "SELECT * FROM S WHERE A FILTER A[v = 1] OR A[w = 1] AND C[v = 1]",
        "4:46 unknown attribute w",
    ),
    (
        "SELECT * FROM S WHERE A FILTER A[v = 1 AND NOT (v = 2 OR w = 1)]",
        "4:58 unknown attribute w",
    ),
    (
        "SELECT * FROM S WHERE A PARTITION BY [v]",
        "2 types, 2 in S, 1 queries",
    ),
    (
        "SELECT * FROM S WHERE A PARTITION BY [v, w]",
        "4:42 unknown attribute w",
    ),
    (
        "SELECT y FROM S WHERE A PARTITION BY [w] WITHIN 1 [w]",
        "4:8 unknown name y",
    ),
    (
        "SELECT * FROM S WHERE A PARTITION BY [w] WITHIN 1 [w]",
        "4:39 unknown attribute w",
    ),
    (
        "SELECT * FROM S WHERE A WITHIN 1 HOUR [v]",
        "2 types, 2 in S, 1 queries",
    ),
    ("SELECT * FROM S WHERE A ; B", "2 types, 2 in S, 1 queries"),
    ("SELECT * FROM S WHERE A ;", "5:1 unexpected end of text"),
    ("SELECT * FROM S WHERE A ? B", "4:25 byte 3f not allowed"),
    (
        "SELECT * FROM S WHERE A FILTER A[v = 'x]",
        "4:38 string not closed",
    ),
    (
        "SELECT * FROM S WHERE A FILTER A[v = 9223372036854775808]",
        "4:38 number too large",
    ),
    ("SELECT * FROM S WHERE A B", "4:25 unexpected token"),
    ("SELECT * FROM S WHERE A : B", "2 types, 2 in S, 1 queries"),
    ("SELECT * FROM S WHERE A:+", "2 types, 2 in S, 1 queries"),
    (
        "SELECT STRICT b FROM S WHERE A AS a ; B AS b",
        "2 types, 2 in S, 1 queries",
    ),
    (
        "SELECT * FROM S WHERE A FILTER A[v = 1.0123456789]",
        "4:38 more than 9 decimals",
    ),
    (
        "SELECT * FROM S WHERE A FILTER A[v = - 5]",
        "4:38 byte 2d not allowed",
    ),
    ("SELECT * FROM S WHERE A WITHIN 5x", "4:33 unexpected token"),
    ("SELECT * FROM S WHERE A --", "2 types, 2 in S, 1 queries"),
    (
        "SELECT * FROM S WHERE A FILTER A[v = 'it''s']",
        "4:34 attribute v is never STRING",
    ),
    (
        "SELECT * FROM S WHERE A FILTER A[v = -9223372036854775808 OR v = 9223372036854775807]",
        "2 types, 2 in S, 1 queries",
    ),
    (
        "SELECT * FROM S WHERE A FILTER A[v = -9223372036854775809]",
        "4:38 number too large",
    ),
    ("SELECT * FROM S WHERE A )", "4:25 unexpected token"),
    ("SELECT\t*\tFROM S WHERE C", "4:23 unknown type C"),
    ("SELECT * FROM S WHERE C\r", "4:23 unknown type C"),
    (
        "Select * fROM S where A Filter A[v = 1 aNd v < 2] Within 3 Events",
        "2 types, 2 in S, 1 queries",
    ),
    (
        "SELECT * FROM S WHERE A AS a ; B AS b FILTER a[v < 64] AND b[v < 64] WITHIN 8 EVENTS SELECT * FROM S WHERE A+ ; B WITHIN 6 EVENTS",
        "2 types, 2 in S, 2 queries",
    ),
    (
        "SELECT * FROM S WHERE ((A AS a ; B AS b) KEEP [a]) FILTER b[v = 1]",
        "4:59 unknown name b",
    ),
    (
        "SELECT * FROM S WHERE ((A AS a ; B AS b) KEEP [a]) FILTER A[v = 1]",
        "4:59 unknown name A",
    ),
    (
        "SELECT * FROM S WHERE (A AS a ; B AS b) KEEP [a] KEEP [b]",
        "4:56 unknown name b",
    ),
    (
        "SELECT * FROM S WHERE (A AS a ; B AS b) KEEP [a] KEEP [A]",
        "4:56 unknown name A",
    ),
    (
        "SELECT b FROM S WHERE (A AS a ; B AS b) KEEP [a]",
        "4:8 unknown name b",
    ),
    (
        "SELECT B FROM S WHERE (A AS a ; B AS b) KEEP [a]",
        "4:8 unknown name B",
    ),
    (
        "SELECT a FROM S WHERE (A AS a ; B AS b) KEEP [a]",
        "2 types, 2 in S, 1 queries",
    ),
    (
        "SELECT b FROM S WHERE A AS a ; (B AS b KEEP [b])",
        "2 types, 2 in S, 1 queries",
    ),
    (
        "SELECT A, b FROM S WHERE A AS a ; (B AS b KEEP [b])",
        "2 types, 2 in S, 1 queries",
    ),
    (
        "SELECT * FROM S WHERE (A AS a ; B AS b) KEEP [a] AS b KEEP [b] FILTER b[v = 1]",
        "2 types, 2 in S, 1 queries",
    ),
    (
        "SELECT * FROM S WHERE A AS a KEEP [a] KEEP [a, a] FILTER a[v = 1]",
        "2 types, 2 in S, 1 queries",
    ),
];

#[test]
fn queries_after_the_base(rt: HostRuntime) -> Result<(), Fail> {
    texts_hold(&rt, rt.alloc(), BASE, "\n", QUERIES)
}

/// Texts: the text, and its fault or what it declares.
const TEXTS: &[(&str, &str)] = &[
    ("", "1:1 no query"),
    ("DECLARE EVENT A() DECLARE STREAM S(A)", "1:38 no query"),
    (
        "DECLARE EVENT A(p DECIMAL(10))",
        "1:27 DECIMAL takes 0 to 9",
    ),
    (
        "DECLARE EVENT A(p DECIMAL(-1))",
        "1:27 DECIMAL takes 0 to 9",
    ),
    (
        "DECLARE EVENT A(p DECIMAL(9)) DECLARE EVENT A()",
        "1:45 name A taken",
    ),
    ("DECLARE EVENT A(p DECIMAL(10), p INT)", "1:32 name p taken"),
    (
        "DECLARE EVENT A() DECLARE EVENT A(p DECIMAL(10), p INT)",
        "1:33 name A taken",
    ),
    (
        "DECLARE EVENT A(p INT, q INT, q INT, p INT)",
        "1:31 name q taken",
    ),
    (
        "DECLARE EVENT A(p DECIMAL(10), q DECIMAL(11))",
        "1:27 DECIMAL takes 0 to 9",
    ),
    ("DECLARE STREAM S(A)", "1:18 unknown type A"),
    ("DECLARE EVENT A() DECLARE STREAM A(B)", "1:34 name A taken"),
    (
        "DECLARE EVENT A() DECLARE STREAM S(A, A, B, C)",
        "1:42 unknown type B",
    ),
    (
        "DECLARE EVENT A() DECLARE STREAM S(A) DECLARE STREAM S(A)",
        "1:54 name S taken",
    ),
    (
        "DECLARE EVENT A() DECLARE STREAM S(A) DECLARE EVENT S()",
        "1:53 name S taken",
    ),
    (
        "DECLARE EVENT A() DECLARE EVENT B() DECLARE STREAM S(B, A, B, B) SELECT * FROM S WHERE A",
        "2 types, 2 in S, 1 queries",
    ),
    (
        "SELECT * FROM S WHERE A DECLARE EVENT A() DECLARE STREAM S(A)",
        "1:15 unknown stream S",
    ),
    (
        "DECLARE EVENT A(b BOOL) DECLARE EVENT B(b INT) DECLARE STREAM S(A) SELECT * FROM S WHERE A FILTER A[b < TRUE]",
        "1:101 BOOL has no order",
    ),
    (
        "DECLARE EVENT A(b BOOL) DECLARE EVENT B(b INT) DECLARE STREAM S(A) SELECT * FROM S WHERE A FILTER A[b = 1]",
        "1:101 attribute b is never INT",
    ),
    (
        "DECLARE EVENT A(t INT) DECLARE EVENT B(t STRING) DECLARE STREAM S(A, B) SELECT * FROM S WHERE A WITHIN 1 [t]",
        "1:107 window attribute t is not INT in every type",
    ),
    (
        "DECLARE EVENT A(t DECIMAL(2)) DECLARE STREAM S(A) SELECT * FROM S WHERE A FILTER A[t = 1] WITHIN 1 [t]",
        "1:101 window attribute t is not INT in every type",
    ),
    ("?", "1:1 byte 3f not allowed"),
    ("A", "1:1 unexpected token"),
    ("\u{FEFF}A", "1:1 unexpected token"),
    ("\u{FEFF}\u{FEFF}A", "1:1 byte ef not allowed"),
    ("DECLARE EVENT A()?", "1:18 byte 3f not allowed"),
    ("DECLARE EVENT A() A", "1:19 unexpected token"),
    ("A ?", "1:3 byte 3f not allowed"),
    ("DECLARE STREAM S(A) A", "1:21 unexpected token"),
    ("-- \u{E9} ?\nA", "2:1 unexpected token"),
    (
        "SELECT * FROM S WHERE A FILTER A[s = '\u{E9}'] ?",
        "1:44 byte 3f not allowed",
    ),
    (
        "DECLARE EVENT A()\r\nDECLARE STREAM S(A)\r\nSELECT * FROM S WHERE A ; B\r\n",
        "3:27 unknown type B",
    ),
    (
        "DECLARE EVENT A(b BOOL) DECLARE STREAM S(A) SELECT * FROM S WHERE A FILTER A[b < TRUE]",
        "1:78 BOOL has no order",
    ),
];

#[test]
fn whole_texts(rt: HostRuntime) -> Result<(), Fail> {
    texts_hold(&rt, rt.alloc(), "", "", TEXTS)
}

/// A string with a byte that is no text.
const NO_UTF8: &[u8] = b"SELECT * FROM S WHERE A FILTER A[s = '\xFF']";

#[test]
fn a_string_has_to_be_utf8(rt: HostRuntime) -> Result<(), Fail> {
    let shown = answer(rt.alloc(), NO_UTF8)?;
    same(&rt, shown.as_str(), "1:38 string is not UTF-8", "a string");
    Ok(())
}
