//! What is refused, and with which note.

use super::rows::{PLAIN, rows_hold};
use core_calls::calls::done_well;
use std::test::*;

/// Each at its first fault.
const QUERIES: &str = "\
query | status | note
SELECT * FROM S WHERE A ? B | 3 | queries 4:25: byte 3f not allowed
SELECT * FROM S WHERE A FILTER A[v = 'x] | 3 | queries 4:38: string not closed
SELECT * FROM S WHERE A FILTER A[v = 9223372036854775808] | 3 | queries 4:38: number too large
SELECT * FROM S WHERE A FILTER A[v = 1.0123456789] | 3 | queries 4:38: more than 9 decimals
SELECT * FROM S WHERE A B | 3 | queries 4:25: unexpected token
SELECT * FROM S WHERE A FILTER A[NOT NOT v = 1] | 3 | queries 4:38: unexpected token
SELECT * FROM S WHERE A ; | 3 | queries 5:1: unexpected end of text
DECLARE EVENT All(x INT) | 3 | queries 4:15: unexpected token
DECLARE EVENT A(x INT) | 3 | queries 4:15: name A taken
DECLARE EVENT S(x INT) | 3 | queries 4:15: name S taken
DECLARE STREAM A(B) | 3 | queries 4:16: name A taken
DECLARE EVENT C(x INT, x INT) | 3 | queries 4:24: name x taken
DECLARE EVENT C(p DECIMAL(10)) | 3 | queries 4:27: DECIMAL takes 0 to 9
DECLARE STREAM T(A, C) | 3 | queries 4:21: unknown type C
SELECT ANY 0 * FROM S WHERE A | 3 | queries 4:12: ANY takes 1 to 4294967295
SELECT ANY 4294967296 * FROM S WHERE A | 3 | queries 4:12: ANY takes 1 to 4294967295
SELECT * FROM T WHERE A | 3 | queries 4:15: unknown stream T
SELECT * FROM T WHERE A / DECLARE STREAM T(A) | 3 | queries 4:15: unknown stream T
SELECT * FROM S WHERE C | 3 | queries 4:23: unknown type C
SELECT * FROM S WHERE a | 3 | queries 4:23: unknown type a
DECLARE STREAM T(B) / SELECT * FROM T WHERE A | 3 | queries 5:23: unknown type A
SELECT * FROM S WHERE A AS B | 3 | queries 4:28: name B taken
SELECT * FROM S WHERE A KEEP [x] | 3 | queries 4:31: unknown name x
SELECT * FROM S WHERE A FILTER x[v = 1] | 3 | queries 4:32: unknown name x
SELECT * FROM S WHERE (A AS a ; B AS b) KEEP [a] FILTER b[v = 1] | 3 | queries 4:57: unknown name b
SELECT * FROM S WHERE (A AS a ; B AS b) KEEP [a] KEEP [A] | 3 | queries 4:56: unknown name A
SELECT b FROM S WHERE (A AS a ; B AS b) KEEP [a] | 3 | queries 4:8: unknown name b
SELECT * FROM S WHERE A FILTER A[w = 1] | 3 | queries 4:34: unknown attribute w
SELECT * FROM S WHERE A FILTER A[v = 'x'] | 3 | queries 4:34: attribute v is never STRING
SELECT x FROM S WHERE A | 3 | queries 4:8: unknown name x
SELECT * FROM S WHERE A PARTITION BY [k] | 3 | queries 4:39: unknown attribute k
SELECT * FROM S WHERE A WITHIN 5 [w] | 3 | queries 4:35: window attribute w is not INT in every type
 | 3 | queries 5:1: no query";

/// The second type has a truth value.
const TRUTH: &str = "DECLARE EVENT A(v INT)\nDECLARE EVENT B(v BOOL)\nDECLARE STREAM S(A, B)\n";

const ORDERS: &str = "\
query | status | note
SELECT * FROM S WHERE A FILTER A[v < TRUE] | 3 | queries 4:34: BOOL has no order
SELECT * FROM S WHERE A WITHIN 5 [v] | 3 | queries 4:35: window attribute v is not INT in every type";

/// Nothing is read of the event file.
#[test]
fn query_texts_are_refused_at_their_first_fault(rt: HostRuntime) -> Result<(), Fail> {
    let alloc = rt.alloc();
    rows_hold(&rt, alloc, PLAIN, QUERIES, &rt)?;
    rows_hold(&rt, alloc, TRUTH, ORDERS, &rt)?;
    let scale =
        "query | status | note\nDECLARE EVENT A(p DECIMAL(10)) | 3 | queries 1:27: DECIMAL takes 0 to 9";
    rows_hold(&rt, alloc, "", scale, &rt)
}

/// A type of each kind, and a query of three of them.
const KINDS: &str = "DECLARE EVENT A(v INT)
DECLARE EVENT N(s STRING)
DECLARE EVENT D(p DECIMAL(2))
DECLARE EVENT L(ok BOOL)
DECLARE STREAM S(A, N, D, L)
SELECT * FROM S WHERE A
";

/// What was answered before stays.
const EVENTS: &str = "\
events | status | note | output
A,\r1 | 4 | events line 1: carriage return or byte order mark in the line
A,1 / \u{feff}A,2 | 4 | events line 2: carriage return or byte order mark in the line | 1 [0,0] {0}
\u{feff}\u{feff}A,1 | 4 | events line 1: carriage return or byte order mark in the line
N,\"a | 4 | events line 1: open quote
A,\"1 | 4 | events line 1: open quote
C,1 | 4 | events line 1: unknown type
a,1 | 4 | events line 1: unknown type
A,1,2 | 4 | events line 1: 2 fields where 1 is wanted
A | 4 | events line 1: 0 fields where 1 is wanted
A,x | 4 | events line 1: field 1 is no INT
A, 1 | 4 | events line 1: field 1 is no INT
A, | 4 | events line 1: field 1 is no INT
A,9223372036854775808 | 4 | events line 1: field 1 is no INT
D,1.505 | 4 | events line 1: field 1 is no DECIMAL(2)
D,1. | 4 | events line 1: field 1 is no DECIMAL(2)
D,92233720368547758.08 | 4 | events line 1: field 1 is no DECIMAL(2)
L,yes | 4 | events line 1: field 1 is no BOOL
A,1 /  / A,x | 4 | events line 3: field 1 is no INT | 1 [0,0] {0}
C,\"\r1 | 4 | events line 1: carriage return or byte order mark in the line
C,\"1 | 4 | events line 1: open quote
C,x,1 | 4 | events line 1: unknown type
A,x,1 | 4 | events line 1: 2 fields where 1 is wanted";

#[test]
fn event_files_are_refused_at_their_first_fault(rt: HostRuntime) -> Result<(), Fail> {
    let alloc = rt.alloc();
    rows_hold(&rt, alloc, KINDS, EVENTS, &rt)
}

/// A byte that no UTF-8 text has, in a string and in a field.
#[test]
fn bytes_that_are_no_text_are_refused(rt: HostRuntime) -> Result<(), Fail> {
    let alloc = rt.alloc();
    let mut queries = Vec::from_slice(alloc, PLAIN.as_bytes())?;
    queries.extend_from_slice(b"SELECT * FROM S WHERE A FILTER A[v = '\xff']\n")?;
    let told = done_well(alloc, "run q e", queries.as_slice(), b"", &rt)?;
    let wanted = "3||core: queries 4:38: string is not UTF-8\n";
    assert_eq!(rt; told.as_str(), wanted);
    let told = done_well(alloc, "run q e", KINDS.as_bytes(), b"A,1\nN,\xff\n", &rt)?;
    let wanted = "4|1 [0,0] {0}\n|core: events line 2: field 1 is no STRING\n";
    assert_eq!(rt; told.as_str(), wanted);
    Ok(())
}
