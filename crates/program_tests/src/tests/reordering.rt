//! Events that come late, worked out by hand.

use super::rows::rows_hold;
use std::test::*;

/// Two types with a clock each, and a stream of both.
const CLOCKED: &str = "DECLARE EVENT A(t INT)\nDECLARE EVENT B(t INT)\nDECLARE STREAM S(A, B)\n";

const ORDERED: &str = "\
row | formula | words | events | status | output | note
an event that comes late is read where its clock stands | A ; B | reorder q e t 5 | A,10 / B,14 / A,9 / B,16 | 0 | 1 [0,2] {0,2} / 1 [1,2] {1,2} / 1 [0,3] {0,3} / 1 [1,3] {1,3}
none may come late | A | reorder q e t 0 | A,10 / A,9 | 4 | 1 [0,0] {0} | events line 2: time 9 comes too late after 10
none comes late | A | reorder q e t 0 | A,1 / A,1 / A,2 | 0 | 1 [0,0] {0} / 1 [1,1] {1} / 1 [2,2] {2}
at the greatest bound | A | reorder q e t 9223372036854775807 | B,10 / A,-9223372036854775797 | 0 | 1 [0,0] {0}
one below the greatest bound | A | reorder q e t 9223372036854775807 | B,10 / A,-9223372036854775798 | 4 |  | events line 2: time -9223372036854775798 comes too late after 10
of one clock they are read as they came | A ; B | reorder q e t 9 | A,5 / B,5 | 0 | 1 [0,1] {0,1}
and not by their types | A ; B | reorder q e t 9 | B,5 / A,5 | 0
nor by what came between | A ; B | reorder q e t 9 | B,6 / A,5 / B,5 / A,5 | 0 | 1 [0,1] {0,1} / 1 [0,3] {0,3} / 1 [2,3] {2,3}
a clock may be negative | A | reorder q e t 2 | B,-3 / A,-5 | 0 | 1 [0,0] {0}
and too late | A | reorder q e t 2 | B,-3 / A,-6 | 4 |  | events line 2: time -6 comes too late after -3
exactly at the bound | A | reorder q e t 5 | A,10 / A,5 | 0 | 1 [0,0] {0} / 1 [1,1] {1}
one below it | A | reorder q e t 5 | A,10 / A,4 | 4 |  | events line 2: time 4 comes too late after 10
the greatest clock counts and not the last | A | reorder q e t 5 | B,10 / B,6 / A,4 | 4 |  | events line 3: time 4 comes too late after 10
lines in walk order | A | reorder --order walk q e t 5 | A,10 / A,9 | 0 | 1 [0,0] {0} / 1 [1,1] {1}
compacted after each event | A ; B | reorder q e t 5 --compact-every 1 | A,10 / B,14 / A,9 / B,16 | 0 | 1 [0,2] {0,2} / 1 [1,2] {1,2} / 1 [0,3] {0,3} / 1 [1,3] {1,3}
an empty line is none | A | reorder q e t 5 |  | 0";

const FAULTS: &str = "\
row | formula | words | events | status | output | note
what waits at a refused line is not answered | A | reorder q e t 1 | A,10 / A,11 / C,12 | 4 | 1 [0,0] {0} | events line 3: unknown type
nor at a file that is too long | A | reorder q e t 1 --max-bytes 10 | A,10 / A,11 / A,12 | 8 | 1 [0,0] {0} | events longer than 10 bytes
none waits there | A | reorder q e t 0 --max-bytes 5 | A,10 / A,11 | 8 | 1 [0,0] {0} | events longer than 5 bytes
all wait there | A | reorder q e t 1 --max-bytes 5 | A,10 / A,11 | 8 |  | events longer than 5 bytes
no event file | A | reorder q f t 5 |  | 5 |  | cannot open events
no query file | A | reorder f e t 5 |  | 5 |  | cannot open queries
no type has the clock | A | reorder q e v 5 | A,1 | 3 |  | queries 1:1: clock attribute v is not INT in every type
it is looked for before the event file is | A | reorder q f v 5 |  | 3 |  | queries 1:1: clock attribute v is not INT in every type
and behind the query text | A ; | reorder q f v 5 |  | 3 |  | queries 5:1: unexpected end of text";

/// A type with a clock and a window's attribute.
const TWO_CLOCKS: &str = "DECLARE EVENT A(t INT, u INT)\nDECLARE STREAM S(A)\n";

/// The window's clock falls along that of the feed, at the line of the event with which it does.
const FALLING: &str = "\
row | query | words | events | status | output | note
at the end | SELECT * FROM S WHERE A WITHIN 9 [u] | reorder q e t 5 | A,10,1 / A,9,2 | 4 | 1 [0,0] {0} | events line 1: time falls from 2 to 1 in query 1
before the next line is read | SELECT * FROM S WHERE A WITHIN 9 [u] | reorder q e t 5 | A,10,1 / A,9,2 / A,15,3 / C | 4 | 1 [0,0] {0} | events line 1: time falls from 2 to 1 in query 1";

/// Types that have no such clock, or have it as another kind.
const OTHERS: &str = "\
row | query | words | status | output | note
one type has it as a decimal | DECLARE EVENT A(t INT) / DECLARE EVENT B(t DECIMAL(2)) / DECLARE STREAM S(A) / SELECT * FROM S WHERE A | reorder q e t 5 | 3 |  | queries 1:1: clock attribute t is not INT in every type
one type lacks it | DECLARE EVENT A(t INT) / DECLARE EVENT B(u INT) / DECLARE STREAM S(A) / SELECT * FROM S WHERE A | reorder q e t 5 | 3 |  | queries 1:1: clock attribute t is not INT in every type";

#[test]
fn late_events_are_answered_by_their_clocks(rt: HostRuntime) -> Result<(), Fail> {
    rows_hold(&rt, rt.alloc(), CLOCKED, ORDERED, &rt)
}

#[test]
fn a_fault_lets_no_more_events_go(rt: HostRuntime) -> Result<(), Fail> {
    let alloc = rt.alloc();
    rows_hold(&rt, alloc, CLOCKED, FAULTS, &rt)?;
    rows_hold(&rt, alloc, TWO_CLOCKS, FALLING, &rt)?;
    rows_hold(&rt, alloc, "", OTHERS, &rt)
}
