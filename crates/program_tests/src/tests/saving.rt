//! What is saved of the events, worked out by hand.

use super::rows::{PLAIN, rows_hold};
use std::test::*;

const CHECKPOINTS: &str = "\
row | query | words | events | output
the window's edge | SELECT * FROM S WHERE A+ WITHIN 1 EVENTS | save q e | A,1 / A,2 / A,3 | core checkpoint 1 / events 3 2 / at 1 / A,2 / at 2 / A,3
a clock's edge | SELECT * FROM S WHERE A WITHIN 5 [v] | save q e | A,4 / A,5 / B,10 | core checkpoint 1 / events 3 2 / at 1 / A,5 / at 2 / B,10
a free window needs all | SELECT * FROM S WHERE A | save q e | A,1 / B,2 | core checkpoint 1 / events 2 2 / at 0 / A,1 / at 1 / B,2
what one of the queries needs | SELECT * FROM S WHERE A WITHIN 1 EVENTS / SELECT * FROM S WHERE B WITHIN 2 EVENTS | save q e | A,1 / A,2 / A,3 / A,4 | core checkpoint 1 / events 4 3 / at 1 / A,2 / at 2 / A,3 / at 3 / A,4
the last event that the query reads | DECLARE STREAM T(A) / SELECT * FROM T WHERE A WITHIN 1 EVENTS | save q e | A,1 / B,2 / B,3 / B,4 | core checkpoint 1 / events 4 1 / at 0 / A,1
an empty line is no position | SELECT * FROM S WHERE A | save q e | A,1 /  / A,2 | core checkpoint 1 / events 2 2 / at 0 / A,1 / at 1 / A,2
a line as it was read | SELECT * FROM S WHERE A | save q e | A,\"1\" / A,2\r | core checkpoint 1 / events 2 2 / at 0 / A,\"1\" / at 1 / A,2
no event at all | SELECT * FROM S WHERE A | save q e |  | core checkpoint 1 / events 0 0";

const FAULTS: &str = "\
row | query | words | events | status | output | note
no line is passed over | SELECT * FROM S WHERE A | save q e | A,1 / A,x | 4 |  | events line 2: field 1 is no INT
time falls | SELECT * FROM S WHERE A / SELECT * FROM S WHERE A WITHIN 5 [v] | save q e | A,10 / B,9 | 4 |  | events line 2: time falls from 10 to 9 in query 2
a refused query text | SELECT * FROM S | save q e | A,x | 3 |  | queries 5:1: unexpected end of text
no event file | SELECT * FROM S WHERE A | save q f | A,1 | 5 |  | cannot open events
no query file | SELECT * FROM S WHERE A | save f e | A,1 | 5 |  | cannot open queries
a word is missing | SELECT * FROM S WHERE A | save q | A,1 | 2 |  | usage
an option of a run | SELECT * FROM S WHERE A | save q e --max-bytes 5 | A,1 | 2 |  | usage";

#[test]
fn what_the_windows_need_is_saved(rt: HostRuntime) -> Result<(), Fail> {
    rows_hold(&rt, rt.alloc(), PLAIN, CHECKPOINTS, &rt)
}

#[test]
fn nothing_is_saved_after_a_fault(rt: HostRuntime) -> Result<(), Fail> {
    rows_hold(&rt, rt.alloc(), PLAIN, FAULTS, &rt)
}
