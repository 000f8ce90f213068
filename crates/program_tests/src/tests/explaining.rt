//! Why an answer is one, worked out by hand.

use super::rows::{PLAIN, rows_hold};
use std::test::*;

const ANSWERS: &str = "\
row | query | words | events | output
names and types of the valuation | SELECT b FROM S WHERE A AS a ; A AS c ; B AS b | explain q e 1 1 3 3 | A,1 / A,1 / A,1 / B,1 | 1 [1,3] {3} / A {1,2} / B {3} / a {1} / b {3} / c {2}
no answer begins there | SELECT b FROM S WHERE A AS a ; A AS c ; B AS b | explain q e 1 2 3 3 | A,1 / A,1 / A,1 / B,1 | none
other marks | SELECT b FROM S WHERE A AS a ; A AS c ; B AS b | explain q e 1 1 3 2 3 | A,1 / A,1 / A,1 / B,1 | none
a second query | SELECT * FROM S WHERE A / SELECT * FROM S WHERE A ; B | explain q e 2 0 1 0 1 | A,1 / B,1 | 2 [0,1] {0,1} / A {0} / B {1}
no query 0 | SELECT * FROM S WHERE A | explain q e 0 0 0 0 | A,1 | none
no query 2 | SELECT * FROM S WHERE A | explain q e 2 0 0 0 | A,1 | none
no query of the greatest number | SELECT * FROM S WHERE A | explain q e 18446744073709551615 0 0 0 | A,1 | none
no such event | SELECT * FROM S WHERE A | explain q e 1 1 1 1 | A,1 | none
no event of the greatest number | SELECT * FROM S WHERE A | explain q e 1 0 18446744073709551615 0 | A,1 | none
the end lies before the start | SELECT * FROM S WHERE A | explain q e 1 1 0 0 1 | A,1 / A,1 | none
no event at all | SELECT * FROM S WHERE A | explain q e 1 0 0 0 |  | none
an answer may mark nothing | SELECT b FROM S WHERE A OR B AS b | explain q e 1 0 0 | A,1 | 1 [0,0] {} / A {0}
no answer marks nothing | SELECT * FROM S WHERE A | explain q e 1 0 0 | A,1 | none
positions are a set | SELECT * FROM S WHERE A ; B | explain q e 1 0 2 2 0 2 | A,1 / A,2 / B,3 | 1 [0,2] {0,2} / A {0} / B {2}
strict leaves out no event | SELECT STRICT * FROM S WHERE A ; B | explain q e 1 1 2 1 2 | A,1 / A,2 / B,3 | 1 [1,2] {1,2} / A {1} / B {2}
strict refuses a gap | SELECT STRICT * FROM S WHERE A ; B | explain q e 1 0 2 0 2 | A,1 / A,2 / B,3 | none
strict of one mark | SELECT STRICT b FROM S WHERE A AS a ; B AS b | explain q e 1 0 2 2 | A,1 / A,2 / B,3 | 1 [0,2] {2} / A {0} / B {2} / a {0} / b {2}
the window's edge | SELECT * FROM S WHERE A ; B WITHIN 1 EVENTS | explain q e 1 1 2 1 2 | A,1 / A,2 / B,3 | 1 [1,2] {1,2} / A {1} / B {2}
beyond the window's edge | SELECT * FROM S WHERE A ; B WITHIN 1 EVENTS | explain q e 1 0 2 0 2 | A,1 / A,2 / B,3 | none
a clock's edge | SELECT * FROM S WHERE A ; B WITHIN 5 [v] | explain q e 1 0 1 0 1 | A,10 / B,15 | 1 [0,1] {0,1} / A {0} / B {1}
beyond a clock's edge | SELECT * FROM S WHERE A ; B WITHIN 5 [v] | explain q e 1 0 1 0 1 | A,10 / B,16 | none
one partition | SELECT * FROM S WHERE A ; B PARTITION BY [v] | explain q e 1 0 2 0 2 | A,1 / A,2 / B,1 | 1 [0,2] {0,2} / A {0} / B {2}
another partition | SELECT * FROM S WHERE A ; B PARTITION BY [v] | explain q e 1 1 2 1 2 | A,1 / A,2 / B,1 | none
any asks for few and all are answers | SELECT ANY 1 * FROM S WHERE A+ | explain q e 1 0 1 0 1 | A,1 / A,2 | 1 [0,1] {0,1} / A {0,1}
events after the end change nothing | SELECT * FROM S WHERE A | explain q e 1 0 0 0 | A,1 / B,1 / A,1 | 1 [0,0] {0} / A {0}";

const FAULTS: &str = "\
row | query | words | events | status | output | note
no line is passed over | SELECT * FROM S WHERE A | explain q e 1 0 0 0 | A,1 / A,x | 4 |  | events line 2: field 1 is no INT
not even where there is no such query | SELECT * FROM S WHERE A | explain q e 2 0 0 0 | A,1 / A,x | 4 |  | events line 2: field 1 is no INT
time falls | SELECT * FROM S WHERE A / SELECT * FROM S WHERE A WITHIN 5 [v] | explain q e 1 0 0 0 | A,10 / B,9 | 4 |  | events line 2: time falls from 10 to 9 in query 2
a refused query text | SELECT * FROM S | explain q e 1 0 0 0 | A,1 | 3 |  | queries 5:1: unexpected end of text
no event file | SELECT * FROM S WHERE A | explain q f 1 0 0 0 | A,1 | 5 |  | cannot open events
no query file | SELECT * FROM S WHERE A | explain f e 1 0 0 0 | A,1 | 5 |  | cannot open queries";

#[test]
fn answers_are_explained(rt: HostRuntime) -> Result<(), Fail> {
    rows_hold(&rt, rt.alloc(), PLAIN, ANSWERS, &rt)
}

#[test]
fn nothing_is_explained_after_a_fault(rt: HostRuntime) -> Result<(), Fail> {
    rows_hold(&rt, rt.alloc(), PLAIN, FAULTS, &rt)
}
