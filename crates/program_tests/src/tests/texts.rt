//! The forms of query texts and of event lines.

use super::rows::{PLAIN, rows_hold};
use core_calls::calls::done_well;
use std::test::*;

const QUERIES: &str = "\
row | query | events | output
keywords in any case | sElEcT * from S wHeRe A ; B | A,1 / B,1 | 1 [0,1] {0,1}
statements need no sign between | SELECT * FROM S WHERE A SELECT * FROM S WHERE B | A,1 / B,1 | 1 [0,0] {0} / 2 [1,1] {1}
blanks and tabs and line ends stand anywhere | SELECT\t* /   FROM\tS / WHERE  A;B | A,1 / B,1 | 1 [0,1] {0,1}
a comment ends with its line | SELECT * -- ? ' marks all / FROM S WHERE A --; B | A,1 / B,1 | 1 [0,0] {0}
names of letters and digits and _ | SELECT _x1 FROM S WHERE A AS _x1 | A,1 | 1 [0,0] {0}";

/// A type of each kind.
const KINDS: &str = "DECLARE EVENT A(v INT)
DECLARE EVENT N(s STRING)
DECLARE EVENT D(p DECIMAL(2))
DECLARE EVENT L(ok BOOL)
DECLARE EVENT B(v INT, s STRING)
DECLARE STREAM S(A, N, D, L, B)
";

const VALUES: &str = r#"row | formula | events | output
a value of each kind | A OR N OR D | A,1 / N,"a, b and ""c""" / D,-1.50 | 1 [0,0] {0} / 1 [1,1] {1} / 1 [2,2] {2}
a quoted text | N FILTER N[s = 'a, b and "c"'] | N,"a, b and ""c""" | 1 [0,0] {0}
what follows a quoted text is added | N FILTER N[s = 'ab'] | N,"a"b | 1 [0,0] {0}
a quote in another text | N FILTER N[s = 'a"b'] | N,a"b | 1 [0,0] {0}
blanks are kept | N FILTER N[s = ' a'] | N,a / N, a | 1 [1,1] {1}
an empty text | N FILTER N[s = ''] | N, / N,"" | 1 [0,0] {0} / 1 [1,1] {1}
a single quote is doubled in single quotes | N FILTER N[s = 'it''s'] | N,it's | 1 [0,0] {0}
a double quote is doubled in double quotes | N FILTER N[s = "it""s"] | N,it"s | 1 [0,0] {0}
texts compare by their bytes | N FILTER N[s < 'b'] | N,a / N,b / N,B | 1 [0,0] {0} / 1 [2,2] {2}
whole numbers with signs and zeros | A FILTER A[v = 1] OR A[v = 0] | A,+1 / A,-0 / A,001 | 1 [0,0] {0} / 1 [1,1] {1} / 1 [2,2] {2}
the largest whole number | A FILTER A[v = 9223372036854775807] | A,9223372036854775807 | 1 [0,0] {0}
decimals compare by value | D FILTER D[p >= 1.5] | D,1.49 / D,1.50 / D,+2 | 1 [1,1] {1} / 1 [2,2] {2}
a decimal with a sign | D FILTER D[p = -1.50] | D,-1.5 / D,-1.51 | 1 [0,0] {0}
decimals compare with whole numbers | D FILTER D[p = 2] | D,2.00 / D,2.01 | 1 [0,0] {0}
truth values in any case | L FILTER L[ok = FALSE] | L,true / L,FALSE / L,fAlSe | 1 [1,1] {1} / 1 [2,2] {2}
truth values by another sign | L FILTER L[ok != TRUE] | L,true / L,false | 1 [1,1] {1}
another kind does not compare | (A OR D OR L) AS x FILTER x[NOT v = 1] | A,1 / D,1 / L,true | 1 [1,1] {1} / 1 [2,2] {2}
predicates of two attributes | A ; B FILTER A[v > 1] AND B[v = 2 OR NOT s = 'x'] | A,1 / A,2 / B,1,x / B,2,x / B,1,y | 1 [1,3] {1,3} / 1 [1,4] {1,4}"#;

const LINES: &str = "\
row | formula | events | output
a carriage return at a line's end | N FILTER N[s = 'a,\"b'] | N,\"a,\"\"b\"\r | 1 [0,0] {0}
empty lines are no events | A | A,1 /  / \r / A,2 | 1 [0,0] {0} / 1 [1,1] {1}
a byte order mark at the beginning | A | \u{feff}A,1 / A,2 | 1 [0,0] {0} / 1 [1,1] {1}
a byte order mark alone | A | \u{feff} / A,2 | 1 [0,0] {0}";

#[test]
fn texts_are_read(rt: HostRuntime) -> Result<(), Fail> {
    let alloc = rt.alloc();
    rows_hold(&rt, alloc, PLAIN, QUERIES, &rt)?;
    rows_hold(&rt, alloc, KINDS, VALUES, &rt)?;
    rows_hold(&rt, alloc, KINDS, LINES, &rt)?;
    let marked = format!(in alloc; "\u{feff}{PLAIN}")?;
    rows_hold(&rt, alloc, marked.as_str(), QUERIES, &rt)
}

/// Both files may lack their last line feed.
#[test]
fn the_last_line_may_lack_its_end(rt: HostRuntime) -> Result<(), Fail> {
    let alloc = rt.alloc();
    let queries = format!(in alloc; "{PLAIN}SELECT * FROM S WHERE A")?;
    let told = done_well(alloc, "run q e", queries.as_bytes(), b"A,1\nA,2", &rt)?;
    assert_eq!(rt; told.as_str(), "0|1 [0,0] {0}\n1 [1,1] {1}\n|");
    Ok(())
}
