//! What queries mean, worked out by hand.

use super::rows::{PLAIN, rows_hold, rows_hold_in_parts};
use std::test::*;

const PATTERNS: &str = "\
row | formula | events | output
sequence skips events between | A ; B | A,1 / A,2 / B,3 | 1 [0,2] {0,2} / 1 [1,2] {1,2}
no events have no answers | A ; B
next event of the query | A : B | A,1 / A,2 / B,3 | 1 [1,2] {1,2}
iteration takes every choice | A+ | A,1 / A,2 / A,3 | 1 [0,0] {0} / 1 [0,1] {0,1} / 1 [1,1] {1} / 1 [0,2] {0,1,2} / 1 [0,2] {0,2} / 1 [1,2] {1,2} / 1 [2,2] {2}
iteration with nothing between | A :+ | A,1 / A,2 / A,3 | 1 [0,0] {0} / 1 [0,1] {0,1} / 1 [1,1] {1} / 1 [0,2] {0,1,2} / 1 [1,2] {1,2} / 1 [2,2] {2}
repetition of repetition | (A+)+ | A,1 / A,1 | 1 [0,0] {0} / 1 [0,1] {0,1} / 1 [1,1] {1}
choice has the answers of either | A OR B | A,1 / B,1 | 1 [0,0] {0} / 1 [1,1] {1}
a name changes no answer | A AS a | A,1 | 1 [0,0] {0}
keep leaves the interval | (A+ AS a ; B AS b) KEEP [a] | A,1 / A,1 / B,1 | 1 [0,2] {0} / 1 [0,2] {0,1} / 1 [1,2] {1}
keep of one of two | (A AS a ; B) KEEP [a] | A,1 / B,1 | 1 [0,1] {0}
chains are tighter than choices | A OR B ; A | A,1 / B,1 / A,1 | 1 [0,0] {0} / 1 [1,2] {1,2} / 1 [2,2] {2}
parentheses make a choice tighter | (A OR B) ; A | A,1 / B,1 / A,1 | 1 [0,2] {0,2} / 1 [1,2] {1,2}
filters are the loosest | A OR B ; A FILTER A[v > 1] | A,1 / B,1 / A,1 / A,2 | 1 [1,3] {1,3} / 1 [3,3] {3}
chains are read from the left | A : B ; A | A,1 / B,1 / B,1 / A,1 | 1 [0,3] {0,1,3}
a tight link after a loose one | A ; B : A | A,1 / B,1 / B,1 / A,1 | 1 [0,3] {0,2,3}";

const FILTERS: &str = "\
row | formula | events | output
a filter tests each event | A+ FILTER A[v > 1] | A,1 / A,2 / A,3 | 1 [1,1] {1} / 1 [1,2] {1,2} / 1 [2,2] {2}
a filter holds of no event | A OR B FILTER A[v > 5] | A,1 / B,1 | 1 [1,1] {1}
filters are met by one valuation | (A AS x ; B AS y) FILTER x[v = 1] OR y[v = 1] | A,1 / B,1 | 1 [0,1] {0,1}
several filters all apply | A FILTER A[v > 1] FILTER A[v < 3] | A,1 / A,2 / A,3 | 1 [1,1] {1}
AND is tighter in filters | A ; B FILTER A[v = 1] OR A[v = 2] AND B[v = 2] | A,1 / B,1 | 1 [0,1] {0,1}
AND is tighter in predicates | A FILTER A[v = 1 OR v = 2 AND v = 3] | A,1 / A,2 / A,3 | 1 [0,0] {0}
parentheses in predicates | A FILTER A[(v = 1 OR v = 2) AND v = 2] | A,1 / A,2 | 1 [1,1] {1}
NOT of parentheses | A FILTER A[NOT (v = 1 OR v = 2)] | A,1 / A,2 / A,3 | 1 [2,2] {2}
equal | A FILTER A[v = 2] | A,1 / A,2 / A,3 | 1 [1,1] {1}
equal by two signs | A FILTER A[v == 2] | A,1 / A,2 / A,3 | 1 [1,1] {1}
unequal | A FILTER A[v != 2] | A,1 / A,2 / A,3 | 1 [0,0] {0} / 1 [2,2] {2}
unequal by other signs | A FILTER A[v <> 2] | A,1 / A,2 / A,3 | 1 [0,0] {0} / 1 [2,2] {2}
below | A FILTER A[v < 2] | A,1 / A,2 / A,3 | 1 [0,0] {0}
at most | A FILTER A[v <= 2] | A,1 / A,2 / A,3 | 1 [0,0] {0} / 1 [1,1] {1}
above | A FILTER A[v > 2] | A,1 / A,2 / A,3 | 1 [2,2] {2}
at least | A FILTER A[v >= 2] | A,1 / A,2 / A,3 | 1 [1,1] {1} / 1 [2,2] {2}
a number with a sign | A FILTER A[v = -1] | A,1 / A,-1 | 1 [1,1] {1}
whole numbers and decimals compare by value | A FILTER A[v >= 1.5] AND A[v = 2.0] | A,1 / A,2 | 1 [1,1] {1}";

const ANSWERS: &str = "\
row | query | events | output
valuations with one answer are one | SELECT b FROM S WHERE A AS a ; A AS c ; B AS b | A,1 / A,1 / A,1 / B,1 | 1 [0,3] {3} / 1 [1,3] {3}
an answer may mark nothing | SELECT b FROM S WHERE A OR B AS b | A,1 | 1 [0,0] {}
marks of a name and of a type | SELECT b, A FROM S WHERE A ; A AS c ; B AS b | A,1 / A,1 / B,1 | 1 [0,2] {0,1,2}
queries answer in turn | SELECT * FROM S WHERE A / SELECT * FROM S WHERE A ; B | A,1 / B,1 | 1 [0,0] {0} / 2 [0,1] {0,1}
strict leaves out no event | SELECT STRICT * FROM S WHERE A ; B | A,1 / A,2 / B,3 | 1 [1,2] {1,2}
strict of one mark | SELECT STRICT b FROM S WHERE A AS a ; B AS b | A,1 / A,2 / B,3 | 1 [0,2] {2} / 1 [1,2] {2}
any of more than there are | SELECT ANY 5 * FROM S WHERE A+ | A,1 / A,2 / A,3 | 1 [0,0] {0} / 1 [0,1] {0,1} / 1 [1,1] {1} / 1 [0,2] {0,1,2} / 1 [0,2] {0,2} / 1 [1,2] {1,2} / 1 [2,2] {2}
any of as many as can be asked for | SELECT ANY 4294967295 * FROM S WHERE A | A,1 | 1 [0,0] {0}
types of two streams | DECLARE STREAM T(B) / DECLARE STREAM U(A) / SELECT * FROM T, U WHERE A ; B | A,1 / B,1 | 1 [0,1] {0,1}
the sample over its first events | SELECT * FROM S WHERE A AS a ; B AS b FILTER a[v < 64] AND b[v < 64] WITHIN 8 EVENTS / SELECT * FROM S WHERE A+ ; B WITHIN 6 EVENTS | A,20 / A,26 / B,26 | 1 [0,2] {0,2} / 1 [1,2] {1,2} / 2 [0,2] {0,1,2} / 2 [0,2] {0,2} / 2 [1,2] {1,2}
events of other types are skipped | DECLARE STREAM T(A, A) / SELECT * FROM T WHERE A : A | A,1 / B,1 / A,1 | 1 [0,2] {0,2}";

/// A type without attributes, and two streams.
const LOGINS: &str =
    "DECLARE EVENT Login(user STRING, ok BOOL)\nDECLARE EVENT Tick()\nDECLARE STREAM S(Login, Tick)\nDECLARE STREAM T(Tick, Tick)\n";

const TICKS: &str = "\
row | query | events | output
types without attributes | SELECT b, Login FROM S WHERE Login : Tick AS b | Login,ann,true / Tick | 1 [0,1] {0,1}
types of two streams | SELECT ANY 5 * FROM S, T WHERE Login : Tick | Login,ann,true / Tick | 1 [0,1] {0,1}
events of one stream | SELECT * FROM T WHERE Tick : Tick | Tick / Login,ann,true / Tick | 1 [0,2] {0,2}
logins of one user | SELECT * FROM S WHERE Login : Login PARTITION BY [user] | Login,ann,true / Login,bob,true / Login,ann,false | 1 [0,2] {0,2}";

const WINDOWS: &str = "\
row | formula | events | output
window of no events | A ; B WITHIN 0 EVENTS | A,1 / A,2 / B,3
window of one event | A ; B WITHIN 1 EVENTS | A,1 / A,2 / B,3 | 1 [1,2] {1,2}
window of two events | A ; B WITHIN 2 EVENTS | A,1 / A,2 / B,3 | 1 [0,2] {0,2} / 1 [1,2] {1,2}
window of eight events | A ; B FILTER B[v = 1] WITHIN 8 EVENTS | A,1 / B,0 / B,0 / B,0 / B,0 / B,0 / B,0 / B,0 / B,1 / B,1 | 1 [0,8] {0,8}";

/// The types have a time.
const TIMED: &str = "DECLARE EVENT A(t INT)\nDECLARE EVENT B(t INT)\nDECLARE STREAM S(A, B)\n";

const TIMES: &str = "\
row | formula | events | status | output | note
window by an attribute | A ; B WITHIN 5 [t] | A,10 / A,10 / B,15 / B,16 | 0 | 1 [0,2] {0,2} / 1 [1,2] {1,2}
time that falls is refused | A WITHIN 5 [t] | A,10 / A,9 | 4 | 1 [0,0] {0} | events line 2: time falls from 10 to 9 in query 1
time of the second query falls | A / SELECT * FROM S WHERE B WITHIN 5 [t] | A,9 / B,9 / A,8 / B,8 | 4 | 1 [0,0] {0} / 2 [1,1] {1} | events line 3: time falls from 9 to 8 in query 2
window in seconds | A ; B WITHIN 5 SECONDS [t] | A,0 / B,5 / B,6 | 0 | 1 [0,1] {0,1}
window in a minute | A ; B WITHIN 1 MINUTE [t] | A,0 / B,60 / B,61 | 0 | 1 [0,1] {0,1}
window in minutes | A ; B WITHIN 2 MINUTES [t] | A,0 / B,120 / B,121 | 0 | 1 [0,1] {0,1}
window in an hour | A ; B WITHIN 1 HOUR [t] | A,0 / B,3600 / B,3601 | 0 | 1 [0,1] {0,1}
window in hours | A ; B WITHIN 2 HOURS [t] | A,0 / B,7200 / B,7201 | 0 | 1 [0,1] {0,1}";

/// The types have a key.
const KEYED: &str = "DECLARE EVENT A(k INT)\nDECLARE EVENT B(k INT)\nDECLARE STREAM S(A, B)\n";

const PARTITIONS: &str = "\
row | formula | events | output
partitions do not meet | A ; B PARTITION BY [k] | A,1 / A,2 / B,1 | 1 [0,2] {0,2}
next event of the partition | A : B PARTITION BY [k] | A,1 / A,2 / B,1 | 1 [0,2] {0,2}";

/// The second type has no key, and another attribute.
const APART: &str = "DECLARE EVENT A(k INT)\nDECLARE EVENT B(v INT)\nDECLARE STREAM S(A, B)\n";

const KEYS_OF_ONE: &str = "\
row | formula | events | output
an event without the key is in no partition | A ; B PARTITION BY [k] / SELECT * FROM S WHERE A PARTITION BY [k] | A,1 / B,1 | 2 [0,0] {0}";

/// The attributes have different names.
const UNLIKE: &str = "DECLARE EVENT A(v INT)\nDECLARE EVENT B(w INT)\nDECLARE STREAM S(A, B)\n";

const ABSENT: &str = "\
row | formula | events | output
not holds where the attribute is missing | (A OR B) AS x FILTER x[NOT v = 1] | A,1 / B,1 | 1 [1,1] {1}";

/// A key and a time.
const TIMED_KEYS: &str = "DECLARE EVENT A(k INT, t INT)\nDECLARE STREAM S(A)\n\n";

const TIMES_OF_KEYS: &str = "\
row | formula | events | status | output | note
time falls in another partition | A PARTITION BY [k] WITHIN 5 [t] | A,1,10 / A,2,9 | 4 | 1 [0,0] {0} | events line 2: time falls from 10 to 9 in query 1";

const BANK: &str = "\
DECLARE EVENT Login(user STRING, country STRING, granted BOOL, at INT)
DECLARE EVENT Transfer(user STRING, amount DECIMAL(2), at INT)
DECLARE STREAM Bank(Login, Transfer)
SELECT * FROM Bank
WHERE Login AS missed ; Login AS again ; Login AS entered ; Transfer
FILTER missed[granted = FALSE] AND again[granted = FALSE] AND entered[granted = TRUE] AND Transfer[amount >= 1000]
PARTITION BY [user] WITHIN 10 MINUTES [at]
";

const TRANSFERS: &str = "\
row | events | output
two failed logins then one that works then a large transfer | Login,ann,DE,true,0 / Login,bob,FR,false,5 / Login,bob,FR,false,20 / Transfer,ann,19.90,30 / Login,bob,US,true,65 / Transfer,bob,250.00,80 / Login,eve,US,false,100 / Transfer,bob,4999.00,120 / Login,eve,US,true,130 / Transfer,eve,3000.00,140 / Transfer,bob,1200.00,700 | 1 [1,7] {1,2,4,7}";

/// Tables of rows, each with the first lines of its query texts.
const TABLES: &[(&str, &str)] = &[
    (PLAIN, PATTERNS),
    (PLAIN, FILTERS),
    (PLAIN, ANSWERS),
    (LOGINS, TICKS),
    (PLAIN, WINDOWS),
    (TIMED, TIMES),
    (KEYED, PARTITIONS),
    (APART, KEYS_OF_ONE),
    (UNLIKE, ABSENT),
    (TIMED_KEYS, TIMES_OF_KEYS),
    (BANK, TRANSFERS),
];

#[test]
fn queries_mean_what_they_say(rt: HostRuntime) -> Result<(), Fail> {
    let alloc = rt.alloc();
    for &(first, table) in TABLES {
        rows_hold(&rt, alloc, first, table, &rt)?;
    }
    Ok(())
}

/// What a run over all events writes, two runs write wherever the events are cut, of which the second
/// goes on from the checkpoint of the first.
#[test]
fn queries_mean_the_same_in_two_parts(rt: HostRuntime) -> Result<(), Fail> {
    let alloc = rt.alloc();
    for &(first, table) in TABLES {
        rows_hold_in_parts(&rt, alloc, first, table, &rt)?;
    }
    Ok(())
}
