//! What the words ask for.

use super::rows::{PLAIN, rows_hold};
use std::test::*;

/// Each event of the first type is an answer.
const EACH: &str = "SELECT * FROM S WHERE A\n";

const RUNS: &str = "\
words | events | status | output | note
run q e | A,1 / A,2 | 0 | 1 [0,0] {0} / 1 [1,1] {1}
run --order=sorted q e | A,1 / A,2 | 0 | 1 [0,0] {0} / 1 [1,1] {1}
run q --order sorted e | A,1 / A,2 | 0 | 1 [0,0] {0} / 1 [1,1] {1}
run q e --order walk | A,1 / A,2 | 0 | 1 [0,0] {0} / 1 [1,1] {1}
run --order=walk q e --max-bytes 9 | A,1 / A,2 | 0 | 1 [0,0] {0} / 1 [1,1] {1}
run q e --compact-every 1 | A,1 / A,2 | 0 | 1 [0,0] {0} / 1 [1,1] {1}
run --compact-every=4294967295 --order walk q e | A,1 / A,2 | 0 | 1 [0,0] {0} / 1 [1,1] {1}
run -- q e | A,1 / A,2 | 0 | 1 [0,0] {0} / 1 [1,1] {1}
reorder q e v 0 | A,1 / A,2 | 0 | 1 [0,0] {0} / 1 [1,1] {1}
reorder --order=walk q e --compact-every 1 v +05 --max-bytes=99 | A,1 / A,2 | 0 | 1 [0,0] {0} / 1 [1,1] {1}
run q e --max-bytes 4611686018427387904 | A,1 / A,2 | 0 | 1 [0,0] {0} / 1 [1,1] {1}
run q e --max-bytes 8 | A,1 / A,2 | 8 | 1 [0,0] {0} / 1 [1,1] {1} | events longer than 8 bytes
run q --max-bytes=+04 e | A,1 / A,2 | 8 | 1 [0,0] {0} | events longer than 4 bytes
run q e --max-bytes 3 | A,1 / A,2 | 8 |  | events longer than 3 bytes
run q f | A,1 | 5 |  | cannot open events
run f e | A,1 | 5 |  | cannot open queries
run - e | A,1 | 5 |  | cannot open queries
run -- -q e | A,1 | 5 |  | cannot open queries";

const NOTHING: &str = "\
words | status | output | note
 | 2 |  | usage
run | 2 |  | usage
run q | 2 |  | usage
run q e f | 2 |  | usage
run -q e | 2 |  | usage
walk q e | 2 |  | usage
help | 2 |  | usage
--help | 2 |  | usage
run --help | 2 |  | usage
run q e --order | 2 |  | usage
run q e --order other | 2 |  | usage
run q e --order walk --order walk | 2 |  | usage
run q e --max-bytes 0 | 2 |  | usage
run q e --max-bytes 4611686018427387905 | 2 |  | usage
run q e --max-bytes 9 --max-bytes 9 | 2 |  | usage
run q e --compact-every 0 | 2 |  | usage
run q e --compact-every 4294967296 | 2 |  | usage
run q e --compact-every -1 | 2 |  | usage
run q e --compact-every | 2 |  | usage
run q e --compact-every 5 --compact-every 5 | 2 |  | usage
sample 0 3 --compact-every 5 | 2 |  | usage
sample 0 | 2 |  | usage
sample 0 3 4 | 2 |  | usage
sample -1 3 | 2 |  | usage
sample 18446744073709551616 3 | 2 |  | usage
sample 0 10000001 | 2 |  | usage
sample 0 3 --order walk | 2 |  | usage
reorder q e v | 2 |  | usage
reorder q e v 9223372036854775808 | 2 |  | usage
reorder q e v -1 | 2 |  | usage
reorder q e v x | 2 |  | usage
reorder q e v 5 5 | 2 |  | usage
reorder q e v 5 --order up | 2 |  | usage
explain q e 1 0 | 2 |  | usage
explain q e 1 0 0 0 x | 2 |  | usage
explain q e 1 0 0 -1 | 2 |  | usage
explain q e 1 0 0 0 --max-bytes 9 | 2 |  | usage";

/// The sums over two thousand events were counted by the definitions, by another program.
const SAMPLES: &str = "\
words | status | output
sample 0 3 | 0 | events 3 / 1 answers 2 sum 10 / 2 answers 3 sum 15
sample +0 003 | 0 | events 3 / 1 answers 2 sum 10 / 2 answers 3 sum 15
sample 7 0 | 0 | events 0 / 1 answers 0 sum 0 / 2 answers 0 sum 0
sample 18446744073709551615 0 | 0 | events 0 / 1 answers 0 sum 0 / 2 answers 0 sum 0
sample 7 2000 | 0 | events 2000 / 1 answers 1014 sum 3964594 / 2 answers 10718 sum 54754050";

/// The event file is opened only once the query text is accepted.
const REFUSED: &str = "\
words | query | status | output | note
run q f | SELECT * FROM S | 3 |  | queries 5:1: unexpected end of text";

#[test]
fn words_are_done(rt: HostRuntime) -> Result<(), Fail> {
    let alloc = rt.alloc();
    let each = format!(in alloc; "{PLAIN}{EACH}")?;
    rows_hold(&rt, alloc, each.as_str(), RUNS, &rt)?;
    rows_hold(&rt, alloc, each.as_str(), NOTHING, &rt)?;
    rows_hold(&rt, alloc, each.as_str(), SAMPLES, &rt)?;
    rows_hold(&rt, alloc, PLAIN, REFUSED, &rt)
}
