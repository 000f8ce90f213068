//! Runs that compact the engine after every so many events, or each query once it has grown: the same
//! answers, and fewer nodes.

use super::rows::{PLAIN, rows_hold};
use core_calls::left::left_by;
use std::alloc::{AllocError, Global};
use std::test::*;

/// All runs of A so far: the same lines whether the engine is compacted after each event, or as it grows.
const ALL_RUNS: &str = "\
words | formula | events | output
run q e | A+ | A,1 / A,2 / A,3 | 1 [0,0] {0} / 1 [0,1] {0,1} / 1 [1,1] {1} / 1 [0,2] {0,1,2} / 1 [0,2] {0,2} / 1 [1,2] {1,2} / 1 [2,2] {2}
run q e --compact-every 1 | A+ | A,1 / A,2 / A,3 | 1 [0,0] {0} / 1 [0,1] {0,1} / 1 [1,1] {1} / 1 [0,2] {0,1,2} / 1 [0,2] {0,2} / 1 [1,2] {1,2} / 1 [2,2] {2}";

/// A dozen events, and a window of two.
const DOZEN: &str = "\
words | query | events | output
run q e | SELECT * FROM S WHERE A ; B WITHIN 2 EVENTS | A,0 / A,1 / B,2 / A,3 / B,4 / B,5 / A,6 / A,7 / A,8 / B,9 / B,10 / A,11 | 1 [0,2] {0,2} / 1 [1,2] {1,2} / 1 [3,4] {3,4} / 1 [3,5] {3,5} / 1 [7,9] {7,9} / 1 [8,9] {8,9} / 1 [8,10] {8,10}
run q e --compact-every 3 | SELECT * FROM S WHERE A ; B WITHIN 2 EVENTS | A,0 / A,1 / B,2 / A,3 / B,4 / B,5 / A,6 / A,7 / A,8 / B,9 / B,10 / A,11 | 1 [0,2] {0,2} / 1 [1,2] {1,2} / 1 [3,4] {3,4} / 1 [3,5] {3,5} / 1 [7,9] {7,9} / 1 [8,9] {8,9} / 1 [8,10] {8,10}
run q e --compact-every 5 | SELECT * FROM S WHERE A ; B WITHIN 2 EVENTS | A,0 / A,1 / B,2 / A,3 / B,4 / B,5 / A,6 / A,7 / A,8 / B,9 / B,10 / A,11 | 1 [0,2] {0,2} / 1 [1,2] {1,2} / 1 [3,4] {3,4} / 1 [3,5] {3,5} / 1 [7,9] {7,9} / 1 [8,9] {8,9} / 1 [8,10] {8,10}";

/// A query whose window reaches one event back. Two states are met, so an event adds at most
/// 16 * (2 + 2) ^ 2 = 256 nodes, and at least one.
const BACK: &str = "SELECT * FROM S WHERE A+ WITHIN 1 EVENTS\n";

/// So many events are given to it.
const EVENTS: u64 = 4000;

/// So many, where it is compacted once it has grown.
const MANY_EVENTS: u64 = 14_000;

/// What is kept of the query then, in nodes, of which a key counts as eight: at most 1024; twice what
/// its window needed after some event, in which two were, each with 256 nodes and a key, and one key
/// more; and what came since it was looked at, which was at most 16 events ago.
const KEPT: u64 = 1024 + 2 * (2 * (256 + 8) + 8) + 16 * (256 + 8);

/// The nodes that a call of these words leaves, over the query and these events.
fn nodes_after(
    alloc: Global,
    words: &str,
    events: &[u8],
    runtime: &HostRuntime,
) -> Result<Option<(u64, u64)>, AllocError> {
    let queries = format!(in alloc; "{PLAIN}{BACK}")?;
    left_by(alloc, words, queries.as_bytes(), events, runtime)
}

/// So many events for it.
fn some_events(alloc: Global, count: u64) -> Result<String, AllocError> {
    let mut events = String::new(alloc);
    for _ in 0..count {
        events.push_str("A,1\n")?;
    }
    Ok(events)
}

#[test]
fn answers_stay(rt: HostRuntime) -> Result<(), Fail> {
    let alloc = rt.alloc();
    rows_hold(&rt, alloc, PLAIN, ALL_RUNS, &rt)?;
    rows_hold(&rt, alloc, PLAIN, DOZEN, &rt)
}

/// Every event is read, and in the window are at most two at the last compaction, and twelve at the
/// event before the next one.
#[test]
fn nodes_go(rt: HostRuntime) -> Result<(), Fail> {
    let alloc = rt.alloc();
    let events = some_events(alloc, EVENTS)?;
    let events = events.as_bytes();
    let Some((left, most)) = nodes_after(alloc, "run q e --compact-every 5000", events, &rt)? else {
        return Err(Fail::new("no engine is left"));
    };
    assert!(rt; left >= EVENTS && most >= EVENTS);
    let Some((left, most)) = nodes_after(alloc, "run q e --compact-every 10", events, &rt)? else {
        return Err(Fail::new("no engine is left"));
    };
    assert!(rt; left <= 2 * 256);
    assert!(rt; most <= 12 * 256);
    let Some((left, most)) = nodes_after(alloc, "reorder q e v 0 --compact-every 10", events, &rt)?
    else {
        return Err(Fail::new("no engine is left"));
    };
    assert!(rt; left <= 2 * 256);
    assert!(rt; most <= 12 * 256);
    assert!(rt; nodes_after(alloc, "reorder q e w 0", events, &rt)?.is_none());
    assert!(rt; nodes_after(alloc, "run q f", events, &rt)?.is_none());
    assert!(rt; nodes_after(alloc, "sample 0 3", events, &rt)?.is_none());
    Ok(())
}

/// Without a number the query is compacted by itself: each event adds a node at least, and there are
/// more events than nodes are kept.
#[test]
fn a_query_that_has_grown_is_compacted(rt: HostRuntime) -> Result<(), Fail> {
    let alloc = rt.alloc();
    let events = some_events(alloc, MANY_EVENTS)?;
    let events = events.as_bytes();
    let Some((left, _)) = nodes_after(alloc, "run q e", events, &rt)? else {
        return Err(Fail::new("no engine is left"));
    };
    assert!(rt; left <= KEPT);
    let Some((left, _)) = nodes_after(alloc, "reorder q e v 0", events, &rt)? else {
        return Err(Fail::new("no engine is left"));
    };
    assert!(rt; left <= KEPT);
    Ok(())
}
