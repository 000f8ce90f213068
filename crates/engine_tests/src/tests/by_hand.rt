//! The engine beside what was worked out by hand, under each of two seeds.

use crate::rows::{CaseFault, answers_after_each, engine_of, seeded_engine_of, states_found};
use crate::tests::same;
use cer_base::seed::Seed;
use cer_base::steps::Opening;
use query_engine::Engine;
use std::alloc::Global;
use std::marker::Brand;
use std::test::*;

/// Two types, of which the first stream has both and the second the first one alone.
const BASE: &str =
    "DECLARE EVENT A(v INT)\nDECLARE EVENT B(v INT)\nDECLARE STREAM S(A, B)\nDECLARE STREAM T(A)\n";

/// A query, lines, the answers after each of them, and the number of states found.
const ROWS: &[(&str, &str, &str)] = &[
    // Events between are skipped, and a later start comes first.
    (
        "SELECT * FROM S WHERE A ; B",
        "A,1;B,1;A,1;B,1",
        "/ 0{1,0} / / 2{3,2} 0{3,0} / 2 ",
    ),
    // Nothing may stand between.
    (
        "SELECT * FROM S WHERE A : B",
        "A,1;A,1;B,1;B,1",
        "/ / 1{2,1} / / 2 ",
    ),
    // A window by count has the two positions before the last.
    (
        "SELECT * FROM S WHERE A ; B WITHIN 2 EVENTS",
        "A,1;A,1;B,1;B,1",
        "/ / 1{2,1} 0{2,0} / 1{3,1} / 2 ",
    ),
    // Each key has its own substream.
    (
        "SELECT * FROM S WHERE A ; B PARTITION BY [v]",
        "A,1;A,2;B,2;B,1;B,3",
        "/ / 1{2,1} / 0{3,0} / / 2 ",
    ),
    // An event of another type is no answer's, and counts as a position.
    (
        "SELECT * FROM T WHERE A : A",
        "A,1;B,1;A,1",
        "/ / 0{2,0} / 2 ",
    ),
    // A refused event leaves all as it was.
    (
        "SELECT * FROM S WHERE A ; B WITHIN 5 [v]",
        "A,3;B,2;B,8;B,9",
        "/ query 1: 2 after 3 / 0{1,0} / / 2 ",
    ),
    // Positions that are skipped count in a window by count.
    (
        "SELECT * FROM S WHERE A ; B WITHIN 3 EVENTS",
        "A,1;--;B,1;B,1",
        "/ 0{3,0} / / 2 ",
    ),
    // They stand between no two events.
    ("SELECT * FROM S WHERE A : B", "A,1;--;B,1", "/ 0{3,0} / 2 "),
    // A compaction gives up the first key, whose open match is out of the window. The last key takes
    // its place, and has the same answers.
    (
        "SELECT * FROM S WHERE A ; B PARTITION BY [v] WITHIN 3 EVENTS",
        "A,1;A,2;A,2;A,2;A,3;B,3;!;A,1;B,2;B,1",
        "/ / / / / 4{5,4} / 4{5,4} / / 6{8,6} / 2 ",
    ),
    // A key that was given up comes again.
    (
        "SELECT * FROM S WHERE A ; B PARTITION BY [v] WITHIN 3 EVENTS",
        "A,1;B,9;B,9;B,9;B,9;!;B,1;A,1;!;B,1;B,1",
        "/ / / / / / / 6{7,6} / 6{8,6} / 2 ",
    ),
    // A filter reads the value.
    (
        "SELECT * FROM S WHERE A ; B FILTER B[v > 1]",
        "A,1;B,1;B,2",
        "/ / 0{2,0} / 2 ",
    ),
    // A dozen keys.
    (
        "SELECT * FROM S WHERE A ; B PARTITION BY [v]",
        "A,1;A,2;A,3;A,4;A,5;A,6;A,7;A,8;A,9;A,10;A,11;A,12;B,3;B,12",
        "/ / / / / / / / / / / / 2{12,2} / 11{13,11} / 2 ",
    ),
    // Ten leaves, and eleven sets of leaves that read an event.
    (
        "SELECT * FROM S WHERE (A FILTER A[v > 1]) OR (A FILTER A[v > 2]) OR (A FILTER A[v > 3]) OR (A FILTER A[v > 4]) OR (A FILTER A[v > 5]) OR (A FILTER A[v > 6]) OR (A FILTER A[v > 7]) OR (A FILTER A[v > 8]) OR (A FILTER A[v > 9]) OR (A FILTER A[v > 10])",
        "A,1;A,2;A,3;A,4;A,5;A,6;A,7;A,8;A,9;A,10;A,11;A,2",
        "/ 1{1} / 2{2} / 3{3} / 4{4} / 5{5} / 6{6} / 7{7} / 8{8} / 9{9} / 10{10} / 11{11} / 10 ",
    ),
];

/// What is written is the same under the seeds of each two numbers.
const SEEDS: &[(u64, u64)] = &[(0, 0), (11_400_714_819_323_198_485, 7)];

/// The answers after each of the lines, and the number of states found.
fn found(
    alloc: Global,
    engine: &mut Engine,
    lines: &[u8],
    runtime: &HostRuntime,
) -> Result<String, CaseFault> {
    let mut text = answers_after_each::<Brand>(alloc, engine, lines, Opening::new(runtime))?;
    text.push_str(states_found(alloc, engine)?.as_str())?;
    Ok(text)
}

/// The engine of the query after these declarations.
pub fn engine_after(alloc: Global, declarations: &str, query: &str) -> Result<Engine, CaseFault> {
    let text = format!(in alloc; "{declarations}{query}")?;
    engine_of(alloc, text.as_str())
}

/// What the engine of the query finds, whose tables hash by the seed.
fn answer(
    alloc: Global,
    seed: Seed,
    query: &str,
    lines: &[u8],
    runtime: &HostRuntime,
) -> Result<String, CaseFault> {
    let text = format!(in alloc; "{BASE}{query}")?;
    let mut engine = seeded_engine_of(alloc, seed, text.as_str())?;
    found(alloc, &mut engine, lines, runtime)
}

#[test]
fn answers_are_those_worked_out_by_hand_under_each_seed(rt: HostRuntime) -> Result<(), Fail> {
    for &(query, lines, expected) in ROWS {
        for &(first, second) in SEEDS {
            let seed = Seed::of(first, second);
            let found = answer(rt.alloc(), seed, query, lines.as_bytes(), &rt)?;
            same(&rt, found.as_str(), expected, query);
        }
    }
    Ok(())
}
