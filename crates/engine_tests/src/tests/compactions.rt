//! Compactions beside what was worked out by hand.

use crate::held::{held_over_a_compaction, most_after_compactions};
use crate::rows::{CaseFault, engine_of};
use crate::tests::by_hand::engine_after;
use cer_base::steps::Opening;
use query_engine::Engine;
use std::alloc::Global;
use std::marker::Brand;
use std::test::*;

/// One type, and each answer is some of its events.
const TEXT: &str = "DECLARE EVENT A(v INT)\nDECLARE STREAM S(A)\nSELECT * FROM S WHERE A+";

/// The answers of the third event, however they are ordered: each set of positions that has it.
const ANSWERS: &[&str] = &["2{2} ", "1{2,1} ", "0{2,0} ", "0{2,1,0} "];

const FIRST: &[u8] = b"A,1;A,2;A,3";

const NEXT: &[u8] = b"A,4";

fn held(alloc: Global, engine: &mut Engine, runtime: &HostRuntime) -> Result<String, CaseFault> {
    held_over_a_compaction::<Brand>(alloc, engine, FIRST, NEXT, Opening::new(runtime))
}

/// What a cursor gives of the third event, of which it gave one answer before the compaction.
fn held_answers(alloc: Global, runtime: &HostRuntime) -> Result<String, CaseFault> {
    let mut engine = engine_of(alloc, TEXT)?;
    held(alloc, &mut engine, runtime)
}

#[test]
fn a_cursor_gives_the_same_over_a_compaction_that_holds_it(rt: HostRuntime) -> Result<(), Fail> {
    let text = held_answers(rt.alloc(), &rt)?;
    for answer in ANSWERS {
        assert!(rt; text.as_str().contains(*answer), "{text}");
    }
    assert!(rt; text.as_str().ends_with("none "), "{text}");
    Ok(())
}

const LINE: &[u8] = b"A,1";

fn most(alloc: Global, engine: &mut Engine, runtime: &HostRuntime) -> Result<u64, CaseFault> {
    most_after_compactions::<Brand>(alloc, engine, LINE, Opening::new(runtime))
}

/// The most nodes under a window of one event.
fn most_in_a_window(alloc: Global, runtime: &HostRuntime) -> Result<u64, CaseFault> {
    let mut engine = engine_after(alloc, TEXT, " WITHIN 1 EVENTS")?;
    most(alloc, &mut engine, runtime)
}

#[test]
fn a_window_bounds_the_nodes_after_compactions(rt: HostRuntime) -> Result<(), Fail> {
    let most = most_in_a_window(rt.alloc(), &rt)?;
    // The window has two events, and two states were found: 16 * (2 + 2)^2 nodes for each event.
    assert!(rt; most <= 512, "{most} nodes");
    Ok(())
}
