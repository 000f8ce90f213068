//! What a call leaves.

ghost use Rattle.std.specs.Prelude.{◌≡◌};

use crate::calls::{sure_host, words_of};
use cer_base::steps::{Opening, Steps};
use cer_outside::hosts::SureHost;
use cer_outside::sinks::MemSink;
use core_top::core_main;
use query_engine::Engine;
use std::alloc::{AllocError, Global};
use std::marker::Brand;
use std::sync::ledger::Ledger;

/// How many nodes an engine has of all queries, and how many there were at most after an event.
fn nodes_of(engine: &Engine) -> (u64, u64) {
    let mut left: u64 = 0;
    let mut most: u64 = 0;
    for k in 0..engine.queries() {
        left = left.saturating_add(engine.len(k + 1));
        most = most.saturating_add(engine.peak(k + 1));
    }
    (left, most)
}

/// The nodes of the engine that the call leaves, `None` where it leaves none. The output takes all.
fn nodes_left<L: Ledger>(
    alloc: Global,
    words: Vec<String>,
    host: &mut SureHost,
    opening: Opening,
) -> Result<Option<(u64, u64)>, AllocError>
    requires name { opening.name ≡ L.name }
    requires parts { opening.parts ≡ L.parts }
{
    let Ok(mut out) = MemSink::new(alloc, 65_536, 1_048_576, Vec::new(alloc)) else {
        return Err(AllocError);
    };
    let Ok(mut notes) = MemSink::new(alloc, 65_536, 65_536, Vec::new(alloc)) else {
        return Err(AllocError);
    };
    let mut steps: Steps<L> = Steps::start(opening);
    let done = core_main(alloc, words, host, &mut out, &mut notes, &mut steps);
    Ok(match &done.left {
        Some(engine) => Some(nodes_of(engine)),
        None => None,
    })
}

/// The nodes that a call of these words leaves, over the query text as `q` and the events as `e`: how
/// many there are, and how many there were at most.
pub fn left_by(
    alloc: Global,
    words: &str,
    queries: &[u8],
    events: &[u8],
    runtime: &HostRuntime,
) -> Result<Option<(u64, u64)>, AllocError> {
    let mut host = sure_host(alloc, queries, events)?;
    nodes_left::<Brand>(
        alloc,
        words_of(alloc, words)?,
        &mut host,
        Opening::new(runtime),
    )
}
