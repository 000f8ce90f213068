//! The query `A+`, and the same with ANY 2, over three events.

ghost use Rattle.std.specs.Prelude.{◌≡◌, ◌+◌, ◌^◌, ◌<◌, OnOk};
ghost use Rattle.query_engine.specs.Engine.{count_of};

use crate::rows::engine_of;
use crate::tests::{line_count, sink};
use answer_blocks::{push_blocks, write_blocks};
use cer_base::steps::{Opening, Steps};
use cer_base::{Memory, OrMemory};
use cer_outside::sinks::MemSink;
use cer_outside::{Sink, WriteFault};
use event_reader::read_event;
use query_engine::Engine;
use std::alloc::Global;
use std::marker::Brand;
use std::sync::ledger::Ledger;
use std::test::Fail;

const QUERIES: &str = "DECLARE EVENT A()\nDECLARE STREAM S(A)\n\
SELECT * FROM S WHERE A+\nSELECT ANY 2 * FROM S WHERE A+\n";

/// Takes one more event of the type A.
fn see_one<L: Ledger>(
    alloc: Global,
    engine: &mut Engine,
    steps: &mut Steps<L>,
) -> Result<(), Memory>
    requires room { count_of engine.old + 1 < 2 ^ 64 }
    ensures { OnOk result (count_of engine.new ≡ count_of engine.old + 1) }
{
    let Ok(Some(event)) = read_event(alloc, engine.schema(), b"A".as_slice()) else {
        return Err(Memory);
    };
    match engine.see(&event, steps) {
        Ok(_) => Ok(()),
        Err(_) => Err(Memory),
    }
}

fn push_three<L: Ledger>(
    alloc: Global,
    engine: &mut Engine,
    text: &mut Vec<u8>,
    steps: &mut Steps<L>,
) -> Result<(), Memory>
    requires { count_of engine.old ≡ 0 }
{
    for _k in 0..3u64 {
        see_one(alloc, engine, steps)?;
        push_blocks(alloc, engine, text, steps)?;
    }
    Ok(())
}

/// The sorted blocks of the three positions.
fn sorted<L: Ledger>(alloc: Global, opening: Opening) -> Result<Vec<u8>, Memory>
    requires name { opening.name ≡ L.name }
    requires parts { opening.parts ≡ L.parts }
{
    let mut steps = Steps::<L>::start(opening);
    let Ok(mut engine) = engine_of(alloc, QUERIES) else {
        return Err(Memory);
    };
    let mut text = Vec::new(alloc);
    push_three(alloc, &mut engine, &mut text, &mut steps)?;
    Ok(text)
}

fn write_three<K: Sink, L: Ledger>(
    alloc: Global,
    engine: &mut Engine,
    out: &mut K,
    steps: &mut Steps<L>,
) -> Result<(), OrMemory<WriteFault>>
    requires { count_of engine.old ≡ 0 }
{
    let mut buffer = Vec::new(alloc);
    for _k in 0..3u64 {
        see_one(alloc, engine, steps)?;
        write_blocks(engine, out, &mut buffer, steps)?;
    }
    Ok(())
}

/// Writes the blocks of the three positions.
fn write<K: Sink, L: Ledger>(
    alloc: Global,
    out: &mut K,
    opening: Opening,
) -> Result<(), OrMemory<WriteFault>>
    requires name { opening.name ≡ L.name }
    requires parts { opening.parts ≡ L.parts }
{
    let mut steps = Steps::<L>::start(opening);
    let Ok(mut engine) = engine_of(alloc, QUERIES) else {
        return Err(OrMemory::Memory);
    };
    write_three(alloc, &mut engine, out, &mut steps)
}

const FIRST: &str = "1 [0,0] {0}\n2 [0,0] {0}\n";

const UP_TO_THE_LAST: &str = "1 [0,0] {0}\n2 [0,0] {0}\n\
1 [0,1] {0,1}\n1 [1,1] {1}\n2 [0,1] {0,1}\n2 [1,1] {1}\n\
1 [0,2] {0,1,2}\n1 [0,2] {0,2}\n1 [1,2] {1,2}\n1 [2,2] {2}\n";

#[test]
fn blocks_are_sorted_and_any_is_kept(rt: HostRuntime) -> Result<(), Fail> {
    let text = sorted::<Brand>(rt.alloc(), Opening::new(&rt))?;
    assert!(rt;
        text.as_slice().starts_with(UP_TO_THE_LAST.as_bytes()),
        "other blocks"
    );
    assert_eq!(rt; line_count(text.as_slice()), 12);
    Ok(())
}

#[test]
fn lines_are_written_one_by_one(rt: HostRuntime) -> Result<(), Fail> {
    let mut out = sink(rt.alloc(), 13)?;
    let written = write::<MemSink, Brand>(rt.alloc(), &mut out, Opening::new(&rt));
    assert!(rt; written.is_ok(), "not written");
    assert_eq!(rt; line_count(out.as_slice()), 12);
    Ok(())
}

#[test]
fn a_fault_ends_the_blocks(rt: HostRuntime) -> Result<(), Fail> {
    let mut out = sink(rt.alloc(), 3)?;
    let written = write::<MemSink, Brand>(rt.alloc(), &mut out, Opening::new(&rt));
    assert!(rt;
        matches!(written, Err(OrMemory::Fault(WriteFault))),
        "no fault"
    );
    assert_eq!(rt; out.as_slice(), FIRST.as_bytes());
    Ok(())
}
