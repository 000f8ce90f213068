//! When lines are written, told by which write fails.

ghost use Rattle.std.specs.Prelude.{◌≡◌, ◌<◌, []};
ghost use Rattle.query_engine.specs.Engine.{StandsFor, count_of};

use crate::rows::engine_of;
use crate::tests::{same, sink, source};
use answer_text::Order;
use cer_base::OrMemory;
use cer_base::steps::{Opening, Steps};
use cer_outside::Source;
use cer_outside::sinks::MemSink;
use cer_outside::sources::MemSource;
use query_engine::Engine;
use std::alloc::{AllocError, Global};
use std::marker::Brand;
use std::process::Abort;
use std::sync::ledger::Ledger;
use std::test::Fail;
use stream_answers::{RunOptions, StreamFault, write_answers};

/// One query, which has one answer at each event of type A.
const QUERY: &str = "DECLARE EVENT A(v INT)\nDECLARE EVENT B(v INT)\n\
DECLARE STREAM S(A, B)\nSELECT * FROM S WHERE A\n";

/// More bytes than a file has here.
const AMPLE: u64 = 1 << 20;

/// How the run ended, how often the source had failed then, and what was written.
fn words_of(
    alloc: Global,
    end: Result<(), OrMemory<StreamFault>>,
    source: &MemSource,
    out: &MemSink,
) -> Result<String, AllocError> {
    let end = match end {
        Ok(()) => "end",
        Err(OrMemory::Memory) => "memory",
        Err(OrMemory::Fault(StreamFault::Event { .. })) => "no event",
        Err(OrMemory::Fault(StreamFault::InputTooLong { .. })) => "too long",
        Err(OrMemory::Fault(StreamFault::ReadFault)) => "cannot read",
        Err(OrMemory::Fault(StreamFault::WriteFault)) => "cannot write",
    };
    let faults = source.fault_count();
    match str::from_utf8(out.as_slice()) {
        Ok(lines) => format!(in alloc; "{end}, {faults}: {lines}"),
        Err(_) => format!(in alloc; "{end}, {faults}: no text"),
    }
}

/// The answers over the source, into the sink. The steps count in the ledger of the opening.
fn run_over<L: Ledger>(
    alloc: Global,
    order: Order,
    engine: &mut Engine,
    source: &mut MemSource,
    out: &mut MemSink,
    opening: Opening,
) -> Result<(), OrMemory<StreamFault>>
    requires fresh { StandsFor engine.old [] }
    requires none { count_of engine.old ≡ 0 }
    requires name { opening.name ≡ L.name }
    requires parts { opening.parts ≡ L.parts }
{
    let mut steps: Steps<L> = Steps::start(opening);
    let options = RunOptions {
        order,
        compact_every: None,
        most_bytes: AMPLE,
    };
    write_answers(alloc, options, engine, source, out, &mut steps)
}

/// The answers of the query's engine, which is let go here.
fn answered(
    alloc: Global,
    order: Order,
    source: &mut MemSource,
    out: &mut MemSink,
    runtime: &HostRuntime,
) -> Result<(), OrMemory<StreamFault>> {
    match engine_of(alloc, QUERY) {
        Ok(mut engine) => {
            run_over::<Brand>(
                alloc,
                order,
                &mut engine,
                source,
                out,
                Opening::new(runtime),
            )
        }
        Err(_) => Err(OrMemory::Memory),
    }
}

/// What is answered over these bytes, of which a read brings at most `piece`, where the read and the
/// write of these numbers fail, from 1; none fails at 0.
fn run_words(
    alloc: Global,
    order: Order,
    bytes: &str,
    piece: usize,
    read_fails: u64,
    write_fails: u64,
    runtime: &HostRuntime,
) -> Result<String, AllocError> {
    let mut source = source(alloc, bytes.as_bytes(), piece, read_fails)?;
    let Ok(mut out) = sink(alloc, write_fails) else {
        return Err(AllocError);
    };
    let end = answered(alloc, order, &mut source, &mut out, runtime);
    words_of(alloc, end, &source, &out)
}

/// The answer at the first event.
const FIRST: &str = "1 [0,0] {0}\n";

/// The answers at both.
const BOTH: &str = "1 [0,0] {0}\n1 [1,1] {1}\n";

/// An event file, how many bytes a read brings, which read and which write fails, how it ends, and the
/// lines that are written.
type Run = (&'static str, usize, u64, u64, &'static str, &'static str);

/// Runs in sorted order, whose lines wait only while the next line is at hand.
const WAITING: &[Run] = &[
    // A read brings one line: each is answered before the next is asked for.
    ("A,1\nA,2\n", 4, 0, 0, "end, 0", BOTH),
    ("A,1\nA,2\n", 4, 0, 1, "cannot write, 0", ""),
    ("A,1\nA,2\n", 4, 0, 2, "cannot write, 0", FIRST),
    ("A,1\nA,2\n", 4, 0, 3, "end, 0", BOTH),
    // The write comes before the read that fails.
    ("A,1\nA,2\n", 4, 2, 0, "cannot read, 1", FIRST),
    ("A,1\nA,2\n", 4, 2, 1, "cannot write, 0", ""),
    // A read brings both lines: they are written at once, before the next read.
    ("A,1\nA,2\n", 99, 0, 2, "end, 0", BOTH),
    ("A,1\nA,2\n", 99, 2, 0, "cannot read, 1", BOTH),
    ("A,1\nA,2\n", 99, 2, 1, "cannot write, 0", ""),
    // A line without answers is at hand, and then none.
    ("A,1\nB,2\n", 99, 2, 1, "cannot write, 0", ""),
    // A part of the next line is at hand.
    ("A,1\nA,2\n", 6, 2, 1, "cannot write, 0", ""),
    ("A,1\nA,2", 99, 2, 1, "cannot write, 0", ""),
    // An empty line is at hand, after which the source would be asked.
    ("A,1\n\nA,2\n", 5, 2, 1, "cannot write, 0", ""),
    ("A,1\n\r\nA,2\n", 6, 2, 1, "cannot write, 0", ""),
];

/// Runs in walk order, whose lines do not wait.
const NOT_WAITING: &[Run] = &[
    ("A,1\nA,2\n", 99, 0, 0, "end, 0", BOTH),
    ("A,1\nA,2\n", 99, 0, 1, "cannot write, 0", ""),
    ("A,1\nA,2\n", 99, 0, 2, "cannot write, 0", FIRST),
];

fn rows_hold(
    rt: &impl Abort,
    alloc: Global,
    order: Order,
    rows: &[Run],
    runtime: &HostRuntime,
) -> Result<(), Fail> {
    for &(bytes, piece, read_fails, write_fails, end, lines) in rows {
        let words = run_words(alloc, order, bytes, piece, read_fails, write_fails, runtime)?;
        let wanted = format!(in alloc; "{end}: {lines}")?;
        same(rt, words.as_str(), wanted.as_str(), bytes);
    }
    Ok(())
}

#[test]
fn lines_wait_only_while_the_next_line_is_at_hand(rt: HostRuntime) -> Result<(), Fail> {
    rows_hold(&rt, rt.alloc(), Order::Sorted, WAITING, &rt)?;
    rows_hold(&rt, rt.alloc(), Order::Walk, NOT_WAITING, &rt)
}
