//! Small feeds, told by what was written and how they ended.

ghost use Rattle.std.specs.Prelude.{◌≡◌, ◌<◌, [], IfOk};
ghost use Rattle.query_engine.specs.Engine.{StandsFor, count_of};
ghost use Rattle.reorder_gate.specs.AttributeClock.{clock_fits};

use crate::tests::commands::{sink, source, stream_words};
use crate::tests::same;
use answer_text::Order;
use ceql_parser::read_queries;
use cer_base::steps::{Opening, Steps};
use cer_base::{Memory, OrMemory};
use cer_outside::sinks::MemSink;
use cer_outside::sources::MemSource;
use command_reorder::write_late;
use query_engine::Engine;
use reorder_gate::clock_fits;
use std::alloc::{AllocError, Global};
use std::marker::Brand;
use std::sync::ledger::Ledger;
use std::test::Fail;
use stream_answers::{RunOptions, StreamFault};

/// One query, which has one answer at each event of type A.
const EACH: &str = "DECLARE EVENT A(t INT)\nDECLARE EVENT B(t INT)\n\
DECLARE STREAM S(A, B)\nSELECT * FROM S WHERE A\n";

/// One query, which has an answer for each A before a B.
const PAIRS: &str = "DECLARE EVENT A(t INT)\nDECLARE EVENT B(t INT)\n\
DECLARE STREAM S(A, B)\nSELECT * FROM S WHERE A ; B\n";

/// One query, with a clock of its own beside that of the feed.
const TWO_CLOCKS: &str = "DECLARE EVENT A(t INT, u INT)\n\
DECLARE STREAM S(A)\nSELECT * FROM S WHERE A WITHIN 9 [u]\n";

/// More bytes than a file has here.
const AMPLE: u64 = 1 << 20;

/// The greatest bound.
const MOST: u64 = (1 << 63) - 1;

/// An engine of the queries.
fn engine_of(alloc: Global, queries: &str) -> Result<Engine, Memory>
    ensures fresh { IfOk result (λ engine. StandsFor engine []) }
    ensures none { IfOk result (λ engine. count_of engine ≡ 0) }
{
    match read_queries(alloc, queries.as_bytes()) {
        Ok(accepted) => Engine::new(alloc, accepted.schema, accepted.queries),
        Err(_) => Err(Memory),
    }
}

/// The answers over the source, into the sink. The steps count in the ledger of the opening.
fn run_over<L: Ledger>(
    alloc: Global,
    order: Order,
    late: u64,
    most_bytes: u64,
    engine: &mut Engine,
    source: &mut MemSource,
    out: &mut MemSink,
    opening: Opening,
) -> Result<(), OrMemory<StreamFault>>
    requires fresh { StandsFor engine.old [] }
    requires none { count_of engine.old ≡ 0 }
    requires name { opening.name ≡ L.name }
    requires parts { opening.parts ≡ L.parts }
{
    if !clock_fits(engine.schema(), "t") {
        return Err(OrMemory::Memory);
    }
    let mut steps: Steps<L> = Steps::start(opening);
    let options = RunOptions {
        order,
        compact_every: None,
        most_bytes,
    };
    write_late(alloc, "t", late, options, engine, source, out, &mut steps)
}

/// The answers of an engine of these queries, which is let go here.
fn answered(
    alloc: Global,
    order: Order,
    queries: &str,
    late: u64,
    most_bytes: u64,
    source: &mut MemSource,
    out: &mut MemSink,
    runtime: &HostRuntime,
) -> Result<(), OrMemory<StreamFault>> {
    let opening = Opening::new(runtime);
    match engine_of(alloc, queries) {
        Ok(mut engine) => {
            run_over::<Brand>(
                alloc,
                order,
                late,
                most_bytes,
                &mut engine,
                source,
                out,
                opening,
            )
        }
        Err(Memory) => Err(OrMemory::Memory),
    }
}

/// What is answered over these bytes by an engine of these queries, where an event may come `late`
/// and so many bytes are too many. A read brings five bytes. The read and the write of these numbers
/// fail, from 1; none fails at 0.
fn feed_words(
    alloc: Global,
    order: Order,
    queries: &str,
    late: u64,
    most_bytes: u64,
    bytes: &str,
    fails: (u64, u64),
    runtime: &HostRuntime,
) -> Result<String, AllocError> {
    let mut source = source(alloc, bytes, 5, fails.0)?;
    let mut out = sink(alloc, 4096, fails.1)?;
    let end = answered(
        alloc,
        order,
        queries,
        late,
        most_bytes,
        &mut source,
        &mut out,
        runtime,
    );
    stream_words(alloc, end, &out)
}

/// Queries, how late an event may come, an event file, and the answers.
const BY_CLOCKS: &[(&str, u64, &str, &str)] = &[
    // The A of clock 9 comes after the B of clock 14.
    (
        PAIRS,
        5,
        "A,10\nB,14\nA,9\nB,16\n",
        "1 [0,2] {0,2}\n1 [1,2] {1,2}\n1 [0,3] {0,3}\n1 [1,3] {1,3}\n|end",
    ),
    // Of one clock they go as they came.
    (PAIRS, 9, "A,5\nB,5\n", "1 [0,1] {0,1}\n|end"),
    (PAIRS, 9, "B,5\nA,5\n", "|end"),
    (EACH, 0, "", "|end"),
    (EACH, 3, "\nA,1", "1 [0,0] {0}\n|end"),
    // At the bound, and one below it.
    (EACH, 5, "A,10\nA,5\n", "1 [0,0] {0}\n1 [1,1] {1}\n|end"),
    (
        EACH,
        5,
        "A,10\nA,4\n",
        "|line 2: time 4 comes too late after 10",
    ),
    (
        EACH,
        0,
        "A,10\nA,9\n",
        "1 [0,0] {0}\n|line 2: time 9 comes too late after 10",
    ),
    (EACH, 2, "B,-3\nA,-5\n", "1 [0,0] {0}\n|end"),
    (
        EACH,
        2,
        "B,-3\nA,-6\n",
        "|line 2: time -6 comes too late after -3",
    ),
    // The greatest clock counts, and not the last one.
    (
        EACH,
        5,
        "B,10\nB,6\nA,4\n",
        "|line 3: time 4 comes too late after 10",
    ),
    // The greatest bound, from 10 on.
    (
        EACH,
        MOST,
        "B,10\nA,-9223372036854775797\n",
        "1 [0,0] {0}\n|end",
    ),
    (
        EACH,
        MOST,
        "B,10\nA,-9223372036854775798\n",
        "|line 2: time -9223372036854775798 comes too late after 10",
    ),
];

#[test]
fn events_are_answered_by_their_clocks(rt: HostRuntime) -> Result<(), Fail> {
    let alloc = rt.alloc();
    for &(queries, late, bytes, wanted) in BY_CLOCKS {
        let words = feed_words(
            alloc,
            Order::Sorted,
            queries,
            late,
            AMPLE,
            bytes,
            (0, 0),
            &rt,
        )?;
        same(&rt, words.as_str(), wanted, bytes);
    }
    Ok(())
}

/// Runs that end before the file does: queries, how late an event may come, how many bytes are too
/// many, an event file, which read and which write fails, and the answers.
const CUT_OFF: &[(&str, u64, u64, &str, (u64, u64), &str)] = &[
    // A refused line, too many bytes and a read that fails: what waits is not answered.
    (
        EACH,
        1,
        AMPLE,
        "A,10\nA,11\nC,12\n",
        (0, 0),
        "1 [0,0] {0}\n|line 3: unknown type",
    ),
    (
        EACH,
        0,
        5,
        "A,10\nA,11\n",
        (0, 0),
        "1 [0,0] {0}\n|5 bytes are too many",
    ),
    (EACH, 1, 5, "A,10\nA,11\n", (0, 0), "|5 bytes are too many"),
    (
        EACH,
        0,
        AMPLE,
        "A,10\nA,11\n",
        (2, 0),
        "1 [0,0] {0}\n|cannot read",
    ),
    (EACH, 1, AMPLE, "A,10\nA,11\n", (2, 0), "|cannot read"),
    // The query's own clock falls from 2 to 1 along the feed's: at the line of that event.
    (
        TWO_CLOCKS,
        5,
        AMPLE,
        "A,10,1\nA,9,2\n",
        (0, 0),
        "1 [0,0] {0}\n|line 1: time falls from 2 to 1 in query 1",
    ),
    // It falls before the next line is read.
    (
        TWO_CLOCKS,
        5,
        AMPLE,
        "A,10,1\nA,9,2\nA,15,3\nC\n",
        (0, 0),
        "1 [0,0] {0}\n|line 1: time falls from 2 to 1 in query 1",
    ),
    (EACH, 5, AMPLE, "A,10\nA,9\n", (0, 1), "|cannot write"),
];

const ORDERS: &[Order] = &[Order::Sorted, Order::Walk];

#[test]
fn only_the_end_lets_all_events_go(rt: HostRuntime) -> Result<(), Fail> {
    let alloc = rt.alloc();
    for &(queries, late, most_bytes, bytes, fails, wanted) in CUT_OFF {
        for &order in ORDERS {
            let words = feed_words(alloc, order, queries, late, most_bytes, bytes, fails, &rt)?;
            same(&rt, words.as_str(), wanted, bytes);
        }
    }
    Ok(())
}
