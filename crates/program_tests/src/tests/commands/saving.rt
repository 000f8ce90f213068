//! Small event files, saved: what is written, or why nothing is.

ghost use Rattle.std.specs.Prelude.{◌<◌, ◌≤◌};
ghost use Rattle.checkpoint_text.specs.declared.numbers.TheConstants as most;

use crate::tests::commands::{sink, source, stream_words};
use crate::tests::same;
use ceql_parser::read_queries;
use cer_base::OrMemory;
use cer_outside::sinks::MemSink;
use cer_outside::sources::MemSource;
use command_checkpoint::save_events;
use std::alloc::{AllocError, Global};
use std::test::Fail;
use stream_answers::StreamFault;

/// Two types with a whole number each, and a stream of both.
const FIRST: &str = "DECLARE EVENT A(v INT)\nDECLARE EVENT B(v INT)\nDECLARE STREAM S(A, B)\n";

/// A window of events, one of a clock, none, and two queries.
const EVENTS: &str = "SELECT * FROM S WHERE A WITHIN 1 EVENTS\n";

const CLOCK: &str = "SELECT * FROM S WHERE A WITHIN 5 [v]\n";

const FREE: &str = "SELECT * FROM S WHERE A\n";

const TWO: &str = "SELECT * FROM S WHERE A\nSELECT * FROM S WHERE B WITHIN 9 [v]\n";

const OTHER: &str = "DECLARE STREAM T(A)\nSELECT * FROM T WHERE A WITHIN 1 EVENTS\n";

/// More bytes than a file has here.
const AMPLE: u64 = 1 << 20;

/// What is saved of the source for the queries of the text.
fn saved_of(
    alloc: Global,
    queries: &str,
    most_bytes: u64,
    source: &mut MemSource,
    out: &mut MemSink,
) -> Result<(), OrMemory<StreamFault>>
    requires { most_bytes ≤ most.MOST_POSITIONS }
{
    match read_queries(alloc, queries.as_bytes()) {
        Ok(accepted) => save_events(
            alloc,
            &accepted.schema,
            accepted.queries.as_slice(),
            most_bytes,
            source,
            out,
        ),
        Err(_) => Err(OrMemory::Memory),
    }
}

/// What is saved of these bytes, of which a read brings at most three, where the read and the write
/// of these numbers fail, from 1; none fails at 0. A write takes at most 20 bytes.
fn saved_words(
    alloc: Global,
    queries: &str,
    bytes: &str,
    most_bytes: u64,
    read_fails: u64,
    write_fails: u64,
) -> Result<String, AllocError> {
    let text = format!(in alloc; "{FIRST}{queries}")?;
    let most_bytes = most_bytes.min(AMPLE);
    let mut source = source(alloc, bytes, 3, read_fails)?;
    let mut out = sink(alloc, 20, write_fails)?;
    let end = saved_of(alloc, text.as_str(), most_bytes, &mut source, &mut out);
    stream_words(alloc, end, &out)
}

/// Queries, an event file, how many bytes are too many, which read and which write fails, and what is
/// written and how the call ends. A fault leaves nothing, or a first part.
const SAVED: &[(&str, &str, u64, u64, u64, &str)] = &[
    (
        EVENTS,
        "A,1\nA,2\nA,3\n",
        AMPLE,
        0,
        0,
        "core checkpoint 1\nevents 3 2\nat 1\nA,2\nat 2\nA,3\n|end",
    ),
    (
        CLOCK,
        "A,4\nA,5\nB,10",
        AMPLE,
        0,
        0,
        "core checkpoint 1\nevents 3 2\nat 1\nA,5\nat 2\nB,10\n|end",
    ),
    (
        FREE,
        "A,1\n\nB,2\r\n",
        AMPLE,
        0,
        0,
        "core checkpoint 1\nevents 2 2\nat 0\nA,1\nat 1\nB,2\n|end",
    ),
    (
        FREE,
        "\u{feff}A,\"1\"\n",
        AMPLE,
        0,
        0,
        "core checkpoint 1\nevents 1 1\nat 0\nA,\"1\"\n|end",
    ),
    (
        OTHER,
        "A,1\nB,2\nB,3\n",
        AMPLE,
        0,
        0,
        "core checkpoint 1\nevents 3 1\nat 0\nA,1\n|end",
    ),
    (FREE, "", AMPLE, 0, 0, "core checkpoint 1\nevents 0 0\n|end"),
    (
        FREE,
        "A,1\nA,x\n",
        AMPLE,
        0,
        0,
        "|line 2: field 1 is no INT",
    ),
    (
        TWO,
        "A,1\n\nA,9\nB,8\n",
        AMPLE,
        0,
        0,
        "|line 4: time falls from 9 to 8 in query 2",
    ),
    (FREE, "A,1\nA,2\n", 8, 0, 0, "|8 bytes are too many"),
    (
        FREE,
        "A,1\nA,2\n",
        9,
        0,
        0,
        "core checkpoint 1\nevents 2 2\nat 0\nA,1\nat 1\nA,2\n|end",
    ),
    (FREE, "A,1\nA,2\n", AMPLE, 2, 0, "|cannot read"),
    (FREE, "A,1\nA,2\n", AMPLE, 0, 1, "|cannot write"),
    (
        FREE,
        "A,1\nA,2\n",
        AMPLE,
        0,
        2,
        "core checkpoint 1\nev|cannot write",
    ),
];

#[test]
fn what_the_windows_need_is_written(rt: HostRuntime) -> Result<(), Fail> {
    let alloc = rt.alloc();
    for &(queries, bytes, most_bytes, read_fails, write_fails, wanted) in SAVED {
        let words = saved_words(alloc, queries, bytes, most_bytes, read_fails, write_fails)?;
        same(&rt, words.as_str(), wanted, bytes);
    }
    Ok(())
}
