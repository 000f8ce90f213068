//! Small event files, taken event by event: how many events a run takes, and why it stops.

ghost use Rattle.std.specs.Prelude.{◌≡◌, ◌+◌, ◌^◌, ◌<◌, false};
ghost use Rattle.query_engine.specs.Engine.{count_of};

use crate::rows::engine_of;
use crate::tests::{same, source};
use ceql_parser::read_queries;
use cer_base::OrMemory;
use cer_base::steps::{Opening, Steps};
use cer_outside::Source;
use cer_outside::sources::MemSource;
use event_reader::{EventBuffer, Lines};
use event_run::{NextEvent, RunFault, read_events, take_event};
use query_engine::Engine;
use std::alloc::{AllocError, Global};
use std::marker::Brand;
use std::sync::ledger::Ledger;
use std::test::Fail;

/// One query, whose clock is the position.
const BY_POSITION: &str = "DECLARE EVENT A(v INT)\nDECLARE EVENT B(v INT)\n\
DECLARE STREAM S(A, B)\nSELECT * FROM S WHERE A\n";

/// One query, whose clock is an attribute.
const BY_TIME: &str = "DECLARE EVENT A(t INT)\nDECLARE EVENT B(t INT)\n\
DECLARE STREAM S(A, B)\nSELECT * FROM S WHERE A WITHIN 5 [t]\n";

/// Three queries. The first reads A alone, the others A and B; the last two have a clock.
const THREE: &str = "DECLARE EVENT A(t INT)\nDECLARE EVENT B(t INT)\n\
DECLARE STREAM S(A)\nDECLARE STREAM T(A, B)\nSELECT * FROM S WHERE A\n\
SELECT * FROM T WHERE A WITHIN 5 [t]\nSELECT * FROM T WHERE B WITHIN 9 [t]\n";

/// One query over texts.
const TEXTS: &str = "DECLARE EVENT N(s STRING)\nDECLARE STREAM S(N)\n\n\
SELECT * FROM S WHERE N FILTER N[s = 'a,\"b']\n";

/// More bytes than a file has here.
const AMPLE: u64 = 1 << 20;

/// Takes all events, up to the end or a fault.
fn take_all<Q: Source, L: Ledger>(
    alloc: Global,
    lines: &mut Lines,
    source: &mut Q,
    engine: &mut Engine,
    steps: &mut Steps<L>,
) -> Result<(), OrMemory<RunFault>>
    requires open { lines.old.closed ≡ false }
    requires counted { count_of engine.old + lines.old.room < 2 ^ 64 }
{
    let mut row = EventBuffer::new(alloc);
    loop {
        match take_event(alloc, lines, &mut row, source, engine, steps) {
            Ok(NextEvent::Event) => {}
            Ok(NextEvent::End) => return Ok(()),
            Err(fault) => return Err(fault),
        }
    }
}

/// How many events were taken, and why no more.
fn words_of(
    alloc: Global,
    taken: u64,
    stop: Result<(), OrMemory<RunFault>>,
) -> Result<String, AllocError> {
    match stop {
        Ok(()) => format!(in alloc; "{taken}, end"),
        Err(OrMemory::Memory) => format!(in alloc; "{taken}, memory"),
        Err(OrMemory::Fault(RunFault::ReadFault)) => format!(in alloc; "{taken}, cannot read"),
        Err(OrMemory::Fault(RunFault::InputTooLong { taken: most })) => {
            format!(in alloc; "{taken}, {most} bytes are too many")
        }
        Err(OrMemory::Fault(RunFault::Event { line, fault })) => {
            format!(in alloc; "{taken}, line {line}: {fault}")
        }
    }
}

/// What the engine takes of a file, of which so many bytes are too many. The steps count in the
/// ledger of the opening.
fn run_over<L: Ledger>(
    alloc: Global,
    engine: &mut Engine,
    source: &mut MemSource,
    most_bytes: u64,
    opening: Opening,
) -> Result<String, AllocError>
    requires fresh { count_of engine.old ≡ 0 }
    requires name { opening.name ≡ L.name }
    requires parts { opening.parts ≡ L.parts }
{
    let Ok(mut lines) = Lines::new(alloc, most_bytes) else {
        return Err(AllocError);
    };
    let mut steps: Steps<L> = Steps::start(opening);
    let stop = take_all(alloc, &mut lines, source, engine, &mut steps);
    words_of(alloc, engine.events(), stop)
}

/// What an engine of these queries takes of the source. The engine is let go here.
fn taken(
    alloc: Global,
    queries: &str,
    source: &mut MemSource,
    most_bytes: u64,
    runtime: &HostRuntime,
) -> Result<String, AllocError> {
    match engine_of(alloc, queries) {
        Ok(mut engine) => {
            run_over::<Brand>(
                alloc,
                &mut engine,
                source,
                most_bytes,
                Opening::new(runtime),
            )
        }
        Err(_) => Err(AllocError),
    }
}

/// What is taken of these bytes, of which a read brings at most `piece` and the read of this number
/// fails.
fn run_words(
    alloc: Global,
    queries: &str,
    bytes: &[u8],
    most_bytes: u64,
    piece: usize,
    fails: u64,
    runtime: &HostRuntime,
) -> Result<String, AllocError> {
    let mut source = source(alloc, bytes, piece, fails)?;
    taken(alloc, queries, &mut source, most_bytes, runtime)
}

/// Queries, an event file, how many bytes are too many, and how many events are taken and why no
/// more.
const STOPS: &[(&str, &str, u64, &str)] = &[
    (BY_POSITION, "", AMPLE, "0, end"),
    (BY_POSITION, "\n\r\n", AMPLE, "0, end"),
    (BY_POSITION, "A,1\nA,2", AMPLE, "2, end"),
    (BY_POSITION, "A,2\n\nB,1\n", AMPLE, "2, end"),
    (
        BY_POSITION,
        "A,1,2\n",
        AMPLE,
        "0, line 1: 2 fields where 1 is wanted",
    ),
    (BY_POSITION, "A,\"1\n", AMPLE, "0, line 1: open quote"),
    (
        BY_POSITION,
        "A,1\n\nA,x\n",
        AMPLE,
        "1, line 3: field 1 is no INT",
    ),
    (
        BY_POSITION,
        "A,1\nC,1\nA,2\n",
        AMPLE,
        "1, line 2: unknown type",
    ),
    (BY_POSITION, "A,1\n", 4, "1, 4 bytes are too many"),
    (BY_POSITION, "A,1\nA,x\n", 8, "1, line 2: field 1 is no INT"),
    (BY_POSITION, "A,1\n", 5, "1, end"),
    (
        BY_TIME,
        "A,10\nA,9\n",
        AMPLE,
        "1, line 2: time falls from 10 to 9 in query 1",
    ),
    (BY_TIME, "A,10\nB,10\n", AMPLE, "2, end"),
    (
        BY_TIME,
        "A,10\nB,11\n\nA,10\nC,1\n",
        AMPLE,
        "2, line 4: time falls from 11 to 10 in query 1",
    ),
    (
        THREE,
        "A,3\nB,4\nA,2\n",
        AMPLE,
        "2, line 3: time falls from 4 to 2 in query 2",
    ),
];

/// How many bytes a read brings.
const PIECES: &[usize] = &[1, 4];

#[test]
fn events_are_taken_up_to_the_stop(rt: HostRuntime) -> Result<(), Fail> {
    let alloc = rt.alloc();
    for &(queries, bytes, most_bytes, wanted) in STOPS {
        for &piece in PIECES {
            let words = run_words(alloc, queries, bytes.as_bytes(), most_bytes, piece, 0, &rt)?;
            same(&rt, words.as_str(), wanted, bytes);
        }
    }
    Ok(())
}

/// A length of the line, and how many events are taken of its first part and why no more.
const FIRST_PARTS: &[(usize, &str)] = &[
    (0, "0, end"),
    (1, "0, line 1: 0 fields where 1 is wanted"),
    (2, "1, end"),
    (3, "0, line 1: open quote"),
    (4, "0, line 1: open quote"),
    (5, "0, line 1: open quote"),
    (6, "1, end"),
    (7, "0, line 1: open quote"),
    (8, "0, line 1: open quote"),
    (9, "1, end"),
    (10, "1, end"),
    (11, "1, end"),
];

/// A line with two quotes in its field.
const QUOTED: &[u8] = b"N,\"a,\"\"b\"\r\n";

// The first bytes of the line, at most so many.
fn first_part(line: &[u8], len: usize) -> &[u8] {
    &line[..len.min(line.len())]
}

#[test]
fn first_parts_of_a_quoted_line_are_events_or_open(rt: HostRuntime) -> Result<(), Fail> {
    for &(len, wanted) in FIRST_PARTS {
        let words = run_words(rt.alloc(), TEXTS, first_part(QUOTED, len), AMPLE, 4, 0, &rt)?;
        same(&rt, words.as_str(), wanted, "a first part");
    }
    Ok(())
}

/// Three lines of four bytes, of which a read brings one.
const THREE_LINES: &[u8] = b"A,1\nA,2\nA,3\n";

/// Which read fails, from 1, and how many events are taken and why no more.
const FAILING_READS: &[(u64, &str)] = &[
    (1, "0, cannot read"),
    (2, "1, cannot read"),
    (3, "2, cannot read"),
    (4, "3, cannot read"),
    (5, "3, end"),
];

#[test]
fn each_read_fails_in_turn(rt: HostRuntime) -> Result<(), Fail> {
    for &(fails, wanted) in FAILING_READS {
        let words = run_words(rt.alloc(), BY_POSITION, THREE_LINES, AMPLE, 4, fails, &rt)?;
        same(&rt, words.as_str(), wanted, "a failing read");
    }
    Ok(())
}

/// How many bytes the text of a line has, and how many events are taken and why no more.
const LONG_LINES: &[(usize, &str)] = &[
    (65_534, "1, end"),
    (65_535, "0, line 1: line longer than 65536 bytes"),
];

// A line whose text has so many bytes.
fn long_line(alloc: Global, len: usize) -> Result<Vec<u8>, AllocError> {
    let mut line = Vec::from_slice(alloc, b"N,")?;
    for _ in 0..len {
        line.push(b'x')?;
    }
    Ok(line)
}

#[test]
fn the_longest_line_is_an_event(rt: HostRuntime) -> Result<(), Fail> {
    for &(len, wanted) in LONG_LINES {
        let line = long_line(rt.alloc(), len)?;
        let words = run_words(rt.alloc(), TEXTS, line.as_slice(), AMPLE, 4096, 0, &rt)?;
        same(&rt, words.as_str(), wanted, "a long line");
    }
    Ok(())
}

/// How many events a list of the source has, or why there is none.
fn listed(
    alloc: Global,
    queries: &str,
    most_bytes: u64,
    source: &mut MemSource,
) -> Result<String, AllocError> {
    let Ok(accepted) = read_queries(alloc, queries.as_bytes()) else {
        return Err(AllocError);
    };
    let queries = accepted.queries.as_slice();
    match read_events(alloc, &accepted.schema, queries, most_bytes, source) {
        Ok(events) => words_of(alloc, events.len() as u64, Ok(())),
        Err(stop) => words_of(alloc, 0, Err(stop)),
    }
}

fn listed_words(
    alloc: Global,
    queries: &str,
    bytes: &[u8],
    most_bytes: u64,
    fails: u64,
) -> Result<String, AllocError> {
    let mut source = source(alloc, bytes, 4, fails)?;
    listed(alloc, queries, most_bytes, &mut source)
}

/// Queries, an event file, how many bytes are too many, which read fails, and how many events are
/// listed or why none.
const LISTED: &[(&str, &str, u64, u64, &str)] = &[
    (BY_POSITION, "A,2\n\nB,1\n", AMPLE, 0, "2, end"),
    (BY_POSITION, "A,2\n", 4, 0, "0, 4 bytes are too many"),
    (BY_POSITION, "A,2\nB,1\n", AMPLE, 2, "0, cannot read"),
    (
        BY_POSITION,
        "A,1\n\nA,x\n",
        AMPLE,
        0,
        "0, line 3: field 1 is no INT",
    ),
    (
        BY_TIME,
        "A,10\nB,11\n\nA,10\nC,1\n",
        AMPLE,
        0,
        "0, line 4: time falls from 11 to 10 in query 1",
    ),
    (
        THREE,
        "A,3\nB,4\nA,2\n",
        AMPLE,
        0,
        "0, line 3: time falls from 4 to 2 in query 2",
    ),
    (THREE, "A,3\nB,4\nA,4\n", AMPLE, 0, "3, end"),
];

#[test]
fn events_are_listed_as_they_are_taken(rt: HostRuntime) -> Result<(), Fail> {
    let alloc = rt.alloc();
    for &(queries, bytes, most_bytes, fails, wanted) in LISTED {
        let words = listed_words(alloc, queries, bytes.as_bytes(), most_bytes, fails)?;
        same(&rt, words.as_str(), wanted, bytes);
    }
    Ok(())
}
