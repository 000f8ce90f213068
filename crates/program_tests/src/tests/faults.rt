//! Each call outside, failing in turn.
//!
//! What is left standing is told by the calls that went well before: the sink took 5 bytes with each
//! write, the notes 7, and each read gave 4 bytes.

use super::rows::PLAIN;
use core_calls::calls::{AMPLE, Sinks, failing_host, over_host, words_of};
use std::alloc::{AllocError, Global};
use std::process::Abort;
use std::test::*;

const QUERY: &str = "SELECT * FROM S WHERE A+\n";

const EVENTS: &str = "A,1\nA,2\nA,3\n";

/// One answer ends at the first event, two at the second, four at the third.
const OUTPUT: &str = "\
1 [0,0] {0}
1 [0,1] {0,1}
1 [1,1] {1}
1 [0,2] {0,1,2}
1 [0,2] {0,2}
1 [1,2] {1,2}
1 [2,2] {2}
";

const CANNOT_READ: &str = "core: cannot read events\n";

const CANNOT_WRITE: &str = "core: cannot write\n";

/// The number of the call of each kind that fails, from 1; at 0 none does.
#[derive(Clone, Copy, Debug)]
struct Failing {
    open: u64,
    query_read: u64,
    event_read: u64,
    write: u64,
    note: u64,
}

const NONE: Failing = Failing {
    open: 0,
    query_read: 0,
    event_read: 0,
    write: 0,
    note: 0,
};

/// The number of a call after so many.
fn after(calls: usize) -> u64 {
    (calls as u64).saturating_add(1)
}

/// The first bytes of the text.
fn first_bytes(alloc: Global, text: &str, count: usize) -> Result<String, AllocError> {
    let mut first = String::new(alloc);
    for byte in text.bytes().take(count) {
        first.push(char::from(byte))?;
    }
    Ok(first)
}

/// The answers over the events whose lines ended among so many bytes.
fn answers_among(alloc: Global, bytes: usize) -> Result<String, AllocError> {
    let events = EVENTS.bytes().take(bytes).filter(|b| *b == b'\n').count();
    let lines = match events {
        0 => 0,
        1 => 1,
        2 => 3,
        _ => 7,
    };
    let mut answers = String::new(alloc);
    for line in OUTPUT.lines().take(lines) {
        answers.push_str(line)?;
        answers.push('\n')?;
    }
    Ok(answers)
}

/// A run answers the status, the output and the note.
fn holds(
    rt: &impl Abort,
    alloc: Global,
    failing: Failing,
    status: u8,
    output: &str,
    note: &str,
    runtime: &HostRuntime,
) -> Result<(), Fail> {
    words_hold(rt, alloc, "run q e", failing, status, output, note, runtime)
}

/// The call of these words does.
fn words_hold(
    rt: &impl Abort,
    alloc: Global,
    words: &str,
    failing: Failing,
    status: u8,
    output: &str,
    note: &str,
    runtime: &HostRuntime,
) -> Result<(), Fail> {
    let queries = format!(in alloc; "{PLAIN}{QUERY}")?;
    let mut host = failing_host(
        alloc,
        queries.as_bytes(),
        EVENTS.as_bytes(),
        failing.open,
        failing.query_read,
        failing.event_read,
    )?;
    let sinks = Sinks {
        room: AMPLE,
        piece: 5,
        write: failing.write,
        note: failing.note,
    };
    let found = over_host(alloc, words_of(alloc, words)?, &mut host, sinks, runtime)?;
    let wanted = format!(in alloc; "{status}|{output}|{note}")?;
    assert_eq!(rt; found.as_str(), wanted.as_str(), "{words}: {failing:?}");
    Ok(())
}

/// The last read finds the end.
#[test]
fn each_read_of_the_query_file_fails(rt: HostRuntime) -> Result<(), Fail> {
    let alloc = rt.alloc();
    let reads = PLAIN.len().saturating_add(QUERY.len()).div_ceil(4);
    for well in 0..=reads {
        let query_read = after(well);
        let failing = Failing { query_read, ..NONE };
        holds(
            &rt,
            alloc,
            failing,
            5,
            "",
            "core: cannot read queries\n",
            &rt,
        )?;
    }
    let query_read = after(reads).saturating_add(1);
    holds(
        &rt,
        alloc,
        Failing { query_read, ..NONE },
        0,
        OUTPUT,
        "",
        &rt,
    )
}

/// The answers over the events before stand, whether the note can be written or not.
#[test]
fn each_read_of_the_event_file_fails(rt: HostRuntime) -> Result<(), Fail> {
    let alloc = rt.alloc();
    let reads = EVENTS.len().div_ceil(4);
    for well in 0..=reads {
        let event_read = after(well);
        let output = answers_among(alloc, well.saturating_mul(4))?;
        let failing = Failing { event_read, ..NONE };
        holds(&rt, alloc, failing, 5, output.as_str(), CANNOT_READ, &rt)?;
        for written in 0..CANNOT_READ.len().div_ceil(7) {
            let told = first_bytes(alloc, CANNOT_READ, written.saturating_mul(7))?;
            let failing = Failing {
                event_read,
                note: after(written),
                ..NONE
            };
            holds(&rt, alloc, failing, 5, output.as_str(), told.as_str(), &rt)?;
        }
    }
    let event_read = after(reads).saturating_add(1);
    holds(
        &rt,
        alloc,
        Failing { event_read, ..NONE },
        0,
        OUTPUT,
        "",
        &rt,
    )
}

/// How many bytes stand where each write in turn fails.
const STANDING: &[usize] = &[
    0, 5, 10, 12, 17, 22, 27, 32, 37, 38, 43, 48, 53, 58, 63, 68, 73, 78, 83, 88, 93,
];

/// A first part of the lines stands. Those over the three events are 12, 26 and 56 bytes, and since a
/// read gives one event, the lines over an event are written before the next is asked for.
#[test]
fn each_write_fails(rt: HostRuntime) -> Result<(), Fail> {
    let alloc = rt.alloc();
    for (well, &standing) in STANDING.iter().enumerate() {
        let output = first_bytes(alloc, OUTPUT, standing)?;
        let write = after(well);
        let failing = Failing { write, ..NONE };
        holds(&rt, alloc, failing, 6, output.as_str(), CANNOT_WRITE, &rt)?;
    }
    let write = after(STANDING.len());
    holds(&rt, alloc, Failing { write, ..NONE }, 0, OUTPUT, "", &rt)
}

/// The events as a checkpoint.
const SAVED: &str = "core checkpoint 1\nevents 3 3\nat 0\nA,1\nat 1\nA,2\nat 2\nA,3\n";

/// Words, which open, which read of the event file and which write fails, from 1, and the status, the
/// output and the note.
const COMMANDS: &[(&str, u64, u64, u64, u8, &str, &str)] = &[
    // There is no third open.
    ("run q e", 1, 0, 0, 5, "", "core: cannot open queries\n"),
    ("run q e", 2, 0, 0, 5, "", "core: cannot open events\n"),
    ("run q e", 3, 0, 0, 0, OUTPUT, ""),
    // Late events are answered as they go, or at the end.
    ("reorder q e v 0", 0, 0, 4, 6, "1 [0,0] {0}\n", CANNOT_WRITE),
    ("reorder q e v 9", 0, 0, 2, 6, "1 [0,", CANNOT_WRITE),
    (
        "reorder --order walk q e v 9",
        0,
        0,
        4,
        6,
        "1 [0,0] {0}\n",
        CANNOT_WRITE,
    ),
    // An explanation and a checkpoint are written at their end.
    ("explain q e 1 0 1 0 1", 0, 0, 1, 6, "", CANNOT_WRITE),
    (
        "explain q e 1 0 1 0 1",
        0,
        0,
        5,
        6,
        "1 [0,1] {0,1}\nA {0,1",
        CANNOT_WRITE,
    ),
    ("save q e", 0, 0, 1, 6, "", CANNOT_WRITE),
    ("save q e", 0, 0, 3, 6, "core check", CANNOT_WRITE),
    // Each read gives one event. With a bound of 1 the event before the last one may go.
    ("reorder q e v 0", 0, 2, 0, 5, "1 [0,0] {0}\n", CANNOT_READ),
    ("reorder q e v 1", 0, 2, 0, 5, "", CANNOT_READ),
    ("reorder q e v 1", 0, 3, 0, 5, "1 [0,0] {0}\n", CANNOT_READ),
    // Three reads give the events, and a fourth finds the end. Nothing is saved where one fails.
    ("save q e", 0, 1, 0, 5, "", CANNOT_READ),
    ("save q e", 0, 2, 0, 5, "", CANNOT_READ),
    ("save q e", 0, 3, 0, 5, "", CANNOT_READ),
    ("save q e", 0, 4, 0, 5, "", CANNOT_READ),
    ("save q e", 0, 5, 0, 0, SAVED, ""),
];

#[test]
fn calls_fail_in_each_command(rt: HostRuntime) -> Result<(), Fail> {
    for &(words, open, event_read, write, status, output, note) in COMMANDS {
        let failing = Failing {
            open,
            event_read,
            write,
            ..NONE
        };
        words_hold(&rt, rt.alloc(), words, failing, status, output, note, &rt)?;
    }
    Ok(())
}

/// A sink with room for 20 bytes keeps as many.
#[test]
fn a_full_sink_keeps_a_first_part(rt: HostRuntime) -> Result<(), Fail> {
    let alloc = rt.alloc();
    let queries = format!(in alloc; "{PLAIN}{QUERY}")?;
    let mut host = failing_host(alloc, queries.as_bytes(), EVENTS.as_bytes(), 0, 0, 0)?;
    let sinks = Sinks {
        room: 20,
        piece: 7,
        write: 0,
        note: 0,
    };
    let found = over_host(alloc, words_of(alloc, "run q e")?, &mut host, sinks, &rt)?;
    assert_eq!(rt;
        found.as_str(),
        "6|1 [0,0] {0}\n1 [0,1] |core: cannot write\n"
    );
    Ok(())
}
