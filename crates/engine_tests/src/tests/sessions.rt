//! Scripts, played by a session over the queries `A` and `A+`.

ghost use Rattle.std.specs.Prelude.{◌≡◌, ◌+◌, ◌^◌, ◌<◌, ◌≤◌, IfOk};
ghost use Rattle.query_engine.specs.Engine.{count_of};

use crate::tests::{line_count, same, sink};
use ceql_parser::read_queries;
use cer_base::Memory;
use cer_base::steps::{Opening, Steps};
use cer_outside::Sink;
use cer_outside::sinks::MemSink;
use command_session::{Refusal, RunFault, Session, read_command};
use std::alloc::{AllocError, Global};
use std::marker::Brand;
use std::sync::ledger::Ledger;
use std::test::Fail;

const QUERIES: &str = "DECLARE EVENT A()\nDECLARE STREAM S(A)\n\
SELECT * FROM S WHERE A\nSELECT * FROM S WHERE A+\n";

fn session(alloc: Global, queries: &str) -> Result<Session, Memory>
    ensures { IfOk result (λ s. count_of s.engine ≡ 0) }
{
    match read_queries(alloc, queries.as_bytes()) {
        Ok(accepted) => Session::new(alloc, accepted.schema, accepted.queries),
        Err(_) => Err(Memory),
    }
}

fn play_line<K: Sink, L: Ledger>(
    alloc: Global,
    session: &mut Session,
    line: &str,
    out: &mut K,
    steps: &mut Steps<L>,
) -> Result<(), RunFault>
    requires room { count_of session.old.engine + 1 < 2 ^ 64 }
    ensures { count_of session.new.engine ≤ count_of session.old.engine + 1 }
{
    let text = line.as_bytes();
    if session.is_closed() || text.contains(&b'\n') {
        return Err(RunFault::Memory);
    }
    match read_command(alloc, session.schema(), text) {
        Ok(command) => session.run(command, out, steps),
        Err(_) => Err(RunFault::Memory),
    }
}

/// Plays up to a thousand lines.
fn play_lines<K: Sink, L: Ledger>(
    alloc: Global,
    session: &mut Session,
    script: &str,
    out: &mut K,
    steps: &mut Steps<L>,
) -> Result<(), RunFault>
    requires { count_of session.old.engine ≡ 0 }
{
    let mut left = 1000u64;
    for line in script.split(';') {
        if left == 0 {
            return Err(RunFault::Memory);
        }
        left -= 1;
        match play_line(alloc, session, line, out, steps) {
            Ok(()) => {}
            Err(fault) => return Err(fault),
        }
    }
    Ok(())
}

/// Plays the lines of the script, which `;` parts.
fn play<K: Sink, L: Ledger>(
    alloc: Global,
    script: String,
    out: &mut K,
    opening: Opening,
) -> Result<(), RunFault>
    requires name { opening.name ≡ L.name }
    requires parts { opening.parts ≡ L.parts }
{
    let mut steps = Steps::<L>::start(opening);
    match session(alloc, QUERIES) {
        Ok(mut session) => play_lines(alloc, &mut session, script.as_str(), out, &mut steps),
        Err(_) => Err(RunFault::Memory),
    }
}

fn play_into(
    alloc: Global,
    script: &str,
    out: &mut MemSink,
    runtime: &HostRuntime,
) -> Result<(), RunFault> {
    match script.to_string(alloc) {
        Ok(script) => play::<MemSink, Brand>(alloc, script, out, Opening::new(runtime)),
        Err(_) => Err(RunFault::Memory),
    }
}

const ONE_CURSOR: &str = "event A;open 1 1;event A;compact;pull 1 5;pull 1 1;drop 1";

const MANY_CURSORS: &str =
    "event A;open 1 1;open 1 2;open 1 3;open 1 4;open 1 5;open 1 6;open 1 7;open 1 8;open 1 9;\
open 1 10;open 1 11;open 1 12;open 1 13;open 1 14;open 1 15;open 1 16;open 1 17;open 1 18;\
open 1 19;open 1 20;open 1 21;open 1 22;open 1 23;open 1 24;open 1 25;open 1 26;open 1 27;\
open 1 28;open 1 29;open 1 30;open 1 31;open 1 32;open 1 33;open 1 34;open 1 35;open 1 36;\
open 1 37;open 1 38;open 1 39;open 1 40;open 1 41;open 1 42;open 1 43;open 1 44;open 1 45;\
open 1 46;open 1 47;open 1 48;open 1 49;open 1 50;open 1 51;open 1 52;open 1 53;open 1 54;\
open 1 55;open 1 56;open 1 57;open 1 58;open 1 59;open 1 60;open 1 61;open 1 62;open 1 63;\
open 1 64;pull 1 1;pull 64 1";

const SOME_ANSWERS: &str = "event A;event A;event A;open 2 7;pull 7 1;event A;compact;pull 7 10";

fn refusal_words(alloc: Global, refusal: Refusal) -> Result<String, AllocError> {
    match refusal {
        Refusal::TimeBack { query, .. } => format!(in alloc; "time falls in query {query}"),
        Refusal::NoQuery { query } => format!(in alloc; "no query {query}"),
        Refusal::NoEventYet => "no event yet".to_string(alloc),
        Refusal::CursorOpen { cursor } => format!(in alloc; "cursor {cursor} is open"),
        Refusal::CursorNotOpen { cursor } => format!(in alloc; "cursor {cursor} is not open"),
    }
}

fn end_words(alloc: Global, played: Result<(), RunFault>) -> Result<String, AllocError> {
    match played {
        Ok(()) => "played".to_string(alloc),
        Err(RunFault::Refused(refusal)) => refusal_words(alloc, refusal),
        Err(RunFault::WriteFault) => "write fault".to_string(alloc),
        Err(RunFault::Memory) => "memory".to_string(alloc),
    }
}

/// What is written of the script, of which the write of this number fails, and how it ends.
fn played(
    alloc: Global,
    script: &str,
    fails: u64,
    runtime: &HostRuntime,
) -> Result<String, AllocError> {
    let Ok(mut out) = sink(alloc, fails) else {
        return Err(AllocError);
    };
    let end = end_words(alloc, play_into(alloc, script, &mut out, runtime))?;
    match str::from_utf8(out.as_slice()) {
        Ok(lines) => format!(in alloc; "{lines}{end}"),
        Err(_) => format!(in alloc; "no text, {end}"),
    }
}

/// A script, which write fails, from 1, what is written, and behind it how the script ends.
const PLAYED: &[(&str, u64, &str)] = &[
    (ONE_CURSOR, 100, "at 0\nat 1\n1 [0,0] {0}\nend\nend\nplayed"),
    (
        MANY_CURSORS,
        100,
        "at 0\n1 [0,0] {0}\nend\n1 [0,0] {0}\nend\nplayed",
    ),
    (ONE_CURSOR, 2, "at 0\nwrite fault"),
    // A script ends at what is refused.
    ("open 3 1", 100, "no query 3"),
    ("open 0 1", 100, "no query 0"),
    ("open 2 1", 100, "no event yet"),
    ("event A;open 2 1", 100, "at 0\nplayed"),
    ("event A;open 1 1;open 2 1", 100, "at 0\ncursor 1 is open"),
    ("event A;open 1 1;open 3 1", 100, "at 0\nno query 3"),
    ("pull 1 1", 100, "cursor 1 is not open"),
    ("drop 1", 100, "cursor 1 is not open"),
    ("event A;open 1 1;drop 2", 100, "at 0\ncursor 2 is not open"),
    (
        "event A;open 1 1;drop 1;pull 1 1",
        100,
        "at 0\ncursor 1 is not open",
    ),
    (
        "event A;open 1 1;drop 1;open 2 1;pull 1 1",
        100,
        "at 0\n2 [0,0] {0}\nend\nplayed",
    ),
    ("compact", 100, "played"),
];

#[test]
fn scripts_are_played(rt: HostRuntime) -> Result<(), Fail> {
    for &(script, fails, wanted) in PLAYED {
        let words = played(rt.alloc(), script, fails, &rt)?;
        same(&rt, words.as_str(), wanted, script);
    }
    Ok(())
}

/// Whether the four answers of `A+` at position 2 stand there, one of them before the fourth event.
fn has_some_answers(text: &str) -> bool {
    line_count(text.as_bytes()) == 10
        && text.starts_with("at 0\nat 1\nat 2\n2 [")
        && text.contains("\n2 [0,2] {0,1,2}\n")
        && text.contains("\n2 [0,2] {0,2}\n")
        && text.contains("\n2 [1,2] {1,2}\n")
        && text.contains("\n2 [2,2] {2}\n")
        && text.contains("}\nmore\nat 3\n2 [")
        && text.ends_with("}\nend\nplayed")
}

#[test]
fn a_cursor_goes_on_after_an_event(rt: HostRuntime) -> Result<(), Fail> {
    let words = played(rt.alloc(), SOME_ANSWERS, 100, &rt)?;
    assert!(rt; has_some_answers(words.as_str()), "other answers");
    Ok(())
}

/// Two queries whose windows reach one event back. Of each two states are met, so an event adds at most
/// 16 * (2 + 2) ^ 2 = 256 nodes to it, and at least one.
const BACK: &str = "DECLARE EVENT A()\nDECLARE STREAM S(A)\n\
SELECT * FROM S WHERE A+ WITHIN 1 EVENTS\nSELECT * FROM S WHERE A+ WITHIN 1 EVENTS\n";

/// So many events come after the first three.
const MORE_EVENTS: u64 = 20_000;

/// What is kept of the second query then, in nodes, of which a key counts as eight: at most 1024; twice
/// what its window needed after some event, in which two were, each with 256 nodes and a key, and one key
/// more; and what came since it was looked at, which was at most 2 * 16 events ago.
const KEPT: u64 = 1024 + 2 * (2 * (256 + 8) + 8) + 2 * 16 * (256 + 8);

/// Plays the line so many times.
fn play_again<K: Sink, L: Ledger>(
    alloc: Global,
    session: &mut Session,
    line: &str,
    times: u64,
    out: &mut K,
    steps: &mut Steps<L>,
) -> Result<(), RunFault>
    requires { count_of session.old.engine + times < 2 ^ 64 }
    ensures { count_of session.new.engine ≤ count_of session.old.engine + times }
{
    for _k in 0..times {
        match play_line(alloc, session, line, out, steps) {
            Ok(()) => {}
            Err(fault) => return Err(fault),
        }
    }
    Ok(())
}

/// A cursor of the first query is opened at the third event, and pulled after many more.
fn play_long<K: Sink, L: Ledger>(
    alloc: Global,
    session: &mut Session,
    out: &mut K,
    steps: &mut Steps<L>,
) -> Result<(), RunFault>
    requires { count_of session.old.engine ≡ 0 }
{
    match play_again(alloc, session, "event A", 3, out, steps) {
        Ok(()) => {}
        Err(fault) => return Err(fault),
    }
    match play_line(alloc, session, "open 1 1", out, steps) {
        Ok(()) => {}
        Err(fault) => return Err(fault),
    }
    match play_again(alloc, session, "event A", MORE_EVENTS, out, steps) {
        Ok(()) => {}
        Err(fault) => return Err(fault),
    }
    play_line(alloc, session, "pull 1 5", out, steps)
}

/// How many nodes are kept of the second query.
fn kept(session: &Session) -> Option<u64> {
    let engine = session.engine();
    if engine.queries() < 2 {
        return None;
    }
    Some(engine.len(2))
}

/// How many of the second query are kept after the long script.
fn kept_after<K: Sink, L: Ledger>(alloc: Global, out: &mut K, opening: Opening) -> Option<u64>
    requires name { opening.name ≡ L.name }
    requires parts { opening.parts ≡ L.parts }
{
    let mut steps = Steps::<L>::start(opening);
    match session(alloc, BACK) {
        Ok(mut session) => match play_long(alloc, &mut session, out, &mut steps) {
            Ok(()) => kept(&session),
            Err(_) => None,
        },
        Err(_) => None,
    }
}

fn kept_with(alloc: Global, out: &mut MemSink, runtime: &HostRuntime) -> Option<u64> {
    kept_after::<MemSink, Brand>(alloc, out, Opening::new(runtime))
}

/// What the pull writes stands last, in one of two orders.
fn has_both_answers(text: &[u8]) -> bool {
    text.ends_with(b"at 20002\n1 [1,2] {1,2}\n1 [2,2] {2}\nend\n")
        || text.ends_with(b"at 20002\n1 [2,2] {2}\n1 [1,2] {1,2}\nend\n")
}

#[test]
fn a_session_compacts_by_itself(rt: HostRuntime) -> Result<(), Fail> {
    let alloc = rt.alloc();
    let mut out = MemSink::new(alloc, 4096, 1_000_000, Vec::new(alloc))?;
    let left = kept_with(alloc, &mut out, &rt);
    assert!(rt;
        matches!(left, Some(nodes) if nodes <= KEPT),
        "too many nodes"
    );
    assert!(rt; has_both_answers(out.as_slice()), "other answers");
    Ok(())
}
