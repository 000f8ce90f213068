//! Scripts of commands, worked out by hand.

use super::rows::{PLAIN, rows_hold};
use core_calls::calls::{AMPLE, Sinks, done_well, failing_host, over_host, words_of};
use std::alloc::{AllocError, Global};
use std::test::*;

const PLAYED: &str = "\
row | query | words | events | output
a cursor keeps its position | SELECT * FROM S WHERE A | session q e | event A,1 / open 1 1 / event A,2 / compact / pull 1 5 / pull 1 1 / drop 1 | at 0 / at 1 / 1 [0,0] {0} / end / end
empty lines are passed over | SELECT * FROM S WHERE A | session q e | event A,1 /  / open 1 1 /  / pull 1 1 /  | at 0 / 1 [0,0] {0} / end
one carriage return ends a line | SELECT * FROM S WHERE A | session q e | event A,1\r / open 1 1\r / pull 1 1\r / compact\r / drop 1\r / \r | at 0 / 1 [0,0] {0} / end
and one more the event within it | SELECT * FROM S WHERE A | session q e | event A,1\r\r | at 0
numbers may have zeros | SELECT * FROM S WHERE A | session q e | event A,1 / open 0000000001 064 / pull 0000000064 0000000001 / drop 64 | at 0 / 1 [0,0] {0} / end
the greatest pull | SELECT * FROM S WHERE A | session q e | event A,1 / open 1 1 / pull 1 4294967295 | at 0 / 1 [0,0] {0} / end
no answer at the position | SELECT * FROM S WHERE A | session q e | event B,1 / open 1 1 / pull 1 1 | at 0 / end
each query has its own answers | SELECT * FROM S WHERE A / SELECT * FROM S WHERE B | session q e | event A,1 / open 1 1 / open 2 2 / event B,2 / open 2 3 / pull 3 1 / pull 2 1 / pull 1 1 | at 0 / at 1 / 2 [1,1] {1} / end / end / 1 [0,0] {0} / end
a number is free again once its cursor is dropped | SELECT * FROM S WHERE A | session q e | event A,1 / open 1 1 / drop 1 / event A,2 / open 1 1 / pull 1 1 | at 0 / at 1 / 1 [1,1] {1} / end
what a cursor holds stays when its window is past | SELECT * FROM S WHERE A ; B WITHIN 1 EVENTS | session q e | event A,1 / event B,2 / open 1 1 / event B,3 / event B,4 / compact / pull 1 2 | at 0 / at 1 / at 2 / at 3 / 1 [0,1] {0,1} / end
strict leaves out no event | SELECT STRICT * FROM S WHERE A ; B | session q e | event A,1 / event A,2 / event B,3 / open 1 1 / pull 1 9 | at 0 / at 1 / at 2 / 1 [1,2] {1,2} / end
any asks for few and a cursor gives all | SELECT ANY 1 * FROM S WHERE A OR B | session q e | event A,1 / open 1 1 / pull 1 9 | at 0 / 1 [0,0] {0} / end";

const REFUSED: &str = "\
row | formula | words | events | status | output | note
no command | A | session q e |  | 0
no event yet | A | session q e | open 1 1 | 4 |  | events line 1: no event yet
no such query | A | session q e | event A,1 / open 2 1 | 4 | at 0 | events line 2: no query 2
no query 0 | A | session q e | event A,1 / open 0 1 | 4 | at 0 | events line 2: no query 0
a query's number without its zeros | A | session q e | open 0000000009 1 | 4 |  | events line 1: no query 9
the greatest query's number | A | session q e | open 9999999999 1 | 4 |  | events line 1: no query 9999999999
the cursor is open | A | session q e | event A,1 / open 1 1 / open 1 01 | 4 | at 0 | events line 3: cursor 1 is open
a cursor to pull is not open | A | session q e | pull 64 1 | 4 |  | events line 1: cursor 64 is not open
a cursor to drop is not open | A | session q e | event A,1 / open 1 1 / drop 1 / drop 1 | 4 | at 0 | events line 4: cursor 1 is not open
time falls | A WITHIN 5 [v] | session q e | event A,10 / event A,9 / event A,11 | 4 | at 0 | events line 2: time falls from 10 to 9 in query 1
no line behind a refused one | A | session q e | event A,1 / pull 2 1 / event A,2 | 4 | at 0 | events line 2: cursor 2 is not open
lines that are empty are counted | A | session q e | event A,1 /  / \r / compacts | 4 | at 0 | events line 4: unknown command
an event alone | A | session q e | A,1 | 4 |  | events line 1: unknown command
an event's word alone | A | session q e | event | 4 |  | events line 1: unknown command
an empty event | A | session q e | event  | 4 |  | events line 1: unknown command
and with a carriage return | A | session q e | event \r\r | 4 |  | events line 1: unknown command
a third carriage return | A | session q e | event A,1\r\r\r | 4 |  | events line 1: carriage return or byte order mark in the line
an event of no type | A | session q e | event C,1 | 4 |  | events line 1: unknown type
an event's field | A | session q e | event A,x | 4 |  | events line 1: field 1 is no INT
an event's fields | A | session q e | event A,1,2 | 4 |  | events line 1: 2 fields where 1 is wanted
an event's quote | A | session q e | event A,\"1 | 4 |  | events line 1: open quote
a second carriage return behind open | A | session q e | event A,1 / open 1 1\r\r | 4 | at 0 | events line 2: unknown command
behind pull | A | session q e | event A,1 / open 1 1 / pull 1 1\r\r | 4 | at 0 | events line 3: unknown command
behind drop | A | session q e | event A,1 / open 1 1 / drop 1\r\r | 4 | at 0 | events line 3: unknown command
and behind compact | A | session q e | compact\r\r | 4 |  | events line 1: unknown command
one cursor too many | A | session q e | event A,1 / open 1 65 | 4 | at 0 | events line 2: unknown command
no cursor 0 | A | session q e | event A,1 / open 1 0 | 4 | at 0 | events line 2: unknown command
eleven digits | A | session q e | event A,1 / open 00000000001 1 | 4 | at 0 | events line 2: unknown command
two blanks | A | session q e | event A,1 / open 1  1 | 4 | at 0 | events line 2: unknown command
a pull of none | A | session q e | pull 1 0 | 4 |  | events line 1: unknown command
a pull of too many | A | session q e | pull 1 4294967296 | 4 |  | events line 1: unknown command
a command in capitals | A | session q e | COMPACT | 4 |  | events line 1: unknown command
a refused query text | A ; | session q e | event A,1 | 3 |  | queries 5:1: unexpected end of text
no script | A | session q f |  | 5 |  | cannot open events
no query file | A | session f e |  | 5 |  | cannot open queries
no option | A | session q e --order walk |  | 2 |  | usage";

#[test]
fn scripts_are_played_in_order(rt: HostRuntime) -> Result<(), Fail> {
    rows_hold(&rt, rt.alloc(), PLAIN, PLAYED, &rt)
}

#[test]
fn a_refused_line_ends_the_script(rt: HostRuntime) -> Result<(), Fail> {
    rows_hold(&rt, rt.alloc(), PLAIN, REFUSED, &rt)
}

/// The query text of one formula.
fn text_of(alloc: Global, formula: &str) -> Result<String, AllocError> {
    format!(in alloc; "{PLAIN}SELECT * FROM S WHERE {formula}\n")
}

/// One event, and commands on one cursor: 28 bytes, in lines of 10, 9 and 9.
const SHORT: &[u8] = b"event A,1\nopen 1 1\npull 1 1\n";

/// What the short script answers where the read and the write of these numbers fail.
fn short_words(
    alloc: Global,
    read: u64,
    write: u64,
    runtime: &HostRuntime,
) -> Result<String, AllocError> {
    let queries = text_of(alloc, "A")?;
    let mut host = failing_host(alloc, queries.as_bytes(), SHORT, 0, 0, read)?;
    let sinks = Sinks {
        room: AMPLE,
        piece: 7,
        write,
        note: 0,
    };
    over_host(
        alloc,
        words_of(alloc, "session q e")?,
        &mut host,
        sinks,
        runtime,
    )
}

/// Which read of the script fails and which write, from 1, and what is answered.
const FAULTS: &[(u64, u64, &str)] = &[
    (1, 0, "5||core: cannot read events\n"),
    (3, 0, "5||core: cannot read events\n"),
    (4, 0, "5|at 0\n|core: cannot read events\n"),
    (7, 0, "5|at 0\n|core: cannot read events\n"),
    (
        8,
        0,
        "5|at 0\n1 [0,0] {0}\nend\n|core: cannot read events\n",
    ),
    (9, 0, "0|at 0\n1 [0,0] {0}\nend\n|"),
    (0, 1, "6||core: cannot write\n"),
    (0, 2, "6|at 0\n|core: cannot write\n"),
    (0, 3, "6|at 0\n1 [0,0]|core: cannot write\n"),
    (0, 4, "6|at 0\n1 [0,0] {0}\n|core: cannot write\n"),
    (0, 5, "0|at 0\n1 [0,0] {0}\nend\n|"),
];

#[test]
fn lines_before_a_fault_are_played(rt: HostRuntime) -> Result<(), Fail> {
    for &(read, write, wanted) in FAULTS {
        let words = short_words(rt.alloc(), read, write, &rt)?;
        assert_eq!(rt; words.as_str(), wanted, "at {read}, {write}");
    }
    Ok(())
}

/// An event, the part so often, and what stands after it.
fn repeated(alloc: Global, part: &str, times: usize, behind: &str) -> Result<String, AllocError> {
    let mut text = "event A,1\n".to_string(alloc)?;
    for _ in 0..times {
        text.push_str(part)?;
    }
    text.push_str(behind)?;
    Ok(text)
}

#[test]
fn ten_thousand_commands_are_played(rt: HostRuntime) -> Result<(), Fail> {
    let alloc = rt.alloc();
    let queries = text_of(alloc, "A")?;
    let script = repeated(
        alloc,
        "open 1 1\ncompact\ndrop 1\n",
        3333,
        "open 1 2\npull 2 1\n",
    )?;
    let told = done_well(
        alloc,
        "session q e",
        queries.as_bytes(),
        script.as_bytes(),
        &rt,
    )?;
    assert_eq!(rt; told.as_str(), "0|at 0\n1 [0,0] {0}\nend\n|");
    Ok(())
}

/// An event, cursors of the numbers 1 to 64, and a pull from the last of them.
fn many_cursors(alloc: Global) -> Result<String, AllocError> {
    let mut text = "event A,1\n".to_string(alloc)?;
    for number in 1..65u64 {
        write!(text, "open 1 {number}\n")?;
    }
    text.push_str("pull 64 1\npull 1 1\n")?;
    Ok(text)
}

#[test]
fn sixty_four_cursors_are_open(rt: HostRuntime) -> Result<(), Fail> {
    let alloc = rt.alloc();
    let queries = text_of(alloc, "A")?;
    let script = many_cursors(alloc)?;
    let told = done_well(
        alloc,
        "session q e",
        queries.as_bytes(),
        script.as_bytes(),
        &rt,
    )?;
    let wanted = "0|at 0\n1 [0,0] {0}\nend\n1 [0,0] {0}\nend\n|";
    assert_eq!(rt; told.as_str(), wanted);
    Ok(())
}

/// How many times the script takes an event, opens a cursor, pulls its answer and drops it: ten
/// thousand commands.
const TIMES: u64 = 2_500;

fn long_script(alloc: Global) -> Result<String, AllocError> {
    let mut text = String::new(alloc);
    for i in 0..TIMES {
        write!(text, "event A,{i}\nopen 1 7\npull 7 1\ndrop 7\n")?;
    }
    Ok(text)
}

/// Each event is the start, the end and the only position of one answer.
fn long_output(alloc: Global) -> Result<String, AllocError> {
    let mut text = "0|".to_string(alloc)?;
    for i in 0..TIMES {
        write!(text, "at {i}\n1 [{i},{i}] {{{i}}}\nend\n")?;
    }
    text.push('|')?;
    Ok(text)
}

fn long_answer(
    alloc: Global,
    queries: &str,
    script: &str,
    runtime: &HostRuntime,
) -> Result<String, AllocError> {
    let sinks = Sinks {
        room: 200_000,
        piece: 1_000,
        write: 0,
        note: 0,
    };
    let mut host = failing_host(alloc, queries.as_bytes(), script.as_bytes(), 0, 0, 0)?;
    over_host(
        alloc,
        words_of(alloc, "session q e")?,
        &mut host,
        sinks,
        runtime,
    )
}

#[test]
fn a_script_has_ten_thousand_commands(rt: HostRuntime) -> Result<(), Fail> {
    let alloc = rt.alloc();
    let queries = format!(in alloc; "{PLAIN}SELECT * FROM S WHERE A\n")?;
    let script = long_script(alloc)?;
    let wanted = long_output(alloc)?;
    let told = long_answer(alloc, queries.as_str(), script.as_str(), &rt)?;
    assert!(rt; told.as_str() == wanted.as_str());
    Ok(())
}
