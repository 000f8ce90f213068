//! Runs that go on from a checkpoint, worked out by hand.

use super::rows::{PLAIN, rows_hold};
use core_calls::calls::{AMPLE, Sinks, failing_resume_host, over_host, resumed_well, words_of};
use std::alloc::Global;
use std::process::Abort;
use std::test::*;

const RESUMED: &str = "\
row | query | words | checkpoint | events | output
what the window still needs | SELECT * FROM S WHERE A+ WITHIN 1 EVENTS | resume q c e | core checkpoint 1 / events 3 2 / at 1 / A,2 / at 2 / A,3 | A,4 | 1 [2,3] {2,3} / 1 [3,3] {3}
no event before | SELECT * FROM S WHERE A ; B | resume q c e | core checkpoint 1 / events 0 0 | A,1 / B,2 | 1 [0,1] {0,1}
no event behind | SELECT * FROM S WHERE A | resume q c e | core checkpoint 1 / events 1 1 / at 0 / A,1
positions go on | SELECT * FROM S WHERE A | resume q c e | core checkpoint 1 / events 3 0 | A,1 / B,2 / A,3 | 1 [3,3] {3} / 1 [5,5] {5}
a sequence goes on | SELECT * FROM S WHERE A ; B | resume q c e | core checkpoint 1 / events 2 1 / at 1 / A,5 | B,1 | 1 [1,2] {1,2}
blank events have positions | SELECT * FROM S WHERE A ; B WITHIN 2 EVENTS | resume q c e | core checkpoint 1 / events 3 1 / at 1 / A,1 | B,2 / B,3 | 1 [1,3] {1,3}
and are in no substream | SELECT STRICT * FROM S WHERE A ; B | resume q c e | core checkpoint 1 / events 2 1 / at 0 / A,1 | B,2 / A,3 / B,4 | 1 [0,2] {0,2} / 1 [3,4] {3,4}
clocks go on | SELECT * FROM S WHERE A ; B WITHIN 5 [v] | resume q c e | core checkpoint 1 / events 1 1 / at 0 / A,10 | B,15 / B,16 | 1 [0,1] {0,1}
two queries | SELECT * FROM S WHERE A ; B / SELECT * FROM S WHERE B | resume q c e | core checkpoint 1 / events 1 1 / at 0 / A,1 | B,2 | 1 [0,1] {0,1} / 2 [1,1] {1}
walk order | SELECT * FROM S WHERE A | resume --order walk q c e | core checkpoint 1 / events 1 1 / at 0 / A,1 | A,2 | 1 [1,1] {1}
compacted after each event | SELECT * FROM S WHERE A ; B | resume q c e --compact-every 1 | core checkpoint 1 / events 2 1 / at 1 / A,5 | B,1 / B,2 | 1 [1,2] {1,2} / 1 [1,3] {1,3}
a carriage return ends an event's line | SELECT * FROM S WHERE A ; B | resume q c e | core checkpoint 1 / events 2 1 / at 1 / A,5\r | B,1 | 1 [1,2] {1,2}";

const REFUSED: &str = "\
row | formula | words | checkpoint | events | status | output | note
another header | A | resume q c e | core checkpoint 2 / events 0 0 | A,1 | 9 |  | checkpoint line 1: bad header
more events than positions | A | resume q c e | core checkpoint 1 / events 3 4 / at 1 / A,2 / at 2 / A,3 | A,4 | 9 |  | checkpoint line 2: bad count
a position stands twice | A | resume q c e | core checkpoint 1 / events 3 2 / at 1 / A,2 / at 1 / A,3 | A,4 | 9 |  | checkpoint line 5: bad position
no event of the schema | A | resume q c e | core checkpoint 1 / events 3 1 / at 1 / C,2 | A,4 | 9 |  | checkpoint line 4: bad event
time falls | A WITHIN 5 [v] | resume q c e | core checkpoint 1 / events 3 2 / at 0 / A,9 / at 1 / A,8 | A,9 | 9 |  | checkpoint line 6: bad event
a line is missing | A | resume q c e | core checkpoint 1 / events 3 2 / at 1 / A,2 / at 2 | A,4 | 9 |  | checkpoint line 6: missing line
a line behind the last | A | resume q c e | core checkpoint 1 / events 3 1 / at 1 / A,2 / at 2 | A,4 | 9 |  | checkpoint line 5: extra line
before the event file is opened | A | resume q c f | core checkpoint 1 / events 1 2 |  | 9 |  | checkpoint line 2: bad count
and behind the query text | A ; | resume q c f | core checkpoint 1 / events 1 2 |  | 3 |  | queries 5:1: unexpected end of text
no checkpoint | A | resume q f e | core checkpoint 1 / events 0 0 | A,1 | 5 |  | cannot open checkpoint
no event file | A | resume q c f | core checkpoint 1 / events 0 0 | A,1 | 5 |  | cannot open events
no query file | A | resume f c e | core checkpoint 1 / events 0 0 | A,1 | 5 |  | cannot open queries
a line of the event file | A | resume q c e | core checkpoint 1 / events 3 0 | A,1 / C,2 | 4 | 1 [3,3] {3} | events line 2: unknown type
time falls behind the checkpoint | A WITHIN 5 [v] | resume q c e | core checkpoint 1 / events 1 1 / at 0 / A,10 | A,9 | 4 |  | events line 1: time falls from 10 to 9 in query 1
too many bytes | A | resume q c e --max-bytes 5 | core checkpoint 1 / events 1 0 | A,10 / A,11 | 8 | 1 [1,1] {1} | events longer than 5 bytes
a word is missing | A | resume q e | core checkpoint 1 / events 0 0 | A,1 | 2 |  | usage";

#[test]
fn a_run_goes_on_from_a_checkpoint(rt: HostRuntime) -> Result<(), Fail> {
    rows_hold(&rt, rt.alloc(), PLAIN, RESUMED, &rt)
}

#[test]
fn nothing_is_written_after_a_bad_checkpoint(rt: HostRuntime) -> Result<(), Fail> {
    rows_hold(&rt, rt.alloc(), PLAIN, REFUSED, &rt)
}

/// What the words answer over this checkpoint.
fn checkpoint_holds(
    rt: &impl Abort,
    alloc: Global,
    checkpoint: &str,
    wanted: &str,
    runtime: &HostRuntime,
) -> Result<(), Fail> {
    let queries = format!(in alloc; "{PLAIN}{QUERY}")?;
    let (queries, checkpoint) = (queries.as_bytes(), checkpoint.as_bytes());
    let told = resumed_well(
        alloc,
        "resume q c e",
        queries,
        checkpoint,
        b"A,1\n",
        runtime,
    )?;
    assert_eq!(rt; told.as_str(), wanted);
    Ok(())
}

/// A line has at most 65,536 bytes.
#[test]
fn an_empty_checkpoint_and_a_long_line(rt: HostRuntime) -> Result<(), Fail> {
    let alloc = rt.alloc();
    checkpoint_holds(
        &rt,
        alloc,
        "",
        "9||core: checkpoint line 1: missing line\n",
        &rt,
    )?;
    let mut long = "core checkpoint 1\n".to_string(alloc)?;
    for _ in 0..65_537 {
        long.push('x')?;
    }
    checkpoint_holds(
        &rt,
        alloc,
        long.as_str(),
        "9||core: checkpoint line 2: line too long\n",
        &rt,
    )
}

const QUERY: &str = "SELECT * FROM S WHERE A\n";

/// 29 bytes, which are read by 8 reads; a ninth finds the end.
const CHECKPOINT: &str = "core checkpoint 1\nevents 2 0\n";

/// What the call answers where the open, the read of the checkpoint, the read of the events and the
/// write of these numbers fail.
fn outside_holds(
    rt: &impl Abort,
    alloc: Global,
    fails: [u64; 4],
    wanted: &str,
    runtime: &HostRuntime,
) -> Result<(), Fail> {
    let queries = format!(in alloc; "{PLAIN}{QUERY}")?;
    let mut host = failing_resume_host(
        alloc,
        queries.as_bytes(),
        CHECKPOINT.as_bytes(),
        b"A,1\n",
        fails[0],
        fails[1],
        fails[2],
    )?;
    let sinks = Sinks {
        room: AMPLE,
        piece: 5,
        write: fails[3],
        note: 0,
    };
    let words = words_of(alloc, "resume q c e")?;
    let found = over_host(alloc, words, &mut host, sinks, runtime)?;
    assert_eq!(rt; found.as_str(), wanted, "{fails:?}");
    Ok(())
}

/// Which calls fail, by their numbers from 1, and what is answered.
const OUTSIDE: &[([u64; 4], &str)] = &[
    ([1, 0, 0, 0], "5||core: cannot open queries\n"),
    ([2, 0, 0, 0], "5||core: cannot open checkpoint\n"),
    ([3, 0, 0, 0], "5||core: cannot open events\n"),
    ([4, 0, 0, 0], "0|1 [2,2] {2}\n|"),
    ([0, 1, 0, 0], "5||core: cannot read checkpoint\n"),
    ([0, 9, 0, 0], "5||core: cannot read checkpoint\n"),
    ([0, 10, 0, 0], "0|1 [2,2] {2}\n|"),
    ([0, 0, 1, 0], "5||core: cannot read events\n"),
    ([0, 0, 2, 0], "5|1 [2,2] {2}\n|core: cannot read events\n"),
    ([0, 0, 0, 1], "6||core: cannot write\n"),
    ([0, 0, 0, 2], "6|1 [2,|core: cannot write\n"),
];

#[test]
fn the_outside_fails_in_turn(rt: HostRuntime) -> Result<(), Fail> {
    let alloc = rt.alloc();
    for &(fails, wanted) in OUTSIDE {
        outside_holds(&rt, alloc, fails, wanted, &rt)?;
    }
    Ok(())
}

const SEQUENCE: &str = "SELECT * FROM S WHERE A ; B\n";

/// 47 bytes; the line feed at the end may be missing.
const WHOLE: &str = "core checkpoint 1\nevents 3 2\nat 1\nA,2\nat 2\nA,3\n";

/// How the first bytes of that are told, from so many on and for fewer than so many, worked out by hand.
const CUT: &[(usize, usize, &str)] = &[
    (0, 1, "9||core: checkpoint line 1: missing line\n"),
    (1, 17, "9||core: checkpoint line 1: bad header\n"),
    (17, 19, "9||core: checkpoint line 2: missing line\n"),
    (19, 28, "9||core: checkpoint line 2: bad count\n"),
    (28, 30, "9||core: checkpoint line 3: missing line\n"),
    (30, 33, "9||core: checkpoint line 3: bad position\n"),
    (33, 35, "9||core: checkpoint line 4: missing line\n"),
    (35, 37, "9||core: checkpoint line 4: bad event\n"),
    (37, 39, "9||core: checkpoint line 5: missing line\n"),
    (39, 42, "9||core: checkpoint line 5: bad position\n"),
    (42, 44, "9||core: checkpoint line 6: missing line\n"),
    (44, 46, "9||core: checkpoint line 6: bad event\n"),
    (46, 48, "0|1 [1,3] {1,3}\n1 [2,3] {2,3}\n|"),
];

/// The first so many bytes of the checkpoint, which are those of a text.
fn first_bytes(len: usize) -> &'static str {
    match WHOLE.split_at_checked(len) {
        Some((first, _)) => first,
        None => WHOLE,
    }
}

/// What a resumed run over one event answers after so many bytes of the checkpoint.
fn cut_holds(
    rt: &impl Abort,
    alloc: Global,
    len: usize,
    wanted: &str,
    runtime: &HostRuntime,
) -> Result<(), Fail> {
    let queries = format!(in alloc; "{PLAIN}{SEQUENCE}")?;
    let checkpoint = first_bytes(len).as_bytes();
    let told = resumed_well(
        alloc,
        "resume q c e",
        queries.as_bytes(),
        checkpoint,
        b"B,4\n",
        runtime,
    )?;
    let is_told = told.as_str() == wanted;
    assert!(rt; is_told, "{len} bytes");
    Ok(())
}

#[test]
fn a_checkpoint_is_cut_at_every_byte(rt: HostRuntime) -> Result<(), Fail> {
    for &(from, to, wanted) in CUT {
        for len in from..to {
            cut_holds(&rt, rt.alloc(), len, wanted, &rt)?;
        }
    }
    Ok(())
}
