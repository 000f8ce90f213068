//! Tests of long lines, and of sources and sinks that fail.

use crate::tests::commands::checkpoints::{bytes_of, kept, read};
use crate::tests::same;
use std::alloc::{AllocError, Global};
use std::test::Fail;

/// A checkpoint, which read fails, from 1, and what is answered.
const READS: &[(&str, u64, &str)] = &[
    ("core checkpoint 1;events 1 1;at 0;A,2;", 1, "cannot read"),
    ("core checkpoint 1;events 1 1;at 0;A,2;", 6, "cannot read"),
    ("core checkpoint 1;events 1 1;at 0;A,2;", 7, "cannot read"),
    ("core checkpoint 1;events 1 1;at 0;A,2;", 8, "1: 0"),
    ("core checkpoint 2;events 1 1;at 0;A,2;", 3, "cannot read"),
    (
        "core checkpoint 2;events 1 1;at 0;A,2;",
        4,
        "line 1: bad header",
    ),
];

#[test]
fn a_failed_read_is_told_after_the_lines_before(rt: HostRuntime) -> Result<(), Fail> {
    let alloc = rt.alloc();
    for &(text, fails, wanted) in READS {
        let words = read(alloc, bytes_of(alloc, text)?, fails)?;
        same(&rt, words.as_str(), wanted, text);
    }
    Ok(())
}

// The text, and after it so many bytes of a line.
fn with_line(alloc: Global, text: &str, len: usize) -> Result<Vec<u8>, AllocError> {
    let mut bytes = bytes_of(alloc, text)?;
    for _ in 0..len {
        bytes.push(b'0')?;
    }
    bytes.push(b'\n')?;
    Ok(bytes)
}

/// The lines before a long one, how many bytes it has, and what is answered.
const LONG_LINES: &[(&str, usize, &str)] = &[
    ("", 65536, "line 1: bad header"),
    ("", 65537, "line 1: line too long"),
    ("core checkpoint 1;", 65536, "line 2: bad count"),
    ("core checkpoint 1;", 65537, "line 2: line too long"),
];

#[test]
fn a_line_may_be_long_and_no_longer(rt: HostRuntime) -> Result<(), Fail> {
    let alloc = rt.alloc();
    for &(text, len, wanted) in LONG_LINES {
        let words = read(alloc, with_line(alloc, text, len)?, 0)?;
        same(&rt, words.as_str(), wanted, text);
    }
    Ok(())
}

/// How much room the sink has, which write fails, from 1, and what it has taken.
const WRITES: &[(usize, u64, &str)] = &[
    (38, 0, "core checkpoint 1;events 1 1;at 0;A,7;"),
    (37, 0, "core checkpoint 1;events 1 1;at 0;A,7/"),
    (20, 0, "core checkpoint 1;ev/"),
    (0, 0, "/"),
    (99, 1, "/"),
    (99, 3, "core check/"),
    (99, 8, "core checkpoint 1;events 1 1;at 0;A/"),
    (99, 9, "core checkpoint 1;events 1 1;at 0;A,7;"),
];

#[test]
fn a_failed_write_leaves_a_first_part(rt: HostRuntime) -> Result<(), Fail> {
    for &(room, fails, wanted) in WRITES {
        let words = kept(rt.alloc(), "5 [t]", "A,7", room, fails)?;
        same(&rt, words.as_str(), wanted, "a sink");
    }
    Ok(())
}
