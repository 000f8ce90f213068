ghost use Rattle.std.specs.Prelude.{◌≡◌, ◌<◌, ℕ, List, map, Some, IfOk};
ghost use Rattle.event_reader.specs.LineReaders.{HasTold};

use crate::tests::input::events::answer;
use crate::tests::same;
use cer_base::Memory;
use cer_base::limits::MOST_BYTES;
use cer_outside::Source;
use cer_outside::sources::MemSource;
use event_reader::{LineFault, Lines, Next};
use std::alloc::{AllocError, Global};
use std::test::Fail;

// All lines of a source, and why there is no further one.
#[derive(Drop)]
struct Told {
    texts: Vec<Vec<u8>>,
    fault: Option<LineFault>,
}

// Reads all lines, as any caller does: what it saw is what the definition says.
fn read_lines<Q: Source>(alloc: Global, budget: u64, source: &mut Q) -> Result<Told, Memory>
    ensures { IfOk result (λ told. (bytes : List ℕ) → Q.left source.old ≡ Some bytes
        → HasTold budget bytes (Q.left source.new)
        (map (λ text. text.items) told.texts.items) told.fault) }
{
    let mut lines = Lines::new(alloc, budget)?;
    let mut texts = Vec::new(alloc);
    loop {
        match lines.next(source) {
            Ok(Next::Line) => {
                let text = Vec::from_slice(alloc, lines.text())?;
                texts.push(text)?;
            }
            Ok(Next::End) => return Ok(Told { texts, fault: None }),
            Err(fault) => {
                return Ok(Told {
                    texts,
                    fault: Some(fault),
                });
            }
        }
    }
}

// The texts of all lines, a bar after each, and how the file ends.
fn words_of(alloc: Global, told: &Told) -> Result<String, AllocError> {
    let mut words = String::new(alloc);
    for text in &told.texts {
        match str::from_utf8(text.as_slice()) {
            Ok(text) => words.push_str(text)?,
            Err(_) => words.push('?')?,
        }
        words.push('|')?;
    }
    match told.fault {
        None => words.push_str("end")?,
        Some(fault) => words.push_str(format!(in alloc; "{fault}")?.as_str())?,
    }
    Ok(words)
}

// The same of these bytes, of which a read brings at most `piece` and the read of this number fails.
fn lines_of(
    alloc: Global,
    bytes: &[u8],
    piece: usize,
    fails: u64,
    budget: u64,
) -> Result<String, AllocError> {
    let fails = Vec::from_slice(alloc, &[fails])?;
    let mut source = MemSource::new(Vec::from_slice(alloc, bytes)?, piece.max(1), fails);
    match read_lines(alloc, budget, &mut source) {
        Ok(told) => words_of(alloc, &told),
        Err(Memory) => "memory".to_string(alloc),
    }
}

/// A file, its budget, and its lines with how they end.
const FILES: &[(&str, u64, &str)] = &[
    ("", 9, "end"),
    ("A,1", 9, "A,1|end"),
    ("A,1\n", 9, "A,1|end"),
    ("A,1\nA,2", 9, "A,1|A,2|end"),
    ("\n", 9, "|end"),
    ("\n\nA", 9, "||A|end"),
    ("A,1\n", 5, "A,1|end"),
    ("A,1\n", 4, "A,1|input longer than 4 bytes"),
    ("A,1\n", 3, "input longer than 3 bytes"),
    ("A,1", 4, "A,1|end"),
    ("A,1", 3, "input longer than 3 bytes"),
    ("A,1\nA,2\n", 8, "A,1|A,2|input longer than 8 bytes"),
    ("A,1\nA,2\n", 7, "A,1|input longer than 7 bytes"),
    ("A,1\nA,2\n", 5, "A,1|input longer than 5 bytes"),
    ("", 0, "input longer than 0 bytes"),
    ("", 1, "end"),
    ("A\r\n\rB\r\r\n\r", 20, "A\r|\rB\r\r|\r|end"),
    ("\u{feff}A\n\u{feff}B", 20, "A|\u{feff}B|end"),
    ("\u{feff}\u{feff}A", 20, "\u{feff}A|end"),
    ("\u{feff}", 20, "|end"),
    ("\u{feff}\nA", 20, "|A|end"),
    ("A\u{feff}\n", 20, "A\u{feff}|end"),
    ("\n\u{feff}", 20, "|\u{feff}|end"),
    ("\u{feff}", 3, "input longer than 3 bytes"),
];

/// How many bytes a read brings.
const PIECES: &[usize] = &[1, 2, 3, 7, 100];

#[test]
fn lines_are_the_same_in_any_pieces(rt: HostRuntime) -> Result<(), Fail> {
    let alloc = rt.alloc();
    for &(bytes, budget, wanted) in FILES {
        for &piece in PIECES {
            let words = lines_of(alloc, bytes.as_bytes(), piece, 0, budget)?;
            same(&rt, words.as_str(), wanted, bytes);
        }
    }
    Ok(())
}

const THREE_LINES: &[u8] = b"A,1\nA,2\nA,3";

/// How many bytes a read brings, which read fails, from 1, and the lines with how they end.
const FAILING_READS: &[(usize, u64, &str)] = &[
    (4, 1, "cannot read"),
    (4, 2, "A,1|cannot read"),
    (4, 3, "A,1|A,2|cannot read"),
    (4, 4, "A,1|A,2|cannot read"),
    (4, 5, "A,1|A,2|A,3|end"),
    (2, 2, "cannot read"),
    (2, 3, "A,1|cannot read"),
    (2, 4, "A,1|cannot read"),
    (2, 5, "A,1|A,2|cannot read"),
    (2, 7, "A,1|A,2|cannot read"),
    (2, 8, "A,1|A,2|A,3|end"),
    (100, 1, "cannot read"),
    (100, 2, "A,1|A,2|cannot read"),
    (100, 3, "A,1|A,2|A,3|end"),
];

#[test]
fn each_read_fails_in_turn(rt: HostRuntime) -> Result<(), Fail> {
    let alloc = rt.alloc();
    for &(piece, fails, wanted) in FAILING_READS {
        let words = lines_of(alloc, THREE_LINES, piece, fails, 99)?;
        same(&rt, words.as_str(), wanted, "a failing read");
    }
    Ok(())
}

// The front, and then so many times `x`.
fn with_xs(alloc: Global, front: &[u8], count: usize) -> Result<Vec<u8>, AllocError> {
    let mut bytes = Vec::from_slice(alloc, front)?;
    for _ in 0..count {
        bytes.push(b'x')?;
    }
    Ok(bytes)
}

/// How a line begins, how many further bytes it has, and how the lines end.
const LONG_LINES: &[(&str, usize, &str)] = &[
    ("N,", 65_534, "end"),
    ("N,", 65_535, "line 1 is longer than 65536 bytes"),
    ("\u{feff}", 65_533, "end"),
    ("\u{feff}", 65_534, "line 1 is longer than 65536 bytes"),
    ("A,1\n", 65_536, "end"),
    ("A,1\n", 65_537, "line 2 is longer than 65536 bytes"),
];

/// What stands behind such a line, and how many bytes a read brings.
const ENDS: &[(&str, usize)] = &[
    ("", 100_000),
    ("\n", 100_000),
    ("\nB", 100_000),
    ("\n", 1_000),
];

// How the lines end of a file with such a line.
fn end_of_long(
    alloc: Global,
    front: &str,
    count: usize,
    end: &str,
    piece: usize,
) -> Result<String, AllocError> {
    let mut bytes = with_xs(alloc, front.as_bytes(), count)?;
    bytes.extend_from_slice(end.as_bytes())?;
    let words = lines_of(alloc, bytes.as_slice(), piece, 0, MOST_BYTES)?;
    last_part(alloc, words.as_str())
}

// What stands behind the last bar.
fn last_part(alloc: Global, words: &str) -> Result<String, AllocError> {
    match words.rsplit_once('|') {
        Some((_, last)) => last.to_string(alloc),
        None => words.to_string(alloc),
    }
}

#[test]
fn longest_line_has_65536_bytes(rt: HostRuntime) -> Result<(), Fail> {
    let alloc = rt.alloc();
    for &(front, count, fault) in LONG_LINES {
        for &(end, piece) in ENDS {
            let words = end_of_long(alloc, front, count, end, piece)?;
            same(&rt, words.as_str(), fault, front);
        }
    }
    Ok(())
}

/// A budget, and how a line of 70,000 bytes ends under it.
const BUDGETS: &[(u64, &str)] = &[
    (65_536, "input longer than 65536 bytes"),
    (65_537, "line 1 is longer than 65536 bytes"),
    (70_000, "line 1 is longer than 65536 bytes"),
];

#[test]
fn too_long_line_is_seen_before_the_budget(rt: HostRuntime) -> Result<(), Fail> {
    let alloc = rt.alloc();
    let bytes = with_xs(alloc, &[], 70_000)?;
    for &(budget, wanted) in BUDGETS {
        let words = lines_of(alloc, bytes.as_slice(), 100, 0, budget)?;
        same(&rt, words.as_str(), wanted, "a budget");
    }
    Ok(())
}

/// A line with two quotes in its field.
const QUOTED: &[u8] = b"N,\"a,\"\"b\"\r\n";

/// A length of the line, and the event of its first part, or why it is none.
const PREFIXES: &[(usize, &str)] = &[
    (0, "|"),
    (1, "0 fields where 1 is wanted|"),
    (2, "1 |"),
    (3, "open quote|"),
    (4, "open quote|"),
    (5, "open quote|"),
    (6, "1 a,|"),
    (7, "open quote|"),
    (8, "open quote|"),
    (9, "1 a,\"b|"),
    (10, "1 a,\"b|"),
    (11, "1 a,\"b|"),
];

// What each line answers, and a bar where the lines end without a fault.
fn answers_of(alloc: Global, told: &Told) -> Result<String, AllocError> {
    let mut words = String::new(alloc);
    for text in &told.texts {
        words.push_str(answer(alloc, text.as_slice())?.as_str())?;
    }
    if told.fault.is_none() {
        words.push('|')?;
    }
    Ok(words)
}

// The same of the first bytes of a file.
fn prefix_words(alloc: Global, file: &[u8], len: usize) -> Result<String, AllocError> {
    let bytes = Vec::from_slice(alloc, &file[..len.min(file.len())])?;
    let mut source = MemSource::new(bytes, 3, Vec::new(alloc));
    match read_lines(alloc, 99, &mut source) {
        Ok(told) => answers_of(alloc, &told),
        Err(Memory) => "memory".to_string(alloc),
    }
}

#[test]
fn prefixes_of_a_quoted_line(rt: HostRuntime) -> Result<(), Fail> {
    let alloc = rt.alloc();
    for &(len, wanted) in PREFIXES {
        let words = prefix_words(alloc, QUOTED, len)?;
        same(&rt, words.as_str(), wanted, "a prefix");
    }
    Ok(())
}

// What the next line is, its number, and whether the lines are closed after it.
fn step_words<Q: Source>(
    alloc: Global,
    lines: &mut Lines,
    source: &mut Q,
) -> Result<String, AllocError> {
    if lines.is_closed() {
        return "closed".to_string(alloc);
    }
    let told = match lines.next(source) {
        Ok(Next::Line) => "line",
        Ok(Next::End) => "end",
        Err(_) => "fault",
    };
    format!(in alloc; "{told} {} {}", lines.number(), lines.is_closed())
}

const TWO_LINES: &[u8] = b"A\nB";

/// What each step tells of the lines `A` and `B`.
const STEPS: &[&str] = &["line 1 false", "line 2 false", "end 2 true", "closed"];

#[test]
fn numbers_and_the_end_are_told(rt: HostRuntime) -> Result<(), Fail> {
    let alloc = rt.alloc();
    let mut source = MemSource::new(Vec::from_slice(alloc, TWO_LINES)?, 1, Vec::new(alloc));
    let Ok(mut lines) = Lines::new(alloc, 9) else {
        return Err(Fail::new("memory"));
    };
    assert!(rt; lines.number() == 0);
    for &wanted in STEPS {
        let words = step_words(alloc, &mut lines, &mut source)?;
        same(&rt, words.as_str(), wanted, "a step");
    }
    Ok(())
}
