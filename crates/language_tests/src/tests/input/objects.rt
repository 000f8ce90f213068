ghost use Rattle.std.specs.Prelude.{◌<◌, length};

use crate::tests::same;
use cer_base::{Memory, Text};
use cer_outside::files::{MemFile, SureFile};
use cer_outside::hosts::{MemHost, SureHost};
use cer_outside::laws::{read_sure, take_known};
use cer_outside::sinks::MemSink;
use cer_outside::sources::{MemSource, SureSource};
use cer_outside::writing::put_all;
use cer_outside::{Failed, Host, OpenError, Sink, Source, WriteFault};
use std::alloc::{AllocError, Global};
use std::process::Abort;
use std::test::Fail;

// What each call answered, a count or `x` for a failed call, a bar, and the bytes that moved.
fn reads<S: Source>(
    alloc: Global,
    source: &mut S,
    buffer: &mut [u8],
    calls: u64,
) -> Result<String, AllocError>
    requires { 0 < length buffer.old }
{
    let mut answers = String::new(alloc);
    let mut moved = Vec::new(alloc);
    for _ in 0..calls {
        match source.read(buffer) {
            Ok(count) => {
                answers.push_str(format!(in alloc; "{count}")?.as_str())?;
                moved.extend_from_slice(&buffer[..count])?;
            }
            Err(Failed) => answers.push('x')?,
        }
    }
    answers.push('|')?;
    for byte in moved {
        answers.push(char::from(byte))?;
    }
    Ok(answers)
}

const LETTERS: &[u8] = b"abcdefg";

/// How many bytes a read brings, which read fails, from 1, how many reads there are, and what they tell.
const READS: &[(usize, u64, u64, &str)] = &[
    (1, 1, 9, "x11111110|abcdefg"),
    (1, 3, 9, "11x111110|abcdefg"),
    (2, 2, 6, "2x2210|abcdefg"),
    (3, 3, 5, "33x10|abcdefg"),
    (7, 2, 5, "5x200|abcdefg"),
];

// Reads the bytes from a source of which one read fails, and holds the answers against those wanted.
fn source_moves(
    rt: &impl Abort,
    alloc: Global,
    bytes: &[u8],
    piece: usize,
    fails: u64,
    calls: u64,
    wanted: &str,
) -> Result<(), Fail> {
    let fails = Vec::from_slice(alloc, &[fails])?;
    let mut source = MemSource::new(Vec::from_slice(alloc, bytes)?, piece.max(1), fails);
    let answers = reads(alloc, &mut source, &mut [0; 5], calls)?;
    same(rt, answers.as_str(), wanted, "a source in pieces");
    assert!(rt; source.fault_count() == 1);
    Ok(())
}

// The same of a source that does not fail, after a first read.
fn sure_source_moves(rt: &impl Abort, alloc: Global, bytes: &[u8]) -> Result<(), Fail> {
    let mut source = SureSource::new(Vec::from_slice(alloc, bytes)?, 2);
    assert!(rt; read_sure(&mut source, &mut [0; 5]) == Ok(2));
    let answers = reads(alloc, &mut source, &mut [0; 5], 4)?;
    same(
        rt,
        answers.as_str(),
        "2210|cdefg",
        "a source that does not fail",
    );
    assert!(rt; source.fault_count() == 0);
    Ok(())
}

#[test]
fn sources_move_pieces(rt: HostRuntime) -> Result<(), Fail> {
    for &(piece, fails, calls, wanted) in READS {
        source_moves(&rt, rt.alloc(), LETTERS, piece, fails, calls, wanted)?;
    }
    sure_source_moves(&rt, rt.alloc(), LETTERS)
}

/// Pieces in turn, and how many bytes of each a sink with room for seven takes, of which the second
/// write fails.
const WRITES: &[(&str, Result<usize, Failed>)] = &[
    ("abcde", Ok(3)),
    ("de", Err(Failed)),
    ("de", Ok(2)),
    ("fghij", Ok(2)),
    ("hij", Err(Failed)),
    ("h", Err(Failed)),
];

// What the sink answers to the piece, None where the piece is empty.
fn written(sink: &mut MemSink, piece: &[u8]) -> Option<Result<usize, Failed>> {
    if piece.is_empty() {
        return None;
    }
    Some(sink.write(piece))
}

#[test]
fn sink_takes_pieces_up_to_its_room(rt: HostRuntime) -> Result<(), Fail> {
    let alloc = rt.alloc();
    let mut sink = MemSink::new(alloc, 3, 7, Vec::from_slice(alloc, &[2])?)?;
    for &(piece, wanted) in WRITES {
        assert!(rt;
            written(&mut sink, piece.as_bytes()) == Some(wanted),
            "at {piece}"
        );
    }
    assert!(rt; sink.as_slice() == LETTERS);
    assert!(rt; sink.fault_count() == 3);
    Ok(())
}

const TO_PUT: &[u8] = b"abcdefghijklmnopqrstuvwxy";

/// How many bytes a write takes, the sink's room, which write fails, how putting all ends, and what
/// the sink then has.
const PUTS: &[(usize, usize, u64, Result<(), WriteFault>, &str)] = &[
    (7, 20, 9, Err(WriteFault), "abcdefghijklmnopqrst"),
    (7, 30, 2, Err(WriteFault), "abcdefg"),
    (7, 30, 9, Ok(()), "abcdefghijklmnopqrstuvwxy"),
    (1, 25, 99, Ok(()), "abcdefghijklmnopqrstuvwxy"),
];

// Whether putting the bytes ends so, and leaves this in the sink; putting none then goes well.
fn is_put(sink: &mut MemSink, bytes: &[u8], wanted: Result<(), WriteFault>, taken: &str) -> bool {
    let answer = put_all(sink, bytes);
    answer == wanted && sink.as_slice() == taken.as_bytes() && put_all(sink, &[]) == Ok(())
}

#[test]
fn put_all_writes_all_or_a_first_part(rt: HostRuntime) -> Result<(), Fail> {
    let alloc = rt.alloc();
    for &(piece, room, fails, wanted, taken) in PUTS {
        let fails = Vec::from_slice(alloc, &[fails])?;
        let mut sink = MemSink::new(alloc, piece.max(1), room, fails)?;
        assert!(rt;
            is_put(&mut sink, TO_PUT, wanted, taken),
            "with room {room}"
        );
    }
    Ok(())
}

/// The files by their names. Of two of one name the first counts.
const FILES: &[(&str, &str)] = &[("a.csv", "one"), ("b.csv", "two"), ("a.csv", "six")];

// A host of these files that fails at its second call, as each file at its second read.
fn mem_host(alloc: Global, rows: &[(&str, &str)]) -> Result<MemHost, Memory> {
    let mut files = Vec::new(alloc);
    for (name, bytes) in rows {
        let name = Text::copy_of(alloc, name)?;
        let bytes = Vec::from_slice(alloc, bytes.as_bytes())?;
        files.push(MemFile::new(name, bytes, 2, Vec::from_slice(alloc, &[2])?))?;
    }
    Ok(MemHost::new(files, Vec::from_slice(alloc, &[2])?))
}

// A host of these files that fails for other names alone.
fn sure_host(alloc: Global, rows: &[(&str, &str)]) -> Result<SureHost, Memory> {
    let mut files = Vec::new(alloc);
    for (name, bytes) in rows {
        let name = Text::copy_of(alloc, name)?;
        let bytes = Vec::from_slice(alloc, bytes.as_bytes())?;
        files.push(SureFile::new(name, bytes, 2))?;
    }
    Ok(SureHost::new(files))
}

// What so many reads of the file tell, or that it cannot be opened.
fn file_words<H: Host>(
    alloc: Global,
    host: &mut H,
    name: &str,
    calls: u64,
) -> Result<String, AllocError> {
    match host.take_file(alloc, name) {
        Ok(mut source) => reads(alloc, &mut source, &mut [0; 5], calls),
        Err(OpenError::Failed) => "failed".to_string(alloc),
        Err(OpenError::Memory) => "memory".to_string(alloc),
    }
}

// Takes the files in turn, and holds what they tell against what is wanted.
fn files_are<H: Host>(
    rt: &impl Abort,
    alloc: Global,
    host: &mut H,
    calls: u64,
    rows: &[(&str, &str)],
) -> Result<(), Fail> {
    for (name, wanted) in rows {
        let words = file_words(alloc, host, name, calls)?;
        same(rt, words.as_str(), wanted, name);
    }
    Ok(())
}

// Holds how many faults are counted of each name against what is wanted.
fn faults_are<H: Host>(rt: &impl Abort, host: &H, rows: &[(&str, u64)]) {
    for (name, wanted) in rows {
        assert!(rt; host.fault_count(name) == *wanted, "of {name}");
    }
}

/// Files in turn, and what four reads of each tell.
const MEM_READS: &[(&str, &str)] = &[
    ("a.csv", "2x10|one"),
    ("b.csv", "failed"),
    ("b.csv", "2x10|two"),
    ("c.csv", "failed"),
    ("d.csv", "failed"),
    ("a.csv", "2x10|one"),
];

/// How many faults are then counted of each name.
const MEM_FAULTS: &[(&str, u64)] = &[("a.csv", 0), ("b.csv", 1), ("c.csv", 2), ("e.csv", 2)];

#[test]
fn mem_host_answers_by_name(rt: HostRuntime) -> Result<(), Fail> {
    let Ok(mut host) = mem_host(rt.alloc(), FILES) else {
        return Err(Fail::new("memory"));
    };
    files_are(&rt, rt.alloc(), &mut host, 4, MEM_READS)?;
    faults_are(&rt, &host, MEM_FAULTS);
    Ok(())
}

/// Files in turn, and what three reads of each tell.
const SURE_READS: &[(&str, &str)] = &[
    ("b.csv", "210|two"),
    ("c.csv", "failed"),
    ("a.csv", "210|one"),
];

/// How many faults are then counted of each name.
const SURE_FAULTS: &[(&str, u64)] = &[("a.csv", 0), ("b.csv", 0), ("c.csv", 1), ("e.csv", 1)];

#[test]
fn sure_host_fails_for_other_names_alone(rt: HostRuntime) -> Result<(), Fail> {
    let Ok(mut host) = sure_host(rt.alloc(), FILES) else {
        return Err(Fail::new("memory"));
    };
    files_are(&rt, rt.alloc(), &mut host, 3, SURE_READS)?;
    faults_are(&rt, &host, SURE_FAULTS);
    Ok(())
}

#[test]
fn known_file_is_taken(rt: HostRuntime) -> Result<(), Fail> {
    let alloc = rt.alloc();
    let name = Text::copy_of(alloc, "a.csv")?;
    let mut files = Vec::new(alloc);
    files.push(SureFile::new(name, Vec::from_slice(alloc, b"one")?, 2))?;
    let mut host = SureHost::new(files);
    let mut source = take_known(&mut host, alloc, "a.csv")?;
    let mut buffer = [0; 5];
    assert_eq!(rt; read_sure(&mut source, &mut buffer), Ok(2));
    Ok(())
}
