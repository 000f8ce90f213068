//! Texts of checkpoints, and what is kept of events.

ghost use Rattle.std.specs.Prelude.{◌≡◌};

use crate::tests::same;
use cel_terms::{Formula, Name, Query, Window};
use cer_base::{Listed, Location, Memory, OrMemory, Text};
use cer_outside::sinks::MemSink;
use cer_outside::sources::MemSource;
use checkpoint_text::{History, HistoryFault, Keep, MOST_POSITIONS, read_checkpoint};
use event_reader::{EventFault, read_event};
use std::alloc::{AllocError, Global};
use std::test::Fail;
use stream_schema::{Attr, Kind, Schema, SchemaFault};

// The types A(t INT) and B(t INT), and the stream S(A).
fn two_types(alloc: Global) -> Result<Schema, OrMemory<SchemaFault>> {
    let mut schema = Schema::new(alloc);
    let mut attrs = Vec::new(alloc);
    attrs.push(Attr {
        name: Text::copy_of(alloc, "t")?,
        kind: Kind::Int,
    })?;
    let attrs = Listed::of(attrs);
    schema.declare_event("A", &attrs)?;
    schema.declare_event("B", &attrs)?;
    let mut types = Vec::new(alloc);
    types.push(Text::copy_of(alloc, "A")?)?;
    schema.declare_stream("S", &Listed::of(types))?;
    Ok(schema)
}

fn name(alloc: Global, text: &str) -> Result<Name, Memory> {
    Ok(Name {
        text: Text::copy_of(alloc, text)?,
        place: Location { line: 1, col: 1 },
    })
}

// SELECT * FROM S WHERE A, in this window.
fn query_in(alloc: Global, window: Window) -> Result<Query, Memory> {
    let mut streams = Vec::new(alloc);
    streams.push(name(alloc, "S")?)?;
    Ok(Query {
        select: None,
        strict: false,
        any: None,
        streams: Listed::of(streams),
        formula: Formula::Of(name(alloc, "A")?),
        partition: Listed::of(Vec::new(alloc)),
        window,
        place: Location { line: 1, col: 1 },
    })
}

// That query WITHIN 5 [t].
fn by_time(alloc: Global) -> Result<Vec<Query>, Memory> {
    let mut queries = Vec::new(alloc);
    queries.push(query_in(alloc, Window::Clock(name(alloc, "t")?, 5))?)?;
    Ok(queries)
}

// The bytes of a text whose line feeds stand as semicolons.
pub fn bytes_of(alloc: Global, text: &str) -> Result<Vec<u8>, AllocError> {
    let mut bytes = Vec::new(alloc);
    for byte in text.as_bytes() {
        bytes.push(if *byte == b';' { b'\n' } else { *byte })?;
    }
    Ok(bytes)
}

// How many positions there are, and which events.
fn history_words(alloc: Global, history: &History) -> Result<String, AllocError> {
    let mut words = format!(in alloc; "{}:", history.positions)?;
    for at in history.events.as_slice() {
        words.push_str(format!(in alloc; " {}", at.position)?.as_str())?;
    }
    Ok(words)
}

// What reading these bytes answers, in pieces, where the read of this number fails.
fn words_of(
    alloc: Global,
    schema: &Schema,
    queries: &[Query],
    bytes: Vec<u8>,
    fails: u64,
) -> Result<String, AllocError> {
    let fails = Vec::from_slice(alloc, &[fails])?;
    let mut source = MemSource::new(bytes, 7, fails);
    match read_checkpoint(alloc, schema, queries, &mut source) {
        Ok(history) => history_words(alloc, &history),
        Err(OrMemory::Memory) => "memory".to_string(alloc),
        Err(OrMemory::Fault(HistoryFault::ReadFault)) => "cannot read".to_string(alloc),
        Err(OrMemory::Fault(HistoryFault::Bad { line, fault })) => {
            format!(in alloc; "line {line}: {}", fault.words())
        }
    }
}

fn read_with(
    alloc: Global,
    schema: &Schema,
    bytes: Vec<u8>,
    fails: u64,
) -> Result<String, AllocError> {
    match by_time(alloc) {
        Ok(queries) => words_of(alloc, schema, queries.as_slice(), bytes, fails),
        Err(Memory) => "memory".to_string(alloc),
    }
}

// What is read of these bytes, in pieces of seven, where the read of this number fails.
pub fn read(alloc: Global, bytes: Vec<u8>, fails: u64) -> Result<String, AllocError> {
    match two_types(alloc) {
        Ok(schema) => read_with(alloc, &schema, bytes, fails),
        Err(_) => "two types".to_string(alloc),
    }
}

// The first row of the table of which something else is read than what stands after it.
fn first_wrong(alloc: Global, table: &str) -> Result<String, AllocError> {
    for row in table.split('\n') {
        let Some((text, wanted)) = row.split_once('|') else {
            return row.to_string(alloc);
        };
        let words = read(alloc, bytes_of(alloc, text)?, 0)?;
        if words.as_str() != wanted {
            return format!(in alloc; "{text}: {}", words.as_str());
        }
    }
    Ok(String::new(alloc))
}

/// Each text, with a semicolon for each line feed, and what is read of it.
const TEXTS: &str = "core checkpoint 1;events 3 2;at 1;A,2;at 2;A,3;|3: 1 2\n\
core checkpoint 1;events 3 2;at 1;A,2;at 2;A,3|3: 1 2\n\
core checkpoint 1;events 3 4;at 1;A,2;at 2;A,3;|line 2: bad count\n\
core checkpoint 1;events 3 2;at 1;A,2;at 2;|line 6: missing line\n\
core checkpoint 1;events 3 2;at 1;A,2;at 2|line 6: missing line\n\
core checkpoint 1;events 3 2;at 1;A,2;|line 5: missing line\n\
core checkpoint 1;events 3 2;|line 3: missing line\n\
core checkpoint 1;|line 2: missing line\n\
|line 1: missing line\n\
core checkpoint 1;events 0 0;|0:\n\
core checkpoint 1;events 0 0|0:\n\
core checkpoint 1;events 4611686018427387904 0;|4611686018427387904:\n\
core checkpoint 1;events 4611686018427387905 0;|line 2: bad count\n\
core checkpoint 1;events 99999999999999999999999 0;|line 2: bad count\n\
\u{feff}core checkpoint 1;events 0 0;|0:\n\
\u{feff}\u{feff}core checkpoint 1;events 0 0;|line 1: bad header\n\
core checkpoint 1\r;events 0 0;|line 1: bad header\n\
core checkpoint 2;events 0 0;|line 1: bad header\n\
Core checkpoint 1;events 0 0;|line 1: bad header\n\
;core checkpoint 1;events 0 0;|line 1: bad header\n\
core checkpoint 1 ;events 0 0;|line 1: bad header\n\
core checkpoint 1;events 0 0\r;|line 2: bad count\n\
core checkpoint 1;;events 0 0;|line 2: bad count\n\
core checkpoint 1;events 00 0;|line 2: bad count\n\
core checkpoint 1;events 0 00;|line 2: bad count\n\
core checkpoint 1;events 01 0;|line 2: bad count\n\
core checkpoint 1;events  1 0;|line 2: bad count\n\
core checkpoint 1;events 1  0;|line 2: bad count\n\
core checkpoint 1;events 1 0 ;|line 2: bad count\n\
core checkpoint 1;events +1 0;|line 2: bad count\n\
core checkpoint 1;events 1;|line 2: bad count\n\
core checkpoint 1;event 1 0;|line 2: bad count\n\
core checkpoint 1;events 1 0;\r;|line 3: extra line\n\
core checkpoint 1;events 1 0;;|line 3: extra line\n\
core checkpoint 1;events 1 0;at 0;|line 3: extra line\n\
core checkpoint 1;events 2 1;at 0;A,1;A,2;|line 5: extra line\n\
core checkpoint 1;events 2 1;at 2;A,1;|line 3: bad position\n\
core checkpoint 1;events 2 1;at 00;A,1;|line 3: bad position\n\
core checkpoint 1;events 2 1;at 01;A,1;|line 3: bad position\n\
core checkpoint 1;events 2 1;at 1\r;A,1;|line 3: bad position\n\
core checkpoint 1;events 2 1;at 1 ;A,1;|line 3: bad position\n\
core checkpoint 1;events 2 1;at  1;A,1;|line 3: bad position\n\
core checkpoint 1;events 2 1;at1;A,1;|line 3: bad position\n\
core checkpoint 1;events 2 1;at -1;A,1;|line 3: bad position\n\
core checkpoint 1;events 2 1;;at 1;A,1;|line 3: bad position\n\
core checkpoint 1;events 2 1;A,1;|line 3: bad position\n\
core checkpoint 1;events 2 1;at 1;A,1\r;|2: 1\n\
core checkpoint 1;events 2 1;at 1;A,1\r|2: 1\n\
core checkpoint 1;events 2 1;at 1;A,1\r\r;|line 4: bad event\n\
core checkpoint 1;events 2 1;at 1;;|line 4: bad event\n\
core checkpoint 1;events 2 1;at 1;\r;|line 4: bad event\n\
core checkpoint 1;events 2 1;at 1;C,1;|line 4: bad event\n\
core checkpoint 1;events 2 1;at 1;A;|line 4: bad event\n\
core checkpoint 1;events 2 1;at 1;A,x;|line 4: bad event\n\
core checkpoint 1;events 2 1;at 1;\"A;|line 4: bad event\n\
core checkpoint 1;events 4 2;at 1;A,2;at 1;A,3;|line 5: bad position\n\
core checkpoint 1;events 4 2;at 2;A,2;at 1;A,3;|line 5: bad position";

/// Checkpoints and what they tell where clocks stand still, rise, or fall: of a type that the query
/// reads, and of another.
const CLOCKS: &str = "core checkpoint 1;events 9 3;at 1;A,2;at 2;A,2;at 4;A,3;|9: 1 2 4\n\
core checkpoint 1;events 9 2;at 1;A,2;at 2;A,1;|line 6: bad event\n\
core checkpoint 1;events 9 3;at 1;A,2;at 2;B,1;at 3;A,2;|9: 1 2 3\n\
core checkpoint 1;events 9 3;at 1;A,2;at 2;B,9;at 3;A,2;|9: 1 2 3\n\
core checkpoint 1;events 9 3;at 1;A,2;at 2;B,1;at 3;A,1;|line 8: bad event\n\
core checkpoint 1;events 9 2;at 1;B,2;at 2;B,1;|9: 1 2";

const TABLES: &[&str] = &[TEXTS, CLOCKS];

#[test]
fn texts_are_their_histories(rt: HostRuntime) -> Result<(), Fail> {
    for &table in TABLES {
        let wrong = first_wrong(rt.alloc(), table)?;
        same(&rt, wrong.as_str(), "", "the first wrong row");
    }
    Ok(())
}

/// The text whose parts stand in the table below, cut at each of its bytes.
const WHOLE: &str = "core checkpoint 1;events 3 2;at 1;A,2;at 2;A,3;";

// The first cut of the bytes from one place to another after which something else is read.
fn first_wrong_cut(
    alloc: Global,
    bytes: &[u8],
    from: usize,
    to: usize,
    wanted: &str,
) -> Result<String, AllocError> {
    for cut in from..to {
        let front = Vec::from_slice(alloc, bytes.get(..cut).unwrap_or(&[]))?;
        let words = read(alloc, front, 0)?;
        if words.as_str() != wanted {
            return format!(in alloc; "{cut}: {}", words.as_str());
        }
    }
    Ok(String::new(alloc))
}

/// From which length of the text up to which one it is refused so.
const CUTS: &[(usize, usize, &str)] = &[
    (0, 1, "line 1: missing line"),
    (1, 17, "line 1: bad header"),
    (17, 19, "line 2: missing line"),
    (19, 28, "line 2: bad count"),
    (28, 30, "line 3: missing line"),
    (30, 33, "line 3: bad position"),
    (33, 35, "line 4: missing line"),
    (35, 37, "line 4: bad event"),
    (37, 39, "line 5: missing line"),
    (39, 42, "line 5: bad position"),
    (42, 44, "line 6: missing line"),
    (44, 46, "line 6: bad event"),
    (46, 48, "3: 1 2"),
];

#[test]
fn a_text_is_cut_at_every_byte(rt: HostRuntime) -> Result<(), Fail> {
    let bytes = bytes_of(rt.alloc(), WHOLE)?;
    for &(from, to, line) in CUTS {
        let wrong = first_wrong_cut(rt.alloc(), bytes.as_slice(), from, to, line)?;
        same(&rt, wrong.as_str(), "", line);
    }
    Ok(())
}

// Takes the event of the line, where it is one and no clock falls with it.
fn add_line(
    alloc: Global,
    schema: &Schema,
    keep: &mut Keep,
    text: &[u8],
) -> Result<bool, OrMemory<EventFault>>
    requires schema { keep.old.schema ≡ schema.now }
    ensures same { keep.new.schema ≡ keep.old.schema }
{
    if text.contains(&b'\n') || keep.positions() >= MOST_POSITIONS {
        return Ok(false);
    }
    match read_event(alloc, schema, text)? {
        Some(event) => {
            match keep.falls(&event) {
                Some(_) => return Ok(false),
                None => {}
            }
            keep.add(alloc, &event, text)?;
            Ok(true)
        }
        None => Ok(false),
    }
}

// Takes the events of the lines between semicolons.
fn add_lines(
    alloc: Global,
    schema: &Schema,
    keep: &mut Keep,
    lines: &str,
) -> Result<bool, OrMemory<EventFault>>
    requires { keep.old.schema ≡ schema.now }
{
    for line in lines.split(';') {
        if !add_line(alloc, schema, keep, line.as_bytes())? {
            return Ok(false);
        }
    }
    Ok(true)
}

// What a sink takes of the checkpoint, with semicolons for line feeds. It has room for so many bytes,
// takes five at a time, and fails at the call of this number. A stroke at the end tells a fault.
fn taken(alloc: Global, keep: &Keep, room: usize, fails: u64) -> Result<String, AllocError> {
    let fails = Vec::from_slice(alloc, &[fails])?;
    let Ok(mut sink) = MemSink::new(alloc, 5, room, fails) else {
        return Err(AllocError);
    };
    let wrote = keep.write(alloc, &mut sink);
    let mut words = String::new(alloc);
    for byte in sink.as_slice() {
        words.push(if *byte == b'\n' { ';' } else { *byte as char })?;
    }
    if wrote.is_err() {
        words.push('/')?;
    }
    Ok(words)
}

fn kept_words(
    alloc: Global,
    schema: &Schema,
    queries: &[Query],
    lines: &str,
    room: usize,
    fails: u64,
) -> Result<String, AllocError> {
    let Ok(mut keep) = Keep::new(alloc, schema, queries) else {
        return Err(AllocError);
    };
    match add_lines(alloc, schema, &mut keep, lines) {
        Ok(true) => taken(alloc, &keep, room, fails),
        Ok(false) => "no event".to_string(alloc),
        Err(_) => "refused".to_string(alloc),
    }
}

fn kept_in(
    alloc: Global,
    schema: &Schema,
    window: Window,
    lines: &str,
    room: usize,
    fails: u64,
) -> Result<String, AllocError> {
    let Ok(query) = query_in(alloc, window) else {
        return Err(AllocError);
    };
    let mut queries = Vec::new(alloc);
    queries.push(query)?;
    kept_words(alloc, schema, queries.as_slice(), lines, room, fails)
}

// What a sink of this room, whose write of this number fails, takes of the lines, where the query has
// the window of this name.
pub fn kept(
    alloc: Global,
    window: &str,
    lines: &str,
    room: usize,
    fails: u64,
) -> Result<String, AllocError> {
    let Ok(schema) = two_types(alloc) else {
        return Err(AllocError);
    };
    let window = match window {
        "1 EVENTS" => Window::Events(1),
        "0 EVENTS" => Window::Events(0),
        "5 [t]" => match name(alloc, "t") {
            Ok(name) => Window::Clock(name, 5),
            Err(Memory) => return Err(AllocError),
        },
        _ => Window::Free,
    };
    kept_in(alloc, &schema, window, lines, room, fails)
}

/// More room than a checkpoint takes.
const AMPLE: usize = 1 << 20;

/// A window, lines of events, and the checkpoint.
const KEPT: &[(&str, &str, &str)] = &[
    (
        "1 EVENTS",
        "A,1;A,2;A,3",
        "core checkpoint 1;events 3 2;at 1;A,2;at 2;A,3;",
    ),
    (
        "0 EVENTS",
        "A,1;A,2;A,3",
        "core checkpoint 1;events 3 1;at 2;A,3;",
    ),
    (
        "",
        "A,1;A,2",
        "core checkpoint 1;events 2 2;at 0;A,1;at 1;A,2;",
    ),
    ("", "A,1;B,2", "core checkpoint 1;events 2 1;at 0;A,1;"),
    (
        "1 EVENTS",
        "A,1;B,2;B,3;B,4",
        "core checkpoint 1;events 4 1;at 0;A,1;",
    ),
    (
        "1 EVENTS",
        "B,1;A,2\r",
        "core checkpoint 1;events 2 1;at 1;A,2;",
    ),
    (
        "5 [t]",
        "A,1;A,3;A,4;B,99;A,9",
        "core checkpoint 1;events 5 2;at 2;A,4;at 4;A,9;",
    ),
    ("5 [t]", "A,4;A,3", "no event"),
    (
        "1 EVENTS",
        "A,4;A,3",
        "core checkpoint 1;events 2 2;at 0;A,4;at 1;A,3;",
    ),
];

#[test]
fn windows_keep_what_they_need(rt: HostRuntime) -> Result<(), Fail> {
    let alloc = rt.alloc();
    for &(window, lines, wanted) in KEPT {
        let words = kept(alloc, window, lines, AMPLE, 0)?;
        same(&rt, words.as_str(), wanted, lines);
    }
    Ok(())
}

// So many times the line, semicolons between.
fn times(alloc: Global, line: &str, count: u64) -> Result<String, AllocError> {
    let mut lines = line.to_string(alloc)?;
    for _ in 1..count {
        lines.push(';')?;
        lines.push_str(line)?;
    }
    Ok(lines)
}

#[test]
fn a_long_stream_is_given_up(rt: HostRuntime) -> Result<(), Fail> {
    let lines = times(rt.alloc(), "A,1", 200)?;
    let words = kept(rt.alloc(), "1 EVENTS", lines.as_str(), AMPLE, 0)?;
    let wanted = "core checkpoint 1;events 200 2;at 198;A,1;at 199;A,1;";
    same(&rt, words.as_str(), wanted, "200 events");
    Ok(())
}
