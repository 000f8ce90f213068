//! How fast lines and events are read. The gate reads a few; for a measure set `EVENTS` to
//! 1,000,000 and run `rt test` in the crate's folder, which prints the figures.

use crate::tests::input::events::five_types;
use cer_base::Memory;
use cer_base::limits::MOST_BYTES;
use cer_outside::Source;
use cer_outside::sources::SureSource;
use event_reader::{Lines, Next, read_event};
use memchr::memchr_iter;
use std::alloc::{AllocError, Global};
use std::test::Fail;
use std::time::Instant;
use stream_schema::Schema;

/// How many event lines are read.
const EVENTS: usize = 1_000;

// The lines `A,n`, with quotes around the number or without.
fn event_lines(alloc: Global, count: usize, quote: &str) -> Result<String, AllocError> {
    let mut text = String::new(alloc);
    for number in 0..count {
        text.push_str(format!(in alloc; "A,{quote}{number}{quote}\n")?.as_str())?;
    }
    Ok(text)
}

// Reads all lines, and says how many there were.
fn count_lines<Q: Source>(alloc: Global, source: &mut Q) -> Result<u64, Memory> {
    let mut lines = Lines::new(alloc, MOST_BYTES)?;
    loop {
        match lines.next(source) {
            Ok(Next::Line) => {}
            Ok(Next::End) | Err(_) => return Ok(lines.number()),
        }
    }
}

// Reads all lines and their events, and says how many lines came before the first that is no event.
fn count_events<Q: Source>(alloc: Global, schema: &Schema, source: &mut Q) -> Result<u64, Memory> {
    let mut lines = Lines::new(alloc, MOST_BYTES)?;
    loop {
        match lines.next(source) {
            Ok(Next::Line) if is_event(alloc, schema, &lines) => {}
            Ok(_) | Err(_) => return Ok(lines.number()),
        }
    }
}

// Whether the last line is an event.
fn is_event(alloc: Global, schema: &Schema, lines: &Lines) -> bool {
    matches!(read_event(alloc, schema, lines.text()), Ok(Some(_)))
}

// A source of the text.
fn source_of(alloc: Global, text: &str) -> Result<SureSource, AllocError> {
    Ok(SureSource::new(Vec::from_slice(alloc, text.as_bytes())?, 1 << 30))
}

// Prints how many lines a second that was.
fn tell(rt: &HostRuntime, what: &str, quote: &str, start: Instant) -> Result<(), Fail> {
    let micros = start.elapsed(rt)?.as_micros().max(1);
    let speed = EVENTS as u128 * 1_000_000 / micros;
    println!(rt; "{what} of A,{quote}n{quote}: {speed} a second")?;
    Ok(())
}

fn count_feeds(text: &str) -> usize {
    memchr_iter(b'\n', text.as_bytes()).count()
}

// Counts the line feeds of the text, and prints how fast.
fn timed_feeds(rt: &HostRuntime, text: &str) -> Result<usize, Fail> {
    let start = Instant::now(rt)?;
    let count = count_feeds(text);
    tell(rt, "line feeds", "", start)?;
    Ok(count)
}

// Counts the lines of the source, and prints how fast; none where memory is out.
fn timed_lines(rt: &HostRuntime, source: &mut SureSource) -> Result<Option<u64>, Fail> {
    let start = Instant::now(rt)?;
    let count = count_lines(rt.alloc(), source);
    tell(rt, "lines", "", start)?;
    Ok(count.ok())
}

// Counts the events of the source, and prints how fast; none where memory is out.
fn timed_events(
    rt: &HostRuntime,
    schema: &Schema,
    source: &mut SureSource,
    quote: &str,
) -> Result<Option<u64>, Fail> {
    let start = Instant::now(rt)?;
    let count = count_events(rt.alloc(), schema, source);
    tell(rt, "events", quote, start)?;
    Ok(count.ok())
}

// How many events there are in as many lines.
fn events_of(rt: &HostRuntime, schema: &Schema, quote: &str) -> Result<Option<u64>, Fail> {
    let text = event_lines(rt.alloc(), EVENTS, quote)?;
    let mut source = source_of(rt.alloc(), text.as_str())?;
    timed_events(rt, schema, &mut source, quote)
}

#[test]
fn lines_are_read(rt: HostRuntime) -> Result<(), Fail> {
    let text = event_lines(rt.alloc(), EVENTS, "")?;
    let feeds = timed_feeds(&rt, text.as_str())?;
    assert!(rt; feeds == EVENTS);
    let mut source = source_of(rt.alloc(), text.as_str())?;
    let count = timed_lines(&rt, &mut source)?;
    assert!(rt; count == Some(EVENTS as u64));
    Ok(())
}

/// What stands around each number.
const QUOTES: &[&str] = &["", "\""];

#[test]
fn events_are_read(rt: HostRuntime) -> Result<(), Fail> {
    let Ok(schema) = five_types(rt.alloc()) else {
        return Err(Fail::new("five types"));
    };
    for &quote in QUOTES {
        let count = events_of(&rt, &schema, quote)?;
        assert!(rt; count == Some(EVENTS as u64));
    }
    Ok(())
}
