//! Small queries over the types A and B, and lines of events.

mod answers;
mod conditions;
mod explanations;
mod leaves;

use ceql_parser::{Accepted, read_queries};
use event_reader::read_event;
use std::alloc::Global;
use std::test::Fail;
use stream_schema::{Event, Schema};

/// Declares the types A(v INT) and B(v INT), and the stream of both.
pub const ALIKE: &str = "DECLARE EVENT A(v INT) DECLARE EVENT B(v INT) DECLARE STREAM S(A, B) ";

/// What the texts declare and ask, one after the other.
pub fn accepted(alloc: Global, declared: &str, asked: &str) -> Result<Accepted, Fail> {
    let text = format!(in alloc; "{declared}{asked}")?;
    Ok(read_queries(alloc, text.as_bytes())?)
}

/// The event of the line.
fn event_of(alloc: Global, schema: &Schema, line: &[u8]) -> Result<Event, Fail> {
    if line.contains(&b'\n') {
        return Err(Fail::new("two lines"));
    }
    match read_event(alloc, schema, line)? {
        Some(event) => Ok(event),
        None => Err(Fail::new("no event")),
    }
}

/// The events of the lines, which a semicolon parts.
pub fn events_of(alloc: Global, schema: &Schema, lines: &str) -> Result<Vec<Event>, Fail> {
    let mut events = Vec::new(alloc);
    for line in lines.as_bytes().split(|b| *b == b';') {
        events.push(event_of(alloc, schema, line)?)?;
    }
    Ok(events)
}
