//! All events of a file, kept as a list.

ghost use Rattle.std.specs.Prelude.{◌≡◌, ℕ, List, false, Some, None, Ok, IfOk, IsOk, OnOk};
ghost use Rattle.cer_base.specs.Answers.{OnFault};
ghost use Rattle.event_reader.specs.Events.{event_of_line};
ghost use Rattle.event_run.specs.Runs.{RunsTo, StopsInTime};
ghost use Rattle.event_run.specs.Runs as stop;
ghost use Rattle.event_run.specs.Taking.{HasTaken, HasSourceCause, StopsHere};
ghost use Rattle.event_run.specs.Listing.{Adds, AddsThis, StopsBy};

use crate::RunFault;
use crate::clocks::first_fall;
use crate::taking::fault_of;
use cel_terms::Query;
use cer_base::{Memory, OrMemory};
use cer_outside::Source;
use event_reader::{EventFault, Lines, Next, read_event};
use std::alloc::Global;
use stream_schema::{Event, Schema};

/// All events of the file, of which `most_bytes` bytes are too many, or why they stop before its
/// end: just as `take_event` takes them, but no engine is needed.
pub fn read_events<Q: Source>(
    alloc: Global,
    schema: &Schema,
    queries: &[Query],
    most_bytes: u64,
    source: &mut Q,
) -> Result<Vec<Event>, OrMemory<RunFault>>
    ensures all { IfOk result (λ events. (bytes : List ℕ) → Q.left source.old ≡ Some bytes
        → RunsTo schema.now queries.now most_bytes bytes events.items stop.End) }
    ensures stops { OnFault result (λ fault. (bytes : List ℕ) → Q.left source.old ≡ Some bytes
        → StopsBy schema.now queries.now most_bytes bytes (Q.left source.new) fault) }
    ensures cause { HasSourceCause (Q.faults source.old) (Q.faults source.new) result }
{
    let mut lines = match Lines::new(alloc, most_bytes) {
        Ok(lines) => lines,
        Err(Memory) => return Err(OrMemory::Memory),
    };
    let mut events = Vec::new(alloc);
    match read_on(alloc, schema, queries, &mut lines, source, &mut events) {
        Ok(()) => Ok(events),
        Err(stop) => Err(stop),
    }
}

/// Puts the events of all further lines at the end.
fn read_on<Q: Source>(
    alloc: Global,
    schema: &Schema,
    queries: &[Query],
    lines: &mut Lines,
    source: &mut Q,
    events: &mut Vec<Event>,
) -> Result<(), OrMemory<RunFault>>
    requires open { lines.old.closed ≡ false }
    ensures all { OnOk result ((bytes : List ℕ) → HasTaken schema.now queries.now lines.old bytes
        (Q.left source.old) events.old.items
        → RunsTo schema.now queries.now lines.old.budget bytes events.new.items stop.End) }
    ensures stops { OnFault result (λ fault. (bytes : List ℕ)
        → HasTaken schema.now queries.now lines.old bytes (Q.left source.old) events.old.items
        → StopsBy schema.now queries.now lines.old.budget bytes (Q.left source.new) fault) }
    ensures cause { HasSourceCause (Q.faults source.old) (Q.faults source.new) result }
{
    loop {
        match lines.next(source) {
            Ok(Next::Line) => {}
            Ok(Next::End) => return Ok(()),
            Err(fault) => return Err(OrMemory::Fault(fault_of(fault))),
        }
        match add_line(alloc, schema, queries, lines, events) {
            Ok(()) => {}
            Err(OrMemory::Memory) => return Err(OrMemory::Memory),
            Err(OrMemory::Fault(fault)) => {
                let line = lines.number();
                return Err(OrMemory::Fault(RunFault::Event { line, fault }));
            }
        }
    }
}

/// Puts the event of the line that the reader gave last at the end, if it is one.
fn add_line(
    alloc: Global,
    schema: &Schema,
    queries: &[Query],
    lines: &Lines,
    events: &mut Vec<Event>,
) -> Result<(), OrMemory<EventFault>>
    ensures added { OnOk result (Adds schema.now queries.now lines.now.text events.old.items
        events.new.items) }
    ensures stops { OnFault result (λ refusal. StopsHere schema.now queries.now lines.now.text
        lines.now.number events.old.items refusal) }
    ensures none { event_of_line schema.now lines.now.text ≡ Ok None → IsOk result }
{
    match read_event(alloc, schema, lines.text()) {
        Ok(Some(event)) => add_event(schema, queries, event, events),
        Ok(None) => Ok(()),
        Err(stop) => Err(stop),
    }
}

/// Puts the event at the end, if no clock would fall with it.
fn add_event(
    schema: &Schema,
    queries: &[Query],
    event: Event,
    events: &mut Vec<Event>,
) -> Result<(), OrMemory<EventFault>>
    ensures added { OnOk result (AddsThis schema.now queries.now event events.old.items
        events.new.items) }
    ensures stops { OnFault result (λ refusal. (number : ℕ) → StopsInTime schema.now queries.now
        events.old.items event number (stop.Event number refusal)) }
    ensures unchanged { OnFault result (λ refusal. events.new ≡ events.old) }
{
    match first_fall(schema, queries, events.as_slice(), &event) {
        Some(fault) => Err(OrMemory::Fault(fault)),
        None => {
            events.push(event)?;
            Ok(())
        }
    }
}
