//! The checkpoint of a source, event by event.

ghost use Rattle.std.specs.Prelude.{◌≡◌, ◌+◌, ◌<◌, ◌≤◌, ℕ, List, All, false, Some, None, Ok, IsOk, OnOk};
ghost use Rattle.cer_base.specs.Answers.{OnFault};
ghost use Rattle.cel_terms.specs.Checked.{IsChecked};
ghost use Rattle.event_reader.specs.Events.{event_of_line};
ghost use Rattle.checkpoint_text.specs.declared.numbers.TheConstants as most;
ghost use Rattle.event_run.specs.Taking.{HasSourceCause};
ghost use Rattle.event_run.specs.Listing.{StopsBy};
ghost use Rattle.stream_answers.specs.RunEnds.{HasReadCause, HasWriteCause};
ghost use Rattle.command_checkpoint.specs.Saved.{WroteCheckpoint};
ghost use Rattle.command_checkpoint.specs.Lines.{AddsEvent, FallsWith, AddsLine, StopsLine, HasKept, HasKeptAll};

use cel_terms::Query;
use cer_base::{Memory, OrMemory};
use cer_outside::{Sink, Source, WriteFault};
use checkpoint_text::Keep;
use checkpoint_text::laws::keepers_keep;
use event_reader::{EventFault, Lines, Next, read_event};
use event_run::{RunFault, fault_of};
use std::alloc::Global;
use stream_answers::{StreamFault, stream_fault};
use stream_schema::{Event, Schema};

/// Reads all events of the source, of which `most_bytes` bytes are too many, and writes a checkpoint:
/// how many events came, and those that the windows of the queries still need, each with its
/// position and its line.
///
/// It is written once all is read, so after every fault but one of the sink nothing was written, and
/// likewise where memory ran out. The faults of the events are those of a run, in the same order.
/// The memory is at most about twice that of the windows, and of the text.
pub fn save_events<Q: Source, K: Sink>(
    alloc: Global,
    schema: &Schema,
    queries: &[Query],
    most_bytes: u64,
    source: &mut Q,
    out: &mut K,
) -> Result<(), OrMemory<StreamFault>>
    requires checked { All (IsChecked schema.now) queries.now }
    requires few { most_bytes ≤ most.MOST_POSITIONS }
    ensures wrote { WroteCheckpoint (record {
      schema = schema.now;
      queries = queries.now;
      most_bytes = most_bytes;
    })
        (Q.left source.old) (Q.left source.new) (K.taken out.old) (K.taken out.new) result }
    ensures read_cause { HasReadCause (Q.faults source.old) (Q.faults source.new) result }
    ensures write_cause { HasWriteCause (K.faults out.old) (K.faults out.new) result }
{
    keepers_keep();
    let mut lines = match Lines::new(alloc, most_bytes) {
        Ok(lines) => lines,
        Err(Memory) => return Err(OrMemory::Memory),
    };
    let mut keep = match Keep::new(alloc, schema, queries) {
        Ok(keep) => keep,
        Err(Memory) => return Err(OrMemory::Memory),
    };
    match keep_events(alloc, schema, &mut lines, source, &mut keep) {
        Ok(()) => {}
        Err(stop) => return Err(stream_fault(stop)),
    }
    match keep.write(alloc, out) {
        Ok(()) => Ok(()),
        Err(OrMemory::Memory) => Err(OrMemory::Memory),
        Err(OrMemory::Fault(WriteFault)) => Err(OrMemory::Fault(StreamFault::WriteFault)),
    }
}

/// Keeps the events of all further lines.
fn keep_events<Q: Source>(
    alloc: Global,
    schema: &Schema,
    lines: &mut Lines,
    source: &mut Q,
    keep: &mut Keep,
) -> Result<(), OrMemory<RunFault>>
    requires open { lines.old.closed ≡ false }
    requires same { keep.old.schema ≡ schema.now }
    requires checked { All (IsChecked schema.now) keep.old.queries }
    requires room { keep.old.positions + lines.old.room ≤ most.MOST_POSITIONS }
    ensures all { OnOk result ((bytes : List ℕ)
        → HasKept schema.now keep.old.queries lines.old bytes
        (Q.left source.old) keep.old
        → HasKeptAll schema.now keep.old.queries lines.old.budget bytes keep.new) }
    ensures stops { OnFault result (λ fault. (bytes : List ℕ) → HasKept schema.now keep.old.queries
        lines.old bytes (Q.left source.old) keep.old
        → StopsBy schema.now keep.old.queries lines.old.budget bytes (Q.left source.new) fault) }
    ensures cause { HasSourceCause (Q.faults source.old) (Q.faults source.new) result }
{
    schema.well_declared();
    loop {
        match lines.next(source) {
            Ok(Next::Line) => {}
            Ok(Next::End) => return Ok(()),
            Err(fault) => return Err(OrMemory::Fault(fault_of(fault))),
        }
        match keep_line(alloc, schema, lines, keep) {
            Ok(()) => {}
            Err(OrMemory::Memory) => return Err(OrMemory::Memory),
            Err(OrMemory::Fault(fault)) => {
                let line = lines.number();
                return Err(OrMemory::Fault(RunFault::Event { line, fault }));
            }
        }
    }
}

/// Keeps the event of the line that the reader gave last, if it is one.
fn keep_line(
    alloc: Global,
    schema: &Schema,
    lines: &Lines,
    keep: &mut Keep,
) -> Result<(), OrMemory<EventFault>>
    requires same { keep.old.schema ≡ schema.now }
    requires room { keep.old.positions < most.MOST_POSITIONS }
    ensures added { OnOk result (AddsLine schema.now lines.now.text keep.old keep.new) }
    ensures stops { OnFault result (λ refusal.
        StopsLine schema.now lines.now.text keep.old refusal) }
    ensures none { event_of_line schema.now lines.now.text ≡ Ok None → IsOk result }
{
    match read_event(alloc, schema, lines.text()) {
        Ok(Some(event)) => keep_event(alloc, &event, lines.text(), keep),
        Ok(None) => Ok(()),
        Err(stop) => Err(stop),
    }
}

/// Keeps the event of a line with this text, if no clock falls with it.
fn keep_event(
    alloc: Global,
    event: &Event,
    text: &[u8],
    keep: &mut Keep,
) -> Result<(), OrMemory<EventFault>>
    requires given { event_of_line keep.old.schema text.now ≡ Ok (Some event.now) }
    requires room { keep.old.positions < most.MOST_POSITIONS }
    ensures added { OnOk result (AddsEvent keep.old keep.new event.now text.now) }
    ensures stops { OnFault result (λ refusal. FallsWith keep.old event.now refusal) }
{
    if let Some(fall) = keep.falls(event) {
        return Err(OrMemory::Fault(EventFault::TimeBack {
            query: fall.query,
            before: fall.before,
            now: fall.now,
        }));
    }
    keep.add(alloc, event, text)?;
    Ok(())
}
