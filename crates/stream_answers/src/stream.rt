//! The one loop over events.

ghost use Rattle.std.specs.Prelude.{◌≡◌, ◌+◌, ◌-◌, ◌^◌, ◌<◌, ℕ, List, [], length, Some, OnOk};
ghost use Rattle.stream_schema.specs.declared.Event.{Event};
ghost use Rattle.query_engine.specs.Engine.{StandsFor, SameQueries, count_of, peak_of};
ghost use Rattle.stream_answers.specs.Events.{Begins};
ghost use Rattle.stream_answers.specs.Gathering.{Finished, stream_fault};
ghost use Rattle.stream_answers.specs.Counting.{HasBegun, RunEnded};
ghost use Rattle.stream_answers.specs.Schedules.{saved};
ghost use Rattle.stream_answers.specs.Steps.{AreBoundedBy, AreOfEvents, StepsOver, StepsOverAfter};
ghost use Rattle.stream_answers.specs.Windows.{FollowsEvents};
ghost use Rattle.stream_answers.specs.RunEnds.{HasReadCause, HasWriteCause};
ghost use Rattle.stream_answers.specs.Streams.{asked_by, WroteStream, WroteStreamAfter, StandsForAll, StandsForAllAfter};

use crate::events::{Events, LineEvents, Step};
use crate::output::Output;
use crate::schedule::Schedule;
use crate::{RunOptions, StreamFault};
use cer_base::steps::Steps;
use cer_base::{Memory, OrMemory};
use cer_outside::{Sink, Source, WriteFault};
use event_run::RunFault;
use query_engine::Engine;
use std::alloc::Global;
use std::sync::ledger::Ledger;

/// Gives the engine, which is new, the events of the source, and writes the answers at each. In walk
/// order a line is written before the next answer is asked for. In sorted order lines are gathered,
/// and written at the latest when 65,536 bytes of them stand or the next line of the source is not at
/// hand: none waits while the source is asked.
///
/// Where the engine is compacted after an event, the answers at it are written or held.
///
/// The first fault ends it, after the answers that come before were written; where writing fails,
/// that is the answer.
///
/// However it ends, its steps are bounded by the events of the source, by their answers and by the
/// compactions; where writing fails in walk order, by those up to the answer whose line was not
/// written. Where it ends well, the engine stands for exactly the events of the source, and its nodes
/// follow the windows of its queries: they are bounded by the events since the last compaction and
/// those in the windows that it left, and its peaks likewise.
pub fn write_answers<Q: Source, K: Sink, L: Ledger>(
    alloc: Global,
    options: RunOptions,
    engine: &mut Engine,
    source: &mut Q,
    out: &mut K,
    steps: &mut Steps<L>,
) -> Result<(), OrMemory<StreamFault>>
    requires fresh { StandsFor engine.old [] }
    requires none { count_of engine.old ≡ 0 }
    ensures wrote { WroteStream (asked_by options engine.old)
        (Q.left source.old) (Q.left source.new) (K.taken out.old) (K.taken out.new) result }
    ensures steps { (bytes : List ℕ) → Q.left source.old ≡ Some bytes
        → StepsOver options.compact_every (asked_by options engine.old) bytes (K.taken out.old)
        (K.taken out.new) steps.old steps.new result }
    ensures stands { OnOk result ((bytes : List ℕ) → Q.left source.old ≡ Some bytes
        → StandsForAll options.compact_every (peak_of engine.old) (asked_by options engine.old)
        bytes engine.new) }
    ensures same { SameQueries engine.old engine.new }
    ensures read_cause { HasReadCause (Q.faults source.old) (Q.faults source.new) result }
    ensures write_cause { HasWriteCause (K.faults out.old) (K.faults out.new) result }
{
    has_64_bits(options.most_bytes);
    write_answers_after(alloc, options, engine, source, out, steps)
}

/// Nothing is done: a field is not known to be below 2^64 by itself, where a parameter is.
fn has_64_bits(n: u64)
    ensures { n < 2 ^ 64 }
{}

/// Gives an engine that took events before, in which no answer was asked for, the events of the
/// source, and writes the answers at each of these. Positions go on from those before; line numbers
/// are those of the source. With `compact_every` the engine is compacted after every so many events of
/// the source, and before the first of them it is not.
///
/// The steps are bounded by all events, those before and those of the source, by the answers at the
/// events of the source, and by the compactions; they may be counted from before the earlier events
/// were taken, where these took no more than their own bound.
pub fn write_answers_after<Q: Source, K: Sink, L: Ledger>(
    alloc: Global,
    options: RunOptions,
    engine: &mut Engine,
    source: &mut Q,
    out: &mut K,
    steps: &mut Steps<L>,
) -> Result<(), OrMemory<StreamFault>>
    requires room { count_of engine.old + options.most_bytes < 2 ^ 64 }
    ensures wrote { (peaks : ℕ → ℕ) (earlier : List Event) → FollowsEvents peaks engine.old earlier
        → WroteStreamAfter earlier (asked_by options engine.old)
        (Q.left source.old) (Q.left source.new) (K.taken out.old) (K.taken out.new) result }
    ensures steps { (peaks : ℕ → ℕ) (earlier : List Event) (begun : ℕ)
        → FollowsEvents peaks engine.old earlier
        → AreOfEvents engine.old.schema engine.old.queries earlier begun steps.old
        → (bytes : List ℕ) → Q.left source.old ≡ Some bytes
        → StepsOverAfter (record { every = options.compact_every; first = length earlier }) earlier
        (asked_by options engine.old) bytes (K.taken out.old) (K.taken out.new) begun steps.new
        result }
    ensures stands { OnOk result ((peaks : ℕ → ℕ) (earlier : List Event)
        → FollowsEvents peaks engine.old earlier
        → (bytes : List ℕ) → Q.left source.old ≡ Some bytes
        → StandsForAllAfter (record { every = options.compact_every; first = length earlier }) peaks
        earlier (asked_by options engine.old) bytes engine.new) }
    ensures same { SameQueries engine.old engine.new }
    ensures read_cause { HasReadCause (Q.faults source.old) (Q.faults source.new) result }
    ensures write_cause { HasWriteCause (K.faults out.old) (K.faults out.new) result }
{
    let mut events = match LineEvents::new(alloc, options.most_bytes) {
        Ok(events) => events,
        Err(Memory) => return Err(OrMemory::Memory),
    };
    write_events(alloc, options, &mut events, engine, source, out, steps)
}

/// Gives an engine, which may have taken events before, the events of a source of events that is at
/// its beginning, and writes the answers at each of these, as `write_answers_after` does with those of
/// a file: so many as there is room for.
pub fn write_events<E: Events, Q: Source, K: Sink, L: Ledger>(
    alloc: Global,
    options: RunOptions,
    events: &mut E,
    engine: &mut Engine,
    source: &mut Q,
    out: &mut K,
    steps: &mut Steps<L>,
) -> Result<(), OrMemory<StreamFault>>
    requires goes_on { E.goes_on events.old engine.old.schema }
    requires room { count_of engine.old + E.room events.old < 2 ^ 64 }
    requires given { (earlier : List Event) (bytes : List ℕ) → E.gives events.old engine.old.schema
        engine.old.queries earlier (Some bytes) bytes earlier }
    requires begins { (earlier : List Event) (bytes : List ℕ) → Begins (E.takes events.old
        engine.old.schema engine.old.queries earlier) bytes earlier }
    ensures ended { (peaks : ℕ → ℕ) (earlier : List Event) (begun : ℕ)
        → FollowsEvents peaks engine.old earlier
        → AreOfEvents engine.old.schema engine.old.queries earlier begun steps.old
        → RunEnded (E.takes events.old engine.old.schema engine.old.queries earlier)
        (E.reads events.old engine.old.schema engine.old.queries earlier)
        (record { every = options.compact_every; first = length earlier }) peaks earlier
        (asked_by options engine.old) (Q.left source.old) (Q.left source.new)
        (K.taken out.old) (K.taken out.new) engine.new begun steps.new result }
    ensures same { SameQueries engine.old engine.new }
    ensures read_cause { HasReadCause (Q.faults source.old) (Q.faults source.new) result }
    ensures write_cause { HasWriteCause (K.faults out.old) (K.faults out.new) result }
{
    let mut output = Output::new(alloc, options.order);
    let mut schedule = match Schedule::new(alloc, options.compact_every, engine, steps) {
        Ok(schedule) => schedule,
        Err(Memory) => return Err(OrMemory::Memory),
    };
    answer_events(
        events,
        &mut output,
        &mut schedule,
        engine,
        source,
        out,
        steps,
    )
}

/// Gives the engine all further events, and writes the answers at each.
fn answer_events<E: Events, Q: Source, K: Sink, L: Ledger>(
    events: &mut E,
    output: &mut Output,
    schedule: &mut Schedule,
    engine: &mut Engine,
    source: &mut Q,
    out: &mut K,
    steps: &mut Steps<L>,
) -> Result<(), OrMemory<StreamFault>>
    requires goes_on { E.goes_on events.old engine.old.schema }
    requires room { count_of engine.old + E.room events.old < 2 ^ 64 }
    requires given { (earlier : List Event) (bytes : List ℕ) → E.gives events.old engine.old.schema
        engine.old.queries earlier (Some bytes) bytes earlier }
    requires begins { (earlier : List Event) (bytes : List ℕ) → Begins (E.takes events.old
        engine.old.schema engine.old.queries earlier) bytes earlier }
    requires empty { output.old.buffer ≡ [] }
    requires bases { length schedule.old.bases ≡ length engine.old.queries }
    ensures ended { (peaks : ℕ → ℕ) (earlier : List Event) (begun most_bytes : ℕ)
        → HasBegun schedule.old peaks earlier engine.old
        → AreBoundedBy schedule.old.timing engine.old.schema engine.old.queries earlier [] begun
        (steps.old + saved schedule.old engine.old)
        → RunEnded (E.takes events.old engine.old.schema engine.old.queries earlier)
        (E.reads events.old engine.old.schema engine.old.queries earlier)
        schedule.old.timing peaks earlier (record {
          order = output.old.order;
          schema = engine.old.schema;
          queries = engine.old.queries;
          most_bytes = most_bytes;
        })
        (Q.left source.old) (Q.left source.new) (K.taken out.old) (K.taken out.new) engine.new
        begun steps.new result }
    ensures same { SameQueries engine.old engine.new }
    ensures read_cause { HasReadCause (Q.faults source.old) (Q.faults source.new) result }
    ensures write_cause { HasWriteCause (K.faults out.old) (K.faults out.new) result }
{
    loop {
        match events.step(source, engine, steps) {
            Ok(Step::Event) => {}
            Ok(Step::Line) => match output.settle(events, out) {
                Ok(()) => continue,
                Err(WriteFault) => return Err(OrMemory::Fault(StreamFault::WriteFault)),
            },
            Ok(Step::End) => return finish(output, out, Ok(())),
            Err(stop) => return finish(output, out, Err(stream_fault(stop))),
        }
        match output.put(engine, events, out, steps) {
            Ok(()) => {}
            Err(OrMemory::Memory) => return finish(output, out, Err(OrMemory::Memory)),
            Err(OrMemory::Fault(WriteFault)) => {
                return Err(OrMemory::Fault(StreamFault::WriteFault));
            }
        }
        match schedule.keep_up(engine, steps) {
            Ok(()) => {}
            Err(Memory) => return finish(output, out, Err(OrMemory::Memory)),
        }
    }
}

/// Why no further event was taken.
pub fn stream_fault(stop: OrMemory<RunFault>) -> OrMemory<StreamFault>
    ensures { result ≡ stream_fault stop }
{
    match stop {
        OrMemory::Memory => OrMemory::Memory,
        OrMemory::Fault(RunFault::ReadFault) => OrMemory::Fault(StreamFault::ReadFault),
        OrMemory::Fault(RunFault::Event { line, fault }) => {
            OrMemory::Fault(StreamFault::Event { line, fault })
        }
        OrMemory::Fault(RunFault::InputTooLong { taken }) => {
            OrMemory::Fault(StreamFault::InputTooLong { taken })
        }
    }
}

/// Writes what is held, and then gives the answer that was to come.
fn finish<K: Sink>(
    output: &mut Output,
    out: &mut K,
    end: Result<(), OrMemory<StreamFault>>,
) -> Result<(), OrMemory<StreamFault>>
    ensures finished { Finished (K.taken out.old) (K.taken out.new)
        (K.faults out.old) (K.faults out.new) output.old.buffer end result }
    ensures none { output.old.buffer ≡ [] → result ≡ end }
{
    match output.flush(out) {
        Ok(()) => end,
        Err(WriteFault) => Err(OrMemory::Fault(StreamFault::WriteFault)),
    }
}
