//! One more event of a file, given to an engine.

ghost use Rattle.std.specs.Prelude.{◌≡◌, ◌+◌, ◌^◌, ◌<◌, ◌≤◌, ℕ, List, [], ◌∷◌, ◌++◌, true, false, Some, OnOk, OnErr, IfOk};
ghost use Rattle.stream_schema.specs.declared.Event.{Event};
ghost use Rattle.stream_schema.specs.Events.{IsOfSchema};
ghost use Rattle.query_engine.specs.Bounds.{update_bound};
ghost use Rattle.query_engine.specs.Engine.{StandsFor, count_of, found_of, len_of, KeepsCursors, SameQueries, update_bounds};
ghost use Rattle.query_engine.specs.Keys.{HasAddedKeys};
ghost use Rattle.query_engine.specs.Windows.{HasAdded};
ghost use Rattle.cer_base.specs.Answers.{OnFault};
ghost use Rattle.event_reader.specs.Events.{event_of_line};
ghost use Rattle.query_engine.specs.Clocks.{NoneFallsBack};
ghost use Rattle.event_run.specs.Wanting.{OnMemory, AreWantingSteps, WantsSteps};
ghost use Rattle.event_run.specs.Taking.{BeginsRunAfter, HasTakenAfter, AfterCall, AfterText, AfterEvent, HasSourceCause, TakesRoom, TakesSteps, run_fault};

use crate::{NextEvent, RunFault};
use cer_base::OrMemory;
use cer_base::steps::Steps;
use cer_outside::Source;
use event_reader::{EventBuffer, EventFault, LineFault, Lines, Next};
use query_engine::{Engine, SeeFault};
use std::alloc::Global;
use std::sync::ledger::Ledger;
use stream_schema::Event;

/// Gives the engine the next event of the file.
///
/// Empty lines are passed over. Where it ends otherwise than by `NextEvent::Event`, the engine stands
/// for the events that it stood for; after a fault or the end the reader is not asked again. Events
/// that the engine took before the first of the file may be any. It has taken fewer than leave room
/// for an event at each byte that may still be read. The event is read into `row`, whatever that
/// holds: one row for all calls spares their memory.
pub fn take_event<Q: Source, L: Ledger>(
    alloc: Global,
    lines: &mut Lines,
    row: &mut EventBuffer,
    source: &mut Q,
    engine: &mut Engine,
    steps: &mut Steps<L>,
) -> Result<NextEvent, OrMemory<RunFault>>
    requires open { lines.old.closed ≡ false }
    requires counted { count_of engine.old + lines.old.room < 2 ^ 64 }
    ensures took { (before events : List Event) → StandsFor engine.old events
        → AfterCall before engine.old.schema engine.old.queries lines.new engine.old engine.new
        (λ bytes. HasTakenAfter before engine.old.schema engine.old.queries lines.old bytes
        (Q.left source.old) events) (Q.left source.new) events result }
    ensures counted { count_of engine.new + lines.new.room < 2 ^ 64 }
    ensures some { result ≡ Ok NextEvent.Event → 0 < count_of engine.new }
    ensures ended { result ≡ Ok NextEvent.End → engine.new ≡ engine.old }
    ensures same { SameQueries engine.old engine.new }
    ensures budget { lines.new.budget ≡ lines.old.budget }
    ensures cause { HasSourceCause (Q.faults source.old) (Q.faults source.new) result }
    ensures room { TakesRoom lines.old lines.new result }
    ensures steps { TakesSteps (update_bounds engine.new) steps.old steps.new result }
    ensures growth { result ≡ Ok NextEvent.Event → (query : ℕ) → len_of engine.new query
        ≤ len_of engine.old query + update_bound (found_of engine.new query) }
    ensures wanting_steps { (before events : List Event) → StandsFor engine.old events
        → OnMemory result (WantsSteps engine.old.schema engine.old.queries events
        (λ next. (bytes : List ℕ) → HasTakenAfter before engine.old.schema engine.old.queries
        lines.old bytes (Q.left source.old) events → BeginsRunAfter before engine.old.schema
        engine.old.queries lines.new.budget bytes (events ++ next ∷ [])) steps.old steps.new) }
{
    loop {
        match lines.next(source) {
            Ok(Next::Line) => {}
            Ok(Next::End) => return Ok(NextEvent::End),
            Err(fault) => return Err(OrMemory::Fault(fault_of(fault))),
        }
        match give_line(alloc, lines, row, engine, steps) {
            Ok(true) => return Ok(NextEvent::Event),
            Ok(false) => {}
            Err(OrMemory::Memory) => return Err(OrMemory::Memory),
            Err(OrMemory::Fault(fault)) => {
                let line = lines.number();
                return Err(OrMemory::Fault(RunFault::Event { line, fault }));
            }
        }
    }
}

/// Why there is no further line.
pub fn fault_of(fault: LineFault) -> RunFault
    ensures { result ≡ run_fault fault }
{
    match fault {
        LineFault::ReadFault => RunFault::ReadFault,
        LineFault::LineTooLong { line } => RunFault::Event {
            line,
            fault: EventFault::LineTooLong,
        },
        LineFault::InputTooLong { taken } => RunFault::InputTooLong { taken },
    }
}

/// Gives the engine the event of the line that the reader gave last, and says whether it is one.
fn give_line<L: Ledger>(
    alloc: Global,
    lines: &Lines,
    row: &mut EventBuffer,
    engine: &mut Engine,
    steps: &mut Steps<L>,
) -> Result<bool, OrMemory<EventFault>>
    requires counted { count_of engine.old + 1 < 2 ^ 64 }
    ensures took { (events : List Event) → StandsFor engine.old events
        → AfterText engine.old.schema engine.old.queries lines.now.number engine.old engine.new
        lines.now.text events result }
    ensures counted { count_of engine.new ≤ count_of engine.old + 1 }
    ensures some { result ≡ Ok true → 0 < count_of engine.new }
    ensures same { SameQueries engine.old engine.new }
    ensures steps { OnOk result (steps.new ≤ steps.old + update_bounds engine.new) }
    ensures no_step { OnFault result (λ fault. steps.new ≡ steps.old) }
    ensures skipped { result ≡ Ok false → steps.new ≡ steps.old }
    ensures kept { result ≡ Ok false → engine.new ≡ engine.old }
    ensures growth { result ≡ Ok true → (query : ℕ) → len_of engine.new query
        ≤ len_of engine.old query + update_bound (found_of engine.new query) }
    ensures wanting_steps { (events : List Event) → StandsFor engine.old events
        → OnMemory result (WantsSteps engine.old.schema engine.old.queries events
        (λ next. (event_of_line engine.old.schema lines.now.text ≡ Ok (Some next))
        × NoneFallsBack engine.old.schema engine.old.queries events next)
        steps.old steps.new) }
{
    match row.read(alloc, engine.schema(), lines.text()) {
        Ok(true) => {
            give_event(lines.number(), row.event(), engine, steps)?;
            Ok(true)
        }
        Ok(false) => Ok(false),
        Err(stop) => Err(stop),
    }
}

/// Gives the engine the event, which is of its schema, as the next one; the line of this number gave
/// it. After an error the engine is as it was.
///
/// - `TimeBack`: the clock of a query would fall.
/// - Memory ran out.
pub fn give_event<L: Ledger>(
    line: u64,
    event: &Event,
    engine: &mut Engine,
    steps: &mut Steps<L>,
) -> Result<(), OrMemory<EventFault>>
    requires of_schema { IsOfSchema engine.old.schema event.now }
    requires room { count_of engine.old + 1 < 2 ^ 64 }
    ensures took { (events : List Event) → StandsFor engine.old events
        → AfterEvent engine.old.schema engine.old.queries line engine.new event.now events result }
    ensures cursors { OnOk result (KeepsCursors engine.old engine.new) }
    ensures counted { OnOk result (count_of engine.new ≡ count_of engine.old + 1) }
    ensures growth { OnOk result ((query : ℕ) → len_of engine.new query
        ≤ len_of engine.old query + update_bound (found_of engine.new query)) }
    ensures added { OnOk result (HasAdded engine.old engine.new event.now) }
    ensures keys { OnOk result (HasAddedKeys engine.old engine.new event.now) }
    ensures unchanged { OnErr result (engine.new ≡ engine.old) }
    ensures same { SameQueries engine.old engine.new }
    ensures steps { OnOk result (steps.new ≤ steps.old + update_bounds engine.new) }
    ensures no_step { OnFault result (λ fault. steps.new ≡ steps.old) }
    ensures wanting_steps { (events : List Event) → StandsFor engine.old events
        → OnMemory result (NoneFallsBack engine.old.schema engine.old.queries events event.now
        × AreWantingSteps engine.old.schema engine.old.queries (events ++ event.now ∷ [])
        steps.old steps.new) }
{
    match engine.see(event, steps) {
        Ok(_) => Ok(()),
        Err(SeeFault::TimeBack { query, before, now }) => {
            Err(OrMemory::Fault(EventFault::TimeBack { query, before, now }))
        }
        Err(SeeFault::Memory) => Err(OrMemory::Memory),
    }
}
