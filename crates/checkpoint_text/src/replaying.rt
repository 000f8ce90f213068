//! A history that is taken into an engine.

ghost use Rattle.std.specs.Prelude.{◌≡◌, ◌+◌, ◌*◌, ◌≤◌, ◌<◌, ℕ, [], ◌∷◌, ◌++◌, List, length, OnOk, OnErr};
ghost use Rattle.std.specs.List.{AllByRecursion};
ghost use Rattle.stream_schema.specs.declared.Event.{Event};
ghost use Rattle.stream_schema.specs.Events.{IsOfSchema};
ghost use Rattle.query_engine.specs.Counts.{MeetMost, event_bound};
ghost use Rattle.query_engine.specs.Engine.{StandsFor, SameQueries, count_of, peak_of};
ghost use Rattle.query_engine.specs.Peaks.{PeaksFollow};
ghost use Rattle.query_engine.specs.Skipping.{AreBlanks};
ghost use Rattle.query_engine.specs.Windows.{IsDense};
ghost use Rattle.checkpoint_text.specs.declared.numbers.TheConstants as most;
ghost use Rattle.checkpoint_text.specs.Spelling.{IsHistory};
ghost use Rattle.checkpoint_text.specs.Replaying.{StandsForFirst, Replayed, IsInTime};
ghost use Rattle.checkpoint_text.specs.Streams.{IsStreamOf};

use crate::{EventAt, History};
use cer_base::Memory;
use cer_base::steps::Steps;
use query_engine::{Engine, SeeFault};
use std::sync::ledger::Ledger;

/// Takes the history into an engine that took no event: each event at its position, and blank ones
/// at all others. No answer is asked for. The history is one that a checkpoint may tell of the
/// engine's queries, and its events are of the engine's schema, as `read_checkpoint` gives it.
///
/// After `Memory` the engine is at the position of one of the history's events, and stands for those
/// before it. However it ends, its steps are bounded by the positions of the history. No query had
/// more nodes meanwhile than the history's events allow, or than it had before.
pub fn replay<L: Ledger>(
    engine: &mut Engine,
    history: &History,
    steps: &mut Steps<L>,
) -> Result<(), Memory>
    requires fresh { StandsFor engine.old [] }
    requires none { count_of engine.old ≡ 0 }
    requires history { IsHistory engine.old.schema engine.old.queries history.now }
    requires of_schema { AllByRecursion (λ e. IsOfSchema engine.old.schema e.event)
        history.now.events }
    ensures replayed { OnOk result (Replayed engine.old.schema history.now.events
        history.now.positions engine.new) }
    ensures part { OnErr result (StandsForFirst engine.old.schema history.now.events engine.new) }
    ensures peaks { OnOk result ((stream : List Event)
        → IsStreamOf engine.old.schema history.now stream
        → PeaksFollow (peak_of engine.old) engine.new stream) }
    ensures steps { (stream : List Event) (most : ℕ → ℕ)
        → IsStreamOf engine.old.schema history.now stream
        → MeetMost engine.old.schema engine.old.queries stream most → steps.new ≤ steps.old
        + length stream * event_bound (length engine.old.queries) most }
    ensures same { SameQueries engine.old engine.new }
{
    engine.schema().well_declared();
    let events = history.events.as_slice();
    for k in 0..events.len() {
        match replay_event(engine, &events[k], steps) {
            Ok(()) => {}
            Err(Memory) => return Err(Memory),
        }
    }
    engine.skip_to(history.positions);
    Ok(())
}

/// Takes the event at its position, and blank ones before it. No clock falls with it.
///
/// After `Memory` the engine is at the event's position.
fn replay_event<L: Ledger>(
    engine: &mut Engine,
    at: &EventAt,
    steps: &mut Steps<L>,
) -> Result<(), Memory>
    requires of_schema { IsOfSchema engine.old.schema at.now.event }
    requires ahead { count_of engine.old ≤ at.now.position }
    requires room { at.now.position < most.MOST_POSITIONS }
    requires in_time { IsInTime engine.old at.now }
    ensures stands { OnOk result ((events blanks : List Event) → StandsFor engine.old events
        → AreBlanks engine.old.schema (length events) at.now.position blanks
        → StandsFor engine.new (events ++ blanks ++ at.now.event ∷ [])) }
    ensures dense { OnOk result ((events blanks : List Event) → StandsFor engine.old events
        → IsDense engine.old events
        → AreBlanks engine.old.schema (length events) at.now.position blanks
        → IsDense engine.new (events ++ blanks ++ at.now.event ∷ [])) }
    ensures peaks { OnOk result ((before : ℕ → ℕ) (events blanks : List Event)
        → StandsFor engine.old events → IsDense engine.old events
        → PeaksFollow before engine.old events
        → AreBlanks engine.old.schema (length events) at.now.position blanks
        → PeaksFollow before engine.new (events ++ blanks ++ at.now.event ∷ [])) }
    ensures steps { (events blanks : List Event) (most : ℕ → ℕ) → StandsFor engine.old events
        → AreBlanks engine.old.schema (length events) at.now.position blanks
        → MeetMost engine.old.schema engine.old.queries (events ++ blanks ++ at.now.event ∷ [])
        most → steps.new ≤ steps.old + event_bound (length engine.old.queries) most }
    ensures count { OnOk result (count_of engine.new ≡ at.now.position + 1) }
    ensures place { OnErr result (count_of engine.new ≡ at.now.position) }
    ensures before { OnErr result ((events blanks : List Event) → StandsFor engine.old events
        → AreBlanks engine.old.schema (length events) at.now.position blanks
        → StandsFor engine.new (events ++ blanks)) }
    ensures same { SameQueries engine.old engine.new }
{
    engine.skip_to(at.position);
    match engine.see(&at.event, steps) {
        Ok(_) => Ok(()),
        Err(SeeFault::Memory) => Err(Memory),
        Err(SeeFault::TimeBack { .. }) => unreachable!(),
    }
}
