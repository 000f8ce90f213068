//! Where the events of a run come from.

ghost use Rattle.std.specs.Prelude.{◌≡◌, ◌+◌, ◌^◌, ◌<◌, ◌≤◌, ℕ, List, [], ◌∷◌, ◌++◌, true, false, Some, Ok, IfOk};
ghost use Rattle.stream_schema.specs.declared.Event.{Event};
ghost use Rattle.event_reader.specs.LineReaders.{HasGiven};
ghost use Rattle.event_reader.specs.Lines.{has_line_feed, begins_with_end};
ghost use Rattle.query_engine.specs.Bounds.{update_bound};
ghost use Rattle.query_engine.specs.Engine.{StandsFor, SameQueries, count_of, found_of, len_of, update_bounds};
ghost use Rattle.event_run.specs.Runs.{RunsAfter};
ghost use Rattle.event_run.specs.Taking.{HasTakenAfter, AreEventsReadAfter, HasSourceCause};
ghost use Rattle.event_run.specs.Wanting.{OnMemory, WantsSteps};
ghost use Rattle.stream_answers.specs.Events.{AfterStep, Begins, Lasts, LastsRead, OnStep, OnNoEvent, TakesSteps};

use cer_base::steps::Steps;
use cer_base::{Memory, OrMemory};
use cer_outside::Source;
use event_reader::{EventBuffer, Lines};
use event_run::{NextEvent, RunFault, take_event};
use query_engine::Engine;
use std::alloc::Global;
use std::sync::ledger::Ledger;

/// What a step has come to.
#[derive(Debug, Clone, Copy, PartialEq, Eq)]
pub enum Step {
    /// An event, which the engine took.
    Event,
    /// No event yet: something was read of the file, and a later step may give one.
    Line,
    /// The end: no event follows.
    End,
}

/// A source of events, made of the bytes of a file.
pub trait Events {
    ghost use Rattle.std.specs.Prelude.{ℕ, List, Option};
    ghost use Rattle.stream_schema.specs.Types.{Declared};
    ghost use Rattle.stream_schema.specs.declared.Event.{Event};
    ghost use Rattle.cel_terms.specs.declared.Query.{Query};
    ghost use Rattle.event_run.specs.Runs.{RunStop};

    /// What these queries take of a file of these bytes: after the earlier events come those of the
    /// file, these are all, and they stop so.
    ghost takes: { Self → Declared → List Query → List Event → List ℕ → List Event → RunStop → Type 0 };

    /// What is known of the events that were given where the file failed, which has this left of its
    /// bytes.
    ghost reads: { Self → Declared → List Query → List Event → Option (List ℕ) → List ℕ → List Event → Type 0 };

    /// It has given events of a file of these bytes, which has this left: with the earlier ones before
    /// them these are all.
    ghost gives: { Self → Declared → List Query → List Event → Option (List ℕ) → List ℕ → List Event → Type 0 };

    /// A further step may be made, for an engine of this schema.
    ghost goes_on: { Self → Declared → Type 0 };

    /// So many events may still come.
    ghost room: { Self → ℕ };

    /// So many steps may still be made.
    ghost turns: { Self → ℕ };

    /// The next step asks the file nothing: what it needs was read before.
    ghost asks_nothing: { Self → Type 0 };

    /// Gives the engine the next event, or reads on. At `Step::Line` and `Step::End` the engine is as
    /// it was; after the end or a fault no further step is made. Events that the engine took before
    /// the first may be any.
    ///
    /// - `Event`: a line is refused, or with its event the clock of a query would fall.
    /// - `InputTooLong`, `ReadFault`, or memory ran out.
    fn step<Q: Source, L: Ledger>(
        &mut self,
        source: &mut Q,
        engine: &mut Engine,
        steps: &mut Steps<L>,
    ) -> Result<Step, OrMemory<RunFault>>
        requires goes_on { goes_on self.old engine.old.schema }
        requires room { count_of engine.old + room self.old < 2 ^ 64 }
        ensures took { (earlier events : List Event) → StandsFor engine.old events → AfterStep
            (gives self.old engine.old.schema engine.old.queries earlier (Q.left source.old))
            (gives self.new engine.old.schema engine.old.queries earlier (Q.left source.new))
            (takes self.old engine.old.schema engine.old.queries earlier)
            (reads self.old engine.old.schema engine.old.queries earlier (Q.left source.new))
            engine.old engine.new events result }
        ensures lasts { (earlier : List Event) → OnStep result (Lasts
            (takes self.old engine.old.schema engine.old.queries earlier)
            (takes self.new engine.old.schema engine.old.queries earlier)) }
        ensures reads_on { (earlier : List Event) (left : Option (List ℕ))
            → OnStep result (LastsRead
            (reads self.old engine.old.schema engine.old.queries earlier left)
            (reads self.new engine.old.schema engine.old.queries earlier left)) }
        ensures goes_on { OnStep result (goes_on self.new engine.new.schema) }
        ensures room { OnStep result (count_of engine.new + room self.new < 2 ^ 64) }
        ensures turns { OnStep result (turns self.new < turns self.old) }
        ensures some { result ≡ Ok Step.Event → 0 < count_of engine.new }
        ensures kept { OnNoEvent result (engine.new ≡ engine.old) }
        ensures same { SameQueries engine.old engine.new }
        ensures cause { HasSourceCause (Q.faults source.old) (Q.faults source.new) result }
        ensures steps { TakesSteps (update_bounds engine.new) steps.old steps.new result }
        ensures growth { result ≡ Ok Step.Event → (query : ℕ) → len_of engine.new query
            ≤ len_of engine.old query + update_bound (found_of engine.new query) }
        ensures wanting_steps { (earlier events : List Event) → StandsFor engine.old events
            → OnMemory result (WantsSteps engine.old.schema engine.old.queries events
            (λ next. (bytes : List ℕ)
            → gives self.old engine.old.schema engine.old.queries earlier (Q.left source.old)
            bytes events
            → Begins (takes self.old engine.old.schema engine.old.queries earlier) bytes
            (events ++ next ∷ [])) steps.old steps.new) };

    /// Whether what the next step needs was read before, so that it asks the file nothing.
    fn is_at_hand(&mut self) -> bool
        ensures kept { self.new ≡ self.old }
        ensures at_hand { result ≡ true → asks_nothing self.old };
}

/// The events of the lines of a file, as they come.
#[derive(Drop)]
pub struct LineEvents {
    alloc: Global,
    lines: Lines,
    row: EventBuffer,
}

impl LineEvents {
    /// The events of a file of which so many bytes are too many, at its beginning.
    pub fn new(alloc: Global, most_bytes: u64) -> Result<LineEvents, Memory>
        ensures given { IfOk result (λ events. (bytes : List ℕ)
            → HasGiven events.lines bytes (Some bytes) []) }
        ensures budget { IfOk result (λ events. events.lines.budget ≡ most_bytes) }
        ensures open { IfOk result (λ events. events.lines.closed ≡ false) }
    {
        Ok(LineEvents {
            alloc,
            lines: Lines::new(alloc, most_bytes)?,
            row: EventBuffer::new(alloc),
        })
    }
}

impl Events for LineEvents {
    ghost takes = { λ e schema queries earlier bytes events halt.
        RunsAfter earlier schema queries e.lines.budget bytes events halt };

    ghost reads = { λ e schema queries earlier left bytes events.
        AreEventsReadAfter earlier schema queries e.lines.budget bytes left events };

    ghost gives = { λ e schema queries earlier left bytes events.
        HasTakenAfter earlier schema queries e.lines bytes left events };

    ghost goes_on = { λ e schema. e.lines.closed ≡ false };

    ghost room = { λ e. e.lines.room };

    ghost turns = { λ e. e.lines.room };

    ghost asks_nothing = { λ e. (begins_with_end e.lines.pending ≡ false)
        × (has_line_feed e.lines.pending ≡ true) };

    #[inline(always)]
    fn step<Q: Source, L: Ledger>(
        &mut self,
        source: &mut Q,
        engine: &mut Engine,
        steps: &mut Steps<L>,
    ) -> Result<Step, OrMemory<RunFault>> {
        match take_event(
            self.alloc,
            &mut self.lines,
            &mut self.row,
            source,
            engine,
            steps,
        ) {
            Ok(NextEvent::Event) => Ok(Step::Event),
            Ok(NextEvent::End) => Ok(Step::End),
            Err(stop) => Err(stop),
        }
    }

    #[inline(always)]
    fn is_at_hand(&mut self) -> bool {
        !self.lines.begins_with_end() && self.lines.has_line()
    }
}
