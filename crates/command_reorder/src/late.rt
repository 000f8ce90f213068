//! The answers over the events of a source that come late.

ghost use Rattle.std.specs.Prelude.{◌≡◌, ℕ, List, Some, [], true, OnOk};
ghost use Rattle.query_engine.specs.Engine.{StandsFor, SameQueries, count_of, peak_of};
ghost use Rattle.reorder_gate.specs.AttributeClock.{clock_fits};
ghost use Rattle.stream_answers.specs.RunEnds.{HasReadCause, HasWriteCause};
ghost use Rattle.command_reorder.specs.LateOutput.{feed_by, StandsForLate, WroteLate};
ghost use Rattle.command_reorder.specs.LateSteps.{LateStepsOver};

use crate::gated::GatedEvents;
use cer_base::steps::Steps;
use cer_base::{Memory, OrMemory};
use cer_outside::{Sink, Source};
use query_engine::Engine;
use std::alloc::Global;
use std::sync::ledger::Ledger;
use stream_answers::{RunOptions, StreamFault, write_events};

/// Gives the engine, which is new, the events of the source by their clocks, ties in the order of
/// their lines, and writes the answers at each. The clock is the attribute of this name, which every
/// declared type has as a whole number. An event may come late by `late`: each waits until its clock
/// is at most the greatest one that came less `late`, or until the source ends.
///
/// After each line the events that need not wait are taken, and only the end of the source lets all
/// of them go. The first of these faults ends it, after the answers that come before were written;
/// where writing fails, that is the answer.
///
/// - `Event`: a line is refused; its event comes too late; or with an event that goes the clock of a
///   query falls, and then the line is the event's own.
/// - `InputTooLong`, `ReadFault`.
/// - Memory ran out.
///
/// With `compact_every` the engine is compacted after every so many events, their answers being
/// written or held, and with 0 it never is. Without it each of its queries is compacted once it has
/// grown enough. However it ends, its steps are bounded as those of a run over the events in this
/// order. Where it ends well, the engine stands for exactly these, and its nodes follow the windows of
/// its queries: they are bounded by the events since the last compaction of all queries and those in
/// the windows that it left, and its peaks likewise. Without a number each query is kept small: what is
/// kept of it is at most twice what its window needed after some event, and what a few events may add.
pub fn write_late<Q: Source, K: Sink, L: Ledger>(
    alloc: Global,
    clock: &str,
    late: u64,
    options: RunOptions,
    engine: &mut Engine,
    source: &mut Q,
    out: &mut K,
    steps: &mut Steps<L>,
) -> Result<(), OrMemory<StreamFault>>
    requires fits { clock_fits engine.old.schema clock.now ≡ true }
    requires fresh { StandsFor engine.old [] }
    requires none { count_of engine.old ≡ 0 }
    ensures wrote { WroteLate (feed_by options clock.now late engine.old)
        (Q.left source.old) (Q.left source.new) (K.taken out.old) (K.taken out.new) result }
    ensures steps { (bytes : List ℕ) → Q.left source.old ≡ Some bytes
        → LateStepsOver options.compact_every (feed_by options clock.now late engine.old) bytes
        (K.taken out.old) (K.taken out.new) steps.old steps.new result }
    ensures stands { OnOk result ((bytes : List ℕ) → Q.left source.old ≡ Some bytes
        → StandsForLate options.compact_every (peak_of engine.old) (feed_by options clock.now late
        engine.old) bytes engine.new) }
    ensures same { SameQueries engine.old engine.new }
    ensures read_cause { HasReadCause (Q.faults source.old) (Q.faults source.new) result }
    ensures write_cause { HasWriteCause (K.faults out.old) (K.faults out.new) result }
{
    let most_bytes = options.most_bytes;
    let mut events = match GatedEvents::new(alloc, engine.schema(), clock, late, most_bytes) {
        Ok(events) => events,
        Err(Memory) => return Err(OrMemory::Memory),
    };
    write_events(alloc, options, &mut events, engine, source, out, steps)
}
