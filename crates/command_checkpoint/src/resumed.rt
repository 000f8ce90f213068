//! A history, and the events of a source after it.

ghost use Rattle.std.specs.Prelude.{◌≡◌, ◌+◌, ◌^◌, ◌<◌, ℕ, List, [], Some, OnOk};
ghost use Rattle.std.specs.List.{AllByRecursion};
ghost use Rattle.stream_schema.specs.Events.{IsOfSchema};
ghost use Rattle.query_engine.specs.Engine.{StandsFor, SameQueries, count_of, peak_of};
ghost use Rattle.checkpoint_text.specs.Spelling.{IsHistory};
ghost use Rattle.stream_answers.specs.RunEnds.{HasReadCause, HasWriteCause};
ghost use Rattle.stream_answers.specs.Streams.{asked_by};
ghost use Rattle.command_checkpoint.specs.Resumed.{WroteResumed, StandsForResumed, StepsResumed};

use cer_base::steps::Steps;
use cer_base::{Memory, OrMemory};
use cer_outside::{Sink, Source};
use checkpoint_text::{History, replay};
use query_engine::Engine;
use std::alloc::Global;
use std::sync::ledger::Ledger;
use stream_answers::{RunOptions, StreamFault, write_answers_after};

/// Takes the history into the engine, which is new, without an answer, and goes on with the events
/// of the source: it writes the answers at each of these, in
/// the way of `write_answers`. The history is one that a checkpoint may tell of the engine's queries,
/// and its events are of the engine's schema, as `read_checkpoint` gives it.
///
/// Positions are those of the history and then of the source, so the first event of the source has the
/// position after the history's last; the clocks go on from those of the history; line numbers are
/// those of the source. With `compact_every` the engine is compacted after every so many events of the
/// source, and with 0 never; without it once the history is taken, and then each of its queries once it
/// has grown enough. It is not compacted while the history is taken.
///
/// The first fault ends it, after the answers that come before were written; where writing fails,
/// that is the answer. Where memory runs out within the history nothing was written.
///
/// Where it ends well, the engine stands for the events of the history and then those of the source.
pub fn resume_answers<Q: Source, K: Sink, L: Ledger>(
    alloc: Global,
    options: RunOptions,
    engine: &mut Engine,
    history: &History,
    source: &mut Q,
    out: &mut K,
    steps: &mut Steps<L>,
) -> Result<(), OrMemory<StreamFault>>
    requires fresh { StandsFor engine.old [] }
    requires none { count_of engine.old ≡ 0 }
    requires history { IsHistory engine.old.schema engine.old.queries history.now }
    requires of_schema { AllByRecursion (λ e. IsOfSchema engine.old.schema e.event)
        history.now.events }
    requires room { history.now.positions + options.most_bytes < 2 ^ 64 }
    ensures wrote { WroteResumed history.now (asked_by options engine.old)
        (Q.left source.old) (Q.left source.new) (K.taken out.old) (K.taken out.new) result }
    ensures steps { (bytes : List ℕ) → Q.left source.old ≡ Some bytes
        → StepsResumed options.compact_every history.now (asked_by options engine.old) bytes
        (K.taken out.old) (K.taken out.new) steps.old steps.new result }
    ensures stands { OnOk result ((bytes : List ℕ) → Q.left source.old ≡ Some bytes
        → StandsForResumed options.compact_every (peak_of engine.old) history.now (asked_by options
        engine.old) bytes engine.new) }
    ensures same { SameQueries engine.old engine.new }
    ensures read_cause { HasReadCause (Q.faults source.old) (Q.faults source.new) result }
    ensures write_cause { HasWriteCause (K.faults out.old) (K.faults out.new) result }
{
    match replay(engine, history, steps) {
        Ok(()) => {}
        Err(Memory) => return Err(OrMemory::Memory),
    }
    write_answers_after(alloc, options, engine, source, out, steps)
}
