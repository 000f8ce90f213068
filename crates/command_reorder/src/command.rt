//! The order of work of a run over late events: the query file, the clock, the event file, the
//! answers.

ghost use Rattle.std.specs.Prelude.{◌≡◌, ℕ, ◌⊎◌, true, List, [], None};
ghost use Rattle.cer_outside.specs.Content.{Holds};
ghost use Rattle.query_engine.specs.Engine.{StandsFor, SameQueries, count_of, peak_of};
ghost use Rattle.reorder_gate.specs.AttributeClock.{clock_fits};
ghost use Rattle.command_base.specs.Ending.{outside, TaskEnded, FileStop, IsAskedFor};
ghost use Rattle.command_base.specs.Leaving.{IsLeftBy};
ghost use Rattle.command_base.specs.StepCounts.{StepsBy, counts_where};
ghost use Rattle.command_base.specs.Answering.{StandsForLines, answering_counts, answering_steps, answering_leaves, source_said};
ghost use Rattle.command_reorder.specs.Reordered.{answers_of, reorder_task};

use crate::late::write_late;
use cer_base::steps::Steps;
use cer_base::{Memory, Text};
use cer_outside::{Host, Sink, Source};
use command_base::{Cause, File, Stop, leaving, open, read_engine, stop_of};
use command_words::ReorderWords;
use query_engine::Engine;
use reorder_gate::clock_fits;
use std::alloc::Global;
use std::sync::ledger::Ledger;
use stream_answers::RunOptions;

/// Reads the query text, tests the clock, and then writes the answers of the text's queries over the
/// events of the event file, which may come late.
pub fn reorder<H: Host, K: Sink, L: Ledger>(
    alloc: Global,
    words: &ReorderWords,
    host: &mut H,
    out: &mut K,
    steps: &mut Steps<L>,
) -> Stop<H::Src>
    ensures ended { TaskEnded (record { faults = H.Src.faults; left = H.Src.left }) H.opens
        (outside H.content H.faults K.faults K.taken host.old host.new out.old out.new)
        (reorder_task words.now) host.old host.new result.cause result.failed }
    ensures steps { StepsBy result.cause (answering_steps (answers_of words.now) (H.content host.old))
        (K.taken out.old) (K.taken out.new) steps.old steps.new }
    ensures left { IsLeftBy result.cause (answering_leaves (answers_of words.now) (H.content host.old))
        result.left }
    ensures kept { (any : List ℕ) → H.content host.new any ≡ H.content host.old any }
{
    let mut engine = match read_engine(alloc, host, words.queries.as_str()) {
        Ok(engine) => engine,
        Err(stop) => return stop,
    };
    let clock = words.clock.as_str();
    if !clock_fits(engine.schema(), clock) {
        return unfit(alloc, clock);
    }
    let stop = reorder_file(alloc, &mut engine, words, host, out, steps);
    leaving(stop, engine)
}

/// That some type lacks the clock.
fn unfit<S>(alloc: Global, clock: &str) -> Stop<S>
    ensures cause { (result.cause ≡ Cause.ClockKind clock.now) ⊎ (result.cause ≡ Cause.Memory) }
    ensures failed { result.failed ≡ None }
    ensures left { result.left ≡ None }
{
    match Text::copy_of(alloc, clock) {
        Ok(name) => Stop::of(Cause::ClockKind { name }),
        Err(Memory) => Stop::of(Cause::Memory),
    }
}

/// Writes the answers of the engine's queries over the host's file.
fn reorder_file<H: Host, K: Sink, L: Ledger>(
    alloc: Global,
    engine: &mut Engine,
    words: &ReorderWords,
    host: &mut H,
    out: &mut K,
    steps: &mut Steps<L>,
) -> Stop<H::Src>
    requires fits { clock_fits engine.old.schema words.now.clock ≡ true }
    requires fresh { StandsFor engine.old [] }
    requires none { count_of engine.old ≡ 0 }
    ensures stop { FileStop (record { faults = H.Src.faults; left = H.Src.left })
        (λ source. source_said (answers_of words.now) engine.old.schema engine.old.queries source
        (K.taken out.old) (K.taken out.new))
        words.now.events
        (outside H.content H.faults K.faults K.taken host.old host.new out.old out.new)
        result.cause result.failed }
    ensures steps { StepsBy result.cause
        (counts_where (λ bytes. H.content host.old words.now.events ≡ Holds bytes)
        (answering_counts (answers_of words.now) engine.old.schema engine.old.queries))
        (K.taken out.old) (K.taken out.new) steps.old steps.new }
    ensures left { result.cause ≡ Cause.Fine → (bytes : List ℕ)
        → H.content host.old words.now.events ≡ Holds bytes
        → StandsForLines (answers_of words.now) engine.old.schema engine.old.queries
        (peak_of engine.old) bytes engine.new }
    ensures none_left { result.left ≡ None }
    ensures same { SameQueries engine.old engine.new }
    ensures asked { IsAskedFor H.opens H.content words.now.events host.old host.new }
{
    let mut source = match open(alloc, host, File::Events, words.events.as_str()) {
        Ok(source) => source,
        Err(stop) => return stop,
    };
    let options = RunOptions {
        order: words.order,
        compact_every: words.compact_every,
        most_bytes: words.most_bytes,
    };
    let before = out.fault_count();
    let end = write_late(
        alloc,
        words.clock.as_str(),
        words.late,
        options,
        engine,
        &mut source,
        out,
        steps,
    );
    stop_of(end, source, out, before)
}
