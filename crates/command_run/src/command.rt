//! The order of work of a run: the query file, the event file, the answers.

ghost use Rattle.std.specs.Prelude.{◌≡◌, ℕ, List, [], None};
ghost use Rattle.cer_outside.specs.Content.{Holds};
ghost use Rattle.query_engine.specs.Engine.{StandsFor, SameQueries, count_of, peak_of};
ghost use Rattle.command_base.specs.Ending.{outside, TaskEnded, FileStop, IsAskedFor};
ghost use Rattle.command_base.specs.StepCounts.{StepsBy, counts_where};
ghost use Rattle.command_base.specs.Leaving.{IsLeftBy};
ghost use Rattle.command_base.specs.Answering.{StandsForLines, answering_counts, answering_steps, answering_leaves, source_said};
ghost use Rattle.command_run.specs.Runs.{answers_of, run_task};

use cer_base::steps::Steps;
use cer_outside::{Host, Sink, Source};
use command_base::{Cause, File, Stop, leaving, open, read_engine, stop_of};
use command_words::RunWords;
use query_engine::Engine;
use std::alloc::Global;
use std::sync::ledger::Ledger;
use stream_answers::{RunOptions, write_answers};

/// Reads the query text, and then writes the answers of its queries over the event file.
pub fn run<H: Host, K: Sink, L: Ledger>(
    alloc: Global,
    words: &RunWords,
    host: &mut H,
    out: &mut K,
    steps: &mut Steps<L>,
) -> Stop<H::Src>
    ensures ended { TaskEnded (record { faults = H.Src.faults; left = H.Src.left }) H.opens
        (outside H.content H.faults K.faults K.taken host.old host.new out.old out.new)
        (run_task words.now) host.old host.new result.cause result.failed }
    ensures steps { StepsBy result.cause (answering_steps (answers_of words.now) (H.content host.old))
        (K.taken out.old) (K.taken out.new) steps.old steps.new }
    ensures left { IsLeftBy result.cause
        (answering_leaves (answers_of words.now) (H.content host.old)) result.left }
    ensures kept { (any : List ℕ) → H.content host.new any ≡ H.content host.old any }
{
    let mut engine = match read_engine(alloc, host, words.queries.as_str()) {
        Ok(engine) => engine,
        Err(stop) => return stop,
    };
    let stop = answer_file(alloc, &mut engine, words, host, out, steps);
    leaving(stop, engine)
}

/// Writes the answers of the engine's queries over the host's file.
fn answer_file<H: Host, K: Sink, L: Ledger>(
    alloc: Global,
    engine: &mut Engine,
    words: &RunWords,
    host: &mut H,
    out: &mut K,
    steps: &mut Steps<L>,
) -> Stop<H::Src>
    requires fresh { StandsFor engine.old [] }
    requires none { count_of engine.old ≡ 0 }
    ensures stop { FileStop (record { faults = H.Src.faults; left = H.Src.left })
        (λ source. source_said (answers_of words.now) engine.old.schema engine.old.queries source
        (K.taken out.old) (K.taken out.new))
        words.now.events
        (outside H.content H.faults K.faults K.taken host.old host.new out.old out.new)
        result.cause result.failed }
    ensures steps { StepsBy result.cause
        (counts_where (λ bytes. H.content host.old words.now.events ≡ Holds bytes)
        (answering_counts (answers_of words.now) engine.old.schema engine.old.queries))
        (K.taken out.old) (K.taken out.new) steps.old steps.new }
    ensures left { result.cause ≡ Cause.Fine → (bytes : List ℕ)
        → H.content host.old words.now.events ≡ Holds bytes
        → StandsForLines (answers_of words.now) engine.old.schema engine.old.queries
        (peak_of engine.old) bytes engine.new }
    ensures none_left { result.left ≡ None }
    ensures same { SameQueries engine.old engine.new }
    ensures asked { IsAskedFor H.opens H.content words.now.events host.old host.new }
{
    let events = words.events.as_str();
    let mut source = match open(alloc, host, File::Events, events) {
        Ok(source) => source,
        Err(stop) => return stop,
    };
    let options = RunOptions {
        order: words.order,
        compact_every: words.compact_every,
        most_bytes: words.most_bytes,
    };
    let before = out.fault_count();
    let end = write_answers(alloc, options, engine, &mut source, out, steps);
    stop_of(end, source, out, before)
}
