//! The order of work of a run that goes on from a checkpoint: the query file, the checkpoint, the
//! event file, the answers.

ghost use Rattle.std.specs.Prelude.{◌≡◌, ◌≤◌, ℕ, List, [], Ok, Some, None, IfOk, IfErr};
ghost use Rattle.std.specs.List.{AllByRecursion};
ghost use Rattle.cer_outside.specs.Causes.{AllStay};
ghost use Rattle.cer_outside.specs.Content.{Holds, OfOpened};
ghost use Rattle.stream_schema.specs.Events.{IsOfSchema};
ghost use Rattle.query_engine.specs.Engine.{StandsFor, SameQueries, count_of, peak_of};
ghost use Rattle.stream_answers.specs.Streams.{asked_by};
ghost use Rattle.checkpoint_text.specs.declared.numbers.TheConstants as most;
ghost use Rattle.checkpoint_text.specs.Checkpoints.{checkpoint_of};
ghost use Rattle.checkpoint_text.specs.Spelling.{IsHistory};
ghost use Rattle.command_base.specs.Ending.{outside, TaskEnded, FileStop, NotRead, IsAskedFor};
ghost use Rattle.command_base.specs.StepCounts.{StepsBy, counts_where};
ghost use Rattle.command_base.specs.Leaving.{IsLeftBy};
ghost use Rattle.command_checkpoint.specs.Resumed.{resumed_said, StandsForResumed};
ghost use Rattle.command_checkpoint.specs.GoingOn.{resume_task};
ghost use Rattle.command_checkpoint.specs.StepCounts.{resume_steps};
ghost use Rattle.command_checkpoint.specs.LeftEngine.{resume_leaves};
ghost use Rattle.command_checkpoint.specs.Histories.{HistoryStop, NoHistory, resumed_counts};

use crate::resumed::resume_answers;
use ceql_parser::Accepted;
use cer_base::steps::Steps;
use cer_base::{Memory, OrMemory};
use cer_outside::{Host, Sink, Source};
use checkpoint_text::{History, HistoryFault, read_checkpoint};
use command_base::{Cause, File, Stop, leaving, open, read_accepted, stop_of};
use command_words::ResumeWords;
use query_engine::Engine;
use std::alloc::Global;
use std::sync::ledger::Ledger;
use stream_answers::RunOptions;

/// Reads the query text and the checkpoint, and then writes the answers of the queries over the
/// events of the event file, which come after those that the checkpoint keeps.
///
/// At most 2^62 bytes of events are too many.
pub fn resume<H: Host, K: Sink, L: Ledger>(
    alloc: Global,
    words: &ResumeWords,
    host: &mut H,
    out: &mut K,
    steps: &mut Steps<L>,
) -> Stop<H::Src>
    requires { words.now.most_bytes ≤ most.MOST_POSITIONS }
    ensures ended { TaskEnded (record { faults = H.Src.faults; left = H.Src.left }) H.opens
        (outside H.content H.faults K.faults K.taken host.old host.new out.old out.new)
        (resume_task words.now) host.old host.new result.cause result.failed }
    ensures steps { StepsBy result.cause (resume_steps words.now (H.content host.old))
        (K.taken out.old) (K.taken out.new) steps.old steps.new }
    ensures left { IsLeftBy result.cause (resume_leaves words.now (H.content host.old))
        result.left }
    ensures kept { (any : List ℕ) → H.content host.new any ≡ H.content host.old any }
{
    let accepted = match read_accepted(alloc, host, words.queries.as_str()) {
        Ok(accepted) => accepted,
        Err(stop) => return stop,
    };
    let checkpoint = words.checkpoint.as_str();
    let history = match read_history(alloc, &accepted, checkpoint, host) {
        Ok(history) => history,
        Err(stop) => return stop,
    };
    let seed = host.seed();
    let mut engine = match Engine::seeded(alloc, seed, accepted.schema, accepted.queries) {
        Ok(engine) => engine,
        Err(Memory) => return Stop::of(Cause::Memory),
    };
    let options = RunOptions {
        order: words.order,
        compact_every: words.compact_every,
        most_bytes: words.most_bytes,
    };
    let events = words.events.as_str();
    let stop = resume_file(
        alloc,
        &mut engine,
        &history,
        events,
        options,
        host,
        out,
        steps,
    );
    leaving(stop, engine)
}

/// The history that the host's checkpoint tells for the queries.
fn read_history<H: Host>(
    alloc: Global,
    accepted: &Accepted,
    checkpoint: &str,
    host: &mut H,
) -> Result<History, Stop<H::Src>>
    ensures told { IfOk result (λ history. OfOpened (H.content host.old checkpoint.now)
        (λ kept. checkpoint_of accepted.now.schema accepted.now.queries kept ≡ Ok history)) }
    ensures history { IfOk result (IsHistory accepted.now.schema accepted.now.queries) }
    ensures of_schema { IfOk result (λ history.
        AllByRecursion (λ e. IsOfSchema accepted.now.schema e.event) history.events) }
    ensures stop { IfErr result (λ stop. NotRead
        (HistoryStop (record { faults = H.Src.faults; left = H.Src.left })
        accepted.now.schema accepted.now.queries (H.content host.old checkpoint.now)
        (H.faults host.old checkpoint.now) (H.faults host.new checkpoint.now))
        checkpoint.now (H.faults host.old) (H.faults host.new)
        stop.cause stop.failed stop.left) }
    ensures counts { IfOk result (λ history. AllStay (H.faults host.old) (H.faults host.new)) }
    ensures asked { IsAskedFor H.opens H.content checkpoint.now host.old host.new }
{
    match open(alloc, host, File::Checkpoint, checkpoint) {
        Ok(source) => history_of(alloc, accepted, source),
        Err(stop) => Err(stop),
    }
}

/// The history that what the source has left tells for the queries.
fn history_of<S: Source + Drop>(
    alloc: Global,
    accepted: &Accepted,
    mut source: S,
) -> Result<History, Stop<S>>
    requires sound { S.faults source ≡ 0 }
    ensures told { IfOk result (λ history. (kept : List ℕ) → S.left source ≡ Some kept
        → checkpoint_of accepted.now.schema accepted.now.queries kept ≡ Ok history) }
    ensures history { IfOk result (IsHistory accepted.now.schema accepted.now.queries) }
    ensures of_schema { IfOk result (λ history.
        AllByRecursion (λ e. IsOfSchema accepted.now.schema e.event) history.events) }
    ensures stop { IfErr result (λ stop. NoHistory (record { faults = S.faults; left = S.left })
        accepted.now.schema accepted.now.queries (S.left source) stop.cause stop.failed) }
    ensures none_left { IfErr result (λ stop. stop.left ≡ None) }
{
    let queries = accepted.queries.as_slice();
    match read_checkpoint(alloc, &accepted.schema, queries, &mut source) {
        Ok(history) => Ok(history),
        Err(OrMemory::Memory) => Err(Stop::of(Cause::Memory)),
        Err(OrMemory::Fault(HistoryFault::Bad { line, fault })) => {
            Err(Stop::of(Cause::Checkpoint { line, fault }))
        }
        Err(OrMemory::Fault(HistoryFault::ReadFault)) => {
            let after = source.fault_count();
            Err(Stop {
                cause: Cause::ReadFault {
                    file: File::Checkpoint,
                    after,
                },
                failed: Some(source),
                left: None,
            })
        }
    }
}

/// Writes the answers of the engine's queries over the host's file, after the history.
fn resume_file<H: Host, K: Sink, L: Ledger>(
    alloc: Global,
    engine: &mut Engine,
    history: &History,
    events: &str,
    options: RunOptions,
    host: &mut H,
    out: &mut K,
    steps: &mut Steps<L>,
) -> Stop<H::Src>
    requires fresh { StandsFor engine.old [] }
    requires none { count_of engine.old ≡ 0 }
    requires history { IsHistory engine.old.schema engine.old.queries history.now }
    requires of_schema { AllByRecursion (λ e. IsOfSchema engine.old.schema e.event)
        history.now.events }
    requires room { options.most_bytes ≤ most.MOST_POSITIONS }
    ensures stop { FileStop (record { faults = H.Src.faults; left = H.Src.left })
        (λ source. resumed_said history.now (asked_by options engine.old) source
        (K.taken out.old) (K.taken out.new))
        events.now
        (outside H.content H.faults K.faults K.taken host.old host.new out.old out.new)
        result.cause result.failed }
    ensures steps { StepsBy result.cause
        (counts_where (λ bytes. H.content host.old events.now ≡ Holds bytes)
        (resumed_counts options.compact_every history.now (asked_by options engine.old)))
        (K.taken out.old) (K.taken out.new) steps.old steps.new }
    ensures left { result.cause ≡ Cause.Fine → (bytes : List ℕ)
        → H.content host.old events.now ≡ Holds bytes
        → StandsForResumed options.compact_every (peak_of engine.old) history.now
        (asked_by options engine.old) bytes engine.new }
    ensures none_left { result.left ≡ None }
    ensures same { SameQueries engine.old engine.new }
    ensures asked { IsAskedFor H.opens H.content events.now host.old host.new }
{
    let mut source = match open(alloc, host, File::Events, events) {
        Ok(source) => source,
        Err(stop) => return stop,
    };
    let before = out.fault_count();
    let end = resume_answers(alloc, options, engine, history, &mut source, out, steps);
    stop_of(end, source, out, before)
}
