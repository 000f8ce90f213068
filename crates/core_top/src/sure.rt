//! What follows of the top call over a host that never fails.

ghost use Rattle.std.specs.Prelude.{◌≡◌, ℕ, List, map, string_bytes};
ghost use Rattle.cer_outside.specs.Causes.{Rose};
ghost use Rattle.cer_outside.specs.Content.{Holds};
ghost use Rattle.cer_outside.specs.Files.{content_under};
ghost use Rattle.event_run.specs.Runs as stop;
ghost use Rattle.command_base.specs.Tasks.{CheckpointHolds, TaskStops};
ghost use Rattle.command_base.specs.Causes.{IsFineOrMemory};
ghost use Rattle.core_top.specs.Jobs.{Job, task_of, AsksJob};

use super::ProgramEnd;
use super::top::core_main;
use cer_base::steps::Steps;
use cer_outside::Sink;
use cer_outside::hosts::SureHost;
use cer_outside::sources::SureSource;
use std::alloc::Global;
use std::sync::ledger::Ledger;

/// A job over a query text that it takes, a checkpoint, where it has one, that it takes, and an event
/// file that is read to its end, on a host that never fails and has them: where the output's count of
/// faults did not rise, all was well or memory ran out.
pub fn run_over_sure<K: Sink, N: Sink, L: Ledger>(
    alloc: Global,
    words: Vec<String>,
    host: &mut SureHost,
    out: &mut K,
    notes: &mut N,
    steps: &mut Steps<L>,
) -> ProgramEnd<SureSource>
    ensures { (job : Job) (text kept lines : List ℕ) → AsksJob (map string_bytes words.items) job
        → content_under host.old.files (task_of job).queries ≡ Holds text
        → CheckpointHolds (content_under host.old.files) (task_of job) kept
        → content_under host.old.files (task_of job).events ≡ Holds lines
        → TaskStops (task_of job) text kept lines stop.End
        → (Rose (K.faults out.old) (K.faults out.new) → ⊥) → IsFineOrMemory result.cause }
{
    core_main(alloc, words, host, out, notes, steps)
}
