//! The top call: what the program does with its words.

ghost use Rattle.std.specs.Prelude.{◌≡◌, ◌↔◌, ℕ, List, map, string_bytes, IsSome, IsSomeAnd};
ghost use Rattle.cer_base.specs.declared.Location.{Location};
ghost use Rattle.ceql_grammar.specs.declared.faults.QueryFault.{QueryFault};
ghost use Rattle.event_reader.specs.declared.EventFault.{EventFault};
ghost use Rattle.checkpoint_text.specs.declared.CheckpointFault.{CheckpointFault};
ghost use Rattle.cer_outside.specs.Content.{Missing, Holds};
ghost use Rattle.event_run.specs.Runs as stop;
ghost use Rattle.fault_notes.specs.declared.File.{File};
ghost use Rattle.command_words.specs.CommandLine.{AskNothing};
ghost use Rattle.command_words.specs.declared.SampleWords.{SampleWords};
ghost use Rattle.command_base.specs.Accepted.{IsRefusedText};
ghost use Rattle.command_base.specs.Tasks.{ReadsFile, CheckpointHolds, LacksItsClock, RefusesCheckpoint, TaskStops, name_of};
ghost use Rattle.command_base.specs.Causes.{status_of, Exactly, IsFineOrOutside, IsReading, CountsOpens, CountsWrites, EndsWithout};
ghost use Rattle.command_base.specs.Opening.{OpensInTurn};
ghost use Rattle.command_base.specs.Output.{WroteBy};
ghost use Rattle.command_base.specs.Ending.{outside};
ghost use Rattle.command_base.specs.Leaving.{IsLeftBy};
ghost use Rattle.command_base.specs.StepCounts.{StepsBy};
ghost use Rattle.command_base.specs.Notes.{note_of, TookNote};
ghost use Rattle.command_base.specs.Sources.{left_by};
ghost use Rattle.command_sample.specs.Ending.{WroteSample};
ghost use Rattle.core_top.specs.Jobs.{Job, task_of, AsksJob, AsksSample};
ghost use Rattle.core_top.specs.StepCounts.{steps_of};
ghost use Rattle.core_top.specs.LeftEngine.{leaves_of};
ghost use Rattle.core_top.specs.Faults.{HasOpenFault, HasReadFault, HasWriteFault};
ghost use Rattle.core_top.specs.Calls.{CallEnded};

use super::ProgramEnd;
use super::notes::noted;
use cer_base::OrMemory;
use cer_base::steps::Steps;
use cer_outside::{Host, Sink};
use command_base::{Cause, Stop};
use command_checkpoint::{resume, save};
use command_explain::explain;
use command_reorder::reorder;
use command_run::run;
use command_sample::sample;
use command_session::play;
use command_words::{Command, read_command};
use std::alloc::Global;
use std::sync::ledger::Ledger;

/// Does what the words after the program's name ask for.
///
/// `run QUERIES EVENTS` reads the query text and the event file of the host and writes the answers
/// to `out`; `reorder QUERIES EVENTS CLOCK LATE` does so for events that come late, by LATE at the
/// most, in the order of their attribute CLOCK; `explain QUERIES EVENTS QUERY START END
/// [POSITION]...` writes why one of them is an answer; `session QUERIES SCRIPT` carries out the
/// commands of a script, by which events come and cursors give their answers; `save QUERIES EVENTS`
/// writes a checkpoint of the events: how many came, and those that the windows still need; `resume
/// QUERIES CHECKPOINT EVENTS` writes the answers over events that come after those of a checkpoint;
/// `sample SEED COUNT` writes a summary of two fixed queries. The note of the cause goes to `notes`; a
/// fault there changes neither status nor cause, but that where there is no memory for a note, memory
/// is the cause.
pub fn core_main<H: Host, K: Sink, N: Sink, L: Ledger>(
    alloc: Global,
    words: Vec<String>,
    host: &mut H,
    out: &mut K,
    notes: &mut N,
    steps: &mut Steps<L>,
) -> ProgramEnd<H::Src>
    // The headline: what the output has taken after each cause. With status 0 a run has written
    // exactly the answers of the query text over the event file, position by position and query by
    // query, each once, one over late events those over the file's events in the order of their
    // clocks, an explanation that of the complex event that is asked for, a session the bytes of the
    // steps that a machine makes by the commands of the script, in their order, and `save` the
    // checkpoint of all events of the file; where these do not end well it has written nothing. A
    // run that goes on from a checkpoint has written the answers of the stream of its history and
    // then the event file, at the positions after the history; where the checkpoint is refused it
    // has written nothing.
    ensures wrote { (job : Job) → AsksJob (map string_bytes words.items) job
        → WroteBy result.cause (H.content host.old) (task_of job)
        (left_by (record { faults = H.Src.faults; left = H.Src.left }) result.failed)
        (K.taken out.old) (K.taken out.new) }
    ensures sampled { (sample : SampleWords) → AsksSample (map string_bytes words.items) sample
        → WroteSample result.cause sample (K.taken out.old) (K.taken out.new) }
    ensures silent { AskNothing (map string_bytes words.items)
        → K.taken out.new ≡ K.taken out.old }
    ensures status { result.status ≡ status_of result.cause }

    // Each answer has its cause.
    ensures usage { Exactly result.cause Cause.Usage (AskNothing (map string_bytes words.items)) }
    ensures queries { (job : Job) (text : List ℕ) (fault : QueryFault) (place : Location)
        → AsksJob (map string_bytes words.items) job
        → H.content host.old (task_of job).queries ≡ Holds text
        → Exactly result.cause (Cause.Queries fault place) (IsRefusedText text fault place) }
    ensures clock { (job : Job) (text name : List ℕ) → AsksJob (map string_bytes words.items) job
        → H.content host.old (task_of job).queries ≡ Holds text
        → Exactly result.cause (Cause.ClockKind name) (LacksItsClock (task_of job) text name) }
    ensures checkpoint { (job : Job) (text kept : List ℕ) (line : ℕ) (fault : CheckpointFault)
        → AsksJob (map string_bytes words.items) job
        → H.content host.old (task_of job).queries ≡ Holds text
        → CheckpointHolds (H.content host.old) (task_of job) kept
        → Exactly result.cause (Cause.Checkpoint line fault)
        (RefusesCheckpoint (task_of job) text kept line fault) }
    ensures event { (job : Job) (text kept lines : List ℕ) (line : ℕ) (fault : EventFault)
        → AsksJob (map string_bytes words.items) job
        → H.content host.old (task_of job).queries ≡ Holds text
        → CheckpointHolds (H.content host.old) (task_of job) kept
        → H.content host.old (task_of job).events ≡ Holds lines
        → Exactly result.cause (Cause.Event line fault)
        (TaskStops (task_of job) text kept lines (stop.Event line fault)) }
    ensures too_long { (job : Job) (text kept lines : List ℕ) (taken : ℕ)
        → AsksJob (map string_bytes words.items) job
        → H.content host.old (task_of job).queries ≡ Holds text
        → CheckpointHolds (H.content host.old) (task_of job) kept
        → H.content host.old (task_of job).events ≡ Holds lines
        → Exactly result.cause (Cause.InputTooLong taken)
        (TaskStops (task_of job) text kept lines (stop.InputTooLong taken)) }
    ensures open_fault { (file : File) (before after : ℕ)
        → result.cause ≡ Cause.OpenFault file before after
        → HasOpenFault (map string_bytes words.items) (H.content host.old)
        (H.faults host.old) (H.faults host.new) file before after }
    ensures read_fault { (file : File) (after : ℕ) → result.cause ≡ Cause.ReadFault file after
        → IsSomeAnd result.failed (λ source. HasReadFault (map string_bytes words.items)
        (H.content host.old) file after (H.Src.faults source) (H.Src.left source)) }
    ensures write_fault { (before after : ℕ) → result.cause ≡ Cause.WriteFault before after
        → HasWriteFault (K.faults out.old) (K.faults out.new) before after }
    ensures failed { IsSome result.failed ↔ IsReading result.cause }

    // A file that the host lacks is never opened, and nothing is written without it.
    ensures missing { (job : Job) (file : File) → AsksJob (map string_bytes words.items) job
        → ReadsFile (task_of job) file → H.content host.old (name_of file (task_of job)) ≡ Missing
        → EndsWithout file result.cause × (K.taken out.new ≡ K.taken out.old) }

    // A text and a checkpoint that the job takes and an event file that is read to its end, or a
    // script without a refusal, are answered, but for memory and the outside.
    ensures complete { (job : Job) (text kept lines : List ℕ)
        → AsksJob (map string_bytes words.items) job
        → H.content host.old (task_of job).queries ≡ Holds text
        → CheckpointHolds (H.content host.old) (task_of job) kept
        → H.content host.old (task_of job).events ≡ Holds lines
        → TaskStops (task_of job) text kept lines stop.End → IsFineOrOutside result.cause }

    // Each file is opened once and in its turn, and the host is asked by no other call; no call failed
    // but the one that is the cause.
    ensures opens { (job : Job) → AsksJob (map string_bytes words.items) job
        → OpensInTurn H.opens (H.content host.old) (task_of job) result.cause host.old host.new }
    ensures unopened { AskNothing (map string_bytes words.items) → host.new ≡ host.old }
    ensures unopened_sample { (sample : SampleWords)
        → AsksSample (map string_bytes words.items) sample → host.new ≡ host.old }
    ensures counts_opens { (job : Job) → AsksJob (map string_bytes words.items) job
        → CountsOpens result.cause (task_of job) (H.faults host.old) (H.faults host.new) }
    ensures counts_writes { CountsWrites result.cause (K.faults out.old) (K.faults out.new) }

    // However a run ends, its steps are bounded by the events of the file, those of a checkpoint
    // before it among them, and by their answers; an explanation takes none, nor does saving events.
    // Those of a session are bounded by the commands that it carries out.
    ensures steps { (job : Job) → AsksJob (map string_bytes words.items) job
        → StepsBy result.cause (steps_of job (H.content host.old)) (K.taken out.old)
        (K.taken out.new) steps.old steps.new }

    // The engine of a run, over late events or not, is left with status 0, and with no other; it
    // stands for exactly the events of the event file, after those of a checkpoint where there is
    // one. No other call leaves one.
    ensures left { (job : Job) → AsksJob (map string_bytes words.items) job
        → IsLeftBy result.cause (leaves_of job (H.content host.old)) result.left }
    ensures none_left { ((job : Job) → AsksJob (map string_bytes words.items) job → ⊥)
        → result.left ≡ None }

    ensures note { TookNote (N.taken notes.old) (N.taken notes.new)
        (N.faults notes.old) (N.faults notes.new) (note_of result.cause) }
    ensures kept { (name : List ℕ) → H.content host.new name ≡ H.content host.old name }
{
    let stop = obey(alloc, words.as_slice(), host, out, steps);
    done(noted(alloc, notes, stop))
}

/// With the status of its cause.
fn done<S>(stop: Stop<S>) -> ProgramEnd<S>
    ensures status { result.status ≡ status_of result.cause }
    ensures cause { result.cause ≡ stop.cause }
    ensures failed { result.failed ≡ stop.failed }
    ensures left { result.left ≡ stop.left }
{
    ProgramEnd {
        status: status(&stop.cause),
        cause: stop.cause,
        failed: stop.failed,
        left: stop.left,
    }
}

/// What the words ask for, or a usage fault.
fn obey<H: Host, K: Sink, L: Ledger>(
    alloc: Global,
    words: &[String],
    host: &mut H,
    out: &mut K,
    steps: &mut Steps<L>,
) -> Stop<H::Src>
    ensures finished { CallEnded (record { faults = H.Src.faults; left = H.Src.left }) H.opens
        (map string_bytes words.now)
        (outside H.content H.faults K.faults K.taken host.old host.new out.old out.new)
        host.old host.new result.cause result.failed }
    ensures steps { (job : Job) → AsksJob (map string_bytes words.now) job
        → StepsBy result.cause (steps_of job (H.content host.old)) (K.taken out.old)
        (K.taken out.new) steps.old steps.new }
    ensures left { (job : Job) → AsksJob (map string_bytes words.now) job
        → IsLeftBy result.cause (leaves_of job (H.content host.old)) result.left }
    ensures none_left { ((job : Job) → AsksJob (map string_bytes words.now) job → ⊥)
        → result.left ≡ None }
    ensures kept { (name : List ℕ) → H.content host.new name ≡ H.content host.old name }
{
    match read_command(alloc, words) {
        Ok(Command::Run(asked)) => run(alloc, &asked, host, out, steps),
        Ok(Command::Reorder(asked)) => reorder(alloc, &asked, host, out, steps),
        Ok(Command::Explain(asked)) => explain(alloc, &asked, host, out),
        Ok(Command::Session(asked)) => play(alloc, &asked, host, out, steps),
        Ok(Command::Resume(asked)) => resume(alloc, &asked, host, out, steps),
        Ok(Command::Save(asked)) => save(alloc, &asked, host, out),
        Ok(Command::Sample(asked)) => sample(alloc, &asked, out, steps),
        Err(OrMemory::Memory) => Stop::of(Cause::Memory),
        Err(OrMemory::Fault(_)) => Stop::of(Cause::Usage),
    }
}

/// The exit status of the cause.
fn status(cause: &Cause) -> u8
    ensures { result ≡ status_of cause.now }
{
    match cause {
        Cause::Fine => 0,
        Cause::Usage => 2,
        Cause::Queries { .. } | Cause::ClockKind { .. } => 3,
        Cause::Event { .. } => 4,
        Cause::OpenFault { .. } | Cause::ReadFault { .. } => 5,
        Cause::WriteFault { .. } => 6,
        Cause::Memory => 7,
        Cause::InputTooLong { .. } => 8,
        Cause::Checkpoint { .. } => 9,
    }
}
