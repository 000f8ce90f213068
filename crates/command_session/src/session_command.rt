//! The order of work of a session: the query file, and the lines of the script.

ghost use Rattle.std.specs.Prelude.{◌≡◌, ℕ, List, All, None};
ghost use Rattle.cer_outside.specs.Content.{Holds};
ghost use Rattle.cel_terms.specs.Checked.{IsChecked};
ghost use Rattle.command_base.specs.Ending.{outside, TaskEnded, FileStop, IsAskedFor};
ghost use Rattle.command_base.specs.StepCounts.{StepsBy, counts_where};
ghost use Rattle.command_session.specs.Scripts.{play_said};
ghost use Rattle.command_session.specs.Played.{session_task};
ghost use Rattle.command_session.specs.StepCounts.{script_asked, script_counts, session_steps};

use crate::script::play_script;
use ceql_parser::Accepted;
use cer_base::steps::Steps;
use cer_outside::{Host, Sink, Source};
use command_base::{File, Stop, open, read_accepted, stop_of};
use command_words::SessionWords;
use std::alloc::Global;
use std::sync::ledger::Ledger;

/// Reads the query text, and then carries out the commands of the script in order.
pub fn play<H: Host, K: Sink, L: Ledger>(
    alloc: Global,
    words: &SessionWords,
    host: &mut H,
    out: &mut K,
    steps: &mut Steps<L>,
) -> Stop<H::Src>
    ensures ended { TaskEnded (record { faults = H.Src.faults; left = H.Src.left }) H.opens
        (outside H.content H.faults K.faults K.taken host.old host.new out.old out.new)
        (session_task words.now) host.old host.new result.cause result.failed }
    ensures steps { StepsBy result.cause (session_steps words.now (H.content host.old))
        (K.taken out.old) (K.taken out.new) steps.old steps.new }
    ensures none_left { result.left ≡ None }
    ensures kept { (any : List ℕ) → H.content host.new any ≡ H.content host.old any }
{
    let accepted = match read_accepted(alloc, host, words.queries.as_str()) {
        Ok(accepted) => accepted,
        Err(stop) => return stop,
    };
    let script = words.script.as_str();
    play_file(alloc, accepted, script, host, out, steps)
}

/// Carries out the commands of the host's file.
fn play_file<H: Host, K: Sink, L: Ledger>(
    alloc: Global,
    accepted: Accepted,
    script: &str,
    host: &mut H,
    out: &mut K,
    steps: &mut Steps<L>,
) -> Stop<H::Src>
    requires checked { All (IsChecked accepted.schema) accepted.queries }
    ensures stop { FileStop (record { faults = H.Src.faults; left = H.Src.left })
        (λ source. play_said (script_asked accepted.schema accepted.queries) source
        (K.taken out.old) (K.taken out.new))
        script.now
        (outside H.content H.faults K.faults K.taken host.old host.new out.old out.new)
        result.cause result.failed }
    ensures steps { StepsBy result.cause
        (counts_where (λ bytes. H.content host.old script.now ≡ Holds bytes)
        (script_counts accepted.schema accepted.queries))
        (K.taken out.old) (K.taken out.new) steps.old steps.new }
    ensures none_left { result.left ≡ None }
    ensures asked { IsAskedFor H.opens H.content script.now host.old host.new }
{
    let mut source = match open(alloc, host, File::Events, script) {
        Ok(source) => source,
        Err(stop) => return stop,
    };
    let seed = host.seed();
    let before = out.fault_count();
    let end = play_script(
        alloc,
        seed,
        accepted.schema,
        accepted.queries,
        &mut source,
        out,
        steps,
    );
    stop_of(end, source, out, before)
}
