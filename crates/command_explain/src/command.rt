//! The order of work of an explanation: the query file, the event file, what explains the answer.

ghost use Rattle.std.specs.Prelude.{◌≡◌, ℕ, List, None};
ghost use Rattle.command_base.specs.Ending.{outside, TaskEnded, FileStop, IsAskedFor};
ghost use Rattle.command_explain.specs.ExplanationOutput.{explained_said};
ghost use Rattle.command_explain.specs.Explained.{explain_task};

use crate::written::write_explanation;
use ceql_parser::Accepted;
use cer_outside::{Host, Sink, Source};
use command_base::{File, Stop, open, read_accepted, stop_of};
use command_words::{ExplainWords, Question};
use std::alloc::Global;

/// Reads the query text and all events, and writes what explains the complex event.
pub fn explain<H: Host, K: Sink>(
    alloc: Global,
    words: &ExplainWords,
    host: &mut H,
    out: &mut K,
) -> Stop<H::Src>
    ensures ended { TaskEnded (record { faults = H.Src.faults; left = H.Src.left }) H.opens
        (outside H.content H.faults K.faults K.taken host.old host.new out.old out.new)
        (explain_task words.now) host.old host.new result.cause result.failed }
    ensures none_left { result.left ≡ None }
    ensures kept { (any : List ℕ) → H.content host.new any ≡ H.content host.old any }
{
    let accepted = match read_accepted(alloc, host, words.queries.as_str()) {
        Ok(accepted) => accepted,
        Err(stop) => return stop,
    };
    let events = words.events.as_str();
    explain_file(alloc, &accepted, events, &words.question, host, out)
}

/// Writes what explains the complex event over the host's file.
fn explain_file<H: Host, K: Sink>(
    alloc: Global,
    accepted: &Accepted,
    events: &str,
    question: &Question,
    host: &mut H,
    out: &mut K,
) -> Stop<H::Src>
    ensures stop { FileStop (record { faults = H.Src.faults; left = H.Src.left })
        (λ source. explained_said (record {
          schema = accepted.now.schema;
          queries = accepted.now.queries;
          question = question.now;
        }) source (K.taken out.old) (K.taken out.new))
        events.now
        (outside H.content H.faults K.faults K.taken host.old host.new out.old out.new)
        result.cause result.failed }
    ensures none_left { result.left ≡ None }
    ensures asked { IsAskedFor H.opens H.content events.now host.old host.new }
{
    let mut source = match open(alloc, host, File::Events, events) {
        Ok(source) => source,
        Err(stop) => return stop,
    };
    let before = out.fault_count();
    let queries = accepted.queries.as_slice();
    let end = write_explanation(alloc, &accepted.schema, queries, question, &mut source, out);
    stop_of(end, source, out, before)
}
