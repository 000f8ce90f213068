//! The order of work where events are saved: the query file, the event file, the checkpoint.

ghost use Rattle.std.specs.Prelude.{◌≡◌, ℕ, List, All, None};
ghost use Rattle.cel_terms.specs.Checked.{IsChecked};
ghost use Rattle.command_base.specs.Ending.{outside, TaskEnded, FileStop, IsAskedFor};
ghost use Rattle.command_checkpoint.specs.Saved.{saved_said};
ghost use Rattle.command_checkpoint.specs.Saving.{save_asked, save_task};

use crate::saving::save_events;
use ceql_parser::Accepted;
use cer_base::limits::MOST_BYTES;
use cer_outside::{Host, Sink, Source};
use command_base::{File, Stop, open, read_accepted, stop_of};
use command_words::SaveWords;
use std::alloc::Global;

/// Reads the query text and all events, and writes their checkpoint.
pub fn save<H: Host, K: Sink>(
    alloc: Global,
    words: &SaveWords,
    host: &mut H,
    out: &mut K,
) -> Stop<H::Src>
    ensures ended { TaskEnded (record { faults = H.Src.faults; left = H.Src.left }) H.opens
        (outside H.content H.faults K.faults K.taken host.old host.new out.old out.new)
        (save_task words.now) host.old host.new result.cause result.failed }
    ensures none_left { result.left ≡ None }
    ensures kept { (any : List ℕ) → H.content host.new any ≡ H.content host.old any }
{
    let accepted = match read_accepted(alloc, host, words.queries.as_str()) {
        Ok(accepted) => accepted,
        Err(stop) => return stop,
    };
    let events = words.events.as_str();
    save_file(alloc, &accepted, events, host, out)
}

/// Writes the checkpoint of the events of the host's file.
fn save_file<H: Host, K: Sink>(
    alloc: Global,
    accepted: &Accepted,
    events: &str,
    host: &mut H,
    out: &mut K,
) -> Stop<H::Src>
    requires checked { All (IsChecked accepted.now.schema) accepted.now.queries }
    ensures stop { FileStop (record { faults = H.Src.faults; left = H.Src.left })
        (λ source. saved_said (save_asked accepted.now.schema accepted.now.queries) source
        (K.taken out.old) (K.taken out.new))
        events.now
        (outside H.content H.faults K.faults K.taken host.old host.new out.old out.new)
        result.cause result.failed }
    ensures none_left { result.left ≡ None }
    ensures asked { IsAskedFor H.opens H.content events.now host.old host.new }
{
    let mut source = match open(alloc, host, File::Events, events) {
        Ok(source) => source,
        Err(stop) => return stop,
    };
    let before = out.fault_count();
    let queries = accepted.queries.as_slice();
    let end = save_events(
        alloc,
        &accepted.schema,
        queries,
        MOST_BYTES,
        &mut source,
        out,
    );
    stop_of(end, source, out, before)
}
