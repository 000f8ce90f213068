//! A file, opened, and one read whole; and how what ran over one ended.

ghost use Rattle.std.specs.Prelude.{◌≡◌, ◌↔◌, true, Some, None, IfOk, IfErr};
ghost use Rattle.cer_outside.specs.Causes.{AllStay};
ghost use Rattle.cer_outside.specs.Content.{HasOpened};
ghost use Rattle.command_base.specs.SourceBytes.{AreFirstOf};
ghost use Rattle.command_base.specs.Ending.{ReadingStops, IsOpening, NotRead, IsAskedFor, cause_of, failed_by};

use super::files::{MOST_READ, read_whole};
use super::{Cause, File};
use cer_base::OrMemory;
use cer_outside::{Host, OpenError, Sink, Source};
use query_engine::Engine;
use std::alloc::Global;
use stream_answers::StreamFault;

/// A call that ended: its cause, the source that failed where reading did, and the engine of a run
/// where all was well.
#[derive(Drop)]
pub struct Stop<S> {
    pub cause: Cause,
    pub failed: Option<S>,
    pub left: Option<Engine>,
}

impl<S> Stop<S> {
    /// With no source that failed, and no engine.
    pub fn of(cause: Cause) -> Stop<S>
        ensures cause { result.cause ≡ cause }
        ensures failed { result.failed ≡ None }
        ensures left { result.left ≡ None }
    {
        Stop {
            cause,
            failed: None,
            left: None,
        }
    }
}

/// A source of what the host has under the name. The host is asked once. An `OpenFault` names its
/// count of faults for the name before and after.
pub fn open<H: Host>(
    alloc: Global,
    host: &mut H,
    file: File,
    name: &str,
) -> Result<H::Src, Stop<H::Src>>
    ensures fresh { IfOk result (λ source. H.Src.faults source ≡ 0) }
    ensures bytes { IfOk result (λ source.
        HasOpened (H.content host.old name.now) (H.Src.left source)) }
    ensures stop { IfErr result (λ stop. NotRead
        (ReadingStops (record { faults = H.Src.faults; left = H.Src.left })
        file (H.content host.old name.now) (H.faults host.old name.now)
        (H.faults host.new name.now))
        name.now (H.faults host.old) (H.faults host.new) stop.cause stop.failed stop.left) }
    ensures opening { IfErr result (λ stop. IsOpening stop.cause) }
    ensures counts { IfOk result (λ source. AllStay (H.faults host.old) (H.faults host.new)) }
    ensures asked { IsAskedFor H.opens H.content name.now host.old host.new }
{
    let before = host.fault_count(name);
    match host.take_file(alloc, name) {
        Ok(source) => Ok(source),
        Err(OpenError::Memory) => Err(Stop::of(Cause::Memory)),
        Err(OpenError::Failed) => {
            let after = host.fault_count(name);
            Err(Stop::of(Cause::OpenFault {
                file,
                before,
                after,
            }))
        }
    }
}

/// The bytes that the host has under the name, at most `MOST_READ` of them. The host is asked once.
pub fn take_whole<H: Host>(
    alloc: Global,
    host: &mut H,
    file: File,
    name: &str,
) -> Result<Vec<u8>, Stop<H::Src>>
    ensures bytes { IfOk result (λ bytes.
        AreFirstOf MOST_READ (H.content host.old name.now) bytes.items) }
    ensures stop { IfErr result (λ stop. NotRead
        (ReadingStops (record { faults = H.Src.faults; left = H.Src.left })
        file (H.content host.old name.now) (H.faults host.old name.now)
        (H.faults host.new name.now))
        name.now (H.faults host.old) (H.faults host.new) stop.cause stop.failed stop.left) }
    ensures counts { IfOk result (λ bytes. AllStay (H.faults host.old) (H.faults host.new)) }
    ensures asked { IsAskedFor H.opens H.content name.now host.old host.new }
{
    let mut source = match open(alloc, host, file, name) {
        Ok(source) => source,
        Err(stop) => return Err(stop),
    };
    match read_whole(alloc, &mut source) {
        Ok(bytes) => Ok(bytes),
        Err(OrMemory::Memory) => Err(Stop::of(Cause::Memory)),
        Err(OrMemory::Fault(_)) => {
            let after = source.fault_count();
            Err(Stop {
                cause: Cause::ReadFault { file, after },
                failed: Some(source),
                left: None,
            })
        }
    }
}

/// How a command over a source ended, by how what it ran over that did. The source stays where it
/// failed; `before` is what the output had counted of faults before.
pub fn stop_of<S: Source + Drop, K: Sink>(
    end: Result<(), OrMemory<StreamFault>>,
    source: S,
    out: &K,
    before: u64,
) -> Stop<S>
    ensures cause { result.cause ≡ cause_of end before (K.faults out.now) (S.faults source) }
    ensures failed { result.failed ≡ failed_by end source }
    ensures none_left { result.left ≡ None }
{
    match end {
        Ok(()) => Stop::of(Cause::Fine),
        Err(OrMemory::Memory) => Stop::of(Cause::Memory),
        Err(OrMemory::Fault(StreamFault::Event { line, fault })) => {
            Stop::of(Cause::Event { line, fault })
        }
        Err(OrMemory::Fault(StreamFault::InputTooLong { taken })) => {
            Stop::of(Cause::InputTooLong { taken })
        }
        Err(OrMemory::Fault(StreamFault::WriteFault)) => {
            let after = out.fault_count();
            Stop::of(Cause::WriteFault { before, after })
        }
        Err(OrMemory::Fault(StreamFault::ReadFault)) => {
            let file = File::Events;
            let after = source.fault_count();
            let failed = Some(source);
            Stop {
                cause: Cause::ReadFault { file, after },
                failed,
                left: None,
            }
        }
    }
}

/// With the engine, where all was well.
pub fn leaving<S>(stop: Stop<S>, engine: Engine) -> Stop<S>
    ensures cause { result.cause ≡ stop.cause }
    ensures failed { result.failed ≡ stop.failed }
    ensures fine { result.cause ≡ Cause.Fine → result.left ≡ Some engine }
    ensures other { (result.cause ≡ Cause.Fine → ⊥) → stop.left ≡ None → result.left ≡ None }
{
    if !is_fine(&stop.cause) {
        return stop;
    }
    Stop {
        cause: stop.cause,
        failed: stop.failed,
        left: Some(engine),
    }
}

/// Whether all was well.
fn is_fine(cause: &Cause) -> bool
    ensures { (result ≡ true) ↔ (cause.now ≡ Cause.Fine) }
{
    matches!(cause, Cause::Fine)
}
