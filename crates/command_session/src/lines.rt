//! One line of a script, carried out.

ghost use Rattle.std.specs.Prelude.{◌≡◌, ◌+◌, ◌^◌, ◌<◌, ◌≤◌, false, IfOk, IfSome, OnOk};
ghost use Rattle.cer_base.specs.Answers.{Gives};
ghost use Rattle.event_reader.specs.Lines.{has_line_feed};
ghost use Rattle.query_engine.specs.Engine.{SameQueries, count_of};
ghost use Rattle.command_session.specs.Commands.{HasEventOf};
ghost use Rattle.command_session.specs.SessionModel.{SessionModel};
ghost use Rattle.command_session.specs.Sessions.{Stands, put_by_in};
ghost use Rattle.command_session.specs.Scripts.{asked_by, command_fault, refusal_fault};
ghost use Rattle.command_session.specs.Playing.{LineEnded, LineMade, LineCosts, NoStepIfRefused, HasLineCause, line_end, line_fault};

use crate::{CommandFault, Refusal, RunFault, ScriptCommand, Session, command_text, read_command};
use cer_base::OrMemory;
use cer_base::steps::Steps;
use cer_outside::Sink;
use event_reader::EventFault;
use std::alloc::Global;
use std::sync::ledger::Ledger;
use stream_answers::StreamFault;
use stream_schema::Schema;

/// Why a line is no command, as the fault of a line.
fn command_fault(fault: CommandFault) -> EventFault
    ensures { result ≡ command_fault fault }
{
    match fault {
        CommandFault::UnknownCommand => EventFault::UnknownCommand,
        CommandFault::Event(fault) => fault,
    }
}

/// Why a command is refused, as the fault of a line.
fn refusal_fault(refusal: Refusal) -> EventFault
    ensures { result ≡ refusal_fault refusal }
{
    match refusal {
        Refusal::TimeBack { query, before, now } => EventFault::TimeBack { query, before, now },
        Refusal::NoQuery { query } => EventFault::NoQuery { query },
        Refusal::NoEventYet => EventFault::NoEventYet,
        Refusal::CursorOpen { cursor } => EventFault::CursorOpen { cursor },
        Refusal::CursorNotOpen { cursor } => EventFault::CursorNotOpen { cursor },
    }
}

/// The command of the line, if it is not empty but for a carriage return.
fn asked_by(
    alloc: Global,
    schema: &Schema,
    line: &[u8],
) -> Result<Option<ScriptCommand>, OrMemory<EventFault>>
    requires { has_line_feed line.now ≡ false }
    ensures asked { Gives (λ found. found) result (asked_by schema.now line.now) }
    ensures of_schema { IfOk result (λ found. IfSome found (HasEventOf schema.now)) }
{
    let text = command_text(line);
    if text.is_empty() {
        return Ok(None);
    }
    match read_command(alloc, schema, text) {
        Ok(command) => Ok(Some(command)),
        Err(OrMemory::Memory) => Err(OrMemory::Memory),
        Err(OrMemory::Fault(fault)) => Err(OrMemory::Fault(command_fault(fault))),
    }
}

/// Why a command was not carried out, or not to its end, at the line of this number.
fn line_end(number: u64, ended: Result<(), RunFault>) -> Result<(), OrMemory<StreamFault>>
    ensures { result ≡ line_end number ended }
{
    match ended {
        Ok(()) => Ok(()),
        Err(RunFault::Refused(refusal)) => Err(OrMemory::Fault(StreamFault::Event {
            line: number,
            fault: refusal_fault(refusal),
        })),
        Err(RunFault::WriteFault) => Err(OrMemory::Fault(StreamFault::WriteFault)),
        Err(RunFault::Memory) => Err(OrMemory::Memory),
    }
}

/// Why the line of this number was not read.
fn line_fault(number: u64, stop: OrMemory<EventFault>) -> OrMemory<StreamFault>
    ensures { result ≡ line_fault number stop }
{
    match stop {
        OrMemory::Memory => OrMemory::Memory,
        OrMemory::Fault(fault) => OrMemory::Fault(StreamFault::Event {
            line: number,
            fault,
        }),
    }
}

/// Carries out the command of the line of this number, from 1, if it has one. The session has taken
/// fewer events than the line's number says.
pub fn play_line<K: Sink, L: Ledger>(
    alloc: Global,
    number: u64,
    line: &[u8],
    session: &mut Session,
    out: &mut K,
    steps: &mut Steps<L>,
) -> Result<(), OrMemory<StreamFault>>
    requires line_feed { has_line_feed line.now ≡ false }
    requires going { session.old.closed ≡ false }
    requires room { count_of session.old.engine + 1 < 2 ^ 64 }
    requires counted { count_of session.old.engine + 1 ≤ number }
    ensures ended { (machine : SessionModel) → Stands session.old machine
        → LineEnded session.old.engine.schema session.old.engine.queries number line.now machine
        session.new (K.taken out.old) (K.taken out.new) result }
    ensures same { SameQueries session.old.engine session.new.engine }
    ensures counted { count_of session.new.engine ≤ number }
    ensures cause { HasLineCause (K.faults out.old) (K.faults out.new) result }
    ensures costs { (machine : SessionModel) → Stands session.old machine
        → LineCosts session.old.engine.schema session.old.engine.queries session.old.engine machine
        (steps.old + put_by_in session.old) (steps.new + put_by_in session.new)
        (asked_by session.old.engine.schema line.now) }
    ensures refused { (machine : SessionModel) → Stands session.old machine
        → NoStepIfRefused steps.old
        steps.new result }
    ensures made { OnOk result (LineMade session.old.engine session.new
        (asked_by session.old.engine.schema line.now)) }
{
    match asked_by(alloc, session.schema(), line) {
        Ok(Some(command)) => line_end(number, session.run(command, out, steps)),
        Ok(None) => Ok(()),
        Err(stop) => Err(line_fault(number, stop)),
    }
}
