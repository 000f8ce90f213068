//! One more line of a file, whose event is put into a gate.

ghost use Rattle.std.specs.Prelude.{◌≡◌, ◌+◌, ◌≤◌, ℕ, List, false, Some, Ok, length};
ghost use Rattle.stream_schema.specs.Events.{IsOfSchema};
ghost use Rattle.stream_schema.specs.declared.Event.{Event};
ghost use Rattle.event_reader.specs.Events.{event_of_line};
ghost use Rattle.event_run.specs.Taking.{HasSourceCause};
ghost use Rattle.reorder_gate.specs.Gates.{StandsFor};
ghost use Rattle.command_reorder.specs.Late.{Feed};
ghost use Rattle.command_reorder.specs.Gated.{AfterPut, AfterText, AreOfSchema, HasFed, IsGateOf, TakesRoom};

use cer_base::OrMemory;
use cer_outside::Source;
use event_reader::{EventFault, Lines, Next, read_event};
use event_run::{RunFault, fault_of};
use reorder_gate::{Gate, TooLate};
use std::alloc::Global;
use stream_schema::{Event, Schema};

/// Reads the next line and puts its event, where it has one, into the gate, which is not finished.
/// Answers whether there was a line: `false` at the end of the file. After the end or a fault the
/// reader is not asked again.
pub fn put_line<Q: Source>(
    alloc: Global,
    lines: &mut Lines,
    gate: &mut Gate,
    schema: &Schema,
    source: &mut Q,
) -> Result<bool, OrMemory<RunFault>>
    requires open { lines.old.closed ≡ false }
    requires going { gate.old.is_finished ≡ false }
    requires of_schema { AreOfSchema schema.now gate.old }
    ensures put { (f : Feed) (bytes : List ℕ) (put gone : List (ℕ × Event))
        → IsGateOf f gate.old → f.schema ≡ schema.now → f.most_bytes ≡ lines.old.budget
        → StandsFor gate.old put gone → HasFed f lines.old bytes (Q.left source.old) put
        → AfterPut f lines.new (Q.left source.new) gate.new bytes put gone result }
    ensures clock { (f : Feed) → IsGateOf f gate.old → IsGateOf f gate.new }
    ensures going { gate.new.is_finished ≡ false }
    ensures of_schema { AreOfSchema schema.now gate.new }
    ensures budget { lines.new.budget ≡ lines.old.budget }
    ensures room { TakesRoom lines.old lines.new gate.old gate.new result }
    ensures cause { HasSourceCause (Q.faults source.old) (Q.faults source.new) result }
{
    match lines.next(source) {
        Ok(Next::Line) => {}
        Ok(Next::End) => return Ok(false),
        Err(fault) => return Err(OrMemory::Fault(fault_of(fault))),
    }
    match put_text(alloc, lines, gate, schema) {
        Ok(()) => Ok(true),
        Err(OrMemory::Memory) => Err(OrMemory::Memory),
        Err(OrMemory::Fault(fault)) => {
            let line = lines.number();
            Err(OrMemory::Fault(RunFault::Event { line, fault }))
        }
    }
}

/// Puts the event of the line that the reader gave last, where it has one, into the gate.
fn put_text(
    alloc: Global,
    lines: &Lines,
    gate: &mut Gate,
    schema: &Schema,
) -> Result<(), OrMemory<EventFault>>
    requires going { gate.old.is_finished ≡ false }
    requires of_schema { AreOfSchema schema.now gate.old }
    ensures put { (f : Feed) (put gone : List (ℕ × Event)) → IsGateOf f gate.old
        → f.schema ≡ schema.now → StandsFor gate.old put gone
        → AfterText f lines.now.number lines.now.text gate.new put gone result }
    ensures clock { (f : Feed) → IsGateOf f gate.old → IsGateOf f gate.new }
    ensures going { gate.new.is_finished ≡ false }
    ensures of_schema { AreOfSchema schema.now gate.new }
    ensures buffer { length gate.new.events ≤ length gate.old.events + 1 }
{
    match read_event(alloc, schema, lines.text()) {
        Ok(Some(event)) => put_event(lines.number(), event, gate, schema),
        Ok(None) => Ok(()),
        Err(stop) => Err(stop),
    }
}

/// Puts the event, which the line of this number gave, into the gate.
fn put_event(
    line: u64,
    event: Event,
    gate: &mut Gate,
    schema: &Schema,
) -> Result<(), OrMemory<EventFault>>
    requires going { gate.old.is_finished ≡ false }
    requires of_schema { AreOfSchema schema.now gate.old }
    requires one_of_schema { IsOfSchema schema.now event }
    ensures put { (f : Feed) (text : List ℕ) (put gone : List (ℕ × Event))
        → IsGateOf f gate.old
        → event_of_line f.schema text ≡ Ok (Some event) → StandsFor gate.old put gone
        → AfterText f line text gate.new put gone result }
    ensures clock { (f : Feed) → IsGateOf f gate.old → IsGateOf f gate.new }
    ensures going { gate.new.is_finished ≡ false }
    ensures of_schema { AreOfSchema schema.now gate.new }
    ensures buffer { length gate.new.events ≤ length gate.old.events + 1 }
{
    match gate.put(line, event) {
        Ok(()) => Ok(()),
        Err(OrMemory::Memory) => Err(OrMemory::Memory),
        Err(OrMemory::Fault(late)) => Err(OrMemory::Fault(late_fault(late))),
    }
}

/// The fault of a line whose event comes too late.
fn late_fault(late: TooLate) -> EventFault
    ensures { result ≡ EventFault.TooLate late.high late.now }
{
    EventFault::TooLate {
        high: late.high,
        now: late.now,
    }
}
