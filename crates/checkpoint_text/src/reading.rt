//! The history that a text tells.

ghost use Rattle.std.specs.Prelude.{◌≡◌, ◌≤◌, ℕ, List, [], false, length, None, Some, IfOk};
ghost use Rattle.std.specs.List.{AllByRecursion};
ghost use Rattle.stream_schema.specs.Events.{IsOfSchema};
ghost use Rattle.checkpoint_text.specs.declared.history.EventAt.{EventAt};
ghost use Rattle.cer_base.specs.declared.limits.TheConstants as bytes;
ghost use Rattle.event_reader.specs.LineReaders.{HasGiven};
ghost use Rattle.checkpoint_text.specs.LastClocks.{last_clocks};
ghost use Rattle.checkpoint_text.specs.Checkpoints.{at_stop};
ghost use Rattle.checkpoint_text.specs.ReaderAnswers.{IsOfText, IsEnd, EndsAs, HasReadCause, IsSpelled, fault_of};
ghost use Rattle.checkpoint_text.specs.Spelling.{IsHistory};

use crate::clocks::no_clocks;
use crate::stand::{LineState, NextLine, take_line};
use crate::{CheckpointFault, EventAt, History, HistoryFault};
use cel_terms::Query;
use cer_base::limits::MOST_BYTES;
use cer_base::{Listed, Memory, OrMemory};
use cer_outside::Source;
use event_reader::{LineFault, Lines, Next};
use std::alloc::Global;
use stream_schema::Schema;

/// The history that the text of a checkpoint tells.
///
/// - `Bad`: the first line that is refused, and why.
/// - `ReadFault`: the source failed; no line before is refused.
/// - Memory ran out.
///
/// The history is one that a checkpoint may tell: no query's clock falls along its events, and
/// these are of the schema.
#[tactic(auto, using(crate::proofs::ParseState::spelled_is_history))]
pub fn read_checkpoint<Q: Source>(
    alloc: Global,
    schema: &Schema,
    queries: &[Query],
    source: &mut Q,
) -> Result<History, OrMemory<HistoryFault>>
    ensures text { (bytes : List ℕ) → Q.left source.old ≡ Some bytes
        → IsOfText schema.now queries.now bytes (Q.left source.new) result }
    ensures history { IfOk result (IsHistory schema.now queries.now) }
    ensures of_schema { IfOk result (λ history. AllByRecursion (λ e. IsOfSchema schema.now e.event)
        history.events) }
    ensures cause { HasReadCause (Q.faults source.old) (Q.faults source.new) result }
{
    let mut lines = match Lines::new(alloc, MOST_BYTES) {
        Ok(lines) => lines,
        Err(Memory) => return Err(OrMemory::Memory),
    };
    let mut lasts = match no_clocks(alloc, queries) {
        Ok(lasts) => lasts,
        Err(Memory) => return Err(OrMemory::Memory),
    };
    let mut events = Vec::new(alloc);
    match read_on(
        alloc,
        schema,
        queries,
        &mut lines,
        source,
        &mut events,
        &mut lasts,
    ) {
        Ok(positions) => Ok(History {
            positions,
            events: Listed::of(events),
        }),
        Err(stop) => Err(stop),
    }
}

/// Puts the events of all lines one after the other, and says how many positions there are.
fn read_on<Q: Source>(
    alloc: Global,
    schema: &Schema,
    queries: &[Query],
    lines: &mut Lines,
    source: &mut Q,
    events: &mut Vec<EventAt>,
    lasts: &mut Vec<Option<i128>>,
) -> Result<u64, OrMemory<HistoryFault>>
    requires open { lines.old.closed ≡ false }
    requires budget { lines.old.budget ≡ bytes.MOST_BYTES }
    requires first { lines.old.number ≡ 0 }
    requires room { lines.old.room ≤ bytes.MOST_BYTES }
    requires none { events.old.items ≡ [] }
    requires lasts { lasts.old.items ≡ last_clocks schema.now queries.now [] }
    ensures text { (bytes : List ℕ) → HasGiven lines.old bytes (Q.left source.old) []
        → IsEnd schema.now queries.now bytes (Q.left source.new) events.new.items result }
    ensures spelled { IfOk result (λ positions. IsSpelled schema.now queries.now
        (record { positions = positions; events = events.new.items })) }
    ensures cause { HasReadCause (Q.faults source.old) (Q.faults source.new) result }
{
    let mut stand = LineState::start();
    loop {
        match lines.next(source) {
            Ok(Next::Line) => {}
            Ok(Next::End) => return at_end(lines.number(), &stand, events.len() as u64),
            Err(fault) => return Err(OrMemory::Fault(fault_of(lines.number(), fault))),
        }
        match take_line(
            alloc,
            schema,
            queries,
            lines.text(),
            &mut stand,
            events,
            lasts,
        ) {
            Ok(()) => {}
            Err(OrMemory::Memory) => return Err(OrMemory::Memory),
            Err(OrMemory::Fault(fault)) => {
                let line = lines.number();
                return Err(OrMemory::Fault(HistoryFault::Bad { line, fault }));
            }
        }
    }
}

/// How many positions there are, where all was told that was announced in so many lines.
fn at_end(lines: u64, stand: &LineState, count: u64) -> Result<u64, OrMemory<HistoryFault>>
    requires { lines ≤ bytes.MOST_BYTES }
    ensures { (events : List EventAt) → length events ≡ count
        → EndsAs (at_stop lines (record { stand = stand.now; events = events }) None)
        events result }
{
    let line = lines + 1;
    let missing = HistoryFault::Bad {
        line,
        fault: CheckpointFault::Short,
    };
    match stand.awaited {
        NextLine::Position => {
            if count == stand.count {
                Ok(stand.positions)
            } else {
                Err(OrMemory::Fault(missing))
            }
        }
        NextLine::Header => Err(OrMemory::Fault(missing)),
        NextLine::Counts => Err(OrMemory::Fault(missing)),
        NextLine::EventOf(_) => Err(OrMemory::Fault(missing)),
    }
}

/// Why there is no further line after so many.
fn fault_of(lines: u64, fault: LineFault) -> HistoryFault
    requires { lines ≤ bytes.MOST_BYTES }
    ensures { result ≡ fault_of lines fault }
{
    match fault {
        LineFault::ReadFault => HistoryFault::ReadFault,
        LineFault::LineTooLong { line } => HistoryFault::Bad {
            line,
            fault: CheckpointFault::LongLine,
        },
        LineFault::InputTooLong { .. } => HistoryFault::Bad {
            line: lines + 1,
            fault: CheckpointFault::TooLong,
        },
    }
}
