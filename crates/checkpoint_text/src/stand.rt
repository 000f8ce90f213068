//! Where the lines of a checkpoint stand: what they have told, and what a line more tells.

ghost use Rattle.std.specs.Prelude.{◌≡◌, ◌++◌, ◌∷◌, [], Ok, Err, true, false, OnOk};
ghost use Rattle.cer_base.specs.Answers.{OnFault};
ghost use Rattle.event_reader.specs.Lines.{has_line_feed};
ghost use Rattle.event_reader.specs.Events.{event_of_line};
ghost use Rattle.checkpoint_text.specs.declared.CheckpointFault.TheVariants as wanted;
ghost use Rattle.checkpoint_text.specs.QueryClocks.{some_falls};
ghost use Rattle.checkpoint_text.specs.LastClocks.{last_clocks};
ghost use Rattle.checkpoint_text.specs.Checkpoints.{start, counted, placed, words_after, with_event, after_line};

use crate::clocks::{any_back, next_clocks};
use crate::numbers::{counts_of, position_of};
use crate::{CheckpointFault, EventAt};
use cel_terms::Query;
use cer_base::{OrMemory, Pos};
use event_reader::read_event;
use std::alloc::Global;
use stream_schema::{Event, Schema};

/// The line that must come next.
#[derive(Drop, Clone, Copy, PartialEq, Eq)]
pub enum NextLine {
    Header,
    Counts,
    /// The line of a position, or none where all events were told.
    Position,
    /// The event at this position.
    EventOf(Pos),
}

/// Where the lines stand: what must come next, how many positions and events there are, and the
/// least position that may come.
#[derive(Drop, Clone, Copy, PartialEq, Eq)]
pub struct LineState {
    pub awaited: NextLine,
    pub positions: u64,
    pub count: u64,
    pub least: u64,
}

impl LineState {
    /// Before any line.
    pub fn start() -> LineState
        ensures { result ≡ start }
    {
        LineState {
            awaited: NextLine::Header,
            positions: 0,
            count: 0,
            least: 0,
        }
    }

    fn counted(&self, counts: Option<(u64, u64)>) -> Result<LineState, CheckpointFault>
        ensures { result ≡ counted self.now counts }
    {
        match counts {
            Some((positions, count)) => Ok(LineState {
                awaited: NextLine::Position,
                positions,
                count,
                least: self.least,
            }),
            None => Err(CheckpointFault::BadCount),
        }
    }

    fn placed(&self, position: Option<u64>) -> Result<LineState, CheckpointFault>
        ensures { result ≡ placed self.now position }
    {
        match position {
            Some(n) => {
                if self.least <= n && n < self.positions {
                    Ok(LineState {
                        awaited: NextLine::EventOf(n),
                        positions: self.positions,
                        count: self.count,
                        least: n + 1,
                    })
                } else {
                    Err(CheckpointFault::BadPosition)
                }
            }
            None => Err(CheckpointFault::BadPosition),
        }
    }
}

/// Where the lines stand with the next one, which is no event's, after so many events.
fn after_words(stand: &LineState, count: u64, text: &[u8]) -> Result<LineState, CheckpointFault>
    ensures { result ≡ words_after stand.now stand.now.awaited count text.now }
{
    match stand.awaited {
        NextLine::Header => {
            if text == b"core checkpoint 1".as_slice() {
                Ok(LineState {
                    awaited: NextLine::Counts,
                    ..*stand
                })
            } else {
                Err(CheckpointFault::BadHeader)
            }
        }
        NextLine::Counts => stand.counted(counts_of(text)),
        NextLine::Position => {
            if count == stand.count {
                Err(CheckpointFault::Extra)
            } else {
                stand.placed(position_of(text))
            }
        }
        NextLine::EventOf(_) => Err(CheckpointFault::BadEvent),
    }
}

/// Takes the next line of a text whose lines so far stand so and told these events; the last clocks
/// of the queries along them are these. After a fault nothing is said of the three.
pub fn take_line(
    alloc: Global,
    schema: &Schema,
    queries: &[Query],
    text: &[u8],
    stand: &mut LineState,
    events: &mut Vec<EventAt>,
    lasts: &mut Vec<Option<i128>>,
) -> Result<(), OrMemory<CheckpointFault>>
    requires line_feed { has_line_feed text.now ≡ false }
    requires lasts { lasts.old.items ≡ last_clocks schema.now queries.now events.old.items }
    ensures told { OnOk result (after_line schema.now queries.now
        (record { stand = stand.old; events = events.old.items }) text.now
        ≡ Ok (record { stand = stand.new; events = events.new.items })) }
    ensures lasts { OnOk result
        (lasts.new.items ≡ last_clocks schema.now queries.now events.new.items) }
    ensures refused { OnFault result (λ fault. after_line schema.now queries.now
        (record { stand = stand.old; events = events.old.items }) text.now ≡ Err fault) }
{
    match stand.awaited {
        NextLine::Header => take_words(stand, events.len() as u64, text),
        NextLine::Counts => take_words(stand, events.len() as u64, text),
        NextLine::Position => take_words(stand, events.len() as u64, text),
        NextLine::EventOf(position) => {
            take_event(alloc, schema, queries, text, position, stand, events, lasts)
        }
    }
}

/// Takes a line that is no event's, after so many events.
fn take_words(
    stand: &mut LineState,
    count: u64,
    text: &[u8],
) -> Result<(), OrMemory<CheckpointFault>>
    ensures told { OnOk result (words_after stand.old stand.old.awaited count text.now
        ≡ Ok stand.new) }
    ensures refused { OnFault result (λ fault.
        words_after stand.old stand.old.awaited count text.now ≡ Err fault) }
{
    match after_words(stand, count, text) {
        Ok(next) => {
            *stand = next;
            Ok(())
        }
        Err(fault) => Err(OrMemory::Fault(fault)),
    }
}

/// Takes the line of the event at the position.
fn take_event(
    alloc: Global,
    schema: &Schema,
    queries: &[Query],
    text: &[u8],
    position: Pos,
    stand: &mut LineState,
    events: &mut Vec<EventAt>,
    lasts: &mut Vec<Option<i128>>,
) -> Result<(), OrMemory<CheckpointFault>>
    requires line_feed { has_line_feed text.now ≡ false }
    requires lasts { lasts.old.items ≡ last_clocks schema.now queries.now events.old.items }
    ensures told { OnOk result (with_event schema.now queries.now
        (record { stand = stand.old; events = events.old.items }) position
        (event_of_line schema.now text.now)
        ≡ Ok (record { stand = stand.new; events = events.new.items })) }
    ensures lasts { OnOk result
        (lasts.new.items ≡ last_clocks schema.now queries.now events.new.items) }
    ensures refused { OnFault result (λ fault. with_event schema.now queries.now
        (record { stand = stand.old; events = events.old.items }) position
        (event_of_line schema.now text.now) ≡ Err fault) }
{
    match read_event(alloc, schema, text) {
        Ok(Some(event)) => {
            add_event(alloc, schema, queries, event, position, events, lasts)?;
            stand.awaited = NextLine::Position;
            Ok(())
        }
        Ok(None) | Err(OrMemory::Fault(_)) => Err(OrMemory::Fault(CheckpointFault::BadEvent)),
        Err(OrMemory::Memory) => Err(OrMemory::Memory),
    }
}

/// Puts the event after the others, if no clock falls with it.
#[tactic(auto, using(crate::proofs::Falling::any_back_is, crate::proofs::Falling::next_are, crate::proofs::Falling::lasts_long))]
fn add_event(
    alloc: Global,
    schema: &Schema,
    queries: &[Query],
    event: Event,
    position: Pos,
    events: &mut Vec<EventAt>,
    lasts: &mut Vec<Option<i128>>,
) -> Result<(), OrMemory<CheckpointFault>>
    requires lasts { lasts.old.items ≡ last_clocks schema.now queries.now events.old.items }
    ensures added { OnOk result (events.new.items
        ≡ events.old.items ++ record { position = position; event = event } ∷ []) }
    ensures level { OnOk result (some_falls schema.now queries.now events.old.items
        (record { position = position; event = event }) ≡ false) }
    ensures lasts { OnOk result
        (lasts.new.items ≡ last_clocks schema.now queries.now events.new.items) }
    ensures refused { OnFault result (λ fault. (fault ≡ wanted.BadEvent)
        × (some_falls schema.now queries.now events.old.items
        (record { position = position; event = event }) ≡ true)) }
{
    if any_back(schema, queries, lasts.as_slice(), &event, position) {
        return Err(OrMemory::Fault(CheckpointFault::BadEvent));
    }
    let next = next_clocks(alloc, schema, queries, lasts.as_slice(), &event, position)?;
    events.push(EventAt { position, event })?;
    *lasts = next;
    Ok(())
}
