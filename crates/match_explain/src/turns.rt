//! The events of a span, each with the leaves that can read it.

ghost use Rattle.std.specs.Prelude.{◌≡◌, ℕ, ◌<◌, ◌&&◌, IfOk, All, length};
ghost use Rattle.std.specs.List.{AllZip};
ghost use Rattle.cel_terms.specs.Answers.{IsAscending};
ghost use Rattle.cer_base.specs.Bits.{has};
ghost use Rattle.cea_determinise.specs.Runs.{agrees};
ghost use Rattle.cea_determinise.specs.Cea.{IsSet};
ghost use Rattle.query_leaves.specs.Conditions.{leaf_conditions};
ghost use Rattle.match_explain.specs.Searching.{IsTurnAt};

use crate::spans::lists;
use cer_base::bits::Bits;
use cer_base::{Memory, Pos};
use predicate_bits::Conditions;
use std::alloc::Global;
use stream_schema::Event;

/// An event of the span.
#[derive(Drop)]
pub struct Turn {
    pub position: Pos,
    /// The leaves that can read it, and are marked where it is.
    pub readers: Bits,
    pub marked: bool,
}

/// The leaves that can read the event, and are marked or not.
fn readers(
    alloc: Global,
    conditions: &Conditions,
    marked_leaves: &Bits,
    event: &Event,
    marked: bool,
) -> Result<Bits, Memory>
    requires { IsSet (length conditions.now) marked_leaves.now }
    ensures set { IfOk result (IsSet (length conditions.now)) }
    ensures members { IfOk result (λ b. (k : ℕ)
        → has b k
        ≡ (leaf_conditions conditions.now event.now k && agrees marked (has marked_leaves.now k))) }
{
    let mut readers = conditions.blank(alloc)?;
    conditions.fill(event, &mut readers);
    if marked {
        readers.intersect(marked_leaves);
    } else {
        readers.subtract(marked_leaves);
    }
    Ok(readers)
}

/// The turn of the event at the position.
fn turn_at(
    alloc: Global,
    conditions: &Conditions,
    marked_leaves: &Bits,
    events: &[Event],
    position: Pos,
    marks: &[Pos],
) -> Result<Turn, Memory>
    requires marked { IsSet (length conditions.now) marked_leaves.now }
    requires there { position < length events.now }
    requires ascending { IsAscending marks.now }
    ensures { IfOk result (IsTurnAt conditions.now (has marked_leaves.now)
        (length conditions.now) events.now marks.now position) }
{
    let marked = lists(marks, position);
    let event = &events[position as usize];
    let readers = readers(alloc, conditions, marked_leaves, event, marked)?;
    Ok(Turn {
        position,
        readers,
        marked,
    })
}

/// The turns of the span, whose positions are those of events.
pub fn turns_of(
    alloc: Global,
    conditions: &Conditions,
    marked_leaves: &Bits,
    events: &[Event],
    span: &[Pos],
    marks: &[Pos],
) -> Result<Vec<Turn>, Memory>
    requires marked { IsSet (length conditions.now) marked_leaves.now }
    requires there { All (λ p. p < length events.now) span.now }
    requires ascending { IsAscending marks.now }
    ensures { IfOk result (λ turns. AllZip (IsTurnAt conditions.now
        (has marked_leaves.now) (length conditions.now) events.now marks.now)
        span.now turns.items) }
{
    let mut turns = Vec::new(alloc);
    for position in span {
        let turn = turn_at(alloc, conditions, marked_leaves, events, *position, marks)?;
        turns.push(turn)?;
    }
    Ok(turns)
}
