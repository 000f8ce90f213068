//! The marks of a valuation.

ghost use Rattle.std.specs.Prelude.{◌≡◌, ◌==◌, ◌||◌, not, IfOk, Some, None, map, nat_lt};
ghost use Rattle.std.specs.List.{list_any, list_all};
ghost use Rattle.cel_terms.specs.Answers.{is_bound};
ghost use Rattle.cel_terms.specs.Meaning.{lists_name};
ghost use Rattle.cel_lists.specs.Below.{is_kept, marks_at, is_mark, marks_of, is_inside, is_contiguous};

use crate::postfix::lists;
use cel_lists::BoundAt;
use cel_terms::{Name, Names};
use cer_base::{Memory, Pos, Text};
use std::alloc::Global;
use stream_schema::Event;

fn some_listed(listed: &[Name], names: &[Text]) -> bool
    ensures { result ≡ list_any (lists_name (map (λ n. n.text) listed.now)) names.now }
{
    names.iter().any(|name| lists(listed, name.as_str()))
}

/// Whether SELECT leaves some name of the position.
fn is_kept(select: &Option<Names>, names: &[Text]) -> bool
    ensures { result ≡ is_kept select.now names.now }
{
    match select {
        Some(listed) => some_listed(listed.as_slice(), names),
        None => !names.is_empty(),
    }
}

fn marks_at(select: &Option<Names>, position: Pos, bound: &BoundAt) -> bool
    ensures { result ≡ marks_at select.now position bound.now }
{
    bound.position() == position && is_kept(select, bound.names())
}

/// Whether the position is in the set of some name that SELECT leaves.
fn is_mark(select: &Option<Names>, bounds: &[BoundAt], position: Pos) -> bool
    ensures { result ≡ is_mark select.now bounds.now position }
{
    bounds.iter().any(|bound| marks_at(select, position, bound))
}

/// The marked positions, ascending.
pub fn marks(
    alloc: Global,
    select: &Option<Names>,
    events: &[Event],
    bounds: &[BoundAt],
) -> Result<Vec<Pos>, Memory>
    ensures { IfOk result (λ found. found.items ≡ marks_of select.now events.now bounds.now) }
{
    let mut found = Vec::new(alloc);
    for position in 0..events.len() {
        if is_mark(select, bounds, position as u64) {
            found.push(position as u64)?;
        }
    }
    Ok(found)
}

fn has_below(marks: &[Pos], position: Pos) -> bool
    ensures { result ≡ list_any (λ m. nat_lt m position) marks.now }
{
    marks.iter().any(|m| *m < position)
}

fn has_above(marks: &[Pos], position: Pos) -> bool
    ensures { result ≡ list_any (λ m. nat_lt position m) marks.now }
{
    marks.iter().any(|m| position < *m)
}

/// Whether there are marks on both sides of the position.
fn is_inside(marks: &[Pos], position: Pos) -> bool
    ensures { result ≡ is_inside marks.now position }
{
    has_below(marks, position) && has_above(marks, position)
}

fn has_mark(marks: &[Pos], position: Pos) -> bool
    ensures { result ≡ list_any (λ m. m == position) marks.now }
{
    marks.iter().any(|m| *m == position)
}

fn is_covered(marks: &[Pos], position: Pos) -> bool
    ensures { result ≡ (not (is_inside marks.now position) || list_any
        (λ m. m == position) marks.now) }
{
    !is_inside(marks, position) || has_mark(marks, position)
}

/// Whether each of the positions between two marks is marked.
pub fn is_contiguous(positions: &[Pos], marks: &[Pos]) -> bool
    ensures { result ≡ is_contiguous positions.now marks.now }
{
    positions.iter().all(|p| is_covered(marks, *p))
}
