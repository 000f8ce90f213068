//! Matches one after the other, and again and again.

ghost use Rattle.std.specs.Prelude.{◌≡◌, ◌++◌, IfOk, OnOk};
ghost use Rattle.std.specs.List.{list_any, filter_map};
ghost use Rattle.cel_lists.specs.Lists.{is_between, may_follow, join_if, in_sequence, times, up_to};

use crate::copies::{add_copies, joined};
use cel_lists::Match;
use cer_base::{Memory, Pos};
use std::alloc::Global;

/// Whether some of the positions lies strictly between the two.
fn has_between(positions: &[Pos], from: Pos, to: Pos) -> bool
    ensures { result ≡ list_any (is_between from to) positions.now }
{
    positions.iter().any(|p| from < *p && *p < to)
}

/// Whether the one position may follow the other: later, and where tight with no position of the
/// substream between.
fn may_follow(positions: &[Pos], tight: bool, from: Pos, to: Pos) -> bool
    ensures { result ≡ may_follow positions.now tight from to }
{
    from < to && !(tight && has_between(positions, from, to))
}

/// Puts at the end the match with each of the second that may follow it.
fn add_joined(
    alloc: Global,
    positions: &[Pos],
    tight: bool,
    first: &Match,
    second: &[Match],
    into: &mut Vec<Match>,
) -> Result<(), Memory>
    ensures { OnOk result (into.new.items
        ≡ into.old.items ++ filter_map (join_if positions.now tight first.now) second.now) }
{
    for next in second {
        if may_follow(positions, tight, first.end, next.start) {
            into.push(joined(alloc, first, next)?)?;
        }
    }
    Ok(())
}

/// Each of the first with each of the second that may follow it.
pub fn in_sequence(
    alloc: Global,
    positions: &[Pos],
    tight: bool,
    first: &[Match],
    second: &[Match],
) -> Result<Vec<Match>, Memory>
    ensures { IfOk result (λ found. found.items
        ≡ in_sequence positions.now tight first.now second.now) }
{
    let mut found = Vec::new(alloc);
    for one in first {
        add_joined(alloc, positions, tight, one, second, &mut found)?;
    }
    Ok(found)
}

/// The matches again and again, each after the one before: at most `rounds` times more.
pub fn repetitions(
    alloc: Global,
    positions: &[Pos],
    tight: bool,
    part: &[Match],
    rounds: usize,
) -> Result<Vec<Match>, Memory>
    ensures { IfOk result (λ found. found.items ≡ up_to positions.now tight part.now rounds) }
{
    let mut found = Vec::new(alloc);
    add_copies(alloc, &mut found, part)?;
    let mut last = Vec::new(alloc);
    add_copies(alloc, &mut last, part)?;
    for round in 0..rounds {
        last = in_sequence(alloc, positions, tight, part, last.as_slice())?;
        add_copies(alloc, &mut found, last.as_slice())?;
    }
    Ok(found)
}
