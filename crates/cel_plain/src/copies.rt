//! Copies of valuations and of their parts.

ghost use Rattle.std.specs.Prelude.{◌≡◌, ◌++◌, IfOk, OnOk};
ghost use Rattle.cel_lists.specs.Lists.{joined};

use cel_lists::{BoundAt, Match};
use cer_base::{Listed, Memory, Text};
use std::alloc::Global;

/// Names of their own with the same texts.
pub fn copy_names(alloc: Global, names: &[Text]) -> Result<Vec<Text>, Memory>
    ensures { IfOk result (λ copy. copy.items ≡ names.now) }
{
    let mut copy = Vec::with_capacity(alloc, names.len())?;
    for name in names {
        copy.push(Text::copy_of(alloc, name.as_str())?)?;
    }
    Ok(copy)
}

fn copy_bound(alloc: Global, bound: &BoundAt) -> Result<BoundAt, Memory>
    ensures { IfOk result (λ copy. copy ≡ bound.now) }
{
    let names = copy_names(alloc, bound.names())?;
    Ok(BoundAt::new(bound.position(), names))
}

/// Puts copies of the bounds at the end.
fn add_bounds(alloc: Global, into: &mut Vec<BoundAt>, bounds: &[BoundAt]) -> Result<(), Memory>
    ensures { OnOk result (into.new.items ≡ into.old.items ++ bounds.now) }
{
    for bound in bounds {
        into.push(copy_bound(alloc, bound)?)?;
    }
    Ok(())
}

/// A match of its own that equals the one given.
pub fn copy_match(alloc: Global, found: &Match) -> Result<Match, Memory>
    ensures { IfOk result (λ copy. copy ≡ found.now) }
{
    let mut bounds = Vec::new(alloc);
    add_bounds(alloc, &mut bounds, found.bounds.as_slice())?;
    Ok(Match {
        start: found.start,
        end: found.end,
        bounds: Listed::of(bounds),
    })
}

/// Puts copies of the matches at the end.
pub fn add_copies(alloc: Global, into: &mut Vec<Match>, found: &[Match]) -> Result<(), Memory>
    ensures { OnOk result (into.new.items ≡ into.old.items ++ found.now) }
{
    for one in found {
        into.push(copy_match(alloc, one)?)?;
    }
    Ok(())
}

/// One after the other: the interval of both, and the bounds of both.
pub fn joined(alloc: Global, first: &Match, second: &Match) -> Result<Match, Memory>
    ensures { IfOk result (λ both. both ≡ joined first.now second.now) }
{
    let mut bounds = Vec::new(alloc);
    add_bounds(alloc, &mut bounds, first.bounds.as_slice())?;
    add_bounds(alloc, &mut bounds, second.bounds.as_slice())?;
    Ok(Match {
        start: first.start,
        end: second.end,
        bounds: Listed::of(bounds),
    })
}
