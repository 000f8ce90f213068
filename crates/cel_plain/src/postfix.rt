//! What postfixes do to matches.

ghost use Rattle.std.specs.Prelude.{◌≡◌, IfOk, map, fold, bytes_eq};
ghost use Rattle.std.specs.List.{list_any};
ghost use Rattle.cel_terms.specs.Meaning.{with_name, only_names, lists_name};
ghost use Rattle.cel_lists.specs.Lists.{change, changed, changed_bound, after_postfix};

use crate::sequence::repetitions;
use cel_lists::{BoundAt, Match};
use cel_terms::{Name, Postfix};
use cer_base::{Listed, Memory, Pos, Text};
use std::alloc::Global;
use stream_schema::Event;

/// Whether one of the names has this text.
#[tactic(auto, using(crate::proofs::Naming::listed_is))]
pub fn lists(listed: &[Name], name: &str) -> bool
    ensures { result ≡ lists_name (map (λ n. n.text) listed.now) name.now }
{
    has_text(listed, name)
}

fn has_text(listed: &[Name], name: &str) -> bool
    ensures { result ≡ list_any (λ n. bytes_eq n.text name.now) listed.now }
{
    listed.iter().any(|n| n.text.as_str() == name)
}

/// The names with one more, where there is any.
fn with_name(alloc: Global, name: &str, names: &[Text]) -> Result<Vec<Text>, Memory>
    ensures { IfOk result (λ after. after.items ≡ with_name name.now names.now) }
{
    let mut after = Vec::new(alloc);
    if names.is_empty() {
        return Ok(after);
    }
    after.push(Text::copy_of(alloc, name)?)?;
    for other in names {
        after.push(Text::copy_of(alloc, other.as_str())?)?;
    }
    Ok(after)
}

/// Those of the names that are listed.
fn only_names(alloc: Global, listed: &[Name], names: &[Text]) -> Result<Vec<Text>, Memory>
    ensures { IfOk result (λ after. after.items ≡ only_names listed.now names.now) }
{
    let mut after = Vec::new(alloc);
    for name in names {
        if lists(listed, name.as_str()) {
            after.push(Text::copy_of(alloc, name.as_str())?)?;
        }
    }
    Ok(after)
}

/// What the postfix makes of the names of a position.
fn changed_names(alloc: Global, postfix: &Postfix, names: &[Text]) -> Result<Vec<Text>, Memory>
    ensures { IfOk result (λ after. after.items ≡ change postfix.now names.now) }
{
    match postfix {
        Postfix::Plus => crate::copies::copy_names(alloc, names),
        Postfix::NextPlus => crate::copies::copy_names(alloc, names),
        Postfix::Named(name) => with_name(alloc, name.text.as_str(), names),
        Postfix::Keep(listed) => only_names(alloc, listed.as_slice(), names),
    }
}

fn changed_bound(alloc: Global, postfix: &Postfix, bound: &BoundAt) -> Result<BoundAt, Memory>
    ensures { IfOk result (λ after. after ≡ changed_bound postfix.now bound.now) }
{
    let names = changed_names(alloc, postfix, bound.names())?;
    Ok(BoundAt::new(bound.position(), names))
}

fn changed_bounds(
    alloc: Global,
    postfix: &Postfix,
    bounds: &[BoundAt],
) -> Result<Vec<BoundAt>, Memory>
    ensures { IfOk result (λ after. after.items ≡ map (changed_bound postfix.now) bounds.now) }
{
    let mut after = Vec::with_capacity(alloc, bounds.len())?;
    for bound in bounds {
        after.push(changed_bound(alloc, postfix, bound)?)?;
    }
    Ok(after)
}

/// The match with the names of each position changed by the postfix.
fn changed_match(alloc: Global, postfix: &Postfix, found: &Match) -> Result<Match, Memory>
    ensures { IfOk result (λ after. after ≡ changed postfix.now found.now) }
{
    let bounds = changed_bounds(alloc, postfix, found.bounds.as_slice())?;
    Ok(Match {
        start: found.start,
        end: found.end,
        bounds: Listed::of(bounds),
    })
}

/// The matches with the names of each position changed by the postfix.
fn changed(alloc: Global, postfix: &Postfix, part: &[Match]) -> Result<Vec<Match>, Memory>
    ensures { IfOk result (λ after. after.items ≡ map (changed postfix.now) part.now) }
{
    let mut after = Vec::with_capacity(alloc, part.len())?;
    for found in part {
        after.push(changed_match(alloc, postfix, found)?)?;
    }
    Ok(after)
}

/// The matches of a formula with the postfix, from those of the formula.
fn after_postfix(
    alloc: Global,
    events: &[Event],
    positions: &[Pos],
    part: &[Match],
    postfix: &Postfix,
) -> Result<Vec<Match>, Memory>
    ensures { IfOk result (λ after. after.items
        ≡ after_postfix events.now positions.now part.now postfix.now) }
{
    match postfix {
        Postfix::Plus => repetitions(alloc, positions, false, part, events.len()),
        Postfix::NextPlus => repetitions(alloc, positions, true, part, events.len()),
        Postfix::Named(_) => changed(alloc, postfix, part),
        Postfix::Keep(_) => changed(alloc, postfix, part),
    }
}

/// The matches of a formula with the postfixes, which apply from the left.
pub fn after_postfixes(
    alloc: Global,
    events: &[Event],
    positions: &[Pos],
    part: Vec<Match>,
    postfixes: &[Postfix],
) -> Result<Vec<Match>, Memory>
    ensures { IfOk result (λ after. after.items
        ≡ fold (after_postfix events.now positions.now) part.items postfixes.now) }
{
    let mut after = part;
    for postfix in postfixes {
        after = after_postfix(alloc, events, positions, after.as_slice(), postfix)?;
    }
    Ok(after)
}
