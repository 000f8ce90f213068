//! The valuations of a formula with their intervals.

ghost use Rattle.std.specs.Prelude.{◌≡◌, IfOk};
ghost use Rattle.cel_terms.specs.MeaningLaws.{stream_of};
ghost use Rattle.cel_terms.specs.Meaning.{meaning};
ghost use Rattle.cel_lists.specs.Valuations.{AreMatchesOf};
ghost use Rattle.cel_lists.specs.Lists.{matches_of, listed_chain, listed_links, listed_choices};

use crate::copies::add_copies;
use crate::filter::all_filtered;
use crate::postfix::after_postfixes;
use crate::sequence::in_sequence;
use crate::single::singles;
use cel_lists::Match;
use cel_terms::{Formula, Link};
use cer_base::{Memory, Pos};
use std::alloc::Global;
use stream_schema::{Event, Schema};

/// The parts one after another.
#[cycle(matches)]
fn chain(
    alloc: Global,
    schema: &Schema,
    events: &[Event],
    positions: &[Pos],
    parts: &[Formula],
) -> Result<Vec<Match>, Memory>
    ensures { IfOk result (λ found. found.items
        ≡ listed_chain schema.now events.now positions.now parts.now) }
{
    let mut found = Vec::new(alloc);
    for (i, part) in parts.iter().enumerate() {
        let next = matches(alloc, schema, events, positions, part)?;
        found = if i == 0 {
            next
        } else {
            in_sequence(alloc, positions, false, found.as_slice(), next.as_slice())?
        };
    }
    Ok(found)
}

/// The links one after another, after what stands before them.
#[cycle(matches)]
fn linked(
    alloc: Global,
    schema: &Schema,
    events: &[Event],
    positions: &[Pos],
    before: Vec<Match>,
    links: &[Link],
) -> Result<Vec<Match>, Memory>
    ensures { IfOk result (λ found. found.items
        ≡ listed_links schema.now events.now positions.now before.items links.now) }
{
    let mut found = before;
    for link in links {
        let next = matches(alloc, schema, events, positions, &link.next)?;
        found = in_sequence(
            alloc,
            positions,
            link.tight,
            found.as_slice(),
            next.as_slice(),
        )?;
    }
    Ok(found)
}

/// Those of each choice.
#[cycle(matches)]
fn either(
    alloc: Global,
    schema: &Schema,
    events: &[Event],
    positions: &[Pos],
    choices: &[Formula],
) -> Result<Vec<Match>, Memory>
    ensures { IfOk result (λ found. found.items
        ≡ listed_choices schema.now events.now positions.now choices.now) }
{
    let mut found = Vec::new(alloc);
    for choice in choices {
        let next = matches(alloc, schema, events, positions, choice)?;
        add_copies(alloc, &mut found, next.as_slice())?;
    }
    Ok(found)
}

/// The matches of the formula.
#[cycle(matches)]
pub(crate) fn matches(
    alloc: Global,
    schema: &Schema,
    events: &[Event],
    positions: &[Pos],
    formula: &Formula,
) -> Result<Vec<Match>, Memory>
    ensures { IfOk result (λ found. found.items
        ≡ matches_of schema.now events.now positions.now formula.now) }
{
    match formula {
        Formula::Of(name) => singles(alloc, schema, events, positions, name.text.as_str()),
        Formula::Chain(parts) => chain(alloc, schema, events, positions, parts),
        Formula::Linked(first, links) => {
            let before = matches(alloc, schema, events, positions, first)?;
            linked(alloc, schema, events, positions, before, links)
        }
        Formula::Either(choices) => either(alloc, schema, events, positions, choices),
        Formula::Post(base, postfixes) => {
            let part = matches(alloc, schema, events, positions, base)?;
            after_postfixes(alloc, events, positions, part, postfixes)
        }
        Formula::Under(base, filters) => {
            let part = matches(alloc, schema, events, positions, base)?;
            all_filtered(alloc, schema, events, part, filters)
        }
    }
}

/// The valuations of the formula, each with its interval, over the events whose substream is the
/// positions: exactly those of its meaning. One may stand in the list more than once.
pub fn valuations(
    alloc: Global,
    schema: &Schema,
    events: &[Event],
    positions: &[Pos],
    formula: &Formula,
) -> Result<Vec<Match>, Memory>
    ensures { IfOk result (λ found. AreMatchesOf
        (meaning (stream_of schema.now events.now positions.now) formula.now) found.items) }
{
    matches(alloc, schema, events, positions, formula)
}
