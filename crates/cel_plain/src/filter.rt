//! Which matches meet a filter.

ghost use Rattle.std.specs.Prelude.{◌≡◌, IfOk, true, fold, slice_get, bytes_eq};
ghost use Rattle.std.specs.List.{list_any, list_all};
ghost use Rattle.std.specs.Option.{option_map_or};
ghost use Rattle.cel_terms.specs.Predicate.{holds};
ghost use Rattle.cel_lists.specs.Lists.{passes, meets, filtered};

use crate::predicate::holds;
use cel_lists::{BoundAt, Match};
use cel_terms::{Filter, Pred};
use cer_base::{Memory, Pos, Text};
use std::alloc::Global;
use stream_schema::{Event, Schema};

/// Whether one of the names is this one.
fn has_name(names: &[Text], name: &str) -> bool
    ensures { result ≡ list_any (λ n. bytes_eq n name.now) names.now }
{
    names.iter().any(|n| n.as_str() == name)
}

/// Whether the predicate holds of the event at the position.
fn holds_at(schema: &Schema, events: &[Event], pred: &Pred, position: Pos) -> bool
    ensures { result ≡ option_map_or (holds schema.now pred.now)
        (slice_get events.now position) true }
{
    match events.get(position as usize) {
        Some(event) => holds(schema, pred, event),
        None => true,
    }
}

/// Whether the predicate holds of the event there, where the name's set has the position.
#[tactic(auto, using(crate::proofs::Naming::lists_is))]
fn passes(schema: &Schema, events: &[Event], name: &str, pred: &Pred, bound: &BoundAt) -> bool
    ensures { result ≡ passes schema.now events.now name.now pred.now bound.now }
{
    !has_name(bound.names(), name) || holds_at(schema, events, pred, bound.position())
}

fn all_pass(schema: &Schema, events: &[Event], name: &str, pred: &Pred, bounds: &[BoundAt]) -> bool
    ensures { result ≡ list_all (passes schema.now events.now name.now pred.now) bounds.now }
{
    for bound in bounds {
        if !passes(schema, events, name, pred, bound) {
            return false;
        }
    }
    true
}

#[cycle(meets)]
fn meets_all(schema: &Schema, events: &[Event], filters: &[Filter], bounds: &[BoundAt]) -> bool
    ensures { result ≡ list_all (λ c. meets schema.now events.now c bounds.now) filters.now }
{
    for filter in filters {
        if !meets(schema, events, filter, bounds) {
            return false;
        }
    }
    true
}

#[cycle(meets)]
fn meets_any(schema: &Schema, events: &[Event], filters: &[Filter], bounds: &[BoundAt]) -> bool
    ensures { result ≡ list_any (λ c. meets schema.now events.now c bounds.now) filters.now }
{
    for filter in filters {
        if meets(schema, events, filter, bounds) {
            return true;
        }
    }
    false
}

/// Whether the valuation meets the filter.
#[cycle(meets)]
fn meets(schema: &Schema, events: &[Event], filter: &Filter, bounds: &[BoundAt]) -> bool
    ensures { result ≡ meets schema.now events.now filter.now bounds.now }
{
    match filter {
        Filter::On(name, pred) => all_pass(schema, events, name.text.as_str(), pred, bounds),
        Filter::All(filters) => meets_all(schema, events, filters, bounds),
        Filter::Any(filters) => meets_any(schema, events, filters, bounds),
    }
}

/// Those of the matches that meet the filter.
fn filtered(
    alloc: Global,
    schema: &Schema,
    events: &[Event],
    part: Vec<Match>,
    filter: &Filter,
) -> Result<Vec<Match>, Memory>
    ensures { IfOk result (λ after. after.items
        ≡ filtered schema.now events.now part.items filter.now) }
{
    let mut after = Vec::new(alloc);
    for found in part.as_slice() {
        if meets(schema, events, filter, found.bounds.as_slice()) {
            after.push(crate::copies::copy_match(alloc, found)?)?;
        }
    }
    Ok(after)
}

/// Those of the matches that meet each of the filters.
pub fn all_filtered(
    alloc: Global,
    schema: &Schema,
    events: &[Event],
    part: Vec<Match>,
    filters: &[Filter],
) -> Result<Vec<Match>, Memory>
    ensures { IfOk result (λ after. after.items
        ≡ fold (filtered schema.now events.now) part.items filters.now) }
{
    let mut after = part;
    for filter in filters {
        after = filtered(alloc, schema, events, after, filter)?;
    }
    Ok(after)
}
