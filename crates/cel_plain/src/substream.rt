//! The substream that an event is in.

ghost use Rattle.std.specs.Prelude.{◌≡◌, IfOk, false, length, slice_get};
ghost use Rattle.std.specs.List.{list_all};
ghost use Rattle.std.specs.Option.{option_map_or};
ghost use Rattle.cel_lists.specs.Below.{below, same_attr, shares, shares_at, substream_positions};

use cel_terms::reading::{query_reads, value_of};
use cel_terms::{Name, Query};
use cer_base::{Memory, Pos};
use std::alloc::Global;
use stream_schema::{Event, Schema, same_value};

/// Whether both events have the attribute, with equal values.
fn same_attr(schema: &Schema, a: &Event, b: &Event, name: &Name) -> bool
    ensures { result ≡ same_attr schema.now a.now b.now name.now }
{
    match value_of(schema, a, name.text.as_str()) {
        Some(value) => match value_of(schema, b, name.text.as_str()) {
            Some(other) => same_value(value, other),
            None => false,
        },
        None => false,
    }
}

/// Whether both events have each attribute, with equal values.
fn same_key(schema: &Schema, a: &Event, b: &Event, names: &[Name]) -> bool
    ensures { result ≡ list_all (same_attr schema.now a.now b.now) names.now }
{
    for name in names {
        if !same_attr(schema, a, b, name) {
            return false;
        }
    }
    true
}

/// Whether both events are of the query's types and have equal keys.
fn shares(schema: &Schema, query: &Query, here: &Event, there: &Event) -> bool
    ensures { result ≡ shares schema.now query.now here.now there.now }
{
    query_reads(schema, query, here)
        && query_reads(schema, query, there)
        && same_key(schema, here, there, query.partition.as_slice())
}

fn shares_at(
    schema: &Schema,
    query: &Query,
    events: &[Event],
    there: &Event,
    position: usize,
) -> bool
    ensures { result ≡ shares_at schema.now query.now events.now there.now position }
{
    match events.get(position) {
        Some(here) => shares(schema, query, here, there),
        None => false,
    }
}

fn positions_with(
    alloc: Global,
    schema: &Schema,
    query: &Query,
    events: &[Event],
    there: &Event,
) -> Result<Vec<Pos>, Memory>
    ensures { IfOk result (λ found. found.items
        ≡ below (shares_at schema.now query.now events.now there.now) (length events.now)) }
{
    let mut found = Vec::new(alloc);
    for position in 0..events.len() {
        if shares_at(schema, query, events, there, position) {
            found.push(position as u64)?;
        }
    }
    Ok(found)
}

/// The positions of the substream that the event at the end is in, ascending. There is none where
/// that event has no key.
pub fn positions(
    alloc: Global,
    schema: &Schema,
    query: &Query,
    events: &[Event],
    end: Pos,
) -> Result<Vec<Pos>, Memory>
    ensures { IfOk result (λ found. found.items
        ≡ substream_positions schema.now query.now events.now end) }
{
    match events.get(end as usize) {
        Some(there) => positions_with(alloc, schema, query, events, there),
        None => Ok(Vec::new(alloc)),
    }
}
