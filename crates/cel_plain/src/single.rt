//! The matches of a type: its events.

ghost use Rattle.std.specs.Prelude.{◌≡◌, IfOk, false, slice_get};
ghost use Rattle.std.specs.List.{filter_map};
ghost use Rattle.std.specs.Option.{option_map_or};
ghost use Rattle.cel_lists.specs.Lists.{is_of_type, single, single_at, singles};

use cel_lists::{BoundAt, Match};
use cer_base::{Listed, Memory, Pos, Text};
use std::alloc::Global;
use stream_schema::{Event, Schema};

/// Whether the event's type has the name.
fn is_of_type(schema: &Schema, name: &str, event: &Event) -> bool
    ensures { result ≡ is_of_type schema.now name.now event.now }
{
    match schema.type_name(event.ty) {
        Some(declared) => declared == name,
        None => false,
    }
}

/// Whether there is an event of the type at the position.
fn is_of_type_at(schema: &Schema, events: &[Event], name: &str, position: Pos) -> bool
    ensures { result ≡ option_map_or (is_of_type schema.now name.now)
        (slice_get events.now position) false }
{
    match events.get(position as usize) {
        Some(event) => is_of_type(schema, name, event),
        None => false,
    }
}

/// The match of the event at the position alone.
fn single(alloc: Global, name: &str, position: Pos) -> Result<Match, Memory>
    ensures { IfOk result (λ found. found ≡ single name.now position) }
{
    let mut names = Vec::new(alloc);
    names.push(Text::copy_of(alloc, name)?)?;
    let mut bounds = Vec::new(alloc);
    bounds.push(BoundAt::new(position, names))?;
    Ok(Match {
        start: position,
        end: position,
        bounds: Listed::of(bounds),
    })
}

/// The matches of the events of the type at the positions.
pub fn singles(
    alloc: Global,
    schema: &Schema,
    events: &[Event],
    positions: &[Pos],
    name: &str,
) -> Result<Vec<Match>, Memory>
    ensures { IfOk result (λ found. found.items
        ≡ singles schema.now events.now positions.now name.now) }
{
    let mut found = Vec::new(alloc);
    for position in positions {
        if is_of_type_at(schema, events, name, *position) {
            found.push(single(alloc, name, *position)?)?;
        }
    }
    Ok(found)
}
