//! Which events a query reads, and their keys.

ghost use Rattle.std.specs.Prelude.{◌≡◌, ℕ, ◌<◌, [], ◌++◌, false, true, Some, None, option_map, option_and_then, take, drop, slice_get, slice_index_or, IfOk, length};
ghost use Rattle.std.specs.Option.{option_copied};
ghost use Rattle.query_state.specs.KeyPlaces.{places_in, values_there, key_there, AreKeyPlaces};

use cel_terms::{Name, Query};
use cer_base::{Listed, Memory};
use partition_table::Key;
use std::alloc::Global;
use stream_schema::{Event, Schema, TypeId, Value, copy_value};

/// The places of a key's attributes in the events of a type.
pub type Places = Listed<u64>;

/// Whether the type of this number is read.
pub fn is_read(table: &[bool], ty: TypeId) -> bool
    ensures { result ≡ slice_index_or table.now ty false }
{
    match table.get(ty as usize) {
        Some(read) => *read,
        None => false,
    }
}

/// Whether both tables mark the same types.
pub fn same_types(one: &[bool], other: &[bool]) -> bool
    ensures { result ≡ true → one.now ≡ other.now }
{
    one == other
}

/// The places of the attributes among those of the type, the first one's first, where it has all.
fn places_in(
    alloc: Global,
    schema: &Schema,
    names: &[Name],
    ty: TypeId,
) -> Result<Option<Vec<u64>>, Memory>
    ensures { IfOk result (λ o. option_map (λ v. v.items) o ≡ places_in schema.now names.now ty) }
{
    let mut places = Vec::new(alloc);
    for name in names {
        match schema.attr(ty, name.text.as_str()) {
            Some(at) => places.push(at.index)?,
            None => return Ok(None),
        }
    }
    Ok(Some(places))
}

/// The places of the key's values, in a list that is kept.
fn key_places_in(
    alloc: Global,
    schema: &Schema,
    names: &[Name],
    ty: TypeId,
) -> Result<Option<Places>, Memory>
    ensures { IfOk result (λ o. o ≡ places_in schema.now names.now ty) }
{
    match places_in(alloc, schema, names, ty)? {
        Some(places) => Ok(Some(Listed::of(places))),
        None => Ok(None),
    }
}

/// For each type, by its number, the places of the query's partition attributes.
pub fn key_places(
    alloc: Global,
    schema: &Schema,
    query: &Query,
) -> Result<Vec<Option<Places>>, Memory>
    ensures { IfOk result (λ v. AreKeyPlaces schema.now query.now v.items) }
{
    let mut table = Vec::new(alloc);
    for ty in 0..schema.types() {
        table.push(key_places_in(alloc, schema, query.partition.as_slice(), ty)?)?;
    }
    Ok(table)
}

/// Whether the query has no partition.
pub fn is_whole(query: &Query) -> bool
    ensures { result ≡ true → query.now.partition ≡ [] }
{
    query.partition.as_slice().is_empty()
}

/// The event's value at the place.
fn value_at(event: &Event, place: u64) -> Option<&Value>
    ensures { option_copied result ≡ slice_get event.now.values place }
{
    event.values.as_slice().get(place as usize)
}

/// The event's values at the places, the first one's first, where it has all.
fn values_of(alloc: Global, places: &[u64], event: &Event) -> Result<Option<Vec<Value>>, Memory>
    ensures { IfOk result (λ o. option_map (λ v. v.items) o
        ≡ values_there places.now event.now.values) }
{
    let mut values = Vec::new(alloc);
    for place in places {
        match value_at(event, *place) {
            Some(value) => values.push(copy_value(alloc, value)?)?,
            None => return Ok(None),
        }
    }
    Ok(Some(values))
}

/// The places of the key's attributes in the events of the type, where it has all.
pub fn places_of(table: &[Option<Places>], ty: TypeId) -> Option<&[u64]>
    ensures { option_copied result ≡ slice_index_or table.now ty None }
{
    match table.get(ty as usize) {
        Some(Some(places)) => Some(places.as_slice()),
        _ => None,
    }
}

/// The event's key, where its type has the attributes.
pub fn key_of(alloc: Global, table: &[Option<Places>], event: &Event) -> Result<Option<Key>, Memory>
    ensures { IfOk result (λ o. o ≡ key_there table.now event.now) }
{
    match table.get(event.ty as usize) {
        Some(Some(places)) => match values_of(alloc, places.as_slice(), event)? {
            Some(values) => Ok(Some(Key::of(Listed::of(values)))),
            None => Ok(None),
        },
        _ => Ok(None),
    }
}
