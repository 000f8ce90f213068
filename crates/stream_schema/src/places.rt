//! Where an attribute stands in the events of each type.

ghost use Rattle.std.specs.Prelude.{◌≡◌, map, option_and_then, slice_get, bytes_eq, IfOk};
ghost use Rattle.std.specs.Option.{option_copied};
ghost use Rattle.stream_schema.specs.Names.{attr_index};
ghost use Rattle.stream_schema.specs.Events.{value_in};

use crate::{Attr, Event, Schema, TypeId, Value};
use cer_base::Memory;
use std::alloc::Global;

/// For each type the place of the attribute of this name, where the type has it.
pub fn places_of(alloc: Global, schema: &Schema, name: &str) -> Result<Vec<Option<u64>>, Memory>
    ensures { IfOk result (λ v. v.items ≡ map (λ t. attr_index name.now t.attrs) schema.now.types) }
{
    let mut places = Vec::new(alloc);
    for ty in 0..schema.types() {
        places.push(place_in(schema, ty, name))?;
    }
    Ok(places)
}

/// The event's value at the place that its type has in the table.
pub fn value_in<'e>(places: &[Option<u64>], event: &'e Event) -> Option<&'e Value>
    ensures { option_copied result ≡ value_in places.now event.now }
{
    match places.get(event.ty as usize) {
        Some(Some(place)) => event.values.as_slice().get(*place as usize),
        _ => None,
    }
}

/// The place of the attribute in the type of this number, where there is one.
fn place_in(schema: &Schema, ty: TypeId, name: &str) -> Option<u64>
    ensures { result ≡ option_and_then (λ t. attr_index name.now t.attrs)
        (slice_get schema.now.types ty) }
{
    match schema.attrs(ty) {
        Some(attrs) => match place_among(attrs, name) {
            Some(place) => Some(place as u64),
            None => None,
        },
        None => None,
    }
}

/// The place of the attribute among these.
fn place_among(attrs: &[Attr], name: &str) -> Option<usize>
    ensures { result ≡ attr_index name.now attrs.now }
{
    attrs.iter().position(|attr| is_named(attr, name))
}

/// Whether the attribute has the name.
fn is_named(attr: &Attr, name: &str) -> bool
    ensures { result ≡ bytes_eq attr.now.name name.now }
{
    attr.name.as_str() == name
}
