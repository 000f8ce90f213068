//! Whether a query reads an event, and the event's value of an attribute.

ghost use Rattle.std.specs.Prelude.{◌≡◌, ◌==◌, bytes_eq, slice_get};
ghost use Rattle.std.specs.Option.{option_copied};
ghost use Rattle.std.specs.List.{list_any, position_from};
ghost use Rattle.cel_terms.specs.Predicate.{attr_value};
ghost use Rattle.cel_terms.specs.Answers.{types_of_stream};
ghost use Rattle.cel_terms.specs.EventsRead.{query_reads};

use crate::{Name, Query};
use stream_schema::{Attr, Event, Schema, TypeId, Value};

/// Whether the attribute has the name.
fn is_named(attr: &Attr, name: &str) -> bool
    ensures { result ≡ bytes_eq attr.now.name name.now }
{
    attr.name.as_str() == name
}

/// The place of the attribute of this name among the type's.
fn attr_place(attrs: &[Attr], name: &str) -> Option<usize>
    ensures { result ≡ position_from (λ a. bytes_eq a.name name.now) 0 attrs.now }
{
    attrs.iter().position(|attr| is_named(attr, name))
}

/// The value at the place.
fn value_at(values: &[Value], place: usize) -> Option<&Value>
    ensures { option_copied result ≡ slice_get values.now place }
{
    values.get(place)
}

/// The event's value of the attribute, or `None` where its type lacks it.
pub fn value_of<'e>(schema: &Schema, event: &'e Event, name: &str) -> Option<&'e Value>
    ensures { option_copied result ≡ attr_value schema.now event.now name.now }
{
    match schema.attrs(event.ty) {
        Some(attrs) => match attr_place(attrs, name) {
            Some(place) => value_at(event.values.as_slice(), place),
            None => None,
        },
        None => None,
    }
}

fn has_number(types: &[TypeId], ty: TypeId) -> bool
    ensures { result ≡ list_any (λ t. t == ty) types.now }
{
    types.iter().any(|t| *t == ty)
}

/// Whether the stream of this name has the type.
fn stream_has(schema: &Schema, name: &Name, ty: TypeId) -> bool
    ensures { result ≡ list_any (λ t. t == ty) (types_of_stream schema.now.streams name.now.text) }
{
    match schema.streams(name.text.as_str()) {
        Some(types) => has_number(types.as_slice(), ty),
        None => false,
    }
}

/// Whether some of the streams has the type.
fn some_stream_has(schema: &Schema, names: &[Name], ty: TypeId) -> bool
    ensures { result ≡ list_any (λ n.
        list_any (λ t. t == ty) (types_of_stream schema.now.streams n.text)) names.now }
{
    names.iter().any(|name| stream_has(schema, name, ty))
}

/// Whether one of the query's streams has the event's type.
pub fn query_reads(schema: &Schema, query: &Query, event: &Event) -> bool
    ensures { result ≡ query_reads schema.now query.now event.now }
{
    some_stream_has(schema, query.streams.as_slice(), event.ty)
}
