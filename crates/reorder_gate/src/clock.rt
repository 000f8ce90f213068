//! Where the clock of an event is read.

ghost use Rattle.std.specs.Prelude.{◌≡◌, Some};
ghost use Rattle.stream_schema.specs.Names.{attr_at};
ghost use Rattle.reorder_gate.specs.AttributeClock.{is_some_int, clock_fits, clock_in, whole};

use stream_schema::{Event, Kind, Schema, TypeId, Value, value_in};

/// Whether every declared type has an attribute of the name, as a whole number. Takes no memory.
pub fn clock_fits(schema: &Schema, name: &str) -> bool
    ensures { result ≡ clock_fits schema.now name.now }
{
    for ty in 0..schema.types() {
        if !has_clock(schema, ty, name) {
            return false;
        }
    }
    true
}

/// Whether the type has the attribute, as a whole number.
fn has_clock(schema: &Schema, ty: TypeId, name: &str) -> bool
    ensures { result ≡ is_some_int (attr_at schema.now ty name.now) }
{
    match schema.attr(ty, name) {
        Some(attr) => match attr.kind {
            Kind::Int => true,
            _ => false,
        },
        None => false,
    }
}

/// The value as a whole number, 0 where it is none.
fn whole(value: &Value) -> i64
    ensures { result ≡ whole (Some value.now) }
{
    match value {
        Value::Int(n) => *n,
        _ => 0,
    }
}

/// The event's clock by the table.
pub fn clock_in(places: &[Option<u64>], event: &Event) -> i64
    ensures { result ≡ clock_in places.now event.now }
{
    match value_in(places, event) {
        Some(value) => whole(value),
        None => 0,
    }
}
