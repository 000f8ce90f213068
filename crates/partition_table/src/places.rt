//! Keys compared with values that stand at places.

ghost use Rattle.std.specs.Prelude.{◌≡◌, slice_get};
ghost use Rattle.partition_table.specs.Keys.{is_at, are_at};

use stream_schema::{Value, same_value};

/// Whether the value at the place is the same.
fn is_at(value: &Value, place: u64, values: &[Value]) -> bool
    ensures { result ≡ is_at value.now (slice_get values.now place) }
{
    match values.get(place as usize) {
        Some(other) => same_value(value, other),
        None => false,
    }
}

/// Whether the values at the places are those of the key.
pub fn are_at(key: &[Value], places: &[u64], values: &[Value]) -> bool
    ensures { result ≡ are_at key.now places.now values.now }
{
    match (key.split_first(), places.split_first()) {
        (None, None) => true,
        (Some((value, key)), Some((place, places))) => {
            is_at(value, *place, values) && are_at(key, places, values)
        }
        _ => false,
    }
}
