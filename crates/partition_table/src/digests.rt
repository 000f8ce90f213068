//! A number for the values of a key, by which hints and marks stand. Few keys share one.

ghost use Rattle.std.specs.Prelude.{◌≡◌};
ghost use Rattle.partition_table.specs.Digests.{spread, text_number, flag_number, value_number, spread_there, digest, digest_there};

use stream_schema::Value;

/// The number with one more.
#[inline(always)]
fn spread(before: u64, number: u64) -> u64
    ensures { result ≡ spread before number }
{
    before.wrapping_mul(31).wrapping_add(number)
}

fn text_number(bytes: &[u8]) -> u64
    ensures { result ≡ text_number bytes.now }
{
    let mut number: u64 = 0;
    for byte in bytes {
        number = spread(number, u64::from(*byte));
    }
    number
}

fn flag_number(flag: bool) -> u64
    ensures { result ≡ flag_number flag }
{
    if flag { 1 } else { 0 }
}

/// A number for the value, mostly another one for another value.
#[inline(always)]
fn value_number(value: &Value) -> u64
    ensures { result ≡ value_number value.now }
{
    match value {
        Value::Int(n) => n.unsigned_abs(),
        Value::Text(text) => text_number(text.as_str().as_bytes()),
        Value::Flag(flag) => flag_number(*flag),
        Value::Dec { scaled, .. } => scaled.unsigned_abs(),
    }
}

/// The number with the value at the place, where one is there.
#[inline(always)]
fn spread_there(values: &[Value], before: u64, place: u64) -> u64
    ensures { result ≡ spread_there values.now before place }
{
    match values.get(place as usize) {
        Some(value) => spread(before, value_number(value)),
        None => before,
    }
}

/// The digest of the values.
pub fn digest(values: &[Value]) -> u64
    ensures { result ≡ digest values.now }
{
    let mut number: u64 = 0;
    for value in values {
        number = spread(number, value_number(value));
    }
    number
}

/// The digest of the values at the places.
pub fn digest_there(places: &[u64], values: &[Value]) -> u64
    ensures { result ≡ digest_there places.now values.now }
{
    let mut number: u64 = 0;
    for place in places {
        number = spread_there(values, number, *place);
    }
    number
}
