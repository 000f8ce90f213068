//! The numbers that fields spell.

ghost use Rattle.std.specs.Prelude.{◌≡◌, ℕ, ◌+◌, ◌*◌, ◌<◌, ◌≤◌, ◌^◌, Some, None, true, false, length, replicate};
ghost use Rattle.std.specs.Option.{SomeIff};
ghost use Rattle.std.specs.List.{position_or_len};
ghost use Rattle.std.specs.Str.{all_ascii_digits};
ghost use Rattle.std.specs.Str.Parse.{digits_value_after, digits_value, without_leading_sign};
ghost use Rattle.event_reader.specs.Values.{is_point, is_decimal, digits_of, signed, scaled};

/// The number that the field spells, times ten to the power of `places`: a sign or none, digits, and
/// then nothing or a point and 1 to `places` digits. `None` where the field is not so, or where the
/// scaled number has not signed 64 bits.
pub fn scaled(places: u8, field: &[u8]) -> Option<i64>
    ensures { result ≡ scaled places field.now }
{
    let minus = matches!(field.first(), Some(b'-'));
    let text = without_sign(field);
    let at = point_at(text);
    let whole = &text[..at];
    let fraction = if at < text.len() {
        &text[at + 1..]
    } else {
        &text[at..]
    };
    let size = magnitude(places as usize, at < text.len(), whole, fraction)?;
    signed(minus, size)
}

/// The field without a sign at its beginning.
pub fn without_sign(field: &[u8]) -> &[u8]
    ensures { result.now ≡ without_leading_sign field.now }
{
    match field.first() {
        Some(b'-' | b'+') => &field[1..],
        _ => field,
    }
}

/// The number that the digits before and after a point spell, times ten to the power of `places`,
/// where it is below 2 to the 64. Without a point nothing is after it.
#[tactic(auto, using(crate::proofs::Decimals::shape_refused, crate::proofs::Decimals::digits_wanted, crate::proofs::Decimals::whole_least, crate::proofs::Decimals::fraction_least, crate::proofs::Decimals::decimal_shape, crate::proofs::Decimals::all_parts))]
fn magnitude(places: usize, point: bool, whole: &[u8], fraction: &[u8]) -> Option<u64>
    requires { point ≡ false → length fraction.now ≡ 0 }
    ensures { SomeIff result ((is_decimal places point whole.now fraction.now ≡ true)
        × (digits_value 10 (digits_of places whole.now fraction.now) < 2 ^ 64))
        (digits_value 10 (digits_of places whole.now fraction.now)) }
{
    if whole.is_empty() || (point && fraction.is_empty()) || fraction.len() > places {
        return None;
    }
    let Some(size) = with_digits(0, whole) else {
        return None;
    };
    let Some(size) = with_digits(size, fraction) else {
        return None;
    };
    with_zeros(size, places - fraction.len())
}

/// The place of the first point, or the text's length.
fn point_at(text: &[u8]) -> usize
    ensures place { result ≡ position_or_len is_point text.now }
    ensures bound { result ≤ length text.now }
{
    for (i, byte) in text.iter().enumerate() {
        if *byte == b'.' {
            return i;
        }
    }
    text.len()
}

/// The number with these digits put after its own, where they are digits and it is below 2 to the
/// 64.
#[tactic(auto, using(crate::proofs::Digits::value_step, crate::proofs::Digits::value_bound, crate::proofs::Digits::digits_step, crate::proofs::Digits::value_end, crate::proofs::Digits::digits_end))]
fn with_digits(size: u64, digits: &[u8]) -> Option<u64>
    ensures { SomeIff result ((all_ascii_digits digits.now ≡ true)
        × (digits_value_after 10 size digits.now < 2 ^ 64))
        (digits_value_after 10 size digits.now) }
{
    let mut sum = size;
    for digit in digits {
        if !digit.is_ascii_digit() {
            return None;
        }
        let Some(tens) = sum.checked_mul(10) else {
            return None;
        };
        let Some(more) = tens.checked_add((*digit - b'0') as u64) else {
            return None;
        };
        sum = more;
    }
    Some(sum)
}

/// The number with so many zeros put after it, where it is below 2 to the 64.
#[tactic(auto, using(crate::proofs::Digits::zeros_step, crate::proofs::Digits::zeros_bound))]
fn with_zeros(size: u64, count: usize) -> Option<u64>
    ensures { SomeIff result (digits_value_after 10 size (replicate count 48) < 2 ^ 64)
        (digits_value_after 10 size (replicate count 48)) }
{
    let mut sum = size;
    for _ in 0..count {
        let Some(tens) = sum.checked_mul(10) else {
            return None;
        };
        sum = tens;
    }
    Some(sum)
}

/// The number of this sign and size, where it has signed 64 bits.
pub fn signed(minus: bool, size: u64) -> Option<i64>
    ensures { result ≡ signed minus size }
{
    if size < 1 << 63 {
        let number = size as i64;
        return Some(if minus { -number } else { number });
    }
    if minus && size == 1 << 63 {
        return Some(i64::MIN);
    }
    None
}
