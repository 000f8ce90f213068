//! How the numbers of an attribute's values are parted into spans.
//!
//! How they are parted is no promise: a bucket tells its own numbers, and an event whose number is not
//! among them is held against all rows.

use stream_schema::Kind;

/// The numbers of the values at a place, parted into spans of one length. The first has all numbers below
/// the least one that is asked for, the last all that lie above the greatest.
#[derive(Drop, Debug, Clone, Copy)]
pub struct Parting {
    /// The place of the values in an event.
    pub place: u64,
    /// The kind of the values.
    pub kind: Kind,
    /// A number above the base is in the span that its distance from it tells without the last `shift`
    /// bits, each other one in the first.
    pub base: i64,
    pub shift: u32,
    /// How many spans there are.
    pub count: u64,
}

/// How the numbers are parted where those that are asked for are from the least to the greatest, into
/// spans of which at most two to the power of `bits` lie between these.
pub fn parting_of(place: u64, kind: Kind, least: i64, greatest: i64, bits: u32) -> Parting {
    let length = greatest.saturating_sub(least).unsigned_abs();
    let shift = (64_u32.saturating_sub(bits)).saturating_sub(length.leading_zeros());
    let first = i64::try_from(1_u64.wrapping_shl(shift)).unwrap_or(i64::MAX);
    let base = least.saturating_sub(first);
    Parting {
        place,
        kind,
        base,
        shift,
        count: greatest
            .abs_diff(base)
            .wrapping_shr(shift)
            .saturating_add(2),
    }
}

/// The number that is so many spans above the base.
fn start(parting: &Parting, span: u64) -> i64 {
    let above = span.wrapping_shl(parting.shift);
    match i64::try_from(above) {
        Ok(distance) => parting.base.saturating_add(distance),
        Err(_) => i64::MAX,
    }
}

/// The first number of the span.
pub fn low_of(parting: &Parting, span: u64) -> i64 {
    if span == 0 {
        return i64::MIN;
    }
    start(parting, span)
}

/// The last number of the span.
pub fn high_of(parting: &Parting, span: u64) -> i64 {
    let next = span.saturating_add(1);
    if next >= parting.count {
        return i64::MAX;
    }
    start(parting, next).saturating_sub(1)
}

/// The number of the span where the number may be found, of so many spans.
#[inline(always)]
pub fn span_of(base: i64, shift: u32, count: usize, number: i64) -> usize {
    if number <= base {
        return 0;
    }
    let above = number.abs_diff(base);
    let last = count.saturating_sub(1);
    last.min(above.wrapping_shr(shift) as usize)
}

/// The number of the parting's span where the number may be found.
#[inline(always)]
pub fn span_at(parting: &Parting, number: i64) -> u64 {
    span_of(parting.base, parting.shift, parting.count as usize, number) as u64
}
