//! The numbers of the values that tests compare with, by which an index is parted.
//!
//! What is found here is no promise: it says where buckets begin, and each tells its own numbers.

use crate::parting::{Parting, parting_of};
use crate::rows::{IndexedLeaf, LeafRow};
use cer_base::Memory;
use predicate_bits::checks::MOST_TESTS;
use predicate_bits::spans::number_of;
use query_leaves::Test;
use std::alloc::Global;
use stream_schema::{Attr, Kind, Value};

/// The most attributes of a type among which those with an index are chosen.
const MOST_PLACES: usize = 8;

/// The fewest and the most spans between the least and the greatest number, as powers of two.
const FEWEST_BITS: u32 = 6;

const FEWEST_BITS_OF_TEXTS: u32 = 2;

const MOST_BITS: u32 = 12;

/// The most spans at the coarsest level, as a power of two.
const COARSEST_BITS: u32 = 4;

/// About half as many comparisons as are made, at most, to see which numbers a leaf asks for: where that
/// would take more, fewer of the numbers that it compares with are told apart.
const MOST_COMPARISONS: usize = 32_768;

/// At how many levels the values at a place are parted.
pub const LEVELS: usize = 3;

/// The number without so many of its last digits.
fn without(number: i64, digits: u8) -> i64 {
    let mut left = number;
    for _digit in 0..digits {
        left = left / 10;
    }
    left
}

/// The number with so many zeros after it, or the number that is nearest.
fn with_zeros(number: i64, zeros: u8) -> i64 {
    let mut more = number;
    for _zero in 0..zeros {
        more = more.saturating_mul(10);
    }
    more
}

/// A decimal number of `own` places as one of so many.
fn scaled_to(number: i64, own: u8, places: u8) -> i64 {
    if own < places {
        return with_zeros(number, places.saturating_sub(own));
    }
    without(number, own.saturating_sub(places))
}

/// The number that values of the kind are compared with by the literal.
fn number_as(kind: Kind, literal: &Value) -> Option<i64> {
    match (kind, literal) {
        (Kind::Int, Value::Dec { scaled, places }) => Some(scaled_to(*scaled, *places, 0)),
        (Kind::Dec(places), Value::Int(number)) => Some(scaled_to(*number, 0, places)),
        (
            Kind::Dec(places),
            Value::Dec {
                scaled,
                places: own,
            },
        ) => Some(scaled_to(*scaled, *own, places)),
        _ => number_of(kind, literal),
    }
}

/// What the tests of leaves compare the value at a place with.
#[derive(Drop)]
struct Compared {
    numbers: Vec<i64>,
    /// How many numbers there may be.
    most: usize,
    /// How many comparisons there are, those at other places among them.
    comparisons: usize,
}

/// Puts in the number of the literal, where values of the kind are compared with one and there are not too
/// many.
fn put_number(compared: &mut Compared, kind: Kind, literal: &Value) -> Result<(), Memory> {
    if compared.numbers.len() >= compared.most {
        return Ok(());
    }
    if let Some(number) = number_as(kind, literal) {
        compared.numbers.push(number)?;
    }
    Ok(())
}

/// Puts in what the tests compare the value at the place with, which is of the kind.
#[cycle(put_numbers)]
fn put_all_numbers(
    compared: &mut Compared,
    place: u64,
    kind: Kind,
    tests: &[Test],
) -> Result<(), Memory> {
    for test in tests {
        put_numbers(compared, place, kind, test)?;
    }
    Ok(())
}

/// Puts in what the test compares the value at the place with, which is of the kind.
#[cycle(put_numbers)]
fn put_numbers(compared: &mut Compared, place: u64, kind: Kind, test: &Test) -> Result<(), Memory> {
    match test {
        Test::No => Ok(()),
        Test::Cmp(at, _, literal) => {
            compared.comparisons = compared.comparisons.saturating_add(1);
            if *at != place {
                return Ok(());
            }
            put_number(compared, kind, literal)
        }
        Test::Not(inner) => put_numbers(compared, place, kind, inner),
        Test::All(tests) => put_all_numbers(compared, place, kind, tests),
        Test::Any(tests) => put_all_numbers(compared, place, kind, tests),
    }
}

/// Whether the leaves of the rows have the very same tests in common.
fn are_shared(row: &LeafRow, before: &LeafRow, leaves: &[IndexedLeaf]) -> bool {
    match (
        leaves.get(row.leaf as usize),
        leaves.get(before.leaf as usize),
    ) {
        (Some(leaf), Some(other)) => leaf.tests.is_shared_with(&other.tests),
        _ => false,
    }
}

/// Whether the row's leaf has the very same tests as that of the row before, where there is one.
pub fn is_alike(rows: &[LeafRow], place: usize, leaves: &[IndexedLeaf]) -> bool {
    place > 0 && place < rows.len() && are_shared(&rows[place], &rows[place - 1], leaves)
}

/// Puts in what the tests of the row's leaf compare the value at the place with, which is of the kind: at
/// most `MOST_TESTS` numbers.
fn put_leaf(
    compared: &mut Compared,
    row: &LeafRow,
    leaves: &[IndexedLeaf],
    place: u64,
    kind: Kind,
) -> Result<(), Memory> {
    if let Some(leaf) = leaves.get(row.leaf as usize) {
        compared.most = compared.numbers.len().saturating_add(MOST_TESTS);
        put_all_numbers(compared, place, kind, leaf.tests.as_slice())?;
    }
    Ok(())
}

/// What the tests of the rows' leaves compare the value at the place with, which is of the kind. Tests that
/// leaves of rows behind one another have in common are looked at once.
fn compared_by(
    alloc: Global,
    rows: &[LeafRow],
    leaves: &[IndexedLeaf],
    place: u64,
    kind: Kind,
) -> Result<Compared, Memory> {
    let mut compared = Compared {
        numbers: Vec::new(alloc),
        most: 0,
        comparisons: 0,
    };
    for k in 0..rows.len() {
        if !is_alike(rows, k, leaves) {
            put_leaf(&mut compared, &rows[k], leaves, place, kind)?;
        }
    }
    Ok(compared)
}

/// The numbers up to each of which the row's leaf mostly asks for all numbers or for none, in order.
pub fn ends_of(
    alloc: Global,
    row: &LeafRow,
    leaves: &[IndexedLeaf],
    parting: &Parting,
) -> Result<Vec<i64>, Memory> {
    let mut compared = compared_by(alloc, &[*row], leaves, parting.place, parting.kind)?;
    compared.numbers.as_mut_slice().sort_unstable();
    let numbers = compared.numbers.as_slice();
    let each = (numbers.len().saturating_mul(compared.comparisons)
        / MOST_COMPARISONS).saturating_add(1);
    let mut ends = Vec::with_capacity(alloc, numbers.len().saturating_mul(2))?;
    for number in numbers.iter().step_by(each) {
        ends.push(number.saturating_sub(1))?;
        ends.push(*number)?;
    }
    Ok(ends)
}

/// Puts in the places of the values that the tests compare with something, the first few.
#[cycle(put_places)]
fn put_all_places(places: &mut Vec<u64>, tests: &[Test]) -> Result<(), Memory> {
    for test in tests {
        put_places(places, test)?;
    }
    Ok(())
}

/// Puts in the places of the values that the test compares with something, the first few.
#[cycle(put_places)]
fn put_places(places: &mut Vec<u64>, test: &Test) -> Result<(), Memory> {
    match test {
        Test::No => Ok(()),
        Test::Cmp(place, _, _) => {
            if places.len() < MOST_PLACES && !places.contains(place) {
                places.push(*place)?;
            }
            Ok(())
        }
        Test::Not(inner) => put_places(places, inner),
        Test::All(tests) => put_all_places(places, tests),
        Test::Any(tests) => put_all_places(places, tests),
    }
}

/// The places of the values that the rows' leaves compare with something, the first few.
fn places_of(alloc: Global, rows: &[LeafRow], leaves: &[IndexedLeaf]) -> Result<Vec<u64>, Memory> {
    let mut places = Vec::new(alloc);
    for k in 0..rows.len() {
        if is_alike(rows, k, leaves) {
            continue;
        }
        if let Some(leaf) = leaves.get(rows[k].leaf as usize) {
            put_all_places(&mut places, leaf.tests.as_slice())?;
        }
    }
    Ok(places)
}

/// How many bits tell so many numbers apart.
fn bits_of(count: u64) -> u32 {
    64_u32.saturating_sub(count.leading_zeros())
}

/// How many spans the numbers of values of the kind are parted into, as a power of two, where so many
/// are compared with.
fn bits_for(kind: Kind, count: u64) -> u32 {
    let fewest = match kind {
        Kind::Text => FEWEST_BITS_OF_TEXTS,
        _ => FEWEST_BITS,
    };
    bits_of(count.saturating_mul(2)).max(fewest).min(MOST_BITS)
}

/// How the values at the place are parted at each level: finely, and then more and more coarsely.
fn push_levels(
    partings: &mut Vec<Parting>,
    place: u64,
    kind: Kind,
    numbers: &[i64],
) -> Result<(), Memory> {
    let Some(first) = numbers.first() else {
        return Ok(());
    };
    let mut least = *first;
    let mut greatest = *first;
    for number in numbers {
        least = least.min(*number);
        greatest = greatest.max(*number);
    }
    let most = bits_for(kind, numbers.len() as u64);
    let fewest = most.min(COARSEST_BITS);
    for bits in [most, most.saturating_add(fewest) / 2, fewest] {
        partings.push(parting_of(place, kind, least, greatest, bits))?;
    }
    Ok(())
}

/// How the values at each place that the rows' leaves ask for are parted, at each level, for a type with
/// these attributes.
pub fn partings_of(
    alloc: Global,
    rows: &[LeafRow],
    leaves: &[IndexedLeaf],
    attrs: &[Attr],
) -> Result<Vec<Parting>, Memory> {
    let places = places_of(alloc, rows, leaves)?;
    let mut partings = Vec::new(alloc);
    for place in places.as_slice() {
        if let Some(attr) = attrs.get(*place as usize) {
            let compared = compared_by(alloc, rows, leaves, *place, attr.kind)?;
            push_levels(
                &mut partings,
                *place,
                attr.kind,
                compared.numbers.as_slice(),
            )?;
        }
    }
    Ok(partings)
}
