//! Which leaves an event meets.

use cer_base::{Listed, Memory};
use predicate_bits::Conditions;
use query_leaves::{Leaf, Test, Tests};
use std::alloc::Global;
use std::test::*;
use stream_schema::{Event, Op, Value};

/// Whether the first attribute is this number.
fn is_number(number: i64) -> Test {
    Test::Cmp(0, Op::Eq, Value::Int(number))
}

/// A leaf of the type that asks for this number, if any.
fn leaf(alloc: Global, ty: u64, number: Option<i64>) -> Result<Leaf, Memory> {
    let mut tests = Vec::new(alloc);
    if let Some(number) = number {
        tests.push(is_number(number))?;
    }
    Ok(Leaf {
        ty,
        tests: Tests::of(alloc, tests)?,
        marked: true,
    })
}

/// So many leaves of the types 0 and 1 in turn: those that `asks` tells ask for the number 1.
fn conditions(alloc: Global, count: usize, asks: &[usize]) -> Result<Conditions, Memory> {
    let mut list = Vec::new(alloc);
    for k in 0..count {
        let number = if asks.contains(&k) { Some(1) } else { None };
        list.push(leaf(alloc, k as u64 % 2, number)?)?;
    }
    Conditions::of(alloc, Listed::of(list))
}

fn event(alloc: Global, ty: u64, number: i64) -> Result<Event, Memory> {
    let mut values = Vec::new(alloc);
    values.push(Value::Int(number))?;
    Ok(Event {
        ty,
        values: Listed::of(values),
    })
}

/// The first eight of the leaves from this one on that can read the event, as digits.
fn shown(
    alloc: Global,
    conditions: &Conditions,
    from: usize,
    event: &Event,
) -> Result<[bool; 8], Memory> {
    let mut bits = conditions.blank(alloc)?;
    conditions.fill(event, &mut bits);
    let mut shown = [false; 8];
    for (k, digit) in shown.iter_mut().enumerate() {
        *digit = bits.contains(from.wrapping_add(k));
    }
    Ok(shown)
}

/// How many leaves there are, which ask for 1, from which leaf on is shown, an event by its type
/// and its number, and which leaves are in the set.
const SETS: &[(usize, [usize; 2], usize, u64, i64, [bool; 8])] = &[
    (
        4,
        [0, 3],
        0,
        0,
        1,
        [true, false, true, false, false, false, false, false],
    ),
    (
        4,
        [0, 3],
        0,
        0,
        2,
        [false, false, true, false, false, false, false, false],
    ),
    (
        4,
        [0, 3],
        0,
        1,
        2,
        [false, true, false, false, false, false, false, false],
    ),
    (
        4,
        [0, 3],
        0,
        1,
        1,
        [false, true, false, true, false, false, false, false],
    ),
    (4, [0, 3], 0, 2, 1, [false; 8]),
    (
        66,
        [64, 65],
        62,
        0,
        1,
        [true, false, true, false, false, false, false, false],
    ),
    (
        66,
        [64, 65],
        62,
        0,
        2,
        [true, false, false, false, false, false, false, false],
    ),
    (
        66,
        [64, 65],
        62,
        1,
        1,
        [false, true, false, true, false, false, false, false],
    ),
];

/// Leaves A, B, A, B, of which the first asks for 1, and the last too: `A,1` can be read by the
/// first and the third, `A,2` by the third alone, `B,2` by the second alone. Past 64 leaves the next
/// word tells. An event of a third type can be read by none.
#[test]
fn leaves_read_events_of_their_type_that_meet_their_tests(rt: HostRuntime) -> Result<(), Memory> {
    let alloc = rt.alloc();
    for &(count, asks, from, ty, number, wanted) in SETS {
        let conditions = conditions(alloc, count, &asks)?;
        let event = event(alloc, ty, number)?;
        assert_eq!(rt; shown(alloc, &conditions, from, &event)?, wanted);
    }
    Ok(())
}
