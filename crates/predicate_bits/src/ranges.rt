//! Which whole number the tests of a leaf ask for: a quick look before them.

ghost use Rattle.std.specs.Prelude.{◌≡◌, ℤ, ◌≤ℤ◌, Bool, false, true};
ghost use Rattle.std.specs.List.{list_all};
ghost use Rattle.stream_schema.specs.declared.Event.{Event as EventData};
ghost use Rattle.stream_schema.specs.declared.Value.TheVariants as value;
ghost use Rattle.stream_schema.specs.Comparing.{value_meets};
ghost use Rattle.query_leaves.specs.declared.Test.{Cmp};
ghost use Rattle.query_leaves.specs.Shapes.{test_holds, each_holds};
ghost use Rattle.predicate_bits.specs.Ranges.{IsWide, IsIn, Narrows, AsksFor};

use query_leaves::Test;
use stream_schema::{Event, Op, Value};

/// The whole numbers from `low` to `high`, at this place in an event.
#[derive(Drop, Debug, Clone, Copy)]
pub struct Range {
    pub place: u64,
    pub low: i64,
    pub high: i64,
}

/// All whole numbers at the place.
fn whole(place: u64) -> Range
    ensures { (v : ℤ) → IsWide v → IsIn result v }
{
    Range {
        place,
        low: i64::MIN,
        high: i64::MAX,
    }
}

/// No number below it compares so with the literal.
fn low_of(op: Op, literal: i64) -> i64
    ensures { (v : ℤ) → IsWide v → value_meets op (value.Int v) (value.Int literal) ≡ true
        → result ≤ℤ v }
{
    match op {
        Op::Eq => literal,
        Op::Gt => literal.saturating_add(1),
        Op::Ge => literal,
        _ => i64::MIN,
    }
}

/// No number above it compares so with the literal.
fn high_of(op: Op, literal: i64) -> i64
    ensures { (v : ℤ) → IsWide v → value_meets op (value.Int v) (value.Int literal) ≡ true
        → v ≤ℤ result }
{
    match op {
        Op::Eq => literal,
        Op::Lt => literal.saturating_sub(1),
        Op::Le => literal,
        _ => i64::MAX,
    }
}

/// The greater number.
fn greater(a: i64, b: i64) -> i64
    ensures { (v : ℤ) → a ≤ℤ v → b ≤ℤ v → result ≤ℤ v }
{
    if a < b { b } else { a }
}

/// The lesser number.
fn lesser(a: i64, b: i64) -> i64
    ensures { (v : ℤ) → v ≤ℤ a → v ≤ℤ b → v ≤ℤ result }
{
    if b < a { b } else { a }
}

/// What is left of the range where the value at the place compares so with the literal.
fn narrowed_to(range: &Range, place: u64, op: Op, literal: &Value) -> Range
    ensures { Narrows range.now result (test_holds (Cmp place op literal.now)) }
{
    match literal {
        Value::Int(number) => {
            if place != range.place {
                return *range;
            }
            Range {
                place,
                low: greater(range.low, low_of(op, *number)),
                high: lesser(range.high, high_of(op, *number)),
            }
        }
        _ => *range,
    }
}

/// What is left of the range where the test holds.
fn narrowed(range: &Range, test: &Test) -> Range
    ensures { Narrows range.now result (test_holds test.now) }
{
    match test {
        Test::Cmp(place, op, literal) => narrowed_to(range, *place, *op, literal),
        _ => *range,
    }
}

/// What is left of the range where each of the tests holds.
fn narrowed_by(range: &Range, tests: &[Test]) -> Range
    ensures { Narrows range.now result (λ event. list_all (λ t. test_holds t event) tests.now) }
{
    let mut left = *range;
    for test in tests {
        left = narrowed(&left, test);
    }
    left
}

/// The place of the value that the test compares with a whole number, where it does.
fn place_of(test: &Test) -> Option<u64> {
    match test {
        Test::Cmp(place, _, Value::Int(_)) => Some(*place),
        _ => None,
    }
}

/// The place of the first value that one of the tests compares with a whole number, or else 0.
fn first_place(tests: &[Test]) -> u64 {
    for test in tests {
        if let Some(place) = place_of(test) {
            return place;
        }
    }
    0
}

/// The range that the test asks for.
fn range_of_test(test: &Test) -> Range
    ensures { AsksFor result (test_holds test.now) }
{
    match test {
        Test::All(joined) => {
            let tests = joined.as_slice();
            narrowed_by(&whole(first_place(tests)), tests)
        }
        _ => narrowed(&whole(place_of(test).unwrap_or(0)), test),
    }
}

/// The range that the first of the tests asks for.
pub fn range_of(tests: &[Test]) -> Range
    ensures { AsksFor result (each_holds tests.now) }
{
    match tests.first() {
        Some(test) => range_of_test(test),
        None => whole(0),
    }
}

/// Whether the number is neither below `low` nor above `high`: one test for both, which a processor
/// foresees better than two.
#[inline(always)]
fn is_between(low: i64, number: i64, high: i64) -> bool
    ensures { result ≡ false → low ≤ℤ number → number ≤ℤ high → ⊥ }
{
    low.max(number) == number.min(high)
}

/// Whether the event may have a number that is asked for: where it has a whole number there, whether
/// that is in the range.
#[inline(always)]
pub fn may_hold(range: &Range, event: &Event) -> bool
    ensures { (holds : EventData → Bool) → AsksFor range.now holds → result ≡ false
        → holds event.now ≡ false }
{
    match event.values.as_slice().get(range.place as usize) {
        Some(Value::Int(number)) => is_between(range.low, *number, range.high),
        _ => true,
    }
}
