//! Whether the tests of a leaf hold of an event.

ghost use Rattle.std.specs.Prelude.{◌≡◌};
ghost use Rattle.std.specs.List.{list_all, list_any};
ghost use Rattle.std.specs.Option.{option_copied};
ghost use Rattle.std.specs.Cmp.Lexicographic.{slice_cmp};
ghost use Rattle.std.specs.Ordering.{nat_cmp};
ghost use Rattle.std.specs.Prelude.{slice_get};
ghost use Rattle.stream_schema.specs.Comparing.{meets, value_meets};
ghost use Rattle.query_leaves.specs.declared.Test.{Cmp};
ghost use Rattle.query_leaves.specs.Shapes.{test_holds, each_holds};

use query_leaves::Test;
use std::cmp::Ordering;
use stream_schema::{Event, Op, Value, is_met_by};

/// Whether the order is one that the operator asks for.
#[inline(always)]
fn is_met(op: Op, order: Ordering) -> bool
    ensures { result ≡ meets op order }
{
    match op {
        Op::Eq => order.is_eq(),
        Op::Ne => order.is_ne(),
        Op::Lt => order.is_lt(),
        Op::Le => order.is_le(),
        Op::Gt => order.is_gt(),
        Op::Ge => order.is_ge(),
    }
}

/// Whether the texts compare so. Whether they are equal mostly shows by their lengths.
fn texts_compare(op: Op, text: &str, literal: &str) -> bool
    ensures { result ≡ meets op (slice_cmp nat_cmp text.now literal.now) }
{
    match op {
        Op::Eq => text == literal,
        Op::Ne => text != literal,
        _ => is_met(op, text.cmp(literal)),
    }
}

/// Whether the value compares so with the literal, whole numbers without their places.
pub fn compares(op: Op, value: &Value, literal: &Value) -> bool
    ensures { result ≡ value_meets op value.now literal.now }
{
    match (value, literal) {
        (Value::Text(a), Value::Text(b)) => texts_compare(op, a.as_str(), b.as_str()),
        (Value::Int(a), Value::Int(b)) => is_met(op, a.cmp(b)),
        _ => is_met_by(op, value, literal),
    }
}

/// Whether the value compares so with the literal. Two whole numbers are compared without a call, for
/// callers that know the operator.
#[inline(always)]
pub fn compares_in_place(op: Op, value: &Value, literal: &Value) -> bool
    ensures { result ≡ value_meets op value.now literal.now }
{
    match (value, literal) {
        (Value::Int(a), Value::Int(b)) => is_met(op, a.cmp(b)),
        _ => compares(op, value, literal),
    }
}

/// The value at the place.
#[inline(always)]
pub fn value_at(values: &[Value], place: usize) -> Option<&Value>
    ensures { option_copied result ≡ slice_get values.now place }
{
    values.get(place)
}

/// Whether the value at the place compares so with the literal.
pub fn compares_at(event: &Event, place: u64, op: Op, literal: &Value) -> bool
    ensures { result ≡ test_holds (Cmp place op literal.now) event.now }
{
    match value_at(event.values.as_slice(), place as usize) {
        Some(value) => compares(op, value, literal),
        None => false,
    }
}

#[cycle(holds)]
fn all_hold(tests: &[Test], event: &Event) -> bool
    ensures { result ≡ list_all (λ t. test_holds t event.now) tests.now }
{
    for test in tests {
        if !holds(test, event) {
            return false;
        }
    }
    true
}

#[cycle(holds)]
fn any_holds(tests: &[Test], event: &Event) -> bool
    ensures { result ≡ list_any (λ t. test_holds t event.now) tests.now }
{
    for test in tests {
        if holds(test, event) {
            return true;
        }
    }
    false
}

/// Whether the test holds of the event.
#[cycle(holds)]
fn holds(test: &Test, event: &Event) -> bool
    ensures { result ≡ test_holds test.now event.now }
{
    match test {
        Test::No => false,
        Test::Cmp(place, op, literal) => compares_at(event, *place, *op, literal),
        Test::Not(inner) => !holds(inner, event),
        Test::All(tests) => all_hold(tests, event),
        Test::Any(tests) => any_holds(tests, event),
    }
}

/// Whether the test holds of the event. A comparison is made here.
fn holds_flat(test: &Test, event: &Event) -> bool
    ensures { result ≡ test_holds test.now event.now }
{
    match test {
        Test::Cmp(place, op, literal) => compares_at(event, *place, *op, literal),
        _ => holds(test, event),
    }
}

/// Whether all of the tests hold. Each comparison is made here.
fn all_hold_flat(tests: &[Test], event: &Event) -> bool
    ensures { result ≡ list_all (λ t. test_holds t event.now) tests.now }
{
    for test in tests {
        if !holds_flat(test, event) {
            return false;
        }
    }
    true
}

/// Whether one of the tests holds. Each comparison is made here.
fn any_holds_flat(tests: &[Test], event: &Event) -> bool
    ensures { result ≡ list_any (λ t. test_holds t event.now) tests.now }
{
    for test in tests {
        if holds_flat(test, event) {
            return true;
        }
    }
    false
}

/// Whether the test holds of the event. A comparison, and some that are joined or of which one is
/// enough, are made here.
fn holds_joined(test: &Test, event: &Event) -> bool
    ensures { result ≡ test_holds test.now event.now }
{
    match test {
        Test::All(tests) => all_hold_flat(tests.as_slice(), event),
        Test::Any(tests) => any_holds_flat(tests.as_slice(), event),
        _ => holds_flat(test, event),
    }
}

/// Whether all of the tests hold. Each that is a comparison, joins some, or asks for one of some is
/// tested here.
fn all_hold_joined(tests: &[Test], event: &Event) -> bool
    ensures { result ≡ list_all (λ t. test_holds t event.now) tests.now }
{
    for test in tests {
        if !holds_joined(test, event) {
            return false;
        }
    }
    true
}

/// Whether each of the tests holds of the event. Most are comparisons, join some, or ask for one of
/// some: these are tested without a call of the recursion.
#[inline(never)]
pub fn each_holds(tests: &[Test], event: &Event) -> bool
    ensures { result ≡ each_holds tests.now event.now }
{
    all_hold_joined(tests, event)
}
