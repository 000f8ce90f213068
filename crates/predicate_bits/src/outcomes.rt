//! What the tests of a leaf may come to over the events whose value at a place is one of a span.

ghost use Rattle.std.specs.Prelude.{◌≡◌, true, false};
ghost use Rattle.std.specs.List.{list_all, list_any};
ghost use Rattle.stream_schema.specs.declared.Event.{Event as EventData};
ghost use Rattle.query_leaves.specs.declared.Test.{Cmp};
ghost use Rattle.query_leaves.specs.Shapes.{test_holds, each_holds};
ghost use Rattle.predicate_bits.specs.Spans.{allows, IsAt};

use crate::checks::MOST_TESTS;
use crate::spans::{Outcome, Span, comparison_over, opposite, unknown};
use query_leaves::Test;
use stream_schema::{Op, Value};

/// What the comparison may come to where the value at the place is one of the span.
fn outcome_of_comparison(place: u64, span: &Span, at: u64, op: Op, literal: &Value) -> Outcome
    ensures { (event : EventData) → IsAt place span.now event
        → allows result (test_holds (Cmp at op literal.now) event) ≡ true }
{
    if at != place {
        return unknown();
    }
    comparison_over(span, op, literal)
}

/// What all of the tests may come to.
#[cycle(outcome_of)]
fn outcome_of_all(place: u64, span: &Span, tests: &[Test]) -> Outcome
    ensures { (event : EventData) → IsAt place span.now event
        → allows result (list_all (λ t. test_holds t event) tests.now) ≡ true }
{
    let mut all = Outcome {
        may_hold: true,
        may_fail: false,
    };
    for test in tests {
        let one = outcome_of(place, span, test);
        all = Outcome {
            may_hold: all.may_hold & one.may_hold,
            may_fail: all.may_fail | one.may_fail,
        };
    }
    all
}

/// What one of the tests may come to.
#[cycle(outcome_of)]
fn outcome_of_any(place: u64, span: &Span, tests: &[Test]) -> Outcome
    ensures { (event : EventData) → IsAt place span.now event
        → allows result (list_any (λ t. test_holds t event) tests.now) ≡ true }
{
    let mut any = Outcome {
        may_hold: false,
        may_fail: true,
    };
    for test in tests {
        let one = outcome_of(place, span, test);
        any = Outcome {
            may_hold: any.may_hold | one.may_hold,
            may_fail: any.may_fail & one.may_fail,
        };
    }
    any
}

/// What the test may come to where the value at the place is one of the span.
#[cycle(outcome_of)]
fn outcome_of(place: u64, span: &Span, test: &Test) -> Outcome
    ensures { (event : EventData) → IsAt place span.now event
        → allows result (test_holds test.now event) ≡ true }
{
    match test {
        Test::No => Outcome {
            may_hold: false,
            may_fail: true,
        },
        Test::Cmp(at, op, literal) => outcome_of_comparison(place, span, *at, *op, literal),
        Test::Not(inner) => opposite(outcome_of(place, span, inner)),
        Test::All(tests) => outcome_of_all(place, span, tests),
        Test::Any(tests) => outcome_of_any(place, span, tests),
    }
}

/// Whether all of the tests may hold of an event whose value at the place is one of the span.
fn may_all_hold(place: u64, span: &Span, tests: &[Test]) -> bool
    ensures { result ≡ false → (event : EventData) → IsAt place span.now event
        → each_holds tests.now event ≡ false }
{
    for test in tests {
        if !outcome_of(place, span, test).may_hold {
            return false;
        }
    }
    true
}

/// The first `MOST_TESTS` of the tests.
fn first_few(tests: &[Test]) -> &[Test]
    ensures { (event : EventData) → each_holds result.now event ≡ false
        → each_holds tests.now event ≡ false }
{
    if tests.len() <= MOST_TESTS {
        return tests;
    }
    &tests[..MOST_TESTS]
}

/// Whether all of a leaf's tests may hold of an event whose value at the place is one of the span. The first
/// `MOST_TESTS` are looked at.
pub fn may_hold_over(place: u64, span: &Span, tests: &[Test]) -> bool
    ensures { result ≡ false → (event : EventData) → IsAt place span.now event
        → each_holds tests.now event ≡ false }
{
    may_all_hold(place, span, first_few(tests))
}
