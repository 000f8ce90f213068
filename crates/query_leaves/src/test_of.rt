//! The tests of predicates, for the events of one type.

ghost use Rattle.std.specs.Prelude.{◌≡◌, Some, None, true, IfOk, IfSome, map, reverse, slice_get};
ghost use Rattle.std.specs.Option.{option_copied};
ghost use Rattle.stream_schema.specs.Names.{attr_at};
ghost use Rattle.stream_schema.specs.declared.Kind.{Kind};
ghost use Rattle.cel_terms.specs.declared.Pred.{Cmp};
ghost use Rattle.query_leaves.specs.declared.Test.{Cmp as Compared};
ghost use Rattle.query_leaves.specs.Tests.{IsTestOf, AreTestsOf};

use crate::Test;
use cel_terms::{Name, Op, Pred};
use cer_base::Memory;
use std::alloc::Global;
use stream_schema::{Attr, Schema, TypeId, Value, copy_value, same_value};

/// The test of a comparison. Where the type lacks the attribute it holds of no event.
fn comparison(
    alloc: Global,
    schema: &Schema,
    ty: TypeId,
    name: &Name,
    op: Op,
    literal: &Value,
) -> Result<Test, Memory>
    ensures { IfOk result (λ test. IsTestOf schema.now ty (Cmp name.now op literal.now) test) }
{
    match schema.attr(ty, name.text.as_str()) {
        Some(at) => {
            let literal = copy_value(alloc, literal)?;
            Ok(Test::Cmp(at.index, op, literal))
        }
        None => Ok(Test::No),
    }
}

/// The tests of predicates, in order.
#[cycle(test_of)]
fn tests_of(alloc: Global, schema: &Schema, ty: TypeId, preds: &[Pred]) -> Result<Vec<Test>, Memory>
    ensures { IfOk result (λ tests. AreTestsOf schema.now ty preds.now tests.items) }
{
    let mut tests = Vec::new(alloc);
    for pred in preds {
        tests.push(test_of(alloc, schema, ty, pred)?)?;
    }
    Ok(tests)
}

/// The test of a predicate.
#[cycle(test_of)]
fn test_of(alloc: Global, schema: &Schema, ty: TypeId, pred: &Pred) -> Result<Test, Memory>
    ensures { IfOk result (λ test. IsTestOf schema.now ty pred.now test) }
{
    match pred {
        Pred::Cmp(name, op, literal) => comparison(alloc, schema, ty, name, *op, literal),
        Pred::Not(inner) => {
            let test = test_of(alloc, schema, ty, inner)?;
            Ok(Test::Not(Box::new(alloc, test)?))
        }
        Pred::All(preds) => {
            let tests = tests_of(alloc, schema, ty, preds)?;
            Ok(Test::All(tests))
        }
        Pred::Any(preds) => {
            let tests = tests_of(alloc, schema, ty, preds)?;
            Ok(Test::Any(tests))
        }
    }
}

/// The tests of the predicates that are referred to, the last one's first.
pub fn tests_of_all(
    alloc: Global,
    schema: &Schema,
    ty: TypeId,
    preds: &[&Pred],
) -> Result<Vec<Test>, Memory>
    ensures { IfOk result (λ tests.
        AreTestsOf schema.now ty (map (λ p. p.now) (reverse preds.now)) tests.items) }
{
    let mut tests = Vec::new(alloc);
    for k in (0..preds.len()).rev() {
        tests.push(test_of(alloc, schema, ty, preds[k])?)?;
    }
    Ok(tests)
}

/// The attribute at the place.
fn attr_there(attrs: &[Attr], place: u64) -> Option<&Attr>
    ensures { option_copied result ≡ slice_get attrs.now place }
{
    attrs.get(place as usize)
}

/// Whether the attribute at the place has the name.
fn is_named(schema: &Schema, ty: TypeId, place: u64, name: &str) -> bool
    ensures { result ≡ true → (kind : Kind) × (attr_at schema.now ty name.now
        ≡ Some (record { index = place; kind = kind })) }
{
    schema.well_declared();
    let Some(attrs) = schema.attrs(ty) else {
        return false;
    };
    match attr_there(attrs, place) {
        Some(attr) => attr.name.as_str() == name,
        None => false,
    }
}

/// Whether the type lacks the attribute.
fn lacks(schema: &Schema, ty: TypeId, name: &str) -> bool
    ensures { result ≡ true → attr_at schema.now ty name.now ≡ None }
{
    match schema.attr(ty, name) {
        Some(_) => false,
        None => true,
    }
}

/// The place of which the test compares the value so with the literal.
fn compared_place(test: &Test, op: Op, literal: &Value) -> Option<u64>
    ensures { IfSome result (λ place. test.now ≡ Compared place op literal.now) }
{
    match test {
        Test::Cmp(place, by, other) => {
            if *by != op {
                return None;
            }
            if same_value(other, literal) {
                Some(*place)
            } else {
                None
            }
        }
        _ => None,
    }
}

/// Whether the test is that of the comparison.
fn is_comparison(
    schema: &Schema,
    ty: TypeId,
    name: &Name,
    op: Op,
    literal: &Value,
    test: &Test,
) -> bool
    ensures { result ≡ true → IsTestOf schema.now ty (Cmp name.now op literal.now) test.now }
{
    match test {
        Test::No => lacks(schema, ty, name.text.as_str()),
        _ => match compared_place(test, op, literal) {
            Some(place) => is_named(schema, ty, place, name.text.as_str()),
            None => false,
        },
    }
}

/// Whether the tests are those of the predicates, in order.
#[cycle(is_test_of)]
fn are_tests_of(schema: &Schema, ty: TypeId, preds: &[Pred], tests: &[Test]) -> bool
    ensures { result ≡ true → AreTestsOf schema.now ty preds.now tests.now }
{
    if preds.len() != tests.len() {
        return false;
    }
    for k in 0..preds.len() {
        if !is_test_of(schema, ty, &preds[k], &tests[k]) {
            return false;
        }
    }
    true
}

/// Whether the test is that of the predicate.
#[cycle(is_test_of)]
fn is_test_of(schema: &Schema, ty: TypeId, pred: &Pred, test: &Test) -> bool
    ensures { result ≡ true → IsTestOf schema.now ty pred.now test.now }
{
    match pred {
        Pred::Cmp(name, op, literal) => is_comparison(schema, ty, name, *op, literal, test),
        Pred::Not(inner) => match test {
            Test::Not(negated) => is_test_of(schema, ty, inner, negated),
            _ => false,
        },
        Pred::All(preds) => match test {
            Test::All(tests) => are_tests_of(schema, ty, preds, tests),
            _ => false,
        },
        Pred::Any(preds) => match test {
            Test::Any(tests) => are_tests_of(schema, ty, preds, tests),
            _ => false,
        },
    }
}

/// Whether the first predicate's test is the last of the tests: of leaves under the same filters it is
/// mostly that one which differs.
fn is_first_tested(schema: &Schema, ty: TypeId, preds: &[&Pred], tests: &[Test]) -> bool {
    match (preds.first(), tests.last()) {
        (Some(pred), Some(test)) => is_test_of(schema, ty, *pred, test),
        _ => true,
    }
}

/// Whether the tests are those of the predicates that are referred to, the last one's first.
pub fn are_tests_of_all(schema: &Schema, ty: TypeId, preds: &[&Pred], tests: &[Test]) -> bool
    ensures { result ≡ true
        → AreTestsOf schema.now ty (map (λ p. p.now) (reverse preds.now)) tests.now }
{
    if preds.len() != tests.len() {
        return false;
    }
    if !is_first_tested(schema, ty, preds, tests) {
        return false;
    }
    for k in (0..preds.len()).rev() {
        if !is_test_of(schema, ty, preds[k], &tests[tests.len() - 1 - k]) {
            return false;
        }
    }
    true
}
