//! The leaf of an occurrence.

ghost use Rattle.std.specs.Prelude.{◌≡◌, IfOk, IfSome, map, reverse};
ghost use Rattle.query_leaves.specs.Tests.{IsMadeOf, HoldNever, AreTestsOf};

use crate::occurrence::Occurrence;
use crate::test_of::{are_tests_of_all, tests_of_all};
use crate::{Leaf, Test, Tests};
use cel_terms::Pred;
use cer_base::Memory;
use std::alloc::Global;
use stream_schema::{Schema, TypeId};

/// How many leaves before a new one are looked at for tests that it may share.
const LOOKED_AT: usize = 8;

/// Tests that hold of no event.
fn no_tests(alloc: Global) -> Result<Tests, Memory>
    ensures { IfOk result HoldNever }
{
    let mut tests = Vec::new(alloc);
    tests.push(Test::No)?;
    Tests::of(alloc, tests)
}

/// The tests of one of the last of the leaves, where they are those of the predicates for the type, of
/// which the last one's come first.
fn tests_before<'l>(
    schema: &Schema,
    ty: TypeId,
    preds: &[&Pred],
    leaves: &'l [Leaf],
) -> Option<&'l Tests>
    ensures { IfSome result (λ tests.
        AreTestsOf schema.now ty (map (λ p. p.now) (reverse preds.now)) tests.now) }
{
    for back in 0..leaves.len().min(LOOKED_AT) {
        let tests = &leaves[leaves.len() - 1 - back].tests;
        if are_tests_of_all(schema, ty, preds, tests.as_slice()) {
            return Some(tests);
        }
    }
    None
}

/// The tests of the predicates for the type, the last one's first. Where one of the last of the leaves
/// has the same ones it shares them.
fn tests_for(
    alloc: Global,
    schema: &Schema,
    ty: TypeId,
    preds: &[&Pred],
    leaves: &[Leaf],
) -> Result<Tests, Memory>
    ensures { IfOk result (AreTestsOf schema.now ty (map (λ p. p.now) (reverse preds.now))) }
{
    match tests_before(schema, ty, preds, leaves) {
        Some(tests) => tests.share(),
        None => Tests::of(alloc, tests_of_all(alloc, schema, ty, preds)?),
    }
}

/// The leaf of the occurrence, which comes after these leaves. Where its type is not declared it reads
/// no event.
pub fn leaf_of(
    alloc: Global,
    schema: &Schema,
    occurrence: &Occurrence,
    leaves: &[Leaf],
) -> Result<Leaf, Memory>
    ensures { IfOk result (λ l. IsMadeOf schema.now occurrence.now l) }
{
    let marked = occurrence.is_bound();
    match schema.type_of(occurrence.ty()) {
        Some(ty) => {
            let tests = tests_for(alloc, schema, ty, occurrence.tests(), leaves)?;
            Ok(Leaf { ty, tests, marked })
        }
        None => {
            let tests = no_tests(alloc)?;
            Ok(Leaf {
                ty: 0,
                tests,
                marked,
            })
        }
    }
}
