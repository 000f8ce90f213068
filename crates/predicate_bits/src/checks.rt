//! What is left to test of a leaf where an event has a number of the leaf's range: comparisons in one
//! list, without those that the range settles.

ghost use Rattle.std.specs.Prelude.{◌≡◌, Bool, true, false, not, [], Some, IfOk, IfSome, OnOk};
ghost use Rattle.std.specs.List.{list_all};
ghost use Rattle.stream_schema.specs.declared.Event.{Event as EventData};
ghost use Rattle.query_leaves.specs.Shapes.{test_holds, each_holds as tests_hold};
ghost use Rattle.predicate_bits.specs.Checks.{check_holds as holds_so, all_checks_hold, ComesTo, Adds, IsSieve, AreSieves};
ghost use Rattle.predicate_bits.specs.Ranges.{AsksFor};

use crate::holding::{compares_at, each_holds, value_at};
use crate::ranges::{Range, range_of};
use crate::settling::{is_in, settles_comparison};
use cer_base::Memory;
use query_leaves::{Leaf, Test};
use std::alloc::Global;
use stream_schema::{Event, Op, Value, copy_value};

/// A comparison that must hold, or must not.
#[derive(Drop, Debug)]
pub struct Check {
    pub place: u64,
    pub op: Op,
    pub literal: Value,
    pub negated: bool,
}

/// The most checks that are kept of a leaf. Where it asks more, its tests stand for themselves, and
/// other leaves may share these.
const MOST_CHECKS: usize = 64;

/// The most tests of a query's leaves together of which checks are kept. The leaves behind them are tested
/// as they stand, so that memory does not grow as leaves and filters do together.
pub const MOST_TESTS: usize = 1_024;

/// The range that a leaf's tests ask for, and what is left to test where an event has a number of it.
#[derive(Drop, Debug)]
pub struct Sieve {
    pub range: Range,
    /// `None` where it is not known.
    pub checks: Option<Vec<Check>>,
}

/// Puts in the check, unless the range settles it.
fn add(
    checks: &mut Vec<Check>,
    alloc: Global,
    range: &Range,
    place: u64,
    op: Op,
    literal: &Value,
    negated: bool,
) -> Result<(), Memory>
    ensures { OnOk result (Adds range.now (holds_so (record {
      place = place;
      op = op;
      literal = literal.now;
      negated = negated;
    })) checks.old.items checks.new.items) }
{
    if !negated && settles_comparison(range, place, op, literal) {
        return Ok(());
    }
    let literal = copy_value(alloc, literal)?;
    checks.push(Check {
        place,
        op,
        literal,
        negated,
    })?;
    Ok(())
}

/// Puts in that the test does not hold, where it is a comparison. Whether it is.
fn add_negated(
    checks: &mut Vec<Check>,
    alloc: Global,
    range: &Range,
    test: &Test,
) -> Result<bool, Memory>
    ensures { IfOk result (λ taken. taken ≡ true → Adds range.now (λ event.
        not (test_holds test.now event)) checks.old.items checks.new.items) }
{
    match test {
        Test::Cmp(place, op, literal) => {
            add(checks, alloc, range, *place, *op, literal, true)?;
            Ok(true)
        }
        _ => Ok(false),
    }
}

/// Puts in the test, where it is a comparison, or one that must not hold, and there are not too many.
/// Whether it is.
fn add_flat(
    checks: &mut Vec<Check>,
    alloc: Global,
    range: &Range,
    test: &Test,
) -> Result<bool, Memory>
    ensures { IfOk result (λ taken. taken ≡ true → Adds range.now (test_holds test.now)
        checks.old.items checks.new.items) }
{
    if checks.len() >= MOST_CHECKS {
        return Ok(false);
    }
    match test {
        Test::Cmp(place, op, literal) => {
            add(checks, alloc, range, *place, *op, literal, false)?;
            Ok(true)
        }
        Test::Not(inner) => add_negated(checks, alloc, range, inner),
        _ => Ok(false),
    }
}

/// Puts in all of the tests, where each is such a one. Whether they are.
fn add_all(
    checks: &mut Vec<Check>,
    alloc: Global,
    range: &Range,
    tests: &[Test],
) -> Result<bool, Memory>
    ensures { IfOk result (λ taken. taken ≡ true → Adds range.now (λ event.
        list_all (λ t. test_holds t event) tests.now) checks.old.items checks.new.items) }
{
    for test in tests {
        if !add_flat(checks, alloc, range, test)? {
            return Ok(false);
        }
    }
    Ok(true)
}

/// Puts in the test, where it is such a one or joins some. Whether it is.
fn add_joined(
    checks: &mut Vec<Check>,
    alloc: Global,
    range: &Range,
    test: &Test,
) -> Result<bool, Memory>
    ensures { IfOk result (λ taken. taken ≡ true → Adds range.now (test_holds test.now)
        checks.old.items checks.new.items) }
{
    match test {
        Test::All(joined) => add_all(checks, alloc, range, joined.as_slice()),
        _ => add_flat(checks, alloc, range, test),
    }
}

/// What is left to test where an event has a number of the range. `None` where the tests are not all
/// comparisons, some of which must not hold, or join such, and where they are too many.
pub fn checks_of(alloc: Global, range: &Range, tests: &[Test]) -> Result<Option<Vec<Check>>, Memory>
    ensures { IfOk result (λ o. IfSome o (λ checks. ComesTo range.now (tests_hold tests.now)
        (all_checks_hold checks.items))) }
{
    let mut checks = Vec::new(alloc);
    for test in tests {
        if !add_joined(&mut checks, alloc, range, test)? {
            return Ok(None);
        }
    }
    Ok(Some(checks))
}

/// How many tests there are, those that one of them joins counted each.
fn count_of(tests: &[Test]) -> usize {
    let mut count: usize = 0;
    for test in tests {
        count = count.saturating_add(match test {
            Test::All(joined) => joined.len(),
            _ => 1,
        });
    }
    count
}

/// How many tests are left of so many behind those of the leaf.
pub fn left_of(room: usize, leaf: &Leaf) -> usize {
    room.saturating_sub(count_of(leaf.tests.as_slice()))
}

/// What is left to test where an event has a number of the range. `None` where that is not known, or where
/// there are more than so many tests.
pub fn checks_within(
    alloc: Global,
    range: &Range,
    tests: &[Test],
    room: usize,
) -> Result<Option<Vec<Check>>, Memory>
    ensures { IfOk result (λ o. IfSome o (λ checks. ComesTo range.now (tests_hold tests.now)
        (all_checks_hold checks.items))) }
{
    if tests.len() > room || count_of(tests) > room {
        return Ok(None);
    }
    checks_of(alloc, range, tests)
}

/// Whether the check holds of the event.
#[inline(always)]
fn check_holds(check: &Check, event: &Event) -> bool
    ensures { result ≡ holds_so check.now event.now }
{
    let holds = compares_at(event, check.place, check.op, &check.literal);
    if check.negated { !holds } else { holds }
}

/// Whether each of the checks holds of the event.
pub fn checks_hold(checks: &[Check], event: &Event) -> bool
    ensures { result ≡ all_checks_hold checks.now event.now }
{
    for check in checks {
        if !check_holds(check, event) {
            return false;
        }
    }
    true
}

/// Whether the whole number that the event has at the range's place is in the range. `None` where it
/// has none there.
#[inline(always)]
pub fn lies_in(range: &Range, event: &Event) -> Option<bool>
    ensures outside { (holds : EventData → Bool) → AsksFor range.now holds
        → result ≡ Some false → holds event.now ≡ false }
    ensures inside { (holds other : EventData → Bool) → ComesTo range.now holds other
        → result ≡ Some true → holds event.now ≡ other event.now }
{
    match value_at(event.values.as_slice(), range.place as usize) {
        Some(Value::Int(number)) => Some(is_in(range, *number)),
        _ => None,
    }
}

/// Whether each of a leaf's tests holds of the event, by the range that they ask for and by what is left
/// of them there.
#[inline(always)]
pub fn hold_by(range: &Range, checks: &Option<Vec<Check>>, tests: &[Test], event: &Event) -> bool
    requires asks { AsksFor range.now (tests_hold tests.now) }
    requires comes { IfSome checks.now (λ cs. ComesTo range.now (tests_hold tests.now)
        (all_checks_hold cs.items)) }
    ensures { result ≡ tests_hold tests.now event.now }
{
    if let Some(inside) = lies_in(range, event) {
        if !inside {
            return false;
        }
        if let Some(left) = checks {
            return checks_hold(left.as_slice(), event);
        }
    }
    each_holds(tests, event)
}

/// The sieve of a leaf's tests, with checks where there are no more than so many tests.
fn sieve_of(alloc: Global, tests: &[Test], room: usize) -> Result<Sieve, Memory>
    ensures { IfOk result (IsSieve tests.now) }
{
    let range = range_of(tests);
    let checks = checks_within(alloc, &range, tests, room)?;
    Ok(Sieve { range, checks })
}

/// The sieve of each leaf, by the leaf's number. Checks are kept of the first ones, for `MOST_TESTS` tests.
pub fn sieves_of(alloc: Global, list: &[Leaf]) -> Result<Vec<Sieve>, Memory>
    ensures { IfOk result (λ sieves. AreSieves list.now sieves.items) }
{
    let mut sieves = Vec::with_capacity(alloc, list.len())?;
    let mut room = MOST_TESTS;
    for leaf in list {
        sieves.push(sieve_of(alloc, leaf.tests.as_slice(), room)?)?;
        room = left_of(room, leaf);
    }
    Ok(sieves)
}
