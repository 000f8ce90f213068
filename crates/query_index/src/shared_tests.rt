//! Rows whose leaves have tests in common, of which each is then tested once for an event.
//!
//! Rows that stand behind one another make a run, as long as their leaves ask for at most 64 different
//! tests. The tests of a run have numbers from 0, and each row has a word whose bits are the numbers of
//! those that its leaf asks for.

ghost use Rattle.std.specs.Prelude.{◌≡◌, ℕ, ◌<◌, ◌≤◌, ◌==◌, ◌||◌, true, false, List, [], ◌∷◌, ◌++◌, Some, length, take, slice_get, slice_index_or, IfOk, IfSome, OnOk};
ghost use Rattle.std.specs.Option.{option_copied};
ghost use Rattle.cer_base.specs.Bits.{bit};
ghost use Rattle.stream_schema.specs.declared.Event.{Event as EventData};
ghost use Rattle.query_leaves.specs.Shapes.{test_holds};
ghost use Rattle.query_leaves.specs.declared.Test.{Cmp, No};
ghost use Rattle.query_index.specs.declared.rows.LeafRow.{LeafRow as RowData};
ghost use Rattle.query_index.specs.declared.rows.IndexedLeaf.{IndexedLeaf as IndexedLeafData};
ghost use Rattle.query_index.specs.SharedTests.{one_holds, HoldsAlike, HoldAlike, IsTestAt, HaveGrown, IsMask, AreSharing, HasFailing, IsMet, HasOneFailing};

use crate::rows::{IndexedLeaf, LeafRow};
use cer_base::Memory;
use predicate_bits::holding::each_holds;
use query_leaves::{Test, Tests};
use std::alloc::Global;
use std::slice;
use stream_schema::{Event, Op, Value, same_value};

/// The most different tests of a run.
pub const MOST_SHARED: usize = 64;

/// One of the tests of a leaf.
#[derive(Drop)]
pub struct SharedTest {
    pub tests: Tests,
    /// Its place among these, from 0.
    pub place: usize,
}

/// What is looked at of a row in a run.
#[derive(Drop, Clone, Copy)]
pub struct SharingRow {
    /// The numbers of its leaf's tests among those of the run, as bits.
    pub mask: u64,
    /// The row's `waits`.
    pub waits: u64,
    /// The number of the leaf's query, from 0.
    pub query: u64,
    /// The leaf's own number among those of its query, from 0.
    pub number: u64,
}

/// The different tests of a run, and its rows.
#[derive(Drop)]
pub struct SharedTests {
    pub tests: Vec<SharedTest>,
    pub rows: Vec<SharingRow>,
}

/// A run with no rows.
pub fn nothing_shared(alloc: Global) -> SharedTests
    ensures tests { result.tests.items ≡ [] }
    ensures rows { result.rows.items ≡ [] }
{
    SharedTests {
        tests: Vec::new(alloc),
        rows: Vec::new(alloc),
    }
}

/// Whether the test is this comparison.
fn is_comparison(test: &Test, place: u64, op: Op, literal: &Value) -> bool
    ensures { result ≡ true → test.now ≡ Cmp place op literal.now }
{
    match test {
        Test::Cmp(at, by, value) => {
            if *at != place || *by != op {
                return false;
            }
            if same_value(value, literal) {
                return true;
            }
            false
        }
        _ => false,
    }
}

/// Whether the tests are the same ones, in order.
#[cycle(is_same)]
fn are_same(tests: &[Test], others: &[Test]) -> bool
    ensures { result ≡ true → HoldAlike tests.now others.now }
{
    if tests.len() != others.len() {
        return false;
    }
    for k in 0..tests.len() {
        if !is_same(&tests[k], &others[k]) {
            return false;
        }
    }
    true
}

/// Whether the two are one test, so that both hold of the same events.
#[cycle(is_same)]
fn is_same(test: &Test, other: &Test) -> bool
    ensures { result ≡ true → HoldsAlike test.now other.now }
{
    match test {
        Test::No => false,
        Test::Cmp(place, op, literal) => is_comparison(other, *place, *op, literal),
        Test::Not(inner) => match other {
            Test::Not(negated) => is_same(inner, negated),
            _ => false,
        },
        Test::All(tests) => match other {
            Test::All(others) => are_same(tests, others),
            _ => false,
        },
        Test::Any(tests) => match other {
            Test::Any(others) => are_same(tests, others),
            _ => false,
        },
    }
}

/// The test that is shared.
fn test_of(shared: &SharedTest) -> Option<&Test>
    ensures { option_copied result ≡ slice_get shared.now.tests shared.now.place }
{
    shared.tests.as_slice().get(shared.place)
}

/// Whether the test that is shared is this one.
fn is_test(shared: &SharedTest, test: &Test) -> bool
    ensures { result ≡ true → (event : EventData) → one_holds shared.now event
        ≡ test_holds test.now event }
{
    match test_of(shared) {
        Some(own) => is_same(own, test),
        None => false,
    }
}

/// The number of the test among those of the run.
fn number_of(shared: &[SharedTest], test: &Test) -> Option<usize>
    ensures { IfSome result (λ k. IsTestAt shared.now k test.now) }
{
    for k in 0..shared.len().min(MOST_SHARED) {
        if is_test(&shared[k], test) {
            return Some(k);
        }
    }
    None
}

/// Puts in the test at the place of the leaf's tests, where there is room for it. Its number.
fn put_test(
    shared: &mut Vec<SharedTest>,
    tests: &Tests,
    place: usize,
) -> Result<Option<usize>, Memory>
    ensures grown { OnOk result (HaveGrown shared.old.items shared.new.items) }
    ensures number { IfOk result (λ o. IfSome o (λ k. IsTestAt shared.new.items k
        (slice_index_or tests.now place No))) }
{
    let number = shared.len();
    if number >= MOST_SHARED {
        return Ok(None);
    }
    let tests = tests.share()?;
    shared.push(SharedTest { tests, place })?;
    Ok(Some(number))
}

/// The number of the test at the place of the leaf's tests, which is put in where it is not there yet.
/// `None` where there is no room for it.
fn number_for(
    shared: &mut Vec<SharedTest>,
    tests: &Tests,
    place: usize,
) -> Result<Option<usize>, Memory>
    requires { place < length tests.now }
    ensures grown { OnOk result (HaveGrown shared.old.items shared.new.items) }
    ensures number { IfOk result (λ o. IfSome o (λ k. IsTestAt shared.new.items k
        (slice_index_or tests.now place No))) }
{
    match number_of(shared.as_slice(), &tests.as_slice()[place]) {
        Some(number) => Ok(Some(number)),
        None => put_test(shared, tests, place),
    }
}

/// The word with the bit of this number too.
fn with_bit(word: u64, number: usize) -> u64
    requires { number < 64 }
    ensures { (k : ℕ) → bit result k ≡ (k == number) || bit word k }
{
    word | (1 << number)
}

/// The numbers of the leaf's tests among those of the run, as bits; those that were not there are put in.
/// `None` where there is no room for them all.
fn mask_of(shared: &mut Vec<SharedTest>, tests: &Tests) -> Result<Option<u64>, Memory>
    ensures grown { OnOk result (HaveGrown shared.old.items shared.new.items) }
    ensures mask { IfOk result (λ o. IfSome o (λ mask. IsMask shared.new.items mask tests.now)) }
{
    let count = tests.as_slice().len();
    if count > MOST_SHARED {
        return Ok(None);
    }
    let mut mask = 0;
    for place in 0..count {
        match number_for(shared, tests, place)? {
            Some(number) => {
                mask = with_bit(mask, number);
            }
            None => return Ok(None),
        }
    }
    Ok(Some(mask))
}

/// The leaf of this number.
fn leaf_at(leaves: &[IndexedLeaf], number: u64) -> Option<&IndexedLeaf>
    ensures { option_copied result ≡ slice_get leaves.now number }
{
    leaves.get(number as usize)
}

/// Puts in the row of the leaf, where there is room for its tests. Whether there is.
fn put_sharing(shared: &mut SharedTests, row: &LeafRow, leaf: &IndexedLeaf) -> Result<bool, Memory>
    ensures put { IfOk result (λ is. is ≡ true → (leaves : List IndexedLeafData) (rows : List RowData)
        → slice_get leaves row.now.leaf ≡ Some leaf.now → AreSharing leaves rows shared.old
        → AreSharing leaves (rows ++ row.now ∷ []) shared.new) }
    ensures past { IfOk result (λ is. is ≡ false → (leaves : List IndexedLeafData)
        (rows : List RowData) → AreSharing leaves rows shared.old
        → AreSharing leaves rows shared.new) }
{
    match mask_of(&mut shared.tests, &leaf.tests)? {
        Some(mask) => {
            shared.rows.push(SharingRow {
                mask,
                waits: row.waits,
                query: leaf.query,
                number: leaf.number,
            })?;
            Ok(true)
        }
        None => Ok(false),
    }
}

/// Puts in the row, where there is room for its leaf's tests. Whether there is.
fn put_row(shared: &mut SharedTests, row: &LeafRow, leaves: &[IndexedLeaf]) -> Result<bool, Memory>
    ensures put { IfOk result (λ is. is ≡ true → (rows : List RowData)
        → AreSharing leaves.now rows shared.old
        → AreSharing leaves.now (rows ++ row.now ∷ []) shared.new) }
    ensures past { IfOk result (λ is. is ≡ false → (rows : List RowData)
        → AreSharing leaves.now rows shared.old → AreSharing leaves.now rows shared.new) }
{
    match leaf_at(leaves, row.leaf) {
        Some(leaf) => put_sharing(shared, row, leaf),
        None => Ok(false),
    }
}

/// The run that the rows begin with: as many as have room for their tests.
pub fn run_of(
    alloc: Global,
    rows: &[LeafRow],
    leaves: &[IndexedLeaf],
) -> Result<SharedTests, Memory>
    ensures count { IfOk result (λ s. length s.rows.items ≤ length rows.now) }
    ensures rows { IfOk result (λ s. AreSharing leaves.now
        (take (length s.rows.items) rows.now) s) }
{
    let mut shared = nothing_shared(alloc);
    for row in rows {
        if !put_row(&mut shared, row, leaves)? {
            return Ok(shared);
        }
    }
    Ok(shared)
}

/// Whether the test that is shared holds of the event.
fn one_holds(shared: &SharedTest, event: &Event) -> bool
    ensures { result ≡ one_holds shared.now event.now }
{
    match test_of(shared) {
        Some(test) => each_holds(slice::from_ref(test), event),
        None => false,
    }
}

/// The numbers of the tests of a run that do not hold of the event, as bits.
pub fn failing_of(tests: &[SharedTest], event: &Event) -> u64
    ensures { HasFailing tests.now result event.now }
{
    let mut failing = 0;
    for k in 0..tests.len().min(MOST_SHARED) {
        if !one_holds(&tests[k], event) {
            failing = with_bit(failing, k);
        }
    }
    failing
}

/// Whether the row's tests are all among those that hold.
#[inline(always)]
pub fn is_met(row: &SharingRow, failing: u64) -> bool
    ensures met { result ≡ true → IsMet row.now.mask failing }
    ensures not { result ≡ false → HasOneFailing row.now.mask failing }
{
    row.mask & failing == 0
}
