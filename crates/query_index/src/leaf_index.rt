//! The leaves of all queries, and which queries an event can concern.

ghost use Rattle.std.specs.Prelude.{◌≡◌, ◌≢◌, ℕ, ◌<◌, ◌≤◌, ◌==◌, ◌⊎◌, Bool, true, false, ◌&&◌, ◌||◌, List, [], ◌∷◌, length, map, slice_get, slice_index_or, Some, IfOk, All};
ghost use Rattle.std.specs.Option.{option_copied};
ghost use Rattle.cer_base.specs.Bits.{has};
ghost use Rattle.stream_schema.specs.declared.Event.{Event as EventData};
ghost use Rattle.query_leaves.specs.Shapes.{each_holds as tests_hold};
ghost use Rattle.predicate_bits.specs.Ranges.{AsksFor};
ghost use Rattle.query_index.specs.TextPrefilters.{AsksToOpen};
ghost use Rattle.query_index.specs.declared.rows.LeafRow.{LeafRow as RowData};
ghost use Rattle.query_index.specs.declared.rows.IndexedLeaf.{IndexedLeaf as IndexedLeafData};
ghost use Rattle.query_index.specs.declared.rows.TheConstants.{NONE};
ghost use Rattle.query_index.specs.declared.shared_tests.SharedTest.{SharedTest as SharedTestData};
ghost use Rattle.query_index.specs.Index.{IsIndex, CanMark, Suffice, gathered};
ghost use Rattle.query_index.specs.SharedTests.{IsSharing, AreSharing, HasFailing, IsMet, HasOneFailing, HasPlace};
ghost use Rattle.query_index.specs.Rows.{rows_of, awake, is_awake, AreBelow, AreExact, AreWaiting, IsRangeOf, IsRowBelow, IsLeafIndex, HasRow, AreReaders, HaveRoom, HaveRooms, WaitAlike, Marks};

use crate::index::{Index, few_of, indexes_of};
use crate::rows::{IndexedLeaf, LeafRow, add_query, is_awake, waits_no_more};
use crate::shared_tests::{SharingRow, failing_of, is_met};
use crate::sharing::FEWEST_ROWS;
use crate::text_prefilters::may_open;
use cel_terms::Query;
use cer_base::Memory;
use cer_base::bits::Bits;
use predicate_bits::checks::{checks_hold, lies_in};
use predicate_bits::holding::each_holds;
use predicate_bits::ranges::{Range, may_hold};
use std::alloc::Global;
use std::marker::Model;
use stream_schema::{Event, Schema, TypeId};

/// About how many rows of a run are looked at in the time of a row by itself.
const ROWS_OF_ONE: usize = 8;

/// What is looked at of the leaves of queries, which have numbers from 0.
#[derive(Drop)]
pub struct LeafIndex {
    /// The rows of the leaves of each type, by the type's number.
    rows: Vec<Vec<LeafRow>>,
    /// The rows of each type by the values that an event may have, by the type's number.
    indexes: Vec<Vec<Index>>,
    /// The leaves of all queries, by their numbers.
    leaves: Vec<IndexedLeaf>,
    /// How many queries there are.
    count: usize,
}

impl Model for LeafIndex {
    ghost use Rattle.std.specs.Coded.{codes};
    ghost use Rattle.query_leaves.specs.contracts.Test as test;
    ghost use Rattle.query_index.specs.Rows.{Table, rows_of, AreBelow, WaitAlike};
    ghost use Rattle.query_index.specs.Index.{AreIndexed, indexes_of};

    ghost Value = { Table };

    ghost coded = { Prim.hlevel (codes, test.the_row.coded) };

    ghost view = { λ w. record {
      rows = rows_of w.rows.items;
      leaves = w.leaves.items;
      count = w.count;
    } };

    ghost invariant = { λ w. AreBelow w.count (rows_of w.rows.items) w.leaves.items
        × AreIndexed w.leaves.items (rows_of w.rows.items) (indexes_of w.indexes.items)
        × WaitAlike (rows_of w.rows.items) w.leaves.items };
}

/// The rows of the leaves of the queries, with the leaves put in last.
fn rows_for(
    leaves: &mut Vec<IndexedLeaf>,
    alloc: Global,
    schema: &Schema,
    queries: &[Query],
) -> Result<Vec<Vec<LeafRow>>, Memory>
    ensures leaf_index { IfOk result (λ v. IsLeafIndex schema.now queries.now (rows_of v.items)
        leaves.new.items) }
    ensures exact { IfOk result (λ v. AreExact schema.now queries.now (rows_of v.items)
        leaves.new.items) }
    ensures below { IfOk result (λ v. AreBelow (length queries.now) (rows_of v.items)
        leaves.new.items) }
    ensures waiting { IfOk result (λ v. AreWaiting queries.now (rows_of v.items) leaves.new.items) }
    ensures alike { IfOk result (λ v. WaitAlike (rows_of v.items) leaves.new.items) }
{
    let mut rows = Vec::new(alloc);
    for k in 0..queries.len() {
        add_query(&mut rows, leaves, alloc, schema, &queries[k], k as u64)?;
    }
    Ok(rows)
}

impl LeafIndex {
    /// The index of the queries' leaves.
    pub fn of(alloc: Global, schema: &Schema, queries: &[Query]) -> Result<LeafIndex, Memory>
        ensures leaf_index { IfOk result (λ w. IsLeafIndex schema.now queries.now w.rows w.leaves) }
        ensures exact { IfOk result (λ w. AreExact schema.now queries.now w.rows w.leaves) }
        ensures waiting { IfOk result (λ w. AreWaiting queries.now w.rows w.leaves) }
        ensures count { IfOk result (λ w. w.count ≡ length queries.now) }
    {
        let mut leaves = Vec::new(alloc);
        let rows = rows_for(&mut leaves, alloc, schema, queries)?;
        let indexes = indexes_of(alloc, rows.as_slice(), leaves.as_slice(), schema)?;
        Ok(LeafIndex {
            rows,
            indexes,
            leaves,
            count: queries.len(),
        })
    }

    /// Marks each query that has a leaf which can read the event, and no other; but not one that has
    /// no open match and of which no leaf of the event's type may read the first event of a match. Of
    /// the queries, those in the first set may have an open match. The set of marks has room for all
    /// numbers. Of each query that was not marked before and is now, the set of its number is then
    /// that of the numbers of its leaves that can read the event; the sets have room for these.
    #[inline(always)]
    pub fn mark(&self, event: &Event, open_queries: &Bits, into: &mut Bits, leaves: &mut [Bits])
        requires count { self.now.count ≤ length into.old }
        requires rooms { HaveRooms self.now.count self.now.rows self.now.leaves event.now
            leaves.old }
        ensures marked { (number : ℕ) (h : HasRow self.now.rows self.now.leaves number event.now)
            → is_awake open_queries.now h.row ≡ true → has into.new number ≡ true }
        ensures only { (k : ℕ) → has into.new k ≡ true → (has into.old k ≡ true)
            ⊎ HasRow self.now.rows self.now.leaves k event.now }
        ensures kept { (k : ℕ) → has into.old k ≡ true → has into.new k ≡ true }
        ensures room { length into.new ≡ length into.old }
        ensures read { (query : ℕ) → has into.old query ≡ false → has into.new query ≡ true
            → AreReaders self.now.rows self.now.leaves query event.now
            (slice_index_or leaves.new query []) }
        ensures rooms { map (λ set. length set) leaves.new ≡ map (λ set. length set) leaves.old }
    {
        if let Some(indexes) = list_of(self.indexes.as_slice(), event.ty) {
            mark_indexed(
                indexes.as_slice(),
                self.leaves.as_slice(),
                event,
                open_queries,
                into,
                leaves,
            );
        }
    }
}

/// The indexes of the type.
fn list_of(indexes: &[Vec<Index>], ty: TypeId) -> Option<&Vec<Index>>
    ensures { option_copied result ≡ slice_get indexes.now ty }
{
    indexes.get(ty as usize)
}

/// Whether the leaf's tests hold of the event. They lie elsewhere, and are read only where the checks
/// do not tell.
fn holds_of(range: &Range, leaf: &IndexedLeaf, event: &Event) -> bool
    requires { IsRangeOf range.now leaf.now }
    ensures { result ≡ tests_hold leaf.now.tests event.now }
{
    if let Some(checks) = &leaf.checks {
        if let Some(inside) = lies_in(range, event) {
            return inside && checks_hold(checks.as_slice(), event);
        }
    }
    each_holds(leaf.tests.as_slice(), event)
}

/// Puts in the query's number, and the leaf's into the query's set, which is emptied where the query
/// was not in.
#[inline(always)]
fn put_in(query: usize, leaf: usize, into: &mut Bits, sets: &mut [Bits])
    requires inside { query < length into.old }
    requires room { leaf < length (slice_index_or sets.old query []) }
    ensures members { (k : ℕ) → has into.new k ≡ (k == query) || has into.old k }
    ensures room { length into.new ≡ length into.old }
    ensures set { (k : ℕ) → has (slice_index_or sets.new query []) k ≡ (k == leaf)
        || (has into.old query && has (slice_index_or sets.old query []) k) }
    ensures others { (k : ℕ) → k ≢ query → slice_index_or sets.new k []
        ≡ slice_index_or sets.old k [] }
    ensures rooms { map (λ set. length set) sets.new ≡ map (λ set. length set) sets.old }
{
    let set = &mut sets[query];
    if !into.contains(query) {
        set.clear();
        into.insert(query);
    }
    set.insert(leaf);
}

/// Puts in the numbers of the row's query and of its leaf, if the leaf's tests hold of the event.
fn mark_leaf(
    row: &LeafRow,
    leaves: &[IndexedLeaf],
    event: &Event,
    into: &mut Bits,
    sets: &mut [Bits],
)
    requires below { IsRowBelow (length into.old) leaves.now row.now }
    requires room { HaveRoom (row.now ∷ []) leaves.now event.now sets.old }
    ensures { Marks (row.now ∷ []) leaves.now event.now into.old into.new sets.old sets.new }
{
    let leaf = &leaves[row.leaf as usize];
    if holds_of(&row.range, leaf, event) {
        put_in(leaf.query as usize, leaf.number as usize, into, sets);
    }
}

/// Whether the event may have what the row's leaf asks for.
#[inline(always)]
fn may_read(row: &LeafRow, event: &Event) -> bool
    ensures { (holds : EventData → Bool) → AsksFor row.now.range holds
        → AsksToOpen row.now.text_prefilter holds → result ≡ false → holds event.now ≡ false }
{
    may_hold(&row.range, event) && may_open(&row.text_prefilter, event)
}

/// Whether the row is looked at, and the event may have what its leaf asks for.
#[inline(always)]
fn looks_at(row: &LeafRow, event: &Event, open_queries: &Bits) -> bool
    ensures awake { result ≡ true → is_awake open_queries.now row.now ≡ true }
    ensures not { (holds : EventData → Bool) → AsksFor row.now.range holds
        → AsksToOpen row.now.text_prefilter holds → result ≡ false
        → is_awake open_queries.now row.now ≡ true → holds event.now ≡ false }
{
    is_awake(row, open_queries) && may_read(row, event)
}

/// Puts in the numbers of the query and of the leaf of each row that is looked at, if the leaf's tests hold
/// of the event.
#[inline(always)]
fn mark_rows(
    rows: &[LeafRow],
    leaves: &[IndexedLeaf],
    event: &Event,
    open_queries: &Bits,
    into: &mut Bits,
    sets: &mut [Bits],
)
    requires below { All (IsRowBelow (length into.old) leaves.now) rows.now }
    requires room { HaveRoom rows.now leaves.now event.now sets.old }
    ensures { Marks (awake open_queries.now rows.now) leaves.now event.now into.old into.new
        sets.old sets.new }
{
    for row in rows {
        if looks_at(row, event, open_queries) {
            mark_leaf(row, leaves, event, into, sets);
        }
    }
}

/// Whether the row is looked at, and no test of its leaf fails.
#[inline(always)]
fn reads(row: &SharingRow, failing: u64, open_queries: &Bits) -> bool
    ensures yes { result ≡ true → ((row.now.waits == NONE) || has open_queries.now row.now.waits
        ≡ true) × IsMet row.now.mask failing }
    ensures not { result ≡ false → ((row.now.waits == NONE) || has open_queries.now row.now.waits
        ≡ false) ⊎ HasOneFailing row.now.mask failing }
{
    waits_no_more(row.waits, open_queries) && is_met(row, failing)
}

/// Puts in the numbers of the row's query and of its leaf, if the row is looked at and no test of its leaf
/// fails.
#[inline(always)]
fn mark_sharing(
    row: &SharingRow,
    failing: u64,
    open_queries: &Bits,
    into: &mut Bits,
    sets: &mut [Bits],
)
    requires { IsMet row.now.mask failing → HasPlace row.now into.old sets.old }
    ensures { (leaves : List IndexedLeafData) (tests : List SharedTestData) (r : RowData)
        (event : EventData) → IsSharing leaves tests r row.now → HasFailing tests failing event
        → Marks (awake open_queries.now (r ∷ [])) leaves event into.old into.new sets.old
        sets.new }
{
    if reads(row, failing, open_queries) {
        put_in(row.query as usize, row.number as usize, into, sets);
    }
}

/// Puts in the numbers of the query and of the leaf of each row of the run that is looked at, if the leaf's
/// tests hold of the event. Each test is made once.
fn mark_run(index: &Index, event: &Event, open_queries: &Bits, into: &mut Bits, sets: &mut [Bits])
    requires { CanMark index.now event.now into.old sets.old }
    ensures { (leaves : List IndexedLeafData) → AreSharing leaves index.now.rows.items
        index.now.shared → Marks (awake open_queries.now index.now.rows.items) leaves event.now
        into.old into.new sets.old sets.new }
{
    let failing = failing_of(index.shared.tests.as_slice(), event);
    for row in index.shared.rows.as_slice() {
        mark_sharing(row, failing, open_queries, into, sets);
    }
}

/// Whether the index is a run, and so many of its rows are better looked at by the tests of the run.
#[inline(always)]
fn is_run_for(index: &Index, count: usize) -> bool
    ensures { result ≡ true → 0 < length index.now.shared.rows.items }
{
    if count < FEWEST_ROWS {
        return false;
    }
    let rows = index.shared.rows.len();
    rows > 0 && rows / ROWS_OF_ONE <= count
}

/// Puts in the numbers of the query and of the leaf of each row of the index that is looked at, if the
/// leaf's tests hold of the event.
#[inline(always)]
fn mark_index(
    index: &Index,
    leaves: &[IndexedLeaf],
    event: &Event,
    open_queries: &Bits,
    into: &mut Bits,
    sets: &mut [Bits],
)
    requires index { IsIndex leaves.now index.now }
    requires below { All (IsRowBelow (length into.old) leaves.now) index.now.rows.items }
    requires room { HaveRoom index.now.rows.items leaves.now event.now sets.old }
    ensures { Marks (awake open_queries.now index.now.rows.items) leaves.now event.now into.old
        into.new sets.old sets.new }
{
    let few = few_of(index, event);
    if is_run_for(index, few.len()) {
        mark_run(index, event, open_queries, into, sets);
        return;
    }
    mark_rows(few, leaves, event, open_queries, into, sets);
}

/// Puts in the numbers of the query and of the leaf of each row of the indexes that is looked at, if the
/// leaf's tests hold of the event.
#[inline(always)]
fn mark_indexed(
    indexes: &[Index],
    leaves: &[IndexedLeaf],
    event: &Event,
    open_queries: &Bits,
    into: &mut Bits,
    sets: &mut [Bits],
)
    requires indexes { All (IsIndex leaves.now) indexes.now }
    requires below { All (IsRowBelow (length into.old) leaves.now) (gathered indexes.now) }
    requires room { HaveRoom (gathered indexes.now) leaves.now event.now sets.old }
    ensures { Marks (awake open_queries.now (gathered indexes.now)) leaves.now event.now into.old
        into.new sets.old sets.new }
{
    for index in indexes {
        mark_index(index, leaves, event, open_queries, into, sets);
    }
}
