//! The rows of a type by the values of some of its attributes, so that only a few of them are looked at.
//!
//! A row stands in one index: that of the attribute, and of the length of spans, with which it is
//! looked at least often. Numbers are parted into spans, texts by their digests, truth values by what
//! they are. What a row asks of an event is whatever its leaf's tests do: comparisons, choices of them
//! and their opposites. The rows that no index has stand in a last one, which has no buckets.

ghost use Rattle.std.specs.Prelude.{◌≡◌, ◌≤ℤ◌, true, List, ◌++◌, All, IfOk, IfSome, slice_get};
ghost use Rattle.std.specs.Option.{option_copied};
ghost use Rattle.query_index.specs.declared.rows.LeafRow.{LeafRow as RowData};
ghost use Rattle.query_index.specs.declared.rows.IndexedLeaf.{IndexedLeaf as IndexedLeafData};
ghost use Rattle.query_index.specs.Rows.{rows_of};
ghost use Rattle.query_index.specs.Index.{IsIndex, AreShared, AreIndexes, AreIndexed, AreSplit, HaveSame, Suffice, gathered, indexes_of as listed};

use crate::buckets::{Bucket, buckets_of};
use crate::choosing::{chosen, homes_left, is_served};
use crate::parting::{Parting, span_of};
use crate::rows::{IndexedLeaf, LeafRow};
use crate::shared_tests::{SharedTests, nothing_shared};
use crate::sharing::{put_runs, shared_by};
use cer_base::Memory;
use predicate_bits::holding::value_at;
use predicate_bits::spans::number_of;
use std::alloc::Global;
use stream_schema::{Attr, Event, Kind, Schema, TypeId};

/// Rows by the value at a place.
#[derive(Drop)]
pub struct Index {
    /// The place of the values in an event, and their kind.
    pub place: u64,
    pub kind: Kind,
    /// A number above the base is in the bucket that its distance from it tells without the last
    /// `shift` bits, each other one in the first.
    pub base: i64,
    pub shift: u32,
    pub buckets: Vec<Bucket>,
    /// All rows of the index.
    pub rows: Vec<LeafRow>,
    /// The tests that they have in common, where all of them are one run. Else there is nothing here.
    pub shared: SharedTests,
}

/// Rows that are parted in two.
#[derive(Drop, Debug)]
pub struct Parts {
    pub taken: Vec<LeafRow>,
    pub left: Vec<LeafRow>,
}

/// The index of the rows.
fn index_of(
    alloc: Global,
    rows: Vec<LeafRow>,
    leaves: &[IndexedLeaf],
    parting: &Parting,
) -> Result<Index, Memory>
    ensures index { IfOk result (IsIndex leaves.now) }
    ensures rows { IfOk result (λ index. index.rows.items ≡ rows.items) }
{
    let buckets = buckets_of(alloc, rows.as_slice(), leaves, parting)?;
    let shared = shared_by(alloc, rows.as_slice(), leaves)?;
    Ok(Index {
        place: parting.place,
        kind: parting.kind,
        base: parting.base,
        shift: parting.shift,
        buckets,
        rows,
        shared,
    })
}

/// An index without buckets.
pub fn without_buckets(alloc: Global, rows: Vec<LeafRow>, shared: SharedTests) -> Index
    ensures index { (leaves : List IndexedLeafData) → AreShared leaves rows.items shared
        → IsIndex leaves result }
    ensures rows { result.rows.items ≡ rows.items }
{
    Index {
        place: 0,
        kind: Kind::Int,
        base: 0,
        shift: 0,
        buckets: Vec::new(alloc),
        rows,
        shared,
    }
}

/// The rows that are to stand in the index of this number, and the others. Told is for each row the
/// number of its index.
fn split(alloc: Global, rows: &[LeafRow], homes: &[usize], number: usize) -> Result<Parts, Memory>
    ensures { IfOk result (λ s. AreSplit rows.now s.taken.items s.left.items) }
{
    let mut taken = Vec::new(alloc);
    let mut left = Vec::new(alloc);
    let mut next: usize = 0;
    for row in rows {
        let place = next;
        next = next.saturating_add(1);
        if is_served(homes, place, number) {
            taken.push(*row)?;
        } else {
            left.push(*row)?;
        }
    }
    Ok(Parts { taken, left })
}

/// The indexes, and one without buckets for the rows that are left, where there are any.
fn with_rest(alloc: Global, indexes: Vec<Index>, left: Vec<LeafRow>) -> Result<Vec<Index>, Memory>
    ensures { IfOk result (λ all. (leaves : List IndexedLeafData) (list : List RowData)
        → All (IsIndex leaves) indexes.items
        → HaveSame list (gathered indexes.items ++ left.items) → AreIndexes leaves list all.items) }
{
    if left.is_empty() {
        return Ok(indexes);
    }
    let mut all = indexes;
    all.push(without_buckets(alloc, left, nothing_shared(alloc)))?;
    Ok(all)
}

/// The indexes of the rows of a type with these attributes.
fn indexes_over(
    alloc: Global,
    rows: &[LeafRow],
    leaves: &[IndexedLeaf],
    attrs: &[Attr],
) -> Result<Vec<Index>, Memory>
    ensures { IfOk result (λ indexes. AreIndexes leaves.now rows.now indexes.items) }
{
    let choice = chosen(alloc, rows, leaves, attrs)?;
    let partings = choice.partings;
    let mut homes = choice.homes;
    let mut left = Vec::from_slice(alloc, rows)?;
    let mut indexes = Vec::new(alloc);
    for k in 0..partings.len() {
        let parts = split(alloc, left.as_slice(), homes.as_slice(), k)?;
        homes = homes_left(alloc, homes.as_slice(), k)?;
        indexes.push(index_of(alloc, parts.taken, leaves, &partings[k])?)?;
        left = parts.left;
    }
    let plain = put_runs(&mut indexes, alloc, left.as_slice(), leaves)?;
    with_rest(alloc, indexes, plain)
}

/// The indexes of the rows of the type.
fn indexes_for(
    alloc: Global,
    rows: &[LeafRow],
    leaves: &[IndexedLeaf],
    schema: &Schema,
    ty: TypeId,
) -> Result<Vec<Index>, Memory>
    ensures { IfOk result (λ indexes. AreIndexes leaves.now rows.now indexes.items) }
{
    match schema.attrs(ty) {
        Some(attrs) => indexes_over(alloc, rows, leaves, attrs),
        None => indexes_over(alloc, rows, leaves, &[]),
    }
}

/// The indexes of the rows of each type.
pub fn indexes_of(
    alloc: Global,
    rows: &[Vec<LeafRow>],
    leaves: &[IndexedLeaf],
    schema: &Schema,
) -> Result<Vec<Vec<Index>>, Memory>
    ensures { IfOk result (λ indexes. AreIndexed leaves.now (rows_of rows.now)
        (listed indexes.items)) }
{
    let mut indexes = Vec::with_capacity(alloc, rows.len())?;
    for k in 0..rows.len() {
        indexes.push(indexes_for(alloc, rows[k].as_slice(), leaves, schema, k as u64)?)?;
    }
    Ok(indexes)
}

/// The bucket of this number.
fn bucket_at(buckets: &[Bucket], number: usize) -> Option<&Bucket>
    ensures { option_copied result ≡ slice_get buckets.now number }
{
    buckets.get(number)
}

/// Whether the number is one of the bucket's.
#[inline(always)]
fn has_number(bucket: &Bucket, number: i64) -> bool
    ensures { result ≡ true → (bucket.now.low ≤ℤ number) × (number ≤ℤ bucket.now.high) }
{
    bucket.low <= number && number <= bucket.high
}

/// The rows of the bucket of the event's value. `None` where none has it.
#[inline(always)]
fn rows_at<'a>(index: &'a Index, event: &Event) -> Option<&'a [LeafRow]>
    ensures { IfSome result (λ some. (leaves : List IndexedLeafData) → IsIndex leaves index.now
        → Suffice leaves index.now.rows.items event.now some.now) }
{
    let buckets = index.buckets.as_slice();
    if buckets.is_empty() {
        return None;
    }
    let value = value_at(event.values.as_slice(), index.place as usize)?;
    let number = number_of(index.kind, value)?;
    let bucket = bucket_at(
        buckets,
        span_of(index.base, index.shift, buckets.len(), number),
    )?;
    if !has_number(bucket, number) {
        return None;
    }
    Some(bucket.rows.as_slice())
}

/// The rows that the event may concern, of those of the index.
#[inline(always)]
pub fn few_of<'a>(index: &'a Index, event: &Event) -> &'a [LeafRow]
    ensures { (leaves : List IndexedLeafData) → IsIndex leaves index.now
        → Suffice leaves index.now.rows.items event.now result.now }
{
    match rows_at(index, event) {
        Some(rows) => rows,
        None => index.rows.as_slice(),
    }
}
