//! The leaves of all queries by their types.

ghost use Rattle.std.specs.Prelude.{◌≡◌, ℕ, ◌+◌, ◌<◌, ◌≤◌, ◌||◌, ◌==◌, length, slice_index_or, [], ◌∷◌, IfOk, OnOk};
ghost use Rattle.cer_base.specs.Bits.{has};
ghost use Rattle.cel_terms.specs.declared.Query.{Query as QueryData};
ghost use Rattle.query_index.specs.Rows.{rows_of, is_awake, may_be_among, waits_for, HasPut, HasAdded, HasAddedQuery, HaveRows, HasLeafRow, HasType, HaveTypes, IsIndexed};

use crate::text_prefilters::{TextPrefilter, text_prefilter_of};
use cea_compile::first_of;
use cel_terms::Query;
use cer_base::Memory;
use cer_base::bits::Bits;
use predicate_bits::checks::{Check, MOST_TESTS, checks_within, left_of};
use predicate_bits::ranges::{Range, range_of};
use query_leaves::{Leaf, Tests, leaves_of};
use std::alloc::Global;
use stream_schema::{Schema, TypeId};

/// The number of no query.
pub const NONE: u64 = u64::MAX;

/// What is looked at first of a leaf: the range and the text that its tests ask for, and where the rest
/// is.
#[derive(Drop, Debug, Clone, Copy)]
pub struct LeafRow {
    pub range: Range,
    pub text_prefilter: TextPrefilter,
    /// The number of the leaf among those of all queries, from 0.
    pub leaf: u64,
    /// Its query's number, from 0, where none of this query's leaves of its type may read the first
    /// event of a match: it is then looked at only while that query may have an open match. Else
    /// `NONE`.
    pub waits: u64,
}

/// Whether a row that waits for this is looked at where the queries in the set may have an open match.
#[inline(always)]
pub fn waits_no_more(waits: u64, open_queries: &Bits) -> bool
    ensures { result ≡ (waits == NONE) || has open_queries.now waits }
{
    waits == NONE || open_queries.contains(waits as usize)
}

/// Whether the row is looked at where the queries in the set may have an open match.
#[inline(always)]
pub fn is_awake(row: &LeafRow, open_queries: &Bits) -> bool
    ensures { result ≡ is_awake open_queries.now row.now }
{
    waits_no_more(row.waits, open_queries)
}

/// What is looked at of a leaf where its row lets an event through.
#[derive(Drop)]
pub struct IndexedLeaf {
    /// Its query's number, from 0.
    pub query: u64,
    /// Its own number among the leaves of its query, from 0.
    pub number: u64,
    /// What is left to test where an event has a number of the range, where that is known.
    pub checks: Option<Vec<Check>>,
    pub tests: Tests,
}

/// The number after that of the type. Where there is none, no memory has a list for each type.
fn after(ty: TypeId) -> Result<usize, Memory>
    ensures { IfOk result (λ next. next ≡ ty + 1) }
{
    match (ty as usize).checked_add(1) {
        Some(next) => Ok(next),
        None => Err(Memory),
    }
}

/// Makes lists with nothing in them up to that of the type.
fn grow(rows: &mut Vec<Vec<LeafRow>>, alloc: Global, ty: TypeId) -> Result<(), Memory>
    ensures room { OnOk result (ty < length rows.new.items) }
    ensures same { OnOk result ((t : ℕ) → slice_index_or (rows_of rows.new.items) t []
        ≡ slice_index_or (rows_of rows.old.items) t []) }
{
    for _n in rows.len()..after(ty)? {
        rows.push(Vec::new(alloc))?;
    }
    Ok(())
}

/// Puts the row at the end of the type's list, which is there.
fn push_row(rows: &mut Vec<Vec<LeafRow>>, ty: usize, row: LeafRow) -> Result<(), Memory>
    requires { ty < length rows.old.items }
    ensures { OnOk result (HasPut ty row (rows_of rows.old.items) (rows_of rows.new.items)) }
{
    rows[ty].push(row)?;
    Ok(())
}

/// Puts the row at the end of the type's list.
fn put(rows: &mut Vec<Vec<LeafRow>>, alloc: Global, ty: TypeId, row: LeafRow) -> Result<(), Memory>
    ensures { OnOk result (HasPut ty row (rows_of rows.old.items) (rows_of rows.new.items)) }
{
    grow(rows, alloc, ty)?;
    push_row(rows, ty as usize, row)?;
    Ok(())
}

/// Puts in a row for the leaf of the query of this number, and the leaf's own number and its tests. The
/// row waits for this query, or for `NONE`. Checks are kept where the leaf has no more than so many tests.
fn add_leaf(
    rows: &mut Vec<Vec<LeafRow>>,
    leaves: &mut Vec<IndexedLeaf>,
    alloc: Global,
    query: u64,
    number: u64,
    waits: u64,
    room: usize,
    leaf: Leaf,
) -> Result<(), Memory>
    ensures row { OnOk result (HasLeafRow query number (rows_of rows.new.items)
        leaves.new.items leaf) }
    ensures added { OnOk result ((waiting : ℕ → ℕ) → waits ≡ waiting leaf.ty
        → HasAdded waiting query number (leaf ∷ []) (rows_of rows.old.items)
        leaves.old.items (rows_of rows.new.items) leaves.new.items) }
{
    let ty = leaf.ty;
    let tests = leaf.tests;
    let range = range_of(tests.as_slice());
    let text_prefilter = text_prefilter_of(tests.as_slice());
    let checks = checks_within(alloc, &range, tests.as_slice(), room)?;
    let place = leaves.len() as u64;
    leaves.push(IndexedLeaf {
        query,
        number,
        checks,
        tests,
    })?;
    put(
        rows,
        alloc,
        ty,
        LeafRow {
            range,
            text_prefilter,
            leaf: place,
            waits,
        },
    )?;
    Ok(())
}

/// Puts the type in, where the set has room for it.
fn put_type(types: &mut Bits, ty: TypeId)
    ensures { HasType ty types.old types.new }
{
    if types.has_room_for(ty as usize) {
        types.insert(ty as usize);
    }
}

/// The types of the leaves in the set, of those that the schema has.
fn types_of(alloc: Global, schema: &Schema, list: &[Leaf], some: &Bits) -> Result<Bits, Memory>
    ensures { IfOk result (λ types. HaveTypes list.now some.now types) }
{
    let mut types = Bits::blank(alloc, schema.types() as usize)?;
    for k in 0..list.len() {
        if some.contains(k) {
            put_type(&mut types, list[k].ty);
        }
    }
    Ok(types)
}

/// Whether the type is in the set, or one that it has no room for.
fn may_be_among(types: &Bits, ty: TypeId) -> bool
    ensures { result ≡ may_be_among types.now ty }
{
    !types.has_room_for(ty as usize) || types.contains(ty as usize)
}

/// The number that a row of the type waits for, of the query of this number, the first event of whose
/// matches has one of the types.
fn waits_for(types: &Bits, query: u64, ty: TypeId) -> u64
    ensures { result ≡ waits_for types.now query ty }
{
    if may_be_among(types, ty) {
        return NONE;
    }
    query
}

/// Puts in a row for each leaf of the query of this number, the leaves being numbered from 0. The first
/// event of its matches has one of the types. Checks are kept of the first leaves, for `MOST_TESTS` tests.
fn add_leaves(
    rows: &mut Vec<Vec<LeafRow>>,
    leaves: &mut Vec<IndexedLeaf>,
    alloc: Global,
    query: u64,
    types: &Bits,
    list: Vec<Leaf>,
) -> Result<(), Memory>
    ensures rows { OnOk result (HaveRows query list.items (rows_of rows.new.items)
        leaves.new.items) }
    ensures added { OnOk result (HasAdded (waits_for types.now query) query 0 list.items
        (rows_of rows.old.items)
        leaves.old.items (rows_of rows.new.items) leaves.new.items) }
{
    let first = leaves.len();
    let mut room = MOST_TESTS;
    for leaf in list {
        let number = (leaves.len() - first) as u64;
        let waits = waits_for(types, query, leaf.ty);
        let left = left_of(room, &leaf);
        add_leaf(rows, leaves, alloc, query, number, waits, room, leaf)?;
        room = left;
    }
    Ok(())
}

/// Puts in a row for each leaf of the query, which has this number.
pub fn add_query(
    rows: &mut Vec<Vec<LeafRow>>,
    leaves: &mut Vec<IndexedLeaf>,
    alloc: Global,
    schema: &Schema,
    query: &Query,
    number: u64,
) -> Result<(), Memory>
    ensures watched { OnOk result (IsIndexed schema.now query.now number
        (rows_of rows.new.items) leaves.new.items) }
    ensures added { OnOk result (HasAddedQuery schema.now query.now number
        (rows_of rows.old.items) leaves.old.items (rows_of rows.new.items) leaves.new.items) }
{
    let found = leaves_of(alloc, schema, query)?;
    let first = first_of(alloc, &found)?;
    let types = types_of(alloc, schema, found.list.as_slice(), &first)?;
    add_leaves(rows, leaves, alloc, number, &types, found.list.into_vec())?;
    Ok(())
}
