//! The rows that no index has, parted into runs with tests in common.

ghost use Rattle.std.specs.Prelude.{◌≡◌, ◌<◌, true, List, All, ◌++◌, length, take, IfOk, OnOk};
ghost use Rattle.query_index.specs.declared.rows.LeafRow.{LeafRow as RowData};
ghost use Rattle.query_index.specs.declared.rows.IndexedLeaf.{IndexedLeaf as IndexedLeafData};
ghost use Rattle.query_index.specs.Index.{IsIndex, AreShared, HasTaken, HaveSame, gathered};

use crate::index::{Index, without_buckets};
use crate::rows::{IndexedLeaf, LeafRow};
use crate::shared_tests::{SharedTests, nothing_shared, run_of};
use cer_base::Memory;
use std::alloc::Global;

/// The fewest rows of a run.
pub const FEWEST_ROWS: usize = 64;

/// How many rows a run has at least for each of its tests, since each of these is tested whatever rows
/// are looked at.
const FEWEST_ROWS_OF_TEST: usize = 4;

/// Whether the rows of the run are enough for its tests.
fn is_worth_it(shared: &SharedTests) -> bool
    ensures { result ≡ true → 0 < length shared.now.rows.items }
{
    let rows = shared.rows.len();
    rows >= FEWEST_ROWS && rows / FEWEST_ROWS_OF_TEST >= shared.tests.len()
}

/// What the rows share, where all of them are one run. Else nothing.
pub fn shared_by(
    alloc: Global,
    rows: &[LeafRow],
    leaves: &[IndexedLeaf],
) -> Result<SharedTests, Memory>
    ensures { IfOk result (AreShared leaves.now rows.now) }
{
    if rows.len() >= FEWEST_ROWS {
        let shared = run_of(alloc, rows, leaves)?;
        if shared.rows.len() == rows.len() && is_worth_it(&shared) {
            return Ok(shared);
        }
    }
    Ok(nothing_shared(alloc))
}

/// Puts in an index of the run of these rows.
fn put_run(
    indexes: &mut Vec<Index>,
    alloc: Global,
    rows: &[LeafRow],
    shared: SharedTests,
) -> Result<(), Memory>
    ensures rows { OnOk result (gathered indexes.new.items
        ≡ gathered indexes.old.items ++ rows.now) }
    ensures each { OnOk result ((leaves : List IndexedLeafData) → AreShared leaves rows.now
        shared → All (IsIndex leaves) indexes.old.items
        → All (IsIndex leaves) indexes.new.items) }
{
    let rows = Vec::from_slice(alloc, rows)?;
    indexes.push(without_buckets(alloc, rows, shared))?;
    Ok(())
}

/// Puts in the rows.
fn put_rows(plain: &mut Vec<LeafRow>, rows: &[LeafRow]) -> Result<(), Memory>
    ensures { OnOk result (plain.new.items ≡ plain.old.items ++ rows.now) }
{
    for row in rows {
        plain.push(*row)?;
    }
    Ok(())
}

/// Puts the rows of the run that the rows begin with into an index, or to the plain ones where they are
/// few. How many there were.
fn put_first(
    indexes: &mut Vec<Index>,
    plain: &mut Vec<LeafRow>,
    alloc: Global,
    rows: &[LeafRow],
    leaves: &[IndexedLeaf],
) -> Result<usize, Memory>
    requires { 0 < length rows.now }
    ensures { IfOk result (λ count. HasTaken leaves.now rows.now count indexes.old.items
        indexes.new.items plain.old.items plain.new.items) }
{
    let shared = run_of(alloc, rows, leaves)?;
    let count = shared.rows.len();
    if is_worth_it(&shared) {
        put_run(indexes, alloc, &rows[..count], shared)?;
        return Ok(count);
    }
    let count = count.max(1);
    put_rows(plain, &rows[..count])?;
    Ok(count)
}

/// Puts the rows into indexes of runs. The others, which stand in none.
pub fn put_runs(
    indexes: &mut Vec<Index>,
    alloc: Global,
    rows: &[LeafRow],
    leaves: &[IndexedLeaf],
) -> Result<Vec<LeafRow>, Memory>
    ensures rows { IfOk result (λ plain. (list : List RowData)
        → HaveSame list (gathered indexes.old.items ++ rows.now)
        → HaveSame list (gathered indexes.new.items ++ plain.items)) }
    ensures each { OnOk result (All (IsIndex leaves.now) indexes.old.items
        → All (IsIndex leaves.now) indexes.new.items) }
{
    if rows.len() < FEWEST_ROWS {
        return Ok(Vec::from_slice(alloc, rows)?);
    }
    let mut plain = Vec::new(alloc);
    let mut from = 0;
    while from < rows.len() {
        from += put_first(indexes, &mut plain, alloc, &rows[from..], leaves)?;
    }
    Ok(plain)
}
