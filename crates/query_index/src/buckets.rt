//! The rows of an index by the values that an event may have at its place.

ghost use Rattle.std.specs.Prelude.{◌≡◌, ℕ, ℤ, false, List, IfOk, OnOk};
ghost use Rattle.query_index.specs.declared.rows.LeafRow.{LeafRow as RowData};
ghost use Rattle.query_index.specs.declared.rows.IndexedLeaf.{IndexedLeaf as IndexedLeafData};
ghost use Rattle.query_index.specs.Index.{IsBucket, AreBuckets, IsWithin};
ghost use Rattle.query_index.specs.Runs.{HavePieces, ArePieces, Share, AreMeeting, AreMeetingRows};

use crate::parting::{Parting, high_of, low_of};
use crate::rows::{IndexedLeaf, LeafRow};
use crate::runs::{Run, runs_of, whole};
use cer_base::Memory;
use predicate_bits::spans::Span;
use std::alloc::Global;

/// The values whose numbers are from `low` to `high`, and the rows that an event with one of them may
/// concern.
#[derive(Drop, Debug)]
pub struct Bucket {
    pub low: i64,
    pub high: i64,
    pub rows: Vec<LeafRow>,
}

/// A row, and numbers of values with which an event may concern it.
#[derive(Drop, Debug, Clone, Copy)]
pub struct Piece {
    pub row: LeafRow,
    pub run: Run,
}

/// Puts in a piece for each of the row's runs.
fn push_pieces(pieces: &mut Vec<Piece>, row: &LeafRow, runs: &[Run]) -> Result<(), Memory>
    ensures { OnOk result (HavePieces row.now runs.now pieces.old.items pieces.new.items) }
{
    for run in runs {
        pieces.push(Piece {
            row: *row,
            run: *run,
        })?;
    }
    Ok(())
}

/// The pieces of the rows, with numbers of the span.
fn pieces_of(
    alloc: Global,
    rows: &[LeafRow],
    leaves: &[IndexedLeaf],
    parting: &Parting,
    span: &Span,
) -> Result<Vec<Piece>, Memory>
    ensures { IfOk result (λ pieces. ArePieces rows.now leaves.now parting.now.place span.now
        pieces.items) }
{
    let mut pieces = Vec::new(alloc);
    for row in rows {
        let runs = runs_of(alloc, row, leaves, parting, span)?;
        push_pieces(&mut pieces, row, runs.as_slice())?;
    }
    Ok(pieces)
}

/// Whether the piece has a number of the span.
#[inline(always)]
fn meets(piece: &Piece, span: &Span) -> bool
    ensures { result ≡ false → (number : ℤ) → Share piece.now span.now number → ⊥ }
{
    piece.run.low <= span.high && span.low <= piece.run.high
}

/// The pieces that have a number of the span.
fn pieces_over(alloc: Global, pieces: &[Piece], span: &Span) -> Result<Vec<Piece>, Memory>
    ensures { IfOk result (λ some. AreMeeting pieces.now span.now some.items) }
{
    let mut some = Vec::new(alloc);
    for piece in pieces {
        if meets(piece, span) {
            some.push(*piece)?;
        }
    }
    Ok(some)
}

/// The rows of the pieces that have a number of the span.
fn rows_over(alloc: Global, pieces: &[Piece], span: &Span) -> Result<Vec<LeafRow>, Memory>
    ensures { IfOk result (λ rows. AreMeetingRows pieces.now span.now rows.items) }
{
    let mut rows = Vec::new(alloc);
    for piece in pieces {
        if meets(piece, span) {
            rows.push(piece.row)?;
        }
    }
    Ok(rows)
}

/// The part of the span from `low` to `high`.
fn part_of(span: &Span, low: i64, high: i64) -> Span
    ensures { IsWithin span.now result }
{
    Span {
        kind: span.kind,
        low: span.low.max(low),
        high: span.high.min(high),
    }
}

/// The bucket of this number, filled from the rows that an event with a value of the wider span may
/// concern.
fn bucket_of(
    alloc: Global,
    some: &[Piece],
    parting: &Parting,
    wide: &Span,
    number: u64,
) -> Result<Bucket, Memory>
    ensures { IfOk result (λ bucket. (rows : List RowData) (leaves : List IndexedLeafData)
        (place : ℕ) → ArePieces rows leaves place wide.now some.now
        → IsBucket rows leaves place wide.now.kind bucket) }
{
    let span = part_of(wide, low_of(parting, number), high_of(parting, number));
    let rows = rows_over(alloc, some, &span)?;
    Ok(Bucket {
        low: span.low,
        high: span.high,
        rows,
    })
}

/// Puts in the buckets of the numbers from the first to that before the end, where these are few.
fn put_group(
    buckets: &mut Vec<Bucket>,
    alloc: Global,
    pieces: &[Piece],
    parting: &Parting,
    whole: &Span,
    first: u64,
    end: u64,
) -> Result<(), Memory>
    ensures { OnOk result ((rows : List RowData) (leaves : List IndexedLeafData) (place : ℕ)
        → ArePieces rows leaves place whole.now pieces.now
        → AreBuckets rows leaves place whole.now.kind buckets.old.items
        → AreBuckets rows leaves place whole.now.kind buckets.new.items) }
{
    let wide = part_of(
        whole,
        low_of(parting, first),
        high_of(parting, end.saturating_sub(1)),
    );
    let some = pieces_over(alloc, pieces, &wide)?;
    for number in first..end {
        buckets.push(bucket_of(alloc, some.as_slice(), parting, &wide, number)?)?;
    }
    Ok(())
}

/// How many buckets are filled from the pieces of one wider span, of so many, as a power of two: about
/// their square root.
fn group_bits(count: u64) -> u32 {
    64_u32.saturating_sub(count.leading_zeros()) / 2
}

/// The buckets that the parting asks for.
pub fn buckets_of(
    alloc: Global,
    rows: &[LeafRow],
    leaves: &[IndexedLeaf],
    parting: &Parting,
) -> Result<Vec<Bucket>, Memory>
    ensures { IfOk result (λ buckets. AreBuckets rows.now leaves.now parting.now.place
        parting.now.kind buckets.items) }
{
    let whole = whole(parting.kind);
    let pieces = pieces_of(alloc, rows, leaves, parting, &whole)?;
    let bits = group_bits(parting.count);
    let last = parting.count.saturating_sub(1).wrapping_shr(bits);
    let mut buckets = Vec::new(alloc);
    for group in 0..last.saturating_add(1) {
        let first = group.wrapping_shl(bits);
        let end = group
            .saturating_add(1)
            .wrapping_shl(bits)
            .min(parting.count);
        put_group(
            &mut buckets,
            alloc,
            pieces.as_slice(),
            parting,
            &whole,
            first,
            end,
        )?;
    }
    Ok(buckets)
}
