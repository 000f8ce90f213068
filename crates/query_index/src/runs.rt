//! The numbers of values at a place of which the tests of a row's leaf may hold.

ghost use Rattle.std.specs.Prelude.{◌≡◌, ℤ, ◌≤ℤ◌, ◌<ℤ◌, false, [], ◌∷◌, ◌++◌, IfOk, OnOk, slice_get};
ghost use Rattle.std.specs.Option.{option_copied};
ghost use Rattle.query_index.specs.Index.{IsApart};
ghost use Rattle.query_index.specs.Runs.{KeepNumbers, Cover};

use crate::marks::ends_of;
use crate::parting::{Parting, span_at};
use crate::rows::{IndexedLeaf, LeafRow};
use cer_base::Memory;
use predicate_bits::outcomes::may_hold_over;
use predicate_bits::spans::Span;
use std::alloc::Global;
use stream_schema::Kind;

/// The numbers from `low` to `high`.
#[derive(Drop, Debug, Clone, Copy)]
pub struct Run {
    pub low: i64,
    pub high: i64,
}

/// The leaf of this number.
fn leaf_at(leaves: &[IndexedLeaf], number: u64) -> Option<&IndexedLeaf>
    ensures { option_copied result ≡ slice_get leaves.now number }
{
    leaves.get(number as usize)
}

/// Whether the row may concern an event whose value at the place is one of the span.
fn may_concern(row: &LeafRow, leaves: &[IndexedLeaf], place: u64, span: &Span) -> bool
    ensures { result ≡ false → IsApart leaves.now place span.now row.now }
{
    match leaf_at(leaves, row.leaf) {
        Some(leaf) => may_hold_over(place, span, leaf.tests.as_slice()),
        None => true,
    }
}

/// All values of the kind.
pub fn whole(kind: Kind) -> Span
    ensures { result.kind ≡ kind }
{
    Span {
        kind,
        low: i64::MIN,
        high: i64::MAX,
    }
}

/// The numbers of the span up to this one.
fn up_to(span: &Span, number: i64) -> Span
    ensures kind { result.kind ≡ span.now.kind }
    ensures numbers { (n : ℤ) → span.now.low ≤ℤ n → n ≤ℤ number → (result.low ≤ℤ n)
        × (n ≤ℤ result.high) }
{
    Span {
        kind: span.kind,
        low: span.low,
        high: number,
    }
}

/// The numbers of the span after this one.
fn after(span: &Span, number: i64) -> Span
    ensures kind { result.kind ≡ span.now.kind }
    ensures numbers { (n : ℤ) → number <ℤ n → n ≤ℤ span.now.high → (result.low ≤ℤ n)
        × (n ≤ℤ result.high) }
{
    Span {
        kind: span.kind,
        low: number.saturating_add(1),
        high: span.high,
    }
}

/// Whether no span of the parting lies between those of the two runs.
fn are_near(parting: &Parting, before: &Run, after: &Run) -> bool {
    span_at(parting, after.low) <= span_at(parting, before.high).saturating_add(1)
}

/// The numbers of both runs, and those between them.
fn joined(first: &Run, second: &Run) -> Run
    ensures first { (number : ℤ) → first.now.low ≤ℤ number → number ≤ℤ first.now.high
        → (result.low ≤ℤ number) × (number ≤ℤ result.high) }
    ensures second { (number : ℤ) → second.now.low ≤ℤ number → number ≤ℤ second.now.high
        → (result.low ≤ℤ number) × (number ≤ℤ result.high) }
{
    Run {
        low: first.low.min(second.low),
        high: first.high.max(second.high),
    }
}

/// Puts in both runs, as one where they are near.
fn put_both(runs: &mut Vec<Run>, parting: &Parting, first: Run, second: Run) -> Result<(), Memory>
    ensures { OnOk result (KeepNumbers ((runs.old.items ++ first ∷ []) ++ second ∷ [])
        runs.new.items) }
{
    if are_near(parting, &first, &second) {
        runs.push(joined(&first, &second))?;
        return Ok(());
    }
    runs.push(first)?;
    runs.push(second)?;
    Ok(())
}

/// Puts in the run, as a part of the last one where that is near.
fn put_run(runs: &mut Vec<Run>, parting: &Parting, run: Run) -> Result<(), Memory>
    ensures { OnOk result (KeepNumbers (runs.old.items ++ run ∷ []) runs.new.items) }
{
    match runs.pop() {
        Some(last) => put_both(runs, parting, last, run),
        None => {
            runs.push(run)?;
            Ok(())
        }
    }
}

/// Puts in the numbers of the span, if the row may concern an event with one of them.
fn put_tested(
    runs: &mut Vec<Run>,
    row: &LeafRow,
    leaves: &[IndexedLeaf],
    parting: &Parting,
    span: &Span,
) -> Result<(), Memory>
    ensures kept { OnOk result (KeepNumbers runs.old.items runs.new.items) }
    ensures cover { OnOk result (Cover runs.new.items leaves.now parting.now.place span.now
        row.now) }
{
    if may_concern(row, leaves, parting.place, span) {
        let run = Run {
            low: span.low,
            high: span.high,
        };
        put_run(runs, parting, run)?;
    }
    Ok(())
}

/// The numbers of the span with which an event may concern the row, near ones as one run.
pub fn runs_of(
    alloc: Global,
    row: &LeafRow,
    leaves: &[IndexedLeaf],
    parting: &Parting,
    span: &Span,
) -> Result<Vec<Run>, Memory>
    ensures { IfOk result (λ runs. Cover runs.items leaves.now parting.now.place span.now row.now) }
{
    let ends = ends_of(alloc, row, leaves, parting)?;
    let mut runs = Vec::new(alloc);
    let mut left = *span;
    for end in ends.as_slice() {
        if (left.low <= *end) & (*end < left.high) {
            put_tested(&mut runs, row, leaves, parting, &up_to(&left, *end))?;
            left = after(&left, *end);
        }
    }
    put_tested(&mut runs, row, leaves, parting, &left)?;
    Ok(runs)
}
