//! The successor of a state, from its sets.
ghost use Rattle.std.specs.Prelude.{◌≡◌, ℕ, ◌<◌, ◌||◌, ◌&&◌, Bool, List, [], length, slice_index_or, option_map, IfOk, IfSome};
ghost use Rattle.std.specs.Option.{option_copied};
ghost use Rattle.cer_base.specs.Bits.{has, room_for};
ghost use Rattle.cea_determinise.specs.Runs.{some_below, candidates, skip_insensitive, agrees, pair, minds_next, waits_at_once};
ghost use Rattle.cea_determinise.specs.Strict.{phase_after, next_standing};
ghost use Rattle.cea_determinise.specs.LeafSets.{AreLeavesOf, Holds, HoldsBelow, IsEventOf, IsLeafOf};
ghost use Rattle.cea_determinise.specs.Cea.{row, automaton_of_cea, IsSet, IsWellFormed, HasLeavesBelow, standing_of, standing, takes_marked};

use crate::cea::{Cea, Phase, Side, StateSets};
use cer_base::Memory;
use cer_base::bits::Bits;
use std::alloc::Global;

/// Puts the rows of the members of the set in.
fn unite_rows(into: &mut Bits, from: &Bits, rows: &[Bits])
    requires rooms { (j : ℕ) (d : List Bool) → j < length rows.now
        → length (slice_index_or rows.now j d) ≡ length into.old }
    ensures room { length into.new ≡ length into.old }
    ensures members { (k : ℕ) → has into.new k ≡ has into.old k || some_below (length rows.now)
        (λ j. has from.now j && row rows.now j k) }
{
    for j in 0..rows.len() {
        if from.contains(j) {
            into.unite(&rows[j]);
        }
    }
}

/// The leaves that may read the next event after the state.
pub fn may_read(alloc: Global, cea: &Cea, state_sets: &StateSets) -> Result<Bits, Memory>
    requires { IsWellFormed cea.now }
    ensures { IfOk result (Holds cea.now.size (candidates (automaton_of_cea cea.now)
        (pair (has state_sets.now.fresh) (has state_sets.now.waiting)))) }
{
    let mut leaves = Bits::blank(alloc, cea.size)?;
    unite_rows(&mut leaves, &state_sets.fresh, cea.near.as_slice());
    unite_rows(&mut leaves, &state_sets.fresh, cea.far.as_slice());
    unite_rows(&mut leaves, &state_sets.waiting, cea.far.as_slice());
    Ok(leaves)
}

/// Whether some leaf is in the set.
pub fn some_leaf(cea: &Cea, set: &Bits) -> bool
    requires { IsSet cea.now.size set.now }
    ensures { result ≡ some_below cea.now.size (has set.now) }
{
    !set.is_empty()
}

/// Whether the leaf has a far follower.
fn has_far(cea: &Cea, leaf: usize) -> bool
    requires { IsLeafOf cea.now leaf }
    ensures { result ≡ some_below cea.now.size (row cea.now.far.items leaf) }
{
    some_leaf(cea, &cea.far[leaf])
}

/// Whether the leaf has a near follower.
fn has_near(cea: &Cea, leaf: usize) -> bool
    requires { IsLeafOf cea.now leaf }
    ensures { result ≡ some_below cea.now.size (row cea.now.near.items leaf) }
{
    some_leaf(cea, &cea.near[leaf])
}

/// Whether the leaf minds what the very next event is.
fn minds_next(cea: &Cea, leaf: usize) -> bool
    requires { IsLeafOf cea.now leaf }
    ensures { result ≡ minds_next (automaton_of_cea cea.now) leaf }
{
    cea.last.contains(leaf) || has_near(cea, leaf)
}

/// Whether the leaf waits as soon as it has read an event.
fn waits_at_once(cea: &Cea, leaf: usize) -> bool
    requires { IsLeafOf cea.now leaf }
    ensures { result ≡ waits_at_once (automaton_of_cea cea.now) leaf }
{
    !minds_next(cea, leaf) && has_far(cea, leaf)
}

/// Those of the leaves that mind what the next event is.
pub fn minding(alloc: Global, cea: &Cea, readers: &Bits) -> Result<Bits, Memory>
    requires { AreLeavesOf cea.now readers.now }
    ensures { IfOk result (HoldsBelow cea.now.size
        (λ k. has readers.now k && minds_next (automaton_of_cea cea.now) k)) }
{
    let mut leaves = Bits::blank(alloc, cea.size)?;
    for leaf in 0..cea.size {
        if readers.contains(leaf) && minds_next(cea, leaf) {
            leaves.insert(leaf);
        }
    }
    Ok(leaves)
}

/// Those of the leaves that wait at once.
pub fn waiting_at_once(alloc: Global, cea: &Cea, readers: &Bits) -> Result<Bits, Memory>
    requires { AreLeavesOf cea.now readers.now }
    ensures { IfOk result (HoldsBelow cea.now.size
        (λ k. has readers.now k && waits_at_once (automaton_of_cea cea.now) k)) }
{
    let mut leaves = Bits::blank(alloc, cea.size)?;
    for leaf in 0..cea.size {
        if readers.contains(leaf) && waits_at_once(cea, leaf) {
            leaves.insert(leaf);
        }
    }
    Ok(leaves)
}

/// Whether the leaf has read the last event or an earlier one.
fn has_read(state_sets: &StateSets, leaf: usize) -> bool
    ensures { result ≡ has state_sets.now.fresh leaf || has state_sets.now.waiting leaf }
{
    state_sets.fresh.contains(leaf) || state_sets.waiting.contains(leaf)
}

/// The leaves of the state that let the next event pass.
pub fn all_waiting(alloc: Global, cea: &Cea, state_sets: &StateSets) -> Result<Bits, Memory>
    requires well_formed { IsWellFormed cea.now }
    requires state_sets { HasLeavesBelow cea.now.size state_sets.now }
    ensures { IfOk result (HoldsBelow cea.now.size (skip_insensitive (automaton_of_cea cea.now)
        (pair (has state_sets.now.fresh) (has state_sets.now.waiting)))) }
{
    let mut leaves = Bits::blank(alloc, cea.size)?;
    for leaf in 0..cea.size {
        if has_read(state_sets, leaf) && has_far(cea, leaf) {
            leaves.insert(leaf);
        }
    }
    Ok(leaves)
}

/// Keeps the leaves that can read the event, and whose marks are as asked.
pub fn keep_readers(leaves: &mut Bits, cea: &Cea, bits: &Bits, side: Side)
    requires room { length leaves.old ≡ room_for cea.now.size }
    requires event { IsEventOf cea.now bits.now }
    ensures room { length leaves.new ≡ length leaves.old }
    ensures members { (k : ℕ) → has leaves.new k
        ≡ has leaves.old k && (has bits.now k && agrees (takes_marked side)
        (has cea.now.marked k)) }
{
    leaves.intersect(bits);
    match side {
        Side::Marked => leaves.intersect(&cea.marked),
        Side::Unmarked => leaves.subtract(&cea.marked),
    }
}

/// Where the run stands after the event, or None where marks would not be contiguous.
pub fn phase_after(strict: bool, phase: Phase, side: Side) -> Option<Phase>
    ensures { result ≡ phase_after strict phase (takes_marked side) }
{
    if !strict {
        return Some(phase);
    }
    match (phase, side) {
        (Phase::Before | Phase::Within, Side::Marked) => Some(Phase::Within),
        (Phase::Before, Side::Unmarked) => Some(Phase::Before),
        (Phase::Within | Phase::After, Side::Unmarked) => Some(Phase::After),
        (Phase::After, Side::Marked) => None,
    }
}
