//! The successor of a state on an event.
ghost use Rattle.std.specs.Prelude.{◌≡◌, ℕ, ◌&&◌, ◌||◌, not, option_map, IfOk, IfSome};
ghost use Rattle.std.specs.Option.{option_copied};
ghost use Rattle.cer_base.specs.Bits.{has};
ghost use Rattle.cea_determinise.specs.Runs.{candidates, skip_insensitive, readers, minds_next, waits_at_once, has_leaf, pair};
ghost use Rattle.cea_determinise.specs.Strict.{next_standing};
ghost use Rattle.cea_determinise.specs.LeafSets.{CanRead, Holds, HoldsBelow, IsEventOf, IsStateOf};
ghost use Rattle.cea_determinise.specs.Cea.{automaton_of_cea, IsSet, IsWellFormed, HasLeavesBelow, standing_of, standing, takes_marked};

use crate::cea::{Cea, Phase, Side, StateSets};
use crate::sets::{
    all_waiting, keep_readers, may_read, minding, phase_after, some_leaf, waiting_at_once,
};
use cer_base::Memory;
use cer_base::bits::Bits;
use std::alloc::Global;

/// Where the run stands to its marked events.
fn phase_of(state_sets: Option<&StateSets>) -> Phase
    ensures { result ≡ (standing (option_copied state_sets.entry)).phase }
{
    match state_sets {
        None => Phase::Before,
        Some(state_sets) => state_sets.phase,
    }
}

/// The leaves that may read the next event.
fn all_next(alloc: Global, cea: &Cea, state_sets: Option<&StateSets>) -> Result<Bits, Memory>
    requires { IsWellFormed cea.now }
    ensures { IfOk result (Holds cea.now.size (candidates (automaton_of_cea cea.now)
        (standing (option_copied state_sets.entry)).sets)) }
{
    match state_sets {
        None => cea.first.copy(alloc),
        Some(state_sets) => may_read(alloc, cea, state_sets),
    }
}

/// The leaves that read the event.
fn readers(
    alloc: Global,
    cea: &Cea,
    state_sets: Option<&StateSets>,
    bits: &Bits,
    side: Side,
) -> Result<Bits, Memory>
    requires { IsEventOf cea.now bits.now }
    ensures { IfOk result (HoldsBelow cea.now.size (readers (automaton_of_cea cea.now)
        (standing (option_copied state_sets.entry)).sets (has bits.now) (takes_marked side))) }
{
    let mut leaves = all_next(alloc, cea, state_sets)?;
    keep_readers(&mut leaves, cea, bits, side);
    Ok(leaves)
}

/// The leaves that let the event pass, which is not marked then.
fn passing(
    alloc: Global,
    cea: &Cea,
    state_sets: Option<&StateSets>,
    side: Side,
) -> Result<Bits, Memory>
    requires { IsStateOf cea.now state_sets }
    ensures { IfOk result (HoldsBelow cea.now.size (λ k. not (takes_marked side)
        && skip_insensitive (automaton_of_cea cea.now)
        (standing (option_copied state_sets.entry)).sets k)) }
{
    match (state_sets, side) {
        (Some(state_sets), Side::Unmarked) => all_waiting(alloc, cea, state_sets),
        _ => Bits::blank(alloc, cea.size),
    }
}

/// The leaves that wait after the event: those that let it pass, and of those that read it the ones
/// that wait at once.
fn waiting_after(
    alloc: Global,
    cea: &Cea,
    state_sets: Option<&StateSets>,
    readers: &Bits,
    side: Side,
) -> Result<Bits, Memory>
    requires state { IsStateOf cea.now state_sets }
    requires readers { IsSet cea.now.size readers.now }
    ensures { IfOk result (HoldsBelow cea.now.size (λ k. not (takes_marked side)
        && skip_insensitive (automaton_of_cea cea.now)
        (standing (option_copied state_sets.entry)).sets k
        || has readers.now k && waits_at_once (automaton_of_cea cea.now) k)) }
{
    let mut waiting = passing(alloc, cea, state_sets, side)?;
    let at_once = waiting_at_once(alloc, cea, readers)?;
    waiting.unite(&at_once);
    Ok(waiting)
}

/// The leaves that read the event and mind the next one, and those that wait after it.
fn sets_after(
    alloc: Global,
    cea: &Cea,
    state_sets: Option<&StateSets>,
    bits: &Bits,
    side: Side,
) -> Result<(Bits, Bits), Memory>
    requires { CanRead cea.now state_sets bits.now }
    ensures sets { IfOk result (λ r. IsSet cea.now.size r.0 × IsSet cea.now.size r.1) }
    ensures fresh { IfOk result (λ r. (k : ℕ) → has r.0 k ≡ readers (automaton_of_cea cea.now)
        (standing (option_copied state_sets.entry)).sets (has bits.now) (takes_marked side) k
        && minds_next (automaton_of_cea cea.now) k) }
    ensures waiting { IfOk result (λ r. (k : ℕ) → has r.1 k
        ≡ not (takes_marked side) && skip_insensitive (automaton_of_cea cea.now)
        (standing (option_copied state_sets.entry)).sets k
        || readers (automaton_of_cea cea.now) (standing (option_copied state_sets.entry)).sets
        (has bits.now) (takes_marked side) k && waits_at_once (automaton_of_cea cea.now) k) }
{
    let readers = readers(alloc, cea, state_sets, bits, side)?;
    let fresh = minding(alloc, cea, &readers)?;
    let waiting = waiting_after(alloc, cea, state_sets, &readers, side)?;
    Ok((fresh, waiting))
}

/// Whether some leaf is in one of the sets.
fn have_leaf(cea: &Cea, fresh: &Bits, waiting: &Bits) -> bool
    requires fresh { IsSet cea.now.size fresh.now }
    requires waiting { IsSet cea.now.size waiting.now }
    ensures { result ≡ has_leaf (automaton_of_cea cea.now)
        (pair (has fresh.now) (has waiting.now)) }
{
    some_leaf(cea, fresh) || some_leaf(cea, waiting)
}

/// The successor of the start, or of a state, None where there is none.
pub fn successor(
    alloc: Global,
    cea: &Cea,
    state_sets: Option<&StateSets>,
    bits: &Bits,
    side: Side,
) -> Result<Option<StateSets>, Memory>
    requires { CanRead cea.now state_sets bits.now }
    ensures state_sets { IfOk result (λ r. IfSome r (HasLeavesBelow cea.now.size)) }
    ensures exact { IfOk result (λ r. option_map standing_of r
        ≡ next_standing (automaton_of_cea cea.now) cea.now.strict
        (standing (option_copied state_sets.entry)) (has bits.now) (takes_marked side)) }
{
    let phase = match phase_after(cea.strict, phase_of(state_sets), side) {
        Some(phase) => phase,
        None => return Ok(None),
    };
    let (fresh, waiting) = sets_after(alloc, cea, state_sets, bits, side)?;
    if !have_leaf(cea, &fresh, &waiting) {
        return Ok(None);
    }
    Ok(Some(StateSets {
        fresh,
        waiting,
        phase,
    }))
}
