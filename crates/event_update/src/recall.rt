//! Rows of states that were met before on events of the same class: what the event does to them is
//! found at once.
ghost use Rattle.std.specs.Prelude.{◌≡◌, ℕ, ◌+◌, true, ◌∷◌, length, IfOk, IfSome};
ghost use Rattle.cea_determinise.specs.Rows.{IsEffect};
ghost use Rattle.event_update.specs.ActiveLists.{keys};
ghost use Rattle.event_update.specs.Update.{AreCached, AreMoves, IsRowOf};

use crate::ActiveStates;
use crate::moves::stay;
use crate::relabel::find_targets;
use cea_determinise::lazy_dfa::LazyDfa;
use cea_determinise::rows::{CachedTransition, Effect, ROW_NUMBERS};
use cea_determinise::table::{EventClass, State, Successors};
use cer_base::Memory;
use cer_base::steps::Steps;
use smallvec::SmallVec;
use std::sync::Arc;
use std::sync::ledger::Ledger;

/// A number below `ROW_NUMBERS` for the states and the class, the same for the same ones.
pub fn row_number(active: &ActiveStates, event_class: EventClass) -> u64 {
    let mut number = event_class % ROW_NUMBERS * 83 % ROW_NUMBERS;
    for k in 0..active.len() {
        number = (number * 5 + active.state(k) % ROW_NUMBERS) % ROW_NUMBERS;
    }
    number
}

/// Whether the states with open matches are these, in order.
fn are_states(active: &ActiveStates, states: &[State]) -> bool
    ensures { result ≡ true → keys active.now ≡ states.now }
{
    let len = active.len();
    if states.len() != len {
        return false;
    }
    for k in 0..len {
        if active.state(k) != states[k] {
            return false;
        }
    }
    true
}

/// What is kept of these states on events of the class, where the row under the number is theirs.
/// One step.
pub fn recall<'a, L: Ledger>(
    active: &ActiveStates,
    lazy_dfa: &'a LazyDfa,
    event_class: EventClass,
    number: u64,
    steps: &mut Steps<L>,
) -> Option<&'a CachedTransition>
    ensures row { IfSome result (λ r. IsRowOf (keys active.now) r.now) }
    ensures cached { IfSome result (λ r. AreCached lazy_dfa.now event_class (0 ∷ keys active.now)
        r.now.successors.items) }
    ensures steps { steps.new ≡ steps.old + 1 }
{
    match lazy_dfa.cached_transition(number, steps) {
        None => None,
        Some(row) => {
            if row.event_class == event_class && are_states(active, row.states.as_slice()) {
                Some(row)
            } else {
                None
            }
        }
    }
}

/// The states in order.
fn states_of(active: &ActiveStates) -> Result<SmallVec<State, 3>, Memory>
    ensures { IfOk result (λ states. states.items ≡ keys active.now) }
{
    let len = active.len();
    let mut states = SmallVec::with_capacity(*active.allocator(), len)?;
    for k in 0..len {
        states.push(active.state(k))?;
    }
    Ok(states)
}

/// What the event does to the states, whose successors these are, the start's first.
fn effect_of(active: &ActiveStates, moves: &[Successors]) -> Result<Effect, Memory>
    requires { length moves.now ≡ 1 + length active.now.entries }
    ensures { IfOk result (λ effect. IsEffect effect (keys active.now) moves.now) }
{
    let alloc = *active.allocator();
    if stay(active, moves) {
        return Ok(Effect::Stays);
    }
    match find_targets(alloc, moves)? {
        None => Ok(Effect::Changes),
        Some(targets) => match Arc::new(alloc, targets) {
            Ok(shared) => Ok(Effect::Moves(shared)),
            Err(_) => Err(Memory),
        },
    }
}

/// The row of the states, whose successors on events of the class are these, the start's first.
pub fn row_of(
    active: &ActiveStates,
    event_class: EventClass,
    moves: &[Successors],
) -> Result<CachedTransition, Memory>
    requires moves { AreMoves active.now.entries moves.now }
    ensures row { IfOk result (IsRowOf (keys active.now)) }
    ensures event_class { IfOk result (λ r. r.event_class ≡ event_class) }
    ensures successors { IfOk result (λ r. r.successors.items ≡ moves.now) }
{
    let states = states_of(active)?;
    let successors = SmallVec::from_slice(*active.allocator(), moves)?;
    let effect = effect_of(active, moves)?;
    Ok(CachedTransition {
        event_class,
        effect,
        states,
        successors,
    })
}
