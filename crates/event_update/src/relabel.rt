//! Events that start nothing and let each list go, as it is, to one state of its own: only the
//! states of the lists change.
ghost use Rattle.std.specs.Prelude.{◌≡◌, ℕ, ◌<◌, true, List, [], ◌∷◌, ◌++◌, length, Some, None, All, IfOk, IfSome, OnOk, nat_eq};
ghost use Rattle.std.specs.List.{IsDistinct};
ghost use Rattle.cea_determinise.specs.declared.table.Successors.{Successors};
ghost use Rattle.event_update.specs.Update.{IsOther, GoesOn};
ghost use Rattle.cea_determinise.specs.Rows.{GoTo};

use crate::moves::is_none;
use cea_determinise::table::{State, Successors};
use cer_base::Memory;
use std::alloc::Global;
use std::marker::Model;
use std::sync::Arc;

/// A state for each list, in the order of the lists: where the list goes. None stands twice.
#[derive(Drop)]
pub struct Targets {
    states: Arc<Vec<State>>,
}

impl Model for Targets {
    ghost use Rattle.std.specs.Prelude.{ℕ, List, nat_eq};
    ghost use Rattle.std.specs.List.{IsDistinct};

    ghost Value = { List ℕ };

    ghost view = { λ t. t.states.value.items };

    ghost invariant = { λ t. IsDistinct nat_eq t.states.value.items };
}

impl Targets {
    /// These states, of which none stands twice. It takes no memory.
    pub fn of(states: Arc<Vec<State>>) -> Targets
        requires { IsDistinct nat_eq states.value.items }
        ensures { result ≡ states.value.items }
    {
        Targets { states }
    }

    /// The states, in order. None stands twice.
    pub fn as_slice(&self) -> &[State]
        ensures states { result.now ≡ self.now }
        ensures unique { IsDistinct nat_eq self.now }
    {
        self.states.as_slice()
    }
}

/// States of which none stands twice, as they are found.
#[derive(Drop)]
struct Apart {
    states: Vec<State>,
}

impl Model for Apart {
    ghost use Rattle.std.specs.Prelude.{ℕ, List, nat_eq};
    ghost use Rattle.std.specs.List.{IsDistinct};

    ghost Value = { List ℕ };

    ghost view = { λ a. a.states.items };

    ghost invariant = { λ a. IsDistinct nat_eq a.states.items };
}

impl Apart {
    /// No state. It takes no memory.
    fn new(alloc: Global) -> Apart
        ensures { result ≡ [] }
    {
        Apart {
            states: Vec::new(alloc),
        }
    }

    /// The states, in order.
    fn into_states(self) -> Vec<State>
        ensures states { result.items ≡ self }
        ensures unique { IsDistinct nat_eq self }
    {
        self.states
    }

    /// Whether the state is none of these.
    fn is_other(&self, state: State) -> bool
        ensures { result ≡ true → IsOther state self.now }
    {
        let states = self.states.as_slice();
        for k in 0..states.len() {
            if states[k] == state {
                return false;
            }
        }
        true
    }

    /// One state more, which is none of these.
    fn push(&mut self, state: State) -> Result<(), Memory>
        requires { IsOther state self.old }
        ensures { OnOk result (self.new ≡ self.old ++ state ∷ []) }
    {
        self.states.push(state)?;
        Ok(())
    }
}

/// The successor, where it is the only one and not marked.
fn only(to: Successors) -> Option<State>
    ensures { IfSome result (GoesOn to) }
{
    match (to.marked, to.unmarked) {
        (None, Some(state)) => Some(state),
        _ => None,
    }
}

/// One list more goes to its state's successor, where that is the only one, not marked, and none
/// of these.
fn take(targets: &mut Apart, to: Successors) -> Result<bool, Memory>
    ensures { IfOk result (λ taken. taken ≡ true → (n : ℕ) × GoesOn to n
        × (targets.new ≡ targets.old ++ n ∷ [])) }
{
    match only(to) {
        None => Ok(false),
        Some(state) => {
            if !targets.is_other(state) {
                return Ok(false);
            }
            targets.push(state)?;
            Ok(true)
        }
    }
}

/// Where the lists go, where the start has no successor and each state has one of its own, not
/// marked.
pub fn find_targets(alloc: Global, moves: &[Successors]) -> Result<Option<Vec<State>>, Memory>
    requires { 0 < length moves.now }
    ensures go { IfOk result (λ t. IfSome t (λ ns. GoTo ns.items moves.now)) }
    ensures unique { IfOk result (λ t. IfSome t (λ ns. IsDistinct nat_eq ns.items)) }
{
    if !is_none(moves[0]) {
        return Ok(None);
    }
    let mut targets = Apart::new(alloc);
    for k in 1..moves.len() {
        if !take(&mut targets, moves[k])? {
            return Ok(None);
        }
    }
    Ok(Some(targets.into_states()))
}
