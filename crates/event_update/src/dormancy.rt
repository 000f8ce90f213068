//! Dormant lists, which an event that no leaf can read leaves as they are, and automata whose lists
//! may let such an event pass in any case; and whether some state with open matches accepts.

ghost use Rattle.std.specs.Prelude.{◌≡◌, ℕ, ◌≤◌, false, true, [], length, All, slice_index_or};
ghost use Rattle.std.specs.List.{list_any};
ghost use Rattle.cer_base.specs.Bits.{has};
ghost use Rattle.cea_determinise.specs.Cea.{automaton_of_cea, IsWellFormed};
ghost use Rattle.event_update.specs.ActiveLists.{keys};
ghost use Rattle.event_update.specs.Dormancy.{does_accept, DormantListsStand, UnchangedListsAreDormant, DormantListsStayDormant, DormantListsAcceptNone, AcceptingListsAreNeeded, NoOpListsStand, NoOpListsStayNoOp, IsSkipInsensitive, SkipInsensitiveListsStand};

use crate::ActiveStates;
use cea_determinise::cea::Cea;
use cea_determinise::lazy_dfa::LazyDfa;
use cer_base::bits::Bits;

/// Whether some state with open matches accepts. No step is counted.
pub fn some_accepts(active: &ActiveStates, lazy_dfa: &LazyDfa) -> bool
    requires states { All (λ n. n ≤ length lazy_dfa.now.states) (keys active.now) }
    ensures { result ≡ list_any (does_accept lazy_dfa.now) (keys active.now) }
{
    for k in 0..active.len() {
        if lazy_dfa.accepts(active.state(k)) {
            return true;
        }
    }
    false
}

/// Where lists are dormant, what stands for a key's events stands for them and an event that no
/// leaf can read: no work is to be done for it. A law; the call does nothing.
pub fn dormant_lists_stand()
    ensures { DormantListsStand }
{}

/// Lists that such an event has left as they are are dormant. A law.
pub fn unchanged_lists_are_dormant()
    ensures { UnchangedListsAreDormant }
{}

/// Lists are dormant as the table grows. A law.
pub fn dormant_lists_stay_dormant()
    ensures { DormantListsStayDormant }
{}

/// No state of dormant lists accepts; and where none accepts there is no entry of one that does.
/// Two laws.
pub fn dormant_lists_accept_none()
    ensures dormant { DormantListsAcceptNone }
    ensures accepting { AcceptingListsAreNeeded }
{}

/// Where an event is a no-op for lists, what stands for a key's events stands for them and the
/// event, and as the table grows such events stay no-ops for them. Two laws.
pub fn no_op_lists_stand()
    ensures stand { NoOpListsStand }
    ensures stay { NoOpListsStayNoOp }
{}

/// Whether each set is empty.
fn are_empty(sets: &[Bits]) -> bool
    ensures { result ≡ true → (j k : ℕ) → has (slice_index_or sets.now j []) k ≡ false }
{
    for j in 0..sets.len() {
        if !sets[j].is_empty() {
            return false;
        }
    }
    true
}

/// Whether the automaton is skip-insensitive: whether no leaf has a near follower, and marked
/// events need not be contiguous.
pub fn is_skip_insensitive(cea: &Cea) -> bool
    requires { IsWellFormed cea.now }
    ensures { result ≡ true → IsSkipInsensitive (automaton_of_cea cea.now) cea.now.strict }
{
    if cea.strict {
        return false;
    }
    are_empty(cea.near.as_slice())
}

/// The lists of a skip-insensitive automaton may let pass what no leaf can read: after a later
/// event they are the same. A law.
pub fn skip_insensitive_lists_stand()
    ensures { SkipInsensitiveListsStand }
{}
