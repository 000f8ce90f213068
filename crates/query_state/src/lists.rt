//! The lists of a key, and whether an event that no leaf can read is known to leave them as they are.

ghost use Rattle.std.specs.Prelude.{◌≡◌, ℕ, ◌+◌, ◌-◌, ◌<◌, Bool, List, [], length, map, All, Some, IfSome, slice_get, slice_set, slice_index_or, true, false};
ghost use Rattle.cea_determinise.specs.LazyDfa.{Table};
ghost use Rattle.event_update.specs.ActiveLists.{keys};
ghost use Rattle.event_update.specs.Dormancy.{HasNoReader, IsDormantState, AreDormant, AreNoOp};
ghost use Rattle.event_update.specs.declared.Staged.TheVariants.{Unchanged};
ghost use Rattle.event_update.specs.Update.{rows_after};
ghost use Rattle.query_state.specs.Matches.{IsNoOpSet, MayBeDormant, active_keys_in, AreDormantStates, AreKnown, IsNumberOf};

use arena_compact::HasLists;
use cea_determinise::table::State;
use cer_base::bits::Bits;
use event_update::{ActiveStates, Stage, Staged, commit};
use std::alloc::Global;

/// The lists of a key.
#[derive(Drop)]
pub struct Lists {
    pub active: ActiveStates,
    /// Whether an event that no leaf can read is known to leave them as they are.
    pub is_dormant: bool,
    /// The number of a set of leaves whose events are known to leave them as they are: of those that
    /// can read the last event that did.
    pub no_op: Option<u8>,
}

impl Lists {
    /// Those of a new key, which are none.
    pub fn none(alloc: Global) -> Lists
        ensures none { result.active.entries ≡ [] }
        ensures is_dormant { (t : Table) (sets : List (List Bool)) → MayBeDormant t sets result }
        ensures known { result.is_dormant ≡ true }
    {
        Lists {
            active: ActiveStates::new(alloc),
            is_dormant: true,
            no_op: None,
        }
    }

    /// Puts them in place. They are dormant where the event leaves them as they were and they were
    /// dormant.
    fn replace(&mut self, stage: &mut Stage, staged: Staged)
        ensures { AreKnown (λ t sets. MayBeDormant t sets self.old)
            (rows_after self.old.active.entries staged) self.new }
    {
        let stays = is_unchanged(&staged);
        commit(&mut self.active, stage, staged);
        if !stays {
            self.forget();
        }
    }

    /// Puts the staged lists in place. If that is looked at, they are dormant too where their
    /// states are all known to be dormant.
    pub fn put(&mut self, dormant_states: &[bool], looks: bool, stage: &mut Stage, staged: Staged)
        ensures { AreKnown
            (λ t sets. AreDormantStates t dormant_states.now × MayBeDormant t sets self.old)
            (rows_after self.old.active.entries staged) self.new }
    {
        self.replace(stage, staged);
        if looks {
            self.look(dormant_states);
        }
    }

    /// Nothing is known of them, but that they are dormant where there are none.
    fn forget(&mut self)
        ensures { AreKnown (λ t sets. Unit {0}) self.old.active.entries self.new }
    {
        self.is_dormant = self.active.len() == 0;
        self.no_op = None;
    }

    /// Notes that they are dormant, where their states are all known to be dormant.
    pub fn look(&mut self, dormant_states: &[bool])
        ensures { AreKnown
            (λ t sets. AreDormantStates t dormant_states.now × MayBeDormant t sets self.old)
            self.old.active.entries self.new }
    {
        if are_dormant_states(&self.active, dormant_states) {
            self.is_dormant = true;
        }
    }

    /// Looks at them anew.
    pub fn look_again(&mut self, dormant_states: &[bool])
        ensures { AreKnown (λ t sets. AreDormantStates t dormant_states.now)
            self.old.active.entries self.new }
    {
        self.forget();
        self.look(dormant_states);
    }

    /// Notes that events of the leaves of the set of this number leave them as they are, where one is
    /// told.
    pub fn learn(&mut self, number: Option<u8>)
        ensures are { AreKnown (λ t sets. IfSome number (IsNoOpSet t sets self.old.active.entries)
            × MayBeDormant t sets self.old) self.old.active.entries self.new }
        ensures known { self.new.is_dormant ≡ self.old.is_dormant }
    {
        self.no_op = number;
    }

    /// Whether events of these leaves are known to leave them as they are, by the sets of leaves.
    pub fn let_pass(&self, sets: &[Bits], bits: &Bits) -> bool
        ensures { result ≡ true → (t : Table) → MayBeDormant t sets.now self.now
            → AreNoOp t bits.now self.now.active.entries }
    {
        match self.no_op {
            Some(number) => is_set(sets, number, bits),
            None => false,
        }
    }
}

/// Whether the set of this number is that of these leaves.
fn is_set(sets: &[Bits], number: u8, bits: &Bits) -> bool
    ensures { result ≡ true → slice_get sets.now number ≡ Some bits.now }
{
    match sets.get(number as usize) {
        Some(known) => known == bits,
        None => false,
    }
}

/// So many sets of leaves are kept, by which lists tell whose events leave them as they are.
const KEPT_SETS: u8 = 64;

/// The number as one of a set.
fn short(number: usize) -> Option<u8>
    ensures { IfSome result (λ n. n ≡ number) }
{
    match u8::try_from(number) {
        Ok(n) => Some(n),
        Err(_) => None,
    }
}

/// The number of the set of these leaves, where it is kept.
fn find_set(sets: &[Bits], bits: &Bits) -> Option<u8>
    ensures { IfSome result (λ n. slice_get sets.now n ≡ Some bits.now) }
{
    for number in 0..short(sets.len())? {
        if is_set(sets, number, bits) {
            return Some(number);
        }
    }
    None
}

/// Keeps the set, where there is room and memory for it. Its number.
fn add_set(sets: &mut Vec<Bits>, alloc: Global, bits: &Bits) -> Option<u8>
    ensures { IsNumberOf result sets.old.items sets.new.items bits.now }
{
    let number = short(sets.len())?;
    if KEPT_SETS <= number {
        return None;
    }
    let Ok(copy) = bits.copy(alloc) else {
        return None;
    };
    match sets.push(copy) {
        Ok(()) => Some(number),
        Err(_) => None,
    }
}

/// The number of the set of these leaves, which is put in where there is room and memory for it.
pub fn number_of_set(sets: &mut Vec<Bits>, alloc: Global, bits: &Bits) -> Option<u8>
    ensures { IsNumberOf result sets.old.items sets.new.items bits.now }
{
    match find_set(sets.as_slice(), bits) {
        Some(number) => Some(number),
        None => add_set(sets, alloc, bits),
    }
}

impl HasLists for Lists {
    ghost rows = { λ l. l.active.entries };

    fn lists(&self) -> &ActiveStates {
        &self.active
    }

    fn take(&mut self) -> ActiveStates {
        self.active.take()
    }

    fn put(&mut self, lists: ActiveStates) {
        self.active = lists;
    }
}

/// Whether no list changes.
pub fn is_unchanged(staged: &Staged) -> bool
    ensures { result ≡ true → staged.now ≡ Unchanged }
{
    matches!(staged, Staged::Unchanged)
}

/// Whether an event that no leaf can read is known to leave the state's list as it is.
fn is_dormant_state(dormant_states: &[bool], state: State) -> bool
    ensures { result ≡ slice_index_or dormant_states.now state false }
{
    match dormant_states.get(state as usize) {
        Some(known) => *known,
        None => false,
    }
}

/// Whether the lists' states are all known to be dormant.
fn are_dormant_states(active: &ActiveStates, dormant_states: &[bool]) -> bool
    ensures { result ≡ true
        → All (λ n. slice_index_or dormant_states.now n false ≡ true) (keys active.now) }
{
    for k in 0..active.len() {
        if !is_dormant_state(dormant_states, active.state(k)) {
            return false;
        }
    }
    true
}

/// Makes room for a number at the place, where there is memory.
fn make_room(dormant_states: &mut Vec<bool>, place: usize)
    ensures { (n : ℕ) → slice_index_or dormant_states.new.items n false
        ≡ slice_index_or dormant_states.old.items n false }
{
    if place >= dormant_states.len() {
        let _filled = dormant_states.resize(place.saturating_add(1), false);
    }
}

/// Notes that the state is dormant, where there is memory.
fn mark(dormant_states: &mut Vec<bool>, state: State)
    ensures { (t : Table) → AreDormantStates t dormant_states.old.items → IsDormantState t state
        → AreDormantStates t dormant_states.new.items }
{
    let place = state as usize;
    make_room(dormant_states, place);
    if place < dormant_states.len() {
        dormant_states[place] = true;
    }
}

/// Notes that the lists' states are dormant.
fn mark_all(dormant_states: &mut Vec<bool>, active: &ActiveStates)
    ensures { (t : Table) → AreDormantStates t dormant_states.old.items
        → All (IsDormantState t) (keys active.now)
        → AreDormantStates t dormant_states.new.items }
{
    for k in 0..active.len() {
        mark(dormant_states, active.state(k));
    }
}

/// Notes that the states of a key's lists are still, where an event that no leaf can read leaves
/// them as they are.
pub fn note(dormant_states: &mut Vec<bool>, active: &ActiveStates, bits: &Bits, staged: &Staged)
    ensures { (t : Table) → AreDormantStates t dormant_states.old.items
        → (HasNoReader bits.now → staged.now ≡ Unchanged
        → AreDormant t active.now.entries) → AreDormantStates t dormant_states.new.items }
{
    if !is_unchanged(staged) || !bits.is_empty() {
        return;
    }
    mark_all(dormant_states, active);
}

/// Gives back room for lists, where it is for more than four times as many as there are, and 64. Where
/// the smaller room cannot be had, it stays as it is.
pub fn shrink(lists: &mut Vec<Lists>)
    ensures { lists.new.items ≡ lists.old.items }
{
    let count = lists.len();
    if lists.capacity() / 4 > count + 16 {
        lists.shrink_to(2 * count);
    }
}

/// How many keys' lists are not known to be dormant, of so many, once it is looked at one of them
/// again.
fn recount(active_keys: u64, count: u64, rested: bool, is_dormant: bool) -> u64
    ensures same { rested ≡ is_dormant → result ≡ active_keys }
    ensures fewer { rested ≡ false → is_dormant ≡ true → result ≡ active_keys - 1 }
    ensures more { rested ≡ true → is_dormant ≡ false → active_keys < count
        → result ≡ active_keys + 1 }
{
    if rested == is_dormant {
        return active_keys;
    }
    if is_dormant {
        return active_keys.saturating_sub(1);
    }
    if active_keys < count {
        active_keys + 1
    } else {
        active_keys
    }
}

/// Puts a key's lists in place, and counts anew. It is told whether to look whether they are
/// dormant now.
pub fn put_lists(
    lists: &mut [Lists],
    active_keys: &mut u64,
    dormant_states: &[bool],
    looks: bool,
    stage: &mut Stage,
    number: u64,
    staged: Staged,
)
    requires inside { number < length lists.old }
    requires active_keys { active_keys.old ≡ active_keys_in lists.old }
    ensures rows { map (λ l. l.active.entries) lists.new
        ≡ slice_set (map (λ l. l.active.entries) lists.old) number (rows_after
        (slice_index_or (map (λ l. l.active.entries) lists.old) number []) staged) }
    ensures is_dormant { (t : Table) (sets : List (List Bool))
        → AreDormantStates t dormant_states.now
        → All (MayBeDormant t sets) lists.old
        → All (MayBeDormant t sets) lists.new }
    ensures active_keys { active_keys.new ≡ active_keys_in lists.new }
{
    let count = lists.len() as u64;
    let own = &mut lists[number as usize];
    let rested = own.is_dormant;
    own.put(dormant_states, looks, stage, staged);
    *active_keys = recount(*active_keys, count, rested, own.is_dormant);
}

/// Looks at all lists anew. How many are not known to be dormant.
pub fn look_over(lists: &mut [Lists], dormant_states: &[bool]) -> u64
    ensures rows { map (λ l. l.active.entries) lists.new ≡ map (λ l. l.active.entries) lists.old }
    ensures is_dormant { (t : Table) (sets : List (List Bool))
        → AreDormantStates t dormant_states.now
        → All (MayBeDormant t sets) lists.new }
    ensures active_keys { result ≡ active_keys_in lists.new }
{
    let mut active_keys: u64 = 0;
    for k in 0..lists.len() {
        lists[k].look_again(dormant_states);
        if !lists[k].is_dormant {
            active_keys += 1;
        }
    }
    active_keys
}
