//! The determinised automaton, which finds its states as events come.
ghost use Rattle.std.specs.Prelude.{◌≡◌, ◌≢◌, ℕ, ◌+◌, ◌<◌, ◌≤◌, Bool, true, false, List, [], ◌∷◌, ◌++◌, length, take, min, option_map, IfOk, IfErr, OnOk, OnErr, IfSome, All, Contains, IsOk, Some, None, Ok, slice_get, IfNone};
ghost use Rattle.std.specs.Option.{option_copied};
ghost use Rattle.std.specs.List.{IsDistinct, list_any};
ghost use Rattle.std.specs.Map.{lookup};
ghost use Rattle.cer_base.specs.Bits.{has, room_for};
ghost use Rattle.cea_determinise.specs.Keys.{is_same_key, is_same_set, are_same_sets};
ghost use Rattle.cea_determinise.specs.Runs.{accepts};
ghost use Rattle.cea_determinise.specs.LeafSets.{AreStatesOf};
ghost use Rattle.cea_determinise.specs.Cea.{automaton_of_cea, standing, standing_of, IsWellFormed, HasLeavesBelow};
ghost use Rattle.cea_determinise.specs.declared.cea.StateSets.{StateSets};
ghost use Rattle.cea_determinise.specs.declared.table.Successors.{Successors};
ghost use Rattle.cea_determinise.specs.Rows.{IsListed};
ghost use Rattle.cea_determinise.specs.LazyDfa.{sets_at, standing_at, event_class_at, AreSuccessors, IsSound, IsStoredPair, Reached, StaysWithin, AreBoth, IsNumber, Adds, AddsEventClass, TellsAccepting};

use crate::cea::{Cea, Side, StateSets};
use crate::places::Places;
use crate::rows::{CachedTransition, TransitionCache};
use crate::successor::successor;
use crate::table::{Both, EventClass, Sizes, State, Successors, TransitionKey};
use cer_base::Memory;
use cer_base::bits::Bits;
use cer_base::seed::Seed;
use cer_base::steps::Steps;
use indexmap::{IndexMap, IndexSet};
use std::alloc::Global;
use std::marker::Model;
use std::sync::ledger::Ledger;

/// So many classes are compared one by one before a hash is made.
const FIRST_EVENT_CLASSES: usize = 8;

/// The determinised automaton of a pattern, with the states met so far: seen as a `Table`.
///
/// Each state has one number, the start 0 and the others from 1 in the order in which they were met.
/// Events that the same leaves can read are of one class, which has a number too, from 0. A pair of
/// state and class is worked out once, and after that it is one look-up of two numbers.
#[derive(Drop)]
pub struct LazyDfa {
    /// Rows of states whose transitions are known.
    rows: TransitionCache,
    /// How many states, pairs and classes there are, in one place: they are asked for before each
    /// event.
    counts: Sizes,
    /// For each class the leaves that can read its events.
    event_classes: IndexSet<Bits, Seed>,
    /// For each state other than the start, by its number, whether it accepts, where there was memory
    /// for it.
    accepting: Vec<bool>,
    /// Where a pair may stand among the transitions, which is then tried before its hash is made.
    places: Places,
    transitions: IndexMap<TransitionKey, Successors, Seed>,
    states: IndexSet<StateSets, Seed>,
    cea: Cea,
    alloc: Global,
}

impl Model for LazyDfa {
    ghost use Rattle.std.specs.Prelude.{All};
    ghost use Rattle.cea_determinise.specs.LazyDfa.{Table, IsSound, TellsAccepting, TellsSizes};
    ghost use Rattle.cea_determinise.specs.Rows.{IsListed};

    ghost Value = { Table };

    ghost view = { λ d. record {
      cea = d.cea;
      states = d.states.keys;
      event_classes = d.event_classes.keys;
      transitions = d.transitions.entries;
    } };

    ghost invariant = { λ d. IsSound (record {
      cea = d.cea;
      states = d.states.keys;
      event_classes = d.event_classes.keys;
      transitions = d.transitions.entries;
    })
        × All (IsListed d.transitions.entries) d.rows
        × TellsAccepting d.cea d.states.keys d.accepting.items
        × TellsSizes d.states.keys d.event_classes.keys d.transitions.entries d.counts };
}

impl LazyDfa {
    /// The automaton with no state met yet, whose tables hash by the seed. It takes no memory.
    pub fn new(alloc: Global, seed: Seed, cea: Cea) -> LazyDfa
        requires { IsWellFormed cea }
        ensures { result ≡ record { cea = cea; states = []; event_classes = []; transitions = [] } }
    {
        LazyDfa {
            rows: TransitionCache::new(alloc),
            counts: Sizes {
                states: 0,
                pairs: 0,
                event_classes: 0,
            },
            event_classes: IndexSet::with_hasher(alloc, seed),
            accepting: Vec::new(alloc),
            places: Places::new(alloc),
            transitions: IndexMap::with_hasher(alloc, seed),
            states: IndexSet::with_hasher(alloc, seed),
            cea,
            alloc,
        }
    }

    /// The start.
    pub fn start(&self) -> State
        ensures { result ≡ 0 }
    {
        0
    }

    /// How many states other than the start were met. No state has two numbers.
    pub fn found(&self) -> u64
        ensures count { result ≡ length self.now.states }
        ensures once { IsDistinct are_same_sets self.now.states }
    {
        self.states.len() as u64
    }

    /// How many states other than the start, how many known pairs and how many classes there are.
    pub fn sizes(&self) -> Sizes
        ensures states { result.states ≡ length self.now.states }
        ensures pairs { result.pairs ≡ length self.now.transitions }
        ensures event_classes { result.event_classes ≡ length self.now.event_classes }
        ensures sound { IsSound self.now }
    {
        self.counts
    }

    /// The leaves that can read the events of the class.
    fn readers(&self, event_class: EventClass) -> &Bits
        requires { event_class < length self.now.event_classes }
        ensures bits { result.now ≡ event_class_at self.now.event_classes event_class }
        ensures room { length result.now ≡ room_for self.now.cea.size }
    {
        &self.event_classes.as_slice()[event_class as usize]
    }

    /// The sets of a state, None for the start.
    fn state_sets(&self, state: State) -> Option<&StateSets>
        requires { state ≤ length self.now.states }
        ensures value { option_copied result ≡ sets_at self.now.states state }
        ensures below { IfSome result (λ p. HasLeavesBelow self.now.cea.size p.now) }
    {
        if state == 0 {
            return None;
        }
        self.states.get_index((state - 1) as usize)
    }

    /// Whether the state accepts, worked out from its sets.
    fn work_out_accepts(&self, state: State) -> bool
        requires { state ≤ length self.now.states }
        ensures { result ≡ accepts (automaton_of_cea self.now.cea)
            (standing_at self.now.states state).sets }
    {
        match self.state_sets(state) {
            None => false,
            Some(state_sets) => state_sets.fresh.meets(&self.cea.last),
        }
    }

    /// Whether the state accepts: one of the leaves that read the last event may be the last.
    pub fn accepts(&self, state: State) -> bool
        requires { state ≤ length self.now.states }
        ensures { result ≡ accepts (automaton_of_cea self.now.cea)
            (standing_at self.now.states state).sets }
    {
        if state == 0 {
            return false;
        }
        match self.accepting.get((state - 1) as usize) {
            Some(cached) => *cached,
            None => self.work_out_accepts(state),
        }
    }

    /// Keeps the first so many states, pairs and classes. The pairs that stay are of states and
    /// classes that stay, and lead to states that stay.
    pub fn back(&mut self, sizes: Sizes)
        requires states { sizes.states ≤ length self.old.states }
        requires pairs { sizes.pairs ≤ length self.old.transitions }
        requires event_classes { sizes.event_classes ≤ length self.old.event_classes }
        requires within { All (StaysWithin sizes.states sizes.event_classes)
            (take sizes.pairs self.old.transitions) }
        ensures { self.new ≡ record {
          cea = self.old.cea;
          states = take sizes.states self.old.states;
          event_classes = take sizes.event_classes self.old.event_classes;
          transitions = take sizes.pairs
              self.old.transitions;
        } }
    {
        self.states.truncate(sizes.states as usize);
        self.transitions.truncate(sizes.pairs as usize);
        self.event_classes.truncate(sizes.event_classes as usize);
        self.accepting.truncate(sizes.states as usize);
        self.counts = sizes;
        self.rows.clear();
    }

    /// The class of these leaves, where it is known.
    fn cached_event_class(&self, bits: &Bits) -> Option<usize>
        ensures found { IfSome result (λ c. slice_get self.now.event_classes c ≡ Some bits.now) }
        ensures absent { IfNone result
            (list_any (is_same_set bits.now) self.now.event_classes ≡ false) }
    {
        match first_place(self.event_classes.as_slice(), bits) {
            Some(event_class) => Some(event_class),
            None => self.event_classes.get_index_of(bits),
        }
    }

    /// The number of the class of the events that these leaves can read. One step.
    ///
    /// Only a new class takes memory. After `Memory` nothing has changed.
    pub fn event_class<L: Ledger>(
        &mut self,
        bits: &Bits,
        steps: &mut Steps<L>,
    ) -> Result<EventClass, Memory>
        requires { length bits.now ≡ room_for self.old.cea.size }
        ensures event_class { IfOk result
            (λ c. slice_get self.new.event_classes c ≡ Some bits.now) }
        ensures inside { IfOk result (λ c. c < length self.new.event_classes) }
        ensures same { (self.new.cea ≡ self.old.cea) × (self.new.states ≡ self.old.states) }
        ensures added { AddsEventClass bits.now self.old self.new }
        ensures cached { Contains self.old.event_classes bits.now → IsOk result
            × (self.new ≡ self.old) }
        ensures refused { OnErr result (self.new ≡ self.old) }
        ensures steps { steps.new ≡ steps.old + 1 }
    {
        steps.tick();
        if let Some(event_class) = self.cached_event_class(bits) {
            return Ok(event_class as u64);
        }
        let copy = bits.copy(self.alloc)?;
        let (event_class, _) = self.event_classes.insert_full(copy)?;
        self.counts.event_classes = self.event_classes.len() as u64;
        Ok(event_class as u64)
    }

    /// The successors of the pair, where it stands at the place that was told of it.
    fn placed(&self, key: TransitionKey) -> Option<Successors>
        ensures { IfSome result (IsStoredPair self.now key) }
    {
        match self.transitions.get_index(self.places.get(key)) {
            None => None,
            Some((stored, found)) => { if *stored == key { Some(*found) } else { None } }
        }
    }

    /// The successors of the pair, where it is known.
    fn cached(&self, key: TransitionKey) -> Option<Successors>
        ensures value { result ≡ lookup (is_same_key key) self.now.transitions }
        ensures right { IfSome result
            (AreSuccessors self.now.cea self.now.states self.now.event_classes
            key) }
    {
        match self.placed(key) {
            Some(found) => Some(found),
            None => self.transitions.get(&key).copied(),
        }
    }

    /// The row that was kept under the number, or another one. One step, also where there is none.
    pub fn cached_transition<L: Ledger>(
        &self,
        number: u64,
        steps: &mut Steps<L>,
    ) -> Option<&CachedTransition>
        ensures listed { IfSome result (λ r. IsListed self.now.transitions r.now) }
        ensures sound { IsSound self.now }
        ensures steps { steps.new ≡ steps.old + 1 }
    {
        steps.tick();
        self.rows.get(number)
    }

    /// Keeps the row under the number, which is below `ROW_NUMBERS`. Where there is no memory it is
    /// not kept.
    pub fn keep_row(&mut self, number: u64, row: CachedTransition)
        requires { IsListed self.old.transitions row }
        ensures { self.new ≡ self.old }
    {
        self.rows.put(number, row);
    }

    /// Both successors of the state on an event of the class.
    fn both(&self, key: TransitionKey) -> Result<Both, Memory>
        requires state { key.state ≤ length self.now.states }
        requires event_class { key.event_class < length self.now.event_classes }
        ensures { IfOk result
            (AreBoth self.now key.state (event_class_at self.now.event_classes key.event_class)) }
    {
        let state_sets = self.state_sets(key.state);
        let bits = self.readers(key.event_class);
        let marked = successor(self.alloc, &self.cea, state_sets, bits, Side::Marked)?;
        let unmarked = successor(self.alloc, &self.cea, state_sets, bits, Side::Unmarked)?;
        Ok(Both { marked, unmarked })
    }

    /// Numbers both, and puts them into the table of transitions. Two steps.
    fn enter<L: Ledger>(
        &mut self,
        key: TransitionKey,
        both: Both,
        steps: &mut Steps<L>,
    ) -> Result<Successors, Memory>
        requires state { key.state ≤ length self.old.states }
        requires event_class { key.event_class < length self.old.event_classes }
        requires both { AreBoth self.old key.state
            (event_class_at self.old.event_classes key.event_class) both }
        requires new { lookup (is_same_key key) self.old.transitions ≡ None }
        ensures successors { IfOk result (AreSuccessors self.new.cea self.new.states
            self.new.event_classes key) }
        ensures states { Reached self.old key.state
            (event_class_at self.old.event_classes key.event_class) self.new }
        ensures pairs { OnErr result (self.new.transitions ≡ self.old.transitions) }
        ensures entered { IfOk result (λ s. self.new.transitions ≡ self.old.transitions
            ++ (key, s) ∷ []) }
        ensures steps { steps.new ≡ steps.old + 2 }
    {
        steps.tick_times(2);
        let marked = number(&mut self.states, &mut self.counts.states, both.marked)?;
        let unmarked = number(&mut self.states, &mut self.counts.states, both.unmarked)?;
        let found = Successors { marked, unmarked };
        // Where this has no memory, it is worked out at each call whether the state accepts.
        let _told = tell_accepting(&mut self.accepting, &self.cea, &self.states);
        // Where this has no memory, the pair is found by its hash.
        let _told = self.places.put(key, self.transitions.len());
        self.transitions.insert(key, found)?;
        self.counts.pairs = self.transitions.len() as u64;
        Ok(found)
    }

    /// The successors of the state on an event of the class.
    ///
    /// A known pair is one step, takes no memory and changes nothing. A new one is worked out and
    /// kept, which is three steps: the look-up, and a number for each of the two successors; after
    /// `Memory` there were no more. After `Memory` all is as it was, but that states may stand last
    /// that are successors of this pair.
    pub fn next<L: Ledger>(
        &mut self,
        state: State,
        event_class: EventClass,
        steps: &mut Steps<L>,
    ) -> Result<Successors, Memory>
        requires state { state ≤ length self.old.states }
        requires event_class { event_class < length self.old.event_classes }
        ensures successors { IfOk result (AreSuccessors self.new.cea self.new.states
            self.new.event_classes (record { state = state; event_class = event_class })) }
        ensures cached { (s : Successors) → lookup
            (is_same_key (record { state = state; event_class = event_class })) self.old.transitions
            ≡ Some s
            → (result ≡ Ok s) × (self.new ≡ self.old) × (steps.new ≡ steps.old + 1) }
        ensures states { Reached self.old state
            (event_class_at self.old.event_classes event_class) self.new }
        ensures pairs { OnErr result (self.new.transitions ≡ self.old.transitions) }
        ensures new { lookup (is_same_key (record { state = state; event_class = event_class }))
            self.old.transitions ≡ None → IfOk result
            (λ s. self.new.transitions ≡ self.old.transitions
            ++ (record { state = state; event_class = event_class }, s) ∷ []) }
        ensures new_steps { lookup
            (is_same_key (record { state = state; event_class = event_class }))
            self.old.transitions ≡ None → OnOk result (steps.new ≡ steps.old + 3) }
        ensures steps { steps.new ≤ steps.old + 3 }
        ensures counted { steps.old + 1 ≤ steps.new }
    {
        let key = TransitionKey { state, event_class };
        steps.tick();
        if let Some(cached) = self.cached(key) {
            return Ok(cached);
        }
        let both = self.both(key)?;
        self.enter(key, both, steps)
    }
}

/// The number of the state, which is the next one where the state is new. The states are counted.
fn number(
    states: &mut IndexSet<StateSets, Seed>,
    count: &mut u64,
    state_sets: Option<StateSets>,
) -> Result<Option<State>, Memory>
    requires { count.old ≡ length states.old.keys }
    ensures numbered { IfOk result (IsNumber states.new.keys state_sets) }
    ensures added { Adds state_sets states.old.keys states.new.keys }
    ensures counted { count.new ≡ length states.new.keys }
{
    match state_sets {
        None => Ok(None),
        Some(state_sets) => {
            let (index, _) = states.insert_full(state_sets)?;
            *count = states.len() as u64;
            Ok(Some(index.min(states.len()) as u64 + 1))
        }
    }
}

/// Tells of the states that the table lacks whether they accept, as far as there is memory.
fn tell_accepting(
    accepting: &mut Vec<bool>,
    cea: &Cea,
    states: &IndexSet<StateSets, Seed>,
) -> Result<(), Memory>
    requires states { AreStatesOf cea.now states.now.keys }
    requires told { TellsAccepting cea.now states.now.keys accepting.old.items }
    ensures { TellsAccepting cea.now states.now.keys accepting.new.items }
{
    for k in accepting.len()..states.len() {
        let state_sets = &states.as_slice()[k];
        accepting.push(state_sets.fresh.meets(&cea.last))?;
    }
    Ok(())
}

/// Where the set stands among the first classes.
fn first_place(event_classes: &[Bits], bits: &Bits) -> Option<usize>
    ensures { IfSome result (λ k. slice_get event_classes.now k ≡ Some bits.now) }
{
    for k in 0..event_classes.len().min(FIRST_EVENT_CLASSES) {
        if event_classes[k] == *bits {
            return Some(k);
        }
    }
    None
}
