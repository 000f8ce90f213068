//! The open matches of a query, key by key.

ghost use Rattle.std.specs.Prelude.{◌≡◌, ℕ, ◌+◌, ◌-◌, ◌*◌, ◌<◌, ◌≤◌, ◌⊎◌, false, List, [], ◌∷◌, ◌++◌, length, map, get_or, All, Contains, Some, slice_get, slice_set, slice_index_or, IfOk, OnOk, OnErr, IfNone, MatchOption, IfSome, true};
ghost use Rattle.cer_base.specs.Bits.{room_for};
ghost use Rattle.cer_base.specs.Nodes.{AreInStep, WellFormed};
ghost use Rattle.cer_base.specs.declared.node.Node.TheVariants.{Bottom};
ghost use Rattle.cea_determinise.specs.Cea.{IsWellFormed};
ghost use Rattle.cea_determinise.specs.LazyDfa.{IsSound};
ghost use Rattle.stream_schema.specs.declared.Value.{Value as Datum};
ghost use Rattle.event_update.specs.ActiveLists.{keys};
ghost use Rattle.event_update.specs.Dormancy.{HasNoReader, AreDormant, AreNoOp};
ghost use Rattle.event_update.specs.declared.Staged.TheVariants.{Unchanged};
ghost use Rattle.partition_table.specs.Keys.{are_at};
ghost use Rattle.query_standing.specs.Kept.{Rows};
ghost use Rattle.event_update.specs.Update.{rows_after, work_bound};
ghost use Rattle.tecs_enumerate.specs.Remaining.{CursorState, rest, recent_of, Fits};
ghost use Rattle.union_lists.specs.Lists.{IsUnionList};
ghost use Rattle.arena_compact.specs.Roots.{places};
ghost use Rattle.arena_compact.specs.Compacted.{least_of, Compacted, KeysCompacted, CursorCompacted};
ghost use Rattle.query_standing.specs.Giving.{AreRemoved};
ghost use Rattle.query_state.specs.Dropping.{HaveListsButOne};
ghost use Rattle.query_state.specs.Matches.{OpenMatches, HasStatesOnce, MayBeDormant, active_keys_in, AreDormantStates, HasKeyThere, HasNoneOf, HasBegun, MayPass, none_open, cut, CanCut, AreSizes, TakesKey, CanTake, IsReady, HasWorked, CanList, entries_for, CanWork, HasAdvanced, GivesNext};

use crate::dropping::{key_to_stay, number_of, remove_all};
use crate::lists::{Lists, is_unchanged, look_over, note, number_of_set, put_lists, shrink};
use arena_compact::{HasCursor, Room, compact};
use cea_determinise::cea::Cea;
use cea_determinise::lazy_dfa::LazyDfa;
use cea_determinise::table::Sizes as TableSizes;
use cer_base::Memory;
use cer_base::bits::Bits;
use cer_base::node::{Root, Stamp};
use cer_base::seed::Seed;
use cer_base::steps::Steps;
use cer_base::store::NodeStore;
use cer_base::time::LowTime;
use event_update::dormancy::some_accepts;
use event_update::{Stage, Staged, are_recent, prepare, roots};
use partition_table::{Key, Keys};
use std::alloc::Global;
use std::marker::Model;
use std::sync::ledger::Ledger;
use stream_schema::Value;
use tecs_arena::Arena;
use tecs_enumerate::Cursor;

/// How many states, pairs, classes, nodes and keys there are.
#[derive(Drop, Clone, Copy)]
pub struct Sizes {
    pub lazy_dfa: TableSizes,
    pub nodes: u64,
    pub keys: u64,
}

/// The lists of a key after an event, not in place yet.
#[derive(Drop)]
pub struct Ready {
    pub number: u64,
    pub staged: Staged,
}

/// The open matches of a query.
#[derive(Drop)]
pub struct Matches {
    alloc: Global,
    /// For each key, by its number.
    lists: Vec<Lists>,
    /// How many of them are not known to be dormant.
    active_keys: u64,
    /// Where the lists of an event are made.
    stage: Stage,
    /// For each state, by its number, whether an event that no leaf can read is known to leave its
    /// list as it is.
    dormant_states: Vec<bool>,
    /// Sets of leaves, by whose numbers lists tell whose events leave them as they are.
    no_op_sets: Vec<Bits>,
    keys: Keys,
    lazy_dfa: LazyDfa,
    store: Arena,
}

impl Model for Matches {
    ghost use Rattle.std.specs.Prelude.{◌≡◌, length, map, All};
    ghost use Rattle.query_state.specs.Matches.{OpenMatches, MayBeDormant, active_keys_in, AreDormantStates};

    ghost Value = { OpenMatches };

    ghost view = { λ m. record {
      table = m.lazy_dfa;
      nodes = m.store.nodes;
      keys = m.keys;
      rows = map (λ l. l.active.entries) m.lists.items;
    } };

    ghost invariant = { λ m. (length m.keys ≡ length m.lists.items)
        × All (MayBeDormant m.lazy_dfa m.no_op_sets.items) m.lists.items
        × (m.active_keys ≡ active_keys_in m.lists.items)
        × AreDormantStates m.lazy_dfa m.dormant_states.items };
}

impl Matches {
    /// No open match. The tables of keys and states hash by the seed.
    pub fn new(alloc: Global, seed: Seed, cea: Cea) -> Matches
        requires { IsWellFormed cea }
        ensures { result ≡ none_open cea }
    {
        Matches {
            alloc,
            lazy_dfa: LazyDfa::new(alloc, seed, cea),
            store: Arena::new(alloc),
            keys: Keys::new(alloc, seed),
            lists: Vec::new(alloc),
            active_keys: 0,
            dormant_states: Vec::new(alloc),
            no_op_sets: Vec::new(alloc),
            stage: Stage::new(alloc),
        }
    }

    /// How many there are of each.
    pub fn sizes(&self) -> Sizes
        ensures are { AreSizes result self.now }
        ensures sound { IsSound self.now.table }
    {
        Sizes {
            lazy_dfa: self.lazy_dfa.sizes(),
            nodes: self.store.len(),
            // Each key has its lists, which are read next.
            keys: self.lists.len() as u64,
        }
    }

    /// Keeps the first so many of each.
    pub fn cut_to(&mut self, sizes: Sizes)
        requires { CanCut sizes self.old }
        ensures { self.new ≡ cut sizes self.old }
    {
        self.lazy_dfa.back(sizes.lazy_dfa);
        self.store.cut_to(sizes.nodes);
        self.keys.cut_to(sizes.keys);
        self.lists.truncate(sizes.keys as usize);
        self.dormant_states.clear();
        self.active_keys = look_over(self.lists.as_mut_slice(), self.dormant_states.as_slice());
    }

    /// The key's number, which is the next one where the key is new.
    fn number(&mut self, key: &Key) -> Result<u64, Memory>
        ensures number { IfOk result (λ n. slice_get self.new.keys n ≡ Some key.now) }
        ensures taken { OnOk result (TakesKey self.old key.now self.new) }
        ensures refused { OnErr result (self.new ≡ self.old) }
    {
        if let Some(number) = self.keys.get(key) {
            return Ok(number);
        }
        self.lists.push(Lists::none(self.alloc))?;
        match self.keys.number(key) {
            Ok(number) => Ok(number),
            Err(refused) => {
                let _none = self.lists.pop();
                Err(refused)
            }
        }
    }

    /// The number of the key of the values at the places, where it is found without a search. `None`
    /// says nothing.
    pub fn find(&self, places: &[u64], values: &[Value]) -> Option<u64>
        ensures { IfSome result (HasKeyThere self.now places.now values.now) }
    {
        self.keys.find(places, values)
    }

    /// Whether the key of the values at the places is known not to be there, without a search.
    pub fn lacks(&self, places: &[u64], values: &[Value]) -> bool
        ensures { result ≡ true → (key : List Datum) → are_at key places.now values.now ≡ true
            → Contains self.now.keys key → ⊥ }
    {
        self.keys.lacks(places, values)
    }

    /// Whether the key of no values is known to be the first one.
    pub fn has_whole(&self) -> bool
        ensures { result ≡ true → (values : List Datum) → HasKeyThere self.now [] values 0 }
    {
        self.keys.is_whole()
    }

    /// Whether the lists of each key are known to be dormant.
    fn all_rest(&self) -> bool
        ensures { result ≡ true → All (AreDormant self.now.table) self.now.rows }
    {
        self.active_keys == 0
    }

    /// Whether an event that no leaf can read may pass: where the automaton is told to be
    /// skip-insensitive, and where the lists of each key are known to be dormant.
    pub fn lets_pass(&self, skip_insensitive: bool) -> bool
        ensures { result ≡ true → (skip_insensitive ≡ true)
            ⊎ All (AreDormant self.now.table) self.now.rows }
    {
        skip_insensitive || self.all_rest()
    }

    /// Whether the lists of the key of this number are known to be dormant, and no leaf can read
    /// the event.
    pub fn dormant(&self, number: u64, bits: &Bits) -> bool
        requires { number < length self.now.rows }
        ensures quiet { result ≡ true → HasNoReader bits.now }
        ensures rest { result ≡ true → (rows : Rows) × (slice_get self.now.rows number ≡ Some rows)
            × AreDormant self.now.table rows }
    {
        self.lists[number as usize].is_dormant && bits.is_empty()
    }

    /// Whether events of these leaves are known to leave the lists of the key of this number as they are,
    /// and no state of them accepts, so that one may pass. It takes no step.
    pub fn lets_own_pass(&self, number: u64, bits: &Bits) -> bool
        requires { number < length self.now.rows }
        ensures { result ≡ true → MayPass self.now number bits.now }
    {
        let _sizes = self.lazy_dfa.sizes();
        let _found = self.lazy_dfa.found();
        let lists = &self.lists[number as usize];
        lists.let_pass(self.no_op_sets.as_slice(), bits)
            && !some_accepts(&lists.active, &self.lazy_dfa)
    }

    /// Whether each list of the key of this number has a start at the low clock or later.
    #[inline(always)]
    pub fn are_recent(&self, number: u64, low: &LowTime) -> bool
        requires { number < length self.now.rows }
    {
        are_recent(&self.lists[number as usize].active, low)
    }

    /// Whether no match is open of the key of this number.
    pub fn has_none(&self, number: u64) -> bool
        requires { number < length self.now.rows }
        ensures { result ≡ true → slice_get self.now.rows number ≡ Some [] }
    {
        self.lists[number as usize].active.len() == 0
    }

    /// Whether no match is open. Where it has more than one key it is not known.
    pub fn is_empty(&self) -> bool
        ensures { result ≡ true → All (λ (rows : Rows). rows ≡ []) self.now.rows }
    {
        match self.lists.len() {
            0 => true,
            1 => self.has_none(0),
            _ => false,
        }
    }

    /// Whether no match is open of the key, where it is there.
    pub fn has_none_of(&self, key: &Key) -> bool
        ensures { result ≡ true → HasNoneOf self.now key.now }
    {
        match self.keys.get(key) {
            Some(number) => self.has_none(number),
            None => true,
        }
    }

    /// Works out the lists of the key of this number after an event of it. After `Memory` there is
    /// what there was at the sizes.
    fn work<L: Ledger>(
        &mut self,
        sizes: &Sizes,
        number: u64,
        bits: &Bits,
        stamp: Stamp,
        low: LowTime,
        steps: &mut Steps<L>,
    ) -> Result<Ready, Memory>
        requires begun { HasBegun sizes.now number self.old }
        requires event { CanWork stamp bits.now self.old }
        ensures ready { IfOk result (λ r. (b : HasBegun sizes.now number self.old)
            → IsReady stamp low
            bits.now b.key r.number r.staged b.before self.new) }
        ensures sizes { IfOk result (λ r. ((b : HasBegun sizes.now number self.old)
            → cut sizes.now self.new ≡ b.before) × CanCut sizes.now self.new) }
        ensures refused { OnErr result ((b : HasBegun sizes.now number self.old)
            → self.new ≡ b.before) }
        ensures steps { OnOk result (steps.new
            ≤ steps.old + work_bound (length self.new.table.states)) }
        ensures worked { (b : HasBegun sizes.now number self.old)
            → HasWorked bits.now b.key b.before
            steps.old steps.new }
        ensures no_op { IfOk result (λ r. r.staged ≡ Unchanged → (rows : Rows)
            → slice_get self.new.rows r.number ≡ Some rows
            → AreNoOp self.new.table bits.now rows) }
    {
        let active = &self.lists[number as usize].active;
        match prepare(
            active,
            &mut self.stage,
            &mut self.store,
            &mut self.lazy_dfa,
            bits,
            stamp,
            low,
            steps,
        ) {
            Ok(staged) => {
                let _sizes = self.lazy_dfa.sizes();
                let _found = self.lazy_dfa.found();
                note(&mut self.dormant_states, active, bits, &staged);
                Ok(Ready { number, staged })
            }
            Err(refused) => {
                self.cut_to(*sizes);
                Err(refused)
            }
        }
    }

    /// Notes that events of these leaves leave the lists of the key of this number as they are, where the
    /// last one did.
    fn learn(&mut self, number: u64, bits: &Bits, staged: &Staged)
        requires inside { number < length self.old.rows }
        requires no_op { staged.now ≡ Unchanged → (rows : Rows)
            → slice_get self.old.rows number ≡ Some rows
            → AreNoOp self.old.table bits.now rows }
        ensures { self.new ≡ self.old }
    {
        if is_unchanged(staged) {
            let set = number_of_set(&mut self.no_op_sets, self.alloc, bits);
            self.lists[number as usize].learn(set);
        }
    }

    /// Works out the key's lists after an event of it. After `Memory` nothing has changed. The sizes are
    /// then those from before.
    pub fn advance<L: Ledger>(
        &mut self,
        sizes: &mut Sizes,
        key: &Key,
        bits: &Bits,
        stamp: Stamp,
        low: LowTime,
        steps: &mut Steps<L>,
    ) -> Result<Ready, Memory>
        requires event { CanWork stamp bits.now self.old }
        ensures ready { IfOk result
            (λ r. IsReady stamp low bits.now key.now r.number r.staged self.old
            self.new) }
        ensures advanced { HasAdvanced result sizes.new self.old self.new steps.old steps.new }
        ensures worked { (steps.new ≡ steps.old)
            ⊎ HasWorked bits.now key.now self.old steps.old steps.new }
    {
        *sizes = self.sizes();
        let number = self.number(key)?;
        self.work(sizes, number, bits, stamp, low, steps)
    }

    /// Prepares the event for the key of this number, which is there.
    pub fn advance_at<L: Ledger>(
        &mut self,
        sizes: &mut Sizes,
        number: u64,
        bits: &Bits,
        stamp: Stamp,
        low: LowTime,
        steps: &mut Steps<L>,
    ) -> Result<Ready, Memory>
        requires there { (key : List Datum) × (slice_get self.old.keys number ≡ Some key) }
        requires event { CanWork stamp bits.now self.old }
        ensures ready { IfOk result (λ r. (key : List Datum) → slice_get self.old.keys number
            ≡ Some key → IsReady stamp low bits.now key r.number r.staged self.old self.new) }
        ensures advanced { HasAdvanced result sizes.new self.old self.new steps.old steps.new }
        ensures worked { (key : List Datum) → slice_get self.old.keys number ≡ Some key
            → HasWorked bits.now key self.old steps.old steps.new }
    {
        *sizes = self.sizes();
        match self.work(sizes, number, bits, stamp, low, steps) {
            Ok(ready) => {
                self.learn(ready.number, bits, &ready.staged);
                Ok(ready)
            }
            Err(refused) => Err(refused),
        }
    }

    /// Puts the lists in place. It takes no memory. Where the automaton is told to be
    /// skip-insensitive it does not matter whether lists are dormant, and is not looked at.
    pub fn put(&mut self, skip_insensitive: bool, number: u64, staged: Staged)
        requires { number < length self.old.rows }
        ensures { self.new ≡ record self.old {
          rows = slice_set self.old.rows number
              (rows_after (slice_index_or self.old.rows number []) staged);
        } }
    {
        put_lists(
            self.lists.as_mut_slice(),
            &mut self.active_keys,
            self.dormant_states.as_slice(),
            !skip_insensitive,
            &mut self.stage,
            number,
            staged,
        );
    }

    /// Keeps of the nodes what the recent entries of the lists and the query's cursors need; for a list
    /// a start is recent where its clock is at least `low`, for a cursor where it is at least the
    /// cursor's own. The room is for as many nodes as there are. It takes no memory. No state stood
    /// twice in a key's lists.
    pub fn compact<C: HasCursor, L: Ledger>(
        &mut self,
        query: u64,
        cursors: &mut [C],
        low: i128,
        room: &mut Room,
        steps: &mut Steps<L>,
    )
        requires well_formed { WellFormed self.old.nodes }
        requires lists { All (λ rows. All (λ r. IsUnionList self.old.nodes r.1) rows)
            self.old.rows }
        requires cursors { All (λ w. w.query ≡ query → Fits w self.old.nodes)
            (map C.walk cursors.old) }
        requires room { length self.old.nodes ≤ room.old }
        ensures same { (self.new.table ≡ self.old.table) × (self.new.keys ≡ self.old.keys) }
        ensures nodes { Compacted query low self.old.nodes self.new.nodes self.new.rows
            (map C.walk cursors.new) }
        ensures lists { KeysCompacted (least_of query low (map C.walk cursors.old)) low
            self.old.nodes self.new.nodes self.old.rows self.new.rows }
        ensures cursors { (k : ℕ) → (d : CursorState) → k < length cursors.old
            → CursorCompacted query self.old.nodes self.new.nodes
            (get_or (map C.walk cursors.old) k d) (get_or (map C.walk cursors.new) k d) }
        ensures count { length cursors.new ≡ length cursors.old }
        ensures room { room.new ≡ room.old }
        ensures once { All HasStatesOnce self.old.rows }
        ensures steps { steps.new
            ≤ steps.old + 8 * length self.old.nodes + 4 * places self.old.rows }
    {
        let lists = self.lists.as_mut_slice();
        compact(&mut self.store, query, lists, cursors, low, room, steps);
        self.active_keys = look_over(lists, self.dormant_states.as_slice());
    }

    /// Removes each key without a list, but not that of the number that is told, whose number then
    /// is the answer. Where none is told, the key of no values stays, so that a query without
    /// partitions has its one key at hand. It goes through the keys, and takes no step and no
    /// memory.
    pub fn remove(&mut self, told: Option<u64>) -> Option<u64>
        ensures same { (self.new.table ≡ self.old.table) × (self.new.nodes ≡ self.old.nodes) }
        ensures given { AreRemoved self.old.keys self.old.rows told self.new.keys self.new.rows
            result }
        ensures have { HaveListsButOne self.new.rows }
    {
        let stays = key_to_stay(self.keys.is_whole(), told);
        let now = remove_all(&mut self.lists, &mut self.keys, stays);
        self.active_keys = look_over(self.lists.as_mut_slice(), self.dormant_states.as_slice());
        number_of(told, now)
    }

    /// Gives back room that was taken for many more nodes, lists and keys than there are.
    pub fn shrink(&mut self)
        ensures { self.new ≡ self.old }
    {
        self.store.shrink();
        shrink(&mut self.lists);
        self.keys.shrink();
    }

    /// How many states were found.
    pub fn found(&self) -> u64
        ensures { result ≡ length self.now.table.states }
    {
        self.lazy_dfa.found()
    }

    /// How many nodes are kept.
    pub fn len(&self) -> u64
        ensures { result ≡ length self.now.nodes }
    {
        self.store.len()
    }

    /// How many keys are kept.
    pub fn key_count(&self) -> u64
        ensures { result ≡ length self.now.keys }
    {
        self.lists.len() as u64
    }

    /// The entries of the accepting states' lists of the key, none where no key is told.
    fn roots<L: Ledger>(&self, key: Option<u64>, steps: &mut Steps<L>) -> Result<Vec<Root>, Memory>
        requires stands { CanList self.now key }
        ensures entries { IfOk result (λ rs. rs.items ≡ entries_for self.now key) }
        ensures steps { steps.new ≤ steps.old + work_bound (length self.now.table.states) }
    {
        match key {
            None => Ok(Vec::new(self.alloc)),
            Some(number) => roots(&self.lists[number as usize].active, &self.lazy_dfa, steps),
        }
    }

    /// Whether some state of the key's lists accepts, none where no key is told. It takes no step.
    pub fn may_list(&self, key: Option<u64>) -> bool
        requires stands { CanList self.now key }
        ensures none { result ≡ false → entries_for self.now key ≡ [] }
    {
        match key {
            None => false,
            Some(number) => {
                let lists = &self.lists[number as usize];
                !lists.is_dormant && some_accepts(&lists.active, &self.lazy_dfa)
            }
        }
    }

    /// A cursor with the query's number on these entries' members that start at the low clock or
    /// later.
    pub fn cursor<L: Ledger>(
        &self,
        key: Option<u64>,
        query: u64,
        low: i128,
        steps: &mut Steps<L>,
    ) -> Result<Cursor, Memory>
        requires well_formed { WellFormed self.now.nodes }
        requires stands { CanList self.now key }
        ensures rest { IfOk result (λ c. rest c self.now.nodes
            ≡ recent_of low self.now.nodes (entries_for self.now key)) }
        ensures fits { IfOk result (λ c. Fits c self.now.nodes) }
        ensures begun { IfOk result (λ c. (c.query ≡ query) × (c.low ≡ low) × (c.path ≡ [])) }
        ensures steps { steps.new ≤ steps.old + work_bound (length self.now.table.states) }
    {
        let roots = self.roots(key, steps)?;
        Cursor::begin(self.alloc, &self.store, query, roots.as_slice(), low, steps)
    }

    /// The cursor's next answer.
    pub fn next<L: Ledger>(&self, cursor: &mut Cursor, steps: &mut Steps<L>) -> Option<Stamp>
        requires well_formed { WellFormed self.now.nodes }
        requires fits { Fits cursor.old self.now.nodes }
        ensures { GivesNext result self.now.nodes cursor.old cursor.new steps.old steps.new }
    {
        cursor.next(&self.store, steps)
    }
}
