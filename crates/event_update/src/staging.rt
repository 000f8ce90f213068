//! The rows that an event stages, in memory that is used again from event to event.
ghost use Rattle.std.specs.Prelude.{◌≡◌, ◌+◌, ◌<◌, ◌≤◌, [], ◌∷◌, ◌++◌, length, take, slice_get, slice_set, Some, OnOk, IfSome, IfNone, nat_eq};
ghost use Rattle.std.specs.List.{IsDistinct};
ghost use Rattle.event_update.specs.ActiveLists.{keys};
ghost use Rattle.event_update.specs.Places.{AddsWithin, CanAdd};
ghost use Rattle.event_update.specs.Update.{IsFirst, IsAbsent, IsAdded};

use crate::ActiveStates;
use cea_determinise::table::State;
use cer_base::Memory;
use cer_base::node::Id;
use cer_base::steps::Steps;
use cer_base::store::NodeStore;
use std::alloc::Global;
use std::marker::Model;
use std::mem::replace;
use std::sync::ledger::Ledger;
use union_lists::UList;

/// States with lists, as an event stages them, seen as these. Rows of earlier events may stand after
/// them, whose memory is used again.
#[derive(Drop)]
pub struct Stage {
    rows: Vec<(State, UList)>,
    /// How many of the rows are staged.
    used: usize,
}

impl Model for Stage {
    ghost use Rattle.std.specs.Prelude.{◌≤◌, length, take, map, nat_eq};
    ghost use Rattle.std.specs.List.{IsDistinct};
    ghost use Rattle.event_update.specs.ActiveLists.{ActiveLists};

    ghost Value = { ActiveLists };

    ghost view = { λ s. record { entries = take s.used s.rows.items } };

    ghost invariant = { λ s. (s.used ≤ length s.rows.items)
        × IsDistinct nat_eq (map (λ r. r.0) (take s.used s.rows.items)) };
}

impl Stage {
    /// Nothing is staged. It takes no memory.
    pub fn new(alloc: Global) -> Stage
        ensures { result.entries ≡ [] }
    {
        Stage {
            rows: Vec::new(alloc),
            used: 0,
        }
    }

    /// Nothing is staged any more. It takes no memory.
    pub fn clear(&mut self)
        ensures { self.new.entries ≡ [] }
    {
        self.used = 0;
    }

    /// How many rows are staged.
    fn len(&self) -> usize
        ensures { result ≡ length self.now.entries }
    {
        self.used
    }

    /// The allocator that the rows are kept in.
    pub fn allocator(&self) -> &Global {
        self.rows.allocator()
    }

    /// The state at a place below `len`.
    fn state(&self, k: usize) -> State
        requires { k < length self.now.entries }
        ensures { slice_get (keys self.now) k ≡ Some result }
    {
        self.rows[k].0
    }

    /// The rows that are staged, handed over. Nothing is staged then. It takes no memory.
    pub fn hand_over(&mut self) -> ActiveStates
        ensures rows { result.entries ≡ self.old.entries }
    {
        self.rows.truncate(self.used);
        self.used = 0;
        let none = Vec::new(*self.rows.allocator());
        ActiveStates::of(replace(&mut self.rows, none))
    }

    /// Keeps the memory of these rows for later ones. Nothing is staged then. It takes no memory.
    pub fn reuse(&mut self, rows: ActiveStates) {
        self.used = 0;
        self.rows = rows.into_rows();
    }
}

/// There is a row at the place, which is at most one after the last.
fn make_room(
    rows: &mut Vec<(State, UList)>,
    k: usize,
    state: State,
    list: &UList,
) -> Result<(), Memory>
    requires { k ≤ length rows.old.items }
    ensures before { take k rows.new.items ≡ take k rows.old.items }
    ensures upto { k ≤ length rows.new.items }
    ensures room { OnOk result (k < length rows.new.items) }
{
    if k < rows.len() {
        return Ok(());
    }
    // Most keys have one row: a first growth takes room for no more, later ones for twice as many.
    if rows.len() == rows.capacity() {
        rows.reserve_exact(rows.len().max(1))?;
    }
    rows.push((state, list.head()))?;
    Ok(())
}

/// Writes the row at the place, with a copy of the list.
fn write_row(
    rows: &mut Vec<(State, UList)>,
    k: usize,
    state: State,
    list: &UList,
) -> Result<(), Memory>
    requires { k < length rows.old.items }
    ensures before { take k rows.new.items ≡ take k rows.old.items }
    ensures upto { length rows.new.items ≡ length rows.old.items }
    ensures row { OnOk result (take (k + 1) rows.new.items
        ≡ take k rows.old.items ++ (state, list.now) ∷ []) }
{
    rows[k].0 = state;
    rows[k].1.assign(list)?;
    Ok(())
}

/// Where the state's list is.
pub fn find(rows: &Stage, state: State) -> Option<usize>
    ensures found { IfSome result (IsFirst state rows.now.entries) }
    ensures absent { IfNone result (IsAbsent state rows.now.entries) }
{
    for k in 0..rows.len() {
        if rows.state(k) == state {
            return Some(k);
        }
    }
    None
}

/// The list at the place takes in the node.
pub fn add<S: NodeStore, L: Ledger>(
    rows: &mut Stage,
    k: usize,
    store: &mut S,
    id: Id,
    steps: &mut Steps<L>,
) -> Result<(), Memory>
    requires { CanAdd (S.nodes store.old) rows.old.entries k id }
    ensures added { OnOk result (IsAdded (S.nodes store.old) rows.old.entries k id
        (S.nodes store.new) rows.new.entries) }
    ensures within { AddsWithin (S.nodes store.old) (S.nodes store.new) rows.old.entries
        rows.new.entries steps.old steps.new result }
{
    rows.rows[k].1.insert(store, id, steps)
}

/// A state that has no list gets a copy of this one.
pub fn push(rows: &mut Stage, state: State, list: &UList) -> Result<(), Memory>
    requires { IsAbsent state rows.old.entries }
    ensures { OnOk result (rows.new.entries ≡ rows.old.entries ++ (state, list.now) ∷ []) }
{
    let used = rows.used;
    make_room(&mut rows.rows, used, state, list)?;
    write_row(&mut rows.rows, used, state, list)?;
    rows.used = used + 1;
    Ok(())
}
