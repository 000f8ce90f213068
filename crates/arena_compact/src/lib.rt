//! Compaction: of the nodes of a query only those stay that its lists or held cursors still need,
//! and of these only what is recent.
//!
//! The lists need nodes from the query's low clock on, a held cursor from its own on. A node is
//! needed where it can be reached from a recent entry of a list, or from what a cursor has left on
//! its stack, by no right child of a union whose greatest start is too old for that list or cursor.
//! The needed nodes are marked from the newest to the oldest, each with the least clock from which on
//! it is needed, and then moved down from the oldest to the newest, each to the first free place. A
//! union whose right child is older than the union's own clock is replaced by its left child.
//! Greatest starts stay as they are; needs are computed anew.
//!
//! Ten nodes after three events, at the clocks 0, 1 and 2, and one list, of node 8 alone. A join
//! names its left child, then its right one. To the right is what a compaction from clock 1 on
//! makes of it: node 5 has a right child that starts at 0, so node 3 stands for it, at its new
//! place.
//!
//! ```text
//!   0  start 0           5  join 3 4         0  start 1
//!   1  out 0, over 0     6  start 2          1  out 1, over 0
//!   2  start 1           7  out 2, over 6    2  out 2, over 1
//!   3  out 1, over 2     8  out 2, over 5
//!   4  out 1, over 1     9  join 7 8         the list: 2
//! ```
//!
//! It stands on `event_update`, `union_lists` and `tecs_enumerate`, over any store, and whatever
//! has the lists of a key or a cursor.
#![tactic(auto)]

ghost use Rattle.std.specs.Prelude.{◌≡◌, ◌+◌, ◌*◌, ◌<◌, ◌≤◌, ◌++◌, ℕ, List, All, None, length, map, get_or, IfOk};
ghost use Rattle.cer_base.specs.declared.node.Root.{Root};
ghost use Rattle.cer_base.specs.Nodes.{WellFormed};
ghost use Rattle.tecs_enumerate.specs.Remaining.{CursorState, Fits};
ghost use Rattle.union_lists.specs.Lists.{IsUnionList};
ghost use Rattle.arena_compact.specs.Marks.{AreNodeMarks};
ghost use Rattle.arena_compact.specs.Roots.{key_roots, cursor_roots, places};
ghost use Rattle.arena_compact.specs.Compacted.{least_of, Compacted, KeysCompacted, CursorCompacted, CanCompact, AreCompacted, IsCompaction};

use cer_base::Memory;
use cer_base::node::Id;
use cer_base::steps::Steps;
use cer_base::store::NodeStore;
use cer_base::time::LowTime;
use std::alloc::Global;
use std::marker::Model;
use std::sync::ledger::Ledger;

mod cursors;
mod fate;
mod keys;
pub mod laws;
mod lists;
mod marks;
mod moves;
mod rows;

pub use cursors::HasCursor;
use cursors::{keep_cursors, move_cursors};
pub use keys::HasLists;
use keys::{keep_keys, move_keys};
use marks::keep_needed;
use moves::move_nodes;

/// Room for a compaction, seen as the number of nodes that it has places for: for each the place that
/// it moves to, and the clock from which on it is needed.
#[derive(Drop)]
pub struct Room {
    places: Vec<Option<Id>>,
    lows: Vec<LowTime>,
}

impl Model for Room {
    ghost use Rattle.std.specs.Prelude.{ℕ, length, min};

    ghost Value = { ℕ };

    ghost view = { λ r. min (length r.places.items) (length r.lows.items) };
}

impl Room {
    /// Room for n nodes. `Memory` where it cannot be had.
    pub fn new(alloc: Global, n: u64) -> Result<Room, Memory>
        ensures { IfOk result (λ r. r ≡ n) }
    {
        Ok(Room {
            places: Vec::from_elem(alloc, None, n as usize)?,
            lows: Vec::from_elem(alloc, LowTime::of(0), n as usize)?,
        })
    }
}

/// Marks all nodes that are needed, each from the least clock from which on it is. At most one step
/// for each node and each entry, and at least one for each entry.
fn keep_all<S: NodeStore, K: HasLists, C: HasCursor, L: Ledger>(
    store: &S,
    query: u64,
    keys: &[K],
    cursors: &[C],
    low: LowTime,
    table: &mut [Option<Id>],
    lows: &mut [LowTime],
    steps: &mut Steps<L>,
)
    requires can { CanCompact query (length table.old) (S.nodes store.now) (map K.rows keys.now)
        (map C.walk cursors.now) }
    requires even { length lows.old ≡ length table.old }
    requires blank { (id : ℕ) → get_or table.old id None ≡ None }
    ensures marks { AreNodeMarks (S.nodes store.now) (key_roots low (map K.rows keys.now)
        ++ cursor_roots query (map C.walk cursors.now)) 0 table.new lows.new }
    ensures long { (length table.new ≡ length table.old) × (length lows.new ≡ length lows.old) }
    ensures steps { steps.new
        ≤ steps.old + places (map K.rows keys.now) + length (S.nodes store.now) }
    ensures counted { places (map K.rows keys.now) + steps.old ≤ steps.new }
{
    keep_keys(keys, low, table, lows, steps);
    keep_cursors(cursors, query, table, lows);
    keep_needed(store, table, lows, steps);
}

/// Moves all nodes that are needed, and with them the entries of the lists and the stacks of the
/// query's cursors. At most four steps for each node and three for each entry, and at least three for
/// each entry that stays.
fn move_all<S: NodeStore, K: HasLists, C: HasCursor, L: Ledger>(
    store: &mut S,
    query: u64,
    keys: &mut [K],
    cursors: &mut [C],
    low: LowTime,
    table: &mut [Option<Id>],
    lows: &[LowTime],
    steps: &mut Steps<L>,
)
    requires can { CanCompact query (length table.old) (S.nodes store.old) (map K.rows keys.old)
        (map C.walk cursors.old) }
    requires even { length lows.now ≡ length table.old }
    requires marks { AreNodeMarks (S.nodes store.old) (key_roots low (map K.rows keys.old)
        ++ cursor_roots query (map C.walk cursors.old)) 0 table.old lows.now }
    ensures compacted { AreCompacted query low (S.nodes store.old) (S.nodes store.new)
        (map K.rows keys.old) (map K.rows keys.new) (map C.walk cursors.old)
        (map C.walk cursors.new) }
    ensures steps { steps.new
        ≤ steps.old + 4 * length (S.nodes store.old) + 3 * places (map K.rows keys.old) }
    ensures counted { 3 * places (map K.rows keys.new) + steps.old ≤ steps.new }
{
    move_nodes(store, table, lows, steps);
    move_cursors(cursors, query, table);
    move_keys(store, low, keys, table, steps);
}

/// Makes all places of the table empty.
fn blank(table: &mut [Option<Id>])
    ensures blank { (id : ℕ) → get_or table.new id None ≡ None }
    ensures long { length table.new ≡ length table.old }
{
    for k in 0..table.len() {
        table[k] = None;
    }
}

/// `compact`, over the room as slices.
fn compact_in<S: NodeStore, K: HasLists, C: HasCursor, L: Ledger>(
    store: &mut S,
    query: u64,
    keys: &mut [K],
    cursors: &mut [C],
    low: LowTime,
    table: &mut [Option<Id>],
    lows: &mut [LowTime],
    steps: &mut Steps<L>,
)
    requires can { CanCompact query (length table.old) (S.nodes store.old) (map K.rows keys.old)
        (map C.walk cursors.old) }
    requires even { length lows.old ≡ length table.old }
    ensures { IsCompaction query low (S.nodes store.old) (S.nodes store.new)
        (map K.rows keys.old) (map K.rows keys.new) (map C.walk cursors.old)
        (map C.walk cursors.new) steps.old steps.new }
{
    blank(table);
    keep_all(store, query, keys, cursors, *&low, table, lows, steps);
    move_all(store, query, keys, cursors, low, table, lows, steps);
}

/// `compact`, over the room's two vectors.
fn compact_with<S: NodeStore, K: HasLists, C: HasCursor, L: Ledger>(
    store: &mut S,
    query: u64,
    keys: &mut [K],
    cursors: &mut [C],
    low: LowTime,
    table: &mut Vec<Option<Id>>,
    lows: &mut Vec<LowTime>,
    steps: &mut Steps<L>,
)
    requires can { CanCompact query (length table.old.items) (S.nodes store.old)
        (map K.rows keys.old) (map C.walk cursors.old) }
    requires wide { length (S.nodes store.old) ≤ length lows.old.items }
    ensures compaction { IsCompaction query low (S.nodes store.old) (S.nodes store.new)
        (map K.rows keys.old) (map K.rows keys.new) (map C.walk cursors.old)
        (map C.walk cursors.new) steps.old steps.new }
    ensures table { length table.new.items ≡ length table.old.items }
    ensures lows { length lows.new.items ≡ length lows.old.items }
{
    let count = store.len() as usize;
    let table = &mut table.as_mut_slice()[..count];
    let lows = &mut lows.as_mut_slice()[..count];
    compact_in(store, query, keys, cursors, low, table, lows, steps);
}

/// Keeps of a query's nodes what the recent entries of the lists and the query's cursors need. For a
/// list a start is recent where its clock is at least `low`, for a cursor where it is at least the
/// cursor's own: a cursor keeps what it has left, and no list is longer for it. A cursor that has
/// given all keeps nothing. The room is for as many nodes as the store has, or more.
///
/// Of each key the states stay that have a recent entry, in their order, each with its recent entries
/// in their order. An entry's node may have older members, where a cursor still needs them too; its
/// recent ones are the same in the same order. A cursor of the query has the same answers left, and
/// one of another query is not touched. Nodes get other ids, so a list or a cursor of the query that
/// is not among these no longer goes with the store. It takes no memory, at most eight steps for each
/// node and four for each entry, and at least one for each entry and three more for each that stays.
pub fn compact<S: NodeStore, K: HasLists, C: HasCursor, L: Ledger>(
    store: &mut S,
    query: u64,
    keys: &mut [K],
    cursors: &mut [C],
    low: i128,
    room: &mut Room,
    steps: &mut Steps<L>,
)
    requires well_formed { WellFormed (S.nodes store.old) }
    requires lists { All (λ rows. All (λ r. IsUnionList (S.nodes store.old) r.1) rows)
        (map K.rows keys.old) }
    requires cursors { All (λ w. w.query ≡ query
        → Fits w (S.nodes store.old)) (map C.walk cursors.old) }
    requires room { length (S.nodes store.old) ≤ room.old }
    ensures nodes { Compacted query low (S.nodes store.old) (S.nodes store.new)
        (map K.rows keys.new) (map C.walk cursors.new) }
    ensures lists { KeysCompacted (least_of query low (map C.walk cursors.old)) low
        (S.nodes store.old) (S.nodes store.new) (map K.rows keys.old) (map K.rows keys.new) }
    ensures cursors { (k : ℕ) → (d : CursorState) → k < length cursors.old
        → CursorCompacted query (S.nodes store.old) (S.nodes store.new)
        (get_or (map C.walk cursors.old) k d)
        (get_or (map C.walk cursors.new) k d) }
    ensures count { length cursors.new ≡ length cursors.old }
    ensures room { room.new ≡ room.old }
    ensures steps { steps.new
        ≤ steps.old + 8 * length (S.nodes store.old) + 4 * places (map K.rows keys.old) }
    ensures counted { places (map K.rows keys.old) + 3 * places (map K.rows keys.new) + steps.old
        ≤ steps.new }
{
    compact_with(
        store,
        query,
        keys,
        cursors,
        LowTime::of(low),
        &mut room.places,
        &mut room.lows,
        steps,
    );
}
