//! The lists of all keys, wherever a caller has them.
ghost use Rattle.std.specs.Prelude.{◌≡◌, ◌+◌, ◌*◌, ◌<◌, ◌≤◌, All, map};
ghost use Rattle.cer_base.specs.Nodes.{IsRoot};
ghost use Rattle.event_update.specs.Update.{entries_in};
ghost use Rattle.arena_compact.specs.Marks.{CanKeep, HaveKept};
ghost use Rattle.arena_compact.specs.Roots.{key_roots, places, CanMove, kept_rows, RowsMoved, KeysMoved};

use super::rows::{keep_rows, move_rows};
use cer_base::node::Id;
use cer_base::steps::Steps;
use cer_base::store::NodeStore;
use cer_base::time::LowTime;
use event_update::ActiveStates;
use std::alloc::Global;
use std::mem;
use std::sync::ledger::Ledger;

/// What has the lists of one key: they can be seen, taken out and put back. A compaction takes the
/// lists of each key out once and puts them back at once, and touches nothing else of it.
pub trait HasLists {
    ghost use Rattle.std.specs.Prelude.{List, ℕ};
    ghost use Rattle.cer_base.specs.declared.node.Root.{Root};

    /// The states in the order in which they were entered, each with the entries of its list.
    ghost rows: { Self → List (ℕ × List Root) };

    /// The lists.
    fn lists(&self) -> &ActiveStates
        ensures { result.now.entries ≡ rows self.now };

    /// Hands the lists over, and may have any others until `put`. It takes no memory.
    fn take(&mut self) -> ActiveStates
        ensures { result.entries ≡ rows self.old };

    /// Has these lists from now on. It takes no memory.
    fn put(&mut self, lists: ActiveStates)
        ensures { rows self.new ≡ lists.entries };
}

impl HasLists for ActiveStates {
    ghost rows = { λ a. a.entries };

    fn lists(&self) -> &ActiveStates {
        self
    }

    fn take(&mut self) -> ActiveStates {
        let alloc = *self.allocator();
        mem::replace(self, ActiveStates::new(alloc))
    }

    fn put(&mut self, lists: ActiveStates) {
        *self = lists;
    }
}

/// Keeps the nodes of the recent entries of all keys' lists, from the clock on. One step for each entry.
pub fn keep_keys<K: HasLists, L: Ledger>(
    keys: &[K],
    low: LowTime,
    table: &mut [Option<Id>],
    lows: &mut [LowTime],
    steps: &mut Steps<L>,
)
    requires { CanKeep (λ n. All (λ rows. All (λ r. All (λ e. e.id < n) r.1) rows)
        (map K.rows keys.now)) table.old lows.old }
    ensures kept { HaveKept (λ nodes. All (λ rows. All (λ r. All (IsRoot nodes) r.1) rows)
        (map K.rows keys.now)) (key_roots low (map K.rows keys.now)) table.old lows.old table.new
        lows.new }
    ensures steps { steps.new ≡ steps.old + places (map K.rows keys.now) }
{
    for k in 0..keys.len() {
        keep_rows(keys[k].lists(), *&low, table, lows, steps);
    }
}

/// Moves the recent entries of a key's lists. At most three steps for each entry, and at least three
/// for each that stays.
fn move_key<S: NodeStore, K: HasLists, L: Ledger>(
    store: &S,
    low: LowTime,
    key: &mut K,
    table: &[Option<Id>],
    steps: &mut Steps<L>,
)
    requires can { CanMove low (S.nodes store.now) table.now (K.rows key.old) }
    ensures moved { RowsMoved (S.nodes store.now) table.now (kept_rows low (K.rows key.old))
        (K.rows key.new) }
    ensures steps { steps.new ≤ steps.old + 3 * entries_in (K.rows key.old) }
    ensures counted { 3 * entries_in (K.rows key.new) + steps.old ≤ steps.new }
{
    let lists = move_rows(store, low, key.take(), table, steps);
    key.put(lists);
}

/// Moves the recent entries of all keys' lists. At most three steps for each entry, and at least three
/// for each that stays.
pub fn move_keys<S: NodeStore, K: HasLists, L: Ledger>(
    store: &S,
    low: LowTime,
    keys: &mut [K],
    table: &[Option<Id>],
    steps: &mut Steps<L>,
)
    requires can { All (CanMove low (S.nodes store.now) table.now) (map K.rows keys.old) }
    ensures moved { KeysMoved low (S.nodes store.now) table.now (map K.rows keys.old)
        (map K.rows keys.new) }
    ensures steps { steps.new ≤ steps.old + 3 * places (map K.rows keys.old) }
    ensures counted { 3 * places (map K.rows keys.new) + steps.old ≤ steps.new }
{
    for k in 0..keys.len() {
        move_key(store, *&low, &mut keys[k], table, steps);
    }
}
