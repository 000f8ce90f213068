//! The lists of one key, each with its state.
ghost use Rattle.std.specs.Prelude.{◌≡◌, ◌+◌, ◌*◌, ◌<◌, ◌≤◌, List, ℕ, All, Some, true, length, take, slice_get, int_le};
ghost use Rattle.cer_base.specs.declared.node.Root.{Root};
ghost use Rattle.cer_base.specs.Nodes.{IsRoot};
ghost use Rattle.event_update.specs.Update.{entries_in};
ghost use Rattle.arena_compact.specs.Marks.{CanKeep, HaveKept};
ghost use Rattle.arena_compact.specs.Roots.{recent_entries, row_roots, AreOlder, IsPlaced, CanMove, MovesRows, MovedAt};

use super::lists::{keep_list, move_list};
use cea_determinise::table::State;
use cer_base::node::Id;
use cer_base::steps::Steps;
use cer_base::store::NodeStore;
use cer_base::time::LowTime;
use event_update::ActiveStates;
use std::sync::ledger::Ledger;
use union_lists::UList;

/// Keeps the nodes of the recent entries of a key's lists, from the clock on. One step for each entry.
pub fn keep_rows<L: Ledger>(
    active: &ActiveStates,
    low: LowTime,
    table: &mut [Option<Id>],
    lows: &mut [LowTime],
    steps: &mut Steps<L>,
)
    requires { CanKeep (λ n. All (λ r. All (λ e. e.id < n) r.1) active.now.entries) table.old
        lows.old }
    ensures kept { HaveKept (λ nodes. All (λ r. All (IsRoot nodes) r.1) active.now.entries)
        (row_roots low active.now.entries) table.old lows.old table.new lows.new }
    ensures steps { steps.new ≡ steps.old + entries_in active.now.entries }
{
    for k in 0..active.len() {
        keep_list(active.list(k), *&low, table, lows, steps);
    }
}

/// Moves the recent entries of row k, and gives how many rows stay: those before `kept`, and row k
/// after them where it has one. At most three steps for each entry, and at least three for each recent
/// one.
fn move_row<S: NodeStore, L: Ledger>(
    store: &S,
    low: LowTime,
    rows: &mut [(State, UList)],
    kept: usize,
    k: usize,
    table: &[Option<Id>],
    steps: &mut Steps<L>,
) -> usize
    requires inside { (kept ≤ k) × (k < length rows.old) }
    requires older { (r : ℕ × List Root) → slice_get rows.old k ≡ Some r → AreOlder r.1 }
    requires placed { (r : ℕ × List Root) → slice_get rows.old k ≡ Some r
        → All (λ e. int_le low e.max.clock ≡ true
        → IsPlaced (S.nodes store.now) table.now e.id) r.1 }
    ensures moved { MovedAt low (S.nodes store.now) table.now rows.old kept k result rows.new }
    ensures steps { (r : ℕ × List Root) → slice_get rows.old k ≡ Some r
        → steps.new ≤ steps.old + 3 * length r.1 }
    ensures counted { (r : ℕ × List Root) → slice_get rows.old k ≡ Some r
        → 3 * length (recent_entries low r.1) + steps.old ≤ steps.new }
{
    if !move_list(store, low, &mut rows[k].1, table, steps) {
        return kept;
    }
    rows.swap(kept, k);
    kept + 1
}

/// Moves the recent entries of a key's lists. The rows that have one come first then, in their
/// order; the answer is how many they are. At most three steps for each entry, and at least three for
/// each recent one.
fn move_each<S: NodeStore, L: Ledger>(
    store: &S,
    low: LowTime,
    rows: &mut [(State, UList)],
    table: &[Option<Id>],
    steps: &mut Steps<L>,
) -> usize
    requires can { CanMove low (S.nodes store.now) table.now rows.old }
    ensures rows { MovesRows low (S.nodes store.now) table.now rows.old (take result rows.new)
        steps.old steps.new }
    ensures upto { result ≤ length rows.new }
{
    let mut kept = 0;
    for k in 0..rows.len() {
        kept = move_row(store, *&low, rows, kept, k, table, steps);
    }
    kept
}

/// Moves the recent entries of a key's lists, and keeps the rows that have one alone, in their
/// order. At most three steps for each entry, and at least three for each recent one.
fn move_some<S: NodeStore, L: Ledger>(
    store: &S,
    low: LowTime,
    mut rows: Vec<(State, UList)>,
    table: &[Option<Id>],
    steps: &mut Steps<L>,
) -> Vec<(State, UList)>
    requires can { CanMove low (S.nodes store.now) table.now rows.items }
    ensures rows { MovesRows low (S.nodes store.now) table.now rows.items result.items
        steps.old steps.new }
{
    let kept = move_each(store, low, rows.as_mut_slice(), table, steps);
    rows.truncate(kept);
    rows
}

/// Moves the recent entries of a key's lists, and keeps the lists that have one alone, in their
/// order. At most three steps for each entry, and at least three for each recent one.
pub fn move_rows<S: NodeStore, L: Ledger>(
    store: &S,
    low: LowTime,
    active: ActiveStates,
    table: &[Option<Id>],
    steps: &mut Steps<L>,
) -> ActiveStates
    requires can { CanMove low (S.nodes store.now) table.now active.entries }
    ensures rows { MovesRows low (S.nodes store.now) table.now active.entries result.entries
        steps.old steps.new }
{
    let rows = active.into_rows();
    let kept = move_some(store, low, rows, table, steps);
    ActiveStates::of(kept)
}
