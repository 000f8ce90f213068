//! The entries of one union list: they say which nodes are kept, and are moved with their nodes.
ghost use Rattle.std.specs.Prelude.{◌≡◌, ◌+◌, ◌*◌, ◌<◌, ◌≤◌, [], All, Some, true, false, length, slice_get, slice_set, int_le};
ghost use Rattle.cer_base.specs.declared.node.Root.{Root};
ghost use Rattle.cer_base.specs.Nodes.{IsRoot};
ghost use Rattle.arena_compact.specs.Marks.{IsLowered, CanKeep, HaveKept};
ghost use Rattle.arena_compact.specs.Roots.{recent_entries, list_roots, AreOlder, IsPlaced, EntryMoved, EntriesMoved};

use super::marks::{is_recent, keep};
use super::moves::{need_at, place_of};
use cer_base::node::{Id, Root};
use cer_base::steps::Steps;
use cer_base::store::NodeStore;
use cer_base::time::LowTime;
use std::sync::ledger::Ledger;
use union_lists::UList;

/// Keeps the node of an entry, if it is recent.
fn keep_entry(entry: Root, low: LowTime, table: &mut [Option<Id>], lows: &mut [LowTime])
    requires { CanKeep (λ n. entry.id < n) table.old lows.old }
    ensures recent { int_le low entry.max.clock ≡ true
        → (table.new ≡ slice_set table.old entry.id (Some entry.id))
        × IsLowered table.old lows.old entry.id low lows.new }
    ensures old { int_le low entry.max.clock ≡ false
        → (table.new ≡ table.old) × (lows.new ≡ lows.old) }
    ensures long { (length table.new ≡ length table.old) × (length lows.new ≡ length lows.old) }
{
    if is_recent(*&low, entry.max) {
        keep(table, lows, entry.id, low);
    }
}

/// Keeps the nodes of a list's recent entries, from the clock on. One step for each entry.
pub fn keep_list<L: Ledger>(
    list: &UList,
    low: LowTime,
    table: &mut [Option<Id>],
    lows: &mut [LowTime],
    steps: &mut Steps<L>,
)
    requires { CanKeep (λ n. All (λ e. e.id < n) list.now) table.old lows.old }
    ensures kept { HaveKept (λ nodes. All (IsRoot nodes) list.now) (list_roots low list.now)
        table.old lows.old table.new lows.new }
    ensures steps { steps.new ≡ steps.old + length list.now }
{
    for k in 0..list.len() {
        steps.tick();
        keep_entry(list.entry(k), *&low, table, lows);
    }
}

/// Moves an entry, if it is recent, and tells whether it is. One step to read it, and where it is
/// recent one to read its node and one to write it.
fn move_entry<S: NodeStore, L: Ledger>(
    store: &S,
    low: LowTime,
    list: &mut UList,
    k: usize,
    table: &[Option<Id>],
    steps: &mut Steps<L>,
) -> bool
    requires inside { k < length list.old }
    requires placed { (e : Root) → slice_get list.old k ≡ Some e → int_le low e.max.clock ≡ true
        → IsPlaced (S.nodes store.now) table.now e.id }
    ensures moved { result ≡ true → (e : Root) × (f : Root) × (slice_get list.old k ≡ Some e)
        × (int_le low e.max.clock ≡ true) × EntryMoved (S.nodes store.now) table.now e f
        × (list.new ≡ slice_set list.old k f) }
    ensures old { result ≡ false → (e : Root) × (slice_get list.old k ≡ Some e)
        × (int_le low e.max.clock ≡ false) × (list.new ≡ list.old) }
    ensures steps { steps.new ≤ steps.old + 3 }
    ensures counted { result ≡ true → steps.old + 3 ≤ steps.new }
    ensures looked { steps.old + 1 ≤ steps.new }
{
    steps.tick();
    let entry = list.entry(k);
    if !is_recent(low, entry.max) {
        return false;
    }
    let place = place_of(table, entry.id);
    let need = need_at(store, place, steps);
    steps.tick();
    list.set(k, place, need);
    true
}

/// Moves the recent entries of a list and cuts the others off. False where none is recent. At most
/// three steps for each entry, and at least three for each recent one.
pub fn move_list<S: NodeStore, L: Ledger>(
    store: &S,
    low: LowTime,
    list: &mut UList,
    table: &[Option<Id>],
    steps: &mut Steps<L>,
) -> bool
    requires older { AreOlder list.old }
    requires placed { All (λ e. int_le low e.max.clock ≡ true
        → IsPlaced (S.nodes store.now) table.now e.id) list.old }
    ensures moved { result ≡ true
        → EntriesMoved (S.nodes store.now) table.now (recent_entries low list.old) list.new }
    ensures some { result ≡ true → 0 < length (recent_entries low list.old) }
    ensures old { result ≡ false → recent_entries low list.old ≡ [] }
    ensures steps { steps.new ≤ steps.old + 3 * length list.old }
    ensures counted { 3 * length (recent_entries low list.old) + steps.old ≤ steps.new }
{
    for k in 0..list.len() {
        if !move_entry(store, *&low, list, k, table, steps) {
            if k == 0 {
                return false;
            }
            list.cut_to(k);
            return true;
        }
    }
    true
}
