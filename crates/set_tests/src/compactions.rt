//! Three events, a list and a cursor.
ghost use Rattle.std.specs.Prelude.{◌≡◌, [], ◌∷◌, All, IfOk, OnOk};
ghost use Rattle.cer_base.specs.Nodes.{WellFormed, IsRoot};
ghost use Rattle.tecs_enumerate.specs.Remaining.{Fits};
ghost use Rattle.set_tests.specs.Ledgers.{Opens};
ghost use Rattle.union_lists.specs.Lists.{IsUnionList};

use crate::listings::write_all;
use crate::part::BuildStep;
use crate::parts::{make_all, root_of};
use arena_compact::{Room, compact};
use cer_base::Memory;
use cer_base::node::Root;
use cer_base::steps::{Opening, Steps};
use cer_base::store::NodeStore;
use event_update::ActiveStates;
use std::alloc::Global;
use std::sync::ledger::Ledger;
use tecs_arena::Arena;
use tecs_enumerate::Cursor;
use union_lists::{UList, one};

/// What a compaction left: how many nodes, and the members that the lists and the held cursor give.
#[derive(Drop)]
pub struct Outcome {
    pub nodes: u64,
    pub lists: String,
    pub cursor: String,
}

/// The list, as that of state 1 alone.
fn of_state_one(alloc: Global, list: UList) -> Result<ActiveStates, Memory>
    ensures { IfOk result (λ a. a.entries ≡ (1, list) ∷ []) }
{
    let mut rows = Vec::new(alloc);
    rows.push((1, list))?;
    Ok(ActiveStates::of(rows))
}

/// Makes ten nodes in an empty store: 0 a bottom at 0, 1 an output of 0 at 0, 2 a bottom at 1, 3 an
/// output of 2 at 1, 4 an output of 1 at 1, 5 the join of 3 and 4, 6 a bottom at 2, 7 an output of
/// 6 at 2, 8 an output of 5 at 2, 9 the join of 7 and 8. The one key has state 1 with the list of
/// 8; the root is 9.
fn three_events<S: NodeStore, L: Ledger>(
    alloc: Global,
    store: &mut S,
    keys: &mut Vec<ActiveStates>,
    steps: &mut Steps<L>,
) -> Result<Root, Memory>
    requires empty { S.nodes store.old ≡ [] }
    requires none { keys.old.items ≡ [] }
    ensures well_formed { OnOk result (WellFormed (S.nodes store.new)) }
    ensures lists { OnOk result (All (λ a. All (λ r. IsUnionList (S.nodes store.new) r.1)
        a.entries) keys.new.items) }
    ensures root { IfOk result (IsRoot (S.nodes store.new)) }
{
    let parts = [
        BuildStep::Start(0, 0),
        BuildStep::Extend(0, 0),
        BuildStep::Start(1, 1),
        BuildStep::Extend(2, 1),
        BuildStep::Extend(1, 1),
        BuildStep::Join(3, 4),
        BuildStep::Start(2, 2),
        BuildStep::Extend(6, 2),
        BuildStep::Extend(5, 2),
        BuildStep::Join(7, 8),
    ];
    let ids = make_all(alloc, store, &parts, steps)?;
    let list = one(alloc, store, ids[8], steps)?;
    keys.push(of_state_one(alloc, list)?)?;
    Ok(root_of(store, ids[9], steps))
}

/// The members of each state's list, after the state's number.
fn lists_text<S: NodeStore, L: Ledger>(
    alloc: Global,
    store: &S,
    lists: &ActiveStates,
    steps: &mut Steps<L>,
) -> Result<String, Memory>
    requires well_formed { WellFormed (S.nodes store.now) }
    requires lists { All (λ r. IsUnionList (S.nodes store.now) r.1) lists.now.entries }
{
    let mut text = String::new(alloc);
    for k in 0..lists.len() {
        let state = lists.state(k);
        let mut entries = Vec::new(alloc);
        lists.list(k).push_to(&mut entries)?;
        let mut cursor = Cursor::begin(alloc, store, 1, entries.as_slice(), 0, steps)?;
        let members = write_all(alloc, &mut cursor, store, steps)?;
        let line = format!(in alloc; "{state}: {members}")?;
        text.push_str(&line)?;
    }
    Ok(text)
}

/// The members that the cursors still give.
fn cursors_text<S: NodeStore, L: Ledger>(
    alloc: Global,
    store: &S,
    cursors: &mut [Cursor],
    steps: &mut Steps<L>,
) -> Result<String, Memory>
    requires well_formed { WellFormed (S.nodes store.now) }
    requires fits { All (λ w. Fits w (S.nodes store.now)) cursors.old }
{
    let mut text = String::new(alloc);
    for k in 0..cursors.len() {
        let members = write_all(alloc, &mut cursors[k], store, steps)?;
        text.push_str(&members)?;
    }
    Ok(text)
}

/// What the nodes, the lists and the cursors are.
fn tell<S: NodeStore, L: Ledger>(
    alloc: Global,
    store: &S,
    keys: &[ActiveStates],
    cursors: &mut [Cursor],
    steps: &mut Steps<L>,
) -> Result<Outcome, Memory>
    requires well_formed { WellFormed (S.nodes store.now) }
    requires lists { All (λ a. All (λ r. IsUnionList (S.nodes store.now) r.1) a.entries) keys.now }
    requires fits { All (λ w. Fits w (S.nodes store.now)) cursors.old }
{
    let mut lists = String::new(alloc);
    for k in 0..keys.len() {
        let text = lists_text(alloc, store, &keys[k], steps)?;
        lists.push_str(&text)?;
    }
    Ok(Outcome {
        nodes: store.len(),
        lists,
        cursor: cursors_text(alloc, store, cursors, steps)?,
    })
}

/// Compacts the nodes of query 1, for these lists and cursors of it, and tells what is left.
fn compact_and_tell<S: NodeStore, L: Ledger>(
    alloc: Global,
    store: &mut S,
    keys: &mut [ActiveStates],
    cursors: &mut [Cursor],
    low: i128,
    steps: &mut Steps<L>,
) -> Result<Outcome, Memory>
    requires well_formed { WellFormed (S.nodes store.old) }
    requires lists { All (λ a. All (λ r. IsUnionList (S.nodes store.old) r.1) a.entries) keys.old }
    requires cursors { All (λ w. (w.query ≡ 1) × Fits w (S.nodes store.old)) cursors.old }
{
    let mut room = Room::new(alloc, store.len())?;
    compact(store, 1, keys, cursors, low, &mut room, steps);
    tell(alloc, store, keys, cursors, steps)
}

/// After three events a cursor on the root, with an open window, gives its first member and is held
/// over a compaction from this clock on.
pub fn with_a_held_cursor<L: Ledger>(
    alloc: Global,
    low: i128,
    opening: Opening,
) -> Result<Outcome, Memory>
    requires { Opens opening.name opening.parts L.name L.parts }
{
    let mut steps = Steps::<L>::start(opening);
    let mut store = Arena::new(alloc);
    let mut keys = Vec::new(alloc);
    let root = three_events(alloc, &mut store, &mut keys, &mut steps)?;
    let mut cursor = Cursor::begin(alloc, &store, 1, &[root], 0, &mut steps)?;
    let _first = cursor.next(&store, &mut steps);
    let mut cursors = Vec::new(alloc);
    cursors.push(cursor)?;
    compact_and_tell(
        alloc,
        &mut store,
        keys.as_mut_slice(),
        cursors.as_mut_slice(),
        low,
        &mut steps,
    )
}

/// A compaction with no cursor held.
pub fn with_none_held<L: Ledger>(
    alloc: Global,
    low: i128,
    opening: Opening,
) -> Result<Outcome, Memory>
    requires { Opens opening.name opening.parts L.name L.parts }
{
    let mut steps = Steps::<L>::start(opening);
    let mut store = Arena::new(alloc);
    let mut keys = Vec::new(alloc);
    let _root = three_events(alloc, &mut store, &mut keys, &mut steps)?;
    compact_and_tell(
        alloc,
        &mut store,
        keys.as_mut_slice(),
        &mut [],
        low,
        &mut steps,
    )
}
