//! What a cursor gives, answer by answer, and how many steps each takes.

ghost use Rattle.std.specs.Prelude.{◌≡◌, ℕ, ◌+◌, ◌*◌, ◌<◌, ◌≤◌, ◌≤ℤ◌, List, [], ◌∷◌, length, pos, All, IfOk, IsTrue};
ghost use Rattle.cer_base.specs.Members.{Member, Start, Extended, United};
ghost use Rattle.cer_base.specs.Nodes.{tree, WellFormed, IsRoot};
ghost use Rattle.tecs_enumerate.specs.Remaining.{rest, Fits};
ghost use Rattle.set_tests.specs.Parts.{can_make_all, AreNodes};
ghost use Rattle.set_tests.specs.Ledgers.{Opens};

use crate::part::BuildStep;
use crate::parts::{make_all, root_of};
use cer_base::node::{Id, Root};
use cer_base::steps::{Opening, Steps};
use cer_base::store::NodeStore;
use cer_base::{Memory, Pos};
use std::alloc::Global;
use std::sync::ledger::Ledger;
use tecs_arena::Arena;
use tecs_enumerate::Cursor;

/// Whether the next answer starts at the position and the clock, and has these positions, greatest
/// first.
pub fn next_is<S: NodeStore, L: Ledger>(
    cursor: &mut Cursor,
    store: &S,
    pos: Pos,
    clock: i128,
    positions: &[Pos],
    steps: &mut Steps<L>,
) -> bool
    requires well_formed { WellFormed (S.nodes store.now) }
    requires fits { Fits cursor.old (S.nodes store.now) }
    ensures fits { Fits cursor.new (S.nodes store.now) }
    ensures gives { (more : List Member) → rest cursor.old (S.nodes store.now)
        ≡ record { start = record { pos = pos; clock = clock }; positions = positions.now } ∷ more
        → IsTrue result
        × (rest cursor.new (S.nodes store.now) ≡ more) }
    ensures delay { (more : List Member) → rest cursor.old (S.nodes store.now)
        ≡ record { start = record { pos = pos; clock = clock }; positions = positions.now } ∷ more
        → steps.new ≤ steps.old + 4 * (length positions.now + 1) }
{
    match cursor.next(store, steps) {
        Some(given) => {
            given.pos == pos && given.clock.get() == clock && cursor.positions() == positions
        }
        None => false,
    }
}

/// Makes six nodes in an empty store: 0 a bottom at 0, 1 an output of 0 at 0, 2 a bottom at 1, 3 an
/// output of 2 at 1, 4 an output of 1 at 1, and 5 the join of 3 and 4, which is the root.
pub fn join_of_two<S: NodeStore, L: Ledger>(
    alloc: Global,
    store: &mut S,
    steps: &mut Steps<L>,
) -> Result<Root, Memory>
    requires empty { S.nodes store.old ≡ [] }
    ensures well_formed { IfOk result (λ root. WellFormed (S.nodes store.new)) }
    ensures root { IfOk result (λ root. IsRoot (S.nodes store.new) root) }
    ensures tree { IfOk result (λ root. tree (S.nodes store.new) root.id
        ≡ United (Extended 1 (Start (record { pos = 1; clock = pos 1 })))
        (Extended 1 (Extended 0 (Start (record { pos = 0; clock = pos 0 }))))) }
{
    let parts = [
        BuildStep::Start(0, 0),
        BuildStep::Extend(0, 0),
        BuildStep::Start(1, 1),
        BuildStep::Extend(2, 1),
        BuildStep::Extend(1, 1),
        BuildStep::Join(3, 4),
    ];
    let ids = make_all(alloc, store, &parts, steps)?;
    Ok(root_of(store, ids[5], steps))
}

/// Whether a cursor on the join of two, with the window open, gives the later start with the
/// position 1, then the earlier one with the positions 1 and 0, then none. Each call's steps are
/// counted alone.
pub fn gives_two<S: NodeStore, Making: Ledger, First: Ledger, Second: Ledger, Third: Ledger>(
    alloc: Global,
    store: &mut S,
    making: &mut Steps<Making>,
    first: &mut Steps<First>,
    second: &mut Steps<Second>,
    third: &mut Steps<Third>,
) -> Result<bool, Memory>
    requires empty { S.nodes store.old ≡ [] }
    ensures gives { IfOk result (λ gives. IsTrue gives) }
    ensures first { first.new ≤ first.old + 8 }
    ensures second { second.new ≤ second.old + 12 }
    ensures third { third.new ≤ third.old + 1 }
{
    let root = join_of_two(alloc, store, making)?;
    let mut cursor = Cursor::begin(alloc, store, 1, &[root], 0, making)?;
    let later = next_is(&mut cursor, store, 1, 1, &[1], first);
    let earlier = next_is(&mut cursor, store, 0, 0, &[1, 0], second);
    let done = cursor.next(store, third).is_none();
    Ok(later && earlier && done)
}

/// As `gives_two` with a window that begins at clock 1: the later start with the position 1, then
/// none.
pub fn gives_one<S: NodeStore, Making: Ledger, First: Ledger, Second: Ledger>(
    alloc: Global,
    store: &mut S,
    making: &mut Steps<Making>,
    first: &mut Steps<First>,
    second: &mut Steps<Second>,
) -> Result<bool, Memory>
    requires empty { S.nodes store.old ≡ [] }
    ensures gives { IfOk result (λ gives. IsTrue gives) }
    ensures first { first.new ≤ first.old + 8 }
    ensures second { second.new ≤ second.old + 1 }
{
    let root = join_of_two(alloc, store, making)?;
    let mut cursor = Cursor::begin(alloc, store, 1, &[root], 1, making)?;
    let later = next_is(&mut cursor, store, 1, 1, &[1], first);
    let done = cursor.next(store, second).is_none();
    Ok(later && done)
}

/// `gives_two` over an arena, then `gives_one`, with a ledger for each count.
pub fn join_of_two_is_listed<A: Ledger, B: Ledger, C: Ledger, D: Ledger>(
    alloc: Global,
    making: Opening,
    first: Opening,
    second: Opening,
    third: Opening,
) -> Result<bool, Memory>
    requires making { Opens making.name making.parts A.name A.parts }
    requires first { Opens first.name first.parts B.name B.parts }
    requires second { Opens second.name second.parts C.name C.parts }
    requires third { Opens third.name third.parts D.name D.parts }
    ensures { IfOk result (λ gives. IsTrue gives) }
{
    let mut making = Steps::<A>::start(making);
    let mut first = Steps::<B>::start(first);
    let mut second = Steps::<C>::start(second);
    let mut third = Steps::<D>::start(third);
    let mut wide = Arena::new(alloc);
    let two = gives_two(
        alloc,
        &mut wide,
        &mut making,
        &mut first,
        &mut second,
        &mut third,
    )?;
    let mut narrow = Arena::new(alloc);
    let one = gives_one(alloc, &mut narrow, &mut making, &mut first, &mut third)?;
    Ok(two && one)
}

/// The nodes at the places as roots. A place past the last node is passed over.
fn roots_at<S: NodeStore, L: Ledger>(
    alloc: Global,
    store: &S,
    ids: &[Id],
    places: &[usize],
    steps: &mut Steps<L>,
) -> Result<Vec<Root>, Memory>
    requires nodes { AreNodes (S.nodes store.now) ids.now }
    ensures { IfOk result (λ roots. All (IsRoot (S.nodes store.now)) roots.items) }
{
    let mut roots = Vec::new(alloc);
    for place in places {
        if let Some(id) = ids.get(*place) {
            roots.push(root_of(store, *id, steps))?;
        }
    }
    Ok(roots)
}

/// Writes each answer that the cursor still gives, as `2 [5, 4]; `: its start's position, then its
/// positions, greatest first.
pub fn write_all<S: NodeStore, L: Ledger>(
    alloc: Global,
    cursor: &mut Cursor,
    store: &S,
    steps: &mut Steps<L>,
) -> Result<String, Memory>
    requires well_formed { WellFormed (S.nodes store.now) }
    requires fits { Fits cursor.old (S.nodes store.now) }
{
    let mut text = String::new(alloc);
    while let Some(start) = cursor.next(store, steps) {
        let answer = format!(in alloc; "{} {:?}; ", start.pos, cursor.positions())?;
        text.push_str(&answer)?;
    }
    Ok(text)
}

/// Makes the parts in an arena, and writes the answers of a cursor on those at the places.
pub fn listing<L: Ledger>(
    alloc: Global,
    parts: &[BuildStep],
    places: &[usize],
    low: i128,
    opening: Opening,
) -> Result<String, Memory>
    requires can { IsTrue (can_make_all [] parts.now) }
    requires ledger { Opens opening.name opening.parts L.name L.parts }
{
    let mut steps = Steps::<L>::start(opening);
    let mut store = Arena::new(alloc);
    let ids = make_all(alloc, &mut store, parts, &mut steps)?;
    let roots = roots_at(alloc, &store, &ids, places, &mut steps)?;
    let mut cursor = Cursor::begin(alloc, &store, 1, &roots, low, &mut steps)?;
    write_all(alloc, &mut cursor, &store, &mut steps)
}
