//! Parts, made node by node in a store.

ghost use Rattle.std.specs.Prelude.{◌≡◌, ◌<◌, List, [], ◌∷◌, ◌++◌, length, IfOk, IsTrue};
ghost use Rattle.cer_base.specs.Nodes.{HasNode, WellFormed, IsRoot};
ghost use Rattle.set_tests.specs.Parts.{made, trees_of, can_make, can_make_all, trees_at, AreNodes};

use crate::part::BuildStep;
use cer_base::Memory;
use cer_base::node::{Id, Root, Stamp};
use cer_base::steps::Steps;
use cer_base::store::NodeStore;
use cer_base::time::Time;
use std::alloc::Global;
use std::sync::ledger::Ledger;
use tecs_nodes::{bottom, extend, join, union};

/// Makes a part and gives the id of its node.
fn make<S: NodeStore, L: Ledger>(
    store: &mut S,
    ids: &[Id],
    part: BuildStep,
    steps: &mut Steps<L>,
) -> Result<Id, Memory>
    requires nodes { AreNodes (S.nodes store.old) ids.now }
    requires can { IsTrue (can_make (trees_at (S.nodes store.old) ids.now) part) }
    ensures nodes { IfOk result (λ id. AreNodes (S.nodes store.new) (ids.now ++ id ∷ [])) }
    ensures trees { IfOk result (λ id. trees_at (S.nodes store.new) (ids.now ++ id ∷ [])
        ≡ trees_at (S.nodes store.old) ids.now ++ made (trees_at (S.nodes store.old) ids.now) part ∷
        []) }
{
    match part {
        BuildStep::Start(pos, clock) => {
            let clock = Time::of(clock);
            bottom(store, Stamp { pos, clock }, steps)
        }
        BuildStep::Extend(place, pos) => extend(store, ids[place], pos, steps),
        BuildStep::Join(left, right) => join(store, ids[left], ids[right], steps),
        BuildStep::Unite(a, b) => union(store, ids[a], ids[b], steps),
    }
}

/// Makes all parts in an empty store, in order, and gives the ids of their nodes.
pub fn make_all<S: NodeStore, L: Ledger>(
    alloc: Global,
    store: &mut S,
    parts: &[BuildStep],
    steps: &mut Steps<L>,
) -> Result<Vec<Id>, Memory>
    requires empty { S.nodes store.old ≡ [] }
    requires can { IsTrue (can_make_all [] parts.now) }
    ensures nodes { IfOk result (λ ids. AreNodes (S.nodes store.new) ids.items) }
    ensures trees { IfOk result (λ ids. trees_at (S.nodes store.new) ids.items
        ≡ trees_of [] parts.now) }
{
    let mut ids = Vec::new(alloc);
    for part in parts {
        let id = make(store, &ids, *part, steps)?;
        ids.push(id)?;
    }
    Ok(ids)
}

/// The node as a root, with its greatest start and its need.
pub fn root_of<S: NodeStore, L: Ledger>(store: &S, id: Id, steps: &mut Steps<L>) -> Root
    requires well_formed { WellFormed (S.nodes store.now) }
    requires inside { id < length (S.nodes store.now) }
    ensures root { IsRoot (S.nodes store.now) result }
    ensures id { result.id ≡ id }
{
    let node = store.get(id, steps);
    Root {
        id,
        max: node.max(),
        need: node.need(),
    }
}
