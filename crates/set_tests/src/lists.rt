//! A list that takes in some nodes, one after the other.
ghost use Rattle.std.specs.Prelude.{◌≡◌, ◌<◌, ◌≤◌, [], length, IfOk, OnOk};
ghost use Rattle.cer_base.specs.Nodes.{WellFormed, Grows};
ghost use Rattle.union_lists.specs.Lists.{IsUnionList};
ghost use Rattle.set_tests.specs.Rows.{CanInsertAll};

use crate::part::BuildStep;
use crate::parts::make_all;
use cer_base::Memory;
use cer_base::node::Id;
use cer_base::steps::{Opening, Steps};
use cer_base::store::NodeStore;
use std::alloc::Global;
use std::sync::ledger::Ledger;
use tecs_arena::Arena;
use union_lists::{UList, one};

/// What became of a list: the greatest starts of its entries, how many nodes the inserts made, and
/// how many the merge made.
#[derive(Drop)]
pub struct Outcome {
    pub starts: Vec<u64>,
    pub by_inserts: u64,
    pub by_merge: u64,
}

/// Lets the list take in the nodes in order.
pub fn insert_each<S: NodeStore, L: Ledger>(
    list: &mut UList,
    store: &mut S,
    ids: &[Id],
    steps: &mut Steps<L>,
) -> Result<(), Memory>
    requires well_formed { WellFormed (S.nodes store.old) }
    requires can { CanInsertAll (S.nodes store.old) list.old ids.now }
    ensures list { OnOk result (IsUnionList (S.nodes store.new) list.new) }
    ensures grows { Grows (S.nodes store.old) (S.nodes store.new) }
{
    for k in 0..ids.len() {
        list.insert(store, ids[k], steps)?;
    }
    Ok(())
}

/// The greatest starts of the entries.
pub fn starts_of(alloc: Global, list: &UList) -> Result<Vec<u64>, Memory> {
    let mut starts = Vec::new(alloc);
    for k in 0..list.len() {
        starts.push(list.entry(k).max.pos)?;
    }
    Ok(starts)
}

/// Makes two bottoms, at 5 and 7, and extends them by 8 and by 9. The list of the node that starts
/// at 7 and has 8 takes in the others in this order: start 5 with 8, start 7 with 9, start 5 with 9.
/// Then it is merged.
fn seven_takes_in_three<S: NodeStore, L: Ledger>(
    alloc: Global,
    store: &mut S,
    steps: &mut Steps<L>,
) -> Result<Outcome, Memory>
    requires empty { S.nodes store.old ≡ [] }
{
    let parts = [
        BuildStep::Start(5, 5),
        BuildStep::Start(7, 7),
        BuildStep::Extend(1, 8),
        BuildStep::Extend(0, 8),
        BuildStep::Extend(1, 9),
        BuildStep::Extend(0, 9),
    ];
    let ids = make_all(alloc, store, &parts, steps)?;
    let mut list = one(alloc, store, ids[2], steps)?;
    let others = [ids[3], ids[4], ids[5]];
    let before = store.len();
    insert_each(&mut list, store, &others, steps)?;
    let inserted = store.len();
    list.merge(store, steps)?;
    Ok(Outcome {
        starts: starts_of(alloc, &list)?,
        by_inserts: inserted - before,
        by_merge: store.len() - inserted,
    })
}

/// Seven takes in three in an arena of its own, with a count of its own.
pub fn seven_takes_in_three_in_an_arena<L: Ledger>(
    alloc: Global,
    opening: Opening,
) -> Result<Outcome, Memory>
    requires name { opening.name ≡ L.name }
    requires parts { opening.parts ≡ L.parts }
{
    let mut steps = Steps::<L>::start(opening);
    let mut store = Arena::new(alloc);
    seven_takes_in_three(alloc, &mut store, &mut steps)
}
