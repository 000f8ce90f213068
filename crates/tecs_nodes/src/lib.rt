//! The nodes that the open matches of a query stand in. A set of complex events that end at one
//! position may be huge, so it is never listed: a bottom is one start, an output puts a position
//! in front of each member of its child, a union has the members of two children. Nodes are only
//! added, and many share a child, so what is common to many members is kept once.
//!
//! Promised: each call makes exactly the tree that it names, keeps the store well-formed and all
//! older nodes as they were, and leaves the store unchanged where memory runs out. Unions are
//! chained so that a walk over the members meets at most three of them before each other node.
//! `tecs_enumerate` has a drawing. It stands on `cer_base` alone, over any store.
#![tactic(auto)]

ghost use Rattle.std.specs.Prelude.{◌≡◌, ◌+◌, ◌<◌, ◌≤◌, [], ◌∷◌, ◌++◌, length, All, Contains, IfOk, OnOk, OnErr};
ghost use Rattle.cer_base.specs.Members.{Member, Start, Extended, United, members, newest, ComesAfter, CanJoin, IsWellFormedTree};
ghost use Rattle.cer_base.specs.Nodes.{tree, AreInStep, WellFormed, HasNode, Grows, IsUnion};
ghost use Rattle.tecs_nodes.specs.Unite.{CanUnite, united, nodes_made, steps_taken};

use cer_base::node::{Id, Node, Stamp};
use cer_base::steps::Steps;
use cer_base::store::NodeStore;
use cer_base::{Memory, Pos};
use std::sync::ledger::Ledger;

/// Makes a node with one member, which starts at the stamp and has no positions, and gives its id.
/// With this stamp, clocks of the store's starts still must not fall as positions rise.
/// `Memory` where the store has no place for the node; then it is as it was. One step.
pub fn bottom<S: NodeStore, L: Ledger>(
    store: &mut S,
    stamp: Stamp,
    steps: &mut Steps<L>,
) -> Result<Id, Memory>
    requires well_formed { WellFormed (S.nodes store.old) }
    requires in_step { AreInStep (S.nodes store.old ++ Node.Bottom stamp ∷ []) }
    ensures made { IfOk result (λ id. HasNode (S.nodes store.new) id (Start stamp)) }
    ensures appended { OnOk result (S.nodes store.new ≡ S.nodes store.old
        ++ Node.Bottom stamp ∷ []) }
    ensures refused { OnErr result (S.nodes store.new ≡ S.nodes store.old) }
    ensures well_formed { WellFormed (S.nodes store.new) }
    ensures steps { steps.new ≡ steps.old + 1 }
{
    store.push(Node::Bottom { start: stamp }, steps)
}

/// Makes a node with the members of an older one, each with the position put in front, and gives
/// its id. The position is above each position of the members and not below any of their starts.
/// `Memory` where the store has no place for the node; then it is as it was. Two steps.
pub fn extend<S: NodeStore, L: Ledger>(
    store: &mut S,
    id: Id,
    pos: Pos,
    steps: &mut Steps<L>,
) -> Result<Id, Memory>
    requires well_formed { WellFormed (S.nodes store.old) }
    requires inside { id < length (S.nodes store.old) }
    requires after { All (ComesAfter pos) (members (tree (S.nodes store.old) id)) }
    ensures made { IfOk result (λ new. HasNode (S.nodes store.new) new
        (Extended pos (tree (S.nodes store.old) id))) }
    ensures refused { OnErr result (S.nodes store.new ≡ S.nodes store.old) }
    ensures grows { Grows (S.nodes store.old) (S.nodes store.new) }
    ensures pushed { OnOk result (length (S.nodes store.new) ≡ length (S.nodes store.old) + 1) }
    ensures pushes { length (S.nodes store.new) ≤ length (S.nodes store.old) + 1 }
    ensures steps { steps.new ≡ steps.old + 2 }
{
    let child = store.get(id, steps);
    store.push(
        Node::Output {
            pos,
            child: id,
            max: child.max(),
            need: child.need() + 1,
        },
        steps,
    )
}

/// Makes a node with the members of the left node, then those of the right one, and gives its id.
/// The right one has no later start than the left one, no member is in both, and the left one has
/// depth at most 2. `Memory` where the store has no place for the node; then it is as it was.
/// Three steps.
pub fn join<S: NodeStore, L: Ledger>(
    store: &mut S,
    left: Id,
    right: Id,
    steps: &mut Steps<L>,
) -> Result<Id, Memory>
    requires well_formed { WellFormed (S.nodes store.old) }
    requires left_inside { left < length (S.nodes store.old) }
    requires right_inside { right < length (S.nodes store.old) }
    requires can { CanJoin (tree (S.nodes store.old) left) (tree (S.nodes store.old) right) }
    ensures made { IfOk result (λ new. HasNode (S.nodes store.new) new
        (United (tree (S.nodes store.old) left) (tree (S.nodes store.old) right))) }
    ensures refused { OnErr result (S.nodes store.new ≡ S.nodes store.old) }
    ensures grows { Grows (S.nodes store.old) (S.nodes store.new) }
    ensures pushed { OnOk result (length (S.nodes store.new) ≡ length (S.nodes store.old) + 1) }
    ensures pushes { length (S.nodes store.new) ≤ length (S.nodes store.old) + 1 }
    ensures steps { steps.new ≡ steps.old + 3 }
{
    let first = store.get(left, steps);
    let second = store.get(right, steps);
    store.push(
        Node::Union {
            left,
            right,
            max: first.max(),
            right_max: second.max(),
            need: (first.need() + 1).max(second.need()),
        },
        steps,
    )
}

/// The greatest start among a node's members. It takes no memory. One step.
pub fn max_start<S: NodeStore, L: Ledger>(store: &S, id: Id, steps: &mut Steps<L>) -> Stamp
    requires well_formed { WellFormed (S.nodes store.now) }
    requires inside { id < length (S.nodes store.now) }
    ensures max { result ≡ newest (tree (S.nodes store.now) id) }
    ensures greatest { All (λ m. m.start.pos ≤ result.pos) (members (tree (S.nodes store.now) id)) }
    ensures among { (m : Member) × Contains (members (tree (S.nodes store.now) id)) m
        × (m.start ≡ result) }
    ensures steps { steps.new ≡ steps.old + 1 }
{
    store.get(id, steps).max()
}

/// Makes a union of the first with a union of the second with a union of the last two. Where
/// memory runs out, some of them may have been made.
fn chain<S: NodeStore, L: Ledger>(
    store: &mut S,
    first: Id,
    second: Id,
    third: Id,
    fourth: Id,
    steps: &mut Steps<L>,
) -> Result<Id, Memory>
    requires well_formed { WellFormed (S.nodes store.old) }
    requires inside { (first < length (S.nodes store.old)) × (second < length (S.nodes store.old))
        × (third < length (S.nodes store.old)) × (fourth < length (S.nodes store.old)) }
    requires well_formed_tree { IsWellFormedTree
        (United (tree (S.nodes store.old) first) (United (tree (S.nodes store.old) second)
        (United (tree (S.nodes store.old) third) (tree (S.nodes store.old) fourth)))) }
    ensures made { IfOk result (λ new. HasNode (S.nodes store.new) new
        (United (tree (S.nodes store.old) first) (United (tree (S.nodes store.old) second)
        (United (tree (S.nodes store.old) third) (tree (S.nodes store.old) fourth))))) }
    ensures grows { Grows (S.nodes store.old) (S.nodes store.new) }
    ensures pushed { OnOk result (length (S.nodes store.new) ≡ length (S.nodes store.old) + 3) }
    ensures pushes { length (S.nodes store.new) ≤ length (S.nodes store.old) + 3 }
    ensures taken { OnOk result (steps.new ≡ steps.old + 9) }
    ensures steps { steps.new ≤ steps.old + 9 }
{
    let inner = join(store, third, fourth, steps)?;
    let middle = join(store, second, inner, steps)?;
    join(store, first, middle, steps)
}

/// Makes the union of two safe nodes. Where memory runs out, a part of it may have been made.
fn unite<S: NodeStore, L: Ledger>(
    store: &mut S,
    a: Id,
    b: Id,
    steps: &mut Steps<L>,
) -> Result<Id, Memory>
    requires well_formed { WellFormed (S.nodes store.old) }
    requires a_inside { a < length (S.nodes store.old) }
    requires b_inside { b < length (S.nodes store.old) }
    requires can { CanUnite (tree (S.nodes store.old) a) (tree (S.nodes store.old) b) }
    ensures made { IfOk result (λ id. HasNode (S.nodes store.new) id
        (united (tree (S.nodes store.old) a) (tree (S.nodes store.old) b))) }
    ensures grows { Grows (S.nodes store.old) (S.nodes store.new) }
    ensures pushed { OnOk result (length (S.nodes store.new)
        ≡ length (S.nodes store.old) + nodes_made (tree (S.nodes store.old) a)
        (tree (S.nodes store.old) b)) }
    ensures pushes { length (S.nodes store.new) ≤ length (S.nodes store.old) + 3 }
    ensures taken { OnOk result (steps.new ≡ steps.old + steps_taken (tree (S.nodes store.old) a)
        (tree (S.nodes store.old) b)) }
    ensures steps { steps.new ≤ steps.old + 11 }
{
    let first = store.get(a, steps);
    let second = store.get(b, steps);
    match first {
        Node::Union {
            left: l,
            right: r,
            right_max: r_max,
            ..
        } => match second {
            Node::Union {
                left: m,
                right: s,
                right_max: s_max,
                ..
            } => {
                if s_max.pos <= r_max.pos {
                    chain(store, l, m, r, s, steps)
                } else {
                    chain(store, l, m, s, r, steps)
                }
            }
            _ => join(store, b, a, steps),
        },
        _ => join(store, a, b, steps),
    }
}

/// Makes a safe node with the members of two safe nodes, and gives its id. The two have the same
/// greatest start and no member in common. Of two nodes of which one is no union, that one goes to
/// the left. Of two unions, both left children go before a union of the two right ones, of which
/// the one with the later start goes to the left. It pushes at most three nodes. `Memory` where the
/// store has no place for one of them; then it is as it was. Two unions take three nodes and eleven
/// steps, any others one node and five steps; a refused call takes no more.
pub fn union<S: NodeStore, L: Ledger>(
    store: &mut S,
    a: Id,
    b: Id,
    steps: &mut Steps<L>,
) -> Result<Id, Memory>
    requires well_formed { WellFormed (S.nodes store.old) }
    requires a_inside { a < length (S.nodes store.old) }
    requires b_inside { b < length (S.nodes store.old) }
    requires can { CanUnite (tree (S.nodes store.old) a) (tree (S.nodes store.old) b) }
    ensures made { IfOk result (λ id. HasNode (S.nodes store.new) id
        (united (tree (S.nodes store.old) a) (tree (S.nodes store.old) b))) }
    ensures union { IfOk result (λ id. IsUnion (S.nodes store.old) a b (S.nodes store.new) id) }
    ensures refused { OnErr result (S.nodes store.new ≡ S.nodes store.old) }
    ensures grows { Grows (S.nodes store.old) (S.nodes store.new) }
    ensures pushed { OnOk result (length (S.nodes store.new)
        ≡ length (S.nodes store.old) + nodes_made (tree (S.nodes store.old) a)
        (tree (S.nodes store.old) b)) }
    ensures pushes { length (S.nodes store.new) ≤ length (S.nodes store.old) + 3 }
    ensures taken { OnOk result (steps.new ≡ steps.old + steps_taken (tree (S.nodes store.old) a)
        (tree (S.nodes store.old) b)) }
    ensures steps { steps.new ≤ steps.old + 11 }
{
    let len = store.len();
    let united = unite(store, a, b, steps);
    if united.is_err() {
        store.cut_to(len);
    }
    united
}
