ghost use Rattle.std.specs.Prelude.{◌≡◌, ◌+◌, ◌^◌, ◌<◌, ◌≤◌, List, [], ◌∷◌, ◌++◌, length, take, slice_get, slice_set, IfOk, OnOk, OnErr};

use super::Memory;
use super::node::{Id, Node};
use super::steps::Steps;
use std::sync::ledger::Ledger;

/// A store of nodes, seen as the list of its nodes, oldest first: the node with id k is at place k.
/// Each call of `push`, `get` or `put` is one step; `len` and `cut_to` take none. Only `push` takes
/// memory.
pub trait NodeStore {
    ghost use Rattle.cer_base.specs.declared.node.Node.{Node};

    /// The nodes, oldest first.
    ghost nodes: { Self → List Node };

    /// Appends a node and gives its id. `Memory` where no place can be had for it; then the store
    /// is as it was.
    fn push<L: Ledger>(&mut self, node: Node, steps: &mut Steps<L>) -> Result<Id, Memory>
        ensures id { IfOk result (λ id. id ≡ length (nodes self.old)) }
        ensures appended { OnOk result (nodes self.new ≡ nodes self.old ++ node ∷ []) }
        ensures refused { OnErr result (nodes self.new ≡ nodes self.old) }
        ensures steps { steps.new ≡ steps.old + 1 };

    /// The node with this id, which is below `len`.
    fn get<L: Ledger>(&self, id: Id, steps: &mut Steps<L>) -> Node
        requires { id < length (nodes self.now) }
        ensures node { slice_get (nodes self.now) id ≡ Some result }
        ensures countable { length (nodes self.now) < 2 ^ 32 }
        ensures steps { steps.new ≡ steps.old + 1 };

    /// Writes the node with this id, which is below `len`. All others stay.
    fn put<L: Ledger>(&mut self, id: Id, node: Node, steps: &mut Steps<L>)
        requires { id < length (nodes self.old) }
        ensures written { nodes self.new ≡ slice_set (nodes self.old) id node }
        ensures steps { steps.new ≡ steps.old + 1 };

    /// How many nodes there are.
    fn len(&self) -> u64
        ensures count { result ≡ length (nodes self.now) }
        ensures few { result < 2 ^ 32 };

    /// Keeps the first n nodes, n being at most `len`.
    fn cut_to(&mut self, n: u64)
        requires { n ≤ length (nodes self.old) }
        ensures { nodes self.new ≡ take n (nodes self.old) };
}
