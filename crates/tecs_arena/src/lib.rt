//! The store of a query's nodes: chunks of memory that double in size, the node with id k at a
//! place that k alone determines, so that no node ever moves.
//!
//! Promised: it is a `NodeStore`; a new one is empty; a push makes one chunk exactly where all
//! places are taken, and a refused push changes nothing; below the greatest count of nodes only a
//! push that needs a chunk may be refused; writing and cutting keep the chunks, and shrinking gives
//! those back that no node needs, but for one; all but a push take no memory. No place is read before
//! it was written, and all chunks are given back when the arena is dropped. Only the module `raw`
//! follows a pointer. It stands on `cer_base`.
#![tactic(auto)]

ghost use Rattle.std.specs.Prelude.{◌≡◌, ◌+◌, ◌*◌, ◌^◌, ◌<◌, ◌≤◌, [], ◌∷◌, ◌++◌, length, take, cond, nat_lt, slice_set, IfOk, OnOk, OnErr};
ghost use Rattle.tecs_arena.specs.Chunks.{places_of};

use cer_base::Memory;
use cer_base::node::{Id, Node};
use cer_base::steps::Steps;
use cer_base::store::NodeStore;
use std::alloc::Global;
use std::marker::Model;
use std::sync::ledger::Ledger;

mod chunk;
mod nodes;
mod raw;
mod table;
#[cfg(test)]
mod tests;

use nodes::Nodes;

/// Nodes in chunks of memory, seen as the list of its nodes, oldest first, and the count of its
/// chunks. The first chunk has 64 places, each other one twice as many as the one before it.
#[derive(Drop)]
pub struct Arena {
    nodes: Nodes,
}

impl Model for Arena {
    ghost use Rattle.tecs_arena.specs.Contents.{Contents};

    ghost Value = { Contents };

    ghost view = { λ a. a.nodes };
}

impl Arena {
    /// An arena of no nodes and no chunks, which takes its memory from the allocator as it grows.
    pub fn new(alloc: Global) -> Arena
        ensures nodes { result.nodes ≡ [] }
        ensures chunks { result.chunks ≡ 0 }
    {
        Arena {
            nodes: Nodes::new(alloc),
        }
    }

    /// How many chunks there are, from 0 to 27. A push makes one where all places are taken, and else
    /// none; `put` and `cut_to` keep them all; and there is a place for each node. It takes no memory.
    pub fn chunks(&self) -> usize
        ensures made { result ≡ self.now.chunks }
        ensures room { length self.now.nodes ≤ places_of result }
        ensures few { result < 28 }
    {
        self.nodes.chunks()
    }

    /// Gives back the chunks that no node needs, but for one, which the next nodes may need: then there
    /// are at most four places for each node, and 192. It takes no memory.
    pub fn shrink(&mut self)
        ensures nodes { self.new.nodes ≡ self.old.nodes }
        ensures fewer { self.new.chunks ≤ self.old.chunks }
        ensures places { places_of self.new.chunks ≤ 4 * length self.old.nodes + 192 }
    {
        self.nodes.shrink();
    }
}

impl NodeStore for Arena {
    ghost nodes = { λ a. a.nodes };

    /// Beside what any store promises: it makes one chunk exactly where all places are taken. Below
    /// 2^32 - 1 nodes `Memory` comes only there; then nothing is changed.
    #[inline]
    fn push<L: Ledger>(&mut self, node: Node, steps: &mut Steps<L>) -> Result<Id, Memory>
        ensures id { IfOk result (λ id. id ≡ length self.old.nodes) }
        ensures appended { OnOk result (self.new.nodes ≡ self.old.nodes ++ node ∷ []) }
        ensures refused { OnErr result (self.new ≡ self.old) }
        ensures steps { steps.new ≡ steps.old + 1 }
        ensures chunks { OnOk result (self.new.chunks
            ≡ cond (nat_lt (length self.old.nodes) (places_of self.old.chunks))
            self.old.chunks (self.old.chunks + 1)) }
        ensures due { OnErr result (length self.old.nodes + 1 < 2 ^ 32
            → length self.old.nodes ≡ places_of self.old.chunks) }
    {
        steps.tick();
        self.nodes.push(node)
    }

    #[inline]
    fn get<L: Ledger>(&self, id: Id, steps: &mut Steps<L>) -> Node {
        steps.tick();
        self.nodes.get(id)
    }

    /// Beside what any store promises: all chunks stay.
    #[inline]
    fn put<L: Ledger>(&mut self, id: Id, node: Node, steps: &mut Steps<L>)
        requires { id < length self.old.nodes }
        ensures written { self.new.nodes ≡ slice_set self.old.nodes id node }
        ensures steps { steps.new ≡ steps.old + 1 }
        ensures chunks { self.new.chunks ≡ self.old.chunks }
    {
        steps.tick();
        self.nodes.put(id, node);
    }

    #[inline]
    fn len(&self) -> u64 {
        self.nodes.len()
    }

    /// Beside what any store promises: all chunks stay.
    #[inline]
    fn cut_to(&mut self, n: u64)
        requires { n ≤ length self.old.nodes }
        ensures nodes { self.new.nodes ≡ take n self.old.nodes }
        ensures chunks { self.new.chunks ≡ self.old.chunks }
    {
        self.nodes.cut_to(n);
    }
}
