//! Nodes in chunks, and how many they are.
//!
//! The first places hold the nodes, oldest first. What the places after them hold is of no
//! concern, also where it was a node before a cut.
ghost use Rattle.std.specs.Prelude.{◌≡◌, ◌+◌, ◌*◌, ◌^◌, ◌<◌, ◌≤◌, [], ◌∷◌, ◌++◌, length, take, cond, nat_lt, slice_get, slice_set, Some, IfOk, OnOk, OnErr};
ghost use Rattle.tecs_arena.specs.Chunks.{places_of};

use super::table::Table;
use cer_base::Memory;
use cer_base::node::{Id, Node};
use std::alloc::Global;
use std::marker::Model;

/// Nodes in chunks, seen as the list of the nodes, oldest first, and the count of the chunks.
#[derive(Drop)]
pub(crate) struct Nodes {
    len: Id,
    table: Table,
    alloc: Global,
}

impl Model for Nodes {
    ghost use Rattle.std.specs.Prelude.{◌≡◌, ◌<◌, ◌≤◌, ◌^◌, map, take, length, Some};
    ghost use Rattle.tecs_arena.specs.Chunks.{values_of};
    ghost use Rattle.tecs_arena.specs.Contents.{Contents};

    ghost Value = { Contents };

    ghost view = { λ n. record {
      nodes = values_of (take n.len n.table.places);
      chunks = n.table.chunks;
    } };

    ghost invariant = { λ n. ((n.len ≤ length n.table.places)
        × (map Some (values_of (take n.len n.table.places)) ≡ take n.len n.table.places))
        × (n.len < 2 ^ 32) };
}

impl Nodes {
    /// No nodes and no chunks, which takes no memory.
    pub(crate) fn new(alloc: Global) -> Nodes
        ensures nodes { result.nodes ≡ [] }
        ensures chunks { result.chunks ≡ 0 }
    {
        Nodes {
            len: 0,
            table: Table::new(),
            alloc,
        }
    }

    /// How many chunks there are: at most 27, with a place for each node.
    #[inline]
    pub(crate) fn chunks(&self) -> usize
        ensures made { result ≡ self.now.chunks }
        ensures room { length self.now.nodes ≤ places_of result }
        ensures few { result < 28 }
    {
        self.table.chunks()
    }

    /// Appends a node and gives its id. It makes one chunk exactly where all places are taken.
    /// `Memory` where that cannot be had, and where the next length would be no id, and nowhere else;
    /// then nothing is changed.
    #[inline]
    pub(crate) fn push(&mut self, node: Node) -> Result<Id, Memory>
        ensures id { IfOk result (λ id. id ≡ length self.old.nodes) }
        ensures appended { OnOk result (self.new.nodes ≡ self.old.nodes ++ node ∷ []) }
        ensures chunks { OnOk result (self.new.chunks
            ≡ cond (nat_lt (length self.old.nodes) (places_of self.old.chunks))
            self.old.chunks (self.old.chunks + 1)) }
        ensures refused { OnErr result (self.new ≡ self.old) }
        ensures due { OnErr result (length self.old.nodes + 1 < 2 ^ 32
            → length self.old.nodes ≡ places_of self.old.chunks) }
    {
        let id = self.len;
        if id == Id::MAX {
            return Err(Memory);
        }
        self.table.make_room(self.alloc, id as u64)?;
        self.table.write(id as u64, node);
        self.len = id + 1;
        Ok(id)
    }

    /// The node with this id, which is below `len`.
    #[inline]
    pub(crate) fn get(&self, id: Id) -> Node
        requires { id < length self.now.nodes }
        ensures node { slice_get self.now.nodes id ≡ Some result }
        ensures countable { length self.now.nodes < 2 ^ 32 }
    {
        self.table.read(id as u64)
    }

    /// Writes the node with this id, which is below `len`. All others stay, and so do the chunks.
    #[inline]
    pub(crate) fn put(&mut self, id: Id, node: Node)
        requires { id < length self.old.nodes }
        ensures written { self.new.nodes ≡ slice_set self.old.nodes id node }
        ensures chunks { self.new.chunks ≡ self.old.chunks }
    {
        self.table.write(id as u64, node);
    }

    /// How many nodes there are.
    #[inline]
    pub(crate) fn len(&self) -> u64
        ensures count { result ≡ length self.now.nodes }
        ensures few { result < 2 ^ 32 }
    {
        self.len as u64
    }

    /// Keeps the first n nodes, n being at most `len`, and all chunks.
    #[inline]
    pub(crate) fn cut_to(&mut self, n: u64)
        requires { n ≤ length self.old.nodes }
        ensures nodes { self.new.nodes ≡ take n self.old.nodes }
        ensures chunks { self.new.chunks ≡ self.old.chunks }
    {
        if n < self.len as u64 {
            self.len = n as Id;
        }
    }

    /// Gives back the chunks that no node needs, but for one, so that there are at most four places for
    /// each node, and 192. It takes no memory.
    pub(crate) fn shrink(&mut self)
        ensures nodes { self.new.nodes ≡ self.old.nodes }
        ensures fewer { self.new.chunks ≤ self.old.chunks }
        ensures places { places_of self.new.chunks ≤ 4 * length self.old.nodes + 192 }
    {
        self.table.shrink(self.len as u64);
    }
}
