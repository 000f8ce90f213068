//! The table of an arena's chunks, and where a node stands in it.
//!
//! The first chunk has 64 places, each other one twice as many as the one before it. So the
//! chunk of a node follows from its number alone, and a chunk that was made never moves.
ghost use Rattle.std.specs.Prelude.{◌≡◌, ◌+◌, ◌*◌, ◌^◌, ◌-◌, ◌<◌, List, [], ◌++◌, Option, Some, None, length, replicate, get_or, slice_set, take, cond, nat_lt, ◌≤◌, IfOk, OnOk, OnErr, true, false};
ghost use Rattle.cer_base.specs.declared.node.Node.{Node};
ghost use Rattle.tecs_arena.specs.Chunks.{IsFilled, places, places_of};

use super::chunk::Chunk;
use cer_base::Memory;
use cer_base::node::Node;
use std::alloc::Global;
use std::array;
use std::marker::Model;

/// How many places the first chunk has.
const FIRST: u64 = 64;

/// How many chunks there is a place for. A chunk of this number would take more bytes than memory
/// has.
const CHUNKS: usize = 27;

/// The place of a node: its chunk, and the place in the chunk.
#[derive(Drop, Debug, Clone, Copy, PartialEq, Eq)]
struct Spot {
    chunk: usize,
    place: usize,
}

/// The place of the node with this id.
fn spot_of(id: u64) -> Spot
    requires { id + 64 < 2 ^ 33 }
    ensures place { result.place < FIRST * 2 ^ result.chunk }
    ensures sum { id + FIRST ≡ FIRST * 2 ^ result.chunk + result.place }
    ensures chunk { result.chunk < 27 }
{
    let chunk = (id / FIRST + 1).ilog2();
    Spot {
        chunk: chunk as usize,
        place: (id + FIRST - (FIRST << chunk)) as usize,
    }
}

/// The node at the place of the chunk, which was made, as the place was written.
fn read_in(chunk: &Option<Chunk>, place: usize) -> Node
    requires { IsFilled (places chunk.now) place }
    ensures { get_or (places chunk.now) place None ≡ Some result }
{
    match chunk {
        Some(chunk) => chunk.read(place),
        None => unreachable!(),
    }
}

/// Writes the node at the place of the chunk, which was made.
fn write_in(chunk: &mut Option<Chunk>, place: usize, node: Node)
    requires { place < length (places chunk.old) }
    ensures { chunk.new ≡ Some (slice_set (places chunk.old) place (Some node)) }
{
    match chunk {
        Some(chunk) => chunk.write(place, node),
        None => unreachable!(),
    }
}

/// The chunks in their order, seen as the row of all their places and the count of the chunks.
#[derive(Drop)]
pub(crate) struct Table {
    made: usize,
    chunks: [Option<Chunk>; CHUNKS],
}

impl Model for Table {
    ghost use Rattle.std.specs.Prelude.{List, Option, ◌≡◌, ◌≤◌, length};
    ghost use Rattle.cer_base.specs.declared.node.Node.{Node};
    ghost use Rattle.tecs_arena.specs.Chunks.{Row, row, AreChunks};

    ghost Value = { Row Node };

    ghost view = { λ t. record { places = row t.chunks; chunks = t.made } };

    ghost invariant = { λ t. AreChunks 64 t.made t.chunks × (t.made ≤ 27) };
}

impl Table {
    /// A table of no chunks.
    pub(crate) fn new() -> Table
        ensures { (result.places ≡ []) × (result.chunks ≡ 0) }
    {
        Table {
            made: 0,
            chunks: array::from_fn(|_| None),
        }
    }

    /// How many places there are.
    pub(crate) fn room(&self) -> u64
        ensures places { result ≡ length self.now.places }
        ensures made { result ≡ places_of self.now.chunks }
    {
        (FIRST << self.made) - FIRST
    }

    /// How many chunks there are, at most 27.
    pub(crate) fn chunks(&self) -> usize
        ensures made { result ≡ self.now.chunks }
        ensures room { length self.now.places ≡ places_of result }
        ensures few { result < 28 }
    {
        self.made
    }

    /// Makes one more chunk, which has as many places as all before it and 64 more. `Memory`
    /// where it cannot be had, and where there are 27; then nothing is changed.
    pub(crate) fn grow(&mut self, alloc: Global) -> Result<(), Memory>
        ensures places { OnOk result (self.new.places
            ≡ self.old.places ++ replicate (length self.old.places + 64) None) }
        ensures chunks { OnOk result (self.new.chunks ≡ self.old.chunks + 1) }
        ensures refused { OnErr result (self.new ≡ self.old) }
    {
        if self.made == CHUNKS {
            return Err(Memory);
        }
        let chunk = Chunk::new(alloc, (FIRST << self.made) as usize)?;
        self.chunks[self.made] = Some(chunk);
        self.made += 1;
        Ok(())
    }

    /// Sees that there is a place for the node with this id, which is at most the number of places.
    /// `Memory` where there is none and none can be had; then nothing is changed.
    pub(crate) fn make_room(&mut self, alloc: Global, id: u64) -> Result<(), Memory>
        requires { id ≤ length self.old.places }
        ensures inside { OnOk result (id < length self.new.places) }
        ensures same { OnOk result (take id self.new.places ≡ take id self.old.places) }
        ensures chunks { OnOk result (self.new.chunks
            ≡ cond (nat_lt id (places_of self.old.chunks)) self.old.chunks (self.old.chunks + 1)) }
        ensures refused { OnErr result (self.new ≡ self.old) }
        ensures due { OnErr result (id ≡ places_of self.old.chunks) }
    {
        if id < self.room() {
            return Ok(());
        }
        self.grow(alloc)
    }

    /// Whether so many nodes leave the last two chunks empty.
    fn has_two_empty(&self, count: u64) -> bool
        ensures yes { result ≡ true → (0 < self.now.chunks)
            × (count ≤ places_of (self.now.chunks - 1)) }
        ensures no { result ≡ false → places_of self.now.chunks ≤ 4 * count + 192 }
    {
        self.made >= 2 && count <= (FIRST << (self.made - 2)) - FIRST
    }

    /// Gives back the last chunk.
    fn give_back(&mut self)
        requires { 0 < self.old.chunks }
        ensures chunks { self.new.chunks + 1 ≡ self.old.chunks }
        ensures places { self.new.places ≡ take (places_of self.new.chunks) self.old.places }
    {
        let last = self.made - 1;
        self.chunks[last] = None;
        self.made = last;
    }

    /// Gives back the chunks that so many nodes leave empty, but for one.
    pub(crate) fn shrink(&mut self, count: u64)
        requires { count ≤ length self.old.places }
        ensures inside { count ≤ length self.new.places }
        ensures same { take count self.new.places ≡ take count self.old.places }
        ensures fewer { self.new.chunks ≤ self.old.chunks }
        ensures few { places_of self.new.chunks ≤ 4 * count + 192 }
    {
        for _ in 0..self.made {
            if !self.has_two_empty(count) {
                return;
            }
            self.give_back();
        }
    }

    /// The node with this id, whose place was written.
    pub(crate) fn read(&self, id: u64) -> Node
        requires { IsFilled self.now.places id }
        ensures { get_or self.now.places id None ≡ Some result }
    {
        let chunks = &self.chunks;
        let spot = spot_of(id);
        read_in(&chunks[spot.chunk], spot.place)
    }

    /// Writes the node with this id, for which there is a place. No other place is touched.
    pub(crate) fn write(&mut self, id: u64, node: Node)
        requires { id < length self.old.places }
        ensures places { self.new.places ≡ slice_set self.old.places id (Some node) }
        ensures chunks { self.new.chunks ≡ self.old.chunks }
    {
        let chunks = &mut self.chunks;
        let spot = spot_of(id);
        write_in(&mut chunks[spot.chunk], spot.place, node);
    }
}
