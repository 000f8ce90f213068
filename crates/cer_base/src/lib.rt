//! What every crate of the engine speaks of: positions in a stream, places in a text, running
//! out of memory, the small types that contracts see as a text, a list, a count or a whole number,
//! and the nodes of enumerable compact sets with the store that keeps them.
//!
//! Promised: each of the small types is exactly its value; nothing else of it can be seen. What a
//! node means, and when a store is well-formed, is defined in `specs/Members` and `specs/Nodes`.
//! It stands on std alone.
#![tactic(auto)]

ghost use Rattle.std.specs.Prelude.{◌≡◌, List, ℕ, string_bytes, IfOk, OnOk};
ghost use Rattle.cer_base.specs.declared.OrMemory.TheVariants as wanted;

use std::alloc::{AllocError, AllocFailed, Global};
use std::marker::Model;

pub mod bits;
pub mod bytes;
pub mod digits;
pub mod limits;
pub mod node;
pub mod seed;
pub mod steps;
pub mod store;
#[cfg(test)]
mod tests;
pub mod time;
mod words;

/// A position in the whole stream, from 0.
pub type Pos = u64;

/// Where something stands in a text: line and column from 1, columns counted in bytes.
#[derive(Debug, Clone, Copy, PartialEq, Eq)]
pub struct Location {
    pub line: u64,
    pub col: u64,
}

/// An allocation was refused, which may come at any growth; or there is no room for more where an
/// engine counts in fewer bits than its events: a query has 2^32 - 1 nodes, which a compaction may
/// mend, or a position does not fit 63 bits, which nothing mends.
#[derive(Debug, Clone, Copy, PartialEq, Eq)]
pub struct Memory;

impl From<AllocError> for Memory {
    fn from(_refused: AllocError) -> Memory {
        Memory
    }
}

impl<T: Drop> From<AllocFailed<T>> for Memory {
    fn from(_refused: AllocFailed<T>) -> Memory {
        Memory
    }
}

/// A fault of the call's own, or an allocation that was refused.
#[derive(Drop, Debug, Clone, Copy, PartialEq, Eq)]
pub enum OrMemory<F> {
    Fault(F),
    Memory,
}

impl<F> From<Memory> for OrMemory<F> {
    ghost from_gives = { λ _ e. e ≡ wanted.Memory };

    fn from(_refused: Memory) -> OrMemory<F> {
        OrMemory::Memory
    }
}

impl<F> From<AllocError> for OrMemory<F> {
    ghost from_gives = { λ _ e. e ≡ wanted.Memory };

    fn from(_refused: AllocError) -> OrMemory<F> {
        OrMemory::Memory
    }
}

impl<F, T: Drop> From<AllocFailed<T>> for OrMemory<F> {
    ghost from_gives = { λ _ e. e ≡ wanted.Memory };

    fn from(_refused: AllocFailed<T>) -> OrMemory<F> {
        OrMemory::Memory
    }
}

/// A text, seen as its bytes.
#[derive(Drop, Debug)]
pub struct Text {
    string: String,
}

impl Model for Text {
    ghost Value = { List ℕ };

    ghost view = { λ t. string_bytes t.string };
}

impl Text {
    /// The text that the string is.
    pub fn of(string: String) -> Text
        ensures { result ≡ string_bytes string }
    {
        Text { string }
    }

    /// A copy of the text.
    pub fn copy_of(alloc: Global, text: &str) -> Result<Text, Memory>
        ensures { IfOk result (λ t. t ≡ text.now) }
    {
        Ok(Text {
            string: text.to_string(alloc)?,
        })
    }

    /// Makes it a copy of the text, in the memory that it has where this suffices. After `Memory` it
    /// is some text.
    pub fn copy_from(&mut self, text: &str) -> Result<(), Memory>
        ensures { OnOk result (self.new ≡ text.now) }
    {
        self.string.clear();
        self.string.push_str(text)?;
        Ok(())
    }

    /// The text's bytes, which are UTF-8.
    pub fn as_str(&self) -> &str
        ensures { result.now ≡ self.now }
    {
        self.string.as_str()
    }
}

/// A list, seen as its items.
#[derive(Drop, Debug)]
pub struct Listed<T> {
    items: Vec<T>,
}

impl<T> Model for Listed<T> {
    ghost Value = { List T };

    ghost view = { λ l. l.items.items };
}

impl<T> Listed<T> {
    /// The list of the vector's items.
    pub fn of(items: Vec<T>) -> Listed<T>
        ensures { result ≡ items.items }
    {
        Listed { items }
    }

    /// The items, in order.
    pub fn as_slice(&self) -> &[T]
        ensures { result.now ≡ self.now }
    {
        self.items.as_slice()
    }

    /// The items, handed over.
    pub fn into_vec(self) -> Vec<T>
        ensures { result.items ≡ self }
    {
        self.items
    }
}
