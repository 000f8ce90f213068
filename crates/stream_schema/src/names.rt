//! Names that are found without a search.

ghost use Rattle.std.specs.Prelude.{◌≡◌, ◌<◌, false, [], ◌∷◌, ◌++◌, length, map, IfOk, IfSome, OnOk, OnErr, bytes_eq};
ghost use Rattle.std.specs.List.{list_any, position_from};

use cer_base::Memory;
use indexmap::IndexSet;
use std::alloc::Global;
use std::marker::Model;

/// Names in the order in which they were added, seen as their list. How long a look-up takes does
/// not depend on how many there are.
#[derive(Drop, Debug)]
pub struct NameIndex {
    alloc: Global,
    /// One set, or none while there is no name: an empty index takes no memory, and what holds an
    /// index is let go by one call.
    sets: Vec<IndexSet<Vec<u8>>>,
}

impl Model for NameIndex {
    ghost use Rattle.std.specs.Prelude.{ℕ, List};
    ghost use Rattle.stream_schema.specs.Indexes.{names_in};

    ghost Value = { List (List ℕ) };

    ghost view = { λ n. names_in n.sets.items };
}

impl NameIndex {
    pub fn new(alloc: Global) -> NameIndex
        ensures { result ≡ [] }
    {
        NameIndex {
            alloc,
            sets: Vec::new(alloc),
        }
    }

    /// An index of its own with the same names.
    pub fn copy(&self) -> Result<NameIndex, Memory>
        ensures { IfOk result (λ n. n ≡ self.now) }
    {
        let mut sets = Vec::new(self.alloc);
        if let Some(set) = self.sets.first() {
            sets.push(copied(set)?)?;
        }
        Ok(NameIndex {
            alloc: self.alloc,
            sets,
        })
    }

    /// Where the name stands, from 0.
    pub fn place(&self, name: &[u8]) -> Option<usize>
        ensures place { result ≡ position_from (λ n. bytes_eq n name.now) 0 self.now }
        ensures bound { IfSome result (λ i. i < length self.now) }
    {
        match self.sets.first() {
            Some(set) => place_in(set, name),
            None => None,
        }
    }

    pub fn has(&self, name: &[u8]) -> bool
        ensures { result ≡ list_any (λ n. bytes_eq n name.now) self.now }
    {
        match self.sets.first() {
            Some(set) => is_in(set, name),
            None => false,
        }
    }

    /// Adds the name at the end. After an error nothing has changed.
    pub fn push(&mut self, name: &[u8]) -> Result<(), Memory>
        requires new { list_any (λ n. bytes_eq n name.now) self.old ≡ false }
        ensures added { OnOk result (self.new ≡ self.old ++ name.now ∷ []) }
        ensures unchanged { OnErr result (self.new ≡ self.old) }
    {
        if self.sets.is_empty() {
            let set = set_of(self.alloc, name)?;
            self.sets.push(set)?;
            Ok(())
        } else {
            add(self.alloc, &mut self.sets[0], name)
        }
    }
}

fn copied(set: &IndexSet<Vec<u8>>) -> Result<IndexSet<Vec<u8>>, Memory>
    ensures { IfOk result (λ copy. map (λ name. name.items) copy.keys ≡ map
        (λ name. name.items) set.now.keys) }
{
    Ok(set.clone()?)
}

fn place_in(set: &IndexSet<Vec<u8>>, name: &[u8]) -> Option<usize>
    ensures place { result
        ≡ position_from (λ n. bytes_eq n name.now) 0 (map (λ n. n.items) set.now.keys) }
    ensures bound { IfSome result (λ i. i < length (map (λ n. n.items) set.now.keys)) }
{
    set.get_index_of(name)
}

fn is_in(set: &IndexSet<Vec<u8>>, name: &[u8]) -> bool
    ensures { result ≡ list_any (λ n. bytes_eq n name.now) (map (λ n. n.items) set.now.keys) }
{
    set.contains(name)
}

/// The set of one name.
fn set_of(alloc: Global, name: &[u8]) -> Result<IndexSet<Vec<u8>>, Memory>
    ensures { IfOk result (λ set. map (λ n. n.items) set.keys ≡ name.now ∷ []) }
{
    let mut set = IndexSet::new(alloc);
    add(alloc, &mut set, name)?;
    Ok(set)
}

/// Adds the name, which is not in the set, at the end.
fn add(alloc: Global, set: &mut IndexSet<Vec<u8>>, name: &[u8]) -> Result<(), Memory>
    requires { list_any (λ n. bytes_eq n name.now) (map (λ n. n.items) set.old.keys) ≡ false }
    ensures added { OnOk result (map (λ n. n.items) set.new.keys ≡ map
        (λ n. n.items) set.old.keys ++ name.now ∷ []) }
    ensures unchanged { OnErr result (set.new.keys ≡ set.old.keys) }
{
    set.insert(Vec::from_slice(alloc, name)?)?;
    Ok(())
}
