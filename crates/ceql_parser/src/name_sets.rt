//! The names of a formula, each once, so that a name is found by one look-up.

ghost use Rattle.std.specs.Prelude.{◌≡◌, [], ◌∷◌, ◌++◌, IfOk, OnOk, length, map, string_bytes};
ghost use Rattle.cel_terms.specs.Meaning.{lists_name};
ghost use Rattle.ceql_parser.specs.NameSets.{HaveSameNames};

use cel_terms::Name;
use cer_base::Memory;
use indexmap::IndexSet;
use std::alloc::Global;
use std::marker::Model;
use std::mem::swap;

/// Names, each once, seen as a list of them in whatever order.
#[derive(Drop)]
pub struct NameSet {
    names: IndexSet<String>,
}

impl Model for NameSet {
    ghost use Rattle.std.specs.Prelude.{List, ℕ, map, string_bytes};

    ghost Value = { List (List ℕ) };

    ghost view = { λ s. map string_bytes s.names.keys };
}

impl NameSet {
    /// No names.
    pub fn new(alloc: Global) -> NameSet
        ensures { result ≡ [] }
    {
        NameSet {
            names: IndexSet::new(alloc),
        }
    }

    /// Whether the name is among them.
    pub fn has(&self, name: &str) -> bool
        ensures { result ≡ lists_name self.now name.now }
    {
        self.names.contains(name)
    }

    /// Adds the name, where it is not among them yet.
    pub fn add(&mut self, alloc: Global, name: &str) -> Result<(), Memory>
        ensures { OnOk result (HaveSameNames self.new (self.old ++ name.now ∷ [])) }
    {
        if !self.has(name) {
            let name = name.to_string(alloc)?;
            self.names.insert(name)?;
        }
        Ok(())
    }

    fn add_all(&mut self, alloc: Global, names: &[String]) -> Result<(), Memory>
        ensures { OnOk result (HaveSameNames self.new (self.old ++ map string_bytes names.now)) }
    {
        for name in names {
            self.add(alloc, name.as_str())?;
        }
        Ok(())
    }

    /// Adds the other names. The fewer of the two are added to the more.
    pub fn join(&mut self, alloc: Global, others: NameSet) -> Result<(), Memory>
        ensures { OnOk result (HaveSameNames self.new (self.old ++ others)) }
    {
        let mut fewer = others;
        if self.names.len() < fewer.names.len() {
            swap(self, &mut fewer);
        }
        self.add_all(alloc, fewer.names.as_slice())
    }

    /// The texts of these names.
    pub fn of(alloc: Global, names: &[Name]) -> Result<NameSet, Memory>
        ensures { IfOk result (λ set. HaveSameNames set (map (λ n. n.text) names.now)) }
    {
        let mut set = NameSet::new(alloc);
        for name in names {
            set.add(alloc, name.text.as_str())?;
        }
        Ok(set)
    }
}
