//! The changes that stand above a part of a tree. Most are filters on names that a leaf does not have:
//! these are passed over by a number of the name.

ghost use Rattle.std.specs.Prelude.{◌≡◌, ◌++◌, ◌∷◌, [], IfOk, OnOk, bytes_eq};
ghost use Rattle.std.specs.List.{list_all};
ghost use Rattle.query_leaves.specs.Changes.{change_key, change_all, passes_by};
ghost use Rattle.query_leaves.specs.Digests.{digest};

use crate::digest::digest;
use crate::occurrence::{Change, EVERY, Occurrence, lists};
use cer_base::Memory;
use std::alloc::Global;
use std::marker::Model;

/// Changes, one after another, each with its key. It is seen as the list of them.
#[derive(Drop, Debug)]
pub struct Context<'q> {
    changes: Vec<Change<'q>>,
    keys: Vec<u64>,
}

impl<'q> Model for Context<'q> {
    ghost use Rattle.std.specs.Prelude.{◌≡◌, List, map};
    ghost use Rattle.query_leaves.specs.declared.occurrence.Change.{Change};
    ghost use Rattle.query_leaves.specs.Changes.{change_key};
    ghost use Rattle.std.specs.Coded.{codes};
    ghost use Rattle.cel_terms.specs.contracts.Pred as pred;

    ghost Value = { List Change };

    ghost coded = { Prim.hlevel (codes, pred.the_row.coded) };

    ghost view = { λ c. c.changes.items };

    ghost invariant = { λ c. c.keys.items ≡ map change_key c.changes.items };
}

/// The digest of the name that the change asks for, or the number of those that are made at each leaf.
fn key_of(change: &Change) -> u64
    ensures { result ≡ change_key change.now }
{
    match change {
        Change::Test(name, _) => u64::from(digest(name.text.as_str())),
        Change::Named(_) => EVERY,
        Change::Keep(_) => EVERY,
    }
}

fn is_same(one: &str, other: &str) -> bool
    ensures { result ≡ bytes_eq one.now other.now }
{
    one == other
}

/// Whether the change does the same to an occurrence without this one of its names.
fn passes_by(change: &Change, name: &str) -> bool
    ensures { result ≡ passes_by name.now change.now }
{
    match change {
        Change::Named(_) => false,
        Change::Keep(listed) => !lists(*listed, name),
        Change::Test(tested, _) => !is_same(name, tested.text.as_str()),
    }
}

/// Whether the change with this key does the same to an occurrence without the name of this digest.
fn passes(key: u64, change: &Change, own: u64, name: &str) -> bool
    requires key { key ≡ change_key change.now }
    requires own { own ≡ digest name.now }
    ensures { result ≡ passes_by name.now change.now }
{
    if key == own || key == EVERY {
        passes_by(change, name)
    } else {
        true
    }
}

impl<'q> Context<'q> {
    /// No changes.
    pub fn empty(alloc: Global) -> Context<'q>
        ensures { result ≡ [] }
    {
        Context {
            changes: Vec::new(alloc),
            keys: Vec::new(alloc),
        }
    }

    /// The same changes, as others of their own.
    pub fn copy(&self, alloc: Global) -> Result<Context<'q>, Memory>
        ensures { IfOk result (λ copy. copy ≡ self.now) }
    {
        Ok(Context {
            changes: Vec::from_slice(alloc, self.changes.as_slice())?,
            keys: Vec::from_slice(alloc, self.keys.as_slice())?,
        })
    }

    /// The changes, and behind them one more.
    pub fn with(self, change: Change<'q>) -> Result<Context<'q>, Memory>
        ensures { IfOk result (λ all. all ≡ self.entry ++ change.entry ∷ []) }
    {
        let mut all = self;
        all.keys.push(key_of(&change))?;
        all.changes.push(change)?;
        Ok(all)
    }

    /// The changes, and behind them those above.
    pub fn under(&self, alloc: Global, above: &Context<'q>) -> Result<Context<'q>, Memory>
        ensures { IfOk result (λ all. all ≡ self.now ++ above.now) }
    {
        let mut all = self.copy(alloc)?;
        all.keys.extend_from_slice(above.keys.as_slice())?;
        all.changes.extend_from_slice(above.changes.as_slice())?;
        Ok(all)
    }

    /// Whether each of the changes does the same to an occurrence without this one of its names.
    pub fn passes_by(&self, name: &str) -> bool
        ensures { result ≡ list_all (λ c. passes_by name.now c) self.now }
    {
        let own = u64::from(digest(name));
        for k in 0..self.changes.len() {
            if !passes(self.keys[k], &self.changes[k], own, name) {
                return false;
            }
        }
        true
    }

    /// Makes the changes at the occurrence, one after another.
    pub fn change(&self, occurrence: &mut Occurrence<'q>) -> Result<(), Memory>
        ensures { OnOk result (occurrence.new ≡ change_all self.now occurrence.old) }
    {
        for k in 0..self.changes.len() {
            if occurrence.may_change_by(self.keys[k]) {
                occurrence.change(&self.changes[k])?;
            }
        }
        Ok(())
    }
}
