//! An occurrence of a type while its formula is expanded. It refers to the query for its
//! predicates and names.

ghost use Rattle.std.specs.Prelude.{◌≡◌, true, false, IfSome, IfOk, OnOk, [], ◌∷◌, map, reverse, bytes_eq, nat_eq};
ghost use Rattle.std.specs.List.{list_any};
ghost use Rattle.cel_terms.specs.Meaning.{lists_name, with_name, only_names};
ghost use Rattle.query_leaves.specs.Expand.{rename_leaf, test_leaf};
ghost use Rattle.cel_terms.specs.Answers.{is_bound};
ghost use Rattle.query_leaves.specs.Changes.{change_leaf, change_key, occurrence_of, named_occurrence};
ghost use Rattle.query_leaves.specs.Digests.{digest};
ghost use Rattle.query_leaves.specs.declared.occurrence.Change.{Change as ChangeData};

use crate::digest::digest;
use cel_terms::{Name, Pred};
use cer_base::Memory;
use std::alloc::Global;
use std::marker::Model;

/// The key of a change that is made at each leaf. The key of a test is the digest of its name.
pub const EVERY: u64 = u64::MAX;

/// The type's name, what is asked of an event, and the names whose sets have the position.
#[derive(Drop, Debug)]
pub struct Occurrence<'q> {
    ty: &'q str,
    /// The one that is asked first stands last, since one more comes before the others.
    tests: Vec<&'q Pred>,
    /// The one that was given last stands last.
    names: Vec<&'q str>,
    /// Those of the names, in the same order.
    digests: Vec<u32>,
}

impl<'q> Model for Occurrence<'q> {
    ghost use Rattle.std.specs.Prelude.{map, reverse};
    ghost use Rattle.std.specs.Coded.{codes};
    ghost use Rattle.cel_terms.specs.contracts.Pred as pred;
    ghost use Rattle.query_leaves.specs.Expand.{Occurrence as Occurs};

    ghost Value = { Occurs };

    ghost coded = { Prim.hlevel (codes, pred.the_row.coded) };

    ghost view = { λ o. record {
      type = o.ty.now;
      tests = map (λ p. p.now) (reverse o.tests.items);
      names = map (λ n. n.now) (reverse o.names.items);
    } };

    ghost use Rattle.std.specs.Prelude.{◌≡◌};
    ghost use Rattle.query_leaves.specs.Changes.{change_key};
    ghost use Rattle.query_leaves.specs.Digests.{digest};

    ghost invariant = { λ o. o.digests.items ≡ map (λ n. digest n.now) o.names.items };
}

/// What is done to an occurrence.
#[derive(Drop, Debug, Clone, Copy)]
pub enum Change<'q> {
    /// It has one more name, where it has any.
    Named(&'q Name),
    /// It keeps those of its names that are listed.
    Keep(&'q [Name]),
    /// It asks one more of an event, where it has the name.
    Test(&'q Name, &'q Pred),
}

impl<'q> Occurrence<'q> {
    /// The occurrence of a type as it stands in a formula.
    pub fn of(alloc: Global, ty: &'q str) -> Result<Occurrence<'q>, Memory>
        ensures { IfOk result (λ o. o ≡ occurrence_of ty.now) }
    {
        let mut names = Vec::new(alloc);
        names.push(ty)?;
        let digests = digests_of(alloc, names.as_slice())?;
        Ok(Occurrence {
            ty,
            tests: Vec::new(alloc),
            names,
            digests,
        })
    }

    /// The type's name.
    pub fn ty(&self) -> &'q str
        ensures { result.now ≡ self.now.type }
    {
        self.ty
    }

    /// What it asks of an event, the first one last.
    pub fn tests(&self) -> &[&'q Pred]
        ensures { map (λ p. p.now) (reverse result.now) ≡ self.now.tests }
    {
        self.tests.as_slice()
    }

    /// Whether its position is in the set of some name.
    pub fn is_bound(&self) -> bool
        ensures { result ≡ is_bound self.now.names }
    {
        !self.names.is_empty()
    }

    /// Whether a change with this key may make another occurrence of it.
    #[inline(always)]
    pub fn may_change_by(&self, key: u64) -> bool
        ensures { (c : ChangeData) → key ≡ change_key c → result ≡ false
            → change_leaf c self.now ≡ self.now }
    {
        if key == EVERY {
            return true;
        }
        has_key(self.digests.as_slice(), key)
    }

    /// One of its own that equals it.
    pub fn copy(&self, alloc: Global) -> Result<Occurrence<'q>, Memory>
        ensures { IfOk result (λ copy. copy ≡ self.now) }
    {
        Ok(Occurrence {
            ty: self.ty,
            tests: Vec::from_slice(alloc, self.tests.as_slice())?,
            names: Vec::from_slice(alloc, self.names.as_slice())?,
            digests: Vec::from_slice(alloc, self.digests.as_slice())?,
        })
    }

    /// The occurrence with the change made.
    pub fn changed(self, change: &Change<'q>) -> Result<Occurrence<'q>, Memory>
        ensures { IfOk result (λ after. after ≡ change_leaf change.now self.entry) }
    {
        let mut after = self;
        after.change(change)?;
        Ok(after)
    }

    /// Whether it asks nothing, and has the name of its type alone.
    pub fn is_plain(&self) -> bool
        ensures { result ≡ true → self.now ≡ occurrence_of self.now.type }
    {
        self.tests.is_empty() && is_only(self.ty, self.names.as_slice())
    }

    /// The name that it has beside that of its type, where it asks nothing and has these two alone.
    pub fn own_name(&self) -> Option<&'q str>
        ensures { IfSome result (λ own. self.now ≡ named_occurrence own.now self.now.type) }
    {
        if self.tests.is_empty() {
            second(self.ty, self.names.as_slice())
        } else {
            None
        }
    }

    /// Makes the change.
    pub fn change(&mut self, change: &Change<'q>) -> Result<(), Memory>
        ensures { OnOk result (self.new ≡ change_leaf change.now self.old) }
    {
        match change {
            Change::Named(name) => self.give(name.text.as_str()),
            Change::Keep(listed) => self.keep(*listed),
            Change::Test(name, pred) => self.test(name.text.as_str(), *pred),
        }
    }

    /// Gives it one more name, where it has any.
    fn give(&mut self, name: &'q str) -> Result<(), Memory>
        ensures { OnOk result (self.new ≡ rename_leaf (with_name name.now) self.old) }
    {
        if !self.names.is_empty() {
            self.digests.reserve(1)?;
            self.names.push(name)?;
            self.digests.push(digest(name))?;
        }
        Ok(())
    }

    /// Keeps those of its names that are listed.
    fn keep(&mut self, listed: &[Name]) -> Result<(), Memory>
        ensures { OnOk result (self.new ≡ rename_leaf (only_names listed.now) self.old) }
    {
        let kept = only_names(*self.names.allocator(), listed, self.names.as_slice())?;
        self.digests = digests_of(*self.names.allocator(), kept.as_slice())?;
        self.names = kept;
        Ok(())
    }

    /// Asks one more of an event, where it has the name.
    fn test(&mut self, name: &str, pred: &'q Pred) -> Result<(), Memory>
        ensures { OnOk result (self.new ≡ test_leaf name.now pred.now self.old) }
    {
        if has_name(self.names.as_slice(), name) {
            self.tests.push(pred)?;
        }
        Ok(())
    }
}

/// Whether one of the digests is this key.
#[inline(always)]
fn has_key(digests: &[u32], key: u64) -> bool
    ensures { result ≡ list_any (λ d. nat_eq d key) digests.now }
{
    digests.iter().any(|own| u64::from(*own) == key)
}

fn digests_of(alloc: Global, names: &[&str]) -> Result<Vec<u32>, Memory>
    ensures { IfOk result (λ digests. digests.items ≡ map (λ n. digest n.now) names.now) }
{
    let mut digests = Vec::new(alloc);
    for name in names {
        digests.push(digest(*name))?;
    }
    Ok(digests)
}

fn is_same(one: &str, other: &str) -> bool
    ensures { result ≡ true → one.now ≡ other.now }
{
    one == other
}

/// Whether the name is the only one.
fn is_only(name: &str, names: &[&str]) -> bool
    ensures { result ≡ true → map (λ n. n.now) (reverse names.now) ≡ name.now ∷ [] }
{
    names.len() == 1 && is_same(names[0], name)
}

/// The second of two names, where the first is this one.
fn second<'q>(name: &str, names: &[&'q str]) -> Option<&'q str>
    ensures { IfSome result
        (λ own. map (λ n. n.now) (reverse names.now) ≡ own.now ∷ name.now ∷ []) }
{
    if names.len() == 2 && is_same(names[0], name) {
        Some(names[1])
    } else {
        None
    }
}

/// Whether one of the names is this one.
#[tactic(auto, using(crate::proofs::Naming::named_is))]
fn has_name(names: &[&str], name: &str) -> bool
    ensures { result ≡ lists_name (map (λ n. n.now) names.now) name.now }
{
    some_is(names, name)
}

fn some_is(names: &[&str], name: &str) -> bool
    ensures { result ≡ list_any (λ n. bytes_eq n.now name.now) names.now }
{
    names.iter().any(|n| *n == name)
}

/// Whether one of the names has this text.
#[tactic(auto, using(crate::proofs::Naming::listed_is))]
pub fn lists(listed: &[Name], name: &str) -> bool
    ensures { result ≡ lists_name (map (λ n. n.text) listed.now) name.now }
{
    some_has_text(listed, name)
}

fn some_has_text(listed: &[Name], name: &str) -> bool
    ensures { result ≡ list_any (λ n. bytes_eq n.text name.now) listed.now }
{
    listed.iter().any(|n| n.text.as_str() == name)
}

/// Those of the names that are listed.
fn only_names<'q>(alloc: Global, listed: &[Name], names: &[&'q str]) -> Result<Vec<&'q str>, Memory>
    ensures { IfOk result (λ after. map (λ n. n.now) after.items
        ≡ only_names listed.now (map (λ n. n.now) names.now)) }
{
    let mut after = Vec::new(alloc);
    for name in names {
        if lists(listed, *name) {
            after.push(*name)?;
        }
    }
    Ok(after)
}
