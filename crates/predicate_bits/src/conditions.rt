//! The conditions of a query's leaves.

ghost use Rattle.std.specs.Prelude.{◌≡◌, ℕ, ◌<◌, Some, false, true, length, slice_get, IfOk};
ghost use Rattle.std.specs.Option.{option_copied};
ghost use Rattle.cer_base.specs.Bits.{has, room_for};
ghost use Rattle.query_leaves.specs.Conditions.{leaf_conditions};
ghost use Rattle.query_leaves.specs.declared.Leaf.{Leaf};
ghost use Rattle.query_leaves.specs.Shapes.{each_holds as tests_hold};
ghost use Rattle.predicate_bits.specs.Groups.{IsGroup};
ghost use Rattle.predicate_bits.specs.Checks.{AreSieves};

use crate::checks::{Sieve, hold_by, sieves_of};
use crate::groups::grouped;
use cer_base::bits::Bits;
use cer_base::{Listed, Memory};
use query_leaves::Leaf;
use std::alloc::Global;
use std::marker::Model;
use stream_schema::{Event, TypeId};

/// The conditions of leaves, seen as the list of the leaves.
#[derive(Drop)]
pub struct Conditions {
    list: Listed<Leaf>,
    /// What is known of the tests of each leaf.
    sieves: Vec<Sieve>,
    /// The numbers of the leaves of each type, by the type's number.
    groups: Vec<Vec<usize>>,
}

impl Model for Conditions {
    ghost use Rattle.std.specs.Prelude.{List};
    ghost use Rattle.query_leaves.specs.declared.Leaf.{Leaf};
    ghost use Rattle.std.specs.Prelude.{slice_get};
    ghost use Rattle.predicate_bits.specs.Groups.{AreGrouped};
    ghost use Rattle.predicate_bits.specs.Checks.{AreSieves};
    ghost use Rattle.query_leaves.specs.contracts.Test as test;
    ghost use Rattle.std.specs.Coded.{codes};

    ghost Value = { List Leaf };

    ghost coded = { Prim.hlevel (codes, test.the_row.coded) };

    ghost view = { λ c. c.list };

    ghost invariant = { λ c. AreGrouped c.list (slice_get c.groups.items)
        × AreSieves c.list c.sieves.items };
}

impl Conditions {
    /// The conditions of these leaves.
    pub fn of(alloc: Global, list: Listed<Leaf>) -> Result<Conditions, Memory>
        ensures { IfOk result (λ c. c ≡ list) }
    {
        let groups = grouped(alloc, list.as_slice())?;
        let sieves = sieves_of(alloc, list.as_slice())?;
        Ok(Conditions {
            list,
            sieves,
            groups,
        })
    }

    /// An empty set with room for the number of each leaf.
    pub fn blank(&self, alloc: Global) -> Result<Bits, Memory>
        ensures room { IfOk result (λ b. length b ≡ room_for (length self.now)) }
        ensures empty { IfOk result (λ b. (k : ℕ) → has b k ≡ false) }
    {
        Bits::blank(alloc, self.list.as_slice().len())
    }

    /// Makes the set that of the numbers of the leaves that can read the event. The set has the room
    /// that `blank` gives.
    pub fn fill(&self, event: &Event, into: &mut Bits)
        requires { length into.old ≡ room_for (length self.now) }
        ensures members { (k : ℕ) → has into.new k ≡ leaf_conditions self.now event.now k }
        ensures room { length into.new ≡ length into.old }
    {
        empty_out(into);
        if let Some(numbers) = group_of(self.groups.as_slice(), event.ty) {
            let sieves = self.sieves.as_slice();
            add(
                self.list.as_slice(),
                sieves,
                numbers.as_slice(),
                event,
                into,
            );
        }
    }
}

/// Takes all numbers out. Most events leave none, so that is tested first.
fn empty_out(into: &mut Bits)
    ensures empty { (k : ℕ) → has into.new k ≡ false }
    ensures room { length into.new ≡ length into.old }
{
    if into.is_empty() {
        return;
    }
    into.clear();
}

/// The numbers of the leaves of the type.
fn group_of(groups: &[Vec<usize>], ty: TypeId) -> Option<&Vec<usize>>
    ensures { option_copied result ≡ slice_get groups.now ty }
{
    groups.get(ty as usize)
}

/// Whether the tests of the leaf of this number hold of the event.
#[inline(always)]
fn holds_at(list: &[Leaf], sieves: &[Sieve], number: usize, event: &Event) -> bool
    requires inside { number < length list.now }
    requires sieves { AreSieves list.now sieves.now }
    ensures { (l : Leaf) → slice_get list.now number ≡ Some l
        → result ≡ tests_hold l.tests event.now }
{
    let sieve = &sieves[number];
    let tests = list[number].tests.as_slice();
    hold_by(&sieve.range, &sieve.checks, tests, event)
}

/// Puts in those of the numbers, which are of the event's type, whose tests hold of the event.
fn add(list: &[Leaf], sieves: &[Sieve], numbers: &[usize], event: &Event, into: &mut Bits)
    requires sieves { AreSieves list.now sieves.now }
    requires group { IsGroup list.now event.now.ty numbers.now }
    requires room { length into.old ≡ room_for (length list.now) }
    requires empty { (k : ℕ) → has into.old k ≡ false }
    ensures members { (k : ℕ) → has into.new k ≡ leaf_conditions list.now event.now k }
    ensures room { length into.new ≡ length into.old }
{
    for number in numbers {
        if holds_at(list, sieves, *number, event) {
            into.insert(*number);
        }
    }
}
