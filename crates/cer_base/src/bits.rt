//! A set of numbers below its room, for sets that mostly fit into one word of 64 bits.
ghost use Rattle.std.specs.Prelude.{◌≡◌, ℕ, ◌+◌, ◌*◌, ◌<◌, ◌≤◌, ◌==◌, ◌||◌, ◌&&◌, Bool, true, false, not, nat_lt, flat_map, length, IfOk, IfSome, IfNone};
ghost use Rattle.std.specs.Cmp.{partial_equiv_from_equiv, bool_eq_equiv, booleans_Decides};
ghost use Rattle.std.specs.Cmp.Lexicographic.{pointwise, pointwise_decides, lists_equiv};
ghost use Rattle.std.specs.Bool.{beq};
ghost use Rattle.std.specs.Hash as fed;
ghost use Rattle.std.specs.Hash.{same_Alike};
ghost use Rattle.cer_base.specs.Bits.{has, room_for, words_of};

use super::{Memory, words};
use smallvec::SmallVec;
use std::alloc::Global;
use std::hash::{Hash, Hasher};
use std::marker::Model;

/// A set of numbers below its room. It is seen as a list that tells of each number below the room
/// whether it is in the set, so two sets are equal exactly where their lists are.
///
/// The room is a multiple of 64. Up to 64 numbers take no memory besides the value; each call is one
/// pass over the words, 64 numbers a word, and only `blank` and `copy` take memory.
#[derive(Drop, Debug)]
pub struct Bits {
    words: SmallVec<u64, 1>,
}

impl Model for Bits {
    ghost use Rattle.std.specs.Prelude.{List, Bool, ◌*◌, ◌^◌, ◌≤◌, length};

    ghost Value = { List Bool };

    ghost use Rattle.cer_base.specs.Bits.{bits_of_words};

    ghost view = { λ b. bits_of_words b.words.items };

    ghost invariant = { λ b. length b.words.items * 64 ≤ 2 ^ 64 };
}

impl Bits {
    /// An empty set with room for the numbers below the size.
    pub fn blank(alloc: Global, size: usize) -> Result<Bits, Memory>
        ensures room { IfOk result (λ b. length b ≡ room_for size) }
        ensures empty { IfOk result (λ b. (k : ℕ) → has b k ≡ false) }
    {
        Ok(Bits {
            words: SmallVec::from_elem(alloc, 0, size.div_ceil(64))?,
        })
    }

    /// A set with the same numbers and the same room.
    pub fn copy(&self, alloc: Global) -> Result<Bits, Memory>
        ensures { IfOk result (λ b. b ≡ self.now) }
    {
        Ok(Bits {
            words: SmallVec::from_slice(alloc, self.words.as_slice())?,
        })
    }

    /// Whether the number is below the room.
    pub fn has_room_for(&self, k: usize) -> bool
        ensures { result ≡ nat_lt k (length self.now) }
    {
        k / 64 < self.words.len()
    }

    /// Whether the number is in the set. No number is from the room on.
    pub fn contains(&self, k: usize) -> bool
        ensures { result ≡ has self.now k }
    {
        words::contains(self.words.as_slice(), k)
    }

    /// Puts the number in, which is below the room.
    pub fn insert(&mut self, k: usize)
        requires { k < length self.old }
        ensures members { (j : ℕ) → has self.new j ≡ (j == k) || has self.old j }
        ensures room { length self.new ≡ length self.old }
    {
        words::insert(self.words.as_mut_slice(), k);
    }

    /// Takes the number out, which is below the room.
    pub fn remove(&mut self, k: usize)
        requires { k < length self.old }
        ensures members { (j : ℕ) → has self.new j ≡ not (j == k) && has self.old j }
        ensures room { length self.new ≡ length self.old }
    {
        words::remove(self.words.as_mut_slice(), k);
    }

    /// Takes all numbers out.
    pub fn clear(&mut self)
        ensures members { (k : ℕ) → has self.new k ≡ false }
        ensures room { length self.new ≡ length self.old }
    {
        words::clear(self.words.as_mut_slice());
    }

    /// Puts all numbers of the other set in, which has the same room.
    pub fn unite(&mut self, other: &Bits)
        requires { length self.old ≡ length other.now }
        ensures members { (k : ℕ) → has self.new k ≡ has self.old k || has other.now k }
        ensures room { length self.new ≡ length self.old }
    {
        words::unite(self.words.as_mut_slice(), other.words.as_slice());
    }

    /// Keeps the numbers that are in the other set too, which has the same room.
    pub fn intersect(&mut self, other: &Bits)
        requires { length self.old ≡ length other.now }
        ensures members { (k : ℕ) → has self.new k ≡ has self.old k && has other.now k }
        ensures room { length self.new ≡ length self.old }
    {
        words::intersect(self.words.as_mut_slice(), other.words.as_slice());
    }

    /// Takes the numbers of the other set out, which has the same room.
    pub fn subtract(&mut self, other: &Bits)
        requires { length self.old ≡ length other.now }
        ensures members { (k : ℕ) → has self.new k ≡ has self.old k && not (has other.now k) }
        ensures room { length self.new ≡ length self.old }
    {
        words::subtract(self.words.as_mut_slice(), other.words.as_slice());
    }

    /// Whether no number is in the set.
    pub fn is_empty(&self) -> bool
        ensures empty { result ≡ true → (k : ℕ) → has self.now k ≡ false }
        ensures some { result ≡ false → (k : ℕ) × (has self.now k ≡ true) }
    {
        self.next_from(0).is_none()
    }

    /// Whether some number is in both sets, which have the same room.
    pub fn meets(&self, other: &Bits) -> bool
        requires { length self.now ≡ length other.now }
        ensures some { result ≡ true → (k : ℕ) × (has self.now k && has other.now k ≡ true) }
        ensures none { result ≡ false → (k : ℕ) → has self.now k && has other.now k ≡ false }
    {
        words::meets(self.words.as_slice(), other.words.as_slice())
    }

    /// The least number of the set that is not below this one. It passes over 64 absent numbers at a
    /// time.
    pub fn next_from(&self, from: usize) -> Option<usize>
        ensures found { IfSome result (λ j. (from ≤ j) × (has self.now j ≡ true)) }
        ensures first { IfSome result (λ j. (k : ℕ) → from ≤ k → k < j → has self.now k ≡ false) }
        ensures none { IfNone result ((k : ℕ) → from ≤ k → has self.now k ≡ false) }
    {
        words::next_from(self.words.as_slice(), from)
    }
}

impl PartialEq for Bits {
    ghost eq = { pointwise beq };

    ghost laws = { partial_equiv_from_equiv (lists_equiv bool_eq_equiv) };

    fn eq(&self, other: &Bits) -> bool {
        words::are_same(self.words.as_slice(), other.words.as_slice())
    }
}

impl Eq for Bits {
    ghost laws = { lists_equiv bool_eq_equiv };
}

impl Hash for Bits {
    ghost hash_input = { λ b. flat_map fed.u64 (words_of b) };

    ghost respects_eq = { (same_Alike (λ b. flat_map fed.u64 (words_of b))
        (pointwise_decides booleans_Decides)).fed };

    fn hash<H: Hasher>(&self, state: &mut H) {
        words::hash(self.words.as_slice(), state);
    }
}
