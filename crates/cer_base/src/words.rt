//! Words of 64 bits as slices: each function is one pass over them.
ghost use Rattle.std.specs.Prelude.{◌≡◌, ℕ, ◌+◌, ◌*◌, ◌/◌, ◌^◌, ◌<◌, ◌≤◌, ◌==◌, ◌||◌, ◌&&◌, not, fold, flat_map, true, false, length, slice_index_or, IfSome, IfNone};
ghost use Rattle.std.specs.Cmp.Lexicographic.{pointwise};
ghost use Rattle.std.specs.Hash as fed;
ghost use Rattle.std.specs.Bool.{beq};
ghost use Rattle.cer_base.specs.Bits.{has, bits_of_words, words_of};

use std::hash::{Hash, Hasher};

/// Puts all bits of the other words in as well.
pub fn unite(words: &mut [u64], other: &[u64])
    requires { length words.old ≡ length other.now }
    ensures room { length (bits_of_words words.new) ≡ length (bits_of_words words.old) }
    ensures members { (k : ℕ) → has (bits_of_words words.new) k
        ≡ has (bits_of_words words.old) k || has (bits_of_words other.now) k }
{
    for i in 0..words.len() {
        words[i] |= other[i];
    }
}

/// Keeps the bits that the other words have too.
pub fn intersect(words: &mut [u64], other: &[u64])
    requires { length words.old ≡ length other.now }
    ensures room { length (bits_of_words words.new) ≡ length (bits_of_words words.old) }
    ensures members { (k : ℕ) → has (bits_of_words words.new) k
        ≡ has (bits_of_words words.old) k && has (bits_of_words other.now) k }
{
    for i in 0..words.len() {
        words[i] &= other[i];
    }
}

/// Takes the bits of the other words out.
pub fn subtract(words: &mut [u64], other: &[u64])
    requires { length words.old ≡ length other.now }
    ensures room { length (bits_of_words words.new) ≡ length (bits_of_words words.old) }
    ensures members { (k : ℕ) → has (bits_of_words words.new) k
        ≡ has (bits_of_words words.old) k && not (has (bits_of_words other.now) k) }
{
    for i in 0..words.len() {
        words[i] &= !other[i];
    }
}

/// Takes all bits out.
pub fn clear(words: &mut [u64])
    ensures room { length (bits_of_words words.new) ≡ length (bits_of_words words.old) }
    ensures members { (k : ℕ) → has (bits_of_words words.new) k ≡ false }
{
    if words.is_empty() {
        return;
    }
    // Mostly there is one word, which takes no loop.
    words[0] = 0;
    for i in 1..words.len() {
        words[i] = 0;
    }
}

/// The first word that is not 0, from this one on.
pub fn next_word(words: &[u64], from: usize) -> Option<usize>
    ensures found { IfSome result (λ i. (from ≤ i) × (i < length words.now)
        × (0 < slice_index_or words.now i 0)) }
    ensures first { IfSome result (λ i. (j : ℕ) → from ≤ j → j < i → slice_index_or words.now j 0
        ≡ 0) }
    ensures none { IfNone result ((j : ℕ) → from ≤ j → slice_index_or words.now j 0 ≡ 0) }
{
    for i in from..words.len() {
        if words[i] != 0 {
            return Some(i);
        }
    }
    None
}

/// Whether both have some bit in common.
pub fn meets(words: &[u64], other: &[u64]) -> bool
    requires { length words.now ≡ length other.now }
    ensures some { result ≡ true → (k : ℕ) × (has (bits_of_words words.now) k && has
        (bits_of_words other.now) k ≡ true) }
    ensures none { result ≡ false → (k : ℕ) → has (bits_of_words words.now) k && has
        (bits_of_words other.now) k ≡ false }
{
    for i in 0..words.len() {
        if words[i] & other[i] != 0 {
            return true;
        }
    }
    false
}

/// Puts the bit of number k in.
pub fn insert(words: &mut [u64], k: usize)
    requires { k < length words.old * 64 }
    ensures room { length (bits_of_words words.new) ≡ length (bits_of_words words.old) }
    ensures members { (j : ℕ) → has (bits_of_words words.new) j
        ≡ (j == k) || has (bits_of_words words.old) j }
{
    words[k / 64] |= 1 << (k % 64);
}

/// Takes the bit of number k out.
pub fn remove(words: &mut [u64], k: usize)
    requires { k < length words.old * 64 }
    ensures room { length (bits_of_words words.new) ≡ length (bits_of_words words.old) }
    ensures members { (j : ℕ) → has (bits_of_words words.new) j
        ≡ not (j == k) && has (bits_of_words words.old) j }
{
    words[k / 64] &= !(1 << (k % 64));
}

/// Whether the bit of number k is in.
pub fn contains(words: &[u64], k: usize) -> bool
    ensures { result ≡ has (bits_of_words words.now) k }
{
    match words.get(k / 64) {
        Some(word) => (word >> (k % 64)) & 1 == 1,
        None => false,
    }
}

/// The first number from this one on whose bit is in.
pub fn next_from(words: &[u64], from: usize) -> Option<usize>
    requires { length words.now * 64 ≤ 2 ^ 64 }
    ensures found { IfSome result (λ j. (from ≤ j) × (has (bits_of_words words.now) j ≡ true)) }
    ensures first { IfSome result (λ j. (k : ℕ) → from ≤ k → k < j → has (bits_of_words words.now) k
        ≡ false) }
    ensures none { IfNone result ((k : ℕ) → from ≤ k → has (bits_of_words words.now) k ≡ false) }
{
    let at = from / 64;
    if at >= words.len() {
        return None;
    }
    let front = words[at] & (u64::MAX << (from % 64));
    if front != 0 {
        return Some(at * 64 + front.trailing_zeros() as usize);
    }
    match next_word(words, at + 1) {
        Some(i) => Some(i * 64 + words[i].trailing_zeros() as usize),
        None => None,
    }
}

/// Whether the words are the same.
pub fn are_same(words: &[u64], other: &[u64]) -> bool
    ensures { result ≡ pointwise beq (bits_of_words words.now) (bits_of_words other.now) }
{
    if words.len() != other.len() {
        return false;
    }
    for i in 0..words.len() {
        if words[i] != other[i] {
            return false;
        }
    }
    true
}

/// Writes the words, the first one first.
pub fn hash<H: Hasher>(words: &[u64], state: &mut H)
    ensures { state.new ≡ fold H.write state.old
        (flat_map fed.u64 (words_of (bits_of_words words.now))) }
{
    for i in 0..words.len() {
        words[i].hash(state);
    }
}
