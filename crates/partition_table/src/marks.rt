//! Marks of the keys that were met: a key that has none is not there, and needs no search.

ghost use Rattle.std.specs.Prelude.{◌≡◌, ℕ, ◌+◌, true, false, List, [], ◌∷◌, ◌++◌, length, All, Some, slice_get};
ghost use Rattle.stream_schema.specs.declared.Value.{Value as Datum};
ghost use Rattle.partition_table.specs.Digests.{is_marked, IsMarked};

use crate::Key;
use crate::digests::digest;
use cer_base::seed::Seed;
use indexmap::IndexSet;
use stream_schema::Value;

/// How many marks there are. Keys whose digests differ by a multiple of it share one.
const MARKS: u64 = 2048;

/// Whether the keys of the digest have no mark.
#[inline(always)]
pub fn is_unmarked(marks: &[bool], digest: u64) -> bool
    ensures { result ≡ true → is_marked marks.now digest ≡ false }
{
    match marks.get((digest % MARKS) as usize) {
        Some(marked) => !*marked,
        None => false,
    }
}

/// Marks the key of these values.
fn mark(marks: &mut Vec<bool>, values: &[Value])
    ensures marked { IsMarked marks.new.items values.now }
    ensures kept { (digest : ℕ) → is_marked marks.old.items digest ≡ true
        → is_marked marks.new.items digest ≡ true }
{
    let place = (digest(values) % MARKS) as usize;
    if place < marks.len() {
        marks[place] = true;
    }
}

/// Takes all marks away, and makes room for them, where there is memory.
fn clear(marks: &mut Vec<bool>) {
    marks.clear();
    let _filled = marks.resize(MARKS as usize, false);
}

/// Begins the marks where there is one key. The key of no values needs none.
fn begin(marks: &mut Vec<bool>, values: &[Value], count: usize)
    ensures { (count ≡ 1 → ⊥) → marks.new.items ≡ marks.old.items }
{
    if count == 1 && !values.is_empty() {
        clear(marks);
    }
}

/// Marks the key of this number.
fn mark_key(marks: &mut Vec<bool>, keys: &IndexSet<Key, Seed>, number: usize)
    ensures marked { (key : List Datum) → slice_get keys.now.keys number ≡ Some key
        → IsMarked marks.new.items key }
    ensures kept { (digest : ℕ) → is_marked marks.old.items digest ≡ true
        → is_marked marks.new.items digest ≡ true }
{
    if let Some(key) = keys.get_index(number) {
        mark(marks, key.values());
    }
}

/// Marks these keys alone, where there are marks.
pub fn mark_all(marks: &mut Vec<bool>, keys: &IndexSet<Key, Seed>)
    ensures { All (IsMarked marks.new.items) keys.now.keys }
{
    if marks.is_empty() {
        return;
    }
    clear(marks);
    for k in 0..keys.len() {
        mark_key(marks, keys, k);
    }
}

/// Marks the key of these values, with which there are so many. With the first one marks begin.
pub fn mark_new(marks: &mut Vec<bool>, values: &[Value], count: usize)
    ensures { (keys : List (List Datum)) → length keys + 1 ≡ count
        → All (IsMarked marks.old.items) keys
        → All (IsMarked marks.new.items) (keys ++ values.now ∷ []) }
{
    begin(marks, values, count);
    mark(marks, values);
}
