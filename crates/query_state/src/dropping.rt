//! Keys without lists are removed.

ghost use Rattle.std.specs.Prelude.{◌≡◌, ◌+◌, ◌-◌, ◌<◌, ◌≤◌, [], slice_get, ℕ, Some, None, true, false, length};
ghost use Rattle.query_standing.specs.Giving.{renumbered};
ghost use Rattle.query_state.specs.Dropping.{rows_of, HaveLists, HaveRemoved};

use crate::lists::Lists;
use partition_table::Keys;

/// The number of the key that stays without a list: the one that is told, or the first, where none is
/// told and the first key is known to have no values.
pub fn key_to_stay(whole: bool, told: Option<u64>) -> Option<u64>
    ensures { (told ≡ None → ⊥) → result ≡ told }
{
    if told.is_none() && whole {
        return Some(0);
    }
    told
}

/// The number of the key that was told, now that this is the number of the key that stayed.
pub fn number_of(told: Option<u64>, now: Option<u64>) -> Option<u64>
    ensures none { told ≡ None → result ≡ None }
    ensures some { (told ≡ None → ⊥) → result ≡ now }
{
    match told {
        Some(_) => now,
        None => None,
    }
}

/// Whether this is the number that is told.
fn is_told(told: Option<u64>, number: u64) -> bool
    ensures yes { result ≡ true → told ≡ Some number }
    ensures no { result ≡ false → told ≡ Some number → ⊥ }
{
    match told {
        Some(n) => n == number,
        None => false,
    }
}

/// The number that is told, once the last key has the number of one that is removed.
fn renumbered(told: Option<u64>, last: u64, number: u64) -> Option<u64>
    ensures { result ≡ renumbered last number told }
{
    match told {
        Some(n) => { if n == last { Some(number) } else { Some(n) } }
        None => None,
    }
}

/// Whether the key of this number is to stay: it has a list, or its number is told.
fn is_to_stay(lists: &[Lists], number: u64, told: Option<u64>) -> bool
    requires inside { number < length lists.now }
    ensures untold { result ≡ false → told ≡ Some number → ⊥ }
    ensures none { result ≡ false → slice_get (rows_of lists.now) number ≡ Some [] }
    ensures why { result ≡ true → slice_get (rows_of lists.now) number ≡ Some []
        → told ≡ Some number }
{
    if is_told(told, number) {
        return true;
    }
    lists[number as usize].active.len() > 0
}

/// Removes the key of this number, where it has no list and its number is not told: the last key
/// has its number then. The number that is told then. It takes no memory.
fn remove_one(
    lists: &mut Vec<Lists>,
    keys: &mut Keys,
    number: u64,
    told: Option<u64>,
) -> Option<u64>
    requires inside { number < length lists.old.items }
    requires count { length keys.old ≡ length lists.old.items }
    ensures removed { HaveRemoved keys.old lists.old.items told keys.new lists.new.items result }
    ensures few { number ≤ length lists.new.items }
    ensures kept { HaveLists (number + 1) (rows_of lists.old.items) told
        → HaveLists number (rows_of lists.new.items) result }
{
    if is_to_stay(lists.as_slice(), number, told) {
        return told;
    }
    let last = lists.len() as u64 - 1;
    let _gone = lists.swap_remove(number as usize);
    keys.remove(number);
    renumbered(told, last, number)
}

/// Removes each key without a list, but not that of the number that is told, whose number then is
/// the answer. It goes through the keys once, and takes no memory.
pub fn remove_all(lists: &mut Vec<Lists>, keys: &mut Keys, told: Option<u64>) -> Option<u64>
    requires count { length keys.old ≡ length lists.old.items }
    ensures removed { HaveRemoved keys.old lists.old.items told keys.new lists.new.items result }
    ensures kept { HaveLists 0 (rows_of lists.new.items) result }
{
    let mut now = told;
    let count = lists.len();
    for k in 0..count {
        now = remove_one(lists, keys, (count - 1 - k) as u64, now);
    }
    now
}
