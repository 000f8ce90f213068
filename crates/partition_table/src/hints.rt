//! Hints of where a key stands. They are never trusted, so nothing is promised of them.

use crate::Key;
use crate::digests::digest;
use cer_base::Memory;
use std::alloc::Global;

/// How many hints are kept.
const HINTS: u64 = 512;

/// The place of the hint for the keys of this digest.
#[inline(always)]
pub fn slot(digest: u64) -> usize {
    (digest % HINTS) as usize
}

/// Hints that lead to the first key.
fn no_hints(alloc: Global) -> Result<Vec<u32>, Memory> {
    Ok(vec![in alloc; 0; HINTS as usize]?)
}

/// Makes room for hints, where there are none yet. The key of no values needs none.
pub fn make_hints(alloc: Global, hints: &mut Vec<u32>, key: &Key) -> Result<(), Memory> {
    if hints.is_empty() && !key.values().is_empty() {
        *hints = no_hints(alloc)?;
    }
    Ok(())
}

/// Hints that the key has this number, where it is one of 32 bits.
pub fn put_hint(hints: &mut Vec<u32>, key: &Key, number: u64) {
    let Ok(number) = u32::try_from(number) else {
        return;
    };
    if let Some(hint) = hints.get_mut(slot(digest(key.values()))) {
        *hint = number;
    }
}
