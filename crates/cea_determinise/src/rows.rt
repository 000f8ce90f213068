//! What whole rows of states did on events of a class, kept so that it is found at once.
ghost use Rattle.std.specs.Prelude.{◌≡◌, List, [], All, IfSome};
ghost use Rattle.cea_determinise.specs.declared.table.TransitionKey.{TransitionKey as Key};
ghost use Rattle.cea_determinise.specs.declared.table.Successors.{Successors as Found};
ghost use Rattle.cea_determinise.specs.Rows.{IsListed};

use crate::table::{EventClass, State, Successors};
use cer_base::Memory;
use smallvec::SmallVec;
use std::alloc::Global;
use std::marker::Model;
use std::sync::Arc;

/// So many rows are kept, fewer than `NO_ROW`.
const KEPT_ROWS: usize = 64;

/// The place of a number that has no row.
const NO_ROW: u8 = 255;

/// So many numbers may have a row, from 0.
pub const ROW_NUMBERS: u64 = 256;

/// What an event does to a row of states.
#[derive(Drop)]
pub enum Effect {
    /// The start has no successor, and each state has itself alone, not marked.
    Stays,
    /// The start has no successor, and each state has one of these alone, in order, not marked. None
    /// of them stands twice.
    Moves(Arc<Vec<State>>),
    /// Anything.
    Changes,
}

/// Some states other than the start, in order, with what events of a class do to them. What is compared
/// stands first, and up to three states in the row itself.
#[derive(Drop)]
pub struct CachedTransition {
    pub event_class: EventClass,
    pub effect: Effect,
    pub states: SmallVec<State, 3>,
    /// The successors of the start, then of each state.
    pub successors: SmallVec<Successors, 4>,
}

/// Rows by numbers that their owner gives them: seen as the list of the rows.
#[derive(Drop)]
pub struct TransitionCache {
    rows: Vec<CachedTransition>,
    /// For each number where its row may stand.
    places: Vec<u8>,
}

impl Model for TransitionCache {
    ghost use Rattle.std.specs.Prelude.{List};
    ghost use Rattle.cea_determinise.specs.declared.rows.CachedTransition.{CachedTransition};

    ghost Value = { List CachedTransition };

    ghost view = { λ k. k.rows.items };
}

/// Where the row of the number may stand.
fn place(places: &[u8], number: u64) -> usize {
    if number < places.len() as u64 {
        places[number as usize] as usize
    } else {
        NO_ROW as usize
    }
}

/// Notes where the row of the number stands.
fn tell(places: &mut Vec<u8>, number: u64, place: u8) -> Result<(), Memory> {
    if ROW_NUMBERS <= number {
        return Ok(());
    }
    if places.len() as u64 <= number {
        places.resize(number as usize + 1, NO_ROW)?;
    }
    places[number as usize] = place;
    Ok(())
}

impl TransitionCache {
    /// No row. It takes no memory.
    pub fn new(alloc: Global) -> TransitionCache
        ensures { result ≡ [] }
    {
        TransitionCache {
            rows: Vec::new(alloc),
            places: Vec::new(alloc),
        }
    }

    /// Forgets all rows.
    pub fn clear(&mut self)
        ensures { self.new ≡ [] }
    {
        self.rows.clear();
    }

    /// The row that was kept last under the number, or another one.
    pub fn get(&self, number: u64) -> Option<&CachedTransition>
        ensures { (ts : List (Key × Found)) → All (IsListed ts) self.now → IfSome result
            (λ r. IsListed ts r.now) }
    {
        let place = place(self.places.as_slice(), number);
        if place < self.rows.len() {
            Some(&self.rows[place])
        } else {
            None
        }
    }

    /// Keeps the row under the number, in the place of the one that was kept there. It is not kept
    /// where there is no room or no memory, or where the number is too high.
    pub fn put(&mut self, number: u64, row: CachedTransition)
        ensures { (ts : List (Key × Found)) → All (IsListed ts) self.old → IsListed ts row
            → All (IsListed ts) self.new }
    {
        let cached = place(self.places.as_slice(), number);
        let len = self.rows.len();
        if cached < len {
            self.rows[cached] = row;
        } else if len < KEPT_ROWS {
            // Where this has no memory, the row is looked up state by state.
            let _told = tell(&mut self.places, number, len as u8);
            let _kept = self.rows.push(row);
        }
    }
}
