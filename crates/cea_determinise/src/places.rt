//! Where known pairs of state and class stand in the table of transitions, told without a hash.
ghost use Rattle.std.specs.Prelude.{◌≡◌, [], OnOk, IsSome};
ghost use Rattle.cea_determinise.specs.Places.{slot_of, place_in};

use crate::table::TransitionKey;
use cer_base::Memory;
use std::alloc::Global;
use std::marker::Model;

/// How many states have slots, from the start on.
pub const SLOTTED_STATES: u64 = 4096;

/// How many classes have slots, from the first on.
pub const SLOTTED_EVENT_CLASSES: u64 = 64;

/// A place for each pair of a slotted state and a slotted class: seen as the list of the places.
#[derive(Drop)]
pub struct Places {
    places: Vec<usize>,
}

impl Model for Places {
    ghost use Rattle.std.specs.Prelude.{ℕ, List};

    ghost Value = { List ℕ };

    ghost view = { λ p. p.places.items };
}

/// Where the pair's place is kept.
fn slot(key: TransitionKey) -> Option<usize>
    ensures { result ≡ slot_of key }
{
    if key.state < SLOTTED_STATES && key.event_class < SLOTTED_EVENT_CLASSES {
        Some((key.state * SLOTTED_EVENT_CLASSES + key.event_class) as usize)
    } else {
        None
    }
}

impl Places {
    /// No place is told yet. It takes no memory.
    pub fn new(alloc: Global) -> Places
        ensures { result ≡ [] }
    {
        Places {
            places: Vec::new(alloc),
        }
    }

    /// The place that was told last of the pair, 0 where none was.
    pub fn get(&self, key: TransitionKey) -> usize
        ensures { result ≡ place_in self.now key }
    {
        match slot(key) {
            None => 0,
            Some(slot) => {
                if slot < self.places.len() {
                    self.places[slot]
                } else {
                    0
                }
            }
        }
    }

    /// Tells the place of the pair, where it has a slot.
    pub fn put(&mut self, key: TransitionKey, place: usize) -> Result<(), Memory>
        ensures { OnOk result (IsSome (slot_of key) → place_in self.new key ≡ place) }
    {
        match slot(key) {
            None => Ok(()),
            Some(slot) => {
                if self.places.len() <= slot {
                    self.places.resize(slot + 1, 0)?;
                }
                self.places[slot] = place;
                Ok(())
            }
        }
    }
}
