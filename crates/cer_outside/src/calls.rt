//! The numbers of calls, and which of them fail.

ghost use Rattle.std.specs.Prelude.{◌≡◌, ◌↔◌, IsTrue};
ghost use Rattle.cer_outside.specs.Causes.{one_more};
ghost use Rattle.cer_outside.specs.States.{CallState};
ghost use Rattle.cer_outside.specs.Calls.{after_call, FailsNext};

use std::marker::Model;

/// The calls that were made on an object, and which of them fail. Their number stays at its last
/// value.
#[derive(Drop)]
pub struct Calls {
    fails: Vec<u64>,
    made: u64,
}

impl Model for Calls {
    ghost Value = { CallState };

    ghost view = { λ c. record { fails = c.fails.items; made = c.made } };
}

impl Calls {
    /// No call was made yet. `fails` lists the numbers of those that fail, from 1.
    pub fn new(fails: Vec<u64>) -> Calls
        ensures { result ≡ record { fails = fails.items; made = 0 } }
    {
        Calls { fails, made: 0 }
    }

    /// Counts one more call, and says whether it is among those that fail.
    pub fn next_fails(&mut self) -> bool
        ensures made { self.new ≡ after_call self.old }
        ensures listed { IsTrue result ↔ FailsNext self.old }
    {
        self.made = one_more(self.made);
        self.fails.as_slice().contains(&self.made)
    }
}

/// The count with one more; it stays at its last value.
pub fn one_more(count: u64) -> u64
    ensures { result ≡ one_more count }
{
    count.saturating_add(1)
}
