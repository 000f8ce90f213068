//! A sink in memory, of a fixed room, whose calls fail as chosen.

ghost use Rattle.std.specs.Prelude.{◌≡◌, ℕ, ◌<◌, ◌≤◌, ◌↔◌, [], Some, length, vec_len, IfOk, IsErr};
ghost use Rattle.std.specs.Vec.{vec_capacity};
ghost use Rattle.cer_outside.specs.Causes.{HasCause};
ghost use Rattle.cer_outside.specs.Bytes.{Takes};
ghost use Rattle.cer_outside.specs.States.{SinkState};
ghost use Rattle.cer_outside.specs.Calls.{WriteFails, write_count, sink_after};

use crate::calls::{Calls, one_more};
use crate::{Failed, Sink};
use cer_base::Memory;
use std::alloc::Global;
use std::marker::Model;

/// A sink in memory with room for so many bytes, of which chosen calls fail. It tells its bytes.
#[derive(Drop)]
pub struct MemSink {
    taken: Vec<u8>,
    room: usize,
    piece: usize,
    calls: Calls,
    faults: u64,
}

impl Model for MemSink {
    ghost Value = { SinkState };

    ghost view = { λ s. record {
      taken = s.taken.items;
      room = s.room;
      piece = s.piece;
      calls = s.calls;
      faults = s.faults;
    } };

    ghost invariant = { λ s. (vec_len s.taken ≤ s.room)
        × (s.room ≤ vec_capacity s.taken) × (0 < s.piece) };
}

impl MemSink {
    /// Reserves `room` bytes, the most that it takes in all: once they are taken, each further call
    /// fails. One call takes at most `piece` bytes, which is at least 1. `fails` lists the numbers
    /// of the calls that fail before, from 1.
    pub fn new(alloc: Global, piece: usize, room: usize, fails: Vec<u64>) -> Result<MemSink, Memory>
        requires { 0 < piece }
        ensures { IfOk result (λ s. s ≡ record {
          taken = [];
          room = room;
          piece = piece;
          calls = record { fails = fails.items; made = 0 };
          faults = 0;
        }) }
    {
        Ok(MemSink {
            taken: Vec::with_capacity(alloc, room)?,
            room,
            piece,
            calls: Calls::new(fails),
            faults: 0,
        })
    }

    /// The bytes that it has taken, in order.
    pub fn as_slice(&self) -> &[u8]
        ensures value { result.now ≡ self.now.taken }
        ensures fits { length result.now ≤ self.now.room }
    {
        self.taken.as_slice()
    }
}

impl Sink for MemSink {
    ghost taken = { λ s. Some s.taken };

    ghost faults = { λ s. s.faults };

    /// Exactly the chosen calls fail and, once it is full, all; every other one takes as many bytes
    /// as it may.
    fn write(&mut self, piece: &[u8]) -> Result<usize, Failed>
        requires { 0 < length piece.now }
        ensures low { IfOk result (λ n. 0 < n) }
        ensures high { IfOk result (λ n. n ≤ length piece.now) }
        ensures bytes { Takes (Some self.old.taken) (Some self.new.taken) piece.now result }
        ensures cause { HasCause self.old.faults self.new.faults result }
        ensures fails { IsErr result ↔ WriteFails self.old }
        ensures count { IfOk result (λ n. n ≡ write_count self.old piece.now) }
        ensures after { self.new ≡ sink_after self.old piece.now result }
    {
        let left = self.room - self.taken.len();
        if self.calls.next_fails() || left == 0 {
            self.faults = one_more(self.faults);
            return Err(Failed);
        }
        let count = piece.len().min(self.piece).min(left);
        match self.taken.extend_from_slice(&piece[..count]) {
            Ok(()) => Ok(count),
            Err(_) => {
                self.faults = one_more(self.faults);
                Err(Failed)
            }
        }
    }

    fn fault_count(&self) -> u64 {
        self.faults
    }
}
