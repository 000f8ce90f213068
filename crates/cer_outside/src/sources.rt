//! Sources in memory: one whose calls fail as chosen, and one that never fails.

ghost use Rattle.std.specs.Prelude.{◌≡◌, ◌<◌, ◌≤◌, ◌↔◌, Some, length, drop, IsOk, IsErr, IfOk};
ghost use Rattle.cer_outside.specs.Causes.{HasCause};
ghost use Rattle.cer_outside.specs.Bytes.{Reads};
ghost use Rattle.cer_outside.specs.States.{PortionState, SourceState};
ghost use Rattle.cer_outside.specs.Calls.{FailsNext, read_count, buffer_after, source_after};

use crate::calls::{Calls, one_more};
use crate::portions::Portions;
use crate::{Failed, Source};
use std::marker::Model;

/// A source over bytes in memory, of which chosen calls fail. It tells its bytes.
#[derive(Drop)]
pub struct MemSource {
    portions: Portions,
    calls: Calls,
    faults: u64,
}

impl Model for MemSource {
    ghost Value = { SourceState };

    ghost view = { λ s. record {
      left = s.portions.left;
      piece = s.portions.piece;
      calls = s.calls;
      faults = s.faults;
    } };
}

impl MemSource {
    /// All of the bytes are left. One call moves at most `piece` of them, which is at least 1.
    /// `fails` lists the numbers of the calls that fail, from 1.
    pub fn new(bytes: Vec<u8>, piece: usize, fails: Vec<u64>) -> MemSource
        requires { 0 < piece }
        ensures { result ≡ record {
          left = bytes.items;
          piece = piece;
          calls = record { fails = fails.items; made = 0 };
          faults = 0;
        } }
    {
        MemSource {
            portions: Portions::of(bytes, piece),
            calls: Calls::new(fails),
            faults: 0,
        }
    }
}

impl Source for MemSource {
    ghost left = { λ s. Some s.left };

    ghost faults = { λ s. s.faults };

    /// Exactly the chosen calls fail, and every other one moves as many bytes as it may.
    fn read(&mut self, into: &mut [u8]) -> Result<usize, Failed>
        requires { 0 < length into.old }
        ensures bound { IfOk result (λ n. n ≤ length into.old) }
        ensures bytes { Reads (Some self.old.left) (Some self.new.left) into.new result }
        ensures cause { HasCause self.old.faults self.new.faults result }
        ensures fails { IsErr result ↔ FailsNext self.old.calls }
        ensures count { IfOk result (λ n. n ≡ read_count self.old.piece into.old self.old.left) }
        ensures buffer { into.new ≡ buffer_after self.old.left into.old result }
        ensures after { self.new ≡ source_after self.old result }
    {
        if self.calls.next_fails() {
            self.faults = one_more(self.faults);
            return Err(Failed);
        }
        Ok(self.portions.move_into(into))
    }

    fn fault_count(&self) -> u64 {
        self.faults
    }
}

/// A source over bytes in memory that never fails. It tells its bytes.
#[derive(Drop)]
pub struct SureSource {
    portions: Portions,
}

impl Model for SureSource {
    ghost Value = { PortionState };

    ghost view = { λ s. s.portions };
}

impl SureSource {
    /// All of the bytes are left. One call moves at most `piece` of them, which is at least 1.
    pub fn new(bytes: Vec<u8>, piece: usize) -> SureSource
        requires { 0 < piece }
        ensures { result ≡ record { left = bytes.items; piece = piece } }
    {
        SureSource {
            portions: Portions::of(bytes, piece),
        }
    }
}

impl Source for SureSource {
    ghost left = { λ s. Some s.left };

    ghost faults = { λ s. 0 };

    /// No call fails, and each one moves as many bytes as it may.
    fn read(&mut self, into: &mut [u8]) -> Result<usize, Failed>
        requires { 0 < length into.old }
        ensures bound { IfOk result (λ n. n ≤ length into.old) }
        ensures bytes { Reads (Some self.old.left) (Some self.new.left) into.new result }
        ensures cause { HasCause 0 0 result }
        ensures succeeds { IsOk result }
        ensures count { IfOk result (λ n. n ≡ read_count self.old.piece into.old self.old.left) }
        ensures buffer { into.new ≡ buffer_after self.old.left into.old result }
        ensures after { IfOk result (λ n.
            self.new ≡ record self.old { left = drop n self.old.left }) }
    {
        Ok(self.portions.move_into(into))
    }

    fn fault_count(&self) -> u64 {
        0
    }
}
