//! How many bytes one call moves.

ghost use Rattle.std.specs.Prelude.{◌≡◌, ◌<◌, ◌≤◌, length, drop, Ok};
ghost use Rattle.cer_outside.specs.declared.Failed.{Failed};
ghost use Rattle.cer_outside.specs.States.{PortionState};
ghost use Rattle.cer_outside.specs.Bytes.{Moves};
ghost use Rattle.cer_outside.specs.Calls.{read_count, buffer_after};

use std::marker::Model;

/// Bytes in memory that are given out in pieces.
#[derive(Drop)]
pub struct Portions {
    bytes: Vec<u8>,
    given: usize,
    piece: usize,
}

impl Model for Portions {
    ghost Value = { PortionState };

    ghost view = { λ p. record { left = drop p.given p.bytes.items; piece = p.piece } };

    ghost invariant = { λ p. (p.given ≤ length p.bytes.items) × (0 < p.piece) };
}

impl Portions {
    /// All of the bytes are left, and one call moves at most `piece` of them.
    pub fn of(bytes: Vec<u8>, piece: usize) -> Portions
        requires { 0 < piece }
        ensures { result ≡ record { left = bytes.items; piece = piece } }
    {
        Portions {
            bytes,
            given: 0,
            piece,
        }
    }

    /// Moves the first bytes that are left into the front of the buffer, and says how many; 0 at
    /// the end alone.
    pub fn move_into(&mut self, into: &mut [u8]) -> usize
        requires { 0 < length into.old }
        ensures count { result ≡ read_count self.old.piece into.old self.old.left }
        ensures piece { 0 < self.old.piece }
        ensures left { self.new ≡ record self.old { left = drop result self.old.left } }
        ensures buffer { into.new ≡ buffer_after {E = Failed} self.old.left into.old (Ok result) }
        ensures moved { Moves self.old.left self.new.left into.new result }
    {
        let left = &self.bytes.as_slice()[self.given..];
        let count = into.len().min(self.piece).min(left.len());
        into[..count].copy_from_slice(&left[..count]);
        self.given += count;
        count
    }
}
