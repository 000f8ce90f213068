//! The numbers of open cursors.

ghost use Rattle.std.specs.Prelude.{◌≡◌, ◌==◌, position};

use cer_base::Pos;

/// The number of an open cursor, from 1 to 64, and the position at which it was opened.
#[derive(Drop, Clone, Copy)]
pub struct CursorNumber {
    pub number: u64,
    pub position: Pos,
}

/// Where the open cursor of this number stands, if there is one.
pub fn place_among(opened: &[CursorNumber], number: u64) -> Option<usize>
    ensures { result ≡ position (λ o. o.number == number) opened.now }
{
    opened.iter().position(|o| o.number == number)
}
