//! What is known of a held cursor beside the cursor itself.

ghost use Rattle.std.specs.Prelude.{◌≡◌, ◌==◌, position};

use cer_base::Pos;

/// The most cursors that are held at a time.
pub const MOST_HELD: usize = 64;

/// Of a held cursor: its own number, from 1, the position at which it was opened, where its answers end,
/// and the start of the answer that was drawn from it and is not given.
#[derive(Drop, Clone, Copy)]
pub struct HeldMark {
    pub number: u64,
    pub end: Pos,
    pub drawn: Option<Pos>,
}

/// Where the mark with this number stands, if there is one.
pub fn place_among(marks: &[HeldMark], number: u64) -> Option<usize>
    ensures { result ≡ position (λ m. m.number == number) marks.now }
{
    marks.iter().position(|m| m.number == number)
}
