//! The positions of an answer, put into rising order.

ghost use Rattle.std.specs.Prelude.{◌≡◌, reverse, OnOk};

use cer_base::{Memory, Pos};

/// Makes the list that of the positions, which are given greatest first, in rising order.
pub fn put_rising(rising: &mut Vec<Pos>, falling: &[Pos]) -> Result<(), Memory>
    ensures { OnOk result (rising.new.items ≡ reverse falling.now) }
{
    rising.clear();
    rising.extend_from_slice(falling)?;
    rising.as_mut_slice().reverse();
    Ok(())
}
