//! Which leaves may follow which, as far as it is found.

ghost use Rattle.std.specs.Prelude.{◌≡◌, ℕ, ◌<◌, ◌&&◌, ◌||◌, Bool, true, false, length, IfOk};
ghost use Rattle.cer_base.specs.Bits.{has, room_for};
ghost use Rattle.cea_determinise.specs.Cea.{row};
ghost use Rattle.cea_determinise.specs.Runs.{agrees};
ghost use Rattle.cea_compile.specs.Found.{HaveRoom, FollowersHaveRoom, pairs};

use cer_base::Memory;
use cer_base::bits::Bits;
use std::alloc::Global;

/// For each leaf the leaves that may follow it: next, where tight, or later.
#[derive(Drop, Debug)]
pub struct Followers {
    pub near: Vec<Bits>,
    pub far: Vec<Bits>,
}

/// Empty sets, one for each leaf.
fn blanks(alloc: Global, size: usize) -> Result<Vec<Bits>, Memory>
    ensures room { IfOk result (λ rows. HaveRoom size rows.items) }
    ensures empty { IfOk result (λ rows. (j k : ℕ) → row rows.items j k ≡ false) }
{
    let mut rows = Vec::new(alloc);
    for _ in 0..size {
        rows.push(Bits::blank(alloc, size)?)?;
    }
    Ok(rows)
}

/// Each leaf of the one set is followed by each of the other.
fn link(rows: &mut [Bits], size: usize, from: &Bits, to: &Bits)
    requires room { HaveRoom size rows.old }
    requires same_room { length to.now ≡ room_for size }
    requires below { (j : ℕ) → has from.now j ≡ true → j < size }
    ensures room { HaveRoom size rows.new }
    ensures pairs { (j k : ℕ) → row rows.new j k
        ≡ row rows.old j k || (has from.now j && has to.now k) }
{
    for j in 0..size {
        if from.contains(j) {
            rows[j].unite(to);
        }
    }
}

impl Followers {
    /// No leaf follows any.
    pub fn none(alloc: Global, size: usize) -> Result<Followers, Memory>
        ensures room { IfOk result (FollowersHaveRoom size) }
        ensures empty { IfOk result (λ f. (tight : Bool) (j k : ℕ) → pairs f tight j k ≡ false) }
    {
        Ok(Followers {
            near: blanks(alloc, size)?,
            far: blanks(alloc, size)?,
        })
    }

    /// Each leaf of the one set is followed by each of the other.
    pub fn link(&mut self, size: usize, tight: bool, from: &Bits, to: &Bits)
        requires room { FollowersHaveRoom size self.old }
        requires same_room { length to.now ≡ room_for size }
        requires below { (j : ℕ) → has from.now j ≡ true → j < size }
        ensures room { FollowersHaveRoom size self.new }
        ensures pairs { (u : Bool) (j k : ℕ) → pairs self.new u j k
            ≡ pairs self.old u j k || (agrees u tight && (has from.now j && has to.now k)) }
    {
        if tight {
            link(self.near.as_mut_slice(), size, from, to);
        } else {
            link(self.far.as_mut_slice(), size, from, to);
        }
    }
}
