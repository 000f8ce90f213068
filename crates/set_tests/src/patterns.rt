//! Position automata that are written down by hand.
ghost use Rattle.std.specs.Prelude.{◌≡◌, ℕ, ◌<◌, List, Bool, length, All, IfOk};
ghost use Rattle.cea_determinise.specs.Cea.{IsSet, AreRows, IsWellFormed};

use cea_determinise::cea::Cea;
use cer_base::Memory;
use cer_base::bits::Bits;
use std::alloc::Global;

/// The set of the numbers, those that are not below the size left out.
pub fn set_of(alloc: Global, size: usize, numbers: &[usize]) -> Result<Bits, Memory>
    ensures { IfOk result (IsSet size) }
{
    let mut set = Bits::blank(alloc, size)?;
    for k in numbers {
        if *k < size {
            set.insert(*k);
        }
    }
    Ok(set)
}

/// For each number the set of the one that is so much greater, where it is below the size.
fn rows_of(alloc: Global, size: usize, step: usize) -> Result<Vec<Bits>, Memory>
    ensures { IfOk result (λ rows. AreRows size rows.items) }
{
    let mut rows = Vec::new(alloc);
    for k in 0..size {
        rows.push(set_of(alloc, size, &[k.saturating_add(step)])?)?;
    }
    Ok(rows)
}

/// The automaton of a pattern of so many leaves. It begins with the first leaf and ends with the
/// last one, each leaf is marked, and each may be followed, at any later event, by the one that is
/// `step` further: 1 for `A ; B ; C`, 0 for `A+`.
pub fn pattern(alloc: Global, size: usize, step: usize) -> Result<Cea, Memory>
    ensures well_formed { IfOk result IsWellFormed }
    ensures size { IfOk result (λ cea. cea.size ≡ size) }
{
    Ok(Cea {
        size,
        first: set_of(alloc, size, &[0])?,
        last: set_of(alloc, size, &[size.saturating_sub(1)])?,
        near: rows_of(alloc, size, size)?,
        far: rows_of(alloc, size, step)?,
        marked: set_of(alloc, size, &[0, 1, 2])?,
        strict: false,
    })
}
