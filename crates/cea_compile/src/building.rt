//! The position automaton of the leaves of a query.

ghost use Rattle.std.specs.Prelude.{◌≡◌, ℕ, Bool, length, slice_get, IfOk};
ghost use Rattle.cer_base.specs.Bits.{has, room_for};
ghost use Rattle.cea_determinise.specs.Cea.{automaton_of_cea};
ghost use Rattle.cea_compile.specs.LeafAutomaton.{automaton_of_leaves, is_marked_leaf};
ghost use Rattle.query_leaves.specs.Lawful.{AreNumbered};
ghost use Rattle.cea_determinise.specs.Cea.{IsWellFormed};

use crate::ends::ends_of;
use crate::followers::Followers;
use cea_determinise::cea::Cea;
use cer_base::Memory;
use cer_base::bits::Bits;
use query_leaves::{Leaf, Leaves};
use std::alloc::Global;

/// The numbers of the marked leaves.
fn marked(alloc: Global, list: &[Leaf]) -> Result<Bits, Memory>
    ensures room { IfOk result (λ b. length b ≡ room_for (length list.now)) }
    ensures members { IfOk result (λ b. (k : ℕ) → has b k ≡ is_marked_leaf (slice_get list.now k)) }
{
    let mut marked = Bits::blank(alloc, list.len())?;
    for (k, leaf) in list.iter().enumerate() {
        if leaf.marked {
            marked.insert(k);
        }
    }
    Ok(marked)
}

/// The position automaton of the leaves.
pub fn compile(alloc: Global, leaves: &Leaves) -> Result<Cea, Memory>
    requires { AreNumbered leaves.now }
    ensures automaton { IfOk result (λ a. automaton_of_cea a ≡ automaton_of_leaves leaves.now) }
    ensures strict { IfOk result (λ a. a.strict ≡ leaves.now.strict) }
    ensures well_formed { IfOk result IsWellFormed }
{
    let list = leaves.list.as_slice();
    let size = list.len();
    let mut followers = Followers::none(alloc, size)?;
    let ends = ends_of(alloc, size, &leaves.shape, &mut followers)?;
    Ok(Cea {
        size,
        first: ends.first,
        last: ends.last,
        near: followers.near,
        far: followers.far,
        marked: marked(alloc, list)?,
        strict: leaves.strict,
    })
}
