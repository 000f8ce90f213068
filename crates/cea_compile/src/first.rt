//! The leaves that may read the first event of a match, without the rest of the automaton.

ghost use Rattle.std.specs.Prelude.{◌≡◌, ℕ, map, IfOk, length};
ghost use Rattle.cer_base.specs.Bits.{has, room_for};
ghost use Rattle.query_leaves.specs.LeafTree.{chain_of, choice_of};
ghost use Rattle.query_leaves.specs.Shapes.{tree_of_shape};
ghost use Rattle.query_leaves.specs.Numbering.{shape_part};
ghost use Rattle.query_leaves.specs.Lawful.{AreNumbered};
ghost use Rattle.cea_compile.specs.LeafAutomaton.{automaton_of_leaves};
ghost use Rattle.cea_compile.specs.Found.{AreBelow, HasFirst};

use cer_base::Memory;
use cer_base::bits::Bits;
use query_leaves::{Leaves, Shape, ShapePart};
use std::alloc::Global;

/// Puts in those that the parts one after another may begin with.
#[cycle(put_first)]
fn put_first_of_chain(set: &mut Bits, size: usize, parts: &[ShapePart])
    requires room { length set.old ≡ room_for size }
    requires below { AreBelow size (chain_of (map shape_part parts.now)) }
    ensures { HasFirst (chain_of (map shape_part parts.now)) set.old set.new }
{
    if parts.len() == 0 {
        return;
    }
    let part = &parts[0];
    put_first(set, size, &part.part);
}

/// Puts in those that one of the choices may begin with.
#[cycle(put_first)]
fn put_first_of_choice(set: &mut Bits, size: usize, choices: &[Shape])
    requires room { length set.old ≡ room_for size }
    requires below { AreBelow size (choice_of (map tree_of_shape choices.now)) }
    ensures { HasFirst (choice_of (map tree_of_shape choices.now)) set.old set.new }
{
    for choice in choices {
        put_first(set, size, choice);
    }
}

/// Puts in the leaves that the shape may begin with, of so many leaves.
#[cycle(put_first)]
fn put_first(set: &mut Bits, size: usize, shape: &Shape)
    requires room { length set.old ≡ room_for size }
    requires below { AreBelow size (tree_of_shape shape.now) }
    ensures { HasFirst (tree_of_shape shape.now) set.old set.new }
{
    match shape {
        Shape::Leaf(leaf) => set.insert(*leaf as usize),
        Shape::Chain(parts) => put_first_of_chain(set, size, parts),
        Shape::Either(choices) => put_first_of_choice(set, size, choices),
        Shape::Plus { part, .. } => put_first(set, size, part),
    }
}

/// The leaves that may read the first event of a match: those of the automaton that `compile` makes.
pub fn first_of(alloc: Global, leaves: &Leaves) -> Result<Bits, Memory>
    requires { AreNumbered leaves.now }
    ensures { IfOk result (λ set. (k : ℕ) → (automaton_of_leaves leaves.now).first k ≡ has set k) }
{
    let size = leaves.list.as_slice().len();
    let mut set = Bits::blank(alloc, size)?;
    put_first(&mut set, size, &leaves.shape);
    Ok(set)
}
