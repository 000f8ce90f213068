//! The leaves that a shape may begin and end with.

ghost use Rattle.std.specs.Prelude.{◌≡◌, ℕ, ◌<◌, false, eqb, map, IfOk};
ghost use Rattle.cer_base.specs.Bits.{has};
ghost use Rattle.query_leaves.specs.LeafTree.{chain_of, choice_of};
ghost use Rattle.query_leaves.specs.Shapes.{tree_of_shape};
ghost use Rattle.query_leaves.specs.Numbering.{shape_part};
ghost use Rattle.cea_compile.specs.Found.{FollowersHaveRoom, AreBelow, EndsHaveRoom};
ghost use Rattle.cea_compile.specs.Ended.{AreEndsOf};

use crate::followers::Followers;
use cer_base::Memory;
use cer_base::bits::Bits;
use query_leaves::{Shape, ShapePart};
use std::alloc::Global;

/// The leaves that a part may begin with, and those that it may end with.
#[derive(Drop, Debug)]
pub struct Ends {
    pub first: Bits,
    pub last: Bits,
}

/// No leaf.
fn none(alloc: Global, size: usize) -> Result<Ends, Memory>
    ensures room { IfOk result (λ e. EndsHaveRoom size e) }
    ensures first { IfOk result (λ e. (k : ℕ) → has e.first k ≡ false) }
    ensures last { IfOk result (λ e. (k : ℕ) → has e.last k ≡ false) }
{
    Ok(Ends {
        first: Bits::blank(alloc, size)?,
        last: Bits::blank(alloc, size)?,
    })
}

/// One leaf.
fn alone(alloc: Global, size: usize, leaf: usize) -> Result<Ends, Memory>
    requires { leaf < size }
    ensures room { IfOk result (λ e. EndsHaveRoom size e) }
    ensures first { IfOk result (λ e. (k : ℕ) → has e.first k ≡ eqb k leaf) }
    ensures last { IfOk result (λ e. (k : ℕ) → has e.last k ≡ eqb k leaf) }
{
    let mut ends = none(alloc, size)?;
    ends.first.insert(leaf);
    ends.last.insert(leaf);
    Ok(ends)
}

/// The ends of the parts one after another.
#[cycle(ends_of)]
fn ends_of_chain(
    alloc: Global,
    size: usize,
    parts: &[ShapePart],
    followers: &mut Followers,
) -> Result<Ends, Memory>
    requires room { FollowersHaveRoom size followers.old }
    requires below { AreBelow size (chain_of (map shape_part parts.now)) }
    ensures { IfOk result (λ e. AreEndsOf size (chain_of (map shape_part parts.now)) followers.old
        followers.new e) }
{
    if parts.len() == 0 {
        return none(alloc, size);
    }
    let first = &parts[0];
    let mut ends = ends_of(alloc, size, &first.part, followers)?;
    for k in 1..parts.len() {
        let next = &parts[k];
        let after = ends_of(alloc, size, &next.part, followers)?;
        followers.link(size, next.tight, &ends.last, &after.first);
        ends.last = after.last;
    }
    Ok(ends)
}

/// The ends of a choice.
#[cycle(ends_of)]
fn ends_of_choice(
    alloc: Global,
    size: usize,
    choices: &[Shape],
    followers: &mut Followers,
) -> Result<Ends, Memory>
    requires room { FollowersHaveRoom size followers.old }
    requires below { AreBelow size (choice_of (map tree_of_shape choices.now)) }
    ensures { IfOk result (λ e. AreEndsOf size (choice_of (map tree_of_shape choices.now))
        followers.old followers.new e) }
{
    let mut ends = none(alloc, size)?;
    for choice in choices {
        let others = ends_of(alloc, size, choice, followers)?;
        ends.first.unite(&others.first);
        ends.last.unite(&others.last);
    }
    Ok(ends)
}

/// The ends of the shape. Which of its leaves follow which is added to what was found before.
#[cycle(ends_of)]
pub fn ends_of(
    alloc: Global,
    size: usize,
    shape: &Shape,
    followers: &mut Followers,
) -> Result<Ends, Memory>
    requires room { FollowersHaveRoom size followers.old }
    requires below { AreBelow size (tree_of_shape shape.now) }
    ensures { IfOk result (λ e. AreEndsOf size (tree_of_shape shape.now) followers.old
        followers.new e) }
{
    match shape {
        Shape::Leaf(leaf) => alone(alloc, size, *leaf as usize),
        Shape::Chain(parts) => ends_of_chain(alloc, size, parts, followers),
        Shape::Either(choices) => ends_of_choice(alloc, size, choices, followers),
        Shape::Plus { tight, part } => {
            let ends = ends_of(alloc, size, part, followers)?;
            followers.link(size, *tight, &ends.last, &ends.first);
            Ok(ends)
        }
    }
}
