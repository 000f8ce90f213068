//! The leaves of a tree in order, and its shape over their numbers.

ghost use Rattle.std.specs.Prelude.{◌≡◌, [], ◌∷◌, ◌++◌, length, map, IfOk, OnOk};
ghost use Rattle.std.specs.List.{flat_map};
ghost use Rattle.query_leaves.specs.Leaves.{occurrences, numbered};
ghost use Rattle.query_leaves.specs.Shapes.{tree_of_shape};
ghost use Rattle.query_leaves.specs.Changes.{change_all};
ghost use Rattle.query_leaves.specs.Drafts.{tree_of_draft, draft_part};
ghost use Rattle.query_leaves.specs.Tests.{IsMadeOf};
ghost use Rattle.query_leaves.specs.Numbering.{AreMadeUnder, HasNumbered, shape_part, occurrences_of_part, number_parts, number_each};

use crate::context::Context;
use crate::draft::{Draft, DraftPart};
use crate::leaf_under::{LeafOfType, leaf_for, leaf_under};
use crate::occurrence::Occurrence;
use crate::own_name::is_like_its_type;
use crate::{Leaf, Shape, ShapePart};
use cer_base::Memory;
use std::alloc::Global;
use stream_schema::Schema;

/// Numbers the leaves of the parts of a chain, which the changes stand above.
#[cycle(numbered)]
fn numbered_parts<'q>(
    alloc: Global,
    schema: &Schema,
    parts: &[DraftPart<'q>],
    above: &Context<'q>,
    list: &mut Vec<Leaf>,
    made: &mut Vec<LeafOfType<'q>>,
) -> Result<Vec<ShapePart>, Memory>
    ensures shapes { IfOk result (λ shapes. map shape_part shapes.items
        ≡ number_parts (length list.old.items) (map draft_part parts.now)) }
    ensures leaves { OnOk result (HasNumbered schema.now above.now
        (flat_map occurrences_of_part (map draft_part parts.now)) list.old.items list.new.items
        made.old.items made.new.items) }
{
    let mut shapes = Vec::new(alloc);
    for part in parts {
        let shape = numbered(alloc, schema, &part.part, above, list, made)?;
        shapes.push(ShapePart {
            tight: part.tight,
            part: shape,
        })?;
    }
    Ok(shapes)
}

/// Numbers the leaves of the choices, which the changes stand above.
#[cycle(numbered)]
fn numbered_each<'q>(
    alloc: Global,
    schema: &Schema,
    drafts: &[Draft<'q>],
    above: &Context<'q>,
    list: &mut Vec<Leaf>,
    made: &mut Vec<LeafOfType<'q>>,
) -> Result<Vec<Shape>, Memory>
    ensures shapes { IfOk result (λ shapes. map tree_of_shape shapes.items
        ≡ number_each (length list.old.items) (map tree_of_draft drafts.now)) }
    ensures leaves { OnOk result (HasNumbered schema.now above.now
        (flat_map occurrences (map tree_of_draft drafts.now)) list.old.items list.new.items
        made.old.items made.new.items) }
{
    let mut shapes = Vec::new(alloc);
    for draft in drafts {
        shapes.push(numbered(alloc, schema, draft, above, list, made)?)?;
    }
    Ok(shapes)
}

/// The leaf of the occurrence under the changes, which comes after these leaves.
fn leaf_here<'q>(
    alloc: Global,
    schema: &Schema,
    occurrence: &Occurrence<'q>,
    above: &Context<'q>,
    leaves: &[Leaf],
    made: &mut Vec<LeafOfType<'q>>,
) -> Result<Leaf, Memory>
    ensures leaf { AreMadeUnder schema.now above.now made.old.items
        → IfOk result (IsMadeOf schema.now (change_all above.now occurrence.now)) }
    ensures kept { OnOk result (AreMadeUnder schema.now above.now made.old.items
        → AreMadeUnder schema.now above.now made.new.items) }
{
    if is_like_its_type(occurrence, above) {
        leaf_for(alloc, schema, occurrence.ty(), above, leaves, made)
    } else {
        leaf_under(alloc, schema, occurrence, above, leaves)
    }
}

/// Puts the leaf of the occurrence under the changes at the end of the list, and answers its number
/// there, in a call of its own so that trees take no stack for it.
#[inline(never)]
fn numbered_leaf<'q>(
    alloc: Global,
    schema: &Schema,
    occurrence: &Occurrence<'q>,
    above: &Context<'q>,
    list: &mut Vec<Leaf>,
    made: &mut Vec<LeafOfType<'q>>,
) -> Result<u64, Memory>
    ensures number { IfOk result (λ n. n ≡ length list.old.items) }
    ensures leaves { OnOk result (HasNumbered schema.now above.now (occurrence.now ∷ [])
        list.old.items list.new.items made.old.items made.new.items) }
{
    let number = list.len() as u64;
    let leaf = leaf_here(alloc, schema, occurrence, above, list.as_slice(), made)?;
    list.push(leaf)?;
    Ok(number)
}

/// Numbers the leaves of a part under changes, which come before those above: a context of its own.
#[inline(never)]
#[cycle(numbered)]
fn numbered_under<'q>(
    alloc: Global,
    schema: &Schema,
    part: &Draft<'q>,
    changes: &Context<'q>,
    above: &Context<'q>,
    list: &mut Vec<Leaf>,
) -> Result<Shape, Memory>
    ensures shape { IfOk result (λ s. tree_of_shape s
        ≡ numbered (length list.old.items) (tree_of_draft part.now)) }
    ensures leaves { OnOk result (HasNumbered schema.now (changes.now ++ above.now)
        (occurrences (tree_of_draft part.now)) list.old.items list.new.items [] []) }
{
    let all = changes.under(alloc, above)?;
    let mut made = Vec::new(alloc);
    numbered(alloc, schema, part, &all, list, &mut made)
}

/// Puts the leaves of the tree under the changes at the end of the list, from left to right, and answers
/// its shape over their places there. Leaves that were made before under the same changes are at hand.
#[cycle(numbered)]
pub fn numbered<'q>(
    alloc: Global,
    schema: &Schema,
    draft: &Draft<'q>,
    above: &Context<'q>,
    list: &mut Vec<Leaf>,
    made: &mut Vec<LeafOfType<'q>>,
) -> Result<Shape, Memory>
    ensures shape { IfOk result (λ s. tree_of_shape s
        ≡ numbered (length list.old.items) (tree_of_draft draft.now)) }
    ensures leaves { OnOk result (HasNumbered schema.now above.now
        (occurrences (tree_of_draft draft.now)) list.old.items list.new.items
        made.old.items made.new.items) }
{
    match draft {
        Draft::Leaf(occurrence) => {
            let number = numbered_leaf(alloc, schema, occurrence, above, list, made)?;
            Ok(Shape::Leaf(number))
        }
        Draft::Chain(parts) => {
            let parts = numbered_parts(alloc, schema, parts, above, list, made)?;
            Ok(Shape::Chain(parts))
        }
        Draft::Either(choices) => {
            let choices = numbered_each(alloc, schema, choices, above, list, made)?;
            Ok(Shape::Either(choices))
        }
        Draft::Plus { tight, part } => {
            let part = numbered(alloc, schema, part, above, list, made)?;
            Ok(Shape::Plus {
                tight: *tight,
                part: Box::new(alloc, part)?,
            })
        }
        Draft::Changed { part, changes } => {
            numbered_under(alloc, schema, part, changes, above, list)
        }
    }
}
