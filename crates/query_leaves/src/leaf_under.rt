//! The leaf of a type under changes. In one context of changes it is made once, and shared from then on.

ghost use Rattle.std.specs.Prelude.{◌≡◌, List, IfOk, IfSome, OnOk};
ghost use Rattle.stream_schema.specs.Types.{Declared};
ghost use Rattle.query_leaves.specs.declared.occurrence.Change.{Change as ChangeData};
ghost use Rattle.query_leaves.specs.Tests.{IsMadeOf};
ghost use Rattle.query_leaves.specs.Changes.{change_all};
ghost use Rattle.query_leaves.specs.Numbering.{occurrence_under, AreMadeUnder};

use crate::Leaf;
use crate::context::Context;
use crate::leaf_of::leaf_of;
use crate::occurrence::Occurrence;
use cer_base::Memory;
use std::alloc::Global;
use stream_schema::Schema;

/// A leaf that was made, and the name of its type.
#[derive(Drop)]
pub struct LeafOfType<'q> {
    pub name: &'q str,
    pub leaf: Leaf,
}

/// The leaf of the type that was made before.
fn made_before<'m>(made: &'m [LeafOfType], name: &str) -> Option<&'m Leaf>
    ensures { IfSome result (λ l. (schema : Declared) (above : List ChangeData)
        → AreMadeUnder schema above made.now
        → IsMadeOf schema (occurrence_under above name.now) l.now) }
{
    for one in made {
        if one.name == name {
            return Some(&one.leaf);
        }
    }
    None
}

/// The same leaf, with a share of its tests.
fn copy_of(leaf: &Leaf) -> Result<Leaf, Memory>
    ensures { IfOk result (λ copy. copy ≡ leaf.now) }
{
    Ok(Leaf {
        ty: leaf.ty,
        tests: leaf.tests.share()?,
        marked: leaf.marked,
    })
}

/// The leaf of the occurrence under the changes, which comes after these leaves.
pub fn leaf_under<'q>(
    alloc: Global,
    schema: &Schema,
    own: &Occurrence<'q>,
    above: &Context<'q>,
    leaves: &[Leaf],
) -> Result<Leaf, Memory>
    ensures { IfOk result (IsMadeOf schema.now (change_all above.now own.now)) }
{
    let mut occurrence = own.copy(alloc)?;
    above.change(&mut occurrence)?;
    leaf_of(alloc, schema, &occurrence, leaves)
}

/// Puts in the leaf of the type under the changes, which comes after these leaves.
fn make<'q>(
    alloc: Global,
    schema: &Schema,
    name: &'q str,
    above: &Context<'q>,
    leaves: &[Leaf],
    made: &mut Vec<LeafOfType<'q>>,
) -> Result<Leaf, Memory>
    ensures leaf { IfOk result (IsMadeOf schema.now (occurrence_under above.now name.now)) }
    ensures kept { OnOk result (AreMadeUnder schema.now above.now made.old.items
        → AreMadeUnder schema.now above.now made.new.items) }
{
    let own = Occurrence::of(alloc, name)?;
    let leaf = leaf_under(alloc, schema, &own, above, leaves)?;
    let copy = copy_of(&leaf)?;
    made.push(LeafOfType { name, leaf: copy })?;
    Ok(leaf)
}

/// The leaf of the type under the changes, which comes after these leaves. Those that were made before
/// under the same changes are at hand.
pub fn leaf_for<'q>(
    alloc: Global,
    schema: &Schema,
    name: &'q str,
    above: &Context<'q>,
    leaves: &[Leaf],
    made: &mut Vec<LeafOfType<'q>>,
) -> Result<Leaf, Memory>
    ensures leaf { AreMadeUnder schema.now above.now made.old.items
        → IfOk result (IsMadeOf schema.now (occurrence_under above.now name.now)) }
    ensures kept { OnOk result (AreMadeUnder schema.now above.now made.old.items
        → AreMadeUnder schema.now above.now made.new.items) }
{
    match made_before(made.as_slice(), name) {
        Some(leaf) => copy_of(leaf),
        None => make(alloc, schema, name, above, leaves, made),
    }
}
