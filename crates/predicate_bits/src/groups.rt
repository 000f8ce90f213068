//! The leaves of a query by their types.

ghost use Rattle.std.specs.Prelude.{◌≡◌, ◌+◌, ◌<◌, [], length, All, IfOk, OnOk, slice_get};
ghost use Rattle.predicate_bits.specs.Groups.{AreGrouped, HasOneMore};

use cer_base::Memory;
use query_leaves::Leaf;
use std::alloc::Global;
use stream_schema::TypeId;

/// The number after that of the type. Where there is none, no memory has a list for each type.
fn after(ty: TypeId) -> Result<usize, Memory>
    ensures { IfOk result (λ next. next ≡ ty + 1) }
{
    match (ty as usize).checked_add(1) {
        Some(next) => Ok(next),
        None => Err(Memory),
    }
}

/// A number above that of each leaf's type.
fn types_above(list: &[Leaf]) -> Result<usize, Memory>
    ensures { IfOk result (λ count. All (λ l. l.ty < count) list.now) }
{
    let mut count: usize = 0;
    for leaf in list {
        count = count.max(after(leaf.ty)?);
    }
    Ok(count)
}

/// So many lists with nothing in them.
fn blank(alloc: Global, count: usize) -> Result<Vec<Vec<usize>>, Memory>
    ensures count { IfOk result (λ groups. length groups.items ≡ count) }
    ensures empty { IfOk result (λ groups. All (λ v. v.items ≡ []) groups.items) }
{
    let mut groups = Vec::with_capacity(alloc, count)?;
    for _ty in 0..count {
        groups.push(Vec::new(alloc))?;
    }
    Ok(groups)
}

/// Puts the number at the end of the type's list.
fn add(groups: &mut Vec<Vec<usize>>, ty: usize, number: usize) -> Result<(), Memory>
    requires { ty < length groups.old.items }
    ensures { OnOk result (HasOneMore groups.old.items groups.new.items ty number) }
{
    groups[ty].push(number)?;
    Ok(())
}

/// The numbers of the leaves of each type, ascending: a list for each type number up to the greatest.
pub fn grouped(alloc: Global, list: &[Leaf]) -> Result<Vec<Vec<usize>>, Memory>
    ensures { IfOk result (λ groups. AreGrouped list.now (slice_get groups.items)) }
{
    let mut groups = blank(alloc, types_above(list)?)?;
    for (k, leaf) in list.iter().enumerate() {
        add(&mut groups, leaf.ty as usize, k)?;
    }
    Ok(groups)
}
