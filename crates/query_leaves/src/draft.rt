//! The tree of occurrences while a formula is expanded.

ghost use Rattle.std.specs.Prelude.{◌≡◌, IfOk, OnOk, map, ◌++◌, ◌∷◌, []};
ghost use Rattle.query_leaves.specs.LeafTree.{plus, chain_of};
ghost use Rattle.query_leaves.specs.Expand.{at_leaves, one_or_more};
ghost use Rattle.query_leaves.specs.Changes.{change_leaf, change_all};
ghost use Rattle.query_leaves.specs.Drafts.{tree_of_draft, draft_part};

use crate::context::Context;
use crate::occurrence::{Change, Occurrence};
use cer_base::Memory;
use std::alloc::Global;
use std::mem;

/// A tree of occurrences. It nests as the formula and its filters do: chains and choices are lists. What
/// changes the leaves of a part stands above it once, for all of them.
#[derive(Drop, Debug)]
#[cycle(draft)]
pub enum Draft<'q> {
    Leaf(Occurrence<'q>),
    /// One part after another; where there is none it reads nothing.
    Chain(Vec<DraftPart<'q>>),
    /// One of them; where there is none it reads nothing.
    Either(Vec<Draft<'q>>),
    Plus {
        tight: bool,
        part: Box<Draft<'q>>,
    },
    /// The part with the changes made at each of its leaves, one after another.
    Changed {
        part: Box<Draft<'q>>,
        changes: Context<'q>,
    },
}

/// A part of a chain. Where tight, no event of the substream lies between it and the part before;
/// of the first part this says nothing.
#[derive(Drop, Debug)]
#[cycle(draft)]
pub struct DraftPart<'q> {
    pub tight: bool,
    pub part: Draft<'q>,
}

fn plus<'q>(alloc: Global, tight: bool, part: Draft<'q>) -> Result<Draft<'q>, Memory>
    ensures { IfOk result (λ some. tree_of_draft some ≡ plus tight (tree_of_draft part.entry)) }
{
    Ok(Draft::Plus {
        tight,
        part: Box::new(alloc, part)?,
    })
}

/// The tree under the changes.
fn with_changes<'q>(
    alloc: Global,
    part: Draft<'q>,
    changes: Context<'q>,
) -> Result<Draft<'q>, Memory>
    ensures { IfOk result (λ after. tree_of_draft after
        ≡ at_leaves (change_all changes.entry) (tree_of_draft part.entry)) }
{
    Ok(Draft::Changed {
        part: Box::new(alloc, part)?,
        changes,
    })
}

/// One or more of the chain. A chain of one part is that part.
#[cycle(one_or_more)]
fn one_or_more_in_turn<'q>(
    alloc: Global,
    tight: bool,
    parts: Vec<DraftPart<'q>>,
) -> Result<Draft<'q>, Memory>
    ensures { IfOk result (λ some. tree_of_draft some
        ≡ one_or_more tight (chain_of (map draft_part parts.entry.items))) }
{
    if parts.len() != 1 {
        return plus(alloc, tight, Draft::Chain(parts));
    }
    let mut parts = parts;
    match parts.pop() {
        Some(only) => one_or_more(alloc, tight, only.part),
        None => unreachable!(),
    }
}

/// One or more of the tree. One that repeats already repeats no further, and is tight where both are;
/// what is changed repeats below its changes.
#[cycle(one_or_more)]
pub fn one_or_more<'q>(alloc: Global, tight: bool, part: Draft<'q>) -> Result<Draft<'q>, Memory>
    ensures { IfOk result (λ some. tree_of_draft some
        ≡ one_or_more tight (tree_of_draft part.entry)) }
{
    match part {
        Draft::Plus { tight: inner, part } => Ok(Draft::Plus {
            tight: tight && inner,
            part,
        }),
        Draft::Chain(parts) => one_or_more_in_turn(alloc, tight, parts),
        Draft::Either(choices) => plus(alloc, tight, Draft::Either(choices)),
        Draft::Leaf(occurrence) => plus(alloc, tight, Draft::Leaf(occurrence)),
        Draft::Changed { part, changes } => {
            let some = one_or_more(alloc, tight, Box::into_inner(part))?;
            with_changes(alloc, some, changes)
        }
    }
}

/// The tree under the change.
fn under_one<'q>(alloc: Global, part: Draft<'q>, change: Change<'q>) -> Result<Draft<'q>, Memory>
    ensures { IfOk result (λ after. tree_of_draft after
        ≡ at_leaves (change_leaf change.entry) (tree_of_draft part.entry)) }
{
    let none = Context::empty(alloc);
    with_changes(alloc, part, none.with(change)?)
}

/// The tree with the change made at each leaf. Where it is not a leaf the change stands above it, behind
/// those that do so already.
pub fn changed<'q>(alloc: Global, draft: Draft<'q>, change: Change<'q>) -> Result<Draft<'q>, Memory>
    ensures { IfOk result (λ after. tree_of_draft after
        ≡ at_leaves (change_leaf change.entry) (tree_of_draft draft.entry)) }
{
    match draft {
        Draft::Changed { part, changes } => Ok(Draft::Changed {
            part,
            changes: changes.with(change)?,
        }),
        Draft::Leaf(occurrence) => Ok(Draft::Leaf(occurrence.changed(&change)?)),
        Draft::Chain(parts) => under_one(alloc, Draft::Chain(parts), change),
        Draft::Either(choices) => under_one(alloc, Draft::Either(choices), change),
        Draft::Plus { tight, part } => under_one(alloc, Draft::Plus { tight, part }, change),
    }
}

/// Makes the change at each leaf. Where memory runs out, nothing is said of what is left.
#[inline(never)]
pub fn change_leaves<'q>(
    alloc: Global,
    draft: &mut Draft<'q>,
    change: Change<'q>,
) -> Result<(), Memory>
    ensures { OnOk result (tree_of_draft draft.new
        ≡ at_leaves (change_leaf change.entry) (tree_of_draft draft.old)) }
{
    let taken = mem::replace(draft, Draft::Either(Vec::new(alloc)));
    *draft = changed(alloc, taken, change)?;
    Ok(())
}

/// Parts of their own that equal those given.
#[cycle(copied)]
fn copied_parts<'q>(alloc: Global, parts: &[DraftPart<'q>]) -> Result<Vec<DraftPart<'q>>, Memory>
    ensures { IfOk result (λ copies. map draft_part copies.items ≡ map draft_part parts.now) }
{
    let mut copies = Vec::new(alloc);
    for part in parts {
        let copy = copied(alloc, &part.part)?;
        copies.push(DraftPart {
            tight: part.tight,
            part: copy,
        })?;
    }
    Ok(copies)
}

/// Trees of their own that equal those given.
#[cycle(copied)]
fn copied_each<'q>(alloc: Global, drafts: &[Draft<'q>]) -> Result<Vec<Draft<'q>>, Memory>
    ensures { IfOk result
        (λ copies. map tree_of_draft copies.items ≡ map tree_of_draft drafts.now) }
{
    let mut copies = Vec::new(alloc);
    for draft in drafts {
        copies.push(copied(alloc, draft)?)?;
    }
    Ok(copies)
}

/// A tree of its own that equals the one given.
#[cycle(copied)]
pub fn copied<'q>(alloc: Global, draft: &Draft<'q>) -> Result<Draft<'q>, Memory>
    ensures { IfOk result (λ copy. tree_of_draft copy ≡ tree_of_draft draft.now) }
{
    match draft {
        Draft::Leaf(occurrence) => Ok(Draft::Leaf(occurrence.copy(alloc)?)),
        Draft::Chain(parts) => Ok(Draft::Chain(copied_parts(alloc, parts)?)),
        Draft::Either(choices) => Ok(Draft::Either(copied_each(alloc, choices)?)),
        Draft::Plus { tight, part } => plus(alloc, *tight, copied(alloc, part)?),
        Draft::Changed { part, changes } => {
            let part = copied(alloc, part)?;
            with_changes(alloc, part, changes.copy(alloc)?)
        }
    }
}
