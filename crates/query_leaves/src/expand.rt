//! The tree of leaves of a formula: filters and names are carried to the types that they speak of.

ghost use Rattle.std.specs.Prelude.{◌≡◌, ◌∷◌, [], ◌++◌, false, IfOk, OnOk, fold, map};
ghost use Rattle.query_leaves.specs.LeafTree.{LeafTree, chain_of, choice_of, linked_to};
ghost use Rattle.query_leaves.specs.Expand.{Occurrence as Occurs, filtered, postfixed, expand, tree_of};
ghost use Rattle.query_leaves.specs.Drafts.{tree_of_draft, draft_part, part_of, link_of};

use crate::draft::{Draft, DraftPart, change_leaves, changed, copied, one_or_more};
use crate::occurrence::{Change, Occurrence};
use cel_terms::{Filter, Formula, Link, Postfix, Query};
use cer_base::Memory;
use std::alloc::Global;

/// Puts the tree under the filters, one after another, in a call of its own so that other filters take
/// no stack for it.
#[inline(never)]
#[cycle(put_under)]
fn put_under_all<'q>(
    alloc: Global,
    filters: &'q [Filter],
    draft: &mut Draft<'q>,
) -> Result<(), Memory>
    ensures { OnOk result (tree_of_draft draft.new
        ≡ fold (λ t c. filtered c t) (tree_of_draft draft.old) filters.now) }
{
    for filter in filters {
        put_under(alloc, filter, draft)?;
    }
    Ok(())
}

/// Puts in a copy of the tree under the filter, in a call of its own likewise.
#[inline(never)]
#[cycle(put_under)]
fn push_under<'q>(
    alloc: Global,
    filter: &'q Filter,
    draft: &Draft<'q>,
    copies: &mut Vec<Draft<'q>>,
) -> Result<(), Memory>
    ensures { OnOk result (map tree_of_draft copies.new.items
        ≡ map tree_of_draft copies.old.items ++ filtered filter.now (tree_of_draft draft.now) ∷ []) }
{
    let mut copy = copied(alloc, draft)?;
    put_under(alloc, filter, &mut copy)?;
    copies.push(copy)?;
    Ok(())
}

/// A copy of the tree under each filter.
#[cycle(put_under)]
fn copies_under<'q>(
    alloc: Global,
    filters: &'q [Filter],
    draft: &Draft<'q>,
) -> Result<Vec<Draft<'q>>, Memory>
    ensures { IfOk result (λ copies. map tree_of_draft copies.items
        ≡ map (λ c. filtered c (tree_of_draft draft.now)) filters.now) }
{
    let mut copies = Vec::new(alloc);
    for filter in filters {
        push_under(alloc, filter, draft, &mut copies)?;
    }
    Ok(copies)
}

/// Puts a choice between a copy for each filter in the place of the tree, in a call of its own likewise.
#[inline(never)]
#[cycle(put_under)]
fn put_under_any<'q>(
    alloc: Global,
    filters: &'q [Filter],
    draft: &mut Draft<'q>,
) -> Result<(), Memory>
    ensures { OnOk result (tree_of_draft draft.new
        ≡ choice_of (map (λ c. filtered c (tree_of_draft draft.old)) filters.now)) }
{
    let copies = copies_under(alloc, filters, draft)?;
    *draft = Draft::Either(copies);
    Ok(())
}

/// Puts the tree under the filter, in its place. Where memory runs out, nothing is said of what is left.
#[cycle(put_under)]
fn put_under<'q>(alloc: Global, filter: &'q Filter, draft: &mut Draft<'q>) -> Result<(), Memory>
    ensures { OnOk result (tree_of_draft draft.new
        ≡ filtered filter.now (tree_of_draft draft.old)) }
{
    match filter {
        Filter::On(name, pred) => change_leaves(alloc, draft, Change::Test(name, pred)),
        Filter::All(filters) => put_under_all(alloc, filters, draft),
        Filter::Any(filters) => put_under_any(alloc, filters, draft),
    }
}

/// The tree under each of the filters.
#[inline(never)]
fn under_all<'q>(
    alloc: Global,
    filters: &'q [Filter],
    draft: Draft<'q>,
) -> Result<Draft<'q>, Memory>
    ensures { IfOk result (λ after. tree_of_draft after
        ≡ fold (λ t c. filtered c t) (tree_of_draft draft.entry) filters.now) }
{
    let mut after = draft;
    put_under_all(alloc, filters, &mut after)?;
    Ok(after)
}

fn postfixed<'q>(alloc: Global, postfix: &'q Postfix, draft: Draft<'q>) -> Result<Draft<'q>, Memory>
    ensures { IfOk result (λ after. tree_of_draft after
        ≡ postfixed postfix.now (tree_of_draft draft.entry)) }
{
    match postfix {
        Postfix::Plus => one_or_more(alloc, false, draft),
        Postfix::NextPlus => one_or_more(alloc, true, draft),
        Postfix::Named(name) => changed(alloc, draft, Change::Named(name)),
        Postfix::Keep(names) => changed(alloc, draft, Change::Keep(names.as_slice())),
    }
}

/// The tree with the postfixes, which apply from the left.
#[inline(never)]
fn postfixed_by_all<'q>(
    alloc: Global,
    postfixes: &'q [Postfix],
    draft: Draft<'q>,
) -> Result<Draft<'q>, Memory>
    ensures { IfOk result (λ after. tree_of_draft after
        ≡ fold (λ t p. postfixed p t) (tree_of_draft draft.entry) postfixes.now) }
{
    let mut after = draft;
    for postfix in postfixes {
        after = postfixed(alloc, postfix, after)?;
    }
    Ok(after)
}

/// The trees of the formulas as parts of a chain, none of them tight.
#[cycle(expand)]
fn chained<'q>(alloc: Global, formulas: &'q [Formula]) -> Result<Vec<DraftPart<'q>>, Memory>
    ensures { IfOk result (λ parts. map draft_part parts.items ≡ map part_of formulas.now) }
{
    let mut parts = Vec::new(alloc);
    for formula in formulas {
        let part = expand(alloc, formula)?;
        parts.push(DraftPart { tight: false, part })?;
    }
    Ok(parts)
}

/// The trees of the links as parts of a chain, after what stands before them.
#[cycle(expand)]
fn linked<'q>(
    alloc: Global,
    links: &'q [Link],
    first: Draft<'q>,
) -> Result<Vec<DraftPart<'q>>, Memory>
    ensures { IfOk result (λ parts. map draft_part parts.items
        ≡ (false, tree_of_draft first.entry) ∷ map link_of links.now) }
{
    let mut parts = Vec::new(alloc);
    parts.push(DraftPart {
        tight: false,
        part: first,
    })?;
    for link in links {
        let part = expand(alloc, &link.next)?;
        parts.push(DraftPart {
            tight: link.tight,
            part,
        })?;
    }
    Ok(parts)
}

/// The trees of the formulas.
#[cycle(expand)]
fn expanded_each<'q>(alloc: Global, formulas: &'q [Formula]) -> Result<Vec<Draft<'q>>, Memory>
    ensures { IfOk result (λ drafts. map tree_of_draft drafts.items ≡ map expand formulas.now) }
{
    let mut drafts = Vec::new(alloc);
    for formula in formulas {
        drafts.push(expand(alloc, formula)?)?;
    }
    Ok(drafts)
}

/// A chain of the formulas. This and the calls after it stand apart so that a formula takes stack for
/// its own kind alone while what nests in it is expanded.
#[inline(never)]
#[cycle(expand)]
fn chain<'q>(alloc: Global, formulas: &'q [Formula]) -> Result<Draft<'q>, Memory>
    ensures { IfOk result (λ draft. tree_of_draft draft ≡ chain_of (map part_of formulas.now)) }
{
    Ok(Draft::Chain(chained(alloc, formulas)?))
}

/// A chain of the tree, where there was memory for it, and the links after it.
#[inline(never)]
#[cycle(expand)]
fn linked_chain<'q>(
    alloc: Global,
    links: &'q [Link],
    first: Result<Draft<'q>, Memory>,
) -> Result<Draft<'q>, Memory>
    ensures { (before : LeafTree Occurs) → IfOk first.entry (λ draft. tree_of_draft draft ≡ before)
        → IfOk result (λ draft. tree_of_draft draft ≡ linked_to before (map link_of links.now)) }
{
    let first = first?;
    Ok(Draft::Chain(linked(alloc, links, first)?))
}

/// A choice between the formulas.
#[inline(never)]
#[cycle(expand)]
fn choice<'q>(alloc: Global, formulas: &'q [Formula]) -> Result<Draft<'q>, Memory>
    ensures { IfOk result (λ draft. tree_of_draft draft ≡ choice_of (map expand formulas.now)) }
{
    Ok(Draft::Either(expanded_each(alloc, formulas)?))
}

/// The tree of the formula with the postfixes.
#[inline(never)]
#[cycle(expand)]
fn changed_base<'q>(
    alloc: Global,
    base: &'q Formula,
    postfixes: &'q [Postfix],
) -> Result<Draft<'q>, Memory>
    ensures { IfOk result (λ draft. tree_of_draft draft
        ≡ fold (λ t p. postfixed p t) (expand base.now) postfixes.now) }
{
    let draft = expand(alloc, base)?;
    postfixed_by_all(alloc, postfixes, draft)
}

/// The tree of the formula under the filters.
#[inline(never)]
#[cycle(expand)]
fn filtered_base<'q>(
    alloc: Global,
    base: &'q Formula,
    filters: &'q [Filter],
) -> Result<Draft<'q>, Memory>
    ensures { IfOk result (λ draft. tree_of_draft draft
        ≡ fold (λ t c. filtered c t) (expand base.now) filters.now) }
{
    let draft = expand(alloc, base)?;
    under_all(alloc, filters, draft)
}

/// The tree of the formula.
#[cycle(expand)]
fn expand<'q>(alloc: Global, formula: &'q Formula) -> Result<Draft<'q>, Memory>
    ensures { IfOk result (λ draft. tree_of_draft draft ≡ expand formula.now) }
{
    match formula {
        Formula::Of(name) => Ok(Draft::Leaf(Occurrence::of(alloc, name.text.as_str())?)),
        Formula::Chain(parts) => chain(alloc, parts),
        Formula::Linked(first, links) => linked_chain(alloc, links, expand(alloc, first)),
        Formula::Either(choices) => choice(alloc, choices),
        Formula::Post(base, postfixes) => changed_base(alloc, base, postfixes),
        Formula::Under(base, filters) => filtered_base(alloc, base, filters),
    }
}

/// The query's tree of leaves: that of its formula, with the names that SELECT keeps.
pub fn tree_of<'q>(alloc: Global, query: &'q Query) -> Result<Draft<'q>, Memory>
    ensures { IfOk result (λ draft. tree_of_draft draft ≡ tree_of query.now) }
{
    let draft = expand(alloc, &query.formula)?;
    match &query.select {
        None => Ok(draft),
        Some(names) => changed(alloc, draft, Change::Keep(names.as_slice())),
    }
}
