//! The names of the leaves of a formula, from left to right.

ghost use Rattle.std.specs.Prelude.{◌≡◌, ◌++◌, [], ◌∷◌, map, fold, IfOk, OnOk};
ghost use Rattle.std.specs.List.{flat_map};
ghost use Rattle.std.specs.Prelude.{bytes_eq};
ghost use Rattle.cel_terms.specs.Meaning.{with_name, only_names};
ghost use Rattle.cel_lists.specs.Lists.{change};
ghost use Rattle.match_explain.specs.LeafNames.{changed_leaves, copies, leaf_names, leaf_names_listed, leaf_names_linked};

use cel_plain::copies::copy_names;
use cel_plain::postfix::lists;
use cel_terms::{Filter, Formula, Link, Name, Postfix};
use cer_base::{Listed, Memory, Text};
use std::alloc::Global;
use stream_schema::Texts;

/// The one name of a type.
fn alone(alloc: Global, name: &Name) -> Result<Vec<Texts>, Memory>
    ensures { IfOk result (λ leaves. leaves.items ≡ (name.now.text ∷ []) ∷ []) }
{
    let mut names = Vec::new(alloc);
    names.push(Text::copy_of(alloc, name.text.as_str())?)?;
    let mut leaves = Vec::new(alloc);
    leaves.push(Listed::of(names))?;
    Ok(leaves)
}

/// Puts copies of the leaves at the end.
fn add_copies(alloc: Global, into: &mut Vec<Texts>, leaves: &[Texts]) -> Result<(), Memory>
    ensures { OnOk result (into.new.items ≡ into.old.items ++ leaves.now) }
{
    for names in leaves {
        into.push(Listed::of(copy_names(alloc, names.as_slice())?))?;
    }
    Ok(())
}

/// The names with one more, where there is any.
fn with_name(alloc: Global, name: &Name, names: &[Text]) -> Result<Vec<Text>, Memory>
    ensures { IfOk result (λ after. after.items ≡ with_name name.now.text names.now) }
{
    let mut after = Vec::new(alloc);
    if names.is_empty() {
        return Ok(after);
    }
    after.push(Text::copy_of(alloc, name.text.as_str())?)?;
    for other in names {
        after.push(Text::copy_of(alloc, other.as_str())?)?;
    }
    Ok(after)
}

/// Those of the names that are listed.
fn only_names(alloc: Global, listed: &[Name], names: &[Text]) -> Result<Vec<Text>, Memory>
    ensures { IfOk result (λ after. after.items ≡ only_names listed.now names.now) }
{
    let mut after = Vec::new(alloc);
    for name in names {
        if lists(listed, name.as_str()) {
            after.push(Text::copy_of(alloc, name.as_str())?)?;
        }
    }
    Ok(after)
}

/// What the postfix makes of the names of a leaf.
fn changed_names(alloc: Global, postfix: &Postfix, names: &[Text]) -> Result<Vec<Text>, Memory>
    ensures { IfOk result (λ after. after.items ≡ change postfix.now names.now) }
{
    match postfix {
        Postfix::Plus => copy_names(alloc, names),
        Postfix::NextPlus => copy_names(alloc, names),
        Postfix::Named(name) => with_name(alloc, name, names),
        Postfix::Keep(listed) => only_names(alloc, listed.as_slice(), names),
    }
}

/// The leaves after the postfix.
fn changed_leaves(alloc: Global, postfix: &Postfix, leaves: &[Texts]) -> Result<Vec<Texts>, Memory>
    ensures { IfOk result (λ after. after.items ≡ changed_leaves leaves.now postfix.now) }
{
    let mut after = Vec::new(alloc);
    for names in leaves {
        after.push(Listed::of(changed_names(alloc, postfix, names.as_slice())?))?;
    }
    Ok(after)
}

/// The leaves after the postfixes, which apply from the left.
fn after_postfixes(
    alloc: Global,
    leaves: Vec<Texts>,
    postfixes: &[Postfix],
) -> Result<Vec<Texts>, Memory>
    ensures { IfOk result (λ after. after.items ≡ fold changed_leaves leaves.items postfixes.now) }
{
    let mut after = leaves;
    for postfix in postfixes {
        after = changed_leaves(alloc, postfix, after.as_slice())?;
    }
    Ok(after)
}

/// The leaves under one filter after another.
#[cycle(copies)]
fn copies_of_all(alloc: Global, filters: &[Filter], leaves: &[Texts]) -> Result<Vec<Texts>, Memory>
    ensures { IfOk result (λ after. after.items
        ≡ fold (λ ls c. copies c ls) leaves.now filters.now) }
{
    let mut after = Vec::new(alloc);
    add_copies(alloc, &mut after, leaves)?;
    for filter in filters {
        after = copies(alloc, filter, after.as_slice())?;
    }
    Ok(after)
}

/// A copy of the leaves for each filter.
#[cycle(copies)]
fn copies_of_any(alloc: Global, filters: &[Filter], leaves: &[Texts]) -> Result<Vec<Texts>, Memory>
    ensures { IfOk result (λ after. after.items ≡ flat_map (λ c. copies c leaves.now) filters.now) }
{
    let mut after = Vec::new(alloc);
    for filter in filters {
        let more = copies(alloc, filter, leaves)?;
        add_copies(alloc, &mut after, more.as_slice())?;
    }
    Ok(after)
}

/// The leaves under the filter.
#[cycle(copies)]
fn copies(alloc: Global, filter: &Filter, leaves: &[Texts]) -> Result<Vec<Texts>, Memory>
    ensures { IfOk result (λ after. after.items ≡ copies filter.now leaves.now) }
{
    match filter {
        Filter::On(_, _) => {
            let mut after = Vec::new(alloc);
            add_copies(alloc, &mut after, leaves)?;
            Ok(after)
        }
        Filter::All(filters) => copies_of_all(alloc, filters, leaves),
        Filter::Any(filters) => copies_of_any(alloc, filters, leaves),
    }
}

/// The leaves under each of the filters.
fn under_all(alloc: Global, leaves: Vec<Texts>, filters: &[Filter]) -> Result<Vec<Texts>, Memory>
    ensures { IfOk result (λ after. after.items
        ≡ fold (λ ls c. copies c ls) leaves.items filters.now) }
{
    let mut after = leaves;
    for filter in filters {
        after = copies(alloc, filter, after.as_slice())?;
    }
    Ok(after)
}

/// The leaves of each formula.
#[cycle(leaf_names)]
fn of_all(alloc: Global, formulas: &[Formula]) -> Result<Vec<Texts>, Memory>
    ensures { IfOk result (λ leaves. leaves.items ≡ leaf_names_listed formulas.now) }
{
    let mut leaves = Vec::new(alloc);
    for formula in formulas {
        let more = leaf_names(alloc, formula)?;
        add_copies(alloc, &mut leaves, more.as_slice())?;
    }
    Ok(leaves)
}

/// The leaves of a formula, and then those of each link.
#[cycle(leaf_names)]
fn linked(alloc: Global, first: Vec<Texts>, links: &[Link]) -> Result<Vec<Texts>, Memory>
    ensures { IfOk result (λ leaves. leaves.items ≡ first.items ++ leaf_names_linked links.now) }
{
    let mut leaves = first;
    for link in links {
        let more = leaf_names(alloc, &link.next)?;
        add_copies(alloc, &mut leaves, more.as_slice())?;
    }
    Ok(leaves)
}

/// The names of each leaf of the formula.
#[cycle(leaf_names)]
pub fn leaf_names(alloc: Global, formula: &Formula) -> Result<Vec<Texts>, Memory>
    ensures { IfOk result (λ leaves. leaves.items ≡ leaf_names formula.now) }
{
    match formula {
        Formula::Of(name) => alone(alloc, name),
        Formula::Chain(parts) => of_all(alloc, parts),
        Formula::Linked(first, links) => {
            let first = leaf_names(alloc, first)?;
            linked(alloc, first, links)
        }
        Formula::Either(choices) => of_all(alloc, choices),
        Formula::Post(base, postfixes) => {
            let leaves = leaf_names(alloc, base)?;
            after_postfixes(alloc, leaves, postfixes)
        }
        Formula::Under(base, filters) => {
            let leaves = leaf_names(alloc, base)?;
            under_all(alloc, leaves, filters)
        }
    }
}
