//! The faults of a formula, in the order of its tokens, and its names.

ghost use Rattle.std.specs.Prelude.{◌≡◌, ℕ, List, [], ◌∷◌, ◌++◌, map, not, Option, IfOk, OnOk};
ghost use Rattle.std.specs.List.{flat_map};
ghost use Rattle.std.specs.Option.{option_or};
ghost use Rattle.ceql_grammar.specs.declared.faults.QueryError.{QueryError};
ghost use Rattle.ceql_grammar.specs.declared.faults.QueryFault.TheVariants.{NameTaken, UnknownType};
ghost use Rattle.cel_terms.specs.Checked.{names_of, names_after};
ghost use Rattle.ceql_parser.specs.FirstFaults.{first_in, unless_named, FindsFault};
ghost use Rattle.ceql_parser.specs.NameSets.{HaveSameNames, names_of_link};
ghost use Rattle.ceql_parser.specs.TypesAsked.{is_type_name};
ghost use Rattle.ceql_parser.specs.FormulaFaults.{name_fault, filter_fault, postfix_fault, postfixes_fault, formula_fault};
ghost use Rattle.ceql_parser.specs.LinksAndCounts.{link_fault};

use crate::filter_checks::check_filters;
use crate::name_checks::names_known;
use crate::name_sets::NameSet;
use crate::query_types::QueryTypes;
use crate::refusals::{Checked, NameFault, unless_named};
use cel_terms::{Filter, Formula, Link, Name, Postfix};
use ceql_grammar::QueryError;
use cer_base::{Memory, OrMemory};
use std::alloc::Global;

/// The names of what is checked, or its first fault.
pub type NamesOrFault = Result<NameSet, OrMemory<QueryError>>;

/// Answers the fault of a name after AS.
fn check_new(alloc: Global, types: &QueryTypes, name: &Name) -> Checked
    ensures { FindsFault result (unless_named
        (not (is_type_name types.now name.now.text)) NameTaken name.now) }
{
    let taken = types.is_type_name(name.text.as_str());
    unless_named(alloc, !taken, NameFault::NameTaken, name)
}

/// Answers the fault of a type's name.
fn check_type(alloc: Global, types: &QueryTypes, name: &Name) -> Checked
    ensures { FindsFault result (unless_named
        (is_type_name types.now name.now.text) UnknownType name.now) }
{
    let known = types.is_type_name(name.text.as_str());
    unless_named(alloc, known, NameFault::UnknownType, name)
}

#[inline(never)]
fn check_named_type(alloc: Global, types: &QueryTypes, name: &Name) -> NamesOrFault
    ensures told { FindsFault result (unless_named
        (is_type_name types.now name.now.text) UnknownType name.now) }
    ensures names { IfOk result (λ names. HaveSameNames names (name.now.text ∷ [])) }
{
    match check_type(alloc, types, name) {
        Ok(()) => {}
        Err(stop) => return Err(stop),
    }
    let mut names = NameSet::new(alloc);
    match names.add(alloc, name.text.as_str()) {
        Ok(()) => Ok(names),
        Err(Memory) => Err(OrMemory::Memory),
    }
}

/// Adds the name after AS to the names, or answers its fault.
fn add_variable(alloc: Global, types: &QueryTypes, names: &mut NameSet, name: &Name) -> Checked
    ensures told { FindsFault result (unless_named
        (not (is_type_name types.now name.now.text)) NameTaken name.now) }
    ensures names { OnOk result (HaveSameNames names.new (names.old ++ name.now.text ∷ [])) }
{
    match check_new(alloc, types, name) {
        Ok(()) => {}
        Err(stop) => return Err(stop),
    }
    match names.add(alloc, name.text.as_str()) {
        Ok(()) => Ok(()),
        Err(Memory) => Err(OrMemory::Memory),
    }
}

/// Leaves the listed names alone of the names, or answers the fault of the first that is unknown.
fn keep(alloc: Global, names: &mut NameSet, listed: &[Name]) -> Checked
    ensures told { FindsFault result (first_in (name_fault names.old) listed.now) }
    ensures names { OnOk result (HaveSameNames names.new (map (λ n. n.text) listed.now)) }
{
    match names_known(alloc, names, listed) {
        Ok(()) => {}
        Err(stop) => return Err(stop),
    }
    match NameSet::of(alloc, listed) {
        Ok(kept) => {
            *names = kept;
            Ok(())
        }
        Err(Memory) => Err(OrMemory::Memory),
    }
}

/// Changes the names as the postfix does, or answers its first fault.
fn check_postfix(
    alloc: Global,
    types: &QueryTypes,
    names: &mut NameSet,
    postfix: &Postfix,
) -> Checked
    ensures told { FindsFault result (postfix_fault types.now names.old postfix.now) }
    ensures names { OnOk result (HaveSameNames names.new
        (names_after names.old (postfix.now ∷ []))) }
{
    match postfix {
        Postfix::Plus => Ok(()),
        Postfix::NextPlus => Ok(()),
        Postfix::Named(name) => add_variable(alloc, types, names, name),
        Postfix::Keep(listed) => keep(alloc, names, listed.as_slice()),
    }
}

/// The names after the postfixes of a formula that has these names, or the first fault.
#[inline(never)]
fn check_postfixes(
    alloc: Global,
    types: &QueryTypes,
    names: NameSet,
    postfixes: &[Postfix],
) -> NamesOrFault
    ensures told { FindsFault result (postfixes_fault types.now names postfixes.now) }
    ensures names { IfOk result (λ left. HaveSameNames left (names_after names postfixes.now)) }
{
    let mut left = names;
    for postfix in postfixes {
        match check_postfix(alloc, types, &mut left, postfix) {
            Ok(()) => {}
            Err(stop) => return Err(stop),
        }
    }
    Ok(left)
}

/// Answers the first fault of filters of a formula with these names, and hands the names back.
#[inline(never)]
fn check_filtered(
    alloc: Global,
    types: &QueryTypes,
    names: NameSet,
    filters: &[Filter],
) -> NamesOrFault
    ensures told { FindsFault result (first_in (filter_fault types.now names) filters.now) }
    ensures names { IfOk result (λ same. same ≡ names) }
{
    match check_filters(alloc, types, filters, &names) {
        Ok(()) => Ok(names),
        Err(stop) => Err(stop),
    }
}

/// Adds the formula's names, or answers its first fault.
#[cycle(formulas)]
fn add_formula(alloc: Global, types: &QueryTypes, names: &mut NameSet, formula: &Formula) -> Checked
    ensures told { FindsFault result (formula_fault types.now formula.now) }
    ensures names { OnOk result (HaveSameNames names.new (names.old ++ names_of formula.now)) }
{
    match check_formula(alloc, types, formula) {
        Ok(more) => match names.join(alloc, more) {
            Ok(()) => Ok(()),
            Err(Memory) => Err(OrMemory::Memory),
        },
        Err(stop) => Err(stop),
    }
}

#[cycle(formulas)]
fn check_formulas(alloc: Global, types: &QueryTypes, formulas: &[Formula]) -> NamesOrFault
    ensures told { FindsFault result (first_in (formula_fault types.now) formulas.now) }
    ensures names { IfOk result (λ names. HaveSameNames names (flat_map names_of formulas.now)) }
{
    let mut names = NameSet::new(alloc);
    for formula in formulas {
        match add_formula(alloc, types, &mut names, formula) {
            Ok(()) => {}
            Err(stop) => return Err(stop),
        }
    }
    Ok(names)
}

/// The names that stand before links and those of the links, or the links' first fault.
#[cycle(formulas)]
fn check_links(alloc: Global, types: &QueryTypes, before: NameSet, links: &[Link]) -> NamesOrFault
    ensures told { FindsFault result (first_in (link_fault types.now) links.now) }
    ensures names { IfOk result (λ names.
        HaveSameNames names (before ++ flat_map names_of_link links.now)) }
{
    let mut names = before;
    for link in links {
        match add_formula(alloc, types, &mut names, &link.next) {
            Ok(()) => {}
            Err(stop) => return Err(stop),
        }
    }
    Ok(names)
}

/// The names of a formula and of the links after it, or its first fault or theirs, from what the check
/// of the formula answered. This is a call of its own so that a nested formula takes no stack for it.
#[inline(never)]
#[cycle(formulas)]
fn check_linked(
    alloc: Global,
    types: &QueryTypes,
    first: NamesOrFault,
    links: &[Link],
) -> NamesOrFault
    ensures told { (fault : Option QueryError) → FindsFault first fault → FindsFault result
        (option_or fault (first_in (link_fault types.now) links.now)) }
    ensures names { (before : List (List ℕ)) → IfOk first (λ names. HaveSameNames names before)
        → IfOk result (λ names. HaveSameNames names (before ++ flat_map names_of_link links.now)) }
{
    match first {
        Ok(names) => check_links(alloc, types, names, links),
        Err(stop) => Err(stop),
    }
}

/// The names of a formula after its postfixes, or its first fault or theirs, in a call of its own
/// likewise.
#[inline(never)]
#[cycle(formulas)]
fn check_changed(
    alloc: Global,
    types: &QueryTypes,
    base: &Formula,
    postfixes: &[Postfix],
) -> NamesOrFault
    ensures told { FindsFault result (option_or (formula_fault types.now base.now)
        (postfixes_fault types.now (names_of base.now) postfixes.now)) }
    ensures names { IfOk result (λ names.
        HaveSameNames names (names_after (names_of base.now) postfixes.now)) }
{
    match check_formula(alloc, types, base) {
        Ok(names) => check_postfixes(alloc, types, names, postfixes),
        Err(stop) => Err(stop),
    }
}

/// The names of a formula under filters, or its first fault or theirs, in a call of its own likewise.
#[inline(never)]
#[cycle(formulas)]
fn check_under(
    alloc: Global,
    types: &QueryTypes,
    base: &Formula,
    filters: &[Filter],
) -> NamesOrFault
    ensures told { FindsFault result (option_or (formula_fault types.now base.now)
        (first_in (filter_fault types.now (names_of base.now)) filters.now)) }
    ensures names { IfOk result (λ names. HaveSameNames names (names_of base.now)) }
{
    match check_formula(alloc, types, base) {
        Ok(names) => check_filtered(alloc, types, names, filters),
        Err(stop) => Err(stop),
    }
}

/// The names of the formula, read with the types of these numbers, or its first fault.
#[cycle(formulas)]
pub fn check_formula(alloc: Global, types: &QueryTypes, formula: &Formula) -> NamesOrFault
    ensures told { FindsFault result (formula_fault types.now formula.now) }
    ensures names { IfOk result (λ names. HaveSameNames names (names_of formula.now)) }
{
    match formula {
        Formula::Of(name) => check_named_type(alloc, types, name),
        Formula::Chain(parts) => check_formulas(alloc, types, parts),
        Formula::Linked(first, links) => {
            let first = check_formula(alloc, types, first);
            check_linked(alloc, types, first, links)
        }
        Formula::Either(choices) => check_formulas(alloc, types, choices),
        Formula::Post(base, postfixes) => check_changed(alloc, types, base, postfixes),
        Formula::Under(base, filters) => check_under(alloc, types, base, filters),
    }
}
