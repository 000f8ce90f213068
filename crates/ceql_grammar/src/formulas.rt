//! Formulas: names with postfixes, sequences, alternatives and filters.
//!
//! What is read is put behind a list, as filters are.

ghost use Rattle.ceql_grammar.specs.ReadResults.{MayRead, Reads, ReadsBehind, ReadsOnto, SkipsTo};
ghost use Rattle.ceql_grammar.specs.MemberLists.{any_formula_of};
ghost use Rattle.ceql_grammar.specs.PartlyRead.{with_front};
ghost use Rattle.ceql_grammar.specs.Formulas.{chain_tree, is_link, post_of, under_of};
ghost use Rattle.ceql_grammar.specs.RuleReaders.{base, chain_step, either_step, formula, is_postfix, is_tight, more_chains, more_filters, more_links, name, post_step, postfix, postfixes, parts_tree, word_postfix};
ghost use Rattle.ceql_grammar.specs.RuleForms.{map_read, first_token, starts};
ghost use Rattle.ceql_grammar.specs.Trees.{filter_tree, formula_tree, of_type};
ghost use Rattle.ceql_grammar.specs.LinkViews.{link_view, next_of, tight_of};
ghost use Rattle.std.specs.List.{list_any};
ghost use Rattle.std.specs.Prelude.{◌≡◌, ◌<◌, ◌≤◌, ◌∷◌, ◌++◌, [], IfOk, IfSome, OnOk, length, map};

use crate::filters::filters;
use crate::names::bracketed_names;
use crate::tokens::{Read, Rest, expect, is, name, skip};
use cel_terms::{Filter, Formula, Link, Postfix};
use ceql_lexer::Token;
use cer_base::Memory;
use std::alloc::Global;

/// AS with a name, or KEEP with names in brackets.
#[tactic(auto, unfolding(crate::specs::RuleReaders::word_postfix))]
fn word_postfix<'a>(alloc: Global, tokens: &'a [Token]) -> Read<'a, Postfix>
    ensures { Reads (λ p. p) tokens.now result (word_postfix tokens.now) }
{
    match skip(tokens, b"AS") {
        Some(later) => {
            let (name, rest) = name(alloc, later)?;
            Ok((Postfix::Named(name), rest))
        }
        None => {
            let later = expect(tokens, b"KEEP")?;
            let (names, rest) = bracketed_names(alloc, later)?;
            Ok((Postfix::Keep(names), rest))
        }
    }
}

/// A postfix.
#[tactic(auto, unfolding(crate::specs::RuleReaders::postfix))]
fn postfix<'a>(alloc: Global, tokens: &'a [Token]) -> Read<'a, Postfix>
    ensures { Reads (λ p. p) tokens.now result (postfix tokens.now) }
{
    if let Some(rest) = skip(tokens, b"+") {
        return Ok((Postfix::Plus, rest));
    }
    if let Some(rest) = skip(tokens, b":+") {
        return Ok((Postfix::NextPlus, rest));
    }
    word_postfix(alloc, tokens)
}

/// Whether a postfix begins here.
fn begins_postfix(tokens: &[Token]) -> bool
    ensures { result ≡ starts is_postfix tokens.now }
{
    match tokens.split_first() {
        Some((first, _)) => {
            is(first, b"+") || is(first, b":+") || is(first, b"AS") || is(first, b"KEEP")
        }
        None => false,
    }
}

/// Postfixes, of which there may be none.
fn postfixes<'a>(alloc: Global, tokens: &'a [Token]) -> Read<'a, Vec<Postfix>>
    ensures { MayRead (λ v. v.items) tokens.now result (postfixes tokens.now) }
{
    let mut postfixes = Vec::new(alloc);
    let mut rest = tokens;
    while begins_postfix(rest) {
        let (next, behind_next) = postfix(alloc, rest)?;
        postfixes.push(next)?;
        rest = behind_next;
    }
    Ok((postfixes, rest))
}

/// The formula with its postfixes, or the formula alone where it has none.
fn post_of(alloc: Global, base: Formula, postfixes: Vec<Postfix>) -> Result<Formula, Memory>
    ensures { IfOk result (λ f. formula_tree f ≡ post_of (formula_tree base) postfixes.items) }
{
    if postfixes.is_empty() {
        Ok(base)
    } else {
        Ok(Formula::Post(Box::new(alloc, base)?, postfixes))
    }
}

/// The formula under its filters, or the formula alone where it has none.
fn under_of(alloc: Global, base: Formula, filters: Vec<Filter>) -> Result<Formula, Memory>
    ensures { IfOk result (λ f. formula_tree f
        ≡ under_of (formula_tree base) (map filter_tree filters.items)) }
{
    if filters.is_empty() {
        Ok(base)
    } else {
        Ok(Formula::Under(Box::new(alloc, base)?, filters))
    }
}

/// The only one of the formulas, or all of them joined by OR.
fn any_formula_of(members: Vec<Formula>) -> Formula
    requires { 0 < length members.items }
    ensures { formula_tree result ≡ any_formula_of (map formula_tree members.items) }
{
    if members.len() != 1 {
        return Formula::Either(members);
    }
    let mut members = members;
    match members.pop() {
        Some(only) => only,
        None => Formula::Either(members),
    }
}

/// The formula and those of the links, in one list.
fn untied(alloc: Global, first: Formula, links: Vec<Link>) -> Result<Vec<Formula>, Memory>
    ensures { IfOk result (λ v. v.items ≡ first ∷ map next_of links.items) }
{
    let mut members = Vec::new(alloc);
    members.push(first)?;
    for link in links {
        members.push(link.next)?;
    }
    Ok(members)
}

/// Whether one of the links is tight.
fn has_tight(links: &[Link]) -> bool
    ensures { result ≡ list_any tight_of links.now }
{
    links.iter().any(|link| link.tight)
}

/// The formula and those that follow it: linked where one follows tightly, else a chain; the formula
/// alone where none follows.
fn chain_tree(alloc: Global, first: Formula, links: Vec<Link>) -> Result<Formula, Memory>
    ensures { IfOk result (λ f. formula_tree f
        ≡ chain_tree (formula_tree first) (map link_view links.items)) }
{
    if links.is_empty() {
        Ok(first)
    } else if has_tight(links.as_slice()) {
        Ok(Formula::Linked(Box::new(alloc, first)?, links))
    } else {
        Ok(Formula::Chain(untied(alloc, first, links)?))
    }
}

/// Whether the `;` or `:` at the front is tight, and the tokens after it.
fn link_sign<'a>(tokens: &'a [Token]) -> Option<(bool, &'a [Token])>
    ensures value { SkipsTo result (first_token is_link is_tight tokens.now) }
    ensures shorter { IfSome result (λ p. length p.1.now < length tokens.now) }
{
    if let Some(rest) = skip(tokens, b";") {
        return Some((false, rest));
    }
    match skip(tokens, b":") {
        Some(rest) => Some((true, rest)),
        None => None,
    }
}

/// The name of a type, put behind the formulas.
#[inline(never)]
fn add_type<'a>(alloc: Global, formulas: &mut Vec<Formula>, tokens: &'a [Token]) -> Rest<'a>
    ensures value { ReadsBehind formula_tree formulas.old.items formulas.new.items result
        (map_read of_type name tokens.now) }
    ensures shorter { IfOk result (λ rest. length rest.now < length tokens.now) }
{
    let (name, rest) = name(alloc, tokens)?;
    formulas.push(Formula::Of(name))?;
    Ok(rest)
}

/// The only one of the bases with the postfixes that are read, put behind the formulas.
#[inline(never)]
fn add_post<'a>(
    alloc: Global,
    formulas: &mut Vec<Formula>,
    bases: Vec<Formula>,
    tokens: &'a [Token],
) -> Rest<'a>
    requires { 0 < length bases.items }
    ensures value { ReadsBehind formula_tree formulas.old.items formulas.new.items result
        (map_read (post_of (any_formula_of (map formula_tree bases.items))) postfixes tokens.now) }
    ensures no_longer { IfOk result (λ rest. length rest.now ≤ length tokens.now) }
{
    let (postfixes, rest) = postfixes(alloc, tokens)?;
    formulas.push(post_of(alloc, any_formula_of(bases), postfixes)?)?;
    Ok(rest)
}

/// Puts the link of the only one of the formulas behind the links.
#[inline(never)]
fn add_link(links: &mut Vec<Link>, tight: bool, nexts: Vec<Formula>) -> Result<(), Memory>
    requires { 0 < length nexts.items }
    ensures { OnOk result (map link_view links.new.items
        ≡ map link_view links.old.items ++ (tight, any_formula_of (map formula_tree nexts.items)) ∷ []) }
{
    let next = any_formula_of(nexts);
    Ok(links.push(Link { tight, next })?)
}

/// Puts the only one of the first formulas, with those that follow it, behind the formulas.
#[inline(never)]
fn add_chain(
    alloc: Global,
    formulas: &mut Vec<Formula>,
    firsts: Vec<Formula>,
    links: Vec<Link>,
) -> Result<(), Memory>
    requires { 0 < length firsts.items }
    ensures { OnOk result (map formula_tree formulas.new.items
        ≡ map formula_tree formulas.old.items
        ++ chain_tree (any_formula_of (map formula_tree firsts.items)) (map link_view links.items) ∷ []) }
{
    Ok(formulas.push(chain_tree(alloc, any_formula_of(firsts), links)?)?)
}

/// Puts the only one of the members, or all of them joined by OR, behind the formulas.
#[inline(never)]
fn add_any(formulas: &mut Vec<Formula>, members: Vec<Formula>) -> Result<(), Memory>
    requires { 0 < length members.items }
    ensures { OnOk result (map formula_tree formulas.new.items
        ≡ map formula_tree formulas.old.items ++ any_formula_of (map formula_tree members.items) ∷ []) }
{
    Ok(formulas.push(any_formula_of(members))?)
}

/// The only one of the bases under the filters that are read, put behind the formulas.
#[inline(never)]
fn add_under<'a>(
    alloc: Global,
    formulas: &mut Vec<Formula>,
    bases: Vec<Formula>,
    tokens: &'a [Token],
) -> Rest<'a>
    requires { 0 < length bases.items }
    ensures value { ReadsBehind formula_tree formulas.old.items formulas.new.items result
        (map_read (under_of (any_formula_of (map formula_tree bases.items))) more_filters tokens.now) }
    ensures no_longer { IfOk result (λ rest. length rest.now ≤ length tokens.now) }
{
    let (filters, rest) = filters(alloc, tokens)?;
    formulas.push(under_of(alloc, any_formula_of(bases), filters)?)?;
    Ok(rest)
}

/// The name of a type, or a parenthesis.
#[cycle(formula)]
fn base<'a>(alloc: Global, formulas: &mut Vec<Formula>, tokens: &'a [Token]) -> Rest<'a>
    ensures value { ReadsBehind formula_tree formulas.old.items formulas.new.items result
        (base formula tokens.now) }
    ensures shorter { IfOk result (λ rest. length rest.now < length tokens.now) }
{
    match skip(tokens, b"(") {
        Some(inside) => {
            let behind_inside = add_formula(alloc, formulas, inside)?;
            expect(behind_inside, b")")
        }
        None => add_type(alloc, formulas, tokens),
    }
}

/// A name or a parenthesis with its postfixes.
#[cycle(formula)]
fn post<'a>(alloc: Global, formulas: &mut Vec<Formula>, tokens: &'a [Token]) -> Rest<'a>
    ensures value { ReadsBehind formula_tree formulas.old.items formulas.new.items result
        (post_step formula tokens.now) }
    ensures shorter { IfOk result (λ rest. length rest.now < length tokens.now) }
{
    let mut bases = Vec::new(alloc);
    let behind_base = base(alloc, &mut bases, tokens)?;
    add_post(alloc, formulas, bases, behind_base)
}

/// The formulas after a first one, a `;` or a `:` before each.
#[cycle(formula)]
fn more_links<'a>(alloc: Global, links: &mut Vec<Link>, tokens: &'a [Token]) -> Rest<'a>
    ensures value { ReadsOnto link_view links.new.items result
        (with_front (map link_view links.old.items) (more_links formula tokens.now)) }
    ensures no_longer { IfOk result (λ rest. length rest.now ≤ length tokens.now) }
{
    let mut rest = tokens;
    while let Some((tight, later)) = link_sign(rest) {
        let mut nexts = Vec::new(alloc);
        let behind_next = post(alloc, &mut nexts, later)?;
        add_link(links, tight, nexts)?;
        rest = behind_next;
    }
    Ok(rest)
}

/// Formulas in sequence.
#[cycle(formula)]
fn chain<'a>(alloc: Global, formulas: &mut Vec<Formula>, tokens: &'a [Token]) -> Rest<'a>
    ensures value { ReadsBehind formula_tree formulas.old.items formulas.new.items result
        (chain_step formula tokens.now) }
    ensures shorter { IfOk result (λ rest. length rest.now < length tokens.now) }
{
    let mut firsts = Vec::new(alloc);
    let behind_first = post(alloc, &mut firsts, tokens)?;
    let mut links = Vec::new(alloc);
    let rest = more_links(alloc, &mut links, behind_first)?;
    add_chain(alloc, formulas, firsts, links)?;
    Ok(rest)
}

/// The chains after those that were read, an OR before each.
#[cycle(formula)]
fn more_chains<'a>(alloc: Global, members: &mut Vec<Formula>, tokens: &'a [Token]) -> Rest<'a>
    ensures value { ReadsOnto formula_tree members.new.items result
        (with_front (map formula_tree members.old.items) (more_chains formula tokens.now)) }
    ensures no_longer { IfOk result (λ rest. length rest.now ≤ length tokens.now) }
    ensures more { IfOk result (λ _. length members.old.items ≤ length members.new.items) }
{
    let mut rest = tokens;
    while let Some(later) = skip(rest, b"OR") {
        let behind_next = chain(alloc, members, later)?;
        rest = behind_next;
    }
    Ok(rest)
}

/// Chains joined by OR.
#[cycle(formula)]
fn either<'a>(alloc: Global, formulas: &mut Vec<Formula>, tokens: &'a [Token]) -> Rest<'a>
    ensures value { ReadsBehind formula_tree formulas.old.items formulas.new.items result
        (either_step formula tokens.now) }
    ensures shorter { IfOk result (λ rest. length rest.now < length tokens.now) }
{
    let mut members = Vec::new(alloc);
    let behind_first = chain(alloc, &mut members, tokens)?;
    let rest = more_chains(alloc, &mut members, behind_first)?;
    add_any(formulas, members)?;
    Ok(rest)
}

/// Alternatives and their filters.
#[cycle(formula)]
fn add_formula<'a>(alloc: Global, formulas: &mut Vec<Formula>, tokens: &'a [Token]) -> Rest<'a>
    ensures value { ReadsBehind formula_tree formulas.old.items formulas.new.items result
        (map_read parts_tree formula tokens.now) }
    ensures shorter { IfOk result (λ rest. length rest.now < length tokens.now) }
{
    let mut bases = Vec::new(alloc);
    let behind_base = either(alloc, &mut bases, tokens)?;
    add_under(alloc, formulas, bases, behind_base)
}

/// Alternatives and their filters, as one formula.
pub fn formula<'a>(alloc: Global, tokens: &'a [Token]) -> Read<'a, Formula>
    ensures { Reads formula_tree tokens.now result (map_read parts_tree formula tokens.now) }
{
    let mut formulas = Vec::new(alloc);
    let rest = add_formula(alloc, &mut formulas, tokens)?;
    Ok((any_formula_of(formulas), rest))
}
