//! Conditions: predicates and filters, joined by AND and OR, in parentheses or not.
//!
//! What is read is put behind a list of the caller, so that a parenthesis holds no condition on the stack
//! while what stands in it is read; what makes large values is a call of its own likewise.

ghost use Rattle.ceql_grammar.specs.ConditionLaws.{AreLawful};
ghost use Rattle.ceql_grammar.specs.PartlyRead.{with_front};
ghost use Rattle.ceql_grammar.specs.ReadResults.{ReadsBehind, ReadsOnto};
ghost use Rattle.ceql_grammar.specs.RuleForms.{map_read};
ghost use Rattle.ceql_grammar.specs.RuleReaders.{Parts, atom, disjunction, conjunction, more_conjunctions, more_units, unit};
ghost use Rattle.std.specs.Prelude.{◌≡◌, ◌<◌, ◌≤◌, ◌∷◌, ◌++◌, [], IfOk, OnOk, length, map};

use crate::tokens::{Rest, expect, skip};
use ceql_lexer::Token;
use cer_base::Memory;
use std::alloc::Global;

/// A predicate, or a filter.
pub trait Condition: Sized + Drop {
    /// What it says, without where it lies in memory.
    ghost Tree: { Type 0 };

    ghost tree: { Self → Tree };

    /// How it is read.
    ghost parts: { Parts Tree };

    /// Whether a NOT may stand before a unit.
    fn takes_not() -> bool
        ensures { result ≡ parts.takes_not };

    /// Puts a condition without parentheses behind the others.
    fn add_leaf<'a>(alloc: Global, conditions: &mut Vec<Self>, tokens: &'a [Token]) -> Rest<'a>
        ensures value { ReadsBehind tree conditions.old.items conditions.new.items result
            (parts.leaf tokens.now) }
        ensures shorter { IfOk result (λ rest. length rest.now < length tokens.now) };

    /// The only one of the members, or all of them joined by AND.
    fn all_of(members: Vec<Self>) -> Self
        requires some { 0 < length members.items }
        ensures value { tree result ≡ parts.all_of (map tree members.items) };

    /// The only one of the members, or all of them joined by OR.
    fn any_of(members: Vec<Self>) -> Self
        requires some { 0 < length members.items }
        ensures value { tree result ≡ parts.any_of (map tree members.items) };

    /// What a NOT makes of the condition.
    fn opposite(alloc: Global, condition: Self) -> Result<Self, Memory>
        ensures value { IfOk result (λ c. tree c ≡ parts.negated (tree condition)) };
}

/// Puts the only one of the members, or all of them joined by AND, behind the conditions.
#[inline(never)]
fn add_all<T: Condition>(conditions: &mut Vec<T>, members: Vec<T>) -> Result<(), Memory>
    requires { 0 < length members.items }
    ensures { OnOk result (map T.tree conditions.new.items
        ≡ map T.tree conditions.old.items ++ T.parts.all_of (map T.tree members.items) ∷ []) }
{
    Ok(conditions.push(T::all_of(members))?)
}

/// Puts the only one of the members, or all of them joined by OR, behind the conditions.
#[inline(never)]
fn add_any<T: Condition>(conditions: &mut Vec<T>, members: Vec<T>) -> Result<(), Memory>
    requires { 0 < length members.items }
    ensures { OnOk result (map T.tree conditions.new.items
        ≡ map T.tree conditions.old.items ++ T.parts.any_of (map T.tree members.items) ∷ []) }
{
    Ok(conditions.push(T::any_of(members))?)
}

/// Puts the opposite of the only one of the members behind the conditions.
#[inline(never)]
fn add_opposite<T: Condition>(
    alloc: Global,
    conditions: &mut Vec<T>,
    members: Vec<T>,
) -> Result<(), Memory>
    requires { 0 < length members.items }
    ensures { OnOk result (map T.tree conditions.new.items ≡ map T.tree conditions.old.items
        ++ T.parts.negated (T.parts.all_of (map T.tree members.items)) ∷ []) }
{
    Ok(conditions.push(T::opposite(alloc, T::all_of(members))?)?)
}

/// A leaf or a parenthesis.
#[cycle(disjunction)]
fn atom<'a, T: Condition>(alloc: Global, conditions: &mut Vec<T>, tokens: &'a [Token]) -> Rest<'a>
    requires lawful { AreLawful T.parts }
    ensures value { ReadsBehind T.tree conditions.old.items conditions.new.items result
        (atom T.parts (disjunction T.parts) tokens.now) }
    ensures shorter { IfOk result (λ rest. length rest.now < length tokens.now) }
{
    match skip(tokens, b"(") {
        Some(inside) => {
            let behind_inside = disjunction(alloc, conditions, inside)?;
            expect(behind_inside, b")")
        }
        None => T::add_leaf(alloc, conditions, tokens),
    }
}

/// What stands after a NOT: a leaf or a parenthesis.
#[cycle(disjunction)]
#[inline(never)]
fn negated<'a, T: Condition>(
    alloc: Global,
    conditions: &mut Vec<T>,
    tokens: &'a [Token],
) -> Rest<'a>
    requires lawful { AreLawful T.parts }
    ensures value { ReadsBehind T.tree conditions.old.items conditions.new.items result
        (map_read T.parts.negated (atom T.parts (disjunction T.parts)) tokens.now) }
    ensures shorter { IfOk result (λ rest. length rest.now < length tokens.now) }
{
    let mut members = Vec::new(alloc);
    let rest = atom(alloc, &mut members, tokens)?;
    add_opposite(alloc, conditions, members)?;
    Ok(rest)
}

/// A leaf or a parenthesis, with at most one NOT before it where one may stand.
#[cycle(disjunction)]
fn unit<'a, T: Condition>(alloc: Global, conditions: &mut Vec<T>, tokens: &'a [Token]) -> Rest<'a>
    requires lawful { AreLawful T.parts }
    ensures value { ReadsBehind T.tree conditions.old.items conditions.new.items result
        (unit T.parts (disjunction T.parts) tokens.now) }
    ensures shorter { IfOk result (λ rest. length rest.now < length tokens.now) }
{
    if T::takes_not() {
        match skip(tokens, b"NOT") {
            Some(later) => negated(alloc, conditions, later),
            None => atom(alloc, conditions, tokens),
        }
    } else {
        atom(alloc, conditions, tokens)
    }
}

/// The units after those that were read, an AND before each.
#[cycle(disjunction)]
fn more_units<'a, T: Condition>(
    alloc: Global,
    members: &mut Vec<T>,
    tokens: &'a [Token],
) -> Rest<'a>
    requires lawful { AreLawful T.parts }
    ensures value { ReadsOnto T.tree members.new.items result
        (with_front (map T.tree members.old.items) (more_units T.parts (disjunction T.parts) tokens.now)) }
    ensures no_longer { IfOk result (λ rest. length rest.now ≤ length tokens.now) }
    ensures more { IfOk result (λ _. length members.old.items ≤ length members.new.items) }
{
    let mut rest = tokens;
    while let Some(later) = skip(rest, b"AND") {
        let behind_next = unit(alloc, members, later)?;
        rest = behind_next;
    }
    Ok(rest)
}

/// Units joined by AND.
#[cycle(disjunction)]
fn conjunction<'a, T: Condition>(
    alloc: Global,
    conditions: &mut Vec<T>,
    tokens: &'a [Token],
) -> Rest<'a>
    requires lawful { AreLawful T.parts }
    ensures value { ReadsBehind T.tree conditions.old.items conditions.new.items result
        (conjunction T.parts (disjunction T.parts) tokens.now) }
    ensures shorter { IfOk result (λ rest. length rest.now < length tokens.now) }
{
    let mut members = Vec::new(alloc);
    let behind_first = unit(alloc, &mut members, tokens)?;
    let rest = more_units(alloc, &mut members, behind_first)?;
    add_all(conditions, members)?;
    Ok(rest)
}

/// The conjunctions after those that were read, an OR before each.
#[cycle(disjunction)]
fn more_conjunctions<'a, T: Condition>(
    alloc: Global,
    members: &mut Vec<T>,
    tokens: &'a [Token],
) -> Rest<'a>
    requires lawful { AreLawful T.parts }
    ensures value { ReadsOnto T.tree members.new.items result (with_front (map T.tree members.old.items)
        (more_conjunctions T.parts (disjunction T.parts) tokens.now)) }
    ensures no_longer { IfOk result (λ rest. length rest.now ≤ length tokens.now) }
    ensures more { IfOk result (λ _. length members.old.items ≤ length members.new.items) }
{
    let mut rest = tokens;
    while let Some(later) = skip(rest, b"OR") {
        let behind_next = conjunction(alloc, members, later)?;
        rest = behind_next;
    }
    Ok(rest)
}

/// Conjunctions joined by OR.
#[cycle(disjunction)]
pub fn disjunction<'a, T: Condition>(
    alloc: Global,
    conditions: &mut Vec<T>,
    tokens: &'a [Token],
) -> Rest<'a>
    requires lawful { AreLawful T.parts }
    ensures value { ReadsBehind T.tree conditions.old.items conditions.new.items result
        (disjunction T.parts tokens.now) }
    ensures shorter { IfOk result (λ rest. length rest.now < length tokens.now) }
{
    let mut members = Vec::new(alloc);
    let behind_first = conjunction(alloc, &mut members, tokens)?;
    let rest = more_conjunctions(alloc, &mut members, behind_first)?;
    add_any(conditions, members)?;
    Ok(rest)
}
