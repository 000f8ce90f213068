//! Filters: predicates on names, joined by AND and OR.

ghost use Rattle.ceql_grammar.specs.MemberLists.{all_filters_of, any_filter_of};
ghost use Rattle.ceql_grammar.specs.ReadResults.{MayRead, Reads, ReadsBehind};
ghost use Rattle.ceql_grammar.specs.RuleReaders.{filter_parts, more_filters, on_name};
ghost use Rattle.ceql_grammar.specs.Trees.{FilterTree, filter_tree};
ghost use Rattle.std.specs.Prelude.{◌≡◌, ◌<◌, length, map};

use crate::conditions::{Condition, disjunction};
use crate::predicates::predicate;
use crate::tokens::{Read, Rest, closed, expect, name, skip};
use cel_terms::Filter;
use ceql_lexer::Token;
use cer_base::Memory;
use std::alloc::Global;

/// A name with a predicate in brackets.
#[tactic(auto, unfolding(crate::specs::RuleReaders::on_name))]
fn on_name<'a>(alloc: Global, tokens: &'a [Token]) -> Read<'a, Filter>
    ensures { Reads filter_tree tokens.now result (on_name tokens.now) }
{
    let (name, rest) = name(alloc, tokens)?;
    let inside = expect(rest, b"[")?;
    let (pred, rest) = predicate(alloc, inside)?;
    closed(Filter::On(name, pred), rest, b"]")
}

impl Condition for Filter {
    ghost Tree = { FilterTree };

    ghost tree = { filter_tree };

    ghost parts = { filter_parts };

    fn takes_not() -> bool {
        false
    }

    /// A name with a predicate in brackets, put behind the filters.
    #[inline(never)]
    fn add_leaf<'a>(alloc: Global, conditions: &mut Vec<Filter>, tokens: &'a [Token]) -> Rest<'a> {
        let (filter, rest) = on_name(alloc, tokens)?;
        conditions.push(filter)?;
        Ok(rest)
    }

    fn all_of(members: Vec<Filter>) -> Filter
        requires some { 0 < length members.items }
        ensures value { filter_tree result ≡ all_filters_of (map filter_tree members.items) }
    {
        if members.len() != 1 {
            return Filter::All(members);
        }
        let mut members = members;
        match members.pop() {
            Some(only) => only,
            None => Filter::All(members),
        }
    }

    fn any_of(members: Vec<Filter>) -> Filter
        requires some { 0 < length members.items }
        ensures value { filter_tree result ≡ any_filter_of (map filter_tree members.items) }
    {
        if members.len() != 1 {
            return Filter::Any(members);
        }
        let mut members = members;
        match members.pop() {
            Some(only) => only,
            None => Filter::Any(members),
        }
    }

    /// No NOT stands before a filter.
    fn opposite(_alloc: Global, condition: Filter) -> Result<Filter, Memory> {
        Ok(condition)
    }
}

/// Filters with a FILTER before each, of which there may be none.
pub fn filters<'a>(alloc: Global, tokens: &'a [Token]) -> Read<'a, Vec<Filter>>
    ensures { MayRead (λ v. map filter_tree v.items) tokens.now result (more_filters tokens.now) }
{
    let mut filters = Vec::new(alloc);
    let mut rest = tokens;
    while let Some(later) = skip(rest, b"FILTER") {
        let behind_next = disjunction(alloc, &mut filters, later)?;
        rest = behind_next;
    }
    Ok((filters, rest))
}
