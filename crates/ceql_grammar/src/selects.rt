//! SELECT statements.

ghost use Rattle.ceql_grammar.specs.ReadResults.{MayRead, Reads, Skips};
ghost use Rattle.ceql_grammar.specs.RuleReaders.{any_number, clock, condition, mode, no_value, partition, scope, select_statement, select_rest, select_list, streams, parts_tree, unit_or_none, window, within};
ghost use Rattle.ceql_grammar.specs.RuleForms.{map_read, first_token};
ghost use Rattle.ceql_grammar.specs.Statements.{is_events, statement_tree};
ghost use Rattle.ceql_grammar.specs.Trees.{formula_tree};
ghost use Rattle.std.specs.Prelude.{◌≡◌, ◌<◌, ◌≤◌, ◌^◌, IfSome, length};

use crate::declarations::ending;
use crate::formulas::formula;
use crate::names::{bracketed_names, names};
use crate::terms::{NumberAt, Select, Statement};
use crate::tokens::{Read, closed, expect, is, name, skip};
use crate::values::{count, unit, whole_number};
use cel_terms::{Formula, Names, Query, Window};
use ceql_lexer::Token;
use cer_base::{Listed, Location, OrMemory};
use std::alloc::Global;

/// Whether STRICT stands here.
fn mode<'a>(tokens: &'a [Token]) -> (bool, &'a [Token])
    ensures value { mode tokens.now ≡ Ok (result.0, result.1.now) }
    ensures no_longer { length result.1.now ≤ length tokens.now }
{
    match skip(tokens, b"STRICT") {
        Some(rest) => (true, rest),
        None => (false, tokens),
    }
}

/// The number after ANY, where that stands here.
#[tactic(auto, unfolding(crate::specs::RuleReaders::any_number))]
fn any_number<'a>(tokens: &'a [Token]) -> Read<'a, Option<NumberAt>>
    ensures { MayRead (λ n. n) tokens.now result (any_number tokens.now) }
{
    match skip(tokens, b"ANY") {
        Some(later) => {
            let (number, rest) = whole_number(later)?;
            Ok((Some(number), rest))
        }
        None => Ok((None, tokens)),
    }
}

/// The names of the SELECT list, or None for `*`.
#[tactic(auto, unfolding(crate::specs::RuleReaders::select_list))]
fn select_list<'a>(alloc: Global, tokens: &'a [Token]) -> Read<'a, Option<Names>>
    ensures { Reads (λ s. s) tokens.now result (select_list tokens.now) }
{
    match skip(tokens, b"*") {
        Some(rest) => Ok((None, rest)),
        None => {
            let (names, rest) = names(alloc, tokens)?;
            Ok((Some(names), rest))
        }
    }
}

/// FROM and the names of streams.
#[tactic(auto, unfolding(crate::specs::RuleReaders::streams))]
fn streams<'a>(alloc: Global, tokens: &'a [Token]) -> Read<'a, Names>
    ensures { Reads (λ ns. ns) tokens.now result (streams tokens.now) }
{
    let rest = expect(tokens, b"FROM")?;
    names(alloc, rest)
}

/// WHERE and a formula.
#[tactic(auto, unfolding(crate::specs::RuleReaders::condition))]
fn condition<'a>(alloc: Global, tokens: &'a [Token]) -> Read<'a, Formula>
    ensures { Reads formula_tree tokens.now result (map_read parts_tree condition tokens.now) }
{
    let rest = expect(tokens, b"WHERE")?;
    formula(alloc, rest)
}

/// The names after PARTITION BY, none where that does not stand here.
#[tactic(auto, unfolding(crate::specs::RuleReaders::partition))]
fn partition<'a>(alloc: Global, tokens: &'a [Token]) -> Read<'a, Names>
    ensures { MayRead (λ ns. ns) tokens.now result (partition tokens.now) }
{
    match skip(tokens, b"PARTITION") {
        Some(later) => {
            let later = expect(later, b"BY")?;
            bracketed_names(alloc, later)
        }
        None => Ok((Listed::of(Vec::new(alloc)), tokens)),
    }
}

/// The seconds of the unit that stands here, 1 where none does.
#[tactic(auto, unfolding(crate::specs::RuleReaders::unit_or_none))]
fn unit_or_none<'a>(tokens: &'a [Token]) -> (u64, &'a [Token])
    ensures value { unit_or_none tokens.now ≡ Ok (result.0, result.1.now) }
    ensures no_longer { length result.1.now ≤ length tokens.now }
    ensures most { result.0 ≤ 3600 }
{
    match unit(tokens) {
        Some((seconds, rest)) => (seconds, rest),
        None => (1, tokens),
    }
}

/// The attribute of a window, with so many units of its number.
#[tactic(auto, unfolding(crate::specs::RuleReaders::clock))]
fn clock<'a>(alloc: Global, number: u64, tokens: &'a [Token]) -> Read<'a, Window>
    requires { number < 2 ^ 63 }
    ensures { Reads (λ w. w) tokens.now result (clock number tokens.now) }
{
    let (seconds, rest) = unit_or_none(tokens);
    let inside = expect(rest, b"[")?;
    let (name, rest) = name(alloc, inside)?;
    let length = i128::from(number) * i128::from(seconds);
    closed(Window::Clock(name, length), rest, b"]")
}

/// Whether EVENT or EVENTS stands here, and the tokens after it.
fn events<'a>(tokens: &'a [Token]) -> Option<&'a [Token]>
    ensures value { Skips result (first_token is_events no_value tokens.now) }
    ensures shorter { IfSome result (λ rest. length rest.now < length tokens.now) }
{
    match skip(tokens, b"EVENT") {
        Some(rest) => Some(rest),
        None => skip(tokens, b"EVENTS"),
    }
}

/// A window.
#[tactic(auto, unfolding(crate::specs::RuleReaders::window))]
fn window<'a>(alloc: Global, tokens: &'a [Token]) -> Read<'a, Window>
    ensures { Reads (λ w. w) tokens.now result (window tokens.now) }
{
    let (number, rest) = count(tokens)?;
    match events(rest) {
        Some(rest) => Ok((Window::Events(number), rest)),
        None => clock(alloc, number, rest),
    }
}

/// The window after WITHIN, the free one where that does not stand here.
#[tactic(auto, unfolding(crate::specs::RuleReaders::within))]
fn within<'a>(alloc: Global, tokens: &'a [Token]) -> Read<'a, Window>
    ensures { MayRead (λ w. w) tokens.now result (within tokens.now) }
{
    match skip(tokens, b"WITHIN") {
        Some(later) => window(alloc, later),
        None => Ok((Window::Free, tokens)),
    }
}

/// What stands after the streams, and the whole statement with it.
#[tactic(auto, unfolding(crate::specs::RuleReaders::scope))]
fn scope<'a>(
    alloc: Global,
    place: Location,
    strict: bool,
    number: Option<NumberAt>,
    select: Option<Names>,
    streams: Names,
    tokens: &'a [Token],
) -> Read<'a, Statement>
    ensures { Reads statement_tree tokens.now result
        (scope place strict number select streams tokens.now) }
{
    let (formula, rest) = condition(alloc, tokens)?;
    let (partition, rest) = partition(alloc, rest)?;
    let (window, rest) = within(alloc, rest)?;
    let query = Query {
        select,
        strict,
        any: None,
        streams,
        formula,
        partition,
        window,
        place,
    };
    ending(Statement::Select(Select { query, any: number }), rest)
}

/// What stands after the SELECT at the place.
#[tactic(auto, unfolding(crate::specs::RuleReaders::select_rest))]
fn select_rest<'a>(alloc: Global, place: Location, tokens: &'a [Token]) -> Read<'a, Statement>
    ensures { Reads statement_tree tokens.now result (select_rest place tokens.now) }
{
    let (strict, rest) = mode(tokens);
    let (number, rest) = any_number(rest)?;
    let (select, rest) = select_list(alloc, rest)?;
    let (streams, rest) = streams(alloc, rest)?;
    scope(alloc, place, strict, number, select, streams, rest)
}

/// A SELECT statement.
#[tactic(auto, unfolding(crate::specs::RuleReaders::select_statement))]
pub fn select_statement<'a>(alloc: Global, tokens: &'a [Token]) -> Read<'a, Statement>
    ensures { Reads statement_tree tokens.now result (select_statement tokens.now) }
{
    match tokens.split_first() {
        Some((first, rest)) => {
            if is(first, b"SELECT") {
                select_rest(alloc, first.place, rest)
            } else {
                Err(OrMemory::Fault(tokens))
            }
        }
        None => Err(OrMemory::Fault(tokens)),
    }
}
