//! Declarations of types and streams.

ghost use Rattle.ceql_grammar.specs.ReadResults.{MayRead, Reads, Stays, StopsAs};
ghost use Rattle.ceql_grammar.specs.PartlyRead.{with_front};
ghost use Rattle.ceql_grammar.specs.RuleReaders.{attr, attr_kind, attrs_closed, decimal_kind, declaration, ended, event_declared, more_attrs, some_attrs, stream_declared};
ghost use Rattle.ceql_grammar.specs.Statements.{statement_tree};
ghost use Rattle.std.specs.Prelude.{◌≡◌, ◌≤◌, IfErr, IfOk, Ok, length};

use crate::names::names_within;
use crate::terms::{AttrDecl, AttrDecls, KindDecl, Statement};
use crate::tokens::{Read, closed, expect, is, name, skip};
use crate::values::whole_number;
use ceql_lexer::Token;
use cer_base::{Listed, OrMemory};
use std::alloc::Global;

/// Nothing, where a statement may end: before DECLARE, before SELECT and at the end.
#[tactic(auto, unfolding(crate::specs::RuleReaders::ended))]
fn ended<'a>(tokens: &'a [Token]) -> Result<(), OrMemory<&'a [Token]>>
    ensures { Stays tokens.now result (ended tokens.now) }
{
    match tokens.split_first() {
        Some((first, _)) => {
            if is(first, b"DECLARE") || is(first, b"SELECT") {
                Ok(())
            } else {
                Err(OrMemory::Fault(tokens))
            }
        }
        None => Ok(()),
    }
}

/// The statement, where one may end.
pub fn ending<'a>(statement: Statement, tokens: &'a [Token]) -> Read<'a, Statement>
    ensures value { IfOk result (λ p. (p.0 ≡ statement) × (ended tokens.now ≡ Ok (tt, p.1.now))) }
    ensures stops { IfErr result (λ e. StopsAs e (ended tokens.now)) }
    ensures no_longer { IfOk result (λ p. length p.1.now ≤ length tokens.now) }
{
    ended(tokens)?;
    Ok((statement, tokens))
}

/// The number of a DECIMAL, in parentheses.
#[tactic(auto, unfolding(crate::specs::RuleReaders::decimal_kind))]
fn decimal_kind<'a>(tokens: &'a [Token]) -> Read<'a, KindDecl>
    ensures { Reads (λ k. k) tokens.now result (decimal_kind tokens.now) }
{
    let inside = expect(tokens, b"(")?;
    let (places, rest) = whole_number(inside)?;
    closed(KindDecl::Dec(places), rest, b")")
}

/// What an attribute is declared to hold.
#[tactic(auto, unfolding(crate::specs::RuleReaders::attr_kind))]
fn attr_kind<'a>(tokens: &'a [Token]) -> Read<'a, KindDecl>
    ensures { Reads (λ k. k) tokens.now result (attr_kind tokens.now) }
{
    if let Some(rest) = skip(tokens, b"INT") {
        return Ok((KindDecl::Int, rest));
    }
    if let Some(rest) = skip(tokens, b"STRING") {
        return Ok((KindDecl::Text, rest));
    }
    if let Some(rest) = skip(tokens, b"BOOL") {
        return Ok((KindDecl::Flag, rest));
    }
    let rest = expect(tokens, b"DECIMAL")?;
    decimal_kind(rest)
}

/// An attribute.
#[tactic(auto, unfolding(crate::specs::RuleReaders::attr))]
fn attr<'a>(alloc: Global, tokens: &'a [Token]) -> Read<'a, AttrDecl>
    ensures { Reads (λ a. a) tokens.now result (attr tokens.now) }
{
    let (name, rest) = name(alloc, tokens)?;
    let (kind, rest) = attr_kind(rest)?;
    Ok((AttrDecl { name, kind }, rest))
}

/// The attributes after those that were read, a comma before each.
fn more_attrs<'a>(
    alloc: Global,
    attrs: Vec<AttrDecl>,
    tokens: &'a [Token],
) -> Read<'a, Vec<AttrDecl>>
    ensures { MayRead (λ v. v.items) tokens.now result
        (with_front attrs.items (more_attrs tokens.now)) }
{
    let mut attrs = attrs;
    let mut rest = tokens;
    while let Some(later) = skip(rest, b",") {
        let (next, behind_next) = attr(alloc, later)?;
        attrs.push(next)?;
        rest = behind_next;
    }
    Ok((attrs, rest))
}

/// Attributes with commas between them.
#[tactic(auto, unfolding(crate::specs::RuleReaders::some_attrs))]
fn some_attrs<'a>(alloc: Global, tokens: &'a [Token]) -> Read<'a, AttrDecls>
    ensures { Reads (λ l. l) tokens.now result (some_attrs tokens.now) }
{
    let (first, rest) = attr(alloc, tokens)?;
    let mut attrs = Vec::new(alloc);
    attrs.push(first)?;
    let (attrs, rest) = more_attrs(alloc, attrs, rest)?;
    Ok((Listed::of(attrs), rest))
}

/// Attributes, of which there may be none, and the `)` after them.
#[tactic(auto, unfolding(crate::specs::RuleReaders::attrs_closed))]
fn attrs_closed<'a>(alloc: Global, tokens: &'a [Token]) -> Read<'a, AttrDecls>
    ensures { Reads (λ l. l) tokens.now result (attrs_closed tokens.now) }
{
    match skip(tokens, b")") {
        Some(rest) => Ok((Listed::of(Vec::new(alloc)), rest)),
        None => {
            let (attrs, rest) = some_attrs(alloc, tokens)?;
            closed(attrs, rest, b")")
        }
    }
}

/// The name and the attributes of a type.
#[tactic(auto, unfolding(crate::specs::RuleReaders::event_declared))]
fn event<'a>(alloc: Global, tokens: &'a [Token]) -> Read<'a, Statement>
    ensures { Reads statement_tree tokens.now result (event_declared tokens.now) }
{
    let (name, rest) = name(alloc, tokens)?;
    let inside = expect(rest, b"(")?;
    let (attrs, rest) = attrs_closed(alloc, inside)?;
    ending(Statement::Event(name, attrs), rest)
}

/// The name and the types of a stream.
#[tactic(auto, unfolding(crate::specs::RuleReaders::stream_declared))]
fn stream<'a>(alloc: Global, tokens: &'a [Token]) -> Read<'a, Statement>
    ensures { Reads statement_tree tokens.now result (stream_declared tokens.now) }
{
    let (name, rest) = name(alloc, tokens)?;
    let (types, rest) = names_within(alloc, rest, b"(", b")")?;
    ending(Statement::Stream(name, types), rest)
}

/// What stands after DECLARE.
#[tactic(auto, unfolding(crate::specs::RuleReaders::declaration))]
pub fn declaration<'a>(alloc: Global, tokens: &'a [Token]) -> Read<'a, Statement>
    ensures { Reads statement_tree tokens.now result (declaration tokens.now) }
{
    match skip(tokens, b"EVENT") {
        Some(later) => event(alloc, later),
        None => {
            let later = expect(tokens, b"STREAM")?;
            stream(alloc, later)
        }
    }
}
