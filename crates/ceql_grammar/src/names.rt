//! Lists of names.

ghost use Rattle.ceql_grammar.specs.ReadResults.{Reads};
ghost use Rattle.ceql_grammar.specs.RuleReaders.{bracketed_names, closed, led, names};

use crate::tokens::{Read, closed, expect, name, skip};
use cel_terms::Names;
use ceql_lexer::Token;
use cer_base::Listed;
use std::alloc::Global;

/// Names with commas between them.
#[tactic(auto, unfolding(crate::specs::RuleReaders::names))]
pub fn names<'a>(alloc: Global, tokens: &'a [Token]) -> Read<'a, Names>
    ensures { Reads (λ ns. ns) tokens.now result (names tokens.now) }
{
    let (first, behind_first) = name(alloc, tokens)?;
    let mut names = Vec::new(alloc);
    names.push(first)?;
    let mut rest = behind_first;
    while let Some(later) = skip(rest, b",") {
        let (next, behind_next) = name(alloc, later)?;
        names.push(next)?;
        rest = behind_next;
    }
    Ok((Listed::of(names), rest))
}

/// Names with commas between them, and a sign before them and after them.
pub fn names_within<'a>(
    alloc: Global,
    tokens: &'a [Token],
    opening: &[u8],
    closing: &[u8],
) -> Read<'a, Names>
    ensures { Reads (λ ns. ns) tokens.now result
        (led opening.now (closed closing.now names) tokens.now) }
{
    let inside = expect(tokens, opening)?;
    let (names, rest) = names(alloc, inside)?;
    closed(names, rest, closing)
}

/// Names with commas between them, in brackets.
#[tactic(auto, unfolding(crate::specs::RuleReaders::bracketed_names))]
pub fn bracketed_names<'a>(alloc: Global, tokens: &'a [Token]) -> Read<'a, Names>
    ensures { Reads (λ ns. ns) tokens.now result (bracketed_names tokens.now) }
{
    names_within(alloc, tokens, b"[", b"]")
}
