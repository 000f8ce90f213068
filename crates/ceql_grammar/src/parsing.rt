//! A whole text.

ghost use Rattle.ceql_grammar.specs.ReadResults.{Reads, ReadsAllAs};
ghost use Rattle.ceql_grammar.specs.LawfulTexts.{IsLawfulStatement};
ghost use Rattle.ceql_grammar.specs.RuleReaders.{one_statement, text};
ghost use Rattle.ceql_grammar.specs.Statements.{statement_tree};
ghost use Rattle.ceql_grammar.specs.Texts.{ParseAnswer, IsParseOf, WhereAnswered, is_none, place_of, script_view};
ghost use Rattle.std.specs.Prelude.{◌≡◌, ◌<◌, All, IfOk, length, map};

use crate::declarations::declaration;
use crate::depth::too_deep;
use crate::faults::{QueryError, QueryFault};
use crate::selects::select_statement;
use crate::terms::{Script, Statement, Statements};
use crate::tokens::{Read, skip};
use ceql_lexer::{Token, Tokens};
use cer_base::{Listed, Location, OrMemory};
use std::alloc::Global;

/// A statement.
#[tactic(auto, unfolding(crate::specs::RuleReaders::one_statement))]
fn statement<'a>(alloc: Global, tokens: &'a [Token]) -> Read<'a, Statement>
    ensures { Reads statement_tree tokens.now result (one_statement tokens.now) }
{
    match skip(tokens, b"DECLARE") {
        Some(later) => declaration(alloc, later),
        None => select_statement(alloc, tokens),
    }
}

/// Statements up to the end.
fn text<'a>(alloc: Global, tokens: &'a [Token]) -> Result<Statements, OrMemory<&'a [Token]>>
    ensures { ReadsAllAs (map statement_tree) result (text tokens.now) }
{
    let mut statements = Vec::new(alloc);
    let mut rest = tokens;
    while !rest.is_empty() {
        let (next, behind_next) = statement(alloc, rest)?;
        statements.push(next)?;
        rest = behind_next;
    }
    Ok(Listed::of(statements))
}

/// The fault at the first of the tokens that are left, or at the end where none is.
fn unexpected(left: &[Token], end: &Token) -> QueryError
    ensures fault { result.fault ≡ QueryFault.Unexpected (is_none left.now) }
    ensures place { result.place ≡ place_of left.now end.now }
{
    let (at_end, place) = match left.split_first() {
        Some((first, _)) => (false, first.place),
        None => (true, end.place),
    };
    QueryError {
        fault: QueryFault::Unexpected { at_end },
        place,
    }
}

/// The statements of the tokens, all of them, the last token being the end.
///
/// Errors, the first of these: `TooDeep` at the first `(` before which 64 are open, a `)` closing one
/// where one is open, and DECLARE and SELECT beginning anew; `Unexpected` at the first token with which
/// no text of the grammar goes on, which may be the end. Besides only `Memory`, where an allocation is
/// refused.
pub fn parse(alloc: Global, tokens: &Tokens) -> Result<Script, OrMemory<QueryError>>
    requires { 0 < length tokens.now }
    // What is answered is the answer of these tokens, unless memory ran out.
    ensures found { WhereAnswered script_view result (λ answer. IsParseOf tokens.now answer) }
    // These tokens have no other answer.
    ensures only { (answer : ParseAnswer) → IsParseOf tokens.now answer
        → WhereAnswered script_view result (λ given. given ≡ answer) }
    // No list of a statement is empty that has to have members, decimal numbers have at most nine places,
    // and windows are in range.
    ensures lawful { IfOk result (λ script.
        All IsLawfulStatement (map statement_tree script.statements)) }
{
    match tokens.as_slice().split_last() {
        Some((end, body)) => {
            if let Some(place) = too_deep(tokens.as_slice()) {
                let fault = QueryFault::TooDeep;
                return Err(OrMemory::Fault(QueryError { fault, place }));
            }
            match text(alloc, body) {
                Ok(statements) => Ok(Script {
                    statements,
                    end: end.place,
                }),
                Err(OrMemory::Memory) => Err(OrMemory::Memory),
                Err(OrMemory::Fault(left)) => Err(OrMemory::Fault(unexpected(left, end))),
            }
        }
        None => unreachable!(),
    }
}
