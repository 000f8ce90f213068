//! A query text, from its bytes to its schema and checked queries.

ghost use Rattle.std.specs.Prelude.{◌≡◌, All, IfOk};
ghost use Rattle.cel_terms.specs.Checked.{IsChecked};
ghost use Rattle.ceql_parser.specs.QueryTexts.{IsAnswerOfText, TextAnswer, accepted_view};
ghost use Rattle.ceql_grammar.specs.Texts.{WhereAnswered};

use crate::checking::{Accepted, check};
use ceql_grammar::{QueryError, QueryFault, parse};
use ceql_lexer::lex;
use cer_base::limits::LONGEST_TEXT;
use cer_base::{Location, OrMemory};
use std::alloc::Global;

/// The place of a text's first byte.
const FIRST: Location = Location { line: 1, col: 1 };

/// What the text declares, and its queries in order. Each is checked for the schema.
///
/// Errors, the first of these: `TextTooLong` where the text has more than 1,048,576 bytes; the fault of
/// its tokens, of its nesting, of its grammar, of its statements, as `lex`, `parse` and `check` have
/// them. Besides only `Memory`, where an allocation is refused.
pub fn read_queries(alloc: Global, text: &[u8]) -> Result<Accepted, OrMemory<QueryError>>
    // What is answered is the answer of this text, unless memory ran out.
    ensures found { WhereAnswered accepted_view result (λ answer. IsAnswerOfText text.now answer) }
    // This text has no other answer.
    ensures only { (answer : TextAnswer) → IsAnswerOfText text.now answer
        → WhereAnswered accepted_view result (λ given. given ≡ answer) }
    ensures checked { IfOk result (λ accepted. All (IsChecked accepted.schema) accepted.queries) }
{
    if text.len() > LONGEST_TEXT {
        let fault = QueryFault::TextTooLong;
        return Err(OrMemory::Fault(QueryError {
            fault,
            place: FIRST,
        }));
    }
    let tokens = match lex(alloc, text) {
        Ok(tokens) => tokens,
        Err(OrMemory::Fault(error)) => return Err(OrMemory::Fault(QueryError::from(error))),
        Err(OrMemory::Memory) => return Err(OrMemory::Memory),
    };
    match parse(alloc, &tokens) {
        Ok(script) => check(alloc, script),
        Err(stop) => Err(stop),
    }
}
