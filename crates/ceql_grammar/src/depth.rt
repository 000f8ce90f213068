//! How deeply parentheses nest.

ghost use Rattle.ceql_grammar.specs.WordsAndSigns.{is};
ghost use Rattle.ceql_grammar.specs.Texts.{IsShallow, IsTooDeep, open_after_one};
ghost use Rattle.std.specs.Prelude.{◌≡◌, ◌≤◌, MatchOption};

use crate::tokens::is;
use ceql_lexer::Token;
use cer_base::Location;
use cer_base::limits::DEEPEST_NESTING;

/// How many parentheses are open after the token.
fn open_after_one(depth: usize, token: &Token) -> usize
    requires { depth ≤ DEEPEST_NESTING }
    ensures { result ≡ open_after_one depth token.now }
{
    if is(token, b"DECLARE") || is(token, b"SELECT") {
        0
    } else if is(token, b"(") {
        depth + 1
    } else if is(token, b")") {
        depth.saturating_sub(1)
    } else {
        depth
    }
}

/// The place of the first `(` at which as many are open as may be, since the last DECLARE or SELECT.
pub fn too_deep(tokens: &[Token]) -> Option<Location>
    ensures { MatchOption result (IsShallow tokens.now) (λ place. IsTooDeep tokens.now place) }
{
    let mut depth = 0;
    for token in tokens {
        if depth >= DEEPEST_NESTING && is(token, b"(") {
            return Some(token.place);
        }
        depth = open_after_one(depth, token);
    }
    None
}
