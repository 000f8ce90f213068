//! Single tokens: words, signs and names.

ghost use Rattle.ceql_grammar.specs.ReadResults.{Reads, ReadsPast, Skips, StopsAs};
ghost use Rattle.ceql_grammar.specs.WordsAndSigns.{among, is, is_name_token, token_name, spelled};
ghost use Rattle.ceql_grammar.specs.RuleReaders.{name, no_value, mark_token};
ghost use Rattle.ceql_grammar.specs.RuleForms.{first_token};
ghost use Rattle.std.specs.Prelude.{◌≡◌, ◌<◌, IfOk, IfSome, Ok, IfErr, bytes_eq, length};

use cel_terms::Name;
use ceql_lexer::{Token, TokenKind, in_capitals_is};
use cer_base::{Memory, OrMemory, Text};
use std::alloc::Global;

/// The tokens after what was read, or the tokens from the first on that does not fit.
pub type Rest<'a> = Result<&'a [Token], OrMemory<&'a [Token]>>;

/// The same with a value of what was read.
pub type Read<'a, X> = Result<(X, &'a [Token]), OrMemory<&'a [Token]>>;

/// Whether the bytes spell the mark.
fn spells(kind: TokenKind, text: &[u8], mark: &[u8]) -> bool
    ensures { result ≡ bytes_eq (spelled kind text.now) mark.now }
{
    match kind {
        TokenKind::Keyword => in_capitals_is(text, mark),
        TokenKind::Sign => text == mark,
        TokenKind::Name
        | TokenKind::Number
        | TokenKind::Decimal
        | TokenKind::Quoted
        | TokenKind::End => mark.is_empty(),
    }
}

/// Whether the token is this sign, or this keyword in some ASCII case.
pub fn is(token: &Token, mark: &[u8]) -> bool
    ensures { result ≡ is mark.now token.now }
{
    spells(token.kind, token.text.as_str().as_bytes(), mark)
}

/// Whether the token is a word that is no keyword.
pub fn is_name_token(token: &Token) -> bool
    ensures { result ≡ is_name_token token.now }
{
    match token.kind {
        TokenKind::Name => true,
        TokenKind::Keyword
        | TokenKind::Sign
        | TokenKind::Number
        | TokenKind::Decimal
        | TokenKind::Quoted
        | TokenKind::End => false,
    }
}

/// The token as a name.
pub fn token_name(alloc: Global, token: &Token) -> Result<Name, Memory>
    ensures { IfOk result (λ n. n ≡ token_name token.now) }
{
    Ok(Name {
        text: Text::copy_of(alloc, token.text.as_str())?,
        place: token.place,
    })
}

/// The tokens after this word or sign, where it stands in front.
pub fn skip<'a>(tokens: &'a [Token], mark: &[u8]) -> Option<&'a [Token]>
    ensures value { Skips result (first_token (is mark.now) no_value tokens.now) }
    ensures shorter { IfSome result (λ rest. length rest.now < length tokens.now) }
{
    match tokens.split_first() {
        Some((first, rest)) => { if is(first, mark) { Some(rest) } else { None } }
        None => None,
    }
}

/// The tokens after this word or sign, which has to stand in front.
pub fn expect<'a>(tokens: &'a [Token], mark: &[u8]) -> Rest<'a>
    ensures value { ReadsPast result (mark_token mark.now tokens.now) }
    ensures shorter { IfOk result (λ rest. length rest.now < length tokens.now) }
{
    match tokens.split_first() {
        Some((first, rest)) => {
            if is(first, mark) {
                Ok(rest)
            } else {
                Err(OrMemory::Fault(tokens))
            }
        }
        None => Err(OrMemory::Fault(tokens)),
    }
}

/// A name at the front.
pub fn name<'a>(alloc: Global, tokens: &'a [Token]) -> Read<'a, Name>
    ensures { Reads (λ n. n) tokens.now result (name tokens.now) }
{
    match tokens.split_first() {
        Some((first, rest)) => {
            if is_name_token(first) {
                let name = token_name(alloc, first)?;
                Ok((name, rest))
            } else {
                Err(OrMemory::Fault(tokens))
            }
        }
        None => Err(OrMemory::Fault(tokens)),
    }
}

/// What was read, and the tokens after this word or sign, which has to stand after it.
pub fn closed<'a, X: Drop>(read: X, tokens: &'a [Token], mark: &[u8]) -> Read<'a, X>
    ensures value { IfOk result (λ p. (p.0 ≡ read)
        × (mark_token mark.now tokens.now ≡ Ok (tt, p.1.now))) }
    ensures stops { IfErr result (λ e. StopsAs e (mark_token mark.now tokens.now)) }
    ensures shorter { IfOk result (λ p. length p.1.now < length tokens.now) }
{
    let rest = expect(tokens, mark)?;
    Ok((read, rest))
}
