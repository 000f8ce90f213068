//! A text cut into its tokens from left to right.

ghost use Rattle.ceql_lexer.specs.Fronts.{IsTokenText};
ghost use Rattle.cer_base.specs.Answers.{Gives};
ghost use Rattle.ceql_lexer.specs.Tokens.{after_mark, first_place, parts_from, place_after, token_of, tokens_of, with_end};
ghost use Rattle.ceql_lexer.specs.Whole.{IsCut};
ghost use Rattle.std.specs.Str.{IsUtf8};
ghost use Rattle.std.specs.Prelude.{◌≡◌, ◌+◌, ◌++◌, ◌<◌, ◌≤◌, ◌^◌, IfOk, OnOk, length};

use crate::front::piece_at;
use crate::{LexError, Token, TokenKind, Tokens};
use cer_base::{Listed, Location, Memory, OrMemory, Text};
use std::alloc::Global;

/// The place of a text's first byte.
const FIRST: Location = Location { line: 1, col: 1 };

/// What stands after a byte order mark at the very beginning, else the whole text.
fn after_mark(text: &[u8]) -> &[u8]
    ensures value { result.now ≡ after_mark text.now }
    ensures within { length result.now ≤ length text.now }
{
    match text {
        [0xEF, 0xBB, 0xBF, rest @ ..] => rest,
        _ => text,
    }
}

/// The place after these bytes.
fn place_after(place: Location, bytes: &[u8]) -> Location
    requires line { place.line + length bytes.now < 2 ^ 64 }
    requires col { place.col + length bytes.now < 2 ^ 64 }
    ensures value { result ≡ place_after place bytes.now }
    ensures lines { result.line ≤ place.line + length bytes.now }
    ensures cols { result.col ≤ place.col + length bytes.now }
{
    let mut place = place;
    for byte in bytes {
        if *byte == b'\n' {
            place.line += 1;
            place.col = 1;
        } else {
            place.col += 1;
        }
    }
    place
}

/// The token of the kind that these bytes are, at the place.
fn token_of(alloc: Global, kind: TokenKind, bytes: &[u8], place: Location) -> Result<Token, Memory>
    requires { IsUtf8 bytes.now }
    ensures { IfOk result (λ token. token
        ≡ record { kind = kind; text = bytes.now; place = place }) }
{
    match std::str::from_utf8(bytes) {
        Ok(text) => {
            let text = Text::copy_of(alloc, text)?;
            Ok(Token { kind, text, place })
        }
        Err(_) => unreachable!(),
    }
}

/// Appends the token, where the piece is one.
fn push_piece(
    alloc: Global,
    tokens: &mut Vec<Token>,
    kind: Option<TokenKind>,
    bytes: &[u8],
    place: Location,
) -> Result<(), Memory>
    requires { IsTokenText kind bytes.now }
    ensures { OnOk result (tokens.new.items
        ≡ tokens.old.items
        ++ token_of (record { kind = kind; text = bytes.now; place = place }) kind) }
{
    if let Some(kind) = kind {
        let token = token_of(alloc, kind, bytes, place)?;
        tokens.push(token)?;
    }
    Ok(())
}

/// The tokens of a text from its first byte on, whatever that is.
fn cut(alloc: Global, text: &[u8]) -> Result<Tokens, OrMemory<LexError>>
    requires { length text.now + 1 < 2 ^ 64 }
    ensures { Gives (λ x. x) result (with_end text.now (parts_from 0 first_place text.now)) }
{
    let mut tokens = Vec::new(alloc);
    let mut rest = text;
    let mut place = FIRST;
    while let [first, behind @ ..] = rest {
        match piece_at(rest, *first, behind) {
            Err(fault) => return Err(OrMemory::Fault(LexError { fault, place })),
            Ok(piece) => {
                let (bytes, later) = rest.split_at(piece.size);
                push_piece(alloc, &mut tokens, piece.kind, bytes, place)?;
                place = place_after(place, bytes);
                rest = later;
            }
        }
    }
    let text = Text::of(String::new(alloc));
    tokens.push(Token {
        kind: TokenKind::End,
        text,
        place,
    })?;
    Ok(Listed::of(tokens))
}

/// The tokens of a text, in order and with the end after them, or its first fault and the place
/// of that. A byte order mark at the very beginning is no part of the text; a later one is a bad
/// byte. Besides these only an allocation that is refused is answered, as `Memory`, at which the
/// tokens so far are dropped.
#[tactic(auto, unfolding(crate::specs::Tokens::tokens_of, crate::specs::Tokens::parts_of))]
pub fn lex(alloc: Global, text: &[u8]) -> Result<Tokens, OrMemory<LexError>>
    // Exactly the tokens of the text, or exactly its first fault.
    ensures exact { Gives (λ x. x) result (tokens_of text.now) }
    // The tokens are the whole text, each at its place and as long as it may be.
    ensures cut { IfOk result (λ tokens. IsCut (after_mark text.now) tokens) }
{
    let behind = after_mark(text);
    if behind.len() >= usize::MAX - 1 {
        return Err(OrMemory::Memory);
    }
    cut(alloc, behind)
}
