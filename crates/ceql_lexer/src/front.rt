//! What stands at the front of a text.

ghost use Rattle.ceql_lexer.specs.Fronts.{HasSize, dash_at, gap, piece_at, token};
ghost use Rattle.std.specs.Prelude.{◌≡◌, ◌+◌, ◌∷◌, IfOk, length};

use crate::numbers::number_at;
use crate::quotes::string_at;
use crate::signs::sign_at;
use crate::words::{is_white_space, line_len, may_begin, word_at};
use crate::{LexFault, TokenKind};

/// The piece at the front of a text: a token where it has a kind, else a blank or a comment.
#[derive(Debug, Clone, Copy, PartialEq, Eq)]
pub struct Piece {
    pub kind: Option<TokenKind>,
    /// How many bytes it has, from 1.
    pub size: usize,
}

impl Piece {
    /// So many bytes that are a token of the kind.
    pub fn token(kind: TokenKind, size: usize) -> Piece
        ensures { result ≡ token kind size }
    {
        Piece {
            kind: Some(kind),
            size,
        }
    }

    /// So many bytes that are no token.
    pub fn gap(size: usize) -> Piece
        ensures { result ≡ gap size }
    {
        Piece { kind: None, size }
    }
}

/// The comment or the negative number at the front of the text, which begins with a `-`.
#[tactic(auto, unfolding(crate::specs::Fronts::dash_at))]
fn dash_at(text: &[u8], behind: &[u8]) -> Result<Piece, LexFault>
    requires { length text.now ≡ length behind.now + 1 }
    ensures value { result ≡ dash_at behind.now }
    ensures within { IfOk result (λ piece. HasSize piece text.now) }
{
    match behind {
        [b'-', rest @ ..] => Ok(Piece::gap(2 + line_len(rest))),
        [b'0'..=b'9', ..] => number_at(1, behind),
        _ => Err(LexFault::BadByte { byte: b'-' }),
    }
}

/// What stands at the front of a text that is not empty.
#[tactic(auto, unfolding(crate::specs::Fronts::piece_at))]
pub fn piece_at(text: &[u8], first: u8, behind: &[u8]) -> Result<Piece, LexFault>
    requires { text.now ≡ first ∷ behind.now }
    ensures value { result ≡ piece_at first behind.now }
    ensures within { IfOk result (λ piece. HasSize piece text.now) }
{
    if is_white_space(first) {
        Ok(Piece::gap(1))
    } else if may_begin(first) {
        Ok(word_at(text))
    } else {
        match first {
            b'0'..=b'9' => number_at(0, text),
            b'-' => dash_at(text, behind),
            b'\'' | b'"' => string_at(first, text, behind),
            _ => sign_at(first, text),
        }
    }
}
