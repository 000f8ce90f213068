//! Signs.

ghost use Rattle.ceql_lexer.specs.Fronts.{HasSize, sign_at};
ghost use Rattle.ceql_lexer.specs.Letters.{long_signs, short_signs, sign_len};
ghost use Rattle.std.specs.List.{list_any};
ghost use Rattle.std.specs.Prelude.{◌≡◌, ◌≤◌, ◌∷◌, IfOk, length, bytes_eq};

use crate::front::Piece;
use crate::{LexFault, TokenKind};

const LONG: [&[u8]; 6] = [b"==", b"!=", b"<>", b"<=", b">=", b":+"];

const SHORT: [&[u8]; 12] = [
    b"(", b")", b"[", b"]", b",", b";", b":", b"+", b"*", b"=", b"<", b">",
];

/// Whether the bytes are among the signs.
fn is_among(bytes: &[u8], signs: &[&[u8]]) -> bool
    ensures { result ≡ list_any (λ sign. bytes_eq bytes.now sign.now) signs.now }
{
    signs.iter().any(|sign| bytes == *sign)
}

/// How many bytes the longest sign at the front has, 0 where no sign stands there.
fn sign_len(text: &[u8]) -> usize
    ensures value { result ≡ sign_len text.now }
    ensures within { result ≤ length text.now }
{
    if text.len() >= 2 && is_among(&text[..2], &LONG) {
        2
    } else if text.len() >= 1 && is_among(&text[..1], &SHORT) {
        1
    } else {
        0
    }
}

/// The longest sign at the front, or that the first byte of the text begins no token.
#[tactic(auto, unfolding(crate::specs::Fronts::sign_at))]
pub fn sign_at(first: u8, text: &[u8]) -> Result<Piece, LexFault>
    ensures value { result ≡ sign_at first text.now }
    ensures within { IfOk result (λ piece. HasSize piece text.now) }
{
    let size = sign_len(text);
    if size == 0 {
        return Err(LexFault::BadByte { byte: first });
    }
    Ok(Piece::token(TokenKind::Sign, size))
}
