//! Strings.

ghost use Rattle.ceql_lexer.specs.Fronts.{closing, string_at, HasSize};
ghost use Rattle.std.specs.Str.{is_utf8};
ghost use Rattle.std.specs.Prelude.{◌≡◌, ◌+◌, ◌∷◌, ◌<◌, ◌≤◌, IfOk, IfSome, length, drop};

use crate::front::Piece;
use crate::{LexFault, TokenKind};

/// The byte that no string has.
const LINE_FEED: u8 = b'\n';

/// Whether the bytes are UTF-8.
fn is_utf8(bytes: &[u8]) -> bool
    ensures { result ≡ is_utf8 bytes.now }
{
    std::str::from_utf8(bytes).is_ok()
}

/// How many bytes a string has after its opening quote, with its closing quote. None where a
/// line feed or the end comes before that.
fn closing(quote: u8, text: &[u8]) -> Option<usize>
    ensures value { result ≡ closing quote text.now }
    ensures within { IfSome result (λ size. (0 < size) × (size ≤ length text.now)) }
{
    let mut passed = 0;
    while passed < text.len() && text[passed] != LINE_FEED {
        if text[passed] != quote {
            passed += 1;
        } else if passed + 1 < text.len() && text[passed + 1] == quote {
            passed += 2;
        } else {
            return Some(passed + 1);
        }
    }
    None
}

/// The string that the text begins with, the first byte being its opening quote.
#[tactic(auto, unfolding(crate::specs::Fronts::string_at))]
pub fn string_at(quote: u8, text: &[u8], behind: &[u8]) -> Result<Piece, LexFault>
    requires { text.now ≡ quote ∷ behind.now }
    ensures value { result ≡ string_at quote behind.now }
    ensures within { IfOk result (λ piece. HasSize piece text.now) }
{
    match closing(quote, behind) {
        None => Err(LexFault::OpenString),
        Some(size) => {
            if is_utf8(&text[..size + 1]) {
                Ok(Piece::token(TokenKind::Quoted, size + 1))
            } else {
                Err(LexFault::NotUtf8)
            }
        }
    }
}
