//! Numbers.

ghost use Rattle.ceql_lexer.specs.Fronts.{checked_number, number_at, number_of};
ghost use Rattle.ceql_lexer.specs.Numerals.{decimals_at};
ghost use Rattle.cer_base.specs.Digits.{farthest, read_on};
ghost use Rattle.std.specs.Char.{is_ascii_digit};
ghost use Rattle.std.specs.List.{prefix_len};
ghost use Rattle.std.specs.Prelude.{◌≡◌, ◌+◌, ◌==◌, ◌<◌, ◌≤◌, ◌^◌, if◌then◌else◌, IfOk, length, nat_le, nat_lt};

use crate::front::Piece;
use crate::{LexFault, TokenKind};
use cer_base::digits::{farthest, with_digits};
use cer_base::limits::MOST_PLACES;

/// How many digits stand at the front.
fn digits_len(text: &[u8]) -> usize
    ensures value { result ≡ prefix_len is_ascii_digit text.now }
    ensures within { result ≤ length text.now }
{
    text.iter().take_while(|byte| byte.is_ascii_digit()).count()
}

/// The digits after a point at the front, none where no point stands there.
fn decimals_at(text: &[u8]) -> &[u8]
    ensures value { result.now ≡ decimals_at text.now }
    ensures within { 0 < length result.now → length result.now < length text.now }
{
    match text {
        [b'.', rest @ ..] => &rest[..digits_len(rest)],
        _ => &text[..0],
    }
}

/// Whether the number that the digits write is in signed 64 bits, after so many bytes of sign.
fn is_in_range(sign: usize, whole: &[u8], decimals: &[u8]) -> bool
    ensures { result ≡ nat_le (read_on (read_on 0 whole.now) decimals.now)
        (farthest (nat_lt 0 sign)) }
{
    let limit = farthest(sign > 0);
    match with_digits(limit, 0, whole) {
        None => false,
        Some(value) => with_digits(limit, value, decimals).is_some(),
    }
}

/// The number of so many bytes of sign, digits and decimals.
fn number_of(sign: usize, whole: usize, decimals: usize) -> Piece
    requires { sign + whole + (if decimals == 0 then 0 else 1 + decimals) < 2 ^ 64 }
    ensures value { result ≡ number_of sign whole decimals }
    ensures least { sign + whole ≤ result.size }
    ensures most { result.size ≤ sign + whole + (if decimals == 0 then 0 else 1 + decimals) }
{
    if decimals == 0 {
        Piece::token(TokenKind::Number, sign + whole)
    } else {
        Piece::token(TokenKind::Decimal, sign + whole + 1 + decimals)
    }
}

/// The longest number whose digits are at the front, after so many bytes of sign.
#[tactic(auto, unfolding(crate::specs::Fronts::number_at))]
pub fn number_at(sign: usize, text: &[u8]) -> Result<Piece, LexFault>
    requires digit { 0 < prefix_len is_ascii_digit text.now }
    requires room { sign + length text.now < 2 ^ 64 }
    ensures value { result ≡ number_at sign text.now }
    ensures within { IfOk result (λ piece. (0 < piece.size)
        × (piece.size ≤ sign + length text.now)) }
{
    let (whole, behind) = text.split_at(digits_len(text));
    let decimals = decimals_at(behind);
    if decimals.len() > MOST_PLACES as usize {
        return Err(LexFault::TooFine);
    }
    if !is_in_range(sign, whole, decimals) {
        return Err(LexFault::NumberTooLarge);
    }
    Ok(number_of(sign, whole.len(), decimals.len()))
}
