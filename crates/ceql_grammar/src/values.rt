//! Numbers, literals and the signs of comparisons.

ghost use Rattle.ceql_grammar.specs.ReadResults.{Reads, ReadsAs, SkipsTo};
ghost use Rattle.ceql_grammar.specs.WordsAndSigns.{among};
ghost use Rattle.ceql_grammar.specs.RuleReaders.{count, literal, whole_number, op};
ghost use Rattle.ceql_grammar.specs.RuleForms.{first_token};
ghost use Rattle.ceql_grammar.specs.Statements.{placed_number};
ghost use Rattle.ceql_grammar.specs.Values.{has_minus, is_count, is_in_range, is_literal, is_number, is_op, is_unit, literal_of, unsigned_number, op_of, places, seconds_in, signed_number, unquoted};
ghost use Rattle.std.specs.Prelude.{◌≡◌, ◌+◌, ◌-◌, ◌*◌, ◌<◌, ◌≤◌, ◌^◌, ◌↔◌, ◌==◌, not, if◌then◌else◌, IfOk, IfSome, IsTrue, MatchOption, length, true, false};
ghost use Rattle.std.specs.List.{prefix_len};
ghost use Rattle.std.specs.Str.{IsUtf8, is_utf8};

use crate::terms::NumberAt;
use crate::tokens::{Read, is};
use cel_terms::Op;
use ceql_lexer::{Token, TokenKind};
use cer_base::digits::{farthest, with_digit, with_sign};
use cer_base::limits::MOST_PLACES;
use cer_base::{Memory, OrMemory, Text};
use std::alloc::Global;
use stream_schema::Value;

/// The number that the digits of the text write, where that is at most the limit.
fn unsigned_number(limit: u64, text: &[u8]) -> Option<u64>
    ensures { MatchOption result (limit < unsigned_number text.now)
        (λ x. (x ≡ unsigned_number text.now) × (x ≤ limit)) }
{
    let mut value = 0;
    for byte in text {
        if byte.is_ascii_digit() {
            match with_digit(limit, value, *byte) {
                None => return None,
                Some(more) => value = more,
            }
        }
    }
    Some(value)
}

/// Whether the text begins with a `-`.
fn has_minus(text: &[u8]) -> bool
    ensures { result ≡ has_minus text.now }
{
    match text.split_first() {
        Some((first, _)) => *first == b'-',
        None => false,
    }
}

/// The number that the text writes, its point left out, where it is in signed 64 bits.
fn signed_number(text: &[u8]) -> Option<i64>
    ensures { MatchOption result (is_in_range text.now ≡ false)
        (λ n. (n ≡ signed_number text.now) × (is_in_range text.now ≡ true)) }
{
    let negative = has_minus(text);
    let magnitude = unsigned_number(farthest(negative), text)?;
    Some(with_sign(negative, magnitude))
}

/// How many bytes stand before the point.
fn whole_len(text: &[u8]) -> usize
    ensures value { result ≡ prefix_len (λ byte. not (byte == 46)) text.now }
    ensures within { result ≤ length text.now }
{
    text.iter().take_while(|byte| **byte != b'.').count()
}

/// How many digits stand after the point.
fn places(text: &[u8]) -> usize
    ensures { result ≡ places text.now }
{
    (text.len() - whole_len(text)).saturating_sub(1)
}

/// A whole number at the front, and its place.
pub fn whole_number<'a>(tokens: &'a [Token]) -> Read<'a, NumberAt>
    ensures { Reads (λ n. n) tokens.now result (whole_number tokens.now) }
{
    match tokens.split_first() {
        Some((first, rest)) => match (first.kind, signed_number(first.text.as_str().as_bytes())) {
            (TokenKind::Number, Some(value)) => {
                let place = first.place;
                Ok((NumberAt { value, place }, rest))
            }
            _ => Err(OrMemory::Fault(tokens)),
        },
        None => Err(OrMemory::Fault(tokens)),
    }
}

/// A whole number without a `-` at the front.
pub fn count<'a>(tokens: &'a [Token]) -> Read<'a, u64>
    ensures value { ReadsAs (λ n. n) result (count tokens.now) }
    ensures shorter { IfOk result (λ p. length p.1.now < length tokens.now) }
    ensures limit { IfOk result (λ p. p.0 < 2 ^ 63) }
{
    match tokens.split_first() {
        Some((first, rest)) => {
            let text = first.text.as_str().as_bytes();
            match (
                first.kind,
                has_minus(text),
                unsigned_number(farthest(false), text),
            ) {
                (TokenKind::Number, false, Some(value)) => Ok((value, rest)),
                _ => Err(OrMemory::Fault(tokens)),
            }
        }
        None => Err(OrMemory::Fault(tokens)),
    }
}

/// The bytes of a string without its quotes, each doubled quote being one.
fn unquoted(alloc: Global, text: &[u8]) -> Result<Vec<u8>, Memory>
    ensures { IfOk result (λ bytes. bytes.items ≡ unquoted text.now) }
{
    let mut bytes = Vec::new(alloc);
    if let Some((quote, inside)) = text.split_first() {
        let mut i = 0;
        while i + 1 < inside.len() {
            bytes.push(inside[i])?;
            if inside[i] == *quote {
                i += 2;
            } else {
                i += 1;
            }
        }
    }
    Ok(bytes)
}

/// The text of a string.
fn string(alloc: Global, text: &[u8]) -> Result<Option<Text>, Memory>
    ensures { IfOk result (λ found. MatchOption found (is_utf8 (unquoted text.now) ≡ false)
        (λ t. (t ≡ unquoted text.now) × (is_utf8 (unquoted text.now) ≡ true))) }
{
    let bytes = unquoted(alloc, text)?;
    match String::from_utf8(bytes) {
        Ok(string) => Ok(Some(Text::of(string))),
        Err(_) => Ok(None),
    }
}

/// The value of the token, where it is a literal.
fn literal_of(alloc: Global, token: &Token) -> Result<Option<Value>, Memory>
    ensures { IfOk result (λ found. MatchOption found (is_literal token.now ≡ false)
        (λ v. (v ≡ literal_of token.now) × (is_literal token.now ≡ true))) }
{
    let text = token.text.as_str().as_bytes();
    match token.kind {
        TokenKind::Number => Ok(signed_number(text).map(Value::Int)),
        TokenKind::Decimal => match signed_number(text) {
            Some(scaled) => {
                let places = places(text);
                if places <= MOST_PLACES as usize {
                    let places = places as u8;
                    Ok(Some(Value::Dec { scaled, places }))
                } else {
                    Ok(None)
                }
            }
            None => Ok(None),
        },
        TokenKind::Quoted => Ok(string(alloc, text)?.map(Value::Text)),
        TokenKind::Keyword => {
            if is(token, b"TRUE") {
                Ok(Some(Value::Flag(true)))
            } else if is(token, b"FALSE") {
                Ok(Some(Value::Flag(false)))
            } else {
                Ok(None)
            }
        }
        TokenKind::Name | TokenKind::Sign | TokenKind::End => Ok(None),
    }
}

/// A literal at the front.
pub fn literal<'a>(alloc: Global, tokens: &'a [Token]) -> Read<'a, Value>
    ensures { Reads (λ v. v) tokens.now result (literal tokens.now) }
{
    match tokens.split_first() {
        Some((first, rest)) => match literal_of(alloc, first)? {
            Some(value) => Ok((value, rest)),
            None => Err(OrMemory::Fault(tokens)),
        },
        None => Err(OrMemory::Fault(tokens)),
    }
}

/// The comparison that the sign stands for.
fn op_of(token: &Token) -> Option<Op>
    ensures { MatchOption result (is_op token.now ≡ false)
        (λ op. (op ≡ op_of token.now) × (is_op token.now ≡ true)) }
{
    if is(token, b"=") || is(token, b"==") {
        Some(Op::Eq)
    } else if is(token, b"!=") || is(token, b"<>") {
        Some(Op::Ne)
    } else if is(token, b"<") {
        Some(Op::Lt)
    } else if is(token, b"<=") {
        Some(Op::Le)
    } else if is(token, b">") {
        Some(Op::Gt)
    } else if is(token, b">=") {
        Some(Op::Ge)
    } else {
        None
    }
}

/// The sign of a comparison at the front.
pub fn op<'a>(tokens: &'a [Token]) -> Read<'a, Op>
    ensures { Reads (λ o. o) tokens.now result (op tokens.now) }
{
    match tokens.split_first() {
        Some((first, rest)) => match op_of(first) {
            Some(op) => Ok((op, rest)),
            None => Err(OrMemory::Fault(tokens)),
        },
        None => Err(OrMemory::Fault(tokens)),
    }
}

/// How many seconds the unit at the front has, and the tokens after it, where a unit stands there.
pub fn unit<'a>(tokens: &'a [Token]) -> Option<(u64, &'a [Token])>
    ensures value { SkipsTo result (first_token is_unit seconds_in tokens.now) }
    ensures shorter { IfSome result (λ p. length p.1.now < length tokens.now) }
    ensures most { IfSome result (λ p. p.0 ≤ 3600) }
{
    let (first, rest) = tokens.split_first()?;
    if is(first, b"SECOND") || is(first, b"SECONDS") {
        Some((1, rest))
    } else if is(first, b"MINUTE") || is(first, b"MINUTES") {
        Some((60, rest))
    } else if is(first, b"HOUR") || is(first, b"HOURS") {
        Some((3600, rest))
    } else {
        None
    }
}
