//! Blanks, names and keywords.

ghost use Rattle.ceql_lexer.specs.Fronts.{HasSize, word_at};
ghost use Rattle.ceql_lexer.specs.Letters.{begins_word, continues_word, is_white_space, is_in_line, is_keyword};
ghost use Rattle.std.specs.Char.{to_ascii_uppercase};
ghost use Rattle.std.specs.List.{list_any, prefix_len};
ghost use Rattle.std.specs.Str.{str_to_ascii_uppercase};
ghost use Rattle.std.specs.Prelude.{◌≡◌, ◌<◌, ◌≤◌, ◌↔◌, IsTrue, length, map, bytes_eq};

use crate::TokenKind;
use crate::front::Piece;

/// Whether the byte is white space.
pub fn is_white_space(byte: u8) -> bool
    ensures { result ≡ is_white_space byte }
{
    byte == b' ' || byte == b'\t' || byte == b'\r' || byte == b'\n'
}

/// How many bytes stand before the first line feed.
pub fn line_len(text: &[u8]) -> usize
    ensures value { result ≡ prefix_len is_in_line text.now }
    ensures within { result ≤ length text.now }
{
    text.iter().take_while(|byte| **byte != b'\n').count()
}

/// Whether a word may begin with the byte.
pub fn may_begin(byte: u8) -> bool
    ensures { result ≡ begins_word byte }
{
    byte.is_ascii_alphabetic() || byte == b'_'
}

/// Whether a word may go on with the byte.
fn may_continue(byte: u8) -> bool
    ensures { result ≡ continues_word byte }
{
    byte.is_ascii_alphanumeric() || byte == b'_'
}

/// How many bytes from the front may go on a word.
fn word_len(text: &[u8]) -> usize
    ensures value { result ≡ prefix_len continues_word text.now }
    ensures within { result ≤ length text.now }
{
    text.iter().take_while(|byte| may_continue(**byte)).count()
}

/// Whether the word is the keyword in some ASCII case; the keyword stands in capitals.
fn is_case_of(word: &[u8], keyword: &[u8]) -> bool
    ensures { IsTrue result ↔ (map to_ascii_uppercase word.now ≡ keyword.now) }
{
    if word.len() != keyword.len() {
        return false;
    }
    for (i, byte) in word.iter().enumerate() {
        if byte.to_ascii_uppercase() != keyword[i] {
            return false;
        }
    }
    true
}

const KEYWORDS: [&[u8]; 31] = [
    b"ALL",
    b"ANY",
    b"AND",
    b"AS",
    b"BOOL",
    b"BY",
    b"DECIMAL",
    b"DECLARE",
    b"EVENT",
    b"EVENTS",
    b"FALSE",
    b"FILTER",
    b"FROM",
    b"HOUR",
    b"HOURS",
    b"INT",
    b"KEEP",
    b"MINUTE",
    b"MINUTES",
    b"NOT",
    b"OR",
    b"PARTITION",
    b"SECOND",
    b"SECONDS",
    b"SELECT",
    b"STREAM",
    b"STRICT",
    b"STRING",
    b"TRUE",
    b"WHERE",
    b"WITHIN",
];

/// Whether the word in capitals is the keyword.
pub fn in_capitals_is(word: &[u8], keyword: &[u8]) -> bool
    ensures { result ≡ bytes_eq (str_to_ascii_uppercase word.now) keyword.now }
{
    is_case_of(word, keyword)
}

/// Whether the word in capitals is among the keywords.
fn in_capitals_is_among(word: &[u8], keywords: &[&[u8]]) -> bool
    ensures { result ≡ list_any (λ keyword.
        bytes_eq (str_to_ascii_uppercase word.now) keyword.now) keywords.now }
{
    keywords.iter().any(|keyword| in_capitals_is(word, keyword))
}

/// Whether the word is a keyword in some ASCII case.
fn may_be_keyword(word: &[u8]) -> bool
    ensures { result ≡ is_keyword word.now }
{
    in_capitals_is_among(word, &KEYWORDS)
}

/// The longest word at the front, a name or a keyword.
#[tactic(auto, unfolding(crate::specs::Fronts::word_at))]
pub fn word_at(text: &[u8]) -> Piece
    requires { 0 < prefix_len continues_word text.now }
    ensures value { result ≡ word_at text.now }
    ensures within { HasSize result text.now }
{
    let size = word_len(text);
    let kind = if may_be_keyword(&text[..size]) {
        TokenKind::Keyword
    } else {
        TokenKind::Name
    };
    Piece {
        kind: Some(kind),
        size,
    }
}
