//! The tokens of a query text.
//!
//! Promised: `lex` gives exactly the tokens of the text, each with its slice and its place, or
//! exactly the first fault with its place; the only other answer is that memory ran out. What the
//! tokens of a text are is defined in `specs/Tokens`; that the definition loses no byte, counts
//! each place and takes the longest token is proved in `laws`. What a reader of tokens does with
//! words too stands here for it: `in_capitals_is`.
//! It stands on `cer_base` alone.
#![tactic(auto)]

use cer_base::{Listed, Location, Text};
pub use cutting::lex;
pub use words::in_capitals_is;

mod cutting;
mod front;
pub mod laws;
mod numbers;
mod quotes;
mod signs;
mod words;

/// Why a text has no tokens.
#[derive(Debug, Clone, Copy, PartialEq, Eq)]
pub enum LexFault {
    /// The byte begins no token, blank or comment. Its place is the byte's.
    BadByte { byte: u8 },
    /// A line feed or the end comes before the closing quote. Its place is the opening quote's.
    OpenString,
    /// The number, or a decimal number without its point, is outside signed 64 bits. Its place is
    /// the first byte's, which may be the `-`.
    NumberTooLarge,
    /// The string is closed, but its bytes are not UTF-8. Its place is the opening quote's.
    NotUtf8,
    /// More than 9 digits stand after the point, in range or not. Its place is the number's
    /// first byte.
    TooFine,
}

/// The first fault of a text, and its place.
#[derive(Debug, Clone, Copy, PartialEq, Eq)]
pub struct LexError {
    pub fault: LexFault,
    pub place: Location,
}

#[derive(Debug, Clone, Copy, PartialEq, Eq)]
pub enum TokenKind {
    /// A word that is no keyword.
    Name,
    /// A word that is a keyword in some ASCII case.
    Keyword,
    /// A whole number in signed 64 bits.
    Number,
    /// A number with 1 to 9 digits after its point; without the point it is in signed 64 bits.
    Decimal,
    /// A string with its two quotes, and with inner quotes still doubled.
    Quoted,
    /// One of `(` `)` `[` `]` `,` `;` `:` `:+` `+` `*` `=` `==` `!=` `<>` `<` `<=` `>` `>=`.
    Sign,
    /// The end of the text.
    End,
}

/// A token, with its bytes as they stand in the text and the place of the first of them. The end
/// has no bytes; its place is the one just after the last byte.
#[derive(Drop, Debug)]
pub struct Token {
    pub kind: TokenKind,
    pub text: Text,
    pub place: Location,
}

/// Tokens in the order of the text. `lex` gives at least one: the last, and only the last, is
/// the end.
pub type Tokens = Listed<Token>;

#[cfg(test)]
mod tests;
