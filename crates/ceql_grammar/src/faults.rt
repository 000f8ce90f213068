//! Why a query text is refused.

ghost use Rattle.std.specs.Prelude.{◌≡◌, Some};
ghost use Rattle.std.specs.Fmt.{DisplaysOnOk};
ghost use Rattle.ceql_grammar.specs.FaultWords.{literal_kind, query_words};
ghost use Rattle.ceql_grammar.specs.TokenFaults.{token_error, token_fault};

use ceql_lexer::{LexError, LexFault};
use cer_base::limits::{LONGEST_TEXT, MOST_LEAVES, MOST_PLACES, MOST_QUERIES};
use cer_base::{Location, Text};
use std::fmt::{Display, Error, Formatter, Write};
use stream_schema::Kind;

/// Why a query text is refused. It is shown by its words.
#[derive(Drop, Debug)]
pub enum QueryFault {
    /// The byte begins no token, blank or comment. Its place is the byte's.
    BadByte { byte: u8 },
    /// A line feed or the end comes before the closing quote. Its place is the opening quote's.
    OpenString,
    /// The number, or a decimal number without its point, is outside signed 64 bits. Its place is
    /// its first byte's.
    NumberTooLarge,
    /// The string is closed, but its bytes are not UTF-8. Its place is the opening quote's.
    NotUtf8,
    /// More than 9 digits stand after the point. Its place is the number's first byte.
    TooFine,
    /// No text of the grammar goes on with this token, or none ends here. Its place is the token's,
    /// or that of the end.
    Unexpected { at_end: bool },
    /// A type, a stream or an attribute has the name already, or a type of the query has it. Its
    /// place is the name's, as for all faults with a name.
    NameTaken { name: Text },
    /// No type has the name, or none of the query's.
    UnknownType { name: Text },
    /// No stream has the name.
    UnknownStream { name: Text },
    /// The formula has no such name.
    UnknownName { name: Text },
    /// No type of the query has the attribute.
    UnknownAttribute { name: Text },
    /// No type of the query has the attribute with a kind that compares with the literal's, which
    /// is given.
    NeverKind { name: Text, kind: Kind },
    /// TRUE and FALSE have no order. Its place is the attribute's.
    NoOrder,
    /// At this `(` 64 are open since the last DECLARE or SELECT. Its place is the sign's.
    TooDeep,
    /// The formula has more leaves than a query may have. Its place is the SELECT's.
    TooManyLeaves,
    /// The text has no query. Its place is that of the end.
    NoQuery,
    /// The text has more queries than it may have. Its place is the SELECT's.
    TooManyQueries,
    /// Some type of the query lacks the window's attribute, or has it with another kind than INT.
    WindowKind { name: Text },
    /// The text is too long. Its place is the first.
    TextTooLong,
    /// DECIMAL takes 0 to 9. Its place is the number's.
    BadScale,
    /// ANY takes 1 to 4294967295. Its place is the number's.
    BadCount,
}

/// The word of a query text for the kind.
fn kind_word(kind: Kind) -> &'static str
    ensures { result.now ≡ literal_kind kind }
{
    match kind {
        Kind::Int => "INT",
        Kind::Text => "STRING",
        Kind::Flag => "BOOL",
        Kind::Dec(_) => "DECIMAL",
    }
}

/// What is wrong with the byte, in words.
fn write_bad_byte<W: Write>(f: &mut Formatter<W>, byte: u8) -> Result<(), Error>
    ensures { DisplaysOnOk W.write_str_gives f.old result
        (Some (query_words (QueryFault.BadByte byte))) f.new }
{
    write!(f, "byte {byte:02x} not allowed")
}

impl Display for QueryFault {
    ghost output = { λ fault. Some (query_words fault) };

    fn fmt<W: Write>(&self, f: &mut Formatter<W>) -> Result<(), Error> {
        match self {
            QueryFault::BadByte { byte } => write_bad_byte(f, *byte),
            QueryFault::OpenString => write!(f, "string not closed"),
            QueryFault::NumberTooLarge => write!(f, "number too large"),
            QueryFault::NotUtf8 => write!(f, "string is not UTF-8"),
            QueryFault::TooFine => write!(f, "more than {MOST_PLACES} decimals"),
            QueryFault::Unexpected { at_end: true } => write!(f, "unexpected end of text"),
            QueryFault::Unexpected { at_end: false } => write!(f, "unexpected token"),
            QueryFault::NameTaken { name } => write!(f, "name {} taken", name.as_str()),
            QueryFault::UnknownType { name } => write!(f, "unknown type {}", name.as_str()),
            QueryFault::UnknownStream { name } => write!(f, "unknown stream {}", name.as_str()),
            QueryFault::UnknownName { name } => write!(f, "unknown name {}", name.as_str()),
            QueryFault::UnknownAttribute { name } => {
                write!(f, "unknown attribute {}", name.as_str())
            }
            QueryFault::NeverKind { name, kind } => {
                let kind = kind_word(*kind);
                write!(f, "attribute {} is never {kind}", name.as_str())
            }
            QueryFault::NoOrder => write!(f, "BOOL has no order"),
            QueryFault::TooDeep => write!(f, "nested too deeply"),
            QueryFault::TooManyLeaves => write!(f, "more than {MOST_LEAVES} leaves"),
            QueryFault::NoQuery => write!(f, "no query"),
            QueryFault::TooManyQueries => write!(f, "more than {MOST_QUERIES} queries"),
            QueryFault::WindowKind { name } => write!(
                f,
                "window attribute {} is not INT in every type",
                name.as_str()
            ),
            QueryFault::TextTooLong => write!(f, "text longer than {LONGEST_TEXT} bytes"),
            QueryFault::BadScale => write!(f, "DECIMAL takes 0 to {MOST_PLACES}"),
            QueryFault::BadCount => write!(f, "ANY takes 1 to 4294967295"),
        }
    }
}

impl From<LexFault> for QueryFault {
    ghost from_gives = { λ fault given. given ≡ token_fault fault };

    fn from(fault: LexFault) -> QueryFault {
        match fault {
            LexFault::BadByte { byte } => QueryFault::BadByte { byte },
            LexFault::OpenString => QueryFault::OpenString,
            LexFault::NumberTooLarge => QueryFault::NumberTooLarge,
            LexFault::NotUtf8 => QueryFault::NotUtf8,
            LexFault::TooFine => QueryFault::TooFine,
        }
    }
}

/// The first fault of a query text, and its place.
#[derive(Drop, Debug)]
pub struct QueryError {
    pub fault: QueryFault,
    pub place: Location,
}

impl From<LexError> for QueryError {
    ghost from_gives = { λ error given. given ≡ token_error error };

    fn from(error: LexError) -> QueryError {
        QueryError {
            fault: QueryFault::from(error.fault),
            place: error.place,
        }
    }
}
