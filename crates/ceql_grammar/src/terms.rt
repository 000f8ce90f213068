//! Statements as they stand in a text, before they are checked against one another.

use cel_terms::{Name, Names, Query};
use cer_base::{Listed, Location};

/// A whole number of signed 64 bits, and the place of its first byte.
#[derive(Debug, Clone, Copy, PartialEq, Eq)]
pub struct NumberAt {
    pub value: i64,
    pub place: Location,
}

/// What an attribute is declared to hold.
#[derive(Debug, Clone, Copy, PartialEq, Eq)]
pub enum KindDecl {
    Int,
    Text,
    Flag,
    /// A decimal number. How many places it has is not tested yet.
    Dec(NumberAt),
}

/// An attribute of a declared type.
#[derive(Drop, Debug)]
pub struct AttrDecl {
    pub name: Name,
    pub kind: KindDecl,
}

pub type AttrDecls = Listed<AttrDecl>;

/// A SELECT. The number after ANY is not tested yet, and until then the query's own `any` is None.
#[derive(Drop, Debug)]
pub struct Select {
    pub query: Query,
    pub any: Option<NumberAt>,
}

#[derive(Drop, Debug)]
pub enum Statement {
    /// A type with its attributes, of which there may be none.
    Event(Name, AttrDecls),
    /// A stream with its types, at least one.
    Stream(Name, Names),
    Select(Select),
}

pub type Statements = Listed<Statement>;

/// The statements of a text in order, and the place just after its last byte.
#[derive(Drop, Debug)]
pub struct Script {
    pub statements: Statements,
    pub end: Location,
}
