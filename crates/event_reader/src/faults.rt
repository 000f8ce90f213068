//! What each fault is, in words.

ghost use Rattle.std.specs.Prelude.{Some};
ghost use Rattle.event_reader.specs.FaultWords.{declared_kind, event_words, line_words};

use crate::{EventFault, LineFault};
use cer_base::limits::LONGEST_LINE;
use std::fmt::{Display, Error, Formatter, Write};
use stream_schema::Kind;

/// A kind, shown as its declaration names it.
#[derive(Clone, Copy)]
struct Declared(Kind);

impl Display for Declared {
    ghost output = { λ declared. Some (declared_kind declared.0) };

    fn fmt<W: Write>(&self, f: &mut Formatter<W>) -> Result<(), Error> {
        match self.0 {
            Kind::Int => write!(f, "INT"),
            Kind::Text => write!(f, "STRING"),
            Kind::Flag => write!(f, "BOOL"),
            Kind::Dec(places) => write!(f, "DECIMAL({places})"),
        }
    }
}

impl Display for EventFault {
    ghost output = { λ fault. Some (event_words fault) };

    fn fmt<W: Write>(&self, f: &mut Formatter<W>) -> Result<(), Error> {
        match self {
            EventFault::LineTooLong => write!(f, "line longer than {LONGEST_LINE} bytes"),
            EventFault::BadLine => write!(f, "carriage return or byte order mark in the line"),
            EventFault::OpenQuote => write!(f, "open quote"),
            EventFault::UnknownType => write!(f, "unknown type"),
            EventFault::FieldCount { want, got } => {
                write!(f, "{got} fields where {want} is wanted")
            }
            EventFault::BadValue { field, kind } => {
                write!(f, "field {field} is no {}", Declared(*kind))
            }
            EventFault::TimeBack { query, before, now } => {
                write!(f, "time falls from {before} to {now} in query {query}")
            }
            EventFault::TooLate { high, now } => {
                write!(f, "time {now} comes too late after {high}")
            }
            EventFault::UnknownCommand => write!(f, "unknown command"),
            EventFault::NoQuery { query } => write!(f, "no query {query}"),
            EventFault::CursorOpen { cursor } => write!(f, "cursor {cursor} is open"),
            EventFault::CursorNotOpen { cursor } => write!(f, "cursor {cursor} is not open"),
            EventFault::NoEventYet => write!(f, "no event yet"),
        }
    }
}

impl Display for LineFault {
    ghost output = { λ fault. Some (line_words fault) };

    fn fmt<W: Write>(&self, f: &mut Formatter<W>) -> Result<(), Error> {
        match self {
            LineFault::ReadFault => write!(f, "cannot read"),
            LineFault::LineTooLong { line } => {
                write!(f, "line {line} is longer than {LONGEST_LINE} bytes")
            }
            LineFault::InputTooLong { taken } => write!(f, "input longer than {taken} bytes"),
        }
    }
}
