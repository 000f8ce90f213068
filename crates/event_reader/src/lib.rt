//! The event file: which lines its bytes are, and which event a line is, or why it is none.
//!
//! Promised: `Lines` gives exactly the lines of the definition `file_lines`, however its source cuts
//! the bytes, and says exactly why there is no further one. `EventBuffer::read` answers exactly the event
//! of the line, or the first of its refusals, where the fields are those of `csv`'s own definition;
//! `read_event` is the same in memory of its own. No line is handed to `csv`: a walk over the line's
//! bytes is proved to give the fields of that definition.
//! It stands on `csv` for the definition, and on `memchr`, `cer_outside`, `stream_schema` and
//! `cer_base`.
#![tactic(auto)]

use stream_schema::Kind;

mod common;
mod event_buffer;
mod events;
mod faults;
mod fields;
mod line_buffer;
mod numbers;
mod quoted;
mod reader;
mod refusals;
mod types;
mod values;
pub mod words;

pub use event_buffer::EventBuffer;
pub use events::read_event;
pub use reader::{Lines, Next};

/// Why a line of an event file, or of a script of commands, was refused. Where several of an event's
/// refusals hold of a line, the first of these is the answer. It is shown by its words.
#[derive(Drop, Debug, Clone, Copy, PartialEq, Eq)]
pub enum EventFault {
    /// The line has more than 65,536 bytes.
    LineTooLong,
    /// The line holds a carriage return besides the one at its end, or begins with a byte order
    /// mark.
    BadLine,
    /// The line ends inside quotes.
    OpenQuote,
    /// No declared type has the name that the first field gives.
    UnknownType,
    /// The number of fields, the type's name not counted, is not that of the attributes.
    FieldCount { want: u64, got: u64 },
    /// The field of this number, from 1 without the type's name, is not of the declared kind.
    BadValue { field: u64, kind: Kind },
    /// The clock of the query of this number falls below that of its last event.
    TimeBack { query: u64, before: i128, now: i128 },
    /// The event's clock is further below the greatest one that came than an event may be late.
    TooLate { high: i64, now: i64 },
    /// The line of a script is no command.
    UnknownCommand,
    /// A cursor is to be opened for the query of this number, from 1, and there is none.
    NoQuery { query: u64 },
    /// A cursor is to be opened, and the one of this number is open.
    CursorOpen { cursor: u64 },
    /// A command asks for the cursor of this number, which is not open.
    CursorNotOpen { cursor: u64 },
    /// A cursor is to be opened before any event came.
    NoEventYet,
}

/// Why there is no further line. It is shown by its words.
#[derive(Drop, Debug, Clone, Copy, PartialEq, Eq)]
pub enum LineFault {
    /// The source failed.
    ReadFault,
    /// The line of this number, from 1, has more than 65,536 bytes.
    LineTooLong { line: u64 },
    /// This many bytes were taken, which is the budget, and the input does not end there.
    InputTooLong { taken: u64 },
}
