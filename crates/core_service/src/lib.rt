//! The engine as a library for services: made from a query text, it takes the lines of events one at a
//! time, and gives the answers one at a time as numbers.
//!
//! Promised: `Service::open` gives a service of the text's schema and queries, or exactly its first fault;
//! `feed` takes a line's event, or refuses the line for its reason, and then nothing has changed; `next`
//! gives the rows that are left at the last position, each once; a cursor that is held (`hold`) gives those
//! of its query at the position where it was opened, whatever comes after; want of memory changes nothing of
//! what is served. What this comes to over many calls stands in `laws`, what a service is to its callers in
//! `specs/Services` and `specs/Holding`, and the whole in `specs/Serving` and `specs/HoldingLaws`.
//! It stands on `ceql_parser` for the text, `event_reader` and `event_run` for lines, and `query_engine`.
#![tactic(auto)]

mod answering;
mod compacting;
mod held;
pub mod laws;
mod lines;
mod marks;
mod service;
mod shown;
#[cfg(test)]
mod tests;

use cer_base::Pos;
use event_reader::EventFault;
pub use marks::MOST_HELD;
pub use service::Service;

/// What a line that was taken gives.
#[derive(Drop, Debug, Clone, Copy, PartialEq, Eq)]
pub enum Fed {
    /// An event, which is the last one now.
    Event,
    /// Nothing: the line is empty but for a carriage return.
    Nothing,
}

/// Why a line is refused.
#[derive(Drop, Debug, Clone, Copy, PartialEq, Eq)]
pub enum LineRefusal {
    /// The bytes hold a line feed, so they are no line.
    LineFeed,
    /// The line is no event, or with its event the clock of a query would fall.
    Event(EventFault),
}

/// Why no further line of many was taken.
#[derive(Drop, Debug, Clone, Copy, PartialEq, Eq)]
pub enum SomeStop {
    /// The last line that was taken gives an event, and it may have an answer.
    MayAnswer,
    /// No whole line is left among the bytes.
    End,
    /// The next line is refused.
    Refused(Refused),
    /// Memory ran out.
    Memory,
}

/// Why no cursor is held. The first of these that holds is the reason.
#[derive(Drop, Debug, Clone, Copy, PartialEq, Eq)]
pub enum HoldFault {
    /// There is no query of this number, which is from 1.
    NoQuery,
    /// No event was taken.
    NoEventYet,
    /// As many cursors are held as may be, `MOST_HELD`.
    TooMany,
    /// Memory ran out, or 2^62 cursors were opened.
    Memory,
}

/// Why a held cursor gives no answer.
#[derive(Drop, Debug, Clone, Copy, PartialEq, Eq)]
pub enum HeldFault {
    /// No cursor of this number is held.
    NotHeld,
    /// Memory ran out: the cursor has the same answers left.
    Memory,
}

/// How many of the bytes are those of the lines that were taken, with their line feeds, and why no
/// further line was.
#[derive(Drop, Debug, Clone, Copy, PartialEq, Eq)]
pub struct FedSome {
    pub used: usize,
    pub stop: SomeStop,
}

/// What a service keeps: how many events it took and how many queries it has, and of one of these how
/// many nodes are kept, how many there were at most after an event, and how many states were found.
#[derive(Drop, Debug, Clone, Copy, PartialEq, Eq)]
pub struct Sizes {
    pub events: u64,
    pub queries: u64,
    pub nodes: u64,
    pub peak: u64,
    pub states: u64,
}

/// A line that was refused: its number, from 1, after the lines that were taken before it, and why.
#[derive(Drop, Debug, Clone, Copy, PartialEq, Eq)]
pub struct Refused {
    pub line: u64,
    pub refusal: LineRefusal,
}

/// An answer as numbers: that of its query, from 1, the positions from 0 at which the complex event
/// starts and ends, and how many positions are marked. `Service::positions` has these.
#[derive(Drop, Debug, Clone, Copy, PartialEq, Eq)]
pub struct AnswerNumbers {
    pub query: u64,
    pub start: Pos,
    pub end: Pos,
    pub count: usize,
}
