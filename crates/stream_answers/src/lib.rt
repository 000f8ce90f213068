//! The answers over the events of a source, written to a sink.
//!
//! Promised: `write_events` gives an engine the events of any source of events one after the other
//! and writes, after each, the answers of all queries there, as `specs/Streams` says: all of them up
//! to the end or to the first fault, and where the sink fails or memory runs out a first part of them.
//! `write_answers` does so with the events of a file as they come, and `write_answers_after` with an
//! engine that has events already: none is written at these. In sorted order lines are gathered until
//! they fill a piece or the source has to be asked; in walk order each is written before the next
//! answer is asked for. It stands on `event_run` for the events, on `answer_blocks` for the answers.
#![tactic(auto)]

mod events;
mod output;
pub mod schedule;
mod stream;

use answer_text::Order;
use event_reader::EventFault;
pub use events::{Events, Step};
pub use schedule::Schedule;
pub use stream::{stream_fault, write_answers, write_answers_after, write_events};

/// What a run is told besides its queries and its events.
#[derive(Drop, Clone, Copy)]
pub struct RunOptions {
    /// The order of the lines of one position and query.
    pub order: Order,
    /// The engine is compacted after every so many events, and with 0 never; without a number each of its
    /// queries is compacted once it has grown enough.
    pub compact_every: Option<u64>,
    /// So many bytes of events are too many.
    pub most_bytes: u64,
}

/// Why the answers ended before the end of the source.
#[derive(Drop, Debug, Clone, Copy, PartialEq, Eq)]
pub enum StreamFault {
    /// The line of this number, from 1, is no event, or with its event the clock of a query falls.
    Event { line: u64, fault: EventFault },
    /// So many bytes were taken, which are too many.
    InputTooLong { taken: u64 },
    /// The source failed, and its count of faults rose.
    ReadFault,
    /// The sink failed, and its count of faults rose.
    WriteFault,
}
