//! Which events a run takes of an event file, and why it takes no more.
//!
//! Promised: `take_event` gives an engine the next event of a file, or says exactly why there is
//! none, as `specs/Runs` defines it: the end, the first line that is no event, the first event with
//! which a query's clock falls, too many bytes, or a fault of the source. `give_event` gives it an
//! event that was read before, and `read_events` lists the events of a file without an engine. A
//! run is one thing, and every file has one (`laws`).
//! It stands on `event_reader` for lines and events, and on `query_engine`.
#![tactic(auto)]

mod clocks;
pub mod laws;
mod listing;
mod taking;

use event_reader::EventFault;
pub use listing::read_events;
pub use taking::{fault_of, give_event, take_event};

/// What a call has found.
#[derive(Debug, Clone, Copy, PartialEq, Eq)]
pub enum NextEvent {
    /// An event, which the engine took.
    Event,
    /// The end of the file.
    End,
}

/// Why no further event is taken.
#[derive(Drop, Debug, Clone, Copy, PartialEq, Eq)]
pub enum RunFault {
    /// The line of this number, from 1, is no event, or with its event the clock of a query falls.
    Event { line: u64, fault: EventFault },
    /// So many bytes were taken, which are too many.
    InputTooLong { taken: u64 },
    /// The source failed, and its count of faults rose.
    ReadFault,
}
