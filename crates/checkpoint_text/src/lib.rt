//! The text of a checkpoint: how many events came, and those that the windows still need.
//!
//! Promised: `read_checkpoint` answers exactly the history that the text tells, or exactly the first
//! line that is refused, and why; the laws say so apart from how it is read.
//! It stands on `event_reader` for lines and events, and on `cel_terms` for what a query reads.
#![tactic(auto)]

ghost use Rattle.std.specs.Prelude.{◌≡◌};
ghost use Rattle.checkpoint_text.specs.FaultWords.{fault_words};

mod clocks;
mod history;
mod keeping;
pub mod laws;
mod numbers;
mod reading;
mod replaying;
mod stand;

pub use clocks::Fall;
pub use history::{EventAt, History};
pub use keeping::{Keep, KeptLine};
pub use numbers::MOST_POSITIONS;
pub use reading::read_checkpoint;
pub use replaying::replay;

/// Why a line is refused.
#[derive(Drop, Debug, Clone, Copy, PartialEq, Eq)]
pub enum CheckpointFault {
    /// It has more than 65,536 bytes.
    LongLine,
    /// The first line is not `core checkpoint 1`.
    BadHeader,
    /// The second line is not `events P K` with P at most 2 to the 62 and K at most P.
    BadCount,
    /// It is not `at N` with N below P and above each N before.
    BadPosition,
    /// It is no event, or with its event the clock of a query falls.
    BadEvent,
    /// The text ends before this line, which is missing.
    Short,
    /// The line stands after the last one.
    Extra,
    /// This many lines and no end are in the bytes that may be read; the line is the next one.
    TooLong,
}

impl CheckpointFault {
    /// What is wrong with the line, in words.
    pub fn words(self) -> &'static str
        ensures { result.now ≡ fault_words self }
    {
        match self {
            CheckpointFault::LongLine => "line too long",
            CheckpointFault::BadHeader => "bad header",
            CheckpointFault::BadCount => "bad count",
            CheckpointFault::BadPosition => "bad position",
            CheckpointFault::BadEvent => "bad event",
            CheckpointFault::Short => "missing line",
            CheckpointFault::Extra => "extra line",
            CheckpointFault::TooLong => "too long",
        }
    }
}

/// Why a text has no history.
#[derive(Drop, Debug, Clone, Copy, PartialEq, Eq)]
pub enum HistoryFault {
    /// The line of this number, from 1, is the first that is refused.
    Bad { line: u64, fault: CheckpointFault },
    /// The source failed, and its count of faults rose.
    ReadFault,
}
