//! What the words after the program's name ask for: a run over two files, the same over late events,
//! a session, a sample, why a complex event is an answer, a checkpoint of events, or the run that goes
//! on from one.
//!
//! Promised: the answer is `clap`'s own reading of the program's command, which `specs/Program` and
//! `specs/CommandLine` write out, and `Usage` where the words ask for nothing by it. By the laws in
//! `proofs/ForCallers` words ask for one command at most, and for none only where `clap` refuses
//! them for another cause than memory, or the order that is asked for is of neither name.
//! It stands on `clap`, and on `answer_text` for the order of the answers.
#![tactic(auto)]

ghost use Rattle.std.specs.Prelude.{◌≡◌, IfOk, map, string_bytes};
ghost use Rattle.cer_base.specs.Answers.{OnFault};
ghost use Rattle.command_words.specs.CommandLine.{AsksFor, AskNothing};

mod program;
mod reading;

use answer_text::Order;
use cer_base::{Listed, OrMemory, Text};
use std::alloc::Global;

/// A run: the answers to the queries of one file over the events of another.
#[derive(Drop)]
pub struct RunWords {
    pub queries: Text,
    pub events: Text,
    pub order: Order,
    /// From 1. The engine is compacted after every so many events; where it is not given each of its
    /// queries is once it has grown.
    pub compact_every: Option<u64>,
    /// From 1.
    pub most_bytes: u64,
}

/// A run over events that come late.
#[derive(Drop)]
pub struct ReorderWords {
    pub queries: Text,
    pub events: Text,
    /// The name of the attribute that is an event's clock.
    pub clock: Text,
    /// By how much an event's clock may be below one before it, from 0 to 2^63 - 1.
    pub late: u64,
    pub order: Order,
    /// From 1. The engine is compacted after every so many events; where it is not given each of its
    /// queries is once it has grown.
    pub compact_every: Option<u64>,
    /// From 1.
    pub most_bytes: u64,
}

/// Which complex event is asked about.
#[derive(Drop)]
pub struct Question {
    /// The query's number, from 1.
    pub query: u64,
    /// The first and the last position of the complex event, from 0.
    pub start: u64,
    pub end: u64,
    /// Its marked positions, as they were given.
    pub positions: Listed<u64>,
}

/// Why a complex event is an answer to a query of one file over the events of another.
#[derive(Drop)]
pub struct ExplainWords {
    pub queries: Text,
    pub events: Text,
    pub question: Question,
}

/// The commands of one file, among which events come and cursors are opened, on the queries of
/// another.
#[derive(Drop)]
pub struct SessionWords {
    pub queries: Text,
    pub script: Text,
}

/// A checkpoint of the events of one file, for the queries of another.
#[derive(Drop)]
pub struct SaveWords {
    pub queries: Text,
    pub events: Text,
}

/// A run over events that come after those that a checkpoint keeps.
#[derive(Drop)]
pub struct ResumeWords {
    pub queries: Text,
    pub checkpoint: Text,
    pub events: Text,
    pub order: Order,
    /// From 1. The engine is compacted after every so many events; where it is not given each of its
    /// queries is once it has grown.
    pub compact_every: Option<u64>,
    /// From 1 to 2^62.
    pub most_bytes: u64,
}

/// A summary of two fixed queries over events that are made up from a seed.
#[derive(Drop)]
pub struct SampleWords {
    pub seed: u64,
    pub count: u64,
}

/// What the words after the program's name ask for.
#[derive(Drop)]
pub enum Command {
    Run(RunWords),
    Sample(SampleWords),
    Session(SessionWords),
    Reorder(ReorderWords),
    Explain(ExplainWords),
    Save(SaveWords),
    Resume(ResumeWords),
}

/// The words ask for nothing that the program does.
#[derive(Clone, Copy, PartialEq, Eq)]
pub struct Usage;

/// What the words after the program's name ask for, or that they ask for nothing.
pub fn read_command(alloc: Global, words: &[String]) -> Result<Command, OrMemory<Usage>>
    ensures asks { IfOk result (λ command. AsksFor (map string_bytes words.now) command) }
    ensures nothing { OnFault result (λ usage. AskNothing (map string_bytes words.now)) }
{
    let matches = match program::matches(alloc, words) {
        Ok(matches) => matches,
        Err(stop) => return Err(stop),
    };
    reading::command_in(alloc, &matches)
}
