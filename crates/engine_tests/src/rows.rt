//! One query text over some lines, and the answers as a text.
ghost use Rattle.std.specs.Prelude.{◌≡◌, ◌+◌, ◌^◌, ◌<◌, ◌≤◌, [], length, IfOk, OnOk};
ghost use Rattle.stream_schema.specs.Events.{IsOfSchema};
ghost use Rattle.query_engine.specs.Engine.{StandsFor, count_of, IsNumber, SameQueries};

use ceql_parser::{Accepted, read_queries};
use cer_base::Memory;
use cer_base::seed::Seed;
use cer_base::steps::{Opening, Steps};
use event_reader::read_event;
use query_engine::{Engine, SeeFault};
use std::alloc::{AllocError, AllocFailed, Global};
use std::sync::ledger::Ledger;
use stream_schema::Event;

/// Why a row could not be run.
#[derive(Drop, Debug, Clone, Copy)]
pub enum CaseFault {
    /// The query text is refused.
    Query,
    /// The line is no event.
    Line,
    /// More events than positions.
    Count,
    /// An allocation was refused.
    Memory,
}

impl From<Memory> for CaseFault {
    fn from(_refused: Memory) -> CaseFault {
        CaseFault::Memory
    }
}

impl From<AllocError> for CaseFault {
    fn from(_refused: AllocError) -> CaseFault {
        CaseFault::Memory
    }
}

impl<T: Drop> From<AllocFailed<T>> for CaseFault {
    fn from(_refused: AllocFailed<T>) -> CaseFault {
        CaseFault::Memory
    }
}

/// The engine of the queries of a text.
pub fn engine_of(alloc: Global, text: &str) -> Result<Engine, CaseFault>
    ensures fresh { IfOk result (λ engine. StandsFor engine []) }
    ensures none { IfOk result (λ engine. count_of engine ≡ 0) }
{
    seeded_engine_of(alloc, Seed::default(), text)
}

/// An engine for the text, with tables that hash by the seed.
pub fn seeded_engine_of(alloc: Global, seed: Seed, text: &str) -> Result<Engine, CaseFault>
    ensures fresh { IfOk result (λ engine. StandsFor engine []) }
    ensures none { IfOk result (λ engine. count_of engine ≡ 0) }
{
    match read_queries(alloc, text.as_bytes()) {
        Ok(Accepted { schema, queries }) => Ok(Engine::seeded(alloc, seed, schema, queries)?),
        Err(_) => Err(CaseFault::Query),
    }
}

/// The event of the line, of the engine's schema.
pub fn event_of(alloc: Global, engine: &Engine, line: &[u8]) -> Result<Event, CaseFault>
    ensures { IfOk result (IsOfSchema engine.now.schema) }
{
    if line.contains(&b'\n') {
        return Err(CaseFault::Line);
    }
    match read_event(alloc, engine.schema(), line) {
        Ok(Some(event)) => Ok(event),
        _ => Err(CaseFault::Line),
    }
}

/// Writes the answers of the query.
fn write_answers<L: Ledger>(
    engine: &Engine,
    query: u64,
    text: &mut String,
    steps: &mut Steps<L>,
) -> Result<(), CaseFault>
    requires seen { 0 < count_of engine.now }
    requires numbered { IsNumber engine.now query }
{
    let mut cursor = engine.cursor(query, steps)?;
    while let Some(start) = engine.pull(&mut cursor, steps) {
        write_answer(start.pos, cursor.positions(), text)?;
    }
    Ok(())
}

/// Writes an answer: where it starts, and in braces its positions, greatest first.
pub fn write_answer(start: u64, positions: &[u64], text: &mut String) -> Result<(), CaseFault> {
    write!(text, "{start}{{")?;
    for (k, position) in positions.iter().enumerate() {
        if k > 0 {
            text.push(',')?;
        }
        write!(text, "{position}")?;
    }
    text.push_str("} ")?;
    Ok(())
}

/// Writes the answers of each query at the last position.
fn write_all<L: Ledger>(
    engine: &Engine,
    text: &mut String,
    steps: &mut Steps<L>,
) -> Result<(), CaseFault>
    requires seen { 0 < count_of engine.now }
{
    for k in 0..engine.queries() {
        write_answers(engine, k + 1, text, steps)?;
    }
    Ok(())
}

/// Takes the event, and writes the answers after it, or that time falls.
fn take<L: Ledger>(
    engine: &mut Engine,
    event: &Event,
    text: &mut String,
    steps: &mut Steps<L>,
) -> Result<(), CaseFault>
    requires of_schema { IsOfSchema engine.old.schema event.now }
{
    if engine.events() == u64::MAX {
        return Err(CaseFault::Count);
    }
    match engine.see(event, steps) {
        Ok(_) => write_all(engine, text, steps),
        Err(SeeFault::TimeBack { query, before, now }) => {
            write!(text, "query {query}: {now} after {before} ")?;
            Ok(())
        }
        Err(SeeFault::Memory) => Err(CaseFault::Memory),
    }
}

/// How many states were found for each query.
pub fn states_found(alloc: Global, engine: &Engine) -> Result<String, CaseFault> {
    let mut text = String::new(alloc);
    for k in 0..engine.queries() {
        write!(text, "{} ", engine.found(k + 1))?;
    }
    Ok(text)
}

/// Compacts with no cursor held, and writes the answers at the last position, where there is one.
fn compact_here<L: Ledger>(
    engine: &mut Engine,
    text: &mut String,
    steps: &mut Steps<L>,
) -> Result<(), CaseFault> {
    engine.compact(&mut [], steps)?;
    if engine.events() > 0 {
        write_all(engine, text, steps)?;
    }
    Ok(())
}

/// The answers after each event of the lines, which a semicolon parts, with a stroke after those of
/// one event. A line that begins with a dash skips as many positions as it has bytes; at one that
/// begins with an exclamation mark the engine is compacted, and the last answers are written again.
pub fn answers_after_each<L: Ledger>(
    alloc: Global,
    engine: &mut Engine,
    lines: &[u8],
    opening: Opening,
) -> Result<String, CaseFault>
    requires name { opening.name ≡ L.name }
    requires parts { opening.parts ≡ L.parts }
{
    let mut steps = Steps::<L>::start(opening);
    let mut text = String::new(alloc);
    for line in lines.split(|b| *b == b';') {
        if line.first() == Some(&b'-') {
            engine.skip_to(engine.events().saturating_add(line.len() as u64));
            continue;
        }
        if line.first() == Some(&b'!') {
            compact_here(engine, &mut text, &mut steps)?;
            continue;
        }
        let event = event_of(alloc, engine, line)?;
        take(engine, &event, &mut text, &mut steps)?;
        text.push_str("/ ")?;
    }
    Ok(text)
}
