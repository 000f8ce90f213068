//! Counting and adding up the answers of the queries.

ghost use Rattle.std.specs.Prelude.{◌≡◌, ℕ, ◌+◌, ◌-◌, ◌<◌, ◌≤◌, ◌%◌, ◌^◌, List, [], ◌∷◌, ◌++◌, length, map, sum, sum_by, Some, slice_get, All, IfOk, OnOk};
ghost use Rattle.stream_schema.specs.declared.Event.{Event};
ghost use Rattle.stream_schema.specs.Events.{IsOfSchema};
ghost use Rattle.cel_terms.specs.declared.Query.{Query};
ghost use Rattle.query_engine.specs.Engine.{StandsFor, count_of, Fits, rest, IsNumber, SameQueries};
ghost use Rattle.query_engine.specs.Holding.{answer_of};
ghost use Rattle.command_sample.specs.Queries.{sample_schema, AreQueries};
ghost use Rattle.command_sample.specs.Tallies.{weight_of, IsTallyAt};
ghost use Rattle.command_sample.specs.Summary.{AreToldOf};
ghost use Rattle.command_sample.specs.Progress.{IsAt};

use crate::generator::sample_event;
use crate::queries::{sample_queries, sample_schema};
use cer_base::steps::Steps;
use cer_base::{Memory, Pos};
use query_engine::{Cursor, Engine};
use std::alloc::Global;
use std::sync::ledger::Ledger;
use stream_schema::Event;

/// How many answers, and the sum of their starts, ends and marked positions, both modulo 2 to the
/// power of 64.
#[derive(Clone, Copy, PartialEq, Eq)]
pub struct Tally {
    pub answers: u64,
    pub total: u64,
}

fn nothing() -> Tally
    ensures answers { result.answers ≡ 0 }
    ensures total { result.total ≡ 0 }
{
    Tally {
        answers: 0,
        total: 0,
    }
}

fn joined(one: Tally, other: Tally) -> Tally
    ensures answers { result.answers ≡ (one.answers + other.answers) % 2 ^ 64 }
    ensures total { result.total ≡ (one.total + other.total) % 2 ^ 64 }
{
    Tally {
        answers: one.answers.wrapping_add(other.answers),
        total: one.total.wrapping_add(other.total),
    }
}

/// The sum of an answer's interval and its positions.
fn weight(start: Pos, end: Pos, positions: &[Pos]) -> u64
    ensures { result ≡ (start + end + sum positions.now) % 2 ^ 64 }
{
    let mut total = start.wrapping_add(end);
    for position in positions {
        total = total.wrapping_add(*position);
    }
    total
}

/// All answers that the cursor is still to give.
fn pulled<L: Ledger>(engine: &Engine, cursor: &mut Cursor, end: Pos, steps: &mut Steps<L>) -> Tally
    requires fits { Fits engine.now cursor.old }
    ensures answers { result.answers ≡ length (rest engine.now cursor.old) % 2 ^ 64 }
    ensures total { result.total ≡ sum_by (weight_of end) (map answer_of
        (rest engine.now cursor.old)) % 2 ^ 64 }
{
    let mut tally = nothing();
    while let Some(start) = engine.pull(cursor, steps) {
        let total = weight(start.pos, end, cursor.positions());
        tally = joined(tally, Tally { answers: 1, total });
    }
    tally
}

/// The answers of the query at the last position.
fn tally_at<L: Ledger>(engine: &Engine, number: u64, steps: &mut Steps<L>) -> Result<Tally, Memory>
    requires seen { 0 < count_of engine.now }
    requires numbered { IsNumber engine.now number }
    ensures { IfOk result (λ tally. (events : List Event) (q : Query) → StandsFor engine.now events
        → slice_get engine.now.queries (number - 1) ≡ Some q → (k : ℕ) × (u : ℕ)
        × IsTallyAt engine.now.schema q events (length events - 1) k u
        × (tally.answers ≡ k % 2 ^ 64) × (tally.total ≡ u % 2 ^ 64)) }
{
    let mut cursor = engine.cursor(number, steps)?;
    let end = engine.events() - 1;
    Ok(pulled(engine, &mut cursor, end, steps))
}

/// An engine with the two queries, which took no event.
fn sample_engine(alloc: Global) -> Result<Engine, Memory>
    ensures schema { IfOk result (λ e. e.schema ≡ sample_schema) }
    ensures queries { IfOk result (λ e. AreQueries e.queries) }
    ensures stands { IfOk result (λ e. StandsFor e []) }
    ensures count { IfOk result (λ e. count_of e ≡ 0) }
{
    Engine::new(alloc, sample_schema(alloc)?, sample_queries(alloc)?)
}

/// Gives the engine the event. The queries' windows count events, so that no clock falls.
fn take<L: Ledger>(engine: &mut Engine, event: &Event, steps: &mut Steps<L>) -> Result<(), Memory>
    requires of_schema { IsOfSchema engine.old.schema event.now }
    requires room { count_of engine.old + 1 < 2 ^ 64 }
    ensures stands { OnOk result ((events : List Event) → StandsFor engine.old events
        → StandsFor engine.new (events ++ event.now ∷ [])) }
    ensures count { OnOk result (count_of engine.new ≡ count_of engine.old + 1) }
    ensures same { SameQueries engine.old engine.new }
{
    match engine.see(event, steps) {
        Ok(_) => Ok(()),
        Err(_) => Err(Memory),
    }
}

/// One event more, made after the value `x`: the value that made it, and the tallies with its answers.
fn round<L: Ledger>(
    alloc: Global,
    engine: &mut Engine,
    x: u64,
    first: Tally,
    second: Tally,
    steps: &mut Steps<L>,
) -> Result<(u64, Tally, Tally), Memory>
    requires schema { engine.old.schema ≡ sample_schema }
    requires queries { AreQueries engine.old.queries }
    requires room { count_of engine.old + 1 < 2 ^ 64 }
    ensures { IfOk result (λ told. (seed n : ℕ)
        → IsAt seed n engine.old x first.answers first.total second.answers second.total
        → IsAt seed (n + 1) engine.new told.0 told.1.answers told.1.total
        told.2.answers told.2.total) }
{
    let (next, event) = sample_event(alloc, x)?;
    take(engine, &event, steps)?;
    let one = tally_at(engine, 1, steps)?;
    let two = tally_at(engine, 2, steps)?;
    Ok((next, joined(first, one), joined(second, two)))
}

/// The tallies of both queries, after so many events that the seed makes.
fn rounds<L: Ledger>(
    alloc: Global,
    engine: &mut Engine,
    seed: u64,
    count: u64,
    steps: &mut Steps<L>,
) -> Result<(Tally, Tally), Memory>
    requires schema { engine.old.schema ≡ sample_schema }
    requires queries { AreQueries engine.old.queries }
    requires stands { StandsFor engine.old [] }
    requires fresh { count_of engine.old ≡ 0 }
    ensures { IfOk result (λ told. AreToldOf seed count told.0.answers told.0.total
        told.1.answers told.1.total) }
{
    let mut x = seed;
    let mut first = nothing();
    let mut second = nothing();
    for i in 0..count {
        let (next, one, two) = round(alloc, engine, x, first, second, steps)?;
        x = next;
        first = one;
        second = two;
    }
    Ok((first, second))
}

/// The tallies of both queries over so many events that the seed makes.
pub fn counted<L: Ledger>(
    alloc: Global,
    seed: u64,
    count: u64,
    steps: &mut Steps<L>,
) -> Result<(Tally, Tally), Memory>
    ensures { IfOk result (λ told. AreToldOf seed count told.0.answers told.0.total
        told.1.answers told.1.total) }
{
    let mut engine = sample_engine(alloc)?;
    rounds(alloc, &mut engine, seed, count, steps)
}
