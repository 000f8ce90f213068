//! Pulling as many answers of a query as it wants.

ghost use Rattle.std.specs.Prelude.{◌≡◌, ◌+◌, ◌<◌, ◌≤◌, true, [], ◌∷◌, length, reverse, IfOk, MatchOption};
ghost use Rattle.query_engine.specs.Bounds.{delay, update_bound};
ghost use Rattle.query_engine.specs.Engine.{EngineState, count_of, found_of, Fits, IsNumber};
ghost use Rattle.answer_blocks.specs.Wanted.{are_enough, one_fewer, to_give, AreWanted};

use cer_base::steps::Steps;
use cer_base::{Memory, Pos};
use query_engine::{Cursor, Engine};
use std::sync::ledger::Ledger;

/// The answers of a query at the last position that are still to be written.
#[derive(Drop)]
pub struct AnswersLeft {
    cursor: Cursor,
    /// How many more are wanted, where the query says so.
    left: Option<u64>,
}

fn are_enough(left: Option<u64>) -> bool
    ensures { result ≡ are_enough left }
{
    match left {
        Some(n) => n == 0,
        None => false,
    }
}

fn one_fewer(left: Option<u64>) -> Option<u64>
    ensures { result ≡ one_fewer left }
{
    match left {
        Some(n) => Some(n.saturating_sub(1)),
        None => None,
    }
}

impl AnswersLeft {
    /// An event was taken, and the query's number is from 1 to the number of queries.
    pub fn start<L: Ledger>(
        engine: &Engine,
        number: u64,
        steps: &mut Steps<L>,
    ) -> Result<AnswersLeft, Memory>
        requires seen { 0 < count_of engine.now }
        requires numbered { IsNumber engine.now number }
        ensures fits { IfOk result (λ p. Fits engine.now p.cursor) }
        ensures answers { IfOk result (λ p.
            AreWanted engine.now number (to_give engine.now p.left p.cursor)) }
        ensures steps { steps.new ≤ steps.old + update_bound (found_of engine.now number) }
    {
        let cursor = engine.cursor(number, steps)?;
        Ok(AnswersLeft {
            cursor,
            left: engine.query(number).any,
        })
    }

    /// The next answer's start; `positions` has its positions until the next call. None where no
    /// more answers are wanted, or there are none.
    pub fn next<L: Ledger>(&mut self, engine: &Engine, steps: &mut Steps<L>) -> Option<Pos>
        requires fits { Fits engine.now self.old.cursor }
        ensures answer { MatchOption result
            (to_give engine.now self.old.left self.old.cursor ≡ [])
            (λ start. to_give engine.now self.old.left self.old.cursor
            ≡ record { start = start; marks = reverse self.new.cursor.path } ∷
            to_give engine.now self.new.left self.new.cursor) }
        ensures fits { Fits engine.now self.new.cursor }
        ensures delay { MatchOption result (steps.new ≤ steps.old + 1)
            (λ start. steps.new ≤ steps.old + delay (length self.new.cursor.path)) }
    {
        if are_enough(self.left) {
            return None;
        }
        match engine.pull(&mut self.cursor, steps) {
            Some(start) => {
                self.left = one_fewer(self.left);
                Some(start.pos)
            }
            None => None,
        }
    }

    /// Whether no more answers are wanted, or there are none.
    pub fn is_over(&self) -> bool
        ensures { (engine : EngineState) → Fits engine self.now.cursor → result ≡ true
            → to_give engine self.now.left self.now.cursor ≡ [] }
    {
        are_enough(self.left) || self.cursor.is_done()
    }

    /// The positions of the answer that was given last, greatest first.
    pub fn positions(&self) -> &[Pos]
        ensures { result.now ≡ self.now.cursor.path }
    {
        self.cursor.positions()
    }
}
