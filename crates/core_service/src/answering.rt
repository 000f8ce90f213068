//! The answers at the last position, drawn from the queries one after another.

ghost use Rattle.std.specs.Prelude.{◌≡◌, ◌≢◌, ◌<◌, ◌≤◌, ◌∷◌, ℕ, true, false, [], length, reverse, All, None, slice_index_or, List, MatchOption, OnOk, OnErr, IfSome, IfNone};
ghost use Rattle.query_engine.specs.Engine.{count_of, Fits, StandsFor, SameQueries};
ghost use Rattle.stream_schema.specs.declared.Event.{Event};
ghost use Rattle.query_engine.specs.Running.{AreRising};
ghost use Rattle.answer_blocks.specs.Wanted.{are_enough, one_fewer, to_give};
ghost use Rattle.core_service.specs.Answering.{path_of, answers_begun, Leaves, HaveNoAnswer, IsNextQuery, CanAnswer, IsShown, AreKept, SameLeft};

use crate::AnswerNumbers;
use crate::compacting::compact_both;
use crate::shown::put_rising;
use cer_base::steps::Steps;
use cer_base::{Memory, Pos};
use query_engine::{Cursor, Engine};
use std::alloc::Global;
use std::marker::Model;
use std::sync::ledger::Ledger;

/// What is left to be given at the last position.
#[derive(Drop)]
pub struct PositionAnswers {
    /// The query that was asked last, by its number, 0 before the first.
    asked: u64,
    /// Where its number stood among those of the queries that may have an answer, and one more.
    place: usize,
    /// Its cursor, one or none.
    cursors: Vec<Cursor>,
    /// How many more of its answers are wanted, where it says so.
    wanted: Option<u64>,
    /// The start of the answer that was drawn and is not given.
    drawn: Option<Pos>,
    /// The positions of the answer that was looked at last, rising.
    positions: Vec<Pos>,
}

impl Model for PositionAnswers {
    ghost use Rattle.core_service.specs.Answering.{AnswersState};

    ghost Value = { AnswersState };

    ghost view = { λ a. record {
      asked = a.asked;
      cursors = a.cursors.items;
      wanted = a.wanted;
      drawn = a.drawn;
      positions = a.positions.items;
    } };
}

fn are_enough(left: Option<u64>) -> bool
    ensures { result ≡ are_enough left }
{
    match left {
        Some(n) => n == 0,
        None => false,
    }
}

fn one_fewer(left: Option<u64>) -> Option<u64>
    ensures { result ≡ one_fewer left }
{
    match left {
        Some(n) => Some(n.saturating_sub(1)),
        None => None,
    }
}

/// The start of the cursor's next answer, if one more is wanted and there is one; the cursor has its
/// positions.
fn pull_wanted<L: Ledger>(
    engine: &Engine,
    cursor: &mut Cursor,
    wanted: &mut Option<u64>,
    steps: &mut Steps<L>,
) -> Option<Pos>
    requires fits { Fits engine.now cursor.old }
    ensures answer { MatchOption result (to_give engine.now wanted.old cursor.old ≡ [])
        (λ start. to_give engine.now wanted.old cursor.old
        ≡ record { start = start; marks = reverse cursor.new.path } ∷
        to_give engine.now wanted.new cursor.new) }
    ensures fits { Fits engine.now cursor.new }
{
    if are_enough(*wanted) {
        return None;
    }
    match engine.pull(cursor, steps) {
        Some(start) => {
            *wanted = one_fewer(*wanted);
            Some(start.pos)
        }
        None => None,
    }
}

/// From where the numbers are looked at, which rise: what stands before is not above `low`.
fn start_above(numbers: &[u64], hint: usize, low: u64) -> usize
    requires rising { AreRising numbers.now }
    ensures within { result ≤ length numbers.now }
    ensures below { (i : ℕ) → i < result → slice_index_or numbers.now i 0 ≤ low }
{
    if hint == 0 || hint > numbers.len() {
        return 0;
    }
    if numbers[hint - 1] > low {
        return 0;
    }
    hint
}

/// Where the first number above `low` stands among numbers that rise, or how many there are. It is
/// looked for from `hint` on, where it cannot stand before.
fn place_above(numbers: &[u64], hint: usize, low: u64) -> usize
    requires rising { AreRising numbers.now }
    ensures within { result ≤ length numbers.now }
    ensures below { (i : ℕ) → i < result → slice_index_or numbers.now i 0 ≤ low }
    ensures above { result < length numbers.now → low < slice_index_or numbers.now result 0 }
{
    let start = start_above(numbers, hint, low);
    for k in start..numbers.len() {
        if numbers[k] > low {
            return k;
        }
    }
    numbers.len()
}

impl PositionAnswers {
    /// No answer is left of any query up to the number.
    pub fn after(alloc: Global, asked: u64) -> PositionAnswers
        ensures { result ≡ record
            { asked = asked; cursors = []; wanted = None; drawn = None; positions = [] } }
    {
        PositionAnswers {
            asked,
            place: 0,
            cursors: Vec::new(alloc),
            wanted: None,
            drawn: None,
            positions: Vec::new(alloc),
        }
    }

    /// At a new position no query was asked yet.
    pub fn begin(&mut self)
        ensures { self.new ≡ record
            { asked = 0; cursors = []; wanted = None; drawn = None; positions = [] } }
    {
        self.asked = 0;
        self.place = 0;
        self.cursors.clear();
        self.wanted = None;
        self.drawn = None;
        self.positions.clear();
    }

    /// The positions of the answer that was looked at last, rising.
    pub fn positions(&self) -> &[Pos]
        ensures { result.now ≡ self.now.positions }
    {
        self.positions.as_slice()
    }

    /// The answer that was drawn is given.
    pub fn give(&mut self)
        ensures { self.new ≡ record self.old { drawn = None } }
    {
        self.drawn = None;
    }

    /// Puts the positions that the cursor gave last into rising order.
    pub fn show(&mut self) -> Result<(), Memory>
        ensures same { self.new ≡ record self.old { positions = self.new.positions } }
        ensures shown { OnOk result (self.new.positions ≡ reverse (path_of self.old.cursors)) }
    {
        match self.cursors.first() {
            Some(cursor) => put_rising(&mut self.positions, cursor.positions()),
            None => {
                self.positions.clear();
                Ok(())
            }
        }
    }

    /// Puts the positions of another answer, which are given greatest first, into rising order. What is
    /// left stays the same.
    pub fn show_other(&mut self, falling: &[Pos]) -> Result<(), Memory>
        ensures same { self.new ≡ record self.old { positions = self.new.positions } }
        ensures shown { OnOk result (self.new.positions ≡ reverse falling.now) }
    {
        put_rising(&mut self.positions, falling)
    }

    /// Draws the next answer of the query that was asked last, if it has one more, and none was drawn:
    /// then one is. Else the query has no more.
    fn draw_one<L: Ledger>(&mut self, engine: &Engine, steps: &mut Steps<L>) -> bool
        requires { CanAnswer engine.now self.old }
        ensures can { CanAnswer engine.now self.new }
        ensures leaves { Leaves engine.now self.old self.new [] }
        ensures asked { self.new.asked ≡ self.old.asked }
        ensures drawn { result ≡ true → self.new.drawn ≢ None }
        ensures none { result ≡ false → answers_begun engine.now self.new ≡ [] }
    {
        if self.drawn.is_some() {
            return true;
        }
        if self.cursors.is_empty() {
            return false;
        }
        match pull_wanted(engine, &mut self.cursors[0], &mut self.wanted, steps) {
            Some(start) => {
                self.drawn = Some(start);
                true
            }
            None => {
                self.cursors.clear();
                false
            }
        }
    }

    /// The next query that may have an answer, if there is one.
    fn next_query(&mut self, engine: &Engine) -> Option<u64>
        requires seen { 0 < count_of engine.now }
        ensures same { self.new ≡ self.old }
        ensures next { IfSome result (IsNextQuery engine.now self.old.asked) }
        ensures none { IfNone result
            (HaveNoAnswer engine.now self.old.asked (length engine.now.queries)) }
    {
        let numbers = engine.answering();
        let place = place_above(numbers, self.place, self.asked);
        self.place = place + 1;
        if place < numbers.len() {
            return Some(numbers[place]);
        }
        None
    }

    /// Asks the query of this number.
    fn ask<L: Ledger>(
        &mut self,
        engine: &Engine,
        number: u64,
        steps: &mut Steps<L>,
    ) -> Result<(), Memory>
        requires can { CanAnswer engine.now self.old }
        requires seen { 0 < count_of engine.now }
        requires over { answers_begun engine.now self.old ≡ [] }
        requires next { IsNextQuery engine.now self.old.asked number }
        ensures can { CanAnswer engine.now self.new }
        ensures leaves { Leaves engine.now self.old self.new [] }
        ensures asked { OnOk result (self.new.asked ≡ number) }
    {
        self.cursors.clear();
        self.drawn = None;
        if !engine.may_answer(number) {
            self.asked = number;
            return Ok(());
        }
        let cursor = engine.cursor(number, steps)?;
        self.cursors.push(cursor)?;
        self.wanted = engine.query(number).any;
        self.asked = number;
        Ok(())
    }

    /// Draws the next answer, where none is drawn: after it none is drawn only where none is left.
    pub fn draw<L: Ledger>(&mut self, engine: &Engine, steps: &mut Steps<L>) -> Result<(), Memory>
        requires { CanAnswer engine.now self.old }
        ensures can { CanAnswer engine.now self.new }
        ensures leaves { Leaves engine.now self.old self.new [] }
        ensures over { OnOk result (self.new.drawn ≡ None → (answers_begun engine.now self.new ≡ [])
            × (self.new.asked ≡ length engine.now.queries)) }
    {
        while !self.draw_one(engine, steps) {
            if self.asked >= engine.queries() {
                return Ok(());
            }
            match self.next_query(engine) {
                Some(number) => self.ask(engine, number, steps)?,
                None => self.asked = engine.queries(),
            }
        }
        Ok(())
    }

    /// The answer that is given next, whose positions are put into rising order; it is drawn.
    pub fn look<L: Ledger>(
        &mut self,
        engine: &Engine,
        steps: &mut Steps<L>,
    ) -> Result<Option<AnswerNumbers>, Memory>
        requires { CanAnswer engine.now self.old }
        ensures can { CanAnswer engine.now self.new }
        ensures leaves { Leaves engine.now self.old self.new [] }
        ensures shown { IsShown engine.now self.new result }
    {
        self.draw(engine, steps)?;
        match self.drawn {
            Some(start) => {
                self.show()?;
                Ok(Some(AnswerNumbers {
                    query: self.asked,
                    start,
                    end: engine.events().saturating_sub(1),
                    count: self.positions.len(),
                }))
            }
            None => Ok(None),
        }
    }

    /// Compacts the engine, with the cursor and these others held: the same is left of each. After
    /// `Memory` nothing has changed.
    pub fn compact<L: Ledger>(
        &mut self,
        engine: &mut Engine,
        others: &mut Vec<Cursor>,
        steps: &mut Steps<L>,
    ) -> Result<(), Memory>
        requires can { CanAnswer engine.old self.old }
        requires fit { All (Fits engine.old) others.old.items }
        ensures can { CanAnswer engine.new self.new }
        ensures left { OnOk result (SameLeft engine.old engine.new self.old self.new) }
        ensures kept { OnOk result
            (AreKept engine.old engine.new others.old.items others.new.items) }
        ensures stands { OnOk result ((events : List Event) → StandsFor engine.old events
            → StandsFor engine.new events) }
        ensures same { SameQueries engine.old engine.new }
        ensures count { count_of engine.new ≡ count_of engine.old }
        ensures positions { self.new.positions ≡ self.old.positions }
        ensures unchanged { OnErr result ((engine.new ≡ engine.old) × (self.new ≡ self.old)
            × (others.new.items ≡ others.old.items)) }
    {
        compact_both(engine, others, &mut self.cursors, steps)
    }
}

/// Whether some query may have an answer at the last position.
pub fn may_answer(engine: &Engine) -> bool
    requires { 0 < count_of engine.now }
    ensures { result ≡ false → HaveNoAnswer engine.now 0 (length engine.now.queries) }
{
    let numbers = engine.answering();
    for number in numbers {
        if engine.may_answer(*number) {
            return true;
        }
    }
    false
}
