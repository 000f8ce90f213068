//! The cursors that a caller holds, each over the answers of one query at the position where it was
//! opened.

ghost use Rattle.std.specs.Prelude.{◌≡◌, ℕ, ◌+◌, ◌<◌, ◌≤◌, List, ◌∷◌, ◌++◌, [], length, All, None, Some, slice_get, OnOk, OnErr, IfOk, IfSome, IfNone};
ghost use Rattle.stream_schema.specs.declared.Event.{Event};
ghost use Rattle.query_engine.specs.Engine.{EngineState, Open, Fits, KeepsCursors, StandsFor, SameQueries, count_of};
ghost use Rattle.core_service.specs.declared.marks.TheConstants.{MOST_HELD};
ghost use Rattle.core_service.specs.Answering.{CanAnswer, SameLeft};
ghost use Rattle.core_service.specs.Holding.{none_held, cursor_rows, rows_left, held_rows, SameHeld, AddsHeld, DropsHeld, StandsAt, AreNumbersOf, IsDrawn, HasGivenDrawn};

use crate::AnswerNumbers;
use crate::answering::PositionAnswers;
use crate::marks::{HeldMark, place_among};
use cer_base::steps::Steps;
use cer_base::{Memory, Pos};
use query_engine::{Cursor, Engine};
use std::alloc::Global;
use std::marker::Model;
use std::sync::ledger::Ledger;

/// The greatest number of a cursor: 2 to the 62.
const LAST_NUMBER: u64 = 4_611_686_018_427_387_904;

/// The cursors that are held.
#[derive(Drop)]
pub struct HeldCursors {
    /// The mark of each cursor, and
    marks: Vec<HeldMark>,
    /// the cursors, in the same order.
    cursors: Vec<Cursor>,
    /// The number of the cursor that was opened last, 0 before the first.
    last: u64,
}

impl Model for HeldCursors {
    ghost use Rattle.core_service.specs.Holding.{HeldState, IsHolding};

    ghost Value = { HeldState };

    ghost view = { λ h. record {
      last = h.last;
      marks = h.marks.items;
      cursors = h.cursors.items;
    } };

    ghost invariant = { λ h. IsHolding h.last h.marks.items h.cursors.items };
}

/// Draws the next answer of the cursor with this mark, where none is drawn: its numbers, if it has one.
fn draw_from<L: Ledger>(
    engine: &Engine,
    mark: &mut HeldMark,
    cursor: &mut Cursor,
    steps: &mut Steps<L>,
) -> Option<AnswerNumbers>
    requires fits { Fits engine.now cursor.old }
    ensures fits { Fits engine.now cursor.new }
    ensures mark { mark.new ≡ record mark.old { drawn = mark.new.drawn } }
    ensures left { rows_left (cursor_rows engine.now mark.new cursor.new)
        ≡ rows_left (cursor_rows engine.now mark.old cursor.old) }
    ensures shown { AreNumbersOf (cursor_rows engine.now mark.new cursor.new) cursor.new.path result }
{
    if mark.drawn.is_none() {
        match engine.pull(cursor, steps) {
            Some(start) => mark.drawn = Some(start.pos),
            None => return None,
        }
    }
    match mark.drawn {
        Some(start) => Some(AnswerNumbers {
            query: cursor.query(),
            start,
            end: mark.end,
            count: cursor.positions().len(),
        }),
        None => None,
    }
}

/// Puts the cursor last, with its mark. Where memory runs out both lists are as they were.
fn add(
    marks: &mut Vec<HeldMark>,
    cursors: &mut Vec<Cursor>,
    mark: HeldMark,
    cursor: Cursor,
) -> Result<(), Memory>
    ensures marks { OnOk result (marks.new.items ≡ marks.old.items ++ mark ∷ []) }
    ensures cursors { OnOk result (cursors.new.items ≡ cursors.old.items ++ cursor ∷ []) }
    ensures unchanged { OnErr result ((marks.new.items ≡ marks.old.items)
        × (cursors.new.items ≡ cursors.old.items)) }
{
    marks.push(mark)?;
    match cursors.push(cursor) {
        Ok(()) => Ok(()),
        Err(_) => {
            marks.pop();
            Err(Memory)
        }
    }
}

impl HeldCursors {
    /// No cursor is held.
    pub fn new(alloc: Global) -> HeldCursors
        ensures { result ≡ none_held }
    {
        HeldCursors {
            marks: Vec::new(alloc),
            cursors: Vec::new(alloc),
            last: 0,
        }
    }

    /// How many are held.
    pub fn len(&self) -> usize
        ensures count { result ≡ length self.now.marks }
        ensures few { result ≤ MOST_HELD }
    {
        self.marks.len()
    }

    /// Where the cursor of this number stands, if it is held.
    pub fn place(&self, number: u64) -> Option<usize>
        ensures found { IfSome result (StandsAt self.now number) }
        ensures none { IfNone result ((engine : EngineState)
            → held_rows engine self.now number ≡ None) }
    {
        place_among(self.marks.as_slice(), number)
    }

    /// The positions that the cursor at the place gave last, greatest first.
    pub fn positions(&self, place: usize) -> &[Pos]
        requires inside { place < length self.now.marks }
        ensures { (cursor : Open) → slice_get self.now.cursors place ≡ Some cursor
            → result.now ≡ cursor.path }
    {
        self.cursors[place].positions()
    }

    /// Holds the cursor, which was opened at the position `end`, and answers its number.
    pub fn add(&mut self, cursor: Cursor, end: Pos) -> Result<u64, Memory>
        requires few { length self.old.marks < MOST_HELD }
        ensures added { IfOk result (λ number. (engine : EngineState)
            → AddsHeld engine number self.old self.new (cursor_rows engine
            (record { number = number; end = end; drawn = None }) cursor)) }
        ensures cursors { OnOk result (self.new.cursors ≡ self.old.cursors ++ cursor ∷ []) }
        ensures unchanged { OnErr result (self.new ≡ self.old) }
    {
        if self.last >= LAST_NUMBER {
            return Err(Memory);
        }
        let number = self.last + 1;
        let mark = HeldMark {
            number,
            end,
            drawn: None,
        };
        match add(&mut self.marks, &mut self.cursors, mark, cursor) {
            Ok(()) => {
                self.last = number;
                Ok(number)
            }
            Err(memory) => Err(memory),
        }
    }

    /// Draws the next answer of the cursor at the place, where none is drawn: its numbers, if it has one.
    pub fn draw<L: Ledger>(
        &mut self,
        engine: &Engine,
        place: usize,
        steps: &mut Steps<L>,
    ) -> Option<AnswerNumbers>
        requires inside { place < length self.old.marks }
        requires fit { All (Fits engine.now) self.old.cursors }
        ensures fit { All (Fits engine.now) self.new.cursors }
        ensures drawn { (number : ℕ) → StandsAt self.old number place
            → IsDrawn engine.now number place self.old self.new result }
    {
        let mark = &mut self.marks[place];
        let cursor = &mut self.cursors[place];
        draw_from(engine, mark, cursor, steps)
    }

    /// The answer that was drawn from the cursor at the place is given.
    pub fn give(&mut self, place: usize)
        requires inside { place < length self.old.marks }
        ensures given { (engine : EngineState) (number : ℕ) → StandsAt self.old number place
            → HasGivenDrawn engine number self.old self.new }
        ensures cursors { self.new.cursors ≡ self.old.cursors }
    {
        self.marks[place].drawn = None;
    }

    /// Lets the cursor at the place go.
    pub fn remove(&mut self, place: usize)
        requires inside { place < length self.old.marks }
        ensures gone { (engine : EngineState) (number : ℕ) → StandsAt self.old number place
            → DropsHeld engine number self.old self.new }
        ensures fit { (engine : EngineState) → All (Fits engine) self.old.cursors
            → All (Fits engine) self.new.cursors }
    {
        self.marks.remove(place);
        self.cursors.remove(place);
    }

    /// Compacts the engine, with all cursors held, those of the answers at the last position too: the
    /// same is left of each. After `Memory` nothing has changed.
    pub fn compact<L: Ledger>(
        &mut self,
        engine: &mut Engine,
        answers: &mut PositionAnswers,
        steps: &mut Steps<L>,
    ) -> Result<(), Memory>
        requires can { CanAnswer engine.old answers.old }
        requires fit { All (Fits engine.old) self.old.cursors }
        ensures can { CanAnswer engine.new answers.new }
        ensures fit { All (Fits engine.new) self.new.cursors }
        ensures left { OnOk result (SameLeft engine.old engine.new answers.old answers.new) }
        ensures held { OnOk result (SameHeld engine.old engine.new self.old self.new) }
        ensures stands { OnOk result ((events : List Event) → StandsFor engine.old events
            → StandsFor engine.new events) }
        ensures same { SameQueries engine.old engine.new }
        ensures count { count_of engine.new ≡ count_of engine.old }
        ensures positions { answers.new.positions ≡ answers.old.positions }
        ensures unchanged { OnErr result ((engine.new ≡ engine.old) × (answers.new ≡ answers.old)
            × (self.new ≡ self.old)) }
    {
        answers.compact(engine, &mut self.cursors, steps)
    }
}
