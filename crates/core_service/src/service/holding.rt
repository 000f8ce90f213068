//! The calls of a service on the cursors that its caller holds.

ghost use Rattle.std.specs.Prelude.{◌≡◌, ◌+◌, ◌<◌, ◌≤◌, length, IfOk, OnErr};
ghost use Rattle.query_engine.specs.Bounds.{update_bound};
ghost use Rattle.query_engine.specs.Engine.{found_of};
ghost use Rattle.core_service.specs.declared.marks.TheConstants.{MOST_HELD};
ghost use Rattle.core_service.specs.HeldCalls.{CanBeHeld, IsHeld, IsPeeked, IsPulled, IsAdvanced, IsLetGo, OpensHeld};

use crate::marks::MOST_HELD;
use crate::service::Service;
use crate::{AnswerNumbers, HeldFault, HoldFault};
use cer_base::Memory;
use cer_base::steps::Steps;
use std::sync::ledger::Ledger;

impl Service {
    /// Holds a cursor over all answers of the query with this number, from 1, that end at the last event,
    /// in the order in which they are found, whatever ANY says, and answers the cursor's own number, which
    /// is from 1 and is given once. What the cursor has left stays while lines are taken, while the service
    /// is compacted and whatever is asked of it, until the cursor has given it or is dropped.
    ///
    /// After a fault nothing has changed. The first of these that holds is told:
    ///
    /// - `NoQuery`: there is no query of this number.
    /// - `NoEventYet`: no event was taken.
    /// - `TooMany`: 64 cursors are held.
    /// - Memory ran out, or 2^62 cursors were opened.
    pub fn hold<L: Ledger>(&mut self, query: u64, steps: &mut Steps<L>) -> Result<u64, HoldFault>
        ensures held { IsHeld query self.old self.new result }
        ensures steps { steps.new ≤ steps.old + update_bound (found_of self.old.engine query) }
    {
        if query == 0 || query > self.engine.queries() {
            return Err(HoldFault::NoQuery);
        }
        if self.engine.events() == 0 {
            return Err(HoldFault::NoEventYet);
        }
        if self.held.len() >= MOST_HELD {
            return Err(HoldFault::TooMany);
        }
        match self.open_held(query, steps) {
            Ok(number) => Ok(number),
            Err(_) => Err(HoldFault::Memory),
        }
    }

    /// Opens a cursor on the answers of the query, and holds it. After `Memory` nothing has changed.
    fn open_held<L: Ledger>(&mut self, query: u64, steps: &mut Steps<L>) -> Result<u64, Memory>
        requires can { CanBeHeld query self.old }
        requires few { length self.old.held.marks < MOST_HELD }
        ensures opened { IfOk result (λ number. OpensHeld query number self.old self.new) }
        ensures unchanged { OnErr result (self.new ≡ self.old) }
        ensures steps { steps.new ≤ steps.old + update_bound (found_of self.old.engine query) }
    {
        let end = self.engine.events() - 1;
        let cursor = self.engine.cursor(query, steps)?;
        let number = self.held.add(cursor, end)?;
        Ok(number)
    }

    /// The next answer of the held cursor with this number, and `positions` has its positions: it stays
    /// the next one until `advance_held` or `pull`. None where the cursor has no more. What is left at the
    /// last position stays left.
    ///
    /// - `NotHeld`: no cursor of this number is held, and nothing has changed.
    /// - Memory ran out: the cursor has the same left.
    pub fn peek_held<L: Ledger>(
        &mut self,
        cursor: u64,
        steps: &mut Steps<L>,
    ) -> Result<Option<AnswerNumbers>, HeldFault>
        ensures { IsPeeked cursor self.old self.new result }
    {
        match self.held.place(cursor) {
            Some(place) => match self.held.draw(&self.engine, place, steps) {
                Some(numbers) => match self.answers.show_other(self.held.positions(place)) {
                    Ok(()) => Ok(Some(numbers)),
                    Err(_) => Err(HeldFault::Memory),
                },
                None => Ok(None),
            },
            None => Err(HeldFault::NotHeld),
        }
    }

    /// Gives the answer that `peek_held` told of the held cursor with this number, if it told one: it is
    /// not left any more. Answers whether a cursor of this number is held; if none is, nothing has changed.
    pub fn advance_held(&mut self, cursor: u64) -> bool
        ensures advanced { IsAdvanced cursor self.old self.new result }
        ensures positions { self.new.answers.positions ≡ self.old.answers.positions }
    {
        match self.held.place(cursor) {
            Some(place) => {
                self.held.give(place);
                true
            }
            None => false,
        }
    }

    /// Gives the next answer of the held cursor with this number, and `positions` has its positions. None
    /// where the cursor has no more. What is left at the last position stays left.
    ///
    /// - `NotHeld`: no cursor of this number is held, and nothing has changed.
    /// - Memory ran out: the cursor has the same left.
    pub fn pull<L: Ledger>(
        &mut self,
        cursor: u64,
        steps: &mut Steps<L>,
    ) -> Result<Option<AnswerNumbers>, HeldFault>
        ensures { IsPulled cursor self.old self.new result }
    {
        match self.peek_held(cursor, steps) {
            Ok(Some(numbers)) => {
                self.advance_held(cursor);
                Ok(Some(numbers))
            }
            Ok(None) => Ok(None),
            Err(fault) => Err(fault),
        }
    }

    /// Lets the held cursor with this number go, with what it has left. Answers whether one was held; if
    /// none was, nothing has changed.
    pub fn drop_held(&mut self, cursor: u64) -> bool
        ensures { IsLetGo cursor self.old self.new result }
    {
        match self.held.place(cursor) {
            Some(place) => {
                self.held.remove(place);
                true
            }
            None => false,
        }
    }

    /// How many cursors are held: 64 at most.
    pub fn held(&self) -> usize
        ensures count { result ≡ length self.now.held.marks }
        ensures most { result ≤ MOST_HELD }
    {
        self.held.len()
    }
}
