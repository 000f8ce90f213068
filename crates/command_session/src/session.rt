//! A session: an engine with its open cursors, moved by commands.

ghost use Rattle.std.specs.Prelude.{◌≡◌, ℕ, ◌+◌, ◌^◌, ◌<◌, ◌≤◌, true, false, List, [], ◌∷◌, ◌++◌, Option, All, IfOk, OnOk, OnErr};
ghost use Rattle.stream_schema.specs.Events.{IsOfSchema};
ghost use Rattle.cel_terms.specs.Checked.{IsChecked};
ghost use Rattle.query_engine.specs.Bounds.{update_bound};
ghost use Rattle.query_engine.specs.Engine.{SameQueries, count_of, found_of};
ghost use Rattle.query_engine.specs.Compacting.{compact_bounds};
ghost use Rattle.command_session.specs.Commands.{HasEventOf};
ghost use Rattle.command_session.specs.SessionModel.{SessionModel, at_first};
ghost use Rattle.command_session.specs.Sessions.{Stands, IsNew, IsTended, Ended, HasRoom, HasRunCause, EngineEnded, IsAddedTo, StepsAreWithin, EventIsWithin, TakingIsWithin, UnlessRefused, as_run_fault, put_by_in};
ghost use Rattle.command_session.specs.CommandSteps.{CostsAtMost};
ghost use Rattle.command_session.specs.declared.command.ScriptCommand.TheVariants as commands;

use crate::command::ScriptCommand;
use crate::opened::{CursorNumber, place_among};
use crate::pulling::{write_at, write_pull};
use cer_base::seed::Seed;
use cer_base::steps::Steps;
use cer_base::{Memory, OrMemory};
use cer_outside::{Sink, WriteFault};
use query_engine::{Cursor, Engine, Queries, SeeFault};
use std::alloc::Global;
use std::marker::Model;
use std::sync::ledger::Ledger;
use stream_answers::Schedule;
use stream_schema::{Event, Schema};

/// Why a command is refused. Where several hold, the first of these is the answer.
#[derive(Drop, Debug, Clone, Copy, PartialEq, Eq)]
pub enum Refusal {
    /// With the event the clock `now` of the query, which is numbered from 1, would fall after
    /// that of an earlier event, which was `before`.
    TimeBack { query: u64, before: i128, now: i128 },
    /// There is no query of this number, which is from 1.
    NoQuery { query: u64 },
    /// A cursor is to be opened, and no event was taken.
    NoEventYet,
    /// The cursor of this number, from 1 to 64, is open already.
    CursorOpen { cursor: u64 },
    /// No cursor of this number is open.
    CursorNotOpen { cursor: u64 },
}

/// Why a command was not carried out, or not to its end.
#[derive(Drop, Debug, Clone, Copy, PartialEq, Eq)]
pub enum RunFault {
    /// It is refused, and nothing has changed.
    Refused(Refusal),
    /// A write failed.
    WriteFault,
    /// An allocation was refused.
    Memory,
}

/// An engine with its open cursors.
#[derive(Drop)]
pub struct Session {
    engine: Engine,
    /// The numbers of the open cursors, and
    opened: Vec<CursorNumber>,
    /// the cursors, in the same order.
    cursors: Vec<Cursor>,
    /// When the engine is compacted by itself.
    schedule: Schedule,
    /// The line that is written.
    buffer: Vec<u8>,
    closed: bool,
}

impl Model for Session {
    ghost use Rattle.std.specs.Prelude.{◌≡◌, length};
    ghost use Rattle.std.specs.Coded.{codes};
    ghost use Rattle.cel_terms.specs.contracts.Formula as formula;
    ghost use Rattle.command_session.specs.Sessions.{Session, IsKept};

    ghost Value = { Session };

    ghost coded = { Prim.hlevel (codes, formula.the_row.coded) };

    ghost view = { λ s. record {
      engine = s.engine;
      opened = s.opened.items;
      cursors = s.cursors.items;
      closed = s.closed;
      bases = s.schedule.bases;
    } };

    ghost invariant = { λ s. IsKept s.engine s.opened.items s.cursors.items
        × (length s.schedule.bases ≡ length s.engine.queries) };
}

/// What a write that stopped is to a session.
fn stopped(stop: OrMemory<WriteFault>) -> RunFault
    ensures { result ≡ as_run_fault stop }
{
    match stop {
        OrMemory::Fault(_) => RunFault::WriteFault,
        OrMemory::Memory => RunFault::Memory,
    }
}

impl Session {
    /// A session that took no event, and has no open cursor. The queries are checked for the schema.
    /// Its engine is that of `Engine::new`.
    pub fn new(alloc: Global, schema: Schema, queries: Queries) -> Result<Session, Memory>
        requires checked { All (IsChecked schema) queries }
        ensures { IfOk result (IsNew schema queries) }
    {
        Session::seeded(alloc, Seed::default(), schema, queries)
    }

    /// A new session over an engine whose tables hash by the seed. No answer depends on it.
    pub fn seeded(
        alloc: Global,
        seed: Seed,
        schema: Schema,
        queries: Queries,
    ) -> Result<Session, Memory>
        requires checked { All (IsChecked schema) queries }
        ensures { IfOk result (IsNew schema queries) }
    {
        let mut schedule = Schedule::of_queries(alloc, queries.as_slice().len() as u64)?;
        let engine = Engine::seeded(alloc, seed, schema, queries)?;
        schedule.note(&engine);
        Ok(Session {
            engine,
            opened: Vec::new(alloc),
            cursors: Vec::new(alloc),
            schedule,
            buffer: Vec::new(alloc),
            closed: false,
        })
    }

    /// Whether memory ran out, or a write failed, while a step was written: it takes no further
    /// command.
    pub fn is_closed(&self) -> bool
        ensures { result ≡ self.now.closed }
    {
        self.closed
    }

    /// The schema of the events.
    pub fn schema(&self) -> &Schema
        ensures { result.now ≡ self.now.engine.schema }
    {
        self.engine.schema()
    }

    /// Its engine.
    pub fn engine(&self) -> &Engine
        ensures { result.now ≡ self.now.engine }
    {
        &self.engine
    }

    /// The event comes, and its position is written. Then queries that have grown may be compacted, with
    /// all open cursors held.
    fn event<K: Sink, L: Ledger>(
        &mut self,
        event: &Event,
        out: &mut K,
        steps: &mut Steps<L>,
    ) -> Result<(), RunFault>
        requires going { self.old.closed ≡ false }
        requires of_schema { IsOfSchema self.old.engine.schema event.now }
        requires room { count_of self.old.engine + 1 < 2 ^ 64 }
        ensures ended { (machine : SessionModel) → Stands self.old machine
            → Ended (commands.Event event.now) self.old machine self.new (K.taken out.old)
            (K.taken out.new) result }
        ensures same { SameQueries self.old.engine self.new.engine }
        ensures count { count_of self.new.engine ≤ count_of self.old.engine + 1 }
        ensures cause { HasRunCause (K.faults out.old) (K.faults out.new) result }
        ensures engine { EngineEnded (commands.Event event.now) self.old.engine self.new result }
        ensures steps { (machine : SessionModel) → Stands self.old machine
            → EventIsWithin self.old self.new steps.old steps.new result }
        ensures costs { (machine : SessionModel) → Stands self.old machine
            → CostsAtMost (commands.Event event.now) self.old machine self.new steps.old steps.new }
    {
        match self.take_event(event, out, steps) {
            Ok(()) => {
                self.keep_small(steps);
                Ok(())
            }
            Err(fault) => Err(fault),
        }
    }

    /// Queries that have grown may be compacted, with all open cursors held. The session is the
    /// same model.
    fn keep_small<L: Ledger>(&mut self, steps: &mut Steps<L>)
        ensures stands { (machine : SessionModel) → Stands self.old machine
            → Stands self.new machine }
        ensures closed { self.new.closed ≡ self.old.closed }
        ensures same { SameQueries self.old.engine self.new.engine }
        ensures count { count_of self.new.engine ≡ count_of self.old.engine }
        ensures tended { IsTended self.old.engine self.new.engine }
        ensures paid { (machine : SessionModel) → Stands self.old machine → steps.new
            + put_by_in self.new ≤ steps.old + put_by_in self.old }
    {
        let held = self.cursors.as_mut_slice();
        self.schedule.keep_small(&mut self.engine, held, steps);
    }

    /// The event comes, and its position is written.
    fn take_event<K: Sink, L: Ledger>(
        &mut self,
        event: &Event,
        out: &mut K,
        steps: &mut Steps<L>,
    ) -> Result<(), RunFault>
        requires going { self.old.closed ≡ false }
        requires of_schema { IsOfSchema self.old.engine.schema event.now }
        requires room { count_of self.old.engine + 1 < 2 ^ 64 }
        ensures ended { (machine : SessionModel) → Stands self.old machine
            → Ended (commands.Event event.now) self.old machine self.new (K.taken out.old)
            (K.taken out.new) result }
        ensures same { SameQueries self.old.engine self.new.engine }
        ensures count { count_of self.new.engine ≤ count_of self.old.engine + 1 }
        ensures cause { HasRunCause (K.faults out.old) (K.faults out.new) result }
        ensures engine { IsAddedTo event.now self.old.engine self.new.engine result }
        ensures steps { TakingIsWithin self.new steps.old steps.new result }
        ensures noted { self.new.bases ≡ self.old.bases }
        ensures costs { (machine : SessionModel) → Stands self.old machine
            → CostsAtMost (commands.Event event.now) self.old machine self.new steps.old steps.new }
    {
        match self.engine.see(event, steps) {
            Ok(position) => match write_at(out, &mut self.buffer, position) {
                Ok(()) => Ok(()),
                Err(stop) => {
                    self.closed = true;
                    Err(stopped(stop))
                }
            },
            Err(SeeFault::TimeBack { query, before, now }) => {
                Err(RunFault::Refused(Refusal::TimeBack { query, before, now }))
            }
            Err(SeeFault::Memory) => Err(RunFault::Memory),
        }
    }

    /// A cursor is opened on the query's answers at the last event.
    fn open<L: Ledger>(
        &mut self,
        query: u64,
        number: u64,
        steps: &mut Steps<L>,
    ) -> Result<(), RunFault>
        requires going { self.old.closed ≡ false }
        ensures ended { (machine : SessionModel) (taken : Option (List ℕ)) → Stands self.old machine
            → Ended (commands.OpenAt query number) self.old machine self.new taken taken result }
        ensures same { SameQueries self.old.engine self.new.engine }
        ensures count { count_of self.new.engine ≤ count_of self.old.engine + 1 }
        ensures cause { (count : ℕ) → HasRunCause count count result }
        ensures engine { self.new.engine ≡ self.old.engine }
        ensures steps { UnlessRefused steps.old steps.new (steps.new
            ≤ steps.old + update_bound (found_of self.old.engine query)) result }
        ensures costs { (machine : SessionModel) → Stands self.old machine
            → CostsAtMost (commands.OpenAt query number) self.old machine self.new steps.old
            steps.new }
    {
        if query == 0 || query > self.engine.queries() {
            return Err(RunFault::Refused(Refusal::NoQuery { query }));
        }
        if self.engine.events() == 0 {
            return Err(RunFault::Refused(Refusal::NoEventYet));
        }
        if place_among(self.opened.as_slice(), number).is_some() {
            return Err(RunFault::Refused(Refusal::CursorOpen { cursor: number }));
        }
        match self.engine.cursor(query, steps) {
            Ok(cursor) => {
                let position = self.engine.events() - 1;
                match add(
                    &mut self.opened,
                    &mut self.cursors,
                    CursorNumber { number, position },
                    cursor,
                ) {
                    Ok(()) => Ok(()),
                    Err(_) => Err(RunFault::Memory),
                }
            }
            Err(_) => Err(RunFault::Memory),
        }
    }

    /// Up to so many answers are taken from the cursor, and written.
    fn pull<K: Sink, L: Ledger>(
        &mut self,
        number: u64,
        n: u64,
        out: &mut K,
        steps: &mut Steps<L>,
    ) -> Result<(), RunFault>
        requires going { self.old.closed ≡ false }
        ensures ended { (machine : SessionModel) → Stands self.old machine
            → Ended (commands.Pull number n) self.old machine self.new (K.taken out.old)
            (K.taken out.new) result }
        ensures same { SameQueries self.old.engine self.new.engine }
        ensures count { count_of self.new.engine ≤ count_of self.old.engine + 1 }
        ensures cause { HasRunCause (K.faults out.old) (K.faults out.new) result }
        ensures engine { self.new.engine ≡ self.old.engine }
        ensures steps { (machine : SessionModel) → Stands self.old machine
            → StepsAreWithin (commands.Pull number n) self.old machine self.new steps.old steps.new
            result }
        ensures costs { (machine : SessionModel) → Stands self.old machine
            → CostsAtMost (commands.Pull number n) self.old machine self.new steps.old steps.new }
    {
        match place_among(self.opened.as_slice(), number) {
            None => Err(RunFault::Refused(Refusal::CursorNotOpen { cursor: number })),
            Some(k) => {
                let end = self.opened[k].position;
                let cursor = &mut self.cursors[k];
                match write_pull(&self.engine, cursor, n, end, out, &mut self.buffer, steps) {
                    Ok(()) => Ok(()),
                    Err(stop) => {
                        self.closed = true;
                        Err(stopped(stop))
                    }
                }
            }
        }
    }

    /// The cursor is given up.
    fn drop_cursor(&mut self, number: u64) -> Result<(), RunFault>
        requires going { self.old.closed ≡ false }
        ensures ended { (machine : SessionModel) (taken : Option (List ℕ)) → Stands self.old machine
            → Ended (commands.Drop number) self.old machine self.new taken taken result }
        ensures same { SameQueries self.old.engine self.new.engine }
        ensures count { count_of self.new.engine ≤ count_of self.old.engine + 1 }
        ensures cause { (count : ℕ) → HasRunCause count count result }
        ensures engine { self.new.engine ≡ self.old.engine }
        ensures noted { self.new.bases ≡ self.old.bases }
    {
        match place_among(self.opened.as_slice(), number) {
            None => Err(RunFault::Refused(Refusal::CursorNotOpen { cursor: number })),
            Some(k) => {
                self.opened.remove(k);
                self.cursors.remove(k);
                Ok(())
            }
        }
    }

    /// What no window and no open cursor needs is given up.
    fn compact<L: Ledger>(&mut self, steps: &mut Steps<L>) -> Result<(), RunFault>
        requires going { self.old.closed ≡ false }
        ensures ended { (machine : SessionModel) (taken : Option (List ℕ)) → Stands self.old machine
            → Ended commands.Compact self.old machine self.new taken taken result }
        ensures same { SameQueries self.old.engine self.new.engine }
        ensures count { count_of self.new.engine ≤ count_of self.old.engine + 1 }
        ensures cause { (count : ℕ) → HasRunCause count count result }
        ensures engine { EngineEnded commands.Compact self.old.engine self.new result }
        ensures steps { steps.new ≤ steps.old + compact_bounds self.old.engine }
        ensures costs { (machine : SessionModel) → Stands self.old machine
            → CostsAtMost commands.Compact self.old machine self.new steps.old steps.new }
    {
        match self.engine.compact(self.cursors.as_mut_slice(), steps) {
            Ok(()) => {
                self.schedule.note(&self.engine);
                Ok(())
            }
            Err(_) => Err(RunFault::Memory),
        }
    }

    /// Carries out the command. The session is not closed; an event is of its schema, and there is
    /// a position after it.
    ///
    /// An event adds to the engine what `Engine::see` says, a compaction leaves of it what
    /// `Engine::compact` says, and no other command changes it. Once an event was taken and its
    /// position written, queries that have grown may be compacted, with all open cursors held,
    /// where there is memory for it; that is no step of the model. What is put by at each event
    /// pays for it.
    ///
    /// After a refusal nothing has changed, nothing was written, and no step was taken:
    ///
    /// - `NoQuery`: there is no query of this number, which is from 1.
    /// - `NoEventYet`: there is one, and no event was taken.
    /// - `CursorOpen`: an event was taken, and the cursor is open.
    /// - `CursorNotOpen`: a pull, or a drop, of a cursor that is not open.
    /// - `TimeBack`: the clock of a query would fall with the event.
    ///
    /// After `WriteFault` the sink has taken a proper first part of what the command writes, its
    /// count of faults rose, and the session is closed. After `Memory` in a pull, or where the
    /// position of an event was to be written, it has taken a first part, and the session is
    /// closed; after any other `Memory` nothing has changed, and nothing was written.
    pub fn run<K: Sink, L: Ledger>(
        &mut self,
        command: ScriptCommand,
        out: &mut K,
        steps: &mut Steps<L>,
    ) -> Result<(), RunFault>
        requires going { self.old.closed ≡ false }
        requires of_schema { HasEventOf self.old.engine.schema command }
        requires room { HasRoom self.old.engine command }
        ensures ended { (machine : SessionModel) → Stands self.old machine → Ended command self.old
            machine self.new (K.taken out.old) (K.taken out.new) result }
        ensures same { SameQueries self.old.engine self.new.engine }
        ensures count { count_of self.new.engine ≤ count_of self.old.engine + 1 }
        ensures cause { HasRunCause (K.faults out.old) (K.faults out.new) result }
        ensures engine { EngineEnded command self.old.engine self.new result }
        ensures steps { (machine : SessionModel) → Stands self.old machine
            → StepsAreWithin command self.old
            machine self.new steps.old steps.new result }
        ensures costs { (machine : SessionModel) → Stands self.old machine → CostsAtMost command
            self.old machine self.new steps.old steps.new }
    {
        match command {
            ScriptCommand::Event(event) => self.event(&event, out, steps),
            ScriptCommand::OpenAt { query, cursor } => self.open(query, cursor, steps),
            ScriptCommand::Pull { cursor, n } => self.pull(cursor, n, out, steps),
            ScriptCommand::Drop { cursor } => self.drop_cursor(cursor),
            ScriptCommand::Compact => self.compact(steps),
        }
    }
}

/// Puts the cursor last, with its number. Where memory runs out both lists are as they were.
fn add(
    opened: &mut Vec<CursorNumber>,
    cursors: &mut Vec<Cursor>,
    one: CursorNumber,
    cursor: Cursor,
) -> Result<(), Memory>
    ensures opened { OnOk result (opened.new.items ≡ opened.old.items ++ one ∷ []) }
    ensures cursors { OnOk result (cursors.new.items ≡ cursors.old.items ++ cursor ∷ []) }
    ensures unchanged { OnErr result ((opened.new.items ≡ opened.old.items)
        × (cursors.new.items ≡ cursors.old.items)) }
{
    opened.push(one)?;
    match cursors.push(cursor) {
        Ok(()) => Ok(()),
        Err(_) => {
            opened.pop();
            Err(Memory)
        }
    }
}
