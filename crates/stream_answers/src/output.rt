//! The lines of a run, gathered and written.

ghost use Rattle.std.specs.Prelude.{◌≡◌, ◌+◌, ◌-◌, ◌<◌, ℕ, List, [], true, length, IsOk, OnOk, OnErr};
ghost use Rattle.stream_schema.specs.declared.Event.{Event};
ghost use Rattle.cer_outside.specs.Bytes.{TookAll, TookPart};
ghost use Rattle.cer_outside.specs.Causes.{HasCause, HasCauseOrMemory};
ghost use Rattle.query_engine.specs.Engine.{StandsFor, count_of};
ghost use Rattle.query_engine.specs.Counts.{cursor_bounds};
ghost use Rattle.answer_text.specs.declared.Order.TheVariants.{Walk};
ghost use Rattle.answer_text.specs.Output.{AreBlocks};
ghost use Rattle.answer_text.specs.OutputRows.{lines_of};
ghost use Rattle.answer_blocks.specs.RowSteps.{HasRowsAt};
ghost use Rattle.stream_answers.specs.Counting.{StepsPut};
ghost use Rattle.stream_answers.specs.Gathering.{PassesOn, Passed, MayWait};

use crate::events::Events;
use answer_blocks::{push_blocks, write_blocks};
use answer_text::Order;
use cer_base::steps::Steps;
use cer_base::{Memory, OrMemory};
use cer_outside::writing::put_all;
use cer_outside::{Sink, WriteFault};
use query_engine::Engine;
use std::alloc::Global;
use std::marker::Model;
use std::sync::ledger::Ledger;

/// So many bytes are written at once, at the latest after the block that fills them.
const PIECE: usize = 65_536;

/// The lines that are to be written. In walk order none waits here.
#[derive(Drop)]
pub struct Output {
    alloc: Global,
    order: Order,
    buffer: Vec<u8>,
    line: Vec<u8>,
}

impl Model for Output {
    ghost use Rattle.std.specs.Prelude.{◌≡◌, []};
    ghost use Rattle.answer_text.specs.declared.Order.{Order};
    ghost use Rattle.answer_text.specs.declared.Order.TheVariants.{Walk};
    ghost use Rattle.stream_answers.specs.Gathering.{OutputState};

    ghost Value = { OutputState };

    ghost view = { λ o. record { order = o.order; buffer = o.buffer.items } };

    ghost invariant = { λ o. o.order ≡ Walk → o.buffer.items ≡ [] };
}

impl Output {
    /// No line yet.
    pub fn new(alloc: Global, order: Order) -> Output
        ensures { result ≡ record { order = order; buffer = [] } }
    {
        Output {
            alloc,
            order,
            buffer: Vec::new(alloc),
            line: Vec::new(alloc),
        }
    }

    /// The answers of all queries at the engine's last position. In walk order each line is written
    /// before the next answer is pulled. In sorted order lines wait only while few are held and the
    /// next event is at hand, so none waits while the source is asked.
    pub fn put<E: Events, K: Sink, L: Ledger>(
        &mut self,
        engine: &Engine,
        events: &mut E,
        out: &mut K,
        steps: &mut Steps<L>,
    ) -> Result<(), OrMemory<WriteFault>>
        requires seen { 0 < count_of engine.now }
        ensures events { events.new ≡ events.old }
        ensures waits { OnOk result (MayWait self.new.buffer (E.asks_nothing events.old)) }
        ensures order { self.new.order ≡ self.old.order }
        ensures passed { (events : List Event) → StandsFor engine.now events → (bytes : List ℕ)
            × AreBlocks self.old.order engine.now.schema 1 engine.now.queries events
            (length events - 1) bytes
            × Passed (K.taken out.old)
            (K.taken out.new) self.old.buffer bytes self.new.buffer result }
        ensures rows { HasRowsAt self.old.order engine.now engine.now.queries (λ rows.
            Passed (K.taken out.old) (K.taken out.new) self.old.buffer (lines_of rows)
            self.new.buffer result
            × StepsPut self.old.order (K.taken out.old) (K.taken out.new) rows
            (steps.old + cursor_bounds engine.now) steps.new result) }
        ensures walk { self.old.order ≡ Walk → self.new.buffer ≡ [] }
        ensures cause { HasCauseOrMemory (K.faults out.old) (K.faults out.new) result }
    {
        match self.order {
            Order::Walk => write_blocks(engine, out, &mut self.line, steps),
            Order::Sorted => {
                match push_blocks(self.alloc, engine, &mut self.buffer, steps) {
                    Ok(()) => {}
                    Err(Memory) => return Err(OrMemory::Memory),
                }
                if self.may_wait(events) {
                    return Ok(());
                }
                match self.flush(out) {
                    Ok(()) => Ok(()),
                    Err(fault) => Err(OrMemory::Fault(fault)),
                }
            }
        }
    }

    /// Whether what is held may wait for more: there is nothing, or it is not a piece and the next
    /// event is at hand.
    fn may_wait<E: Events>(&self, events: &mut E) -> bool
        ensures events { events.new ≡ events.old }
        ensures waits { result ≡ true → MayWait self.now.buffer (E.asks_nothing events.old) }
    {
        if self.buffer.is_empty() {
            return true;
        }
        if self.buffer.len() >= PIECE {
            return false;
        }
        events.is_at_hand()
    }

    /// Writes what is held, unless it may wait: then the next event is at hand, so none waits while
    /// the source is asked.
    pub fn settle<E: Events, K: Sink>(
        &mut self,
        events: &mut E,
        out: &mut K,
    ) -> Result<(), WriteFault>
        ensures events { events.new ≡ events.old }
        ensures waits { OnOk result (MayWait self.new.buffer (E.asks_nothing events.old)) }
        ensures order { self.new.order ≡ self.old.order }
        ensures kept { OnOk result (PassesOn (K.taken out.old)
            (K.taken out.new) self.old.buffer [] self.new.buffer []) }
        ensures part { OnErr result (TookPart (K.taken out.old) (K.taken out.new) self.old.buffer) }
        ensures none { self.old.buffer ≡ [] → IsOk result }
        ensures cause { HasCause (K.faults out.old) (K.faults out.new) result }
    {
        if self.may_wait(events) {
            return Ok(());
        }
        self.flush(out)
    }

    /// Writes what is held.
    pub fn flush<K: Sink>(&mut self, out: &mut K) -> Result<(), WriteFault>
        ensures all { OnOk result (TookAll (K.taken out.old) (K.taken out.new) self.old.buffer) }
        ensures part { OnErr result (TookPart (K.taken out.old) (K.taken out.new) self.old.buffer) }
        ensures cause { HasCause (K.faults out.old) (K.faults out.new) result }
        ensures empty { OnOk result (self.new.buffer ≡ []) }
        ensures none { self.old.buffer ≡ [] → IsOk result }
        ensures order { self.new.order ≡ self.old.order }
    {
        put_all(out, self.buffer.as_slice())?;
        self.buffer.clear();
        Ok(())
    }
}
