//! The blocks of a position, as the engine finds their answers.

ghost use Rattle.std.specs.Prelude.{◌≡◌, ℕ, ◌+◌, ◌-◌, ◌<◌, ◌≤◌, List, ◌++◌, length, map, reverse, flat_map};
ghost use Rattle.stream_schema.specs.declared.Event.{Event};
ghost use Rattle.cer_outside.specs.Causes.{HasCauseOrMemory};
ghost use Rattle.query_engine.specs.Counts.{cursor_bound, cursor_bounds};
ghost use Rattle.query_engine.specs.Engine.{StandsFor, count_of, Fits, IsNumber};
ghost use Rattle.answer_text.specs.declared.Order.TheVariants.{Walk};
ghost use Rattle.answer_text.specs.Output.{line, AreBlocks};
ghost use Rattle.answer_text.specs.OutputRows.{row_at};
ghost use Rattle.answer_blocks.specs.SinkBytes.{TookBy};
ghost use Rattle.answer_blocks.specs.Wanted.{to_give};
ghost use Rattle.answer_blocks.specs.Blocks.{HasBlock};
ghost use Rattle.answer_blocks.specs.RowSteps.{HasRows, HasRowsAt, WroteRows};

use crate::pulling::AnswersLeft;
use answer_text::push_line;
use cer_base::steps::Steps;
use cer_base::{OrMemory, Pos};
use cer_outside::writing::put_all;
use cer_outside::{Sink, WriteFault};
use query_engine::Engine;
use std::sync::ledger::Ledger;

/// Writes the line of a complex event. The buffer's bytes go.
pub fn write_line<K: Sink>(
    out: &mut K,
    buffer: &mut Vec<u8>,
    query: u64,
    start: Pos,
    end: Pos,
    falling: &[Pos],
) -> Result<(), OrMemory<WriteFault>>
    ensures took { TookBy (K.taken out.old) (K.taken out.new) (line query end (record
        { start = start; marks = reverse falling.now })) result }
    ensures cause { HasCauseOrMemory (K.faults out.old) (K.faults out.new) result }
{
    buffer.clear();
    push_line(buffer, query, start, end, falling)?;
    match put_all(out, buffer.as_slice()) {
        Ok(()) => Ok(()),
        Err(fault) => Err(OrMemory::Fault(fault)),
    }
}

/// Writes the lines of the answers that are wanted, each before the next one is pulled.
fn write_answers<K: Sink, L: Ledger>(
    engine: &Engine,
    pulling: &mut AnswersLeft,
    query: u64,
    end: Pos,
    out: &mut K,
    buffer: &mut Vec<u8>,
    steps: &mut Steps<L>,
) -> Result<(), OrMemory<WriteFault>>
    requires fits { Fits engine.now pulling.old.cursor }
    ensures took { TookBy (K.taken out.old) (K.taken out.new) (flat_map (line query end)
        (to_give engine.now pulling.old.left pulling.old.cursor)) result }
    ensures rows { WroteRows (K.taken out.old) (K.taken out.new) (map (row_at query end)
        (to_give engine.now pulling.old.left pulling.old.cursor))
        (steps.old + 1) steps.new result }
    ensures cause { HasCauseOrMemory (K.faults out.old) (K.faults out.new) result }
{
    while let Some(start) = pulling.next(engine, steps) {
        write_line(out, buffer, query, start, end, pulling.positions())?;
    }
    Ok(())
}

fn write_block<K: Sink, L: Ledger>(
    engine: &Engine,
    number: u64,
    out: &mut K,
    buffer: &mut Vec<u8>,
    steps: &mut Steps<L>,
) -> Result<(), OrMemory<WriteFault>>
    requires seen { 0 < count_of engine.now }
    requires numbered { IsNumber engine.now number }
    ensures took { HasBlock Walk engine.now number
        (λ bytes. TookBy (K.taken out.old) (K.taken out.new) bytes result) }
    ensures rows { HasRows Walk engine.now number (λ rows.
        WroteRows (K.taken out.old) (K.taken out.new) rows
        (steps.old + cursor_bound engine.now number) steps.new result) }
    ensures cause { HasCauseOrMemory (K.faults out.old) (K.faults out.new) result }
{
    if !engine.may_answer(number) {
        return Ok(());
    }
    let mut pulling = AnswersLeft::start(engine, number, steps)?;
    let end = engine.events() - 1;
    write_answers(engine, &mut pulling, number, end, out, buffer, steps)
}

/// Writes the blocks of all queries at the last position, as the engine finds their answers: each
/// line is written before the next answer is pulled. An event was taken. The buffer is used for the
/// lines, and its bytes go.
///
/// After a fault the sink has taken a proper first part of the blocks, and its count of faults rose
/// by one; where memory ran out, a first part. It takes the steps of a cursor for each query, and a
/// delay for each answer; after a fault only for those whose lines were taken, and for the one whose
/// line was not.
pub fn write_blocks<K: Sink, L: Ledger>(
    engine: &Engine,
    out: &mut K,
    buffer: &mut Vec<u8>,
    steps: &mut Steps<L>,
) -> Result<(), OrMemory<WriteFault>>
    requires seen { 0 < count_of engine.now }
    ensures took { (events : List Event) → StandsFor engine.now events → (bytes : List ℕ)
        × AreBlocks Walk engine.now.schema 1 engine.now.queries events (length events - 1) bytes
        × TookBy (K.taken out.old) (K.taken out.new) bytes result }
    ensures rows { HasRowsAt Walk engine.now engine.now.queries (λ rows.
        WroteRows (K.taken out.old) (K.taken out.new) rows
        (steps.old + cursor_bounds engine.now) steps.new result) }
    ensures cause { HasCauseOrMemory (K.faults out.old) (K.faults out.new) result }
{
    let numbers = engine.answering();
    for number in numbers {
        write_block(engine, *number, out, buffer, steps)?;
    }
    Ok(())
}
