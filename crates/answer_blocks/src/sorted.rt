//! The blocks of a position, each in order.

ghost use Rattle.std.specs.Prelude.{◌≡◌, ℕ, ◌+◌, ◌-◌, ◌<◌, ◌≤◌, List, ◌∷◌, ◌++◌, length, reverse, OnOk, OnErr};
ghost use Rattle.stream_schema.specs.declared.Event.{Event};
ghost use Rattle.query_engine.specs.Counts.{cursor_bound, cursor_bounds};
ghost use Rattle.query_engine.specs.Engine.{StandsFor, count_of, Fits, IsNumber};
ghost use Rattle.answer_text.specs.declared.Order.TheVariants.{Sorted};
ghost use Rattle.answer_text.specs.Output.{AreBlocks};
ghost use Rattle.answer_text.specs.OutputRows.{lines_of};
ghost use Rattle.answer_text.specs.Texts.{StartsWith};
ghost use Rattle.answer_blocks.specs.Wanted.{to_give};
ghost use Rattle.answer_blocks.specs.Blocks.{HasBlock, HasBlocks, HasPut};
ghost use Rattle.answer_blocks.specs.RowSteps.{delays, row_delays, HasRows, HasRowsAt};

use crate::pulling::AnswersLeft;
use answer_text::{Answers, push_line};
use cer_base::steps::Steps;
use cer_base::{Memory, Pos};
use query_engine::Engine;
use std::alloc::Global;
use std::sync::ledger::Ledger;

/// Puts all that are still wanted after the answers.
fn pull_all<L: Ledger>(
    engine: &Engine,
    pulling: &mut AnswersLeft,
    found: &mut Answers,
    steps: &mut Steps<L>,
) -> Result<(), Memory>
    requires fits { Fits engine.now pulling.old.cursor }
    ensures all { OnOk result (found.new
        ≡ found.old ++ to_give engine.now pulling.old.left pulling.old.cursor) }
    ensures steps { steps.new ≤ steps.old + 1
        + delays (to_give engine.now pulling.old.left pulling.old.cursor) }
{
    while let Some(start) = pulling.next(engine, steps) {
        found.push(start, pulling.positions())?;
    }
    Ok(())
}

/// The lines of the answer that was given last and of all that are still wanted, in order.
fn push_several<L: Ledger>(
    alloc: Global,
    engine: &Engine,
    pulling: &mut AnswersLeft,
    start: Pos,
    query: u64,
    end: Pos,
    text: &mut Vec<u8>,
    steps: &mut Steps<L>,
) -> Result<(), Memory>
    requires fits { Fits engine.now pulling.old.cursor }
    ensures put { HasPut query end
        (record { start = start; marks = reverse pulling.old.cursor.path }
        ∷ to_give engine.now pulling.old.left pulling.old.cursor)
        text.old.items text.new.items result }
    ensures kept { OnErr result (StartsWith text.old.items text.new.items) }
    ensures steps { steps.new ≤ steps.old + 1
        + delays (to_give engine.now pulling.old.left pulling.old.cursor) }
{
    let mut answers = Answers::new(alloc);
    answers.push(start, pulling.positions())?;
    pull_all(engine, pulling, &mut answers, steps)?;
    answers.sort();
    answers.push_lines(text, query, end)
}

/// The lines of all that are wanted, in order. The line of one alone is put without keeping it.
fn push_wanted<L: Ledger>(
    alloc: Global,
    engine: &Engine,
    pulling: &mut AnswersLeft,
    query: u64,
    end: Pos,
    text: &mut Vec<u8>,
    steps: &mut Steps<L>,
) -> Result<(), Memory>
    requires fits { Fits engine.now pulling.old.cursor }
    ensures put { HasPut query end (to_give engine.now pulling.old.left pulling.old.cursor)
        text.old.items text.new.items result }
    ensures kept { OnErr result (StartsWith text.old.items text.new.items) }
    ensures steps { steps.new ≤ steps.old + 1
        + delays (to_give engine.now pulling.old.left pulling.old.cursor) }
{
    match pulling.next(engine, steps) {
        None => Ok(()),
        Some(start) => {
            if pulling.is_over() {
                return push_line(text, query, start, end, pulling.positions());
            }
            push_several(alloc, engine, pulling, start, query, end, text, steps)
        }
    }
}

fn push_block<L: Ledger>(
    alloc: Global,
    engine: &Engine,
    number: u64,
    text: &mut Vec<u8>,
    steps: &mut Steps<L>,
) -> Result<(), Memory>
    requires seen { 0 < count_of engine.now }
    requires numbered { IsNumber engine.now number }
    ensures block { OnOk result (HasBlock Sorted engine.now number
        (λ bytes. text.new.items ≡ text.old.items ++ bytes)) }
    ensures rows { HasRows Sorted engine.now number (λ rows.
        OnOk result (text.new.items ≡ text.old.items ++ lines_of rows)
        × (steps.new ≤ steps.old + cursor_bound engine.now number + row_delays rows)) }
    ensures kept { StartsWith text.old.items text.new.items }
{
    if !engine.may_answer(number) {
        return Ok(());
    }
    let mut pulling = AnswersLeft::start(engine, number, steps)?;
    let end = engine.events() - 1;
    push_wanted(alloc, engine, &mut pulling, number, end, text, steps)
}

fn push_each<L: Ledger>(
    alloc: Global,
    engine: &Engine,
    text: &mut Vec<u8>,
    steps: &mut Steps<L>,
) -> Result<(), Memory>
    requires seen { 0 < count_of engine.now }
    ensures blocks { OnOk result (HasBlocks Sorted engine.now engine.now.queries
        (λ bytes. text.new.items ≡ text.old.items ++ bytes)) }
    ensures rows { HasRowsAt Sorted engine.now engine.now.queries (λ rows.
        OnOk result (text.new.items ≡ text.old.items ++ lines_of rows)
        × (steps.new ≤ steps.old + cursor_bounds engine.now + row_delays rows)) }
    ensures kept { StartsWith text.old.items text.new.items }
{
    let numbers = engine.answering();
    for number in numbers {
        push_block(alloc, engine, *number, text, steps)?;
    }
    Ok(())
}

/// Puts the blocks of all queries at the last position after the text, each in order. An event was
/// taken. Where memory runs out the text is as it was.
///
/// Whatever the answer, it takes the steps of a cursor for each query, and a delay for each answer.
pub fn push_blocks<L: Ledger>(
    alloc: Global,
    engine: &Engine,
    text: &mut Vec<u8>,
    steps: &mut Steps<L>,
) -> Result<(), Memory>
    requires seen { 0 < count_of engine.now }
    ensures blocks { OnOk result ((events : List Event) → StandsFor engine.now events
        → (bytes : List ℕ) × AreBlocks Sorted engine.now.schema 1 engine.now.queries events
        (length events - 1) bytes × (text.new.items ≡ text.old.items ++ bytes)) }
    ensures rows { HasRowsAt Sorted engine.now engine.now.queries (λ rows.
        OnOk result (text.new.items ≡ text.old.items ++ lines_of rows)
        × (steps.new ≤ steps.old + cursor_bounds engine.now + row_delays rows)) }
    ensures kept { OnErr result (text.new.items ≡ text.old.items) }
{
    let before = text.len();
    match push_each(alloc, engine, text, steps) {
        Ok(()) => Ok(()),
        Err(memory) => {
            text.truncate(before);
            Err(memory)
        }
    }
}
