//! Rows with compactions: a cursor that is held over one, and how many nodes stay.
ghost use Rattle.std.specs.Prelude.{◌≡◌, ◌<◌, IfOk, OnOk};
ghost use Rattle.query_engine.specs.Engine.{Fits, KeepsCursors};

use crate::rows::{CaseFault, event_of, write_answer};
use cer_base::steps::{Opening, Steps};
use query_engine::{Cursor, Engine};
use std::alloc::Global;
use std::sync::ledger::Ledger;

/// Takes the event of the line.
fn take_line<L: Ledger>(
    alloc: Global,
    engine: &mut Engine,
    line: &[u8],
    steps: &mut Steps<L>,
) -> Result<(), CaseFault>
    ensures cursors { OnOk result (KeepsCursors engine.old engine.new) }
{
    if engine.events() == u64::MAX {
        return Err(CaseFault::Count);
    }
    let event = event_of(alloc, engine, line)?;
    match engine.see(&event, steps) {
        Ok(_) => Ok(()),
        Err(_) => Err(CaseFault::Line),
    }
}

/// Takes the events of the lines, which a semicolon parts.
fn take_lines<L: Ledger>(
    alloc: Global,
    engine: &mut Engine,
    lines: &[u8],
    steps: &mut Steps<L>,
) -> Result<(), CaseFault> {
    for line in lines.split(|b| *b == b';') {
        take_line(alloc, engine, line, steps)?;
    }
    Ok(())
}

/// A cursor of the first query.
fn open<L: Ledger>(engine: &Engine, steps: &mut Steps<L>) -> Result<Cursor, CaseFault>
    ensures fits { IfOk result (Fits engine.now) }
{
    if engine.events() == 0 || engine.queries() == 0 {
        return Err(CaseFault::Line);
    }
    Ok(engine.cursor(1, steps)?)
}

/// Writes the cursor's next answer, or that there is none.
fn write_next<L: Ledger>(
    engine: &Engine,
    cursor: &mut Cursor,
    text: &mut String,
    steps: &mut Steps<L>,
) -> Result<(), CaseFault>
    requires fits { Fits engine.now cursor.old }
    ensures fits { Fits engine.now cursor.new }
{
    match engine.pull(cursor, steps) {
        Some(start) => write_answer(start.pos, cursor.positions(), text),
        None => {
            text.push_str("none ")?;
            Ok(())
        }
    }
}

/// Compacts with the cursor held, and hands it back.
fn compacted<L: Ledger>(
    engine: &mut Engine,
    cursor: Cursor,
    steps: &mut Steps<L>,
) -> Result<Cursor, CaseFault>
    requires fits { Fits engine.old cursor }
    ensures fits { IfOk result (Fits engine.new) }
{
    let mut held = [cursor];
    engine.compact(&mut held, steps)?;
    let [cursor] = held;
    Ok(cursor)
}

/// One answer of a cursor that is opened after the lines, and four more once another line was taken
/// and a compaction held it.
pub fn held_over_a_compaction<L: Ledger>(
    alloc: Global,
    engine: &mut Engine,
    lines: &[u8],
    line: &[u8],
    opening: Opening,
) -> Result<String, CaseFault>
    requires name { opening.name ≡ L.name }
    requires parts { opening.parts ≡ L.parts }
{
    let mut steps = Steps::<L>::start(opening);
    let mut text = String::new(alloc);
    take_lines(alloc, engine, lines, &mut steps)?;
    let mut cursor = open(engine, &mut steps)?;
    write_next(engine, &mut cursor, &mut text, &mut steps)?;
    take_line(alloc, engine, line, &mut steps)?;
    let mut cursor = compacted(engine, cursor, &mut steps)?;
    for _ in 0..4 {
        write_next(engine, &mut cursor, &mut text, &mut steps)?;
    }
    Ok(text)
}

/// How many nodes the queries have in all, at most 2^64 - 1.
fn nodes(engine: &Engine) -> u64 {
    let mut count: u64 = 0;
    for k in 0..engine.queries() {
        count = count.saturating_add(engine.len(k + 1));
    }
    count
}

/// Takes the line ten times, and compacts with no cursor held.
fn take_ten<L: Ledger>(
    alloc: Global,
    engine: &mut Engine,
    line: &[u8],
    steps: &mut Steps<L>,
) -> Result<(), CaseFault> {
    for _ in 0..10 {
        take_line(alloc, engine, line, steps)?;
    }
    engine.compact(&mut [], steps)?;
    Ok(())
}

/// The most nodes after a compaction, over a thousand events of the line with a compaction after each
/// tenth.
pub fn most_after_compactions<L: Ledger>(
    alloc: Global,
    engine: &mut Engine,
    line: &[u8],
    opening: Opening,
) -> Result<u64, CaseFault>
    requires name { opening.name ≡ L.name }
    requires parts { opening.parts ≡ L.parts }
{
    let mut steps = Steps::<L>::start(opening);
    let mut most = 0;
    for _ in 0..100 {
        take_ten(alloc, engine, line, &mut steps)?;
        most = nodes(engine).max(most);
    }
    Ok(most)
}
