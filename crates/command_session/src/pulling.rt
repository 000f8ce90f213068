//! What a session writes: the position of an event, and the answers that a cursor gives.

ghost use Rattle.std.specs.Prelude.{◌≡◌, ◌+◌, ◌≤◌, ◌++◌, true, false, length, take, drop, flat_map, nat_le, OnOk, OnErr};
ghost use Rattle.cer_outside.specs.Causes.{HasCauseOrMemory};
ghost use Rattle.query_engine.specs.Engine.{Fits};
ghost use Rattle.answer_text.specs.Output.{line};
ghost use Rattle.answer_blocks.specs.RowSteps.{delays};
ghost use Rattle.answer_blocks.specs.SinkBytes.{TookBy};
ghost use Rattle.command_session.specs.SessionModel.{position_line, end_line, more_line, pull_text};
ghost use Rattle.command_session.specs.Sessions.{left_of};

use answer_blocks::walk::write_line;
use cer_base::steps::Steps;
use cer_base::{Memory, OrMemory, Pos};
use cer_outside::writing::put_all;
use cer_outside::{Sink, WriteFault};
use itoa::Buffer;
use query_engine::{Cursor, Engine};
use std::sync::ledger::Ledger;

/// Puts `at P` after the text.
fn push_at(text: &mut Vec<u8>, position: Pos) -> Result<(), Memory>
    ensures { OnOk result (text.new.items ≡ text.old.items ++ position_line position) }
{
    let mut digits = Buffer::new();
    text.extend_from_slice(b"at ")?;
    text.extend_from_slice(digits.format(position).as_bytes())?;
    text.extend_from_slice(b"\n")?;
    Ok(())
}

/// Writes the position of an event. The buffer's bytes go.
pub fn write_at<K: Sink>(
    out: &mut K,
    buffer: &mut Vec<u8>,
    position: Pos,
) -> Result<(), OrMemory<WriteFault>>
    ensures took { TookBy (K.taken out.old) (K.taken out.new) (position_line position) result }
    ensures cause { HasCauseOrMemory (K.faults out.old) (K.faults out.new) result }
{
    buffer.clear();
    push_at(buffer, position)?;
    match put_all(out, buffer.as_slice()) {
        Ok(()) => Ok(()),
        Err(fault) => Err(OrMemory::Fault(fault)),
    }
}

/// Writes the lines of the cursor's next answers, so many or all that it has left, each before the
/// next one is pulled.
fn write_answers<K: Sink, L: Ledger>(
    engine: &Engine,
    cursor: &mut Cursor,
    n: u64,
    end: Pos,
    out: &mut K,
    buffer: &mut Vec<u8>,
    steps: &mut Steps<L>,
) -> Result<(), OrMemory<WriteFault>>
    requires fits { Fits engine.now cursor.old }
    ensures took { TookBy (K.taken out.old) (K.taken out.new) (flat_map (line cursor.old.query end)
        (take n (left_of engine.now cursor.old))) result }
    ensures left { OnOk result (left_of engine.now cursor.new
        ≡ drop n (left_of engine.now cursor.old)) }
    ensures fits { Fits engine.now cursor.new }
    ensures query { cursor.new.query ≡ cursor.old.query }
    ensures steps { steps.new ≤ steps.old + (delays (take n (left_of engine.now cursor.old)) + 1) }
    ensures cause { HasCauseOrMemory (K.faults out.old) (K.faults out.new) result }
{
    for _k in 0..n {
        match engine.pull(cursor, steps) {
            Some(start) => {
                write_line(
                    out,
                    buffer,
                    cursor.query(),
                    start.pos,
                    end,
                    cursor.positions(),
                )?;
            }
            None => return Ok(()),
        }
    }
    Ok(())
}

/// Writes whether the cursor has answers left.
fn write_end<K: Sink>(is_done: bool, out: &mut K) -> Result<(), OrMemory<WriteFault>>
    ensures end { is_done ≡ true → TookBy (K.taken out.old) (K.taken out.new) end_line result }
    ensures more { is_done ≡ false → TookBy (K.taken out.old) (K.taken out.new) more_line result }
    ensures cause { HasCauseOrMemory (K.faults out.old) (K.faults out.new) result }
{
    let word = if is_done {
        b"end\n".as_slice()
    } else {
        b"more\n".as_slice()
    };
    match put_all(out, word) {
        Ok(()) => Ok(()),
        Err(fault) => Err(OrMemory::Fault(fault)),
    }
}

/// Writes the cursor's next answers, so many or all that it has left, and then whether it has more.
/// The cursor was opened at the position `end`. The buffer's bytes go.
pub fn write_pull<K: Sink, L: Ledger>(
    engine: &Engine,
    cursor: &mut Cursor,
    n: u64,
    end: Pos,
    out: &mut K,
    buffer: &mut Vec<u8>,
    steps: &mut Steps<L>,
) -> Result<(), OrMemory<WriteFault>>
    requires fits { Fits engine.now cursor.old }
    ensures took { TookBy (K.taken out.old) (K.taken out.new) (pull_text cursor.old.query end n
        (left_of engine.now cursor.old)) result }
    ensures left { OnOk result (left_of engine.now cursor.new
        ≡ drop n (left_of engine.now cursor.old)) }
    ensures fits { Fits engine.now cursor.new }
    ensures query { cursor.new.query ≡ cursor.old.query }
    ensures steps { steps.new ≤ steps.old + (delays (take n (left_of engine.now cursor.old)) + 1) }
    ensures cause { HasCauseOrMemory (K.faults out.old) (K.faults out.new) result }
{
    match write_answers(engine, cursor, n, end, out, buffer, steps) {
        Ok(()) => write_end(cursor.is_done(), out),
        Err(stop) => Err(stop),
    }
}
