//! The line of a complex event, put after a text.

ghost use Rattle.std.specs.Prelude.{◌≡◌, ◌≤◌, ◌++◌, ◌∷◌, true, false, length, reverse, decimal, codes, OnOk, OnErr};
ghost use Rattle.cer_base.specs.declared.bytes.TheConstants as bytes;
ghost use Rattle.answer_text.specs.Output.{positions_text, line};
ghost use Rattle.answer_text.specs.Texts.{StartsWith};

use crate::short::{FEW, ROOM, put_line};
use cer_base::bytes::COMMA;
use cer_base::{Memory, Pos};
use itoa::Buffer;

fn push_number(text: &mut Vec<u8>, number: u64) -> Result<(), Memory>
    ensures number { OnOk result (text.new.items ≡ text.old.items ++ decimal number) }
    ensures kept { OnErr result (text.new.items ≡ text.old.items) }
{
    let mut digits = Buffer::new();
    text.extend_from_slice(digits.format(number).as_bytes())?;
    Ok(())
}

/// The number, after a comma unless it is the first.
fn push_listed(text: &mut Vec<u8>, number: u64, is_first: bool) -> Result<(), Memory>
    ensures first { OnOk result (is_first ≡ true
        → text.new.items ≡ text.old.items ++ decimal number) }
    ensures later { OnOk result (is_first ≡ false
        → text.new.items ≡ text.old.items ++ bytes.COMMA ∷ decimal number) }
    ensures kept { OnErr result (StartsWith text.old.items text.new.items) }
{
    if !is_first {
        text.push(COMMA)?;
    }
    push_number(text, number)
}

pub(crate) fn push_positions(text: &mut Vec<u8>, falling: &[Pos]) -> Result<(), Memory>
    ensures positions { OnOk result (text.new.items
        ≡ text.old.items ++ positions_text (reverse falling.now)) }
    ensures kept { OnErr result (StartsWith text.old.items text.new.items) }
{
    for k in (0..falling.len()).rev() {
        push_listed(text, falling[k], k + 1 == falling.len())?;
    }
    Ok(())
}

/// The query's number and the interval: `1 [0,5] {`
fn push_interval(text: &mut Vec<u8>, query: u64, start: Pos, end: Pos) -> Result<(), Memory>
    ensures interval { OnOk result (text.new.items ≡ text.old.items ++ (decimal query ++ codes " ["
        ++ decimal start ++ bytes.COMMA ∷ decimal end ++ codes "] {")) }
    ensures kept { OnErr result (StartsWith text.old.items text.new.items) }
{
    push_number(text, query)?;
    text.extend_from_slice(b" [")?;
    push_number(text, start)?;
    push_listed(text, end, false)?;
    text.extend_from_slice(b"] {")?;
    Ok(())
}

fn push_parts(
    text: &mut Vec<u8>,
    query: u64,
    start: Pos,
    end: Pos,
    falling: &[Pos],
) -> Result<(), Memory>
    ensures line { OnOk result (text.new.items ≡ text.old.items ++ line query end (record
        { start = start; marks = reverse falling.now })) }
    ensures kept { OnErr result (StartsWith text.old.items text.new.items) }
{
    push_interval(text, query, start, end)?;
    push_positions(text, falling)?;
    text.extend_from_slice(b"}\n")?;
    Ok(())
}

/// The line of a complex event with few positions, made in one piece.
fn push_short(
    text: &mut Vec<u8>,
    query: u64,
    start: Pos,
    end: Pos,
    falling: &[Pos],
) -> Result<(), Memory>
    requires few { length falling.now ≤ FEW }
    ensures line { OnOk result (text.new.items ≡ text.old.items ++ line query end (record
        { start = start; marks = reverse falling.now })) }
    ensures kept { OnErr result (text.new.items ≡ text.old.items) }
{
    let mut buf = [0; ROOM];
    let at = put_line(&mut buf, query, start, end, falling);
    text.extend_from_slice(&buf[at..])?;
    Ok(())
}

/// Puts the line of a complex event after the text, with its line feed: the query's number, the
/// start and the end, and the marked positions, which are given greatest first, in ascending order.
/// Where memory runs out the text is as it was.
///
/// `1 [0,5] {0,3,5}`
pub fn push_line(
    text: &mut Vec<u8>,
    query: u64,
    start: Pos,
    end: Pos,
    falling: &[Pos],
) -> Result<(), Memory>
    ensures line { OnOk result (text.new.items ≡ text.old.items ++ line query end (record
        { start = start; marks = reverse falling.now })) }
    ensures kept { OnErr result (text.new.items ≡ text.old.items) }
{
    if falling.len() <= FEW {
        return push_short(text, query, start, end, falling);
    }
    let before = text.len();
    match push_parts(text, query, start, end, falling) {
        Ok(()) => Ok(()),
        Err(memory) => {
            text.truncate(before);
            Err(memory)
        }
    }
}
