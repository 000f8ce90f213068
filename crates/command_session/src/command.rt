//! The command that a line spells.

ghost use Rattle.std.specs.Prelude.{◌≡◌, ◌≤◌, false, IfOk, length, option_map};
ghost use Rattle.std.specs.Str.Lines.{strip_carriage_return};
ghost use Rattle.cer_base.specs.Answers.{Gives};
ghost use Rattle.event_reader.specs.Lines.{has_line_feed};
ghost use Rattle.event_reader.specs.Events.{event_of_line};
ghost use Rattle.command_session.specs.Commands.{command_of, event_command, other_command, open_command, pull_command, drop_command, HasEventOf};

use crate::numbers::{MOST_CURSORS, MOST_PULLED, command_number, one_of};
use cer_base::OrMemory;
use cer_base::bytes::CARRIAGE_RETURN;
use event_reader::words::cut;
use event_reader::{EventFault, read_event};
use std::alloc::Global;
use stream_schema::{Event, Schema};

/// What a line of a script asks for.
#[derive(Drop)]
pub enum ScriptCommand {
    /// The event comes.
    Event(Event),
    /// The cursor is opened for the query at the last event. Queries are numbered from 1, cursors
    /// from 1 to 64. Whether there is such a query is not asked here.
    OpenAt { query: u64, cursor: u64 },
    /// Up to so many answers are taken from the cursor, from 1 to 4,294,967,295.
    Pull { cursor: u64, n: u64 },
    /// The cursor is given up.
    Drop { cursor: u64 },
    /// What no window and no cursor needs is given up.
    Compact,
}

/// Why a line is no command.
#[derive(Drop, Debug, Clone, Copy, PartialEq, Eq)]
pub enum CommandFault {
    /// It has none of the forms, or it has that of an event and gives none.
    UnknownCommand,
    /// The event is refused.
    Event(EventFault),
}

/// The text of a line: one carriage return at its end is dropped. A line whose text is empty is
/// passed over.
pub fn command_text(line: &[u8]) -> &[u8]
    ensures text { result.now ≡ strip_carriage_return line.now }
    ensures kept { has_line_feed line.now ≡ false → has_line_feed result.now ≡ false }
{
    let len = line.len();
    if len > 0 && line[len - 1] == CARRIAGE_RETURN {
        &line[..len - 1]
    } else {
        line
    }
}

/// The command of the text: `event LINE`, `open Q C`, `pull C N`, `drop C` or `compact`, with single
/// blanks. Numbers have one to ten digits; C is 1 to 64, N is 1 to 4,294,967,295. Memory may run out
/// before any refusal.
///
/// - `UnknownCommand`: the text is none of these, or LINE is empty but for a carriage return.
/// - `Event`: the first refusal of LINE, as `event_reader` has them.
///
/// An event is of the schema.
pub fn read_command(
    alloc: Global,
    schema: &Schema,
    text: &[u8],
) -> Result<ScriptCommand, OrMemory<CommandFault>>
    requires { has_line_feed text.now ≡ false }
    ensures command { Gives (λ command. command) result (command_of schema.now text.now) }
    ensures of_schema { IfOk result (HasEventOf schema.now) }
{
    match cut(text) {
        Some((word, rest)) => {
            if word == b"event".as_slice() {
                return event_command(alloc, schema, rest);
            }
            match other_command(word, rest) {
                Some(command) => Ok(command),
                None => Err(OrMemory::Fault(CommandFault::UnknownCommand)),
            }
        }
        None => {
            if text == b"compact".as_slice() {
                return Ok(ScriptCommand::Compact);
            }
            Err(OrMemory::Fault(CommandFault::UnknownCommand))
        }
    }
}

/// The command of the event that the line gives.
fn event_command(
    alloc: Global,
    schema: &Schema,
    line: &[u8],
) -> Result<ScriptCommand, OrMemory<CommandFault>>
    requires { has_line_feed line.now ≡ false }
    ensures command { Gives (λ command. command) result
        (event_command (event_of_line schema.now line.now)) }
    ensures of_schema { IfOk result (HasEventOf schema.now) }
{
    match read_event(alloc, schema, line) {
        Ok(Some(event)) => Ok(ScriptCommand::Event(event)),
        Ok(None) => Err(OrMemory::Fault(CommandFault::UnknownCommand)),
        Err(OrMemory::Fault(fault)) => Err(OrMemory::Fault(CommandFault::Event(fault))),
        Err(OrMemory::Memory) => Err(OrMemory::Memory),
    }
}

/// The command of this word, which is no event's, and of what stands after it.
fn other_command(word: &[u8], rest: &[u8]) -> Option<ScriptCommand>
    ensures { result ≡ other_command word.now rest.now }
{
    if word == b"open".as_slice() {
        let (query, cursor) = cut(rest)?;
        open_command(query, cursor)
    } else if word == b"pull".as_slice() {
        let (cursor, n) = cut(rest)?;
        pull_command(cursor, n)
    } else if word == b"drop".as_slice() {
        drop_command(rest)
    } else {
        None
    }
}

fn open_command(query: &[u8], cursor: &[u8]) -> Option<ScriptCommand>
    ensures { result ≡ open_command (query.now, cursor.now) }
{
    let query = command_number(query)?;
    let cursor = one_of(MOST_CURSORS, cursor)?;
    Some(ScriptCommand::OpenAt { query, cursor })
}

fn pull_command(cursor: &[u8], n: &[u8]) -> Option<ScriptCommand>
    ensures { result ≡ pull_command (cursor.now, n.now) }
{
    let cursor = one_of(MOST_CURSORS, cursor)?;
    let n = one_of(MOST_PULLED, n)?;
    Some(ScriptCommand::Pull { cursor, n })
}

fn drop_command(cursor: &[u8]) -> Option<ScriptCommand>
    ensures { result ≡ drop_command cursor.now }
{
    let cursor = one_of(MOST_CURSORS, cursor)?;
    Some(ScriptCommand::Drop { cursor })
}
