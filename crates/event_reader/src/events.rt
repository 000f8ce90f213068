//! The event of a line.

ghost use Rattle.std.specs.Prelude.{◌≡◌, false, IfOk, IfSome, Ok, None};
ghost use Rattle.stream_schema.specs.Events.{IsOfSchema};
ghost use Rattle.std.specs.Str.Lines.{strip_carriage_return};
ghost use Rattle.cer_base.specs.Answers.{Gives};
ghost use Rattle.event_reader.specs.Lines.{has_line_feed};
ghost use Rattle.event_reader.specs.Events.{event_of_line, event_of_text, is_bad};
ghost use Rattle.event_reader.specs.LineAnswers.{TellsType};

use crate::EventFault;
use crate::event_buffer::EventBuffer;
use crate::quoted::read_quoted;
use crate::refusals::refusal;
use crate::types::Guesses;
use cer_base::OrMemory;
use cer_base::bytes::CARRIAGE_RETURN;
use std::alloc::Global;
use stream_schema::{Event, Schema, TypeId, Value};

/// The event of the line, or `None` where it is empty but for a carriage return, in memory of its
/// own. The refusals are those of `EventBuffer::read`; an event that it gives is of the schema. Where there is
/// none, no memory is wanted.
#[tactic(auto, using(crate::proofs::OfSchema::read_is))]
pub fn read_event(
    alloc: Global,
    schema: &Schema,
    text: &[u8],
) -> Result<Option<Event>, OrMemory<EventFault>>
    requires { has_line_feed text.now ≡ false }
    ensures event { Gives (λ event. event) result (event_of_line schema.now text.now) }
    ensures of_schema { IfOk result (λ found. IfSome found (λ event. IsOfSchema schema.now event)) }
    ensures none { event_of_line schema.now text.now ≡ Ok None → result ≡ Ok None }
{
    let mut row = EventBuffer::new(alloc);
    match row.read(alloc, schema, text) {
        Ok(true) => Ok(Some(row.into_event())),
        Ok(false) => Ok(None),
        Err(stop) => Err(stop),
    }
}

/// What a line without its end gives: the type of its event, whose values are then the list's, or
/// none where the line is empty, or the first refusal.
pub fn read_any(
    alloc: Global,
    schema: &Schema,
    guesses: &mut Guesses,
    scratch: &mut Vec<u8>,
    line: &[u8],
    values: &mut Vec<Value>,
) -> Result<Option<TypeId>, OrMemory<EventFault>>
    requires { has_line_feed line.now ≡ false }
    ensures { TellsType values.new.items result (event_of_text schema.now line.now) }
{
    if line.is_empty() {
        return Ok(None);
    }
    if is_bad(line) {
        return Err(OrMemory::Fault(EventFault::BadLine));
    }
    match read_quoted(alloc, schema, guesses, scratch, line, values) {
        Some(ty) => Ok(Some(ty)),
        None => Err(refusal(alloc, schema, scratch, line)),
    }
}

/// The line without the one carriage return at its end.
pub fn without_return(text: &[u8]) -> &[u8]
    ensures line { result.now ≡ strip_carriage_return text.now }
    ensures kept { has_line_feed text.now ≡ false → has_line_feed result.now ≡ false }
{
    let len = text.len();
    if len > 0 && text[len - 1] == CARRIAGE_RETURN {
        &text[..len - 1]
    } else {
        text
    }
}

/// Whether the line holds a carriage return or begins with a byte order mark.
fn is_bad(line: &[u8]) -> bool
    ensures { result ≡ is_bad line.now }
{
    line.contains(&CARRIAGE_RETURN) || line.starts_with(&[239, 187, 191])
}
