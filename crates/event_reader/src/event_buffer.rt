//! An event that is read again and again into the same memory.

ghost use Rattle.std.specs.Prelude.{◌≡◌, ◌≢◌, [], true, false, Ok};
ghost use Rattle.stream_schema.specs.Events.{IsOfSchema};
ghost use Rattle.event_reader.specs.Lines.{has_line_feed};
ghost use Rattle.event_reader.specs.Events.{event_of_line, event_of_text};
ghost use Rattle.event_reader.specs.LineAnswers.{TellsEvent};

use crate::EventFault;
use crate::common::read_common;
use crate::events::{read_any, without_return};
use crate::types::Guesses;
use cer_base::{Listed, OrMemory};
use std::alloc::Global;
use std::marker::Model;
use std::mem;
use stream_schema::{Event, Schema, Value};

/// The event of the line that was read last, seen as that event. Its memory serves the next line, and
/// so does that of `scratch`, the bytes of a field with quotes.
#[derive(Drop)]
pub struct EventBuffer {
    event: Event,
    guesses: Guesses,
    scratch: Vec<u8>,
}

impl Model for EventBuffer {
    ghost use Rattle.stream_schema.specs.declared.Event.{Event};

    ghost Value = { Event };

    ghost view = { λ r. r.event };
}

impl EventBuffer {
    /// No line was read yet, and there is no value.
    pub fn new(alloc: Global) -> EventBuffer
        ensures { result.values ≡ [] }
    {
        EventBuffer {
            event: Event {
                ty: 0,
                values: Listed::of(Vec::new(alloc)),
            },
            guesses: Guesses::new(),
            scratch: Vec::new(alloc),
        }
    }

    /// The event that was read.
    pub fn event(&self) -> &Event
        ensures { result.now ≡ self.now }
    {
        &self.event
    }

    /// The event that was read, handed over.
    pub fn into_event(self) -> Event
        ensures { result ≡ self }
    {
        self.event
    }

    /// Reads the event of the line, and says whether the line gives one: it gives none where it is
    /// empty but for a carriage return. The first of these refusals is answered; memory may run out
    /// before any of them.
    ///
    /// - `BadLine`
    /// - `OpenQuote`
    /// - `UnknownType`
    /// - `FieldCount`
    /// - `BadValue`
    ///
    /// An event that is read is of the schema. Where none is read, the buffer holds no value. A
    /// line whose values are whole numbers of few digits takes no memory where an event of as many
    /// values was read before, if each field stands in the line as it is, in quotes or without.
    #[inline(always)]
    #[tactic(auto, using(crate::proofs::OfSchema::row_is))]
    pub fn read(
        &mut self,
        alloc: Global,
        schema: &Schema,
        text: &[u8],
    ) -> Result<bool, OrMemory<EventFault>>
        requires { has_line_feed text.now ≡ false }
        ensures event { TellsEvent self.new result (event_of_line schema.now text.now) }
        ensures of_schema { result ≡ Ok true → IsOfSchema schema.now self.new }
        ensures none { result ≢ Ok true → self.new.values ≡ [] }
    {
        self.read_line(alloc, schema, text)
    }

    /// Reads the event of the line. Nothing is said of the schema.
    #[inline(always)]
    fn read_line(
        &mut self,
        alloc: Global,
        schema: &Schema,
        text: &[u8],
    ) -> Result<bool, OrMemory<EventFault>>
        requires { has_line_feed text.now ≡ false }
        ensures event { TellsEvent self.new result (event_of_line schema.now text.now) }
        ensures none { result ≢ Ok true → self.new.values ≡ [] }
    {
        let line = without_return(text);
        let scratch = mem::replace(&mut self.event.values, Listed::of(Vec::new(alloc)));
        let mut values = scratch.into_vec();
        if let Some(ty) = read_common(alloc, schema, &mut self.guesses, line, &mut values) {
            self.event.ty = ty;
            self.event.values = Listed::of(values);
            return Ok(true);
        }
        self.event.values = Listed::of(values);
        self.read_any(alloc, schema, line)
    }

    /// Reads the event of any line without its end.
    #[cold]
    #[inline(never)]
    fn read_any(
        &mut self,
        alloc: Global,
        schema: &Schema,
        line: &[u8],
    ) -> Result<bool, OrMemory<EventFault>>
        requires { has_line_feed line.now ≡ false }
        ensures event { TellsEvent self.new result (event_of_text schema.now line.now) }
        ensures none { result ≢ Ok true → self.new.values ≡ [] }
    {
        let before = mem::replace(&mut self.event.values, Listed::of(Vec::new(alloc)));
        let mut values = before.into_vec();
        match read_any(
            alloc,
            schema,
            &mut self.guesses,
            &mut self.scratch,
            line,
            &mut values,
        ) {
            Ok(Some(ty)) => {
                self.event.ty = ty;
                self.event.values = Listed::of(values);
                Ok(true)
            }
            Ok(None) => {
                self.hold_none(values);
                Ok(false)
            }
            Err(stop) => {
                self.hold_none(values);
                Err(stop)
            }
        }
    }

    /// Holds no value, and the memory of these.
    fn hold_none(&mut self, mut values: Vec<Value>)
        ensures { self.new.values ≡ [] }
    {
        values.clear();
        self.event.values = Listed::of(values);
    }
}
