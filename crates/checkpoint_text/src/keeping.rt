//! What a checkpoint keeps of a stream while its events come.

ghost use Rattle.std.specs.Prelude.{◌≡◌, ◌≤◌, ◌<◌, ◌++◌, ◌∷◌, [], false, map, filter, length, flat_map, Ok, Err, Some, IfOk, IfNone, OnOk, OnErr};
ghost use Rattle.std.specs.Str.Lines.{strip_carriage_return};
ghost use Rattle.cer_base.specs.Answers.{OnFault};
ghost use Rattle.cer_base.specs.declared.OrMemory.TheVariants as or;
ghost use Rattle.cer_outside.specs.Bytes.{TookAll, TookPart};
ghost use Rattle.cer_outside.specs.Causes.{HasCauseOrMemory};
ghost use Rattle.event_reader.specs.Events.{event_of_line};
ghost use Rattle.cer_base.specs.declared.bytes.TheConstants as feed;
ghost use Rattle.checkpoint_text.specs.declared.numbers.TheConstants as most;
ghost use Rattle.checkpoint_text.specs.LastClocks.{last_clocks, any_back, first_back, next_clocks};
ghost use Rattle.checkpoint_text.specs.Spelling.{counts_text, position_text};
ghost use Rattle.checkpoint_text.specs.Keeping.{is_within, are_within, any_needs, needed, next_event, with_event, line_text, checkpoint_text};

use crate::EventAt;
use crate::clocks::{Fall, any_needs, first_back, next_clocks, no_clocks};
use cel_terms::Query;
use cer_base::bytes::{CARRIAGE_RETURN, LINE_FEED};
use cer_base::{Listed, Memory, OrMemory, Pos};
use cer_outside::writing::put_all;
use cer_outside::{Sink, WriteFault};
use event_reader::words::BLANK;
use itoa::Buffer;
use std::alloc::Global;
use std::marker::Model;
use stream_schema::{Event, Schema, copy_event};

/// An event that is kept, and the text of its line.
#[derive(Drop)]
pub struct KeptLine {
    pub at: EventAt,
    pub text: Listed<u8>,
}

/// At least so many lines are kept before those that fell out of the windows are given up.
const FEW: usize = 64;

/// The events of a stream that the windows of the queries still need.
///
/// What fell out of all windows is given up before as many lines more are kept as the windows
/// needed then, and 64: the memory is at most about twice that of the windows.
#[derive(Drop)]
pub struct Keep<'q> {
    schema: &'q Schema,
    queries: &'q [Query],
    positions: u64,
    lines: Vec<KeptLine>,
    lasts: Vec<Option<i128>>,
    most: usize,
}

impl<'q> Model for Keep<'q> {
    ghost use Rattle.std.specs.Coded.{codes};
    ghost use Rattle.std.specs.Prelude.{◌≡◌, length};
    ghost use Rattle.cel_terms.specs.contracts.Formula as formula;
    ghost use Rattle.checkpoint_text.specs.Keeping.{Keeper, needed};

    ghost Value = { Keeper };

    ghost view = { λ k. record {
      schema = k.schema.now;
      queries = k.queries.now;
      positions = k.positions;
      lines = needed k.schema.now k.queries.now k.lasts.items k.lines.items;
      lasts = k.lasts.items;
    } };

    ghost coded = { Prim.hlevel (codes, formula.the_row.coded) };

    ghost invariant = { λ k. length k.lasts.items ≡ length k.queries.now };
}

impl<'q> Keep<'q> {
    /// Of no event yet.
    pub fn new(alloc: Global, schema: &'q Schema, queries: &'q [Query]) -> Result<Keep<'q>, Memory>
        ensures { IfOk result (λ keep. keep ≡ record {
          schema = schema.now;
          queries = queries.now;
          positions = 0;
          lines = [];
          lasts = last_clocks schema.now queries.now [];
        }) }
    {
        let lasts = no_clocks(alloc, queries)?;
        Ok(Keep {
            schema,
            queries,
            positions: 0,
            lines: Vec::new(alloc),
            lasts,
            most: FEW,
        })
    }

    /// How many events came.
    pub fn positions(&self) -> u64
        ensures { result ≡ self.now.positions }
    {
        self.positions
    }

    /// How the clock of a query falls with the event as the next one, of the least such query.
    pub fn falls(&self, event: &Event) -> Option<Fall>
        ensures first { result ≡ first_back self.now.schema 1 self.now.queries self.now.lasts
            (next_event self.now event.now) }
        ensures none { IfNone result (any_back self.now.schema self.now.queries self.now.lasts
            (next_event self.now event.now) ≡ false) }
    {
        first_back(
            self.schema,
            self.queries,
            self.lasts.as_slice(),
            event,
            self.positions,
        )
    }

    /// Takes the event that the line gives, with which no clock falls, as the next one. Where memory
    /// runs out nothing has changed.
    pub fn add(&mut self, alloc: Global, event: &Event, text: &[u8]) -> Result<(), Memory>
        requires given { event_of_line self.old.schema text.now ≡ Ok (Some event.now) }
        requires level { any_back self.old.schema self.old.queries self.old.lasts
            (next_event self.old event.now) ≡ false }
        requires room { self.old.positions < most.MOST_POSITIONS }
        ensures added { OnOk result (self.new ≡ with_event self.old event.now
            (strip_carriage_return text.now)) }
        ensures unchanged { OnErr result (self.new ≡ self.old) }
    {
        let lasts = next_clocks(
            alloc,
            self.schema,
            self.queries,
            self.lasts.as_slice(),
            event,
            self.positions,
        )?;
        let line = kept_line(alloc, self.positions, event, text)?;
        self.lines.push(line)?;
        self.lasts = lasts;
        self.positions += 1;
        self.give_up_some();
        Ok(())
    }

    /// Gives up the lines that no window needs, where many are kept.
    #[tactic(auto, using(crate::proofs::Needs::needed_twice))]
    fn give_up_some(&mut self)
        ensures { self.new ≡ self.old }
    {
        if self.lines.len() < self.most {
            return;
        }
        give_up(
            self.schema,
            self.queries,
            self.lasts.as_slice(),
            &mut self.lines,
        );
        self.most = self.lines.len().saturating_mul(2).saturating_add(FEW);
    }

    /// Writes the text of the checkpoint: how many events came, and those that are needed.
    ///
    /// After a fault of the sink it has taken a proper first part of the text; where memory runs
    /// out it was not asked.
    pub fn write<K: Sink>(&self, alloc: Global, sink: &mut K) -> Result<(), OrMemory<WriteFault>>
        ensures all { OnOk result (TookAll (K.taken sink.old) (K.taken sink.new)
            (checkpoint_text self.now.positions self.now.lines)) }
        ensures part { OnFault result (λ fault. TookPart (K.taken sink.old) (K.taken sink.new)
            (checkpoint_text self.now.positions self.now.lines)) }
        ensures none { result ≡ Err or.Memory → sink.new ≡ sink.old }
        ensures cause { HasCauseOrMemory (K.faults sink.old) (K.faults sink.new) result }
    {
        let text = self.text(alloc)?;
        match put_all(sink, text.as_slice()) {
            Ok(()) => Ok(()),
            Err(fault) => Err(OrMemory::Fault(fault)),
        }
    }

    /// The text of the checkpoint.
    fn text(&self, alloc: Global) -> Result<Vec<u8>, Memory>
        ensures { IfOk result (λ text.
            text.items ≡ checkpoint_text self.now.positions self.now.lines) }
    {
        let lines = needed_lines(
            alloc,
            self.schema,
            self.queries,
            self.lasts.as_slice(),
            self.lines.as_slice(),
        )?;
        text_of(alloc, self.positions, lines.as_slice())
    }
}

/// Gives up the lines that no window needs, the last clocks being these.
fn give_up(schema: &Schema, queries: &[Query], lasts: &[Option<i128>], lines: &mut Vec<KeptLine>)
    requires { length lasts.now ≡ length queries.now }
    ensures { lines.new.items ≡ needed schema.now queries.now lasts.now lines.old.items }
{
    lines.retain(|line| any_needs(schema, queries, lasts, &line.at));
}

/// The lines that some window needs, the last clocks being these.
fn needed_lines<'k>(
    alloc: Global,
    schema: &Schema,
    queries: &[Query],
    lasts: &[Option<i128>],
    lines: &'k [KeptLine],
) -> Result<Vec<&'k KeptLine>, Memory>
    requires { length lasts.now ≡ length queries.now }
    ensures { IfOk result (λ found. map (λ line. line.now) found.items
        ≡ needed schema.now queries.now lasts.now lines.now) }
{
    let mut found = Vec::new(alloc);
    for k in 0..lines.len() {
        let line = &lines[k];
        if any_needs(schema, queries, lasts, &line.at) {
            found.push(line)?;
        }
    }
    Ok(found)
}

/// The text of a checkpoint.
fn text_of(alloc: Global, positions: u64, lines: &[&KeptLine]) -> Result<Vec<u8>, Memory>
    ensures { IfOk result (λ text.
        text.items ≡ checkpoint_text positions (map (λ line. line.now) lines.now)) }
{
    let mut text = Vec::from_slice(alloc, b"core checkpoint 1\n")?;
    push_counts(&mut text, positions, lines.len() as u64)?;
    push_lines(&mut text, lines)?;
    Ok(text)
}

/// Puts the lines of the events after the text.
fn push_lines(text: &mut Vec<u8>, lines: &[&KeptLine]) -> Result<(), Memory>
    ensures { OnOk result (text.new.items
        ≡ text.old.items ++ flat_map line_text (map (λ line. line.now) lines.now)) }
{
    for k in 0..lines.len() {
        push_line(text, lines[k])?;
    }
    Ok(())
}

/// The event at the position, with the text of its line but for a carriage return at its end.
fn kept_line(alloc: Global, position: Pos, event: &Event, text: &[u8]) -> Result<KeptLine, Memory>
    ensures { IfOk result (λ line. line ≡ record {
      at = record { position = position; event = event.now };
      text = strip_carriage_return text.now;
    }) }
{
    let event = copy_event(alloc, event)?;
    let text = Vec::from_slice(alloc, without_return(text))?;
    Ok(KeptLine {
        at: EventAt { position, event },
        text: Listed::of(text),
    })
}

/// The text without the carriage return at its end.
fn without_return(text: &[u8]) -> &[u8]
    ensures { result.now ≡ strip_carriage_return text.now }
{
    let len = text.len();
    if len > 0 && text[len - 1] == CARRIAGE_RETURN {
        &text[..len - 1]
    } else {
        text
    }
}

/// Puts the line of the counts after the text.
fn push_counts(text: &mut Vec<u8>, positions: u64, count: u64) -> Result<(), Memory>
    ensures { OnOk result (text.new.items
        ≡ text.old.items ++ (counts_text positions count ++ feed.LINE_FEED ∷ [])) }
{
    let mut digits = Buffer::new();
    text.extend_from_slice(b"events ")?;
    text.extend_from_slice(digits.format(positions).as_bytes())?;
    text.push(BLANK)?;
    text.extend_from_slice(digits.format(count).as_bytes())?;
    text.push(LINE_FEED)?;
    Ok(())
}

/// Puts the two lines of an event after the text.
fn push_line(text: &mut Vec<u8>, line: &KeptLine) -> Result<(), Memory>
    ensures { OnOk result (text.new.items ≡ text.old.items ++ line_text line.now) }
{
    let mut digits = Buffer::new();
    text.extend_from_slice(b"at ")?;
    text.extend_from_slice(digits.format(line.at.position).as_bytes())?;
    text.push(LINE_FEED)?;
    text.extend_from_slice(line.text.as_slice())?;
    text.push(LINE_FEED)?;
    Ok(())
}
