//! The lines of a file, read from any source.

ghost use Rattle.std.specs.Prelude.{◌≡◌, ◌+◌, ◌-◌, ◌<◌, ◌≤◌, ◌==◌, ℕ, List, [], true, false, length, take, drop, IfOk};
ghost use Rattle.event_reader.specs.declared.reader.Next.TheVariants as next;
ghost use Rattle.event_reader.specs.Lines.{has_line_feed, begins_with_end, without_mark, line_text};
ghost use Rattle.event_reader.specs.LineBuffers.{IsShort};
ghost use Rattle.event_reader.specs.LineReaders.{HasGiven, Follows, HasTakenFor, HasReadCause, OnReadFault, MovesOn};

use crate::LineFault;
use crate::line_buffer::{LineBuffer, SeekEnd};
use cer_base::Memory;
use cer_base::limits::LONGEST_LINE;
use cer_outside::{Failed, Source};
use std::alloc::Global;
use std::marker::Model;

/// What comes next.
#[derive(Debug, Clone, Copy, PartialEq, Eq)]
pub enum Next {
    /// A line, whose number and text the reader has.
    Line,
    /// The end of the file.
    End,
}

/// A reader of the lines of a file, of which at most so many bytes count.
#[derive(Drop)]
pub struct Lines {
    buffer: LineBuffer,
    budget: u64,
    room: u64,
    number: u64,
    ended: bool,
    closed: bool,
}

impl Model for Lines {
    ghost use Rattle.std.specs.Prelude.{◌+◌, ◌≤◌, length};
    ghost use Rattle.event_reader.specs.LineReaders.{LineReader};

    ghost Value = { LineReader };

    ghost view = { λ l. record {
      budget = l.budget;
      number = l.number;
      text = l.buffer.text;
      pending = l.buffer.pending;
      room = l.room;
      ended = l.ended;
      closed = l.closed;
    } };

    ghost invariant = { λ l. (length l.buffer.pending ≤ l.room) × (l.number + l.room ≤ l.budget) };
}

impl Lines {
    /// A reader that takes at most `budget` bytes of its source, at its beginning.
    pub fn new(alloc: Global, budget: u64) -> Result<Lines, Memory>
        ensures given { IfOk result (λ lines. (bytes : List ℕ)
            → HasGiven lines bytes (Some bytes) []) }
        ensures budget { IfOk result (λ lines. lines.budget ≡ budget) }
        ensures number { IfOk result (λ lines. lines.number ≡ 0) }
        ensures open { IfOk result (λ lines. lines.closed ≡ false) }
    {
        Ok(Lines {
            buffer: LineBuffer::new(alloc)?,
            budget,
            room: budget,
            number: 0,
            ended: false,
            closed: false,
        })
    }

    /// The number of the line that was given last, from 1; 0 before the first.
    pub fn number(&self) -> u64
        ensures { result ≡ self.now.number }
    {
        self.number
    }

    /// The text of the line that was given last, until `next` is called again: without its line
    /// feed and, in line 1, without a byte order mark at its beginning.
    pub fn text(&self) -> &[u8]
        ensures value { result.now ≡ self.now.text }
        ensures line_feed { has_line_feed result.now ≡ false }
        ensures short { length result.now ≤ LONGEST_LINE }
    {
        self.buffer.text()
    }

    /// Whether the end or a fault was answered.
    pub fn is_closed(&self) -> bool
        ensures { result ≡ self.now.closed }
    {
        self.closed
    }

    /// Whether the next line lies complete among the bytes that were taken: `next` then asks its
    /// source nothing. No byte is looked at twice for it.
    pub fn has_line(&mut self) -> bool
        ensures kept { self.new ≡ self.old }
        ensures line { result ≡ has_line_feed self.old.pending }
    {
        self.buffer.has_line()
    }

    /// Whether the bytes that were taken and are in no line yet begin with a line feed or a carriage
    /// return. After line 1 a line is empty, or a carriage return alone, only where they do.
    pub fn begins_with_end(&self) -> bool
        ensures { result ≡ begins_with_end self.now.pending }
    {
        self.buffer.begins_with_end()
    }

    /// The next line, or the end of the file, or the first of these faults that holds where no
    /// complete line is left among the bytes that were taken. It takes no memory.
    ///
    /// - `LineTooLong`
    /// - `InputTooLong`
    /// - `ReadFault`
    ///
    /// Of its source it has then taken all of the budget where the input is too long, and else no
    /// more than the budget.
    #[inline(always)]
    pub fn next<Q: Source>(&mut self, source: &mut Q) -> Result<Next, LineFault>
        requires { self.old.closed ≡ false }
        ensures lines { (bytes : List ℕ) (texts : List (List ℕ))
            → HasGiven self.old bytes (Q.left source.old) texts
            → Follows self.new bytes (Q.left source.new) texts result }
        ensures took { (bytes : List ℕ) (texts : List (List ℕ))
            → HasGiven self.old bytes (Q.left source.old) texts
            → HasTakenFor self.old.budget bytes (Q.left source.new) result }
        ensures moves { MovesOn self.old self.new result }
        ensures cause { HasReadCause (Q.faults source.old) (Q.faults source.new) result }
        ensures rest { OnReadFault result (IsShort self.new.pending) }
        ensures quiet { has_line_feed self.old.pending ≡ true → source.new ≡ source.old }
    {
        if self.ended {
            self.closed = true;
            return Ok(Next::End);
        }
        match self.buffer.seek(source, self.room) {
            Ok(SeekEnd::LineFeed(len)) => {
                self.give(len, len + 1);
                Ok(Next::Line)
            }
            Ok(SeekEnd::Long) => self.fault(LineFault::LineTooLong {
                line: self.number + 1,
            }),
            Ok(SeekEnd::Full) => self.fault(LineFault::InputTooLong { taken: self.budget }),
            Ok(SeekEnd::End) => Ok(self.last()),
            Err(Failed) => self.fault(LineFault::ReadFault),
        }
    }

    /// Gives the first `len` of the bytes that are in no line yet as a line, and passes `end` bytes
    /// in all.
    fn give(&mut self, len: usize, end: usize)
        requires some { 0 < end }
        requires len { len ≤ end }
        requires end { end ≤ length self.old.pending }
        requires short { len ≤ LONGEST_LINE }
        requires plain { has_line_feed (take len self.old.pending) ≡ false }
        ensures { self.new ≡ record self.old {
          number = self.old.number + 1;
          text = line_text self.old.number (take len self.old.pending);
          pending = drop end self.old.pending;
          room = self.old.room - end;
        } }
    {
        let start = self.start_of(len);
        self.buffer.give(start, len, end);
        self.room -= end as u64;
        self.number += 1;
    }

    /// Where the text of a line of the first `len` bytes at hand begins.
    fn start_of(&self, len: usize) -> usize
        requires { len ≤ length self.now.pending }
        ensures text { drop result (take len self.now.pending)
            ≡ line_text self.now.number (take len self.now.pending) }
        ensures within { result ≤ len }
    {
        if self.number == 0 {
            mark_len(self.buffer.front(len))
        } else {
            0
        }
    }

    /// Gives what is left of a file that has ended.
    fn last(&mut self) -> Next
        requires { IsShort self.old.pending }
        ensures none { length self.old.pending ≡ 0
            → (result ≡ next.End) × (self.new ≡ record self.old { closed = true }) }
        ensures some { 0 < length self.old.pending
            → (result ≡ next.Line)
            × (self.new ≡ record self.old {
              number = self.old.number + 1;
              text = line_text self.old.number self.old.pending;
              pending = [];
              room = self.old.room - length self.old.pending;
              ended = true;
            }) }
    {
        let len = self.buffer.len();
        if len == 0 {
            self.closed = true;
            return Next::End;
        }
        self.give(len, len);
        self.ended = true;
        Next::Line
    }

    /// Answers the fault, and no further line.
    fn fault(&mut self, fault: LineFault) -> Result<Next, LineFault>
        ensures answer { result ≡ Err fault }
        ensures closed { self.new ≡ record self.old { closed = true } }
    {
        self.closed = true;
        Err(fault)
    }
}

/// How many bytes a byte order mark at the beginning of the line has.
fn mark_len(line: &[u8]) -> usize
    ensures line { drop result line.now ≡ without_mark line.now }
    ensures within { result ≤ length line.now }
{
    if line.starts_with(&[239, 187, 191]) {
        3
    } else {
        0
    }
}
