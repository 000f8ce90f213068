//! The bytes that a reader of lines has taken from its source and still holds.

ghost use Rattle.std.specs.Prelude.{◌≡◌, ◌+◌, ◌-◌, ◌<◌, ◌≤◌, ℕ, List, [], true, false, length, map, take, drop, vec_len, IfOk, IfErr, OnErr, MatchOption};
ghost use Rattle.cer_outside.specs.Bytes.{ReadsOn, IsAtEnd};
ghost use Rattle.cer_outside.specs.Causes.{HasCause};
ghost use Rattle.memchr.specs.Find.{IsFirstByte, Nowhere, Passes, is_byte};
ghost use Rattle.std.specs.Simd.Lanes.{mask_l};
ghost use Rattle.event_reader.specs.Lines.{has_line_feed, begins_with_end};
ghost use Rattle.event_reader.specs.LineBuffers.{bytes_between, IsFirstLineFeed, IsShort, IsSeekEnd};

use cer_base::Memory;
use cer_base::bytes::{CARRIAGE_RETURN, LINE_FEED};
use cer_base::limits::LONGEST_LINE;
use cer_outside::{Failed, Source};
use memchr::memchr;
use std::alloc::Global;
use std::marker::Model;
use std::simd::prelude::*;

/// How many bytes the buffer has room for. A line that is too long is seen before it is full.
const CAPACITY: usize = 131_072;

/// How many bytes of a line are looked at in one step, before a search for long texts goes on.
const NEAR: usize = 16;

/// Why reading stopped.
#[derive(Debug, Clone, Copy, PartialEq, Eq)]
pub enum SeekEnd {
    /// The first line feed stands at this place.
    LineFeed(usize),
    /// There is no line feed among the first bytes, and these are more than a line has.
    Long,
    /// There is no line feed, and no further byte may be taken.
    Full,
    /// There is no line feed, and the source has ended.
    End,
}

/// A buffer: the bytes that were taken and are in no line yet. Before them stands the text
/// that was given last, until more is read.
#[derive(Drop)]
pub struct LineBuffer {
    buffer: Vec<u8>,
    from: usize,
    searched: usize,
    to: usize,
    text_from: usize,
    text_to: usize,
}

impl Model for LineBuffer {
    ghost use Rattle.event_reader.specs.LineBuffers.{BufferState, bytes_between, IsLineBuffer};

    ghost Value = { BufferState };

    ghost view = { λ w. record {
      pending = bytes_between w.buffer.items w.from w.to;
      text = bytes_between w.buffer.items w.text_from w.text_to;
    } };

    ghost invariant = { λ w. IsLineBuffer w.buffer.items
        w.from w.searched w.to w.text_from w.text_to };
}

impl LineBuffer {
    /// Nothing was taken yet.
    pub fn new(alloc: Global) -> Result<LineBuffer, Memory>
        ensures { IfOk result (λ w. w ≡ record { pending = []; text = [] }) }
    {
        let buffer = buffer_of(alloc, CAPACITY)?;
        Ok(LineBuffer {
            buffer,
            from: 0,
            searched: 0,
            to: 0,
            text_from: 0,
            text_to: 0,
        })
    }

    /// How many bytes are in no line yet.
    pub fn len(&self) -> usize
        ensures { result ≡ length self.now.pending }
    {
        self.to - self.from
    }

    /// The text that was given last.
    pub fn text(&self) -> &[u8]
        ensures value { result.now ≡ self.now.text }
        ensures plain { has_line_feed result.now ≡ false }
        ensures short { length result.now ≤ LONGEST_LINE }
    {
        &self.buffer.as_slice()[self.text_from..self.text_to]
    }

    /// The first so many of the bytes that are in no line yet.
    pub fn front(&self, len: usize) -> &[u8]
        requires { len ≤ length self.now.pending }
        ensures { result.now ≡ take len self.now.pending }
    {
        &self.buffer.as_slice()[self.from..self.from + len]
    }

    /// Gives the text of the first `len` bytes without the first `start` of them, and passes `end`
    /// bytes in all.
    pub fn give(&mut self, start: usize, len: usize, end: usize)
        requires start { start ≤ len }
        requires len { len ≤ end }
        requires end { end ≤ length self.old.pending }
        requires short { len ≤ LONGEST_LINE }
        requires plain { has_line_feed (take len self.old.pending) ≡ false }
        ensures { self.new ≡ record {
          pending = drop end self.old.pending;
          text = drop start (take len self.old.pending);
        } }
    {
        self.text_from = self.from + start;
        self.text_to = self.from + len;
        self.from += end;
        self.searched = self.from;
    }

    /// The place of the first line feed. No byte is looked at twice.
    #[inline(always)]
    fn find(&mut self) -> Option<usize>
        ensures kept { self.new ≡ self.old }
        ensures found { MatchOption result (has_line_feed self.old.pending ≡ false)
            (λ place. IsFirstLineFeed place self.old.pending) }
    {
        match line_feed_in(&self.buffer.as_slice()[self.searched..self.to]) {
            Some(place) => {
                self.searched += place;
                Some(self.searched - self.from)
            }
            None => {
                self.searched = self.to;
                None
            }
        }
    }

    /// Whether a line feed is among the bytes that are in no line yet. No byte is looked at twice.
    pub fn has_line(&mut self) -> bool
        ensures kept { self.new ≡ self.old }
        ensures feed { result ≡ has_line_feed self.old.pending }
    {
        match self.find() {
            Some(_) => true,
            None => false,
        }
    }

    /// Whether the bytes that are in no line yet begin with a line feed or a carriage return.
    pub fn begins_with_end(&self) -> bool
        ensures { result ≡ begins_with_end self.now.pending }
    {
        match self.buffer.as_slice()[self.from..self.to].first() {
            Some(byte) => *byte == LINE_FEED || *byte == CARRIAGE_RETURN,
            None => false,
        }
    }

    /// Reads once into all the room that is free, at most up to `room` bytes that are in no line
    /// yet, and says how many bytes came.
    fn fill<Q: Source>(&mut self, source: &mut Q, room: u64) -> Result<usize, Failed>
        requires short { length self.old.pending ≤ LONGEST_LINE }
        requires room { length self.old.pending < room }
        ensures bytes { ReadsOn (Q.left source.old)
            (Q.left source.new) self.old.pending self.new.pending }
        ensures kept { take (length self.old.pending) self.new.pending ≡ self.old.pending }
        ensures room { length self.new.pending ≤ room }
        ensures count { IfOk result (λ n. length self.new.pending ≡ length self.old.pending + n) }
        ensures end { IfOk result (λ n. n ≡ 0 → IsAtEnd (Q.left source.new)) }
        ensures failed { OnErr result (self.new.pending ≡ self.old.pending) }
        ensures cause { HasCause (Q.faults source.old) (Q.faults source.new) result }
    {
        let len = self.to - self.from;
        move_to_front(&mut self.buffer, self.from, self.to);
        self.searched -= self.from;
        self.from = 0;
        self.to = len;
        self.text_from = 0;
        self.text_to = 0;
        let most = (room - len as u64).min((CAPACITY - len) as u64) as usize;
        let count = read_after(&mut self.buffer, len, most, source)?;
        self.to = len + count;
        Ok(count)
    }

    /// Reads on until it is decided how the first line ends. At most `room` bytes are then in no
    /// line yet. Mostly the line is at hand, and nothing is read.
    #[inline(always)]
    pub fn seek<Q: Source>(&mut self, source: &mut Q, room: u64) -> Result<SeekEnd, Failed>
        requires { length self.old.pending ≤ room }
        ensures bytes { ReadsOn (Q.left source.old)
            (Q.left source.new) self.old.pending self.new.pending }
        ensures room { length self.new.pending ≤ room }
        ensures stop { IsSeekEnd room self.new.pending (Q.left source.new) result }
        ensures cause { HasCause (Q.faults source.old) (Q.faults source.new) result }
        ensures quiet { has_line_feed self.old.pending ≡ true → source.new ≡ source.old }
    {
        if let Some(place) = self.find() {
            if place > LONGEST_LINE {
                return Ok(SeekEnd::Long);
            }
            return Ok(SeekEnd::LineFeed(place));
        }
        self.seek_on(source, room)
    }

    /// Seeks the end of the line, in as many reads as it takes.
    #[inline(never)]
    fn seek_on<Q: Source>(&mut self, source: &mut Q, room: u64) -> Result<SeekEnd, Failed>
        requires { length self.old.pending ≤ room }
        ensures bytes { ReadsOn (Q.left source.old)
            (Q.left source.new) self.old.pending self.new.pending }
        ensures room { length self.new.pending ≤ room }
        ensures stop { IsSeekEnd room self.new.pending (Q.left source.new) result }
        ensures cause { HasCause (Q.faults source.old) (Q.faults source.new) result }
        ensures quiet { has_line_feed self.old.pending ≡ true → source.new ≡ source.old }
    {
        loop {
            if let Some(place) = self.find() {
                if place > LONGEST_LINE {
                    return Ok(SeekEnd::Long);
                }
                return Ok(SeekEnd::LineFeed(place));
            }
            let len = self.len();
            if len > LONGEST_LINE {
                return Ok(SeekEnd::Long);
            }
            if len as u64 == room {
                return Ok(SeekEnd::Full);
            }
            match self.fill(source, room) {
                Ok(0) => return Ok(SeekEnd::End),
                Ok(_) => {}
                Err(failed) => return Err(failed),
            }
        }
    }
}

/// The place of the first line feed. Most lines are short, so the first bytes are looked at in one
/// step.
#[inline(always)]
fn line_feed_in(bytes: &[u8]) -> Option<usize>
    ensures { IsFirstByte (is_byte LINE_FEED) bytes.now result }
{
    if bytes.len() < NEAR {
        return line_feed_from(bytes, 0);
    }
    let marks = line_feeds(bytes);
    if marks == 0 {
        return line_feed_from(bytes, NEAR);
    }
    Some(marks.trailing_zeros() as usize)
}

/// The line feeds among the first bytes, each as a bit, the lowest bit for the first byte.
#[inline(always)]
fn line_feeds(bytes: &[u8]) -> u64
    requires { NEAR ≤ length bytes.now }
    ensures { result ≡ mask_l (map (is_byte LINE_FEED) (take NEAR bytes.now)) }
{
    u8x16::from_slice(bytes)
        .simd_eq(u8x16::splat(LINE_FEED))
        .to_bitmask()
}

/// The place of the first line feed, where none is among the first bytes.
#[inline(never)]
fn line_feed_from(bytes: &[u8], from: usize) -> Option<usize>
    requires within { from ≤ length bytes.now }
    requires none { Nowhere (Passes (is_byte LINE_FEED) bytes.now) 0 from }
    ensures { IsFirstByte (is_byte LINE_FEED) bytes.now result }
{
    match memchr(LINE_FEED, &bytes[from..]) {
        Some(place) => Some(from + place),
        None => None,
    }
}

/// A buffer of so many bytes.
fn buffer_of(alloc: Global, len: usize) -> Result<Vec<u8>, Memory>
    ensures { IfOk result (λ buffer. vec_len buffer ≡ len) }
{
    Ok(vec![in alloc; 0u8; len]?)
}

/// Moves the bytes from `from` up to `to` to the front, where they are not there.
fn move_to_front(buffer: &mut Vec<u8>, from: usize, to: usize)
    requires order { from ≤ to }
    requires within { to ≤ length buffer.old.items }
    ensures len { length buffer.new.items ≡ length buffer.old.items }
    ensures front { take (to - from) buffer.new.items ≡ bytes_between buffer.old.items from to }
{
    if from > 0 {
        buffer.as_mut_slice().copy_within(from..to, 0);
    }
}

/// Reads once, at most so many bytes, after the first `len` of the buffer.
fn read_after<Q: Source>(
    buffer: &mut Vec<u8>,
    len: usize,
    most: usize,
    source: &mut Q,
) -> Result<usize, Failed>
    requires some { 0 < most }
    requires within { len + most ≤ length buffer.old.items }
    ensures len { length buffer.new.items ≡ length buffer.old.items }
    ensures count { IfOk result (λ n. n ≤ most) }
    ensures before { take len buffer.new.items ≡ take len buffer.old.items }
    ensures bytes { IfOk result (λ n. ReadsOn (Q.left source.old) (Q.left source.new)
        (take len buffer.old.items) (take (len + n) buffer.new.items)) }
    ensures end { IfOk result (λ n. n ≡ 0 → IsAtEnd (Q.left source.new)) }
    ensures failed { OnErr result (ReadsOn (Q.left source.old) (Q.left source.new)
        (take len buffer.old.items) (take len buffer.old.items)) }
    ensures cause { HasCause (Q.faults source.old) (Q.faults source.new) result }
{
    match source.read(&mut buffer.as_mut_slice()[len..len + most]) {
        Ok(count) => Ok(count),
        Err(failed) => Err(failed),
    }
}
