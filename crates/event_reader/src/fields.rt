//! The fields of a line that may have quotes, by a walk over its bytes.

ghost use Rattle.std.specs.Prelude.{◌≡◌, ◌<◌, ◌≤◌, ◌==◌, ◌^◌, ◌++◌, [], true, false, length, map, take, get_or, IfNone, IfSome};
ghost use Rattle.std.specs.List.{list_any};
ghost use Rattle.std.specs.Simd.Lanes.{mask_l};
ghost use Rattle.memchr.specs.Find.{is_byte};
ghost use Rattle.event_reader.specs.declared.fields.FieldState.TheVariants.{Start};
ghost use Rattle.event_reader.specs.QuotedLines.{past, ends_cell, with_end, is_inside, ends_inside, IsCutAt, IsPlainFrom, HasValueFields};

use cer_base::bytes::{COMMA, QUOTE};
use std::simd::prelude::*;

/// How many bytes of a run in quotes are looked at in one step.
const NEAR: usize = 16;

/// Where a walk over a line stands in a field: at its beginning, outside of quotes, within them, or
/// behind a quote that stood within them.
#[derive(Clone, Copy)]
enum FieldState {
    Start,
    Plain,
    Quoted,
    AfterQuote,
}

/// Makes the list the bytes of the field at the beginning, and answers how many bytes the field
/// takes, unless the text ends inside its quotes or memory runs out.
#[inline(never)]
pub fn unescape(text: &[u8], scratch: &mut Vec<u8>) -> Option<usize>
    ensures { IfSome result (λ end. IsCutAt text.now scratch.new.items end) }
{
    scratch.clear();
    let Some(from) = keep_quoted(text, scratch) else {
        return None;
    };
    let rest = &text[from..];
    let size = byte_at(rest, COMMA);
    if keep(&rest[..size], scratch) {
        Some(from + size)
    } else {
        None
    }
}

/// Puts the bytes that the field has inside quotes into the list, which is empty, and answers how many
/// bytes of the text these take with the quotes: 0 where the field begins with no quote. `None` where
/// the text ends inside its quotes or memory runs out.
fn keep_quoted(text: &[u8], scratch: &mut Vec<u8>) -> Option<usize>
    requires { scratch.old.items ≡ [] }
    ensures { IfSome result (λ from. IsPlainFrom text.now scratch.new.items from) }
{
    let mut at = 0;
    while at < text.len() && text[at] == QUOTE {
        let end = at + 1 + quote_at(&text[at + 1..]);
        // The quote that begins the field stands for no byte, one behind a closing quote for itself.
        if end >= text.len() || !keep(&text[at.max(1)..end], scratch) {
            return None;
        }
        at = end + 1;
    }
    Some(at)
}

/// Puts the bytes behind those of the list. `false` where memory runs out.
#[inline(always)]
fn keep(bytes: &[u8], scratch: &mut Vec<u8>) -> bool
    ensures { result ≡ true → scratch.new.items ≡ scratch.old.items ++ bytes.now }
{
    scratch.extend_from_slice(bytes).is_ok()
}

/// The place of the first quote, or the text's length. Most runs are short, so the first bytes are
/// looked at in one step.
#[inline(always)]
fn quote_at(text: &[u8]) -> usize
    ensures within { result ≤ length text.now }
    ensures none { list_any (λ b. b == QUOTE) (take result text.now) ≡ false }
    ensures here { result < length text.now → get_or text.now result 0 ≡ QUOTE }
{
    if text.len() >= NEAR {
        let marks = quotes(text);
        if marks != 0 {
            return marks.trailing_zeros() as usize;
        }
    }
    byte_at(text, QUOTE)
}

/// The quotes among the first bytes, each as a bit, the lowest bit for the first byte.
#[inline(always)]
fn quotes(text: &[u8]) -> u64
    requires { NEAR ≤ length text.now }
    ensures { result ≡ mask_l (map (is_byte QUOTE) (take NEAR text.now)) }
{
    u8x16::from_slice(text)
        .simd_eq(u8x16::splat(QUOTE))
        .to_bitmask()
}

/// The place of the first such byte, or the text's length.
pub fn byte_at(text: &[u8], wanted: u8) -> usize
    ensures within { result ≤ length text.now }
    ensures none { list_any (λ b. b == wanted) (take result text.now) ≡ false }
    ensures here { result < length text.now → get_or text.now result 0 ≡ wanted }
{
    for (i, byte) in text.iter().enumerate() {
        if *byte == wanted {
            return i;
        }
    }
    text.len()
}

/// How many fields follow the line's first, or `None` where the line ends inside quotes.
pub fn count_values(line: &[u8]) -> Option<usize>
    ensures open { IfNone result (ends_inside Start line.now ≡ true) }
    ensures count { IfSome result (λ count. HasValueFields line.now count) }
{
    let mut state = FieldState::Start;
    let mut count = 0;
    for byte in line {
        count = with_end(state, *byte, count);
        state = past(state, *byte);
    }
    if is_inside(state) { None } else { Some(count) }
}

/// The number of fields that have ended, this byte read too.
fn with_end(state: FieldState, byte: u8, count: usize) -> usize
    requires { count < 2 ^ 63 }
    ensures { result ≡ with_end state byte count }
{
    if ends_cell(state, byte) {
        count + 1
    } else {
        count
    }
}

/// Whether the byte ends the field.
fn ends_cell(state: FieldState, byte: u8) -> bool
    ensures { result ≡ ends_cell state byte }
{
    match state {
        FieldState::Quoted => false,
        FieldState::Start | FieldState::Plain | FieldState::AfterQuote => byte == COMMA,
    }
}

/// Where a walk stands after the byte.
fn past(state: FieldState, byte: u8) -> FieldState
    ensures { result ≡ past state byte }
{
    match state {
        FieldState::Start if byte == QUOTE => FieldState::Quoted,
        FieldState::Quoted if byte == QUOTE => FieldState::AfterQuote,
        FieldState::Quoted => FieldState::Quoted,
        FieldState::AfterQuote if byte == QUOTE => FieldState::Quoted,
        _ if byte == COMMA => FieldState::Start,
        _ => FieldState::Plain,
    }
}

/// Whether a walk stands inside quotes.
fn is_inside(state: FieldState) -> bool
    ensures { result ≡ is_inside state }
{
    matches!(state, FieldState::Quoted)
}
