//! A line that may have quotes, read field by field in one pass. Of a line that is refused these
//! functions say nothing.

ghost use Rattle.std.specs.Prelude.{◌≡◌, ◌<◌, ◌∷◌, true, false, length, IfSome, Ok, Some};
ghost use Rattle.stream_schema.specs.declared.Kind.TheVariants as kind;
ghost use Rattle.event_reader.specs.Lines.{has_line_feed};
ghost use Rattle.event_reader.specs.Events.{is_bad, event_of_text};
ghost use Rattle.event_reader.specs.Values.{value_of};
ghost use Rattle.event_reader.specs.QuotedLines.{IsPart, IsNamed, IsCellUpTo, HasCells};

use crate::common::fit;
use crate::fields::{byte_at, unescape};
use crate::numbers::scaled;
use crate::types::Guesses;
use crate::values::{put_number, put_text, read_value};
use cer_base::bytes::{COMMA, QUOTE};
use std::alloc::Global;
use stream_schema::{Kind, Schema, TypeId, Value};

/// A field at the beginning of a text, whose bytes stand there as they are: those from `start` to
/// before `stop`. It takes the first `end` bytes of the text.
#[derive(Clone, Copy)]
struct Part {
    start: usize,
    stop: usize,
    end: usize,
}

/// The type of the line's event, whose values are then the list's. Where it answers `None`, nothing
/// is said of the line or of the values.
pub fn read_quoted(
    alloc: Global,
    schema: &Schema,
    guesses: &mut Guesses,
    scratch: &mut Vec<u8>,
    line: &[u8],
    values: &mut Vec<Value>,
) -> Option<TypeId>
    requires some { 0 < length line.now }
    requires fine { is_bad line.now ≡ false }
    requires line_feed { has_line_feed line.now ≡ false }
    ensures { IfSome result (λ ty. event_of_text schema.now line.now
        ≡ Ok (Some (record { ty = ty; values = values.new.items }))) }
{
    let Some((ty, end)) = read_name(schema, guesses, scratch, line) else {
        return None;
    };
    let kinds = schema.kinds(ty).as_slice();
    if !fit(values, kinds.len()) {
        return None;
    }
    if read_cells(alloc, kinds, scratch, &line[end..], values) {
        Some(ty)
    } else {
        None
    }
}

/// The type that the field at the beginning names, and how many bytes the field takes.
fn read_name(
    schema: &Schema,
    guesses: &mut Guesses,
    scratch: &mut Vec<u8>,
    line: &[u8],
) -> Option<(TypeId, usize)>
    ensures { IfSome result (λ found. IsNamed schema.now.types line.now found.0 found.1) }
{
    let Some(part) = part_at(line) else {
        return read_escaped_name(schema, guesses, scratch, line);
    };
    let Some(ty) = guesses.type_of(schema, &line[part.start..part.stop]) else {
        return None;
    };
    Some((ty, part.end))
}

/// The same, whatever bytes the field has.
#[inline(never)]
fn read_escaped_name(
    schema: &Schema,
    guesses: &mut Guesses,
    scratch: &mut Vec<u8>,
    line: &[u8],
) -> Option<(TypeId, usize)>
    ensures { IfSome result (λ found. IsNamed schema.now.types line.now found.0 found.1) }
{
    let Some(end) = unescape(line, scratch) else {
        return None;
    };
    let Some(ty) = guesses.type_of(schema, scratch.as_slice()) else {
        return None;
    };
    Some((ty, end))
}

/// Puts the values of the fields into the list, and says whether they are all and of these kinds.
#[tactic(auto, using(crate::proofs::QuotedFields::cells_at_first, crate::proofs::QuotedFields::cells_at_end))]
fn read_cells(
    alloc: Global,
    kinds: &[Kind],
    scratch: &mut Vec<u8>,
    fields: &[u8],
    values: &mut Vec<Value>,
) -> bool
    requires { length values.old.items ≡ length kinds.now }
    ensures { result ≡ true → HasCells kinds.now fields.now values.new.items }
{
    let mut rest = fields;
    for (i, kind) in kinds.iter().enumerate() {
        let Some((first, text)) = rest.split_first() else {
            return false;
        };
        if *first != COMMA {
            return false;
        }
        let Some(end) = read_cell(alloc, *kind, scratch, text, &mut values[i]) else {
            return false;
        };
        rest = &text[end..];
    }
    rest.is_empty()
}

/// Makes it the value of the field at the beginning, and answers how many bytes the field takes.
fn read_cell(
    alloc: Global,
    kind: Kind,
    scratch: &mut Vec<u8>,
    text: &[u8],
    value: &mut Value,
) -> Option<usize>
    ensures { IfSome result (λ end. IsCellUpTo kind text.now value.new end) }
{
    let Some(part) = part_at(text) else {
        return read_escaped(alloc, kind, scratch, text, value);
    };
    if put_value(alloc, kind, &text[part.start..part.stop], value) {
        Some(part.end)
    } else {
        None
    }
}

/// The same, whatever bytes the field has.
#[inline(never)]
fn read_escaped(
    alloc: Global,
    kind: Kind,
    scratch: &mut Vec<u8>,
    text: &[u8],
    value: &mut Value,
) -> Option<usize>
    ensures { IfSome result (λ end. IsCellUpTo kind text.now value.new end) }
{
    let Some(end) = unescape(text, scratch) else {
        return None;
    };
    if put_value(alloc, kind, scratch.as_slice(), value) {
        Some(end)
    } else {
        None
    }
}

/// Makes it the value of the field, in the memory that it has.
fn put_value(alloc: Global, kind: Kind, field: &[u8], value: &mut Value) -> bool
    ensures { result ≡ true → value_of kind field.now ≡ Some value.new }
{
    if kind == Kind::Int {
        put_whole(field, value)
    } else if kind == Kind::Text {
        put_text(alloc, field, value)
    } else {
        put_other(alloc, kind, field, value)
    }
}

/// Puts the whole number of the field into the value, and says whether it is one.
fn put_whole(field: &[u8], value: &mut Value) -> bool
    ensures { result ≡ true → value_of kind.Int field.now ≡ Some value.new }
{
    match scaled(0, field) {
        Some(number) => {
            put_number(value, number);
            true
        }
        None => false,
    }
}

/// Puts the value of the field, of any kind, into the value, and says whether it is one.
fn put_other(alloc: Global, kind: Kind, field: &[u8], value: &mut Value) -> bool
    ensures { result ≡ true → value_of kind field.now ≡ Some value.new }
{
    match read_value(alloc, kind, field) {
        Ok(Some(found)) => {
            *value = found;
            true
        }
        Ok(None) | Err(_) => false,
    }
}

/// The field at the beginning, unless it begins with a quote and something else than the field's end
/// follows the next one.
fn part_at(text: &[u8]) -> Option<Part>
    ensures { IfSome result (λ part. IsPart text.now part.start part.stop part.end) }
{
    let Some((first, rest)) = text.split_first() else {
        return None;
    };
    if *first == QUOTE {
        return quoted_part(rest);
    }
    let end = byte_at(text, COMMA);
    Some(Part {
        start: 0,
        stop: end,
        end,
    })
}

/// The field at the beginning of a text before which a quote stands.
fn quoted_part(text: &[u8]) -> Option<Part>
    ensures { IfSome result (λ part. IsPart (QUOTE ∷ text.now) part.start part.stop part.end) }
{
    let at = byte_at(text, QUOTE);
    if at >= text.len() {
        return None;
    }
    if at + 1 < text.len() && text[at + 1] != COMMA {
        return None;
    }
    Some(Part {
        start: 1,
        stop: at + 1,
        end: at + 2,
    })
}
