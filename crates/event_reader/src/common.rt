//! Lines as most files have them, read in one pass: no quote, no carriage return, no byte order mark,
//! as many fields as are wanted, each of its kind, and whole numbers of few digits. Of any other
//! line these functions say nothing.

ghost use Rattle.std.specs.Prelude.{◌≡◌, ◌∷◌, ◌<◌, ◌≤◌, [], true, false, length, take, drop, get_or, IfSome, Ok, Some};
ghost use Rattle.std.specs.List.{list_any};
ghost use Rattle.std.specs.Str.{IsAscii};
ghost use Rattle.std.specs.Str.Parse.{starts_with_minus};
ghost use Rattle.stream_schema.specs.declared.Kind.TheVariants as kind;
ghost use Rattle.event_reader.specs.Lines.{has_line_feed};
ghost use Rattle.event_reader.specs.Events.{event_of, event_of_text};
ghost use Rattle.event_reader.specs.CommonLines.{IsCell, IsNumeralUpTo, IsFieldUpTo, HasFields, BeginsNext, following, is_odd};

use crate::numbers::{signed, without_sign};
use crate::types::Guesses;
use crate::values::{put_ascii, put_number, put_text, read_value};
use cer_base::bytes::{CARRIAGE_RETURN, COMMA, QUOTE};
use std::alloc::Global;
use stream_schema::{Kind, Schema, TypeId, Value};

/// A number of so many digits is below 2 to the 63.
const DIGITS: usize = 18;

/// The type of the line's event, whose values are then the list's. Where it answers `None`, nothing is
/// said of the line or of the values.
#[inline(always)]
pub fn read_common(
    alloc: Global,
    schema: &Schema,
    guesses: &mut Guesses,
    line: &[u8],
    values: &mut Vec<Value>,
) -> Option<TypeId>
    requires line_feed { has_line_feed line.now ≡ false }
    ensures { IfSome result (λ ty. event_of_text schema.now line.now
        ≡ Ok (Some (record { ty = ty; values = values.new.items }))) }
{
    if !has_no_mark(line) {
        return None;
    }
    let Some(end) = cell_end(line) else {
        return None;
    };
    read_typed(alloc, schema, guesses, &line[..end], &line[end..], values)
}

/// Whether the line has bytes, the first of which is no byte order mark's.
#[inline]
fn has_no_mark(line: &[u8]) -> bool
    ensures { result ≡ true → (0 < length line.now) × (get_or line.now 0 0 < 128) }
{
    match line.first() {
        Some(byte) => *byte < 128,
        None => false,
    }
}

/// How many bytes the field at the beginning has, unless it has a quote or a carriage return.
#[inline]
fn cell_end(text: &[u8]) -> Option<usize>
    ensures within { IfSome result (λ end. end ≤ length text.now) }
    ensures cell { IfSome result (λ end. IsCell (take end text.now)) }
{
    for (i, byte) in text.iter().enumerate() {
        if *byte > COMMA {
            continue;
        }
        if *byte == COMMA {
            return Some(i);
        }
        if *byte == QUOTE || *byte == CARRIAGE_RETURN {
            return None;
        }
    }
    Some(text.len())
}

/// Where the field ends, unless it has a quote, a carriage return or a byte of 128 or more.
#[inline]
#[tactic(auto, using(crate::proofs::Texts::ascii_more))]
fn ascii_end(text: &[u8]) -> Option<usize>
    ensures within { IfSome result (λ end. end ≤ length text.now) }
    ensures cell { IfSome result (λ end. IsCell (take end text.now)) }
    ensures ascii { IfSome result (λ end. IsAscii (take end text.now)) }
{
    for (i, byte) in text.iter().enumerate() {
        // A letter, a digit and most marks: one comparison of the byte as a signed number.
        if *byte > COMMA && *byte < 128 {
            continue;
        }
        if *byte == COMMA {
            return Some(i);
        }
        if *byte >= 128 || *byte == QUOTE || *byte == CARRIAGE_RETURN {
            return None;
        }
    }
    Some(text.len())
}

/// The type of this name, with the values of the fields that follow.
#[inline(always)]
#[tactic(auto, using(crate::proofs::CommonFields::typed))]
fn read_typed(
    alloc: Global,
    schema: &Schema,
    guesses: &mut Guesses,
    name: &[u8],
    fields: &[u8],
    values: &mut Vec<Value>,
) -> Option<TypeId>
    ensures begins { IfSome result (λ ty. BeginsNext fields.now) }
    ensures plain { IfSome result (λ ty. list_any is_odd fields.now ≡ false) }
    ensures event { IfSome result (λ ty. event_of schema.now (name.now ∷ following fields.now)
        ≡ Ok (record { ty = ty; values = values.new.items })) }
{
    let Some(ty) = guesses.type_of(schema, name) else {
        return None;
    };
    let kinds = schema.kinds(ty).as_slice();
    if !fit(values, kinds.len()) {
        return None;
    }
    if read_fields(alloc, kinds, fields, values) {
        Some(ty)
    } else {
        None
    }
}

/// Makes the list one of so many values, whichever they are, unless memory runs out.
#[inline]
pub fn fit(values: &mut Vec<Value>, len: usize) -> bool
    ensures { result ≡ true → length values.new.items ≡ len }
{
    if values.len() == len {
        return true;
    }
    refill(values, len)
}

/// Makes a list of another length one of so many values.
#[inline(never)]
fn refill(values: &mut Vec<Value>, len: usize) -> bool
    ensures { result ≡ true → length values.new.items ≡ len }
{
    values.clear();
    for _ in 0..len {
        match values.push(Value::Flag(false)) {
            Ok(()) => {}
            Err(_) => return false,
        }
    }
    true
}

/// Puts the values of the fields into the list, and says whether they are all and of these kinds.
#[inline(always)]
#[tactic(auto, using(crate::proofs::CommonFields::at_first, crate::proofs::CommonFields::at_end))]
fn read_fields(alloc: Global, kinds: &[Kind], fields: &[u8], values: &mut Vec<Value>) -> bool
    requires { length values.old.items ≡ length kinds.now }
    ensures { result ≡ true → HasFields kinds.now fields.now values.new.items }
{
    let mut rest = fields;
    for (i, kind) in kinds.iter().enumerate() {
        let Some((first, text)) = rest.split_first() else {
            return false;
        };
        if *first != COMMA {
            return false;
        }
        let Some(end) = read_field(alloc, *kind, text, &mut values[i]) else {
            return false;
        };
        rest = &text[end..];
    }
    rest.is_empty()
}

/// Makes it the value of the field at the beginning, and answers how many bytes the field has.
#[inline(always)]
fn read_field(alloc: Global, kind: Kind, text: &[u8], value: &mut Value) -> Option<usize>
    ensures { IfSome result (λ end. IsFieldUpTo kind text.now value.new end) }
{
    if kind == Kind::Int {
        read_number(text, value)
    } else if kind == Kind::Text {
        read_text(alloc, text, value)
    } else {
        read_other(alloc, kind, text, value)
    }
}

/// Puts a whole number at the beginning of the text into the value, and says where it ends.
#[inline(always)]
fn read_number(text: &[u8], value: &mut Value) -> Option<usize>
    ensures { IfSome result (λ end. IsFieldUpTo kind.Int text.now value.new end) }
{
    let Some((size, end)) = read_digits(text) else {
        return read_signed(text, value);
    };
    put_number(value, size as i64);
    Some(end)
}

/// Puts a whole number that may have a sign into the value, and says where it ends.
#[inline(never)]
fn read_signed(text: &[u8], value: &mut Value) -> Option<usize>
    ensures { IfSome result (λ end. IsFieldUpTo kind.Int text.now value.new end) }
{
    let digits = without_sign(text);
    let Some((size, end)) = read_digits(digits) else {
        return None;
    };
    match signed(has_minus(text), size) {
        Some(number) => {
            put_number(value, number);
            Some(text.len() - digits.len() + end)
        }
        None => None,
    }
}

/// Whether the text begins with a minus sign.
fn has_minus(text: &[u8]) -> bool
    ensures { result ≡ starts_with_minus text.now }
{
    matches!(text.first(), Some(b'-'))
}

/// The number that the digits at the beginning spell, at least one of them, and how many they are.
#[inline(always)]
#[tactic(auto, using(crate::proofs::CommonNumbers::all_digits_more, crate::proofs::CommonNumbers::spells_more, crate::proofs::CommonNumbers::still_small))]
fn read_digits(text: &[u8]) -> Option<(u64, usize)>
    ensures { IfSome result (λ found. IsNumeralUpTo text.now found.0 found.1) }
{
    let most = text.len().min(DIGITS);
    let mut size: u64 = 0;
    for i in 0..most {
        let digit = (text[i] as u64).wrapping_sub(b'0' as u64);
        if digit > 9 {
            return if i == 0 { None } else { Some((size, i)) };
        }
        size = size * 10 + digit;
    }
    if most == 0 { None } else { Some((size, most)) }
}

/// Puts a text into the value. Bytes that are all below 128 are one, so that they are gone through
/// once.
#[inline(never)]
fn read_text(alloc: Global, text: &[u8], value: &mut Value) -> Option<usize>
    ensures { IfSome result (λ end. IsFieldUpTo kind.Text text.now value.new end) }
{
    let Some(end) = ascii_end(text) else {
        return read_any_text(alloc, text, value);
    };
    if put_ascii(alloc, &text[..end], value) {
        Some(end)
    } else {
        None
    }
}

/// Puts a text into the value, whatever its bytes are.
#[inline(never)]
fn read_any_text(alloc: Global, text: &[u8], value: &mut Value) -> Option<usize>
    ensures { IfSome result (λ end. IsFieldUpTo kind.Text text.now value.new end) }
{
    let Some(end) = cell_end(text) else {
        return None;
    };
    if put_text(alloc, &text[..end], value) {
        Some(end)
    } else {
        None
    }
}

/// Puts a field of any kind into the value.
#[inline(never)]
fn read_other(alloc: Global, kind: Kind, text: &[u8], value: &mut Value) -> Option<usize>
    ensures { IfSome result (λ end. IsFieldUpTo kind text.now value.new end) }
{
    let Some(end) = cell_end(text) else {
        return None;
    };
    match read_value(alloc, kind, &text[..end]) {
        Ok(Some(found)) => {
            *value = found;
            Some(end)
        }
        Ok(None) | Err(_) => None,
    }
}
