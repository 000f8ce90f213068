//! The value of a field.

ghost use Rattle.std.specs.Prelude.{◌≡◌, true, map, Some, IfOk};
ghost use Rattle.std.specs.Char.{to_ascii_lowercase};
ghost use Rattle.std.specs.Str.{IsAscii};
ghost use Rattle.stream_schema.specs.declared.Kind.TheVariants as kind;
ghost use Rattle.stream_schema.specs.declared.Value.TheVariants as value;
ghost use Rattle.event_reader.specs.Values.{value_of, flag};

use crate::numbers::scaled;
use cer_base::{Memory, Text};
use percent_encoding::ascii_str;
use std::alloc::Global;
use stream_schema::{Kind, Value};

/// The value of the field, or `None` where it is not of the kind.
#[tactic(auto, using(crate::proofs::Texts::utf8_is, crate::proofs::Texts::utf8_is_not))]
pub fn read_value(alloc: Global, kind: Kind, field: &[u8]) -> Result<Option<Value>, Memory>
    ensures { IfOk result (λ found. found ≡ value_of kind field.now) }
{
    match kind {
        Kind::Int => match scaled(0, field) {
            Some(number) => Ok(Some(Value::Int(number))),
            None => Ok(None),
        },
        Kind::Dec(places) => match scaled(places, field) {
            Some(scaled) => Ok(Some(Value::Dec { scaled, places })),
            None => Ok(None),
        },
        Kind::Flag => match read_flag(field) {
            Some(truth) => Ok(Some(Value::Flag(truth))),
            None => Ok(None),
        },
        Kind::Text => match str::from_utf8(field) {
            Ok(text) => Ok(Some(Value::Text(Text::copy_of(alloc, text)?))),
            Err(_) => Ok(None),
        },
    }
}

/// Makes it the value of a field that is a text, in the memory of the text that it was, if it was one.
/// `false` where the bytes are no text, or memory runs out.
#[tactic(auto, using(crate::proofs::Texts::utf8_is))]
pub fn put_text(alloc: Global, field: &[u8], scratch: &mut Value) -> bool
    ensures { result ≡ true → value_of kind.Text field.now ≡ Some scratch.new }
{
    match str::from_utf8(field) {
        Ok(text) => put_copy(alloc, text, scratch),
        Err(_) => false,
    }
}

/// The value of a field whose bytes are all below 128, which makes them a text.
#[inline]
#[tactic(auto, using(crate::proofs::Texts::ascii_is))]
pub fn put_ascii(alloc: Global, field: &[u8], scratch: &mut Value) -> bool
    requires { IsAscii field.now }
    ensures { result ≡ true → value_of kind.Text field.now ≡ Some scratch.new }
{
    put_copy(alloc, ascii_str(field), scratch)
}

/// Makes it a copy of the text, in the same way.
#[inline]
fn put_copy(alloc: Global, text: &str, scratch: &mut Value) -> bool
    ensures { result ≡ true → scratch.new ≡ value.Text text.now }
{
    if let Value::Text(before) = scratch {
        return before.copy_from(text).is_ok();
    }
    match Text::copy_of(alloc, text) {
        Ok(copy) => {
            *scratch = Value::Text(copy);
            true
        }
        Err(_) => false,
    }
}

/// Makes it this number. Mostly it was a number before, and then nothing else is written.
#[inline(always)]
pub fn put_number(scratch: &mut Value, number: i64)
    ensures { scratch.new ≡ value.Int number }
{
    if let Value::Int(before) = scratch {
        *before = number;
    } else {
        *scratch = Value::Int(number);
    }
}

/// A truth value in any ASCII case.
#[tactic(auto, using(crate::proofs::Texts::same_test))]
fn read_flag(field: &[u8]) -> Option<bool>
    ensures { result ≡ flag (map to_ascii_lowercase field.now) }
{
    if field.eq_ignore_ascii_case(b"true") {
        Some(true)
    } else if field.eq_ignore_ascii_case(b"false") {
        Some(false)
    } else {
        None
    }
}
