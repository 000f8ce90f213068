//! What the text that the tests of a leaf ask for opens with: a quick look before them.

ghost use Rattle.std.specs.Prelude.{◌≡◌, Bool, true, false, IfSome, slice_index_or};
ghost use Rattle.std.specs.List.{list_all};
ghost use Rattle.stream_schema.specs.declared.Event.{Event as EventData};
ghost use Rattle.query_leaves.specs.declared.Test.{Cmp};
ghost use Rattle.query_leaves.specs.Shapes.{test_holds, each_holds};
ghost use Rattle.query_index.specs.TextPrefilters.{opens as opens_with, AsksToOpen};

use query_leaves::Test;
use stream_schema::{Event, Op, Value};

/// A place where no event has a value.
const NOWHERE: u64 = u64::MAX;

/// What a text that a leaf asks for opens with: the place of the text in an event, its length in bytes,
/// and its first byte (0 for the empty text). A place where no event has a value asks for nothing.
#[derive(Drop, Debug, Clone, Copy)]
pub struct TextPrefilter {
    pub place: u64,
    pub length: u64,
    pub first: u8,
}

/// The first byte of the text, or 0 where it is empty.
#[inline(always)]
fn first_byte(text: &str) -> u8
    ensures { result ≡ slice_index_or text.now 0 0 }
{
    match text.as_bytes().first() {
        Some(byte) => *byte,
        None => 0,
    }
}

/// What the text opens with, where it is asked for at the place.
fn text_prefilter_at(place: u64, text: &str) -> TextPrefilter
    ensures place { result.place ≡ place }
    ensures opens { opens_with result text.now ≡ true }
{
    TextPrefilter {
        place,
        length: text.len() as u64,
        first: first_byte(text),
    }
}

/// What the comparison asks for. `None` where it does not ask for a text.
fn asked_by_comparison(place: u64, op: Op, literal: &Value) -> Option<TextPrefilter>
    ensures { IfSome result (λ o. AsksToOpen o (test_holds (Cmp place op literal.now))) }
{
    match (op, literal) {
        (Op::Eq, Value::Text(text)) => Some(text_prefilter_at(place, text.as_str())),
        _ => None,
    }
}

/// What the test asks for, where it is a comparison.
fn asked_flat(test: &Test) -> Option<TextPrefilter>
    ensures { IfSome result (λ o. AsksToOpen o (test_holds test.now)) }
{
    match test {
        Test::Cmp(place, op, literal) => asked_by_comparison(*place, *op, literal),
        _ => None,
    }
}

/// What the first of the tests that asks for a text asks for.
fn asked_by_all(tests: &[Test]) -> Option<TextPrefilter>
    ensures { IfSome result (λ o. AsksToOpen o (λ event.
        list_all (λ t. test_holds t event) tests.now)) }
{
    for test in tests {
        if let Some(text_prefilter) = asked_flat(test) {
            return Some(text_prefilter);
        }
    }
    None
}

/// What the test asks for, where it is a comparison or joins some.
fn asked_joined(test: &Test) -> Option<TextPrefilter>
    ensures { IfSome result (λ o. AsksToOpen o (test_holds test.now)) }
{
    match test {
        Test::All(joined) => asked_by_all(joined.as_slice()),
        _ => asked_flat(test),
    }
}

/// What the first of a leaf's tests that asks for a text asks for.
pub fn text_prefilter_of(tests: &[Test]) -> TextPrefilter
    ensures { AsksToOpen result (each_holds tests.now) }
{
    for test in tests {
        if let Some(text_prefilter) = asked_joined(test) {
            return text_prefilter;
        }
    }
    TextPrefilter {
        place: NOWHERE,
        length: 0,
        first: 0,
    }
}

/// Whether the text opens so: one test for both, which a processor foresees better than two.
#[inline(always)]
fn opens(text_prefilter: &TextPrefilter, text: &str) -> bool
    ensures { result ≡ opens_with text_prefilter.now text.now }
{
    (text.len() as u64 == text_prefilter.length) & (first_byte(text) == text_prefilter.first)
}

/// Whether the event may have a text that is asked for: where it has a text there, whether that opens
/// so.
#[inline(always)]
pub fn may_open(text_prefilter: &TextPrefilter, event: &Event) -> bool
    ensures { (holds : EventData → Bool) → AsksToOpen text_prefilter.now holds → result ≡ false
        → holds event.now ≡ false }
{
    match event.values.as_slice().get(text_prefilter.place as usize) {
        Some(Value::Text(text)) => opens(text_prefilter, text.as_str()),
        _ => true,
    }
}
