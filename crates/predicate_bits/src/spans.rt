//! The values of an attribute as numbers, and what a comparison may come to over some of them.

ghost use Rattle.std.specs.Prelude.{◌≡◌, pos, ◌≤ℤ◌, Bool, true, false, not, IfSome};
ghost use Rattle.stream_schema.specs.declared.Kind.TheVariants as kind;
ghost use Rattle.stream_schema.specs.declared.Value.{Value as ValueData};
ghost use Rattle.stream_schema.specs.declared.Op.TheVariants as ops;
ghost use Rattle.stream_schema.specs.Comparing.{value_meets};
ghost use Rattle.query_leaves.specs.Digests.{digest};
ghost use Rattle.predicate_bits.specs.Spans.{flag_number, allows, IsNumber, IsNumbered, IsBetween, IsOf};

use crate::holding::{compares, compares_in_place};
use query_leaves::digest::digest;
use stream_schema::{Kind, Op, Value};

/// The values of a kind whose numbers are from `low` to `high`. The number of a whole number is its own,
/// that of a decimal one is it times ten to the power of its places, that of a truth value is 0 or 1,
/// and that of a text is its digest.
#[derive(Drop, Debug, Clone, Copy)]
pub struct Span {
    pub kind: Kind,
    pub low: i64,
    pub high: i64,
}

/// What a test may come to over some events.
#[derive(Drop, Debug, Clone, Copy)]
pub struct Outcome {
    /// Whether it may hold of one of them.
    pub may_hold: bool,
    /// Whether it may not.
    pub may_fail: bool,
}

/// The number of the truth value.
fn flag_number(flag: bool) -> i64
    ensures { result ≡ flag_number flag }
{
    if flag { 1 } else { 0 }
}

/// The number of the value, where it is of the kind.
#[inline(always)]
pub fn number_of(kind: Kind, value: &Value) -> Option<i64>
    ensures { IfSome result (IsNumbered kind value.now) }
{
    match (kind, value) {
        (Kind::Int, Value::Int(number)) => Some(*number),
        (Kind::Text, Value::Text(text)) => Some(i64::from(digest(text.as_str()))),
        (Kind::Flag, Value::Flag(flag)) => Some(flag_number(*flag)),
        (
            Kind::Dec(places),
            Value::Dec {
                scaled,
                places: own,
            },
        ) => {
            if places != *own {
                return None;
            }
            Some(*scaled)
        }
        _ => None,
    }
}

/// What a comparison of which nothing is known may come to.
pub fn unknown() -> Outcome
    ensures { (holds : Bool) → allows result holds ≡ true }
{
    Outcome {
        may_hold: true,
        may_fail: true,
    }
}

/// What the opposite of a test may come to.
pub fn opposite(outcome: Outcome) -> Outcome
    ensures { (holds : Bool) → allows result (not holds) ≡ allows outcome holds }
{
    Outcome {
        may_hold: outcome.may_fail,
        may_fail: outcome.may_hold,
    }
}

/// What the equality of a number from the first to the last with the literal may come to.
fn equality_over(first: &Value, last: &Value, literal: &Value) -> Outcome
    requires { IsNumber literal.now }
    ensures { (value : ValueData) → IsBetween first.now value last.now
        → allows result (value_meets ops.Eq value literal.now) ≡ true }
{
    let begins = compares_in_place(Op::Le, first, literal);
    let ends = compares_in_place(Op::Ge, last, literal);
    let is_least = compares_in_place(Op::Ge, first, literal);
    let is_most = compares_in_place(Op::Le, last, literal);
    Outcome {
        may_hold: begins & ends,
        may_fail: !(is_least & is_most),
    }
}

/// What a comparison of a number from the first to the last with the literal may come to.
fn numbers_over(first: &Value, last: &Value, op: Op, literal: &Value) -> Outcome
    requires { IsNumber literal.now }
    ensures { (value : ValueData) → IsBetween first.now value last.now
        → allows result (value_meets op value literal.now) ≡ true }
{
    match op {
        Op::Eq => equality_over(first, last, literal),
        Op::Ne => opposite(equality_over(first, last, literal)),
        Op::Lt => Outcome {
            may_hold: compares_in_place(Op::Lt, first, literal),
            may_fail: !compares_in_place(Op::Lt, last, literal),
        },
        Op::Le => Outcome {
            may_hold: compares_in_place(Op::Le, first, literal),
            may_fail: !compares_in_place(Op::Le, last, literal),
        },
        Op::Gt => Outcome {
            may_hold: compares_in_place(Op::Gt, last, literal),
            may_fail: !compares_in_place(Op::Gt, first, literal),
        },
        Op::Ge => Outcome {
            may_hold: compares_in_place(Op::Ge, last, literal),
            may_fail: !compares_in_place(Op::Ge, first, literal),
        },
    }
}

/// What a comparison may come to between two values, where the literal may be of any kind.
fn ends_over(first: &Value, last: &Value, op: Op, literal: &Value) -> Outcome
    ensures { (value : ValueData) → IsBetween first.now value last.now
        → allows result (value_meets op value literal.now) ≡ true }
{
    match literal {
        Value::Int(_) => numbers_over(first, last, op, literal),
        Value::Dec { .. } => numbers_over(first, last, op, literal),
        _ => unknown(),
    }
}

/// Whether the number is one of the span's.
#[inline(always)]
fn has_number(span: &Span, number: i64) -> bool
    ensures { result ≡ false → span.now.low ≤ℤ number → number ≤ℤ span.now.high → ⊥ }
{
    span.low <= number && number <= span.high
}

/// Whether the text's digest is one of the span's numbers.
fn has_digest(span: &Span, text: &str) -> bool
    ensures { result ≡ false → span.now.low ≤ℤ pos (digest text.now)
        → pos (digest text.now) ≤ℤ span.now.high → ⊥ }
{
    has_number(span, i64::from(digest(text)))
}

/// What the comparison of a text of the span with the literal may come to.
fn texts_over(span: &Span, op: Op, literal: &Value) -> Outcome
    requires { span.now.kind ≡ kind.Text }
    ensures { (value : ValueData) → IsOf span.now value
        → allows result (value_meets op value literal.now) ≡ true }
{
    match (op, literal) {
        (Op::Eq, Value::Text(text)) => Outcome {
            may_hold: has_digest(span, text.as_str()),
            may_fail: true,
        },
        (Op::Ne, Value::Text(text)) => Outcome {
            may_hold: true,
            may_fail: has_digest(span, text.as_str()),
        },
        _ => unknown(),
    }
}

/// What the comparison of a truth value of the span with the literal may come to.
fn flags_over(span: &Span, op: Op, literal: &Value) -> Outcome
    requires { span.now.kind ≡ kind.Flag }
    ensures { (value : ValueData) → IsOf span.now value
        → allows result (value_meets op value literal.now) ≡ true }
{
    let has_false = has_number(span, 0);
    let has_true = has_number(span, 1);
    let of_false = compares(op, &Value::Flag(false), literal);
    let of_true = compares(op, &Value::Flag(true), literal);
    Outcome {
        may_hold: (has_false && of_false) || (has_true && of_true),
        may_fail: (has_false && !of_false) || (has_true && !of_true),
    }
}

/// What the comparison of a value of the span with the literal may come to.
pub fn comparison_over(span: &Span, op: Op, literal: &Value) -> Outcome
    ensures { (value : ValueData) → IsOf span.now value
        → allows result (value_meets op value literal.now) ≡ true }
{
    match span.kind {
        Kind::Int => ends_over(&Value::Int(span.low), &Value::Int(span.high), op, literal),
        Kind::Dec(places) => {
            let first = Value::Dec {
                scaled: span.low,
                places,
            };
            let last = Value::Dec {
                scaled: span.high,
                places,
            };
            ends_over(&first, &last, op, literal)
        }
        Kind::Text => texts_over(span, op, literal),
        Kind::Flag => flags_over(span, op, literal),
    }
}
