//! Values compared: with a literal, with each other, and which kinds may be.

ghost use Rattle.std.specs.Prelude.{◌≡◌};
ghost use Rattle.stream_schema.specs.Comparing.{meets, flag_meets, value_meets, kind_of, are_alike};
ghost use Rattle.stream_schema.specs.Equality.{same_value};

use crate::number::cmp_numbers;
use crate::{Kind, Op, Value};
use std::cmp::Ordering;

/// Whether the order is one that the operator asks for.
fn is_met(op: Op, order: Ordering) -> bool
    ensures { result ≡ meets op order }
{
    match op {
        Op::Eq => order.is_eq(),
        Op::Ne => order.is_ne(),
        Op::Lt => order.is_lt(),
        Op::Le => order.is_le(),
        Op::Gt => order.is_gt(),
        Op::Ge => order.is_ge(),
    }
}

/// Truth values compare by `=` and `!=` alone.
fn is_met_by_flags(op: Op, a: bool, b: bool) -> bool
    ensures { result ≡ flag_meets op a b }
{
    match op {
        Op::Eq => a == b,
        Op::Ne => a != b,
        _ => false,
    }
}

/// Whether the value compares so with the literal: numbers by value, texts by their bytes, truth
/// values by `=` and `!=` alone. Of different kinds nothing holds.
pub fn is_met_by(op: Op, value: &Value, literal: &Value) -> bool
    ensures { result ≡ value_meets op value.now literal.now }
{
    match (value, literal) {
        (Value::Int(a), Value::Int(b)) => is_met(op, cmp_numbers(*a, 0, *b, 0)),
        (Value::Int(a), Value::Dec { scaled, places }) => {
            is_met(op, cmp_numbers(*a, 0, *scaled, *places))
        }
        (Value::Dec { scaled, places }, Value::Int(b)) => {
            is_met(op, cmp_numbers(*scaled, *places, *b, 0))
        }
        (
            Value::Dec { scaled, places },
            Value::Dec {
                scaled: other,
                places: others,
            },
        ) => is_met(op, cmp_numbers(*scaled, *places, *other, *others)),
        (Value::Text(a), Value::Text(b)) => is_met(op, a.as_str().cmp(b.as_str())),
        (Value::Flag(a), Value::Flag(b)) => is_met_by_flags(op, *a, *b),
        _ => false,
    }
}

/// Whether the two values are equal, of one kind.
#[inline]
pub fn same_value(a: &Value, b: &Value) -> bool
    ensures { result ≡ same_value a.now b.now }
{
    match (a, b) {
        (Value::Int(a), Value::Int(b)) => *a == *b,
        (Value::Text(a), Value::Text(b)) => a.as_str() == b.as_str(),
        (Value::Flag(a), Value::Flag(b)) => *a == *b,
        (
            Value::Dec { scaled, places },
            Value::Dec {
                scaled: other,
                places: others,
            },
        ) => *scaled == *other && *places == *others,
        _ => false,
    }
}

/// The kind of a literal.
pub fn kind_of(literal: &Value) -> Kind
    ensures { result ≡ kind_of literal.now }
{
    match literal {
        Value::Int(_) => Kind::Int,
        Value::Text(_) => Kind::Text,
        Value::Flag(_) => Kind::Flag,
        Value::Dec { scaled: _, places } => Kind::Dec(*places),
    }
}

/// Whether values of the two kinds may be compared: the kinds are one, or both are numbers.
pub fn are_alike(a: Kind, b: Kind) -> bool
    ensures { result ≡ are_alike a b }
{
    match (a, b) {
        (Kind::Int, Kind::Int) => true,
        (Kind::Int, Kind::Dec(_)) => true,
        (Kind::Dec(_), Kind::Int) => true,
        (Kind::Dec(_), Kind::Dec(_)) => true,
        (Kind::Text, Kind::Text) => true,
        (Kind::Flag, Kind::Flag) => true,
        _ => false,
    }
}
