//! Where a leaf's range settles a comparison: it holds of each event that has a number of it.

ghost use Rattle.std.specs.Prelude.{◌≡◌, ℤ, false, true};
ghost use Rattle.stream_schema.specs.declared.Value.TheVariants as value;
ghost use Rattle.stream_schema.specs.Comparing.{value_meets};
ghost use Rattle.query_leaves.specs.declared.Test.{Cmp};
ghost use Rattle.query_leaves.specs.Shapes.{test_holds};
ghost use Rattle.predicate_bits.specs.Ranges.{IsIn, Settles};

use crate::ranges::Range;
use stream_schema::{Op, Value};

/// Whether each number of the range is known to compare so with the literal.
fn all_compare(range: &Range, op: Op, literal: i64) -> bool
    ensures { result ≡ true → (v : ℤ) → IsIn range.now v
        → value_meets op (value.Int v) (value.Int literal) ≡ true }
{
    match op {
        Op::Eq => literal <= range.low && range.high <= literal,
        Op::Ne => literal < range.low,
        Op::Lt => range.high < literal,
        Op::Le => range.high <= literal,
        Op::Gt => literal < range.low,
        Op::Ge => literal <= range.low,
    }
}

/// Whether the range settles that the value at the place compares so with the literal.
pub fn settles_comparison(range: &Range, place: u64, op: Op, literal: &Value) -> bool
    ensures { result ≡ true → Settles range.now (test_holds (Cmp place op literal.now)) }
{
    match literal {
        Value::Int(number) => place == range.place && all_compare(range, op, *number),
        _ => false,
    }
}

/// Whether the number is in the range.
#[inline(always)]
pub fn is_in(range: &Range, number: i64) -> bool
    ensures inside { result ≡ true → IsIn range.now number }
    ensures outside { result ≡ false → IsIn range.now number → ⊥ }
{
    range.low <= number && number <= range.high
}
