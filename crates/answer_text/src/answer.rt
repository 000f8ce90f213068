//! The order of two complex events at a position.

ghost use Rattle.std.specs.Prelude.{◌≡◌, ◌↔◌, ◌∷◌, reverse};
ghost use Rattle.std.specs.Ordering.{nat_cmp};
ghost use Rattle.std.specs.Cmp.Lexicographic.{slice_cmp};
ghost use Rattle.std.specs.declared.cmp.Ordering.TheVariants.{Less, Equal, Greater};
ghost use Rattle.answer_text.specs.Output.{ComesBefore};
ghost use Rattle.answer_text.specs.AnswerSpans.{answer_of};

use cer_base::Pos;
use std::cmp::Ordering;

/// How the ascending positions compare. They are given greatest first.
fn compare_positions(a: &[Pos], b: &[Pos]) -> Ordering
    ensures { result ≡ slice_cmp nat_cmp (reverse a.now) (reverse b.now) }
{
    a.iter().rev().cmp(b.iter().rev())
}

fn compare(start: Pos, falling: &[Pos], other: Pos, others: &[Pos]) -> Ordering
    ensures { result ≡ slice_cmp nat_cmp (start ∷ reverse falling.now)
        (other ∷ reverse others.now) }
{
    match start.cmp(&other) {
        Ordering::Equal => compare_positions(falling, others),
        unequal => unequal,
    }
}

/// Which of two complex events comes first: by start, then by the first place where the ascending
/// positions differ, a proper prefix being less. Each is given by its start and its marked
/// positions, greatest first.
pub fn order(start: Pos, falling: &[Pos], other: Pos, others: &[Pos]) -> Ordering
    ensures less { (result ≡ Less)
        ↔ ComesBefore (answer_of start falling.now) (answer_of other others.now) }
    ensures equal { (result ≡ Equal)
        ↔ (answer_of start falling.now ≡ answer_of other others.now) }
    ensures greater { (result ≡ Greater)
        ↔ ComesBefore (answer_of other others.now) (answer_of start falling.now) }
{
    compare(start, falling, other, others)
}
