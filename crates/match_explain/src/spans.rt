//! The positions of the substream from a start to an end, and the marks among them.

ghost use Rattle.std.specs.Prelude.{◌≡◌, ◌||◌, not, true, IfOk};
ghost use Rattle.std.specs.List.{list_all};
ghost use Rattle.cel_terms.specs.Answers.{IsAscending};
ghost use Rattle.cea_determinise.specs.Runs.{has_mark};
ghost use Rattle.cea_compile.specs.DeterminisedRuns.{from_to};
ghost use Rattle.match_explain.specs.Spans.{lies_between, is_strict_enough};

use cer_base::{Memory, Pos};
use std::alloc::Global;

/// Whether each position is above the one before.
pub fn ascends(positions: &[Pos]) -> bool
    ensures yes { result ≡ true → IsAscending positions.now }
    ensures no { IsAscending positions.now → result ≡ true }
{
    for i in 1..positions.len() {
        if positions[i] <= positions[i - 1] {
            return false;
        }
    }
    true
}

/// Whether the position is one of the positions, which ascend.
pub fn lists(positions: &[Pos], position: Pos) -> bool
    requires { IsAscending positions.now }
    ensures { result ≡ has_mark positions.now position }
{
    positions.binary_search(&position).is_ok()
}

/// Whether each of the others is one of the positions, which ascend.
pub fn lists_all(positions: &[Pos], others: &[Pos]) -> bool
    requires { IsAscending positions.now }
    ensures { result ≡ list_all (has_mark positions.now) others.now }
{
    for other in others {
        if !lists(positions, *other) {
            return false;
        }
    }
    true
}

/// Those of the positions from the start to the end.
pub fn from_to(alloc: Global, start: Pos, end: Pos, positions: &[Pos]) -> Result<Vec<Pos>, Memory>
    ensures { IfOk result (λ span. span.items ≡ from_to start end positions.now) }
{
    let mut span = Vec::new(alloc);
    for position in positions {
        if start <= *position && *position <= end {
            span.push(*position)?;
        }
    }
    Ok(span)
}

/// Whether the position is above the first of the marks and below the last.
fn lies_between(marks: &[Pos], position: Pos) -> bool
    ensures { result ≡ lies_between marks.now position }
{
    if marks.is_empty() {
        return false;
    }
    marks[0] < position && position < marks[marks.len() - 1]
}

/// Whether each position of the span between two marks, which ascend, is marked.
fn is_contiguous(span: &[Pos], marks: &[Pos]) -> bool
    requires { IsAscending marks.now }
    ensures { result ≡ list_all (λ p. not (lies_between marks.now p)
        || has_mark marks.now p) span.now }
{
    for position in span {
        if lies_between(marks, *position) && !lists(marks, *position) {
            return false;
        }
    }
    true
}

/// Whether the marks, which ascend, are contiguous in the span where they have to be.
pub fn is_strict_enough(strict: bool, span: &[Pos], marks: &[Pos]) -> bool
    requires { IsAscending marks.now }
    ensures { result ≡ is_strict_enough strict span.now marks.now }
{
    !strict || is_contiguous(span, marks)
}
