//! The complex events of one position, held until they are in order.

ghost use Rattle.std.specs.Prelude.{◌≡◌, [], ◌∷◌, ◌++◌, ◌↔◌, flat_map, OnOk, OnErr};
ghost use Rattle.std.specs.List.Sorted.{IsPermutation};
ghost use Rattle.cer_base.specs.Repeats.{HasNoRepeats};
ghost use Rattle.std.specs.declared.cmp.Ordering.TheVariants.{Less};
ghost use Rattle.answer_text.specs.Output.{line, ComesBefore, EachBeforeNext};
ghost use Rattle.answer_text.specs.Texts.{StartsWith};
ghost use Rattle.answer_text.specs.AnswerSpans.{answer_of, answer_in, positions_in};

use crate::answer::order;
use crate::writing::push_line;
use cer_base::{Memory, Pos};
use std::alloc::Global;
use std::cmp::Ordering;
use std::marker::Model;

/// Where a complex event starts, and where its marked positions stand among those of all.
#[derive(Drop, Clone, Copy)]
pub struct Span {
    start: Pos,
    from: usize,
    to: usize,
}

/// Complex events without their ends. The marked positions of all stand in one piece of memory, those
/// of each greatest first, as a cursor lends them.
#[derive(Drop)]
pub struct Answers {
    positions: Vec<Pos>,
    spans: Vec<Span>,
}

impl Model for Answers {
    ghost use Rattle.std.specs.Prelude.{List, map, All};
    ghost use Rattle.cel_terms.specs.Answers as answers;
    ghost use Rattle.answer_text.specs.AnswerSpans.{answer_in, IsWithin};

    ghost Value = { List answers.Answer };

    ghost view = { λ a. map (answer_in a.positions.items) a.spans.items };

    ghost invariant = { λ a. All (IsWithin a.positions.items) a.spans.items };
}

/// The positions of the span, greatest first.
#[inline(always)]
fn positions_of<'p>(positions: &'p [Pos], span: &Span) -> &'p [Pos]
    ensures { result.now ≡ positions_in positions.now span.now }
{
    let to = span.to.min(positions.len());
    let from = span.from.min(to);
    &positions[from..to]
}

/// How the complex events of two spans compare.
#[inline(always)]
fn compare(positions: &[Pos], a: &Span, b: &Span) -> Ordering
    ensures { (result ≡ Less)
        ↔ ComesBefore (answer_in positions.now a.now) (answer_in positions.now b.now) }
{
    order(
        a.start,
        positions_of(positions, a),
        b.start,
        positions_of(positions, b),
    )
}

impl Answers {
    /// None. It takes no memory.
    pub fn new(alloc: Global) -> Answers
        ensures { result ≡ [] }
    {
        Answers {
            positions: Vec::new(alloc),
            spans: Vec::new(alloc),
        }
    }

    /// One more, after the others. Its positions are given greatest first.
    pub fn push(&mut self, start: Pos, falling: &[Pos]) -> Result<(), Memory>
        ensures { OnOk result (self.new ≡ self.old ++ answer_of start falling.now ∷ []) }
    {
        let from = self.positions.len();
        self.positions.extend_from_slice(falling)?;
        let to = self.positions.len();
        self.spans.push(Span { start, from, to })?;
        Ok(())
    }

    /// Puts them in order. It takes no memory.
    pub fn sort(&mut self)
        ensures moved { IsPermutation self.old self.new }
        ensures ordered { HasNoRepeats self.old → EachBeforeNext self.new }
    {
        let positions = self.positions.as_slice();
        self.spans.sort_unstable_by(|a, b| compare(positions, a, b));
    }

    /// Puts their lines after the text, those of a query at the position. Where memory runs out the
    /// text begins as it did.
    pub fn push_lines(&self, text: &mut Vec<u8>, query: u64, end: Pos) -> Result<(), Memory>
        ensures lines { OnOk result (text.new.items
            ≡ text.old.items ++ flat_map (line query end) self.now) }
        ensures kept { OnErr result (StartsWith text.old.items text.new.items) }
    {
        let positions = self.positions.as_slice();
        for k in 0..self.spans.len() {
            let span = self.spans[k];
            push_line(text, query, span.start, end, positions_of(positions, &span))?;
        }
        Ok(())
    }
}
