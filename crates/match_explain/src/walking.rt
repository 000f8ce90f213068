//! A run of the leaves over a span.

ghost use Rattle.std.specs.Prelude.{◌≡◌, ℕ, ◌<◌, ◌&&◌, true, false, [], IfOk, IfSome, IfNone, All, length, reverse, slice_index_or};
ghost use Rattle.cer_base.specs.Bits.{has};
ghost use Rattle.cea_determinise.specs.Runs.{some_below};
ghost use Rattle.cea_determinise.specs.Cea.{automaton_of_cea, IsWellFormed, IsSet};
ghost use Rattle.match_explain.specs.declared.moves.Last.TheVariants.{Start};
ghost use Rattle.match_explain.specs.Searching.{may_read, can_finish, AreFinishers, Goes, IsLeafBelow};

use crate::finishing::finishers;
use crate::moves::{Age, Last, next_leaf};
use crate::turns::Turn;
use cea_determinise::cea::Cea;
use cer_base::bits::Bits;
use cer_base::{Memory, Pos};
use std::alloc::Global;
use std::marker::Model;

/// A leaf has read the event at a position.
#[derive(Drop)]
pub struct Step {
    leaf: usize,
    position: Pos,
}

impl Model for Step {
    ghost use Rattle.cea_compile.specs.Paths.{Step as Read};

    ghost Value = { Read };

    ghost view = { λ s. record { leaf = s.leaf; position = s.position } };
}

impl Step {
    fn new(leaf: usize, position: Pos) -> Step
        ensures { result ≡ record { leaf = leaf; position = position } }
    {
        Step { leaf, position }
    }

    /// The number of the leaf.
    pub fn leaf(&self) -> usize
        ensures { result ≡ self.now.leaf }
    {
        self.leaf
    }

    /// The position of the event.
    pub fn position(&self) -> Pos
        ensures { result ≡ self.now.position }
    {
        self.position
    }
}

/// The first leaf that may read the event of the turn with this number and finish. The finishers are
/// those of the last turn first.
fn next_at(cea: &Cea, last: Last, finishers: &[Bits], turn: usize) -> Option<usize>
    requires formed { IsWellFormed cea.now }
    requires below { IsLeafBelow cea.now.size last }
    requires there { turn < length finishers.now }
    ensures found { IfSome result (λ j. (j < cea.now.size)
        × (may_read (automaton_of_cea cea.now) last j ≡ true)
        × (has (slice_index_or (reverse finishers.now) turn []) j ≡ true)) }
    ensures none { IfNone result (some_below cea.now.size
        (λ j. may_read (automaton_of_cea cea.now) last j
        && has (slice_index_or (reverse finishers.now) turn []) j) ≡ false) }
{
    next_leaf(cea, last, &finishers[finishers.len() - 1 - turn])
}

/// Whether a run can begin with the first turn and be finished.
fn can_begin(cea: &Cea, turns: &[Turn], finishers: &[Bits]) -> bool
    requires formed { IsWellFormed cea.now }
    requires finishers { AreFinishers (automaton_of_cea cea.now) turns.now (reverse finishers.now) }
    ensures { result ≡ can_finish (automaton_of_cea cea.now) Start turns.now }
{
    if finishers.is_empty() {
        return false;
    }
    next_at(cea, Last::Start, finishers, 0).is_some()
}

/// The steps of a run over the turns that can be finished: a leaf reads where one can and finish,
/// and passes the event over where none can.
fn walk(alloc: Global, cea: &Cea, turns: &[Turn], finishers: &[Bits]) -> Result<Vec<Step>, Memory>
    requires formed { IsWellFormed cea.now }
    requires finishers { AreFinishers (automaton_of_cea cea.now) turns.now (reverse finishers.now) }
    requires can { can_finish (automaton_of_cea cea.now) Start turns.now ≡ true }
    ensures { IfOk result (λ steps. Goes (automaton_of_cea cea.now) Start turns.now steps.items) }
{
    let mut steps = Vec::new(alloc);
    let mut last = Last::Start;
    for i in 0..turns.len() {
        last = match next_at(cea, last, finishers, i) {
            Some(leaf) => {
                steps.push(Step::new(leaf, turns[i].position))?;
                Last::Leaf(Age::Just, leaf)
            }
            None => last.passed(),
        };
    }
    Ok(steps)
}

/// The steps of a run over the turns, and none exactly where there is no run.
pub fn run_over(alloc: Global, cea: &Cea, turns: &[Turn]) -> Result<Option<Vec<Step>>, Memory>
    requires formed { IsWellFormed cea.now }
    requires readers { All (λ t. IsSet cea.now.size t.readers) turns.now }
    ensures found { IfOk result (λ r.
        IfSome r (λ steps. Goes (automaton_of_cea cea.now) Start turns.now steps.items)) }
    ensures none { IfOk result (λ r.
        IfNone r (can_finish (automaton_of_cea cea.now) Start turns.now ≡ false)) }
{
    let finishers = finishers(alloc, cea, turns)?;
    if !can_begin(cea, turns, finishers.as_slice()) {
        return Ok(None);
    }
    let steps = walk(alloc, cea, turns, finishers.as_slice())?;
    Ok(Some(steps))
}
