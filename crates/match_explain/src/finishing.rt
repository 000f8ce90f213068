//! Which leaves can finish a run, from the last event of a span to the first.

ghost use Rattle.std.specs.Prelude.{◌≡◌, ℕ, ◌<◌, ◌&&◌, [], All, IfOk, reverse};
ghost use Rattle.cer_base.specs.Bits.{has};
ghost use Rattle.cea_determinise.specs.Cea.{automaton_of_cea, IsWellFormed, IsSet};
ghost use Rattle.match_explain.specs.Searching.{can_finish, goes_on, IsAhead, AreFinishers};

use crate::moves::{Age, Last, leads};
use crate::turns::Turn;
use cea_determinise::cea::Cea;
use cer_base::Memory;
use cer_base::bits::Bits;
use std::alloc::Global;

/// The leaves that can finish over the events that are left, where they have read the event just
/// before, and where an earlier one.
#[derive(Drop)]
pub struct Ahead {
    pub just: Bits,
    pub earlier: Bits,
}

/// Those after the last event.
fn at_end(alloc: Global, cea: &Cea) -> Result<Ahead, Memory>
    requires { IsWellFormed cea.now }
    ensures { IfOk result (IsAhead (automaton_of_cea cea.now) []) }
{
    Ok(Ahead {
        just: cea.last.copy(alloc)?,
        earlier: Bits::blank(alloc, cea.size)?,
    })
}

/// The leaves that can read the turn's event and finish after it.
fn finishers_of(alloc: Global, cea: &Cea, turn: &Turn, ahead: &Ahead) -> Result<Bits, Memory>
    requires readers { IsSet cea.now.size turn.now.readers }
    requires ahead { IsSet cea.now.size ahead.now.just }
    ensures set { IfOk result (IsSet cea.now.size) }
    ensures members { IfOk result (λ b. (k : ℕ)
        → has b k ≡ (has turn.now.readers k && has ahead.now.just k)) }
{
    let mut finishers = turn.readers.copy(alloc)?;
    finishers.intersect(&ahead.just);
    Ok(finishers)
}

/// The leaves of the age that can finish over a turn and what is left after it.
fn before(
    alloc: Global,
    cea: &Cea,
    age: Age,
    turn: &Turn,
    finishers: &Bits,
    ahead: &Ahead,
) -> Result<Bits, Memory>
    requires formed { IsWellFormed cea.now }
    requires finishers { IsSet cea.now.size finishers.now }
    ensures set { IfOk result (IsSet cea.now.size) }
    ensures members { IfOk result (λ b. (k : ℕ) → k < cea.now.size → has b k
        ≡ goes_on (automaton_of_cea cea.now) age turn.now.marked finishers.now
        ahead.now.earlier k) }
{
    let mut set = Bits::blank(alloc, cea.size)?;
    for leaf in 0..cea.size {
        if leads(cea, Last::Leaf(age, leaf), finishers)
            || !turn.marked && ahead.earlier.contains(leaf)
        {
            set.insert(leaf);
        }
    }
    Ok(set)
}

/// For each turn, from the last to the first, the leaves that can read its event and finish.
pub fn finishers(alloc: Global, cea: &Cea, turns: &[Turn]) -> Result<Vec<Bits>, Memory>
    requires formed { IsWellFormed cea.now }
    requires readers { All (λ t. IsSet cea.now.size t.readers) turns.now }
    ensures { IfOk result (λ sets.
        AreFinishers (automaton_of_cea cea.now) turns.now (reverse sets.items)) }
{
    let mut ahead = at_end(alloc, cea)?;
    let mut sets = Vec::new(alloc);
    for i in (0..turns.len()).rev() {
        let turn = &turns[i];
        let set = finishers_of(alloc, cea, turn, &ahead)?;
        let just = before(alloc, cea, Age::Just, turn, &set, &ahead)?;
        let earlier = before(alloc, cea, Age::Earlier, turn, &set, &ahead)?;
        ahead = Ahead { just, earlier };
        sets.push(set)?;
    }
    Ok(sets)
}
