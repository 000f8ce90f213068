//! How much is kept of each query, and which have grown enough to be compacted.

ghost use Rattle.std.specs.Prelude.{◌≡◌, ℕ, ◌<◌, length, All, IfOk, false, true};
ghost use Rattle.all_or_none.specs.Phases.{IsIdle};
ghost use Rattle.cel_terms.specs.declared.Window.TheVariants.{Free};
ghost use Rattle.query_engine.specs.Sizes.{weight, has_grown};
ghost use Rattle.query_engine.specs.Compacting.{is_chosen};
ghost use Rattle.query_engine.specs.Choosing.{query_state_weight, AreGrown, NoneHasGrown, AreNoted, AreNotedAll, OthersAreFree};

use cel_terms::Window;
use cer_base::Memory;
use query_state::QueryState;
use std::alloc::Global;

/// How much is kept of a query: so many nodes and so many keys.
#[derive(Drop, Clone, Copy)]
pub struct Size {
    pub nodes: u64,
    pub keys: u64,
}

impl Size {
    /// Nothing is kept.
    pub fn zero() -> Size
        ensures { result ≡ record { nodes = 0; keys = 0 } }
    {
        Size { nodes: 0, keys: 0 }
    }
}

/// How much is kept of the query state.
fn measure(query_state: &QueryState) -> Size
    requires { IsIdle query_state.now }
    ensures { weight result ≡ query_state_weight query_state.now }
{
    Size {
        nodes: query_state.len(),
        keys: query_state.key_count(),
    }
}

/// A key weighs as much as eight nodes.
fn weight(size: Size) -> u128
    ensures { result ≡ weight size }
{
    size.nodes as u128 + 8 * size.keys as u128
}

/// Whether it weighs so much at least, and at least twice as much as then.
fn has_grown(least: u64, then: Size, now: Size) -> bool
    ensures { result ≡ has_grown least (weight then) (weight now) }
{
    weight(now) >= least as u128 && weight(now) >= 2 * weight(then)
}

/// Whether some query state has grown so since its size was noted.
pub fn has_one_grown(query_states: &[QueryState], bases: &[Size], least: u64) -> bool
    requires idle { All IsIdle query_states.now }
    requires count { length bases.now ≡ length query_states.now }
    ensures none { result ≡ false
        → NoneHasGrown least bases.now (length query_states.now) query_states.now }
{
    for k in 0..query_states.len() {
        if has_grown(least, bases[k], measure(&query_states[k])) {
            return true;
        }
    }
    false
}

/// The query states that have grown so.
pub fn grown(
    alloc: Global,
    query_states: &[QueryState],
    bases: &[Size],
    least: u64,
) -> Result<Vec<bool>, Memory>
    requires idle { All IsIdle query_states.now }
    requires count { length bases.now ≡ length query_states.now }
    ensures count { IfOk result (λ v. length v.items ≡ length query_states.now) }
    ensures grown { IfOk result
        (λ v. AreGrown least bases.now (length query_states.now) query_states.now
        v.items) }
{
    let mut chosen = Vec::with_capacity(alloc, query_states.len())?;
    for k in 0..query_states.len() {
        chosen.push(has_grown(least, bases[k], measure(&query_states[k])))?;
    }
    Ok(chosen)
}

/// Whether the query state's query has no window: no event goes out of it.
fn is_free(query_state: &QueryState) -> bool
    ensures { result ≡ true → query_state.now.query.window ≡ Free }
{
    match query_state.query().window {
        Window::Free => true,
        _ => false,
    }
}

/// Whether the query state's query has no window, and less than three times as much came as was
/// kept of it then.
fn is_spared(query_state: &QueryState, then: Size) -> bool
    requires { IsIdle query_state.now }
    ensures { result ≡ true → query_state.now.query.window ≡ Free }
{
    is_free(query_state) && weight(measure(query_state)) < 4 * weight(then)
}

/// The query states of queries that have a window, and of the others those that have grown to four
/// times what they were: of these a compaction gives up little.
pub fn unspared(
    alloc: Global,
    query_states: &[QueryState],
    bases: &[Size],
) -> Result<Vec<bool>, Memory>
    requires idle { All IsIdle query_states.now }
    requires count { length bases.now ≡ length query_states.now }
    ensures count { IfOk result (λ v. length v.items ≡ length query_states.now) }
    ensures free { IfOk result
        (λ v. OthersAreFree (length query_states.now) query_states.now v.items) }
{
    let mut chosen = Vec::with_capacity(alloc, query_states.len())?;
    for k in 0..query_states.len() {
        chosen.push(!is_spared(&query_states[k], bases[k]))?;
    }
    Ok(chosen)
}

/// Every query state.
pub fn every(alloc: Global, query_states: &[QueryState]) -> Result<Vec<bool>, Memory>
    ensures count { IfOk result (λ v. length v.items ≡ length query_states.now) }
    ensures chosen { IfOk result (λ v. (k : ℕ) → k < length query_states.now
        → is_chosen v.items k ≡ true) }
{
    let chosen = vec![in alloc; true; query_states.len()]?;
    Ok(chosen)
}

/// Notes the sizes of the query states that are chosen.
pub fn note_sizes(bases: &mut [Size], chosen: &[bool], query_states: &[QueryState])
    requires idle { All IsIdle query_states.now }
    requires count { length bases.old ≡ length query_states.now }
    requires flags { length chosen.now ≡ length query_states.now }
    ensures { AreNoted chosen.now (length query_states.now) query_states.now bases.old bases.new }
{
    for k in 0..bases.len() {
        if chosen[k] {
            bases[k] = measure(&query_states[k]);
        }
    }
}

/// Notes the sizes of all query states.
pub fn note_all(bases: &mut [Size], query_states: &[QueryState])
    requires idle { All IsIdle query_states.now }
    requires count { length bases.old ≡ length query_states.now }
    ensures count { length bases.new ≡ length bases.old }
    ensures noted { AreNotedAll (length query_states.now) query_states.now bases.new }
{
    for k in 0..bases.len() {
        bases[k] = measure(&query_states[k]);
    }
}
