//! The query states of an engine, one for each query.

ghost use Rattle.std.specs.Prelude.{◌≡◌, ℕ, [], ◌∷◌, ◌++◌, length, map, All, IfOk, OnOk, slice_index_or};
ghost use Rattle.cel_terms.specs.Checked.{IsChecked};
ghost use Rattle.all_or_none.specs.Phases.{IsIdle};
ghost use Rattle.query_engine.specs.Running.{IsFirst, AreNamed, raised};

use cel_terms::Query;
use cer_base::Memory;
use cer_base::seed::Seed;
use query_state::QueryState;
use std::alloc::Global;
use std::sync::Arc;
use stream_schema::Schema;

/// A copy of the schema that all query states share.
pub fn shared(alloc: Global, schema: &Schema) -> Result<Arc<Schema>, Memory>
    ensures { IfOk result (λ shared. shared.value ≡ schema.now) }
{
    match Arc::new(alloc, schema.copy(alloc)?) {
        Ok(shared) => Ok(shared),
        Err(_) => Err(Memory),
    }
}

/// Puts the query state of the query last, as it is before any event.
fn add_query_state(
    query_states: &mut Vec<QueryState>,
    alloc: Global,
    seed: Seed,
    schema: &Arc<Schema>,
    query: Query,
) -> Result<(), Memory>
    requires checked { IsChecked schema.now.value query }
    requires first { All (IsFirst schema.now.value) query_states.old.items }
    ensures queries { OnOk result (map (λ p. p.query) query_states.new.items
        ≡ map (λ p. p.query) query_states.old.items ++ query ∷ []) }
    ensures first { OnOk result (All (IsFirst schema.now.value) query_states.new.items) }
{
    let query_state = QueryState::new(alloc, seed, schema, query, query_states.as_slice())?;
    query_states.push(query_state)?;
    Ok(())
}

/// Puts the query states of the queries last, as they are before any event.
pub fn add_query_states(
    query_states: &mut Vec<QueryState>,
    alloc: Global,
    seed: Seed,
    schema: &Arc<Schema>,
    queries: Vec<Query>,
) -> Result<(), Memory>
    requires checked { All (IsChecked schema.now.value) queries.items }
    requires empty { query_states.old.items ≡ [] }
    ensures queries { OnOk result (map (λ p. p.query) query_states.new.items ≡ queries.items) }
    ensures first { OnOk result (All (IsFirst schema.now.value) query_states.new.items) }
{
    for query in queries {
        add_query_state(query_states, alloc, seed, schema, query)?;
    }
    Ok(())
}

/// Raises each peak to how many nodes its query state has.
pub fn raise(peaks: &mut [u64], query_states: &[QueryState])
    requires count { length peaks.old ≡ length query_states.now }
    requires idle { All IsIdle query_states.now }
    ensures { peaks.new ≡ raised peaks.old query_states.now }
{
    for k in 0..peaks.len() {
        peaks[k] = peaks[k].max(query_states[k].len());
    }
}

/// A peak for each query state, which is 0 before any event.
pub fn first_peaks(alloc: Global, query_states: &[QueryState]) -> Result<Vec<u64>, Memory>
    ensures count { IfOk result (λ v. length v.items ≡ length query_states.now) }
    ensures zero { IfOk result (λ v. (k : ℕ) → slice_index_or v.items k 0 ≡ 0) }
{
    let peaks = vec![in alloc; 0; query_states.len()]?;
    Ok(peaks)
}

/// The number of each query state, from 1 and rising.
pub fn all_numbers(alloc: Global, query_states: &[QueryState]) -> Result<Vec<u64>, Memory>
    ensures { IfOk result
        (λ v. AreNamed (λ p. ⊥) (length query_states.now) query_states.now v.items) }
{
    let mut numbers = Vec::new(alloc);
    for k in 0..query_states.len() {
        numbers.push(k as u64 + 1)?;
    }
    Ok(numbers)
}
