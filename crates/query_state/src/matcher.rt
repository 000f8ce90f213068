//! The tables that are made of a query before any event.

ghost use Rattle.std.specs.Prelude.{◌≡◌, ℕ, false, true, None, All, IfOk, length};
ghost use Rattle.cer_base.specs.Bits.{has, room_for};
ghost use Rattle.cea_determinise.specs.Cea.{automaton_of_cea};
ghost use Rattle.cea_compile.specs.LeafAutomaton.{automaton_of_leaves};
ghost use Rattle.event_update.specs.Dormancy.{IsSkipInsensitive};
ghost use Rattle.query_leaves.specs.Lawful.{AreNumbered};
ghost use Rattle.window_clock.specs.Places.{IsOf};
ghost use Rattle.query_state.specs.Matches.{none_open};
ghost use Rattle.query_state.specs.KeyPlaces.{AreKeyPlaces};
ghost use Rattle.query_state.specs.QueryStates.{AreTypesRead, CanShare, IsMatcherOf, HasAutomaton, AreFirst, MayBeSkipInsensitive, MayBeWhole};

use crate::QueryState;
use crate::matches::Matches;
use crate::reading::{Places, is_whole};
use crate::tables::{clock_of, keys_of, types_of};
use cea_compile::compile;
use cel_terms::Query;
use cer_base::Memory;
use cer_base::bits::Bits;
use cer_base::seed::Seed;
use event_update::dormancy::is_skip_insensitive;
use query_leaves::{Leaves, leaves_of};
use std::alloc::Global;
use std::sync::Arc;
use stream_schema::Schema;
use window_clock::Clock;

/// How events are read: which types, and where their clock and their key stand.
#[derive(Drop)]
pub struct Reading {
    pub clock: Clock,
    pub types: Arc<Vec<bool>>,
    pub keys: Arc<Vec<Option<Places>>>,
    /// Whether the query has no partition.
    pub whole: bool,
}

impl Reading {
    /// How the query reads the events of the schema, of which the others are too. It shares with
    /// these what it can.
    pub fn of(
        alloc: Global,
        schema: &Schema,
        query: &Query,
        others: &[QueryState],
    ) -> Result<Reading, Memory>
        requires { CanShare schema.now query.now.window others.now }
        ensures types { IfOk result (λ r. AreTypesRead schema.now query.now r.types.value.items) }
        ensures keys { IfOk result (λ r. AreKeyPlaces schema.now query.now r.keys.value.items) }
        ensures clock { IfOk result (λ r. IsOf schema.now query.now.window r.clock.source) }
        ensures blank { IfOk result (λ r. r.clock.last ≡ None) }
        ensures whole { IfOk result (λ r. MayBeWhole schema.now r.keys.value.items r.whole) }
    {
        let clock = clock_of(alloc, schema, query, others)?;
        let types = types_of(alloc, schema, query, others)?;
        let keys = keys_of(alloc, schema, query, others)?;
        Ok(Reading {
            clock,
            types,
            keys,
            whole: is_whole(query),
        })
    }
}

/// What finds the states: an empty set with room for the leaves, the set of those that may read the
/// first event of a match, the open matches, and whether the automaton is known to be
/// skip-insensitive.
#[derive(Drop)]
pub struct Matcher {
    pub no_leaves: Bits,
    pub first: Bits,
    pub matches: Matches,
    pub skip_insensitive: bool,
}

/// The automaton that the leaves tell, no match being open. Its tables hash by the seed.
fn matcher_of(alloc: Global, seed: Seed, leaves: &Leaves) -> Result<Matcher, Memory>
    requires { AreNumbered leaves.now }
    ensures empty { IfOk result (λ m. (k : ℕ) → has m.no_leaves k ≡ false) }
    ensures room { IfOk result (λ m. length m.no_leaves ≡ room_for (length leaves.now.list)) }
    ensures first { IfOk result (λ m. (k : ℕ) → (automaton_of_leaves leaves.now).first k
        ≡ has m.first k) }
    ensures first_room { IfOk result (λ m. length m.first ≡ room_for (length leaves.now.list)) }
    ensures matches { IfOk result (λ m. HasAutomaton (automaton_of_leaves leaves.now)
        leaves.now.strict m.matches) }
    ensures skip_insensitive { IfOk result (λ m. m.skip_insensitive ≡ true
        → IsSkipInsensitive (automaton_of_leaves leaves.now) leaves.now.strict) }
{
    let cea = compile(alloc, leaves)?;
    let skip_insensitive = is_skip_insensitive(&cea);
    let no_leaves = Bits::blank(alloc, leaves.list.as_slice().len())?;
    let first = cea.first.copy(alloc)?;
    Ok(Matcher {
        no_leaves,
        first,
        matches: Matches::new(alloc, seed, cea),
        skip_insensitive,
    })
}

impl Matcher {
    /// The matcher of the query. Its tables hash by the seed.
    pub fn of(alloc: Global, seed: Seed, schema: &Schema, query: &Query) -> Result<Matcher, Memory>
        ensures matcher { IfOk result (λ m. IsMatcherOf query.now m.no_leaves m.matches) }
        ensures first { IfOk result (λ m. AreFirst query.now m.first) }
        ensures skip_insensitive { IfOk result
            (λ m. MayBeSkipInsensitive query.now m.skip_insensitive) }
    {
        let leaves = leaves_of(alloc, schema, query)?;
        matcher_of(alloc, seed, &leaves)
    }
}
