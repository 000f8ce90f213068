//! Compaction of the query states of an engine.

ghost use Rattle.std.specs.Prelude.{◌≡◌, ◌+◌, ◌≤◌, length, map, All};
ghost use Rattle.std.specs.List.{AllZip};
ghost use Rattle.all_or_none.specs.Phases.{IsIdle};
ghost use Rattle.query_state.specs.QueryStates.{woken};
ghost use Rattle.query_engine.specs.Times.{clocks_in, with_clocks, AreInside};
ghost use Rattle.query_engine.specs.Compacting.{CanCompact, FitsQueryState, HaveRoom, IsCompacted, AreOnce, OthersStay, AreTrimmed, AreCarried, cost_of};

use crate::cursor::Cursor;
use crate::times::Times;
use arena_compact::{HasCursor, Room};
use cer_base::Pos;
use cer_base::node::Id;
use cer_base::steps::Steps;
use query_state::QueryState;
use std::sync::ledger::Ledger;
use tecs_enumerate::Cursor as Walk;

impl HasCursor for Cursor {
    ghost walk = { λ c. c };

    fn cursor(&self) -> &Walk {
        &self.walk
    }

    fn set(&mut self, k: usize, id: Id) {
        self.walk.set(k, id);
    }
}

/// The most nodes that a query state has which is chosen.
pub fn most_nodes(query_states: &[QueryState], chosen: &[bool]) -> u64
    requires idle { All IsIdle query_states.now }
    requires flags { length chosen.now ≡ length query_states.now }
    ensures { HaveRoom chosen.now result query_states.now }
{
    let mut most = 0;
    for k in 0..query_states.len() {
        if chosen[k] {
            most = query_states[k].len().max(most);
        }
    }
    most
}

/// Settles each query state after so many events.
pub fn settle_all(query_states: &mut [QueryState], count: Pos)
    requires idle { All IsIdle query_states.old }
    ensures { query_states.new ≡ map (woken count) query_states.old }
{
    for k in 0..query_states.len() {
        query_states[k].settle(count);
    }
}

/// Compacts each query state that is chosen, with its query's clock and with the cursors of it that
/// are held. The room is for as many nodes as each of them has. It takes no memory.
fn compact_all<L: Ledger>(
    query_states: &mut [QueryState],
    times: &Times,
    chosen: &[bool],
    held: &mut [Cursor],
    room: &mut Room,
    steps: &mut Steps<L>,
)
    requires times { AreInside times.now.groups.items times.now.numbers.items }
    requires clocks { length times.now.numbers.items ≡ length query_states.old }
    requires flags { length chosen.now ≡ length query_states.old }
    requires query_states { All CanCompact query_states.old }
    requires room { HaveRoom chosen.now room.old query_states.old }
    requires held { All (FitsQueryState
        (with_clocks query_states.old (clocks_in times.now))) held.old }
    ensures query_states { AllZip IsCompacted (with_clocks query_states.old (clocks_in times.now))
        (with_clocks query_states.new (clocks_in times.now)) }
    ensures left { AreTrimmed chosen.now (length query_states.old) held.new
        (with_clocks query_states.new (clocks_in times.now)) }
    ensures once { AreOnce chosen.now (length query_states.old)
        (with_clocks query_states.old (clocks_in times.now)) }
    ensures others { OthersStay chosen.now (length query_states.old)
        (with_clocks query_states.old (clocks_in times.now))
        (with_clocks query_states.new (clocks_in times.now)) }
    ensures held { AreCarried (length query_states.old)
        (with_clocks query_states.old (clocks_in times.now))
        (with_clocks query_states.new (clocks_in times.now)) held.old held.new }
    ensures steps { steps.new ≤ steps.old
        + cost_of chosen.now (with_clocks query_states.old (clocks_in times.now)) }
{
    for k in 0..query_states.len() {
        if chosen[k] {
            query_states[k].compact(k as u64 + 1, held, times.clock(k), room, steps);
        }
    }
}

/// Settles each query state, as after so many events, and compacts those that are chosen.
pub fn compact_query_states<L: Ledger>(
    query_states: &mut [QueryState],
    times: &Times,
    count: Pos,
    chosen: &[bool],
    held: &mut [Cursor],
    room: &mut Room,
    steps: &mut Steps<L>,
)
    requires idle { All IsIdle query_states.old }
    requires times { AreInside times.now.groups.items times.now.numbers.items }
    requires clocks { length times.now.numbers.items ≡ length query_states.old }
    requires flags { length chosen.now ≡ length query_states.old }
    requires query_states { All CanCompact (map (woken count) query_states.old) }
    requires room { HaveRoom chosen.now room.old (map (woken count) query_states.old) }
    requires held { All (FitsQueryState (with_clocks (map (woken count) query_states.old)
        (clocks_in times.now))) held.old }
    ensures query_states { AllZip IsCompacted (with_clocks (map (woken count) query_states.old)
        (clocks_in times.now)) (with_clocks query_states.new (clocks_in times.now)) }
    ensures left { AreTrimmed chosen.now (length query_states.old) held.new
        (with_clocks query_states.new (clocks_in times.now)) }
    ensures once { AreOnce chosen.now (length query_states.old)
        (with_clocks (map (woken count) query_states.old) (clocks_in times.now)) }
    ensures others { OthersStay chosen.now (length query_states.old)
        (with_clocks (map (woken count) query_states.old) (clocks_in times.now))
        (with_clocks query_states.new (clocks_in times.now)) }
    ensures held { AreCarried (length query_states.old)
        (with_clocks (map (woken count) query_states.old)
        (clocks_in times.now))
        (with_clocks query_states.new (clocks_in times.now)) held.old held.new }
    ensures steps { steps.new ≤ steps.old + cost_of chosen.now (with_clocks
        (map (woken count) query_states.old) (clocks_in times.now)) }
{
    settle_all(query_states, count);
    compact_all(query_states, times, chosen, held, room, steps);
}
