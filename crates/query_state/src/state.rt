//! What is kept of one query, and what an event makes of it in two phases.

ghost use Rattle.std.specs.Prelude.{◌≡◌, ◌≢◌, ℕ, ◌+◌, ◌*◌, ◌<◌, ◌≤◌, false, true, List, [], ◌∷◌, length, map, All, Some, None, IfOk, IfSome, IfNone, MatchOption, OnOk, OnErr};
ghost use Rattle.stream_schema.specs.declared.Event.{Event as EventData};
ghost use Rattle.cel_terms.specs.Checked.{IsChecked};
ghost use Rattle.cer_base.specs.Nodes.{WellFormed};
ghost use Rattle.tecs_enumerate.specs.Remaining.{recent_of, rest, Fits};
ghost use Rattle.query_standing.specs.Kept.{low_at, roots_at};
ghost use Rattle.query_standing.specs.Dormancy.{ShareClock};
ghost use Rattle.all_or_none.specs.Phases.{IsPrepared, IsIdle, HasNoAnswer, back, IsCommitted, CanPrepare, StandsAt, query_state_bound};
ghost use Rattle.all_or_none.specs.Dormancy.{phase_at};
ghost use Rattle.window_clock.specs.Places.{IsNear, IsOf, HasWidth, NameOneAttribute, clock_in};
ghost use Rattle.query_state.specs.KeyPlaces.{AreKeyPlaces};
ghost use Rattle.query_state.specs.QueryStates.{AreTypesRead, IsFirstClock, IsMatcherOf, AreFirst, HaveClocks, MayBeSkipInsensitive, MayBeWhole, HasEvents, StandsWith, reads_type, woken};
ghost use Rattle.query_state.specs.Compacting.{QueryStateCompacted};
ghost use Rattle.query_state.specs.Matches.{HasStatesOnce};
ghost use Rattle.arena_compact.specs.Roots.{places};

use crate::matcher::{Matcher, Reading};
use crate::matches::{Matches, Ready, Sizes};
use crate::own::{Own, advance_own, look};
use crate::reading::{Places, is_read, same_types};
use all_or_none::Participant;
use arena_compact::{HasCursor, Room};
use cel_terms::{Query, Window};
use cer_base::bits::Bits;
use cer_base::node::Stamp;
use cer_base::seed::Seed;
use cer_base::steps::Steps;
use cer_base::time::{LowTime, Time};
use cer_base::{Memory, Pos};
use std::alloc::Global;
use std::marker::Model;
use std::ops::Deref;
use std::sync::Arc;
use std::sync::ledger::Ledger;
use stream_schema::{Event, Schema, TypeId};
use tecs_enumerate::Cursor;
use window_clock::Clock;

/// What an event does, until it is committed.
#[derive(Drop, Clone, Copy)]
pub enum Step {
    /// It changes no list: it is not read, or it has no key, or no leaf can read it and its key's
    /// lists are dormant or the automaton is skip-insensitive, or it is a no-op for its key's
    /// lists, none of which accepts and each of which has a start in the window, or it begins no
    /// match and none is open of its key.
    NoChange,
    /// It has a key, whose lists are ready.
    Keyed,
}

/// What is kept of one query. It may be dormant: an event that changes nothing of it is a no-op for
/// it, and it keeps no clock, which is that of the events.
///
/// What an event reads or writes stands together, and first, for many queries over one stream.
#[derive(Drop)]
pub struct QueryState {
    alloc: Global,
    /// Whether its automaton is known to be skip-insensitive: an event that no leaf can read
    /// changes no list.
    skip_insensitive: bool,
    /// Whether it is known to have no partition: each of its events has the key of no values.
    whole: bool,
    /// How many events there were when the last one had come that was not a no-op for it.
    upto: Pos,
    /// The number of that event's key, where it may have an answer.
    here: Option<u64>,
    /// For each type the places of the partition's attributes. Queries with the same ones share them.
    keys: Arc<Vec<Option<Places>>>,
    /// For each type whether the query reads it. Queries over the same streams share it.
    types: Arc<Vec<bool>>,
    /// Where its clock is read, and how wide its window is. It sees no event.
    clock: Clock,
    step: Option<Step>,
    /// The lists that are ready, where the step has a key.
    ready: Option<Ready>,
    /// How many of each there were before the last event whose lists were made ready.
    sizes: Sizes,
    matches: Matches,
    /// An empty set, with room for the query's leaves: those that read an event that none reads.
    no_leaves: Bits,
    /// The leaves that may read the first event of a match.
    first: Bits,
    query: Query,
    /// The engine's schema, which all query states share.
    schema: Arc<Schema>,
}

impl Model for QueryState {
    ghost use Rattle.std.specs.Coded.{codes};
    ghost use Rattle.cel_terms.specs.contracts.Formula as formula;
    ghost use Rattle.all_or_none.specs.Phases.{Phase};
    ghost use Rattle.query_state.specs.QueryStates.{kept_of, ready_of, CanEnd, IsMade, AreFirst, MayBeSkipInsensitive, MayBeWhole};

    ghost Value = { Phase };

    ghost coded = { Prim.hlevel (codes, formula.the_row.coded) };

    ghost view = { λ p. record {
      schema = p.schema.value;
      query = p.query;
      kept = kept_of p.step p.ready p.sizes p.matches p.here;
      ready = ready_of p.step p.ready p.matches p.here;
      upto = p.upto;
    } };

    ghost invariant = { λ p. IsMade p.schema.value p.query p.types.value.items p.keys.value.items
        p.clock.source p.no_leaves p.matches × CanEnd p.step p.ready p.sizes p.matches
        × AreFirst p.query p.first
        × MayBeSkipInsensitive p.query p.skip_insensitive
        × MayBeWhole p.schema.value p.keys.value.items p.whole };
}

/// The query state with these tables, before any event.
fn joined(
    alloc: Global,
    schema: Arc<Schema>,
    query: Query,
    reading: Reading,
    matcher: Matcher,
) -> QueryState
    requires types { AreTypesRead schema.value query reading.types.value.items }
    requires keys { AreKeyPlaces schema.value query reading.keys.value.items }
    requires clock { IsOf schema.value query.window reading.clock.source }
    requires clocks { HaveClocks schema.value query reading.clock.source }
    requires matcher { IsMatcherOf query matcher.no_leaves matcher.matches }
    requires first { AreFirst query matcher.first }
    requires skip_insensitive { MayBeSkipInsensitive query matcher.skip_insensitive }
    requires whole { MayBeWhole schema.value reading.keys.value.items reading.whole }
    ensures given { (result.schema ≡ schema.value) × (result.query ≡ query) }
    ensures idle { IsIdle result }
    ensures upto { result.upto ≡ 0 }
    ensures none { result.kept.nodes ≡ [] }
    ensures stands { StandsAt [] result }
{
    let sizes = matcher.matches.sizes();
    QueryState {
        alloc,
        skip_insensitive: matcher.skip_insensitive,
        whole: reading.whole,
        types: reading.types,
        step: None,
        upto: 0,
        here: None,
        clock: reading.clock,
        no_leaves: matcher.no_leaves,
        first: matcher.first,
        keys: reading.keys,
        matches: matcher.matches,
        ready: None,
        sizes,
        query,
        schema,
    }
}

impl QueryState {
    /// What is kept of the query, which is checked for the schema, before any event. Its tables hash
    /// by the seed. What types tell of it is shared with those of the others, which are of the same
    /// schema, that name the same streams and attributes.
    pub fn new(
        alloc: Global,
        seed: Seed,
        schema: &Arc<Schema>,
        query: Query,
        others: &[QueryState],
    ) -> Result<QueryState, Memory>
        requires checked { IsChecked schema.now.value query }
        requires others { All (λ p. p.schema ≡ schema.now.value) others.now }
        ensures given { IfOk result (λ p. (p.schema ≡ schema.now.value) × (p.query ≡ query)) }
        ensures idle { IfOk result IsIdle }
        ensures upto { IfOk result (λ p. p.upto ≡ 0) }
        ensures none { IfOk result (λ p. p.kept.nodes ≡ []) }
        ensures stands { IfOk result (StandsAt []) }
    {
        let declared = schema.deref();
        declared.well_declared();
        let reading = Reading::of(alloc, declared, &query, others)?;
        let matcher = Matcher::of(alloc, seed, declared, &query)?;
        let shared = schema.clone()?;
        Ok(joined(alloc, shared, query, reading, matcher))
    }

    /// The query.
    pub fn query(&self) -> &Query
        ensures { result.now ≡ self.now.query }
    {
        &self.query
    }

    /// For each type whether the query reads it.
    pub fn types(&self) -> Result<Arc<Vec<bool>>, Memory>
        ensures { IfOk result (λ table. AreTypesRead self.now.schema self.now.query
            table.value.items) }
    {
        Ok(self.types.clone()?)
    }

    /// For each type the places of the partition's attributes.
    pub fn keys(&self) -> Result<Arc<Vec<Option<Places>>>, Memory>
        ensures { IfOk result (λ table. AreKeyPlaces self.now.schema self.now.query
            table.value.items) }
    {
        Ok(self.keys.clone()?)
    }

    /// The clock of a query whose window, that of a checked query, is on the same attribute as this
    /// one's, before any event.
    pub fn clock_of(&self, window: &Window) -> Result<Option<Clock>, Memory>
        requires wide { HasWidth window.now }
        requires same { NameOneAttribute self.now.query.window window.now }
        ensures { IfOk result (λ o. IfSome o (IsFirstClock self.now.schema window.now)) }
    {
        self.clock.like(window)
    }

    /// How many states were found.
    pub fn found(&self) -> u64
        requires idle { IsIdle self.now }
        ensures { result ≡ length self.now.kept.table.states }
    {
        self.matches.found()
    }

    /// How many nodes are kept.
    pub fn len(&self) -> u64
        requires idle { IsIdle self.now }
        ensures { result ≡ length self.now.kept.nodes }
    {
        self.matches.len()
    }

    /// How many keys are kept.
    pub fn key_count(&self) -> u64
        requires idle { IsIdle self.now }
        ensures { result ≡ length self.now.kept.keys }
    {
        self.matches.key_count()
    }

    /// Whether both, which are of one schema, are known to read the same types, and each event to have the
    /// same clock for both.
    pub fn shares_clock(&self, other: &QueryState) -> bool
        requires schema { other.now.schema ≡ self.now.schema }
        ensures { result ≡ true → ShareClock self.now.schema self.now.query other.now.query }
    {
        self.schema.deref().well_declared();
        same_types(self.types.as_slice(), other.types.as_slice())
            && self.clock.reads_as(&other.clock)
    }

    /// Whether it reads the events of the type.
    pub fn reads(&self, ty: TypeId) -> bool
        requires { ty < length self.now.schema.types }
        ensures { result ≡ reads_type self.now.schema self.now.query ty }
    {
        is_read(self.types.as_slice(), ty)
    }

    /// Whether a cursor that is opened after so many events may give an answer: whether the last
    /// one was not a no-op for the query state, and some state of the lists of its key accepts. It
    /// takes no step.
    pub fn may_answer(&self, count: Pos) -> bool
        requires idle { IsIdle self.now }
        requires events { HasEvents (phase_at count self.now) }
        requires quiet { HasNoAnswer count (phase_at count self.now) }
        ensures none { result ≡ false
            → roots_at self.now.query (phase_at count self.now).kept ≡ [] }
    {
        if self.upto != count {
            return false;
        }
        self.matches.may_list(self.here)
    }

    /// A cursor with the query's number on the answers at the last of so many events, whose last clock
    /// this one has.
    pub fn cursor<L: Ledger>(
        &self,
        count: Pos,
        number: u64,
        clock: &Clock,
        steps: &mut Steps<L>,
    ) -> Result<Cursor, Memory>
        requires idle { IsIdle self.now }
        requires events { HasEvents (phase_at count self.now) }
        requires quiet { HasNoAnswer count (phase_at count self.now) }
        ensures rest { IfOk result (λ c. rest c self.now.kept.nodes
            ≡ recent_of (low_at self.now.query clock.now.last) self.now.kept.nodes
            (roots_at self.now.query (phase_at count self.now).kept)) }
        ensures fits { IfOk result (λ c. Fits c self.now.kept.nodes) }
        ensures begun { IfOk result (λ c. (c.query ≡ number) × (c.path ≡ [])) }
        ensures steps { steps.new ≤ steps.old + query_state_bound self.now.kept }
    {
        let low = self.clock.low_after(clock);
        if self.upto != count {
            return self.matches.cursor(None, number, low, steps);
        }
        self.matches.cursor(self.here, number, low, steps)
    }

    /// The cursor's next answer, which is of this query state.
    pub fn next<L: Ledger>(&self, cursor: &mut Cursor, steps: &mut Steps<L>) -> Option<Stamp>
        requires idle { IsIdle self.now }
        requires well_formed { WellFormed self.now.kept.nodes }
        requires fits { Fits cursor.old self.now.kept.nodes }
        ensures answer { MatchOption result (rest cursor.old self.now.kept.nodes ≡ [])
            (λ start. rest cursor.old self.now.kept.nodes
            ≡ record { start = start; positions = cursor.new.path } ∷ rest cursor.new
            self.now.kept.nodes) }
        ensures none { IfNone result ((rest cursor.new self.now.kept.nodes ≡ [])
            × (cursor.new.path ≡ [])) }
        ensures fits { Fits cursor.new self.now.kept.nodes }
        ensures same { (cursor.new.query ≡ cursor.old.query) × (cursor.new.low ≡ cursor.old.low) }
        ensures room { cursor.new.room ≡ cursor.old.room }
        ensures delay { MatchOption result (steps.new ≤ steps.old + 1)
            (λ start. steps.new ≤ steps.old + 4 * (length cursor.new.path + 1)) }
    {
        self.matches.next(cursor, steps)
    }

    /// Notes what the last key is after so many events.
    pub fn settle(&mut self, count: Pos)
        requires idle { IsIdle self.old }
        ensures { self.new ≡ woken count self.old }
    {
        self.step = None;
        if self.upto == count {
            return;
        }
        self.here = None;
        self.upto = count;
    }

    /// Keeps of the nodes what the lists need from the low clock on, and the query state's cursors,
    /// those with its number, each from its own on, where the events have the last clock of this
    /// one. It stands for the same such events as before, and each of these cursors has the same
    /// answers left; the others are not touched. Keys without a list are removed then, but for one
    /// at most, and memory that was taken for many more nodes and keys than are left is given back.
    /// The room is for as many nodes as there are. It needs no memory. The last event was not a no-op
    /// for the query state, or it was settled. No state stood twice in a key's lists.
    pub fn compact<C: HasCursor, L: Ledger>(
        &mut self,
        number: u64,
        cursors: &mut [C],
        clock: &Clock,
        room: &mut Room,
        steps: &mut Steps<L>,
    )
        requires idle { IsIdle self.old }
        requires events { HasEvents self.old }
        requires cursors { All (λ w. w.query ≡ number → Fits w self.old.kept.nodes)
            (map C.walk cursors.old) }
        requires room { length self.old.kept.nodes ≤ room.old }
        ensures same { (self.new.schema ≡ self.old.schema) × (self.new.query ≡ self.old.query) }
        ensures idle { IsIdle self.new }
        ensures upto { self.new.upto ≡ self.old.upto }
        ensures stands { (events : List EventData) → StandsWith clock.now.last events self.old
            → StandsWith clock.now.last events self.new }
        ensures compacted { QueryStateCompacted number (low_at self.old.query clock.now.last)
            self.old.kept self.new.kept (map C.walk cursors.old) (map C.walk cursors.new) }
        ensures fewer { length self.new.kept.nodes ≤ length self.old.kept.nodes }
        ensures room { room.new ≡ room.old }
        ensures once { All HasStatesOnce self.old.kept.rows }
        ensures steps { steps.new
            ≤ steps.old + 8 * length self.old.kept.nodes + 4 * places self.old.kept.rows }
    {
        self.step = None;
        let low = self.clock.low_after(clock);
        self.matches.compact(number, cursors, low, room, steps);
        self.here = self.matches.remove(self.here);
        self.matches.shrink();
    }
}

/// The leaves that read the event: those that are told where one does, else none.
#[inline(always)]
fn leaves_for<'a>(reads: bool, leaves: &'a Bits, none: &'a Bits) -> &'a Bits
    ensures told { reads ≡ true → result.now ≡ leaves.now }
    ensures none { reads ≡ false → result.now ≡ none.now }
{
    if reads { leaves } else { none }
}

/// The clock of a start. `Memory` where it is none of 64 bits: a stamp has no place for it. A position
/// from 2^63 on is none.
#[inline(always)]
fn start_clock(clock: i128) -> Result<Time, Memory>
    ensures { IfOk result (λ t. t ≡ clock) }
{
    match Time::try_of(clock) {
        Some(clock) => Ok(clock),
        None => Err(Memory),
    }
}

impl Participant for QueryState {
    ghost phase = { λ n p. phase_at n p };

    fn is_dormant(&self) -> bool {
        self.matches.lets_pass(self.skip_insensitive)
    }

    fn is_empty(&self) -> bool {
        self.matches.is_empty()
    }

    fn prepare<L: Ledger>(
        &mut self,
        event: &Event,
        position: Pos,
        reads: bool,
        leaves: &Bits,
        steps: &mut Steps<L>,
    ) -> Result<bool, Memory> {
        if !is_read(self.types.as_slice(), event.ty) {
            if self.upto <= position {
                return Ok(true);
            }
            self.step = Some(Step::NoChange);
            return Ok(false);
        }
        let bits = leaves_for(reads, leaves, &self.no_leaves);
        let table = self.keys.as_slice();
        let (alloc, whole, skip_insensitive) = (self.alloc, self.whole, self.skip_insensitive);
        let own = look(
            &self.matches,
            table,
            whole,
            event,
            &self.first,
            bits,
            skip_insensitive,
        );
        if let Own::NoOp = own {
            if self.upto <= position {
                return Ok(true);
            }
        }
        let clock = self.clock.now(event, position);
        let stamp = Stamp {
            pos: position,
            clock: start_clock(clock)?,
        };
        let low = LowTime::of(self.clock.low_of(clock));
        let matches = &mut self.matches;
        let sizes = &mut self.sizes;
        match advance_own(
            own,
            matches,
            sizes,
            alloc,
            table,
            event,
            &self.first,
            bits,
            skip_insensitive,
            stamp,
            low,
            steps,
        ) {
            Err(refused) => Err(refused),
            Ok(None) => {
                if self.upto <= position {
                    return Ok(true);
                }
                self.step = Some(Step::NoChange);
                Ok(false)
            }
            Ok(Some(ready)) => {
                self.ready = Some(ready);
                self.step = Some(Step::Keyed);
                Ok(false)
            }
        }
    }

    fn commit(&mut self, _event: &Event, position: Pos) {
        match self.step.take() {
            None => {}
            Some(Step::NoChange) => {
                self.upto = position + 1;
                self.here = None;
            }
            Some(Step::Keyed) => match self.ready.take() {
                None => {}
                Some(ready) => {
                    self.upto = position + 1;
                    self.here = Some(ready.number);
                    self.matches
                        .put(self.skip_insensitive, ready.number, ready.staged);
                }
            },
        }
    }

    fn take_back(&mut self) {
        match self.step.take() {
            Some(Step::Keyed) => match self.ready.take() {
                None => {}
                Some(_) => {
                    self.matches.cut_to(self.sizes);
                }
            },
            _ => {}
        }
    }
}
