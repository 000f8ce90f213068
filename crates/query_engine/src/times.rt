//! The clocks of an engine's queries: one for all queries that read the same types by the same
//! attribute. A query's clock is that of the last event that it reads, whether or not the event is
//! brought to it.

ghost use Rattle.std.specs.Prelude.{◌≡◌, ◌≢◌, ◌+◌, ◌-◌, ◌<◌, ◌≤◌, ◌<ℤ◌, List, [], length, map, All, Some, None, slice_get, slice_index_or, IfOk, OnOk, IfSome, IfNone};
ghost use Rattle.cel_terms.specs.declared.Query.{Query};
ghost use Rattle.cel_terms.specs.Checked.{IsChecked};
ghost use Rattle.window_clock.specs.Places.{clock_in};
ghost use Rattle.query_standing.specs.Dormancy.{ShareClock};
ghost use Rattle.query_engine.specs.Times.{clocks_of, row_of, AreClocksOf, IsGroupOf, IsBlankGroup, AreThose, AreInside, AreGroups, AreByType, AreTimes, group_reads, moved, AreMoved, StaysInTime, HaveClocksIn, IsFirstGroup, StayInTime, SharesWith, AreHeadsIn};
ghost use Rattle.all_or_none.specs.Phases.{AreRising};

use crate::falls::FallOf;
use cer_base::{Memory, Pos};
use query_state::QueryState;
use std::alloc::Global;
use stream_schema::{Event, Schema, TypeId};
use window_clock::Clock;

/// The clock of a group of queries.
#[derive(Drop)]
pub struct Group {
    /// The number of the least of them, from 1.
    pub query: u64,
    /// Whether the clock is implicit: the position of the event.
    pub implicit: bool,
    pub clock: Clock,
}

/// The clocks of the queries. The groups have numbers from 1.
#[derive(Drop)]
pub struct Times {
    pub groups: Vec<Group>,
    /// For each query the number of its group.
    pub numbers: Vec<u64>,
    /// For each type the numbers of the groups that read it.
    pub by_type: Vec<Vec<u64>>,
}

impl Group {
    /// The group of the query state alone, whose query has this number, before any event.
    fn of(
        alloc: Global,
        schema: &Schema,
        query_state: &QueryState,
        query: u64,
    ) -> Result<Group, Memory>
        requires checked { IsChecked schema.now query_state.now.query }
        ensures query { IfOk result (λ g. g.query ≡ query) }
        ensures group { IfOk result (λ g. (queries : List Query) → 1 ≤ query
            → slice_get queries (query - 1) ≡ Some query_state.now.query
            → IsGroupOf schema.now queries g) }
        ensures blank { IfOk result (λ g. g.clock.last ≡ None) }
    {
        schema.well_declared();
        let clock = Clock::of(alloc, schema, query_state.query())?;
        Ok(Group {
            query,
            implicit: clock.is_position(),
            clock,
        })
    }

    /// How the clock would fall with the event as the next one, if it would. A position does not.
    fn test(&self, event: &Event, position: Pos) -> Option<FallOf>
        requires there { clock_in self.now.clock.source event.now position ≢ None }
        ensures query { IfSome result (λ f. f.query ≡ self.now.query) }
        ensures falls { IfSome result (λ f. (clock_in self.now.clock.source event.now position
            ≡ Some f.now) × (self.now.clock.last ≡ Some f.before) × (f.now <ℤ f.before)) }
        ensures in_time { IfNone result (StaysInTime event.now position self.now) }
    {
        if self.implicit {
            return None;
        }
        match self.clock.test(event, position) {
            Ok(_) => None,
            Err(back) => Some(FallOf {
                query: self.query,
                before: back.before,
                now: back.now,
            }),
        }
    }

    /// The event moves the clock.
    fn take(&mut self, event: &Event, position: Pos)
        ensures { self.new ≡ moved event.now position self.old }
    {
        self.clock.take(event, position);
    }
}

/// The number of a group whose clock the query state shares, if there is one.
fn find_group(
    groups: &[Group],
    query_states: &[QueryState],
    query_state: &QueryState,
) -> Option<u64>
    requires schemas { All (λ p. p.schema ≡ query_state.now.schema) query_states.now }
    requires heads { AreHeadsIn (length query_states.now) groups.now }
    ensures inside { IfSome result (λ n. (1 ≤ n) × (n ≤ length groups.now)) }
    ensures shares { IfSome result (SharesWith query_state.now groups.now query_states.now) }
{
    for g in 0..groups.len() {
        if query_state.shares_clock(&query_states[groups[g].query as usize - 1]) {
            return Some(g as u64 + 1);
        }
    }
    None
}

/// Puts in the query of the next query state: into a group whose clock it shares, or into one of
/// its own.
fn add_query(
    groups: &mut Vec<Group>,
    numbers: &mut Vec<u64>,
    alloc: Global,
    schema: &Schema,
    query_states: &[QueryState],
    k: usize,
) -> Result<(), Memory>
    requires there { k < length query_states.now }
    requires schemas { All (λ p. p.schema ≡ schema.now) query_states.now }
    requires checked { All (λ p. IsChecked schema.now p.query) query_states.now }
    requires groups { AreGroups schema.now (map (λ p. p.query) query_states.now) k groups.old.items
        numbers.old.items }
    requires blank { All IsBlankGroup groups.old.items }
    ensures groups { OnOk result (AreGroups schema.now (map (λ p. p.query) query_states.now) (k + 1)
        groups.new.items numbers.new.items) }
    ensures blank { OnOk result (All IsBlankGroup groups.new.items) }
{
    match find_group(groups.as_slice(), query_states, &query_states[k]) {
        Some(number) => numbers.push(number)?,
        None => {
            let group = Group::of(alloc, schema, &query_states[k], k as u64 + 1)?;
            groups.push(group)?;
            numbers.push(groups.len() as u64)?;
        }
    }
    Ok(())
}

/// The numbers of the groups that read the type.
fn groups_reading(
    alloc: Global,
    schema: &Schema,
    groups: &[Group],
    query_states: &[QueryState],
    ty: TypeId,
) -> Result<Vec<u64>, Memory>
    requires declared { ty < length schema.now.types }
    requires schemas { All (λ p. p.schema ≡ schema.now) query_states.now }
    requires heads { AreHeadsIn (length query_states.now) groups.now }
    ensures { IfOk result
        (λ v. AreThose (group_reads schema.now (map (λ p. p.query) query_states.now) ty)
        (length groups.now) groups.now v.items) }
{
    let _ = schema;
    let mut numbers = Vec::new(alloc);
    for g in 0..groups.len() {
        if query_states[groups[g].query as usize - 1].reads(ty) {
            numbers.push(g as u64 + 1)?;
        }
    }
    Ok(numbers)
}

/// The groups that read each declared type, by the type's number.
fn groups_by_type(
    alloc: Global,
    schema: &Schema,
    groups: &[Group],
    query_states: &[QueryState],
) -> Result<Vec<Vec<u64>>, Memory>
    requires schemas { All (λ p. p.schema ≡ schema.now) query_states.now }
    requires heads { AreHeadsIn (length query_states.now) groups.now }
    ensures { IfOk result
        (λ v. AreByType schema.now (map (λ p. p.query) query_states.now) groups.now
        (length schema.now.types) v.items) }
{
    let mut rows = Vec::new(alloc);
    for ty in 0..schema.types() {
        rows.push(groups_reading(alloc, schema, groups, query_states, ty)?)?;
    }
    Ok(rows)
}

/// The numbers of the groups that read the type: none where it is not declared.
fn row_in(by_type: &[Vec<u64>], ty: TypeId) -> &[u64]
    ensures { result.now ≡ row_of by_type.now ty }
{
    match by_type.get(ty as usize) {
        Some(row) => row.as_slice(),
        None => &[],
    }
}

/// The event moves the clocks of the groups of these numbers.
fn move_clocks(groups: &mut [Group], numbers: &[u64], event: &Event, position: Pos)
    requires inside { HaveClocksIn event.now position groups.old numbers.now }
    ensures { AreMoved event.now position numbers.now groups.old groups.new }
{
    for number in numbers {
        groups[*number as usize - 1].take(event, position);
    }
}

impl Times {
    /// Those of the query states before any event.
    pub fn of(alloc: Global, schema: &Schema, query_states: &[QueryState]) -> Result<Times, Memory>
        requires schemas { All (λ p. p.schema ≡ schema.now) query_states.now }
        requires checked { All (λ p. IsChecked schema.now p.query) query_states.now }
        ensures times { IfOk result (λ t. AreTimes schema.now (map (λ p. p.query) query_states.now)
            t.groups.items t.numbers.items t.by_type.items) }
        ensures clocks { IfOk result
            (λ t. AreClocksOf schema.now (map (λ p. p.query) query_states.now) []
            (clocks_of t.groups.items t.numbers.items)) }
    {
        let mut groups = Vec::new(alloc);
        let mut numbers = Vec::new(alloc);
        for k in 0..query_states.len() {
            add_query(&mut groups, &mut numbers, alloc, schema, query_states, k)?;
        }
        let by_type = groups_by_type(alloc, schema, groups.as_slice(), query_states)?;
        Ok(Times {
            groups,
            numbers,
            by_type,
        })
    }

    /// The first group, by the least query of each, whose clock would fall with the event as the next
    /// one.
    pub fn first_fall(&self, event: &Event, position: Pos) -> Option<FallOf>
        requires inside { HaveClocksIn event.now position self.now.groups.items
            (row_of self.now.by_type.items event.now.ty) }
        requires rising { AreRising (row_of self.now.by_type.items event.now.ty) }
        ensures falls { IfSome result (IsFirstGroup event.now position self.now.groups.items
            (row_of self.now.by_type.items event.now.ty)) }
        ensures in_time { IfNone result (StayInTime event.now position self.now.groups.items
            (row_of self.now.by_type.items event.now.ty)) }
    {
        for number in row_in(self.by_type.as_slice(), event.ty) {
            if let Some(fall) = self.groups[*number as usize - 1].test(event, position) {
                return Some(fall);
            }
        }
        None
    }

    /// The event moves the clocks of the queries that read it.
    pub fn note(&mut self, event: &Event, position: Pos)
        requires inside { HaveClocksIn event.now position self.old.groups.items
            (row_of self.old.by_type.items event.now.ty) }
        ensures moved { AreMoved event.now position (row_of self.old.by_type.items event.now.ty)
            self.old.groups.items self.new.groups.items }
        ensures same { (self.new.numbers ≡ self.old.numbers)
            × (self.new.by_type ≡ self.old.by_type) }
    {
        let row = row_in(self.by_type.as_slice(), event.ty);
        move_clocks(self.groups.as_mut_slice(), row, event, position);
    }

    /// The clock of the query whose number is one more than k.
    pub fn clock(&self, k: usize) -> &Clock
        requires there { k < length self.now.numbers.items }
        requires inside { AreInside self.now.groups.items self.now.numbers.items }
        ensures { result.now.last
            ≡ slice_index_or (clocks_of self.now.groups.items self.now.numbers.items) k None }
    {
        &self.groups[self.numbers[k] as usize - 1].clock
    }
}
