//! Which query states of an engine an event goes to.

ghost use Rattle.std.specs.Prelude.{◌≡◌, ℕ, ◌+◌, ◌≤◌, ◌||◌, false, true, [], Some, length, map, slice_get, slice_index_or, IfOk};
ghost use Rattle.cer_base.specs.Bits.{has, room_for};
ghost use Rattle.query_index.specs.Rows.{is_awake, AreExact, AreWaiting, IsLeafIndex, HasRow, AreReaders, HaveRooms};
ghost use Rattle.query_engine.specs.Dispatch.{leaf_room, AreLeafSets, AreOfEither, HaveLooked};

use all_or_none::{Activity, look};
use cel_terms::Query;
use cer_base::Memory;
use cer_base::bits::Bits;
use query_index::LeafIndex;
use query_leaves::leaves_of;
use query_state::QueryState;
use std::alloc::Global;
use stream_schema::{Event, Schema};

/// The query states have numbers from 0.
#[derive(Drop)]
pub struct Dispatch {
    /// Which queries an event can concern.
    leaf_index: LeafIndex,
    /// Which query states are not known to be dormant, and which not to have no open match.
    pub activity: Activity,
    /// The query states that the event goes to, in memory that is used again.
    pub marked: Bits,
    /// Those of them of whose queries a leaf can read the event, likewise.
    pub read: Bits,
    /// For each query the numbers of its leaves that can read the event, where one can, likewise.
    pub leaves: Vec<Bits>,
}

impl Dispatch {
    /// The index and the marks of the queries, before their query states are looked at.
    pub fn of(alloc: Global, schema: &Schema, queries: &[Query]) -> Result<Dispatch, Memory>
        ensures leaf_index { IfOk result (λ w. IsLeafIndex schema.now queries.now w.leaf_index.rows
            w.leaf_index.leaves) }
        ensures exact { IfOk result (λ w. AreExact schema.now queries.now w.leaf_index.rows
            w.leaf_index.leaves) }
        ensures waiting { IfOk result (λ w. AreWaiting queries.now w.leaf_index.rows
            w.leaf_index.leaves) }
        ensures count { IfOk result (λ w. w.leaf_index.count ≡ length queries.now) }
        ensures room { IfOk result (λ w. length w.activity.active_queries
            ≡ room_for (length queries.now)) }
        ensures open { IfOk result (λ w. length w.activity.open_queries
            ≡ length w.activity.active_queries) }
        ensures sets { IfOk result (λ w. length w.marked ≡ length w.activity.active_queries) }
        ensures reads { IfOk result (λ w. length w.read ≡ length w.activity.active_queries) }
        ensures leaves { IfOk result (λ w. AreLeafSets queries.now w.leaves.items) }
    {
        let leaf_index = LeafIndex::of(alloc, schema, queries)?;
        let active_queries = Bits::blank(alloc, queries.len())?;
        let open_queries = Bits::blank(alloc, queries.len())?;
        let marked = Bits::blank(alloc, queries.len())?;
        let read = Bits::blank(alloc, queries.len())?;
        let leaves = leaf_sets(alloc, schema, queries)?;
        Ok(Dispatch {
            leaf_index,
            activity: Activity {
                active_queries,
                open_queries,
            },
            marked,
            read,
            leaves,
        })
    }

    /// Marks the query states of whose queries a leaf can read the event as read, with the numbers
    /// of these leaves, but for those that have no open match where no leaf of the event's type begins
    /// one; and where some query state is not known to be dormant, these and those as marked. Whether
    /// some query state is not.
    #[inline(always)]
    pub fn mark(&mut self, event: &Event) -> bool
        requires room { self.old.leaf_index.count ≤ length self.old.read }
        requires sets { length self.old.marked ≡ length self.old.activity.active_queries }
        requires reads { length self.old.read ≡ length self.old.activity.active_queries }
        requires leaves { HaveRooms self.old.leaf_index.count self.old.leaf_index.rows
            self.old.leaf_index.leaves
            event.now self.old.leaves.items }
        ensures read { (k : ℕ) (h : HasRow self.old.leaf_index.rows self.old.leaf_index.leaves k
            event.now) → is_awake self.old.activity.open_queries h.row ≡ true
            → has self.new.read k ≡ true }
        ensures only { (k : ℕ) → has self.new.read k ≡ true → HasRow self.old.leaf_index.rows
            self.old.leaf_index.leaves k event.now }
        ensures leaves { (k : ℕ) → has self.new.read k ≡ true → AreReaders self.old.leaf_index.rows
            self.old.leaf_index.leaves k event.now (slice_index_or self.new.leaves.items k []) }
        ensures marked { result ≡ true → (k : ℕ) → has self.new.read k ≡ true
            → has self.new.marked k ≡ true }
        ensures active_queries { result ≡ true → (k : ℕ)
            → has self.old.activity.active_queries k ≡ true → has self.new.marked k ≡ true }
        ensures either { result ≡ true → AreOfEither self.new.marked
            self.old.activity.active_queries self.new.read }
        ensures none { result ≡ false → (k : ℕ)
            → has self.old.activity.active_queries k ≡ false }
        ensures same { (self.new.leaf_index ≡ self.old.leaf_index)
            × (self.new.activity ≡ self.old.activity) }
        ensures sets { length self.new.marked ≡ length self.old.marked }
        ensures reads { length self.new.read ≡ length self.old.read }
        ensures rooms { map (λ set. length set) self.new.leaves.items
            ≡ map (λ set. length set) self.old.leaves.items }
    {
        self.read.clear();
        let leaves = self.leaves.as_mut_slice();
        self.leaf_index
            .mark(event, &self.activity.open_queries, &mut self.read, leaves);
        if self.activity.active_queries.is_empty() {
            return false;
        }
        self.marked.clear();
        put_all(&mut self.marked, &self.activity.active_queries);
        put_all(&mut self.marked, &self.read);
        true
    }

    /// Looks at all query states.
    pub fn look(&mut self, query_states: &[QueryState])
        requires active { length query_states.now ≤ length self.old.activity.active_queries }
        requires open { length query_states.now ≤ length self.old.activity.open_queries }
        ensures looked { HaveLooked query_states.now self.new.activity
            (length query_states.now) }
        ensures same { (self.new.leaf_index ≡ self.old.leaf_index)
            × (self.new.marked ≡ self.old.marked)
            × (self.new.read ≡ self.old.read) × (self.new.leaves ≡ self.old.leaves) }
        ensures room { (length self.new.activity.active_queries
            ≡ length self.old.activity.active_queries)
            × (length self.new.activity.open_queries ≡ length self.old.activity.open_queries) }
    {
        look_all(&mut self.activity, query_states);
    }
}

/// An empty set with room for the leaves of the query.
fn leaf_set(alloc: Global, schema: &Schema, query: &Query) -> Result<Bits, Memory>
    ensures { IfOk result (λ set. length set ≡ leaf_room query.now) }
{
    let found = leaves_of(alloc, schema, query)?;
    Bits::blank(alloc, found.list.as_slice().len())
}

/// Such a set for each query.
fn leaf_sets(alloc: Global, schema: &Schema, queries: &[Query]) -> Result<Vec<Bits>, Memory>
    ensures { IfOk result (λ v. AreLeafSets queries.now v.items) }
{
    let mut sets = Vec::with_capacity(alloc, queries.len())?;
    for query in queries {
        sets.push(leaf_set(alloc, schema, query)?)?;
    }
    Ok(sets)
}

/// The query states that the event goes to: those that are marked where some query state is not
/// known to be dormant, else those that are read.
#[inline(always)]
pub fn goes_to<'a>(some_active_queries: bool, marked: &'a Bits, read: &'a Bits) -> &'a Bits
    ensures active_queries { some_active_queries ≡ true → result.now ≡ marked.now }
    ensures none { some_active_queries ≡ false → result.now ≡ read.now }
{
    if some_active_queries { marked } else { read }
}

/// Puts in each number of the other set. Mostly it has none, so that is tested first.
#[inline(always)]
fn put_all(set: &mut Bits, other: &Bits)
    requires { length set.old ≡ length other.now }
    ensures members { (k : ℕ) → has set.new k ≡ has set.old k || has other.now k }
    ensures room { length set.new ≡ length set.old }
{
    if other.is_empty() {
        return;
    }
    set.unite(other);
}

/// Looks at the query states, and notes what is known of each.
fn look_all(activity: &mut Activity, query_states: &[QueryState])
    requires active { length query_states.now ≤ length activity.old.active_queries }
    requires open { length query_states.now ≤ length activity.old.open_queries }
    ensures looked { HaveLooked query_states.now activity.new (length query_states.now) }
    ensures room { (length activity.new.active_queries ≡ length activity.old.active_queries)
        × (length activity.new.open_queries ≡ length activity.old.open_queries) }
{
    activity.active_queries.clear();
    activity.open_queries.clear();
    for k in 0..query_states.len() {
        look(&query_states[k], k, activity);
    }
}
