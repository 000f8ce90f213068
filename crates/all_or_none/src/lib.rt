//! One event over what is kept of several queries: all take it, or none does.
//!
//! What is kept of one query is a query state, given as a trait: it makes ready what the event
//! changes, which may run out of memory, and then either puts it in or gives it up, which may not;
//! or it tells that the event is a no-op for it. A query state for which an event is a no-op stays
//! as it was: what it is follows from how many events there were. Promised: the event is taken by
//! all query states or by none, and what stood for the events stands for one more; after a refusal
//! each query state is exactly as it was; the steps are bounded by the states that were found, and
//! after a refusal by those that any run meets. It stands on `query_standing`.
#![tactic(auto)]

ghost use Rattle.std.specs.Prelude.{◌≡◌, ◌≢◌, ℕ, ◌+◌, ◌^◌, ◌<◌, ◌≤◌, ◌⊎◌, Bool, true, false, List, [], ◌∷◌, ◌++◌, length, map, sum_by, All, Some, slice_get, IfSome, IfNone, IfOk, OnOk, OnErr};
ghost use Rattle.std.specs.List.{AllZip};
ghost use Rattle.cer_base.specs.Bits.{has};
ghost use Rattle.stream_schema.specs.declared.Event.{Event};
ghost use Rattle.query_standing.specs.Bounds.{update_bound};
ghost use Rattle.all_or_none.specs.Phases.{Phase, CanPrepare, IsPrepared, IsCommitted, IsIdle, HasNoAnswer, back, IsNoOpFor, IsDormant, IsEmpty, AreLeft, IsLooked, AreLooked, AreNoOps, AreSpared, AreLeavesRead, AreRead, IsUnread, AreUnread, AreUntouched, IsUnchanged, AreUnchanged, AreOfMarked, AreBack, IsNoted, is_among, AreSet, MayAnswer, IsTaken, IsWithin, StandsAt, InTime, ready_bound, kept_bound, AreBounded, HasGrown};

pub mod laws;

use cer_base::bits::Bits;
use cer_base::steps::Steps;
use cer_base::{Memory, Pos};
use std::sync::ledger::Ledger;
use stream_schema::Event;

/// What is known of query states, by their numbers from 0.
#[derive(Drop)]
pub struct Activity {
    /// Those that are not known to be dormant.
    pub active_queries: Bits,
    /// Those that are not known to have no open match, the active ones among them.
    pub open_queries: Bits,
}

/// What is kept of one query. Between `prepare` and `commit` it is still seen as what it was.
pub trait Participant {
    ghost use Rattle.all_or_none.specs.Phases.{Phase, CanPrepare, IsDormant, IsEmpty, AreLeavesRead, IsUnchanged, IsUnread, ready_bound, IsWithin};

    /// What it is after so many events.
    ghost phase: { ℕ → Self → Phase };

    /// Whether it is known to be dormant: each later event that no leaf of its query reads is a
    /// no-op for it.
    fn is_dormant(&self) -> bool
        ensures { result ≡ true → IsDormant (λ n. phase n self.now) };

    /// Whether it is known to have no open match: each later event that begins none is a no-op for
    /// it.
    fn is_empty(&self) -> bool
        ensures { result ≡ true → IsEmpty (λ n. phase n self.now) };

    /// Makes ready what the event changes, or tells that the event is a no-op for it: it is then as
    /// it was, and takes the event by being left so. After `Memory` it is as it was. It is told
    /// whether a leaf of its query reads the event, and where one does the numbers of those that
    /// do; where none does, that set says nothing.
    fn prepare<L: Ledger>(
        &mut self,
        event: &Event,
        position: Pos,
        reads: bool,
        leaves: &Bits,
        steps: &mut Steps<L>,
    ) -> Result<bool, Memory>
        requires idle { IsIdle (phase position self.old) }
        requires can { CanPrepare event.now position (phase position self.old) }
        requires read { reads ≡ true → AreLeavesRead event.now leaves.now
            (phase position self.old) }
        requires unread { reads ≡ false → IsUnread event.now (phase position self.old) }
        ensures kept { back (phase position self.new) ≡ back (phase position self.old) }
        ensures no_op { IfOk result (λ by. by ≡ true → IsNoOpFor event.now position
            (phase position self.new) (phase (position + 1) self.new)) }
        ensures left { IfOk result (λ by. by ≡ true → IsUnchanged phase self.old self.new) }
        ensures ready { IfOk result (λ by. by ≡ false → IsPrepared event.now position
            (phase position self.new)) }
        ensures refused { OnErr result (IsIdle (phase position self.new)) }
        ensures steps { OnOk result (steps.new
            ≤ steps.old + ready_bound (phase position self.new)) }
        ensures within { IsWithin event.now position (phase position self.old)
            steps.old steps.new };

    /// Puts in what was made ready. It takes no memory.
    fn commit(&mut self, event: &Event, position: Pos)
        requires room { position + 1 < 2 ^ 64 }
        requires prepared { IsPrepared event.now position (phase position self.old) }
        ensures { IsCommitted position (phase position self.old)
            (phase (position + 1) self.new) };

    /// Gives up what was made ready. It takes no memory.
    fn take_back(&mut self)
        ensures { (count : ℕ) → phase count self.new ≡ back (phase count self.old) };
}

/// The query state prepares. Its number is put in last where the event is not a no-op for it, and
/// where it does the query state is left as it was.
fn prepare_one<P: Participant, L: Ledger>(
    query_state: &mut P,
    number: u64,
    touched: &mut Vec<u64>,
    event: &Event,
    position: Pos,
    reads: bool,
    leaves: &Bits,
    steps: &mut Steps<L>,
) -> Result<(), Memory>
    requires idle { IsIdle (P.phase position query_state.old) }
    requires can { CanPrepare event.now position (P.phase position query_state.old) }
    requires read { reads ≡ true → AreLeavesRead event.now leaves.now
        (P.phase position query_state.old) }
    requires unread { reads ≡ false → IsUnread event.now (P.phase position query_state.old) }
    ensures kept { back (P.phase position query_state.new)
        ≡ back (P.phase position query_state.old) }
    ensures noted { OnOk result
        (IsNoted event.now position number (P.phase position query_state.new)
        (P.phase (position + 1) query_state.new) touched.old.items touched.new.items) }
    ensures left { OnOk result ((touched.new.items ≡ touched.old.items ++ number ∷ [])
        ⊎ IsUnchanged P.phase query_state.old query_state.new) }
    ensures steps { OnOk result (steps.new
        ≤ steps.old + ready_bound (P.phase position query_state.new)) }
    ensures within { IsWithin event.now position (P.phase position query_state.old)
        steps.old steps.new }
{
    let no_op = query_state.prepare(event, position, reads, leaves, steps)?;
    if !no_op {
        touched.push(number)?;
    }
    Ok(())
}

/// The first marked number from this one on, where it is below the end.
#[inline(always)]
fn find(marked: &Bits, from: usize, end: usize) -> Option<usize>
    ensures found { IfSome result (λ k. (from ≤ k) × (k < end) × (has marked.now k ≡ true)) }
    ensures first { IfSome result (λ k. (j : ℕ) → from ≤ j → j < k → has marked.now j ≡ false) }
    ensures none { IfNone result ((j : ℕ) → from ≤ j → j < end → has marked.now j ≡ false) }
{
    match marked.next_from(from) {
        Some(k) => { if k < end { Some(k) } else { None } }
        None => None,
    }
}

/// Each marked query state prepares for which the event is not a no-op, up to the first that
/// cannot. For the others the event is a no-op. A leaf of a marked query state reads it exactly where
/// the query state is among those read, and which do its set in `leaves` tells then. The numbers of the prepared ones, from 1, are left in `touched`, and each other
/// query state is as it was.
fn prepare_all<P: Participant, L: Ledger>(
    query_states: &mut [P],
    marked: &Bits,
    read: &Bits,
    leaves: &[Bits],
    touched: &mut Vec<u64>,
    event: &Event,
    position: Pos,
    steps: &mut Steps<L>,
) -> Result<(), Memory>
    requires idle { All (λ p. IsIdle (P.phase position p)) query_states.old }
    requires can { All (λ p. CanPrepare event.now position (P.phase position p)) query_states.old }
    requires no_ops { AreNoOps P.phase event.now position marked.now query_states.old }
    requires reading { AreRead (P.phase position) event.now read.now leaves.now query_states.old }
    requires unread { AreUnread (P.phase position) event.now marked.now read.now query_states.old }
    requires leaves { length leaves.now ≡ length query_states.old }
    ensures kept { map (λ p. back (P.phase position p)) query_states.new
        ≡ map (λ p. back (P.phase position p)) query_states.old }
    ensures set { OnOk result (AreSet (P.phase position) (P.phase (position + 1)) event.now
        position (length query_states.new) touched.new.items query_states.new) }
    ensures marked { OnOk result (AreOfMarked marked.now touched.new.items) }
    ensures left { OnOk result
        (AreUnchanged P.phase touched.new.items query_states.old query_states.new) }
    ensures others { AreUntouched marked.now query_states.old query_states.new }
    ensures steps { OnOk result (steps.new
        ≤ steps.old + sum_by (λ p. ready_bound (P.phase position p)) query_states.new) }
    ensures within { (events : List Event) (most : List ℕ) → length events ≡ position
        → AreBounded events event.now (map (P.phase position) query_states.old) most → steps.new
        ≤ steps.old + sum_by update_bound most }
{
    touched.clear();
    let mut from: usize = 0;
    while let Some(k) = find(marked, from, query_states.len()) {
        let reads = read.contains(k);
        prepare_one(
            &mut query_states[k],
            k as u64 + 1,
            touched,
            event,
            position,
            reads,
            &leaves[k],
            steps,
        )?;
        from = k + 1;
    }
    Ok(())
}

/// Puts the number in, or takes it out.
#[inline(always)]
fn put(set: &mut Bits, k: usize, member: bool)
    requires { k < length set.old }
    ensures here { has set.new k ≡ member }
    ensures others { (j : ℕ) → j ≢ k → has set.new j ≡ has set.old j }
    ensures room { length set.new ≡ length set.old }
{
    if member {
        set.insert(k);
    } else {
        set.remove(k);
    }
}

/// Notes what is known of the query state of this number, from 0.
pub fn look<P: Participant>(query_state: &P, k: usize, activity: &mut Activity)
    requires active { k < length activity.old.active_queries }
    requires open { k < length activity.old.open_queries }
    ensures { IsLooked P.phase k query_state.now activity.old activity.new }
{
    let is_empty = query_state.is_empty();
    let is_dormant = is_empty || query_state.is_dormant();
    put(&mut activity.open_queries, k, !is_empty);
    put(&mut activity.active_queries, k, !is_dormant);
}

/// The query state of this number, from 0, commits, and is looked at.
fn commit_one<P: Participant>(
    query_state: &mut P,
    k: usize,
    activity: &mut Activity,
    event: &Event,
    position: Pos,
)
    requires room { position + 1 < 2 ^ 64 }
    requires prepared { IsPrepared event.now position (P.phase position query_state.old) }
    requires active { k < length activity.old.active_queries }
    requires open { k < length activity.old.open_queries }
    ensures taken { IsTaken event.now position (P.phase position query_state.old)
        (P.phase (position + 1) query_state.new) }
    ensures looked { IsLooked P.phase k query_state.new activity.old activity.new }
{
    query_state.commit(event, position);
    look(query_state, k, activity);
}

/// The query states of these numbers, which are those that are prepared, commit, and are looked at.
fn commit_all<P: Participant>(
    query_states: &mut [P],
    numbers: &[u64],
    activity: &mut Activity,
    event: &Event,
    position: Pos,
)
    requires room { position + 1 < 2 ^ 64 }
    requires set { AreSet (P.phase position) (P.phase (position + 1)) event.now position
        (length query_states.old) numbers.now query_states.old }
    requires inside { (k : ℕ) → is_among numbers.now (k + 1) ≡ true
        → (k < length activity.old.active_queries) × (k < length activity.old.open_queries) }
    ensures taken { AllZip (IsTaken event.now position) (map (P.phase position) query_states.old)
        (map (P.phase (position + 1)) query_states.new) }
    ensures answering { MayAnswer numbers.now (map (P.phase (position + 1)) query_states.new) }
    ensures others { (k : ℕ) → is_among numbers.now (k + 1) ≡ false → slice_get query_states.new k
        ≡ slice_get query_states.old k }
    ensures looked { AreLooked P.phase numbers.now activity.old activity.new query_states.new }
{
    for number in numbers {
        let k = *number as usize - 1;
        commit_one(&mut query_states[k], k, activity, event, position);
    }
}

/// Each marked query state is taken back.
fn take_back_all<P: Participant>(query_states: &mut [P], marked: &Bits)
    ensures { AreBack P.phase marked.now query_states.old query_states.new }
{
    for k in 0..query_states.len() {
        if marked.contains(k) {
            query_states[k].take_back();
        }
    }
}

/// All query states take the event as the next one, or none does. After `Memory` each query state
/// is as it was.
///
/// It goes to the marked query states alone, by their numbers from 0. Among them is each one that is not
/// known to be dormant. Of the query of another one no leaf reads the event; or it has no open match, and
/// the event begins none. Those marked ones of which a leaf reads it are in `read`, and which leaves of
/// one do its set in `leaves` tells; of the others that says nothing. What is known of the query states
/// is then so for the next event, and after `Memory` nothing is known of the marked ones. `touched` has
/// then the numbers, from 1 and rising, of the query states for which the event was not a no-op; no other
/// may have an answer. They alone are looked at: each other query state is as it was. The memory of
/// `touched` is used again.
pub fn see<P: Participant, L: Ledger>(
    query_states: &mut [P],
    marked: &Bits,
    read: &Bits,
    leaves: &[Bits],
    activity: &mut Activity,
    touched: &mut Vec<u64>,
    event: &Event,
    position: Pos,
    steps: &mut Steps<L>,
) -> Result<(), Memory>
    requires room { position + 1 < 2 ^ 64 }
    requires idle { All (λ p. IsIdle (P.phase position p)) query_states.old }
    requires can { All (λ p. CanPrepare event.now position (P.phase position p)) query_states.old }
    requires left { AreLeft P.phase position activity.old query_states.old }
    requires active { (k : ℕ) → has activity.old.active_queries k ≡ true → has marked.now k ≡ true }
    requires spared { AreSpared (P.phase position) event.now marked.now activity.old.open_queries
        query_states.old }
    requires reading { AreRead (P.phase position) event.now read.now leaves.now query_states.old }
    requires unread { AreUnread (P.phase position) event.now marked.now read.now query_states.old }
    requires leaves { length leaves.now ≡ length query_states.old }
    requires sets { (length activity.old.active_queries ≡ length marked.now)
        × (length activity.old.open_queries ≡ length marked.now) }
    ensures stands { OnOk result ((events : List Event) → length events ≡ position
        → All (λ p. InTime events event.now (P.phase position p)) query_states.old
        → All (λ p. StandsAt events (P.phase position p)) query_states.old
        → All (λ p. StandsAt (events ++ event.now ∷ [])
        (P.phase (position + 1) p)) query_states.new) }
    ensures idle { OnOk result (All (λ p. IsIdle (P.phase (position + 1) p)) query_states.new) }
    ensures quiet { OnOk result (All (λ p.
        HasNoAnswer (position + 1) (P.phase (position + 1) p)) query_states.new) }
    ensures grown { OnOk result
        (AllZip (HasGrown event.now) (map (P.phase position) query_states.old)
        (map (P.phase (position + 1)) query_states.new)) }
    ensures answering { OnOk result (MayAnswer touched.new.items
        (map (P.phase (position + 1)) query_states.new)) }
    ensures left { OnOk result
        (AreLeft P.phase (position + 1) activity.new query_states.new) }
    ensures unchanged { OnErr result (map (P.phase position) query_states.new
        ≡ map (P.phase position) query_states.old) }
    ensures still_left { OnErr result (AreLeft P.phase position activity.new query_states.new) }
    ensures sets { (length activity.new.active_queries ≡ length activity.old.active_queries)
        × (length activity.new.open_queries ≡ length activity.old.open_queries) }
    ensures steps { OnOk result (steps.new
        ≤ steps.old + sum_by (λ p. kept_bound (P.phase (position + 1) p)) query_states.new) }
    ensures within { (events : List Event) (most : List ℕ) → length events ≡ position
        → AreBounded events event.now (map (P.phase position) query_states.old) most → steps.new
        ≤ steps.old + sum_by update_bound most }
{
    match prepare_all(
        query_states,
        marked,
        read,
        leaves,
        touched,
        event,
        position,
        steps,
    ) {
        Ok(()) => {
            commit_all(query_states, touched.as_slice(), activity, event, position);
            Ok(())
        }
        Err(refused) => {
            take_back_all(query_states, marked);
            activity.active_queries.unite(marked);
            activity.open_queries.unite(marked);
            Err(refused)
        }
    }
}
