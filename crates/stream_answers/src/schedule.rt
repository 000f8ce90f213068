//! When the engine of a run is compacted: after every N-th event, or where no N is given as its queries
//! grow.

ghost use Rattle.std.specs.Prelude.{◌≡◌, ◌+◌, ◌-◌, ◌*◌, ◌<◌, ◌≤◌, ℕ, Bool, List, [], All, None, length, get_or, IfOk, OnOk, OnErr};
ghost use Rattle.stream_schema.specs.declared.Event.{Event};
ghost use Rattle.query_engine.specs.Engine.{Open, StandsFor, SameQueries, Fits, IsKept, count_of, found_of, len_of, peak_of};
ghost use Rattle.query_engine.specs.Counts.{MeetMost, HasFewNodes, compaction_bound};
ghost use Rattle.query_engine.specs.Sizes.{AreKeptSmall, AreSizes, put_by};
ghost use Rattle.query_engine.specs.Keys.{KeysFollowWindows};
ghost use Rattle.query_engine.specs.Windows.{IsDense, FollowsWindow};
ghost use Rattle.stream_answers.specs.Schedules.{events_before_look, due_by, saved, first_compaction, WithNoNumber, IsOnTime, IsGoingOn};
ghost use Rattle.stream_answers.specs.Steps.{compaction_by};
ghost use Rattle.stream_answers.specs.Windows.{is_due, is_due_after, last_of, FollowsEvents, FollowsWindowsBy};

use cer_base::Memory;
use cer_base::steps::Steps;
use query_engine::{Cursor, Engine, Size};
use std::alloc::Global;
use std::marker::Model;
use std::sync::ledger::Ledger;

/// A query that weighs less is not compacted by itself: so many nodes, or keys as eight of them each, ..
pub const LEAST_SIZE: u64 = 256;

/// .. and fewer where the queries are many, so that all of them that are small weigh so much together, ..
const SMALL_TOGETHER: u64 = 8192;

/// .. but so much each, since what a compaction takes beside the nodes would cost more than it saves.
const FEWEST_NODES: u64 = 64;

/// The queries are looked at after so many events for each of them, ..
pub const EVENTS_A_QUERY: u64 = 2;

/// .. and after so many where the queries are few.
pub const FEWEST_EVENTS: u64 = 16;

/// When an engine is compacted.
#[derive(Drop)]
pub struct Schedule {
    /// After every so many events; without a number each query once it has grown, and with 0 never.
    every: Option<u64>,
    /// So many events came before it began, and do not count.
    first: u64,
    /// Without a number: after how many events the queries were looked at last.
    looked: u64,
    /// After how many they are next.
    next: u64,
    /// What was kept of each query once it was compacted last, and with a number nothing before that.
    bases: Vec<Size>,
}

impl Model for Schedule {
    ghost use Rattle.stream_answers.specs.Schedules.{Plan};

    ghost Value = { Plan };

    ghost view = { λ s. record {
      timing = record { every = s.every; first = s.first };
      looked = s.looked;
      next = s.next;
      bases = s.bases.items;
    } };
}

impl Schedule {
    /// A schedule that begins now: the events so far do not count. Without a number all queries are
    /// compacted first, so that what is kept of them is what their windows need. After `Memory` nothing
    /// has changed.
    pub fn new<L: Ledger>(
        alloc: Global,
        every: Option<u64>,
        engine: &mut Engine,
        steps: &mut Steps<L>,
    ) -> Result<Schedule, Memory>
        ensures timing { IfOk result (λ plan. plan.timing
            ≡ record { every = every; first = count_of engine.old }) }
        ensures first { IfOk result (λ plan. (events : List Event) → StandsFor engine.old events
            → plan.timing.first ≡ length events) }
        ensures bases { IfOk result (λ plan. length plan.bases ≡ length engine.old.queries) }
        ensures stands { (events : List Event) → StandsFor engine.old events
            → StandsFor engine.new events }
        ensures same { SameQueries engine.old engine.new }
        ensures count { count_of engine.new ≡ count_of engine.old }
        ensures follows { (peaks : ℕ → ℕ) (events : List Event)
            → FollowsEvents peaks engine.old events → FollowsEvents peaks engine.new events }
        ensures on_time { IfOk result (λ plan. (events : List Event) → StandsFor engine.old events
            → IsDense engine.old events → WithNoNumber every (IsOnTime plan engine.new events)) }
        ensures unchanged { OnErr result (engine.new ≡ engine.old) }
        ensures steps { IfOk result (λ plan. (events : List Event) (most : ℕ → ℕ)
            → StandsFor engine.old events
            → MeetMost engine.old.schema engine.old.queries events most
            → HasFewNodes engine.old (length events) most → steps.new + saved plan engine.new
            ≤ steps.old + first_compaction every (length engine.old.queries) most
            (length events)) }
        ensures wanting_steps { OnErr result ((events : List Event) (most : ℕ → ℕ)
            → StandsFor engine.old events
            → MeetMost engine.old.schema engine.old.queries events most
            → HasFewNodes engine.old (length events) most → steps.new ≤ steps.old
            + first_compaction every (length engine.old.queries) most (length events)) }
    {
        let first = engine.events();
        match every {
            Some(_) => {
                let bases = vec![in alloc; Size::zero(); engine.queries() as usize]?;
                Ok(Schedule {
                    every,
                    first,
                    looked: first,
                    next: first,
                    bases,
                })
            }
            None => {
                let bases = begin(alloc, engine, steps)?;
                let next = next_look(first, engine.queries());
                Ok(Schedule {
                    every,
                    first,
                    looked: first,
                    next,
                    bases,
                })
            }
        }
    }

    /// A schedule without a number for an engine that is still to come, with so many queries: nothing is
    /// kept of them so far.
    pub fn of_queries(alloc: Global, queries: u64) -> Result<Schedule, Memory>
        ensures timing { IfOk result (λ plan. plan.timing ≡ record { every = None; first = 0 }) }
        ensures bases { IfOk result (λ plan. length plan.bases ≡ queries) }
    {
        let bases = vec![in alloc; Size::zero(); queries as usize]?;
        Ok(Schedule {
            every: None,
            first: 0,
            looked: 0,
            next: next_look(0, queries),
            bases,
        })
    }

    /// Compacts the engine where that is due after the last event: all queries after every N-th event;
    /// without a number, where enough events have come since they were looked at last, those that have
    /// grown. After `Memory` the engine and the schedule are as they were.
    #[inline(always)]
    pub fn keep_up<L: Ledger>(
        &mut self,
        engine: &mut Engine,
        steps: &mut Steps<L>,
    ) -> Result<(), Memory>
        requires bases { length self.old.bases ≡ length engine.old.queries }
        ensures timing { self.new.timing ≡ self.old.timing }
        ensures bases { length self.new.bases ≡ length self.old.bases }
        ensures stands { (events : List Event) → StandsFor engine.old events
            → StandsFor engine.new events }
        ensures same { SameQueries engine.old engine.new }
        ensures count { count_of engine.new ≡ count_of engine.old }
        ensures fewer { (query : ℕ) → len_of engine.new query ≤ len_of engine.old query }
        ensures windows { OnOk result ((before : ℕ → ℕ) (events : List Event)
            → StandsFor engine.old events
            → FollowsWindowsBy (due_by self.old.timing) before
            (last_of (due_by self.old.timing) (length events - 1)) events engine.old
            → FollowsWindowsBy (due_by self.old.timing) before
            (last_of (due_by self.old.timing) (length events)) events engine.new) }
        ensures on_time { OnOk result ((events : List Event) → StandsFor engine.old events
            → IsDense engine.old events
            → WithNoNumber self.old.timing.every (IsGoingOn self.old engine.old events
            → IsOnTime self.new engine.new events)) }
        ensures steps { (events : List Event) (most : ℕ → ℕ) → StandsFor engine.old events
            → MeetMost engine.old.schema engine.old.queries events most
            → HasFewNodes engine.old (length events) most → steps.new + saved self.new engine.new
            ≤ steps.old + saved self.old engine.old + compaction_by (due_by self.old.timing)
            (length engine.old.queries) most (length events) }
    {
        match self.every {
            Some(_) => {
                if is_due_after(self.every, self.first, engine.events()) {
                    self.compact(engine, steps)
                } else {
                    Ok(())
                }
            }
            None => {
                if engine.events() < self.next {
                    Ok(())
                } else {
                    self.look(engine, steps)
                }
            }
        }
    }

    /// Compacts all queries, sparing those without a window that have not grown much.
    #[inline(never)]
    fn compact<L: Ledger>(
        &mut self,
        engine: &mut Engine,
        steps: &mut Steps<L>,
    ) -> Result<(), Memory>
        requires bases { length self.old.bases ≡ length engine.old.queries }
        ensures timing { self.new.timing ≡ self.old.timing }
        ensures bases { length self.new.bases ≡ length self.old.bases }
        ensures stands { OnOk result ((events : List Event) → StandsFor engine.old events
            → StandsFor engine.new events) }
        ensures dense { OnOk result ((events : List Event) → IsDense engine.old events
            → IsDense engine.new events) }
        ensures window { OnOk result ((events : List Event) → StandsFor engine.old events
            → IsDense engine.old events → FollowsWindow engine.new events []) }
        ensures keys { OnOk result ((events : List Event) → StandsFor engine.old events
            → KeysFollowWindows engine.new events) }
        ensures same { SameQueries engine.old engine.new }
        ensures count { count_of engine.new ≡ count_of engine.old }
        ensures found { (query : ℕ) → found_of engine.new query ≡ found_of engine.old query }
        ensures fewer { (query : ℕ) → len_of engine.new query ≤ len_of engine.old query }
        ensures peak { (query : ℕ) → peak_of engine.new query ≡ peak_of engine.old query }
        ensures unchanged { OnErr result (engine.new ≡ engine.old) }
        ensures bounded { (events : List Event) (most : ℕ → ℕ) → StandsFor engine.old events
            → MeetMost engine.old.schema engine.old.queries events most
            → HasFewNodes engine.old (length events) most → steps.new
            ≤ steps.old + compaction_bound (length engine.old.queries) most (length events) }
    {
        let bases = self.bases.as_mut_slice();
        engine.compact_sparing(bases, steps)
    }

    /// Compacts the queries that have grown, where enough events have come since they were looked at
    /// last, with these cursors held. The schedule has no number. Where memory runs out all is left as it
    /// was until the next look.
    pub fn keep_small<L: Ledger>(
        &mut self,
        engine: &mut Engine,
        held: &mut [Cursor],
        steps: &mut Steps<L>,
    )
        requires bases { length self.old.bases ≡ length engine.old.queries }
        requires fits { All (Fits engine.old) held.old }
        ensures timing { self.new.timing ≡ self.old.timing }
        ensures bases { length self.new.bases ≡ length self.old.bases }
        ensures stands { (events : List Event) → StandsFor engine.old events
            → StandsFor engine.new events }
        ensures cursors { (k : ℕ) → (d : Open) → k < length held.old
            → IsKept engine.old engine.new
            (get_or held.old k d) (get_or held.new k d) }
        ensures held { length held.new ≡ length held.old }
        ensures same { SameQueries engine.old engine.new }
        ensures count { count_of engine.new ≡ count_of engine.old }
        ensures dense { (events : List Event) → IsDense engine.old events → IsDense engine.new
            events }
        ensures found { (query : ℕ) → found_of engine.new query ≡ found_of engine.old query }
        ensures fewer { (query : ℕ) → len_of engine.new query ≤ len_of engine.old query }
        ensures peak { (query : ℕ) → peak_of engine.new query ≡ peak_of engine.old query }
        ensures steps { (events : List Event) → StandsFor engine.old events → steps.new
            + put_by engine.new self.new.bases ≤ steps.old + put_by engine.old self.old.bases }
    {
        if engine.events() < self.next {
            return;
        }
        self.looked = engine.events();
        self.next = next_look(self.looked, engine.queries());
        let bases = self.bases.as_mut_slice();
        tend(engine, bases, held, steps);
    }

    /// Notes how much is kept of each query, as after a compaction that was asked for. The schedule has no
    /// number.
    pub fn note(&mut self, engine: &Engine)
        requires bases { length self.old.bases ≡ length engine.now.queries }
        ensures timing { self.new.timing ≡ self.old.timing }
        ensures sizes { AreSizes engine.now self.new.bases }
    {
        engine.note_all(self.bases.as_mut_slice());
    }

    /// Compacts the queries that have grown. The schedule has no number.
    #[inline(never)]
    fn look<L: Ledger>(&mut self, engine: &mut Engine, steps: &mut Steps<L>) -> Result<(), Memory>
        requires bases { length self.old.bases ≡ length engine.old.queries }
        ensures timing { self.new.timing ≡ self.old.timing }
        ensures bases { length self.new.bases ≡ length self.old.bases }
        ensures stands { (events : List Event) → StandsFor engine.old events
            → StandsFor engine.new events }
        ensures same { SameQueries engine.old engine.new }
        ensures count { count_of engine.new ≡ count_of engine.old }
        ensures fewer { (query : ℕ) → len_of engine.new query ≤ len_of engine.old query }
        ensures windows { OnOk result ((due : ℕ → Bool) (before : ℕ → ℕ)
            (events : List Event) → FollowsWindowsBy due before 0 events engine.old
            → FollowsWindowsBy due before 0 events engine.new) }
        ensures on_time { OnOk result ((events : List Event) → StandsFor engine.old events
            → IsDense engine.old events
            → IsGoingOn self.old engine.old events → IsOnTime self.new engine.new events) }
        ensures steps { (events : List Event) → StandsFor engine.old events → steps.new
            + put_by engine.new self.new.bases ≤ steps.old + put_by engine.old self.old.bases }
    {
        let bases = self.bases.as_mut_slice();
        engine.compact_grown(least_size(engine.queries()), bases, &mut [], steps)?;
        self.looked = engine.events();
        self.next = next_look(self.looked, engine.queries());
        Ok(())
    }
}

/// Compacts all queries, and gives what is kept of each then. After `Memory` the engine is as it was.
fn begin<L: Ledger>(
    alloc: Global,
    engine: &mut Engine,
    steps: &mut Steps<L>,
) -> Result<Vec<Size>, Memory>
    ensures sizes { IfOk result (λ v. AreSizes engine.new v.items) }
    ensures stands { (events : List Event) → StandsFor engine.old events
        → StandsFor engine.new events }
    ensures same { SameQueries engine.old engine.new }
    ensures count { count_of engine.new ≡ count_of engine.old }
    ensures follows { (peaks : ℕ → ℕ) (events : List Event)
        → FollowsEvents peaks engine.old events → FollowsEvents peaks engine.new events }
    ensures small { IfOk result (λ v. (events : List Event) → StandsFor engine.old events
        → IsDense engine.old events
        → AreKeptSmall LEAST_SIZE (length events) engine.new v.items events) }
    ensures unchanged { OnErr result (engine.new ≡ engine.old) }
    ensures steps { (events : List Event) (most : ℕ → ℕ) → StandsFor engine.old events
        → MeetMost engine.old.schema engine.old.queries events most
        → HasFewNodes engine.old (length events) most → steps.new ≤ steps.old
        + compaction_bound (length engine.old.queries) most (length events) }
{
    let mut bases = vec![in alloc; Size::zero(); engine.queries() as usize]?;
    engine.compact(&mut [], steps)?;
    engine.note_all(bases.as_mut_slice());
    Ok(bases)
}

/// Compacts the queries that have grown, with these cursors held; where memory runs out all is left as
/// it was.
fn tend<L: Ledger>(
    engine: &mut Engine,
    bases: &mut [Size],
    held: &mut [Cursor],
    steps: &mut Steps<L>,
)
    requires bases { length bases.old ≡ length engine.old.queries }
    requires fits { All (Fits engine.old) held.old }
    ensures bases { length bases.new ≡ length bases.old }
    ensures stands { (events : List Event) → StandsFor engine.old events
        → StandsFor engine.new events }
    ensures cursors { (k : ℕ) → (d : Open) → k < length held.old → IsKept engine.old engine.new
        (get_or held.old k d) (get_or held.new k d) }
    ensures held { length held.new ≡ length held.old }
    ensures same { SameQueries engine.old engine.new }
    ensures count { count_of engine.new ≡ count_of engine.old }
    ensures dense { (events : List Event) → IsDense engine.old events → IsDense engine.new events }
    ensures found { (query : ℕ) → found_of engine.new query ≡ found_of engine.old query }
    ensures fewer { (query : ℕ) → len_of engine.new query ≤ len_of engine.old query }
    ensures peak { (query : ℕ) → peak_of engine.new query ≡ peak_of engine.old query }
    ensures steps { (events : List Event) → StandsFor engine.old events → steps.new
        + put_by engine.new bases.new ≤ steps.old + put_by engine.old bases.old }
{
    match engine.compact_grown(least_size(engine.queries()), bases, held, steps) {
        Ok(()) => {}
        Err(_) => {}
    }
}

/// What a query weighs at least that is compacted by itself, among so many.
fn least_size(queries: u64) -> u64
    ensures { result ≤ LEAST_SIZE }
{
    (SMALL_TOGETHER / queries.max(1))
        .max(FEWEST_NODES)
        .min(LEAST_SIZE)
}

/// After how many events the queries are looked at next.
fn next_look(looked: u64, queries: u64) -> u64
    ensures next { result ≤ looked + events_before_look queries }
    ensures until { looked ≤ result }
{
    looked.saturating_add(EVENTS_A_QUERY.saturating_mul(queries).max(FEWEST_EVENTS))
}

/// Whether the engine is compacted after so many events.
fn is_due(every: Option<u64>, events: u64) -> bool
    ensures { result ≡ is_due every events }
{
    match every {
        Some(n) => n > 0 && events % n == 0,
        None => false,
    }
}

/// Whether a compaction is due after so many events, of which the first so many do not count.
fn is_due_after(every: Option<u64>, first: u64, events: u64) -> bool
    ensures { result ≡ is_due_after every first events }
{
    if first == 0 {
        return is_due(every, events);
    }
    first < events && is_due(every, events - first)
}
