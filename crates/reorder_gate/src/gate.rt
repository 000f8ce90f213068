//! The gate and its calls.

ghost use Rattle.std.specs.Prelude.{◌≡◌, ℕ, true, false, List, [], ◌∷◌, ◌++◌, Some, None, length, drop, is_some, cond, IfOk, IfSome, IfNone, OnOk, OnErr, Err};
ghost use Rattle.std.specs.List.{AllByRecursion};
ghost use Rattle.cer_base.specs.Answers.{OnFault};
ghost use Rattle.cer_base.specs.declared.OrMemory.TheVariants as answer;
ghost use Rattle.stream_schema.specs.declared.Event.{Event};
ghost use Rattle.reorder_gate.specs.Releasing.{raised, is_due};
ghost use Rattle.reorder_gate.specs.Gates.{lateness};

use crate::clock::clock_in;
use cer_base::{Memory, OrMemory};
use std::alloc::Global;
use std::collections::BTreeMap;
use std::marker::Model;
use stream_schema::{Event, Schema, places_of};

/// The event's clock is further below the greatest one that was put than it may be.
#[derive(Drop, Debug, Clone, Copy, PartialEq, Eq)]
pub struct TooLate {
    /// The greatest clock that was put.
    pub high: i64,
    /// The event's clock.
    pub now: i64,
}

/// When an event goes: by its clock, then by how many were put before it.
#[derive(Debug, Clone, Copy, PartialEq, Eq, PartialOrd, Ord)]
struct ReleaseKey {
    clock: i64,
    arrival: u64,
}

/// Events that wait for those that may still come before them.
#[derive(Drop)]
pub struct Gate {
    /// Where the clock stands among the attributes of each type.
    places: Vec<Option<u64>>,
    /// By how much an event may come late.
    late: u64,
    /// The greatest clock that was put.
    high: Option<i64>,
    is_finished: bool,
    /// How many events were put.
    arrivals: u64,
    waiting: BTreeMap<ReleaseKey, (u64, Event)>,
}

impl Model for Gate {
    ghost use Rattle.std.specs.Prelude.{map};
    ghost use Rattle.reorder_gate.specs.Gates.{GateState};
    ghost use Rattle.reorder_gate.specs.Holding.{IsKept};

    ghost Value = { GateState };

    ghost view = { λ g. record {
      places = g.places.items;
      late = g.late;
      high = g.high;
      is_finished = g.is_finished;
      events = map (λ e. e.1) g.waiting.entries;
    } };

    ghost invariant = { λ g. IsKept g.places.items g.arrivals g.waiting.entries };
}

/// How an event of this clock comes too late, where it does.
fn lateness(high: Option<i64>, late: u64, now: i64) -> Option<TooLate>
    ensures { result ≡ lateness high late now }
{
    match high {
        Some(high) => {
            if i128::from(now) < i128::from(high) - i128::from(late) {
                Some(TooLate { high, now })
            } else {
                None
            }
        }
        None => None,
    }
}

/// Whether an event of this clock may go while others may still come.
fn is_due(high: Option<i64>, late: u64, now: i64) -> bool
    ensures { result ≡ is_due late high now }
{
    match high {
        Some(high) => i128::from(now) <= i128::from(high) - i128::from(late),
        None => false,
    }
}

/// The greater of the two, or the second where there is no first.
fn raised(high: Option<i64>, now: i64) -> i64
    ensures { result ≡ raised high now }
{
    match high {
        Some(high) => { if now < high { high } else { now } }
        None => now,
    }
}

impl Gate {
    ghost use Rattle.reorder_gate.specs.AttributeClock.{clock_fits, IsClock};
    ghost use Rattle.reorder_gate.specs.Sorting.{Ascends};
    ghost use Rattle.reorder_gate.specs.Gates.{clock_at, with_event, may_go, any_due, StandsFor, all_due};

    /// A gate with nothing put. Its clock is the attribute of this name, which fits the schema, and
    /// an event may come late by `late`.
    pub fn new(alloc: Global, schema: &Schema, clock: &str, late: u64) -> Result<Gate, Memory>
        requires { clock_fits schema.now clock.now ≡ true }
        ensures clock { IfOk result (λ g. IsClock schema.now clock.now g.places) }
        ensures blank { IfOk result (λ g. (g.late ≡ late) × (g.high ≡ None)
            × (g.is_finished ≡ false) × (g.events ≡ [])) }
        ensures history { IfOk result (λ g. StandsFor g [] []) }
    {
        Ok(Gate {
            places: places_of(alloc, schema, clock)?,
            late,
            high: None,
            is_finished: false,
            arrivals: 0,
            waiting: BTreeMap::new(alloc),
        })
    }

    /// Puts the event, which the line of this number gave, into the gate, which is not finished.
    /// After an error nothing has changed.
    ///
    /// - `TooLate`: an event was put before, and the event's clock is below the greatest one less
    ///   the bound.
    /// - Memory ran out, or 2^64 - 1 events were put.
    pub fn put(&mut self, line: u64, event: Event) -> Result<(), OrMemory<TooLate>>
        requires { self.old.is_finished ≡ false }
        ensures late { IfSome (lateness self.old.high self.old.late
            (clock_at self.old.places (line, event))) (λ late. result ≡ Err (answer.Fault late)) }
        ensures refused { OnFault result (λ late.
            lateness self.old.high self.old.late (clock_at self.old.places (line, event))
            ≡ Some late) }
        ensures put { OnOk result (self.new ≡ with_event self.old (line, event)) }
        ensures unchanged { OnErr result (self.new ≡ self.old) }
        ensures history { (put gone : List (ℕ × Event)) → StandsFor self.old put gone
            → OnOk result (StandsFor self.new (put ++ (line, event) ∷ []) gone) }
    {
        let now = clock_in(self.places.as_slice(), &event);
        if let Some(late) = lateness(self.high, self.late, now) {
            return Err(OrMemory::Fault(late));
        }
        let arrival = self.arrivals;
        let arrivals = match arrival.checked_add(1) {
            Some(arrivals) => arrivals,
            None => return Err(OrMemory::Memory),
        };
        let turn = ReleaseKey {
            clock: now,
            arrival,
        };
        self.waiting.insert(turn, (line, event))?;
        self.arrivals = arrivals;
        self.high = Some(raised(self.high, now));
        Ok(())
    }

    /// No further event is put. All that are held may go.
    pub fn finish(&mut self)
        ensures finished { self.new ≡ record self.old { is_finished = true } }
        ensures history { (put gone : List (ℕ × Event)) → StandsFor self.old put gone
            → StandsFor self.new put gone }
    {
        self.is_finished = true;
    }

    /// Whether the gate was finished.
    pub fn is_finished(&self) -> bool
        ensures { result ≡ self.now.is_finished }
    {
        self.is_finished
    }

    /// Takes the event that is the least by its clock, then by its arrival, with its line, where it
    /// may go: at the end always, before it where its clock is at most the greatest one less the
    /// bound. Answers `None` exactly where no held event may go, and changes nothing then.
    pub fn take(&mut self) -> Option<(u64, Event)>
        ensures taken { IfSome result (λ e. self.old
            ≡ record self.new { events = e ∷ self.new.events }) }
        ensures least { IfSome result (λ e.
            Ascends (clock_at self.old.places) (e ∷ self.new.events)) }
        ensures may_go { IfSome result (λ e. may_go self.old e ≡ true) }
        ensures none { IfNone result
            (AllByRecursion (λ e. may_go self.old e ≡ false) self.old.events) }
        ensures unchanged { IfNone result (self.new ≡ self.old) }
        ensures history { (put gone : List (ℕ × Event)) → StandsFor self.old put gone
            → IfSome result (λ e. StandsFor self.new put (gone ++ e ∷ [])) }
        ensures all { (put gone : List (ℕ × Event)) → StandsFor self.old put gone
            → IfNone result (gone ≡ all_due self.old put) }
    {
        if !self.has_due() {
            return None;
        }
        match self.waiting.pop_first() {
            Some((_, event)) => Some(event),
            None => None,
        }
    }

    /// How many events are held.
    pub fn held(&self) -> usize
        ensures { result ≡ length self.now.events }
    {
        self.waiting.len()
    }

    /// Whether a held event may go: `take` then gives one.
    pub fn has_due(&self) -> bool
        ensures { result ≡ any_due self.now }
    {
        match self.waiting.first_key_value() {
            Some((turn, _)) => self.is_finished || is_due(self.high, self.late, turn.clock),
            None => false,
        }
    }
}
