//! A query's conditions and its determinised automaton, made from its text.

ghost use Rattle.std.specs.Prelude.{◌≡◌, ◌≤◌, length, IfOk};

use cea_compile::compile;
use cea_determinise::lazy_dfa::LazyDfa;
use cea_determinise::table::{State, Successors};
use cel_terms::Query;
use ceql_parser::{Accepted, read_queries};
use cer_base::seed::Seed;
use cer_base::steps::Steps;
use cer_base::{Listed, Memory};
use predicate_bits::Conditions;
use query_leaves::leaves_of;
use std::alloc::Global;
use std::marker::Model;
use std::sync::ledger::Ledger;
use std::test::Fail;
use stream_schema::{Event, Schema, Value};

/// Declares the types A(v INT) and B(v INT), and the stream of both.
const DECLARED: &str = "DECLARE EVENT A(v INT) DECLARE EVENT B(v INT) DECLARE STREAM S(A, B) ";

/// The types, and the query that is asked of them.
pub fn accepted(alloc: Global, asked: &str) -> Result<Accepted, Fail> {
    let text = format!(in alloc; "{DECLARED}{asked}")?;
    Ok(read_queries(alloc, text.as_bytes())?)
}

/// An event of type A (0) or B (1) with this value.
pub fn event(alloc: Global, ty: u64, v: i64) -> Result<Event, Memory> {
    let mut values = Vec::new(alloc);
    values.push(Value::Int(v))?;
    Ok(Event {
        ty,
        values: Listed::of(values),
    })
}

/// What takes the events of a query: its conditions and its automaton, of as many leaves. Seen as the
/// number of its leaves.
#[derive(Drop)]
pub struct Machine {
    conditions: Conditions,
    lazy_dfa: LazyDfa,
}

impl Model for Machine {
    ghost use Rattle.std.specs.Prelude.{◌≡◌, ℕ, length};

    ghost Value = { ℕ };

    ghost view = { λ m. length m.conditions };

    ghost invariant = { λ m. length m.conditions ≡ m.lazy_dfa.cea.size };
}

impl Machine {
    /// The machine of the query, with no state met yet.
    pub fn of(alloc: Global, schema: &Schema, query: &Query) -> Result<Machine, Memory> {
        let leaves = leaves_of(alloc, schema, query)?;
        let lazy_dfa = LazyDfa::new(alloc, Seed::default(), compile(alloc, &leaves)?);
        let conditions = Conditions::of(alloc, leaves.list)?;
        Ok(Machine {
            conditions,
            lazy_dfa,
        })
    }

    /// How many states other than the start were met.
    pub fn found(&self) -> u64 {
        self.lazy_dfa.found()
    }

    /// Whether there is such a state and it accepts.
    pub fn accepts(&self, state: State) -> bool {
        state <= self.lazy_dfa.found() && self.lazy_dfa.accepts(state)
    }

    /// The successors of the state on the event, None where there is no such state.
    pub fn successors<L: Ledger>(
        &mut self,
        alloc: Global,
        state: State,
        event: &Event,
        steps: &mut Steps<L>,
    ) -> Result<Option<Successors>, Memory> {
        if state > self.lazy_dfa.found() {
            return Ok(None);
        }
        let mut bits = self.conditions.blank(alloc)?;
        self.conditions.fill(event, &mut bits);
        let event_class = self.lazy_dfa.event_class(&bits, steps)?;
        Ok(Some(self.lazy_dfa.next(state, event_class, steps)?))
    }
}

/// The machine of the query that is asked, with no state met yet.
pub fn machine_of(alloc: Global, accepted: &Accepted) -> Result<Machine, Fail> {
    match accepted.queries.as_slice().first() {
        Some(query) => Ok(Machine::of(alloc, &accepted.schema, query)?),
        None => Err(Fail::new("no query")),
    }
}
