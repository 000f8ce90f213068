//! Tables of successors, and whether the machine of a query has them.

ghost use Rattle.std.specs.Prelude.{◌≡◌};

use crate::machines::{Machine, accepted, event, machine_of};
use cea_determinise::table::{State, Successors};
use ceql_parser::Accepted;
use cer_base::Memory;
use cer_base::steps::{Opening, Steps};
use std::alloc::Global;
use std::marker::Brand;
use std::sync::ledger::Ledger;
use std::test::Fail;

/// One look at the table: the state, the event's type and value, the marked and the unmarked successor.
pub type Look = (State, u64, i64, Option<State>, Option<State>);

fn is_right<L: Ledger>(
    alloc: Global,
    machine: &mut Machine,
    look: &Look,
    steps: &mut Steps<L>,
) -> Result<bool, Memory> {
    let (state, ty, v, marked, unmarked) = *look;
    let event = event(alloc, ty, v)?;
    let found = machine.successors(alloc, state, &event, steps)?;
    Ok(found == Some(Successors { marked, unmarked }))
}

/// Whether the looks are right, in this order.
fn are_right<L: Ledger>(
    alloc: Global,
    machine: &mut Machine,
    looks: &[Look],
    steps: &mut Steps<L>,
) -> Result<bool, Memory> {
    for look in looks {
        if !is_right(alloc, machine, look, steps)? {
            return Ok(false);
        }
    }
    Ok(true)
}

/// Whether of the states that were met these alone accept.
fn accept_alone(machine: &Machine, accepting: &[State]) -> bool {
    for state in 0..=machine.found() {
        if machine.accepts(state) != accepting.contains(&state) {
            return false;
        }
    }
    true
}

fn agrees<L: Ledger>(
    alloc: Global,
    accepted: &Accepted,
    looks: &[Look],
    accepting: &[State],
    found: u64,
    opening: Opening,
) -> Result<bool, Fail>
    requires name { opening.name ≡ L.name }
    requires parts { opening.parts ≡ L.parts }
{
    let mut steps = Steps::<L>::start(opening);
    let mut machine = machine_of(alloc, accepted)?;
    let right = are_right(alloc, &mut machine, looks, &mut steps)?;
    Ok(right && accept_alone(&machine, accepting) && machine.found() == found)
}

/// Whether the query has exactly these successors, these accepting states, and so many states.
pub fn has_table(
    alloc: Global,
    asked: &str,
    looks: &[Look],
    accepting: &[State],
    found: u64,
    runtime: &HostRuntime,
) -> Result<bool, Fail> {
    let accepted = accepted(alloc, asked)?;
    let opening = Opening::new(runtime);
    agrees::<Brand>(alloc, &accepted, looks, accepting, found, opening)
}
