//! Runs of a query's machine, beside the plain evaluator's answers.

ghost use Rattle.std.specs.Prelude.{◌≡◌};

use crate::machines::{Machine, accepted, event, machine_of};
use cea_determinise::table::State;
use cel_plain::answers::{ComplexEvent, answers};
use ceql_parser::Accepted;
use cer_base::Memory;
use cer_base::steps::{Opening, Steps};
use std::alloc::Global;
use std::marker::Brand;
use std::sync::ledger::Ledger;
use std::test::Fail;
use stream_schema::Event;

/// The state after the event, None where there is none.
fn successor_on<L: Ledger>(
    alloc: Global,
    machine: &mut Machine,
    state: State,
    event: &Event,
    is_marked: bool,
    steps: &mut Steps<L>,
) -> Result<Option<State>, Memory> {
    match machine.successors(alloc, state, event, steps)? {
        Some(found) if is_marked => Ok(found.marked),
        Some(found) => Ok(found.unmarked),
        None => Ok(None),
    }
}

/// Whether the run over the events from the start to the end accepts, those at the marks marked.
fn is_accepted<L: Ledger>(
    alloc: Global,
    machine: &mut Machine,
    events: &[Event],
    span: (usize, usize),
    marks: &[u64],
    steps: &mut Steps<L>,
) -> Result<bool, Memory> {
    let mut state = 0;
    for p in span.0..events.len() {
        if p > span.1 {
            break;
        }
        let is_marked = marks.contains(&(p as u64));
        match successor_on(alloc, machine, state, &events[p], is_marked, steps)? {
            Some(number) => state = number,
            None => return Ok(false),
        }
    }
    Ok(machine.accepts(state))
}

fn is_odd(number: u64) -> bool {
    number % 2 == 1
}

fn half(number: u64) -> u64 {
    number / 2
}

/// The positions of the span whose bits are set, the first position's lowest.
fn marks_of(alloc: Global, span: (usize, usize), mask: u64) -> Result<Vec<u64>, Memory> {
    let mut marks = Vec::new(alloc);
    let mut left = mask;
    for p in span.0..=span.1.min(1_000) {
        if is_odd(left) {
            marks.push(p as u64)?;
        }
        left = half(left);
    }
    Ok(marks)
}

fn has_answer(answers: &[ComplexEvent], start: u64, marks: &[u64]) -> bool {
    for answer in answers {
        if answer.start() == start && answer.marks() == marks {
            return true;
        }
    }
    false
}

/// Whether each run over the span is accepted exactly where its marks are an answer's.
fn agree_over<L: Ledger>(
    alloc: Global,
    machine: &mut Machine,
    events: &[Event],
    span: (usize, usize),
    answers: &[ComplexEvent],
    steps: &mut Steps<L>,
) -> Result<bool, Memory> {
    for mask in 0..16 {
        let marks = marks_of(alloc, span, mask)?;
        let is_answer = has_answer(answers, span.0 as u64, marks.as_slice());
        if is_accepted(alloc, machine, events, span, marks.as_slice(), steps)? != is_answer {
            return Ok(false);
        }
    }
    Ok(true)
}

/// The answers agree from each start to this end.
fn agree_to<L: Ledger>(
    alloc: Global,
    machine: &mut Machine,
    events: &[Event],
    end: usize,
    answers: &[ComplexEvent],
    steps: &mut Steps<L>,
) -> Result<bool, Memory> {
    for start in 0..=end.min(1_000) {
        if !agree_over(alloc, machine, events, (start, end), answers, steps)? {
            return Ok(false);
        }
    }
    Ok(true)
}

/// The answers agree to each end.
fn agree_to_each<L: Ledger>(
    alloc: Global,
    machine: &mut Machine,
    accepted: &Accepted,
    events: &[Event],
    steps: &mut Steps<L>,
) -> Result<bool, Memory> {
    for query in accepted.queries.as_slice() {
        for end in 0..events.len() {
            let answers = answers(alloc, &accepted.schema, query, events, end as u64)?;
            if !agree_to(alloc, machine, events, end, answers.as_slice(), steps)? {
                return Ok(false);
            }
        }
    }
    Ok(true)
}

fn agree<L: Ledger>(
    alloc: Global,
    accepted: &Accepted,
    events: &[Event],
    opening: Opening,
) -> Result<bool, Fail>
    requires name { opening.name ≡ L.name }
    requires parts { opening.parts ≡ L.parts }
{
    let mut steps = Steps::<L>::start(opening);
    let mut machine = machine_of(alloc, accepted)?;
    Ok(agree_to_each(alloc, &mut machine, accepted, events, &mut steps)?)
}

/// Events of these types and values.
fn events(alloc: Global, given: &[(u64, i64)]) -> Result<Vec<Event>, Memory> {
    let mut list = Vec::new(alloc);
    for (ty, v) in given {
        list.push(event(alloc, *ty, *v)?)?;
    }
    Ok(list)
}

/// Whether, on these events of types A (0) and B (1), at most four, every run of the query's machine
/// from every start to every end with every choice of marks is accepted exactly where it is an answer.
pub fn runs_are_answers(
    alloc: Global,
    asked: &str,
    given: &[(u64, i64)],
    runtime: &HostRuntime,
) -> Result<bool, Fail> {
    let accepted = accepted(alloc, asked)?;
    let events = events(alloc, given)?;
    agree::<Brand>(alloc, &accepted, events.as_slice(), Opening::new(runtime))
}

fn count_on<L: Ledger>(
    alloc: Global,
    machine: &mut Machine,
    event: &Event,
    steps: &mut Steps<L>,
) -> Result<(u64, u64), Memory> {
    let mut state = 0;
    let mut accepting: u64 = 0;
    for taken in 0..100 {
        match successor_on(alloc, machine, state, event, true, steps)? {
            Some(number) => state = number,
            None => return Ok((taken, accepting)),
        }
        if machine.accepts(state) {
            accepting = accepting.saturating_add(1);
        }
    }
    Ok((100, accepting))
}

fn counted<L: Ledger>(
    alloc: Global,
    accepted: &Accepted,
    opening: Opening,
) -> Result<(u64, u64), Fail>
    requires name { opening.name ≡ L.name }
    requires parts { opening.parts ≡ L.parts }
{
    let mut steps = Steps::<L>::start(opening);
    let mut machine = machine_of(alloc, accepted)?;
    let event = event(alloc, 0, 1)?;
    Ok(count_on(alloc, &mut machine, &event, &mut steps)?)
}

/// How many events of type A are taken as marked, each at the state before, at most 100, and how many
/// of their states accept.
pub fn taken(alloc: Global, asked: &str, runtime: &HostRuntime) -> Result<(u64, u64), Fail> {
    let accepted = accepted(alloc, asked)?;
    counted::<Brand>(alloc, &accepted, Opening::new(runtime))
}
