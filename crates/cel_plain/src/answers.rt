//! The complex events of a query at a position.

ghost use Rattle.std.specs.Prelude.{◌≡◌, ◌==◌, IfOk, OnOk};
ghost use Rattle.std.specs.Cmp.Lexicographic.{pointwise};
ghost use Rattle.std.specs.List.{list_any};
ghost use Rattle.cel_terms.specs.Answers.{AreAnswersAt};
ghost use Rattle.cel_lists.specs.Below.{answer_of, answers_from, is_strict_enough, same_answer, with_new};

use crate::marks::{is_contiguous, marks};
use crate::matches::matches;
use crate::substream::positions;
use crate::window::is_in_window;
use cel_lists::Match;
use cel_terms::Query;
use cer_base::{Memory, Pos};
use std::alloc::Global;
use std::marker::Model;
use stream_schema::{Event, Schema};

/// A complex event without its end: where it starts, and its marked positions, ascending.
#[derive(Drop, Debug)]
pub struct ComplexEvent {
    start: Pos,
    marks: Vec<Pos>,
}

impl Model for ComplexEvent {
    ghost use Rattle.cel_terms.specs.Answers.{Answer};

    ghost Value = { Answer };

    ghost view = { λ e. record { start = e.start; marks = e.marks.items } };
}

impl ComplexEvent {
    fn new(start: Pos, marks: Vec<Pos>) -> ComplexEvent
        ensures { result ≡ record { start = start; marks = marks.items } }
    {
        ComplexEvent { start, marks }
    }

    /// The position where its interval starts, from 0 in the whole stream.
    pub fn start(&self) -> Pos
        ensures { result ≡ self.now.start }
    {
        self.start
    }

    /// The marked positions, ascending.
    pub fn marks(&self) -> &[Pos]
        ensures { result.now ≡ self.now.marks }
    {
        self.marks.as_slice()
    }
}

fn same_marks(a: &[Pos], b: &[Pos]) -> bool
    ensures { result ≡ pointwise ◌==◌ a.now b.now }
{
    a == b
}

fn same_answer(a: &ComplexEvent, b: &ComplexEvent) -> bool
    ensures { result ≡ same_answer a.now b.now }
{
    a.start() == b.start() && same_marks(a.marks(), b.marks())
}

fn has_answer(found: &[ComplexEvent], answer: &ComplexEvent) -> bool
    ensures { result ≡ list_any (same_answer answer.now) found.now }
{
    found.iter().any(|other| same_answer(answer, other))
}

fn is_strict_enough(strict: bool, positions: &[Pos], marks: &[Pos]) -> bool
    ensures { result ≡ is_strict_enough strict positions.now marks.now }
{
    !strict || is_contiguous(positions, marks)
}

/// The answer that the match gives at the end, if it gives one.
fn answer_of(
    alloc: Global,
    schema: &Schema,
    query: &Query,
    events: &[Event],
    positions: &[Pos],
    end: Pos,
    found: &Match,
) -> Result<Option<ComplexEvent>, Memory>
    ensures { IfOk result (λ answer. answer
        ≡ answer_of schema.now query.now events.now positions.now end found.now) }
{
    let marks = marks(alloc, &query.select, events, found.bounds.as_slice())?;
    if found.end == end
        && is_in_window(schema, &query.window, events, found.start, end)
        && is_strict_enough(query.strict, positions, marks.as_slice())
    {
        Ok(Some(ComplexEvent::new(found.start, marks)))
    } else {
        Ok(None)
    }
}

/// Puts the answer at the end where it is not among them yet.
fn add_new(found: &mut Vec<ComplexEvent>, answer: Option<ComplexEvent>) -> Result<(), Memory>
    ensures { OnOk result (found.new.items ≡ with_new found.old.items answer) }
{
    match answer {
        Some(answer) => {
            if !has_answer(found.as_slice(), &answer) {
                found.push(answer)?;
            }
        }
        None => {}
    }
    Ok(())
}

/// The answers of the matches at the end, each once.
fn answers_from(
    alloc: Global,
    schema: &Schema,
    query: &Query,
    events: &[Event],
    positions: &[Pos],
    end: Pos,
    found: &[Match],
) -> Result<Vec<ComplexEvent>, Memory>
    ensures { IfOk result (λ answers. answers.items
        ≡ answers_from schema.now query.now events.now positions.now end found.now) }
{
    let mut answers = Vec::new(alloc);
    for one in found {
        let answer = answer_of(alloc, schema, query, events, positions, end, one)?;
        add_new(&mut answers, answer)?;
    }
    Ok(answers)
}

/// The complex events that the query has at the end, each once: exactly its answers there, in no
/// order that is promised. How many ANY asks for changes nothing here.
pub fn answers(
    alloc: Global,
    schema: &Schema,
    query: &Query,
    events: &[Event],
    end: Pos,
) -> Result<Vec<ComplexEvent>, Memory>
    ensures { IfOk result (λ answers.
        AreAnswersAt schema.now query.now events.now end answers.items) }
{
    let positions = positions(alloc, schema, query, events, end)?;
    let found = matches(alloc, schema, events, positions.as_slice(), &query.formula)?;
    answers_from(
        alloc,
        schema,
        query,
        events,
        positions.as_slice(),
        end,
        found.as_slice(),
    )
}
