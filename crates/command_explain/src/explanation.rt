//! The explanation of one complex event, as bytes.

ghost use Rattle.std.specs.Prelude.{◌≡◌, IfOk};
ghost use Rattle.std.specs.Option.{option_copied};
ghost use Rattle.cel_terms.specs.Answers.{IsAscending};
ghost use Rattle.command_explain.specs.Explanations.{AreMarksOf, query_at, told, Tells, IsExplanation};

use answer_text::{line, none, push_binding};
use cel_terms::Query;
use cer_base::{Memory, Pos};
use command_words::Question;
use match_explain::{Binding, explain};
use std::alloc::Global;
use stream_schema::{Event, Schema};

/// The positions, ascending and each once.
fn marks_of(alloc: Global, positions: &[Pos]) -> Result<Vec<Pos>, Memory>
    ensures { IfOk result (λ marks. AreMarksOf positions.now marks.items) }
{
    let mut marks = Vec::from_slice(alloc, positions)?;
    marks.sort_unstable();
    marks.dedup();
    Ok(marks)
}

/// The query of this number, from 1, where there is one.
fn query_at(queries: &[Query], number: u64) -> Option<&Query>
    ensures { option_copied result ≡ query_at queries.now number }
{
    if number == 0 {
        return None;
    }
    queries.get(number as usize - 1)
}

/// The line of the complex event, and a line for each of its names.
fn told(
    alloc: Global,
    question: &Question,
    marks: &[Pos],
    bindings: &[Binding],
) -> Result<Vec<u8>, Memory>
    ensures { IfOk result (λ text. text.items ≡ told question.now marks.now bindings.now) }
{
    let mut text = line(alloc, question.query, question.start, question.end, marks)?;
    for binding in bindings {
        push_binding(
            alloc,
            &mut text,
            binding.name.as_str(),
            binding.positions.as_slice(),
        )?;
    }
    Ok(text)
}

/// What there is to tell of the complex event with these marks.
fn telling(
    alloc: Global,
    schema: &Schema,
    queries: &[Query],
    events: &[Event],
    question: &Question,
    marks: &[Pos],
) -> Result<Vec<u8>, Memory>
    ensures { IfOk result (λ text. Tells schema.now queries.now events.now question.now marks.now
        text.items) }
{
    let Some(query) = query_at(queries, question.query) else {
        return none(alloc);
    };
    match explain(
        alloc,
        schema,
        query,
        events,
        question.start,
        question.end,
        marks,
    ) {
        Ok(Some(valuation)) => told(alloc, question, marks, valuation.as_slice()),
        Ok(None) => none(alloc),
        Err(memory) => Err(memory),
    }
}

/// What is written of the question.
pub fn explanation(
    alloc: Global,
    schema: &Schema,
    queries: &[Query],
    events: &[Event],
    question: &Question,
) -> Result<Vec<u8>, Memory>
    ensures { IfOk result (λ text. IsExplanation schema.now queries.now events.now question.now
        text.items) }
{
    let marks = marks_of(alloc, question.positions.as_slice())?;
    telling(alloc, schema, queries, events, question, marks.as_slice())
}
