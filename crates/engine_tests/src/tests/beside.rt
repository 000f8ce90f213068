//! The engine beside the definition, which `cel_plain` computes, over queries and events by chance.

use super::generator::{DECLARATIONS, lines, query};
use crate::rows::{CaseFault, answers_after_each, engine_of, write_answer};
use cel_plain::answers::{ComplexEvent, answers};
use cel_terms::Query;
use ceql_parser::read_queries;
use cer_base::steps::Opening;
use event_reader::read_event;
use rand_pcg::Pcg32;
use std::alloc::{AllocError, Global};
use std::marker::Brand;
use std::process::Abort;
use std::test::*;
use stream_schema::{Event, Schema};

/// How many queries are run.
const QUERIES: u64 = 200;

/// The event of the line.
fn event_of(alloc: Global, schema: &Schema, line: &[u8]) -> Result<Event, CaseFault> {
    if line.contains(&b'\n') {
        return Err(CaseFault::Line);
    }
    match read_event(alloc, schema, line) {
        Ok(Some(event)) => Ok(event),
        _ => Err(CaseFault::Line),
    }
}

/// The events of the lines.
fn events_of(alloc: Global, schema: &Schema, lines: &[u8]) -> Result<Vec<Event>, CaseFault> {
    let mut events = Vec::new(alloc);
    for line in lines.split(|b| *b == b';') {
        events.push(event_of(alloc, schema, line)?)?;
    }
    Ok(events)
}

/// Writes the answer: where it starts, and its positions, greatest first.
fn write_one(alloc: Global, answer: &ComplexEvent, text: &mut String) -> Result<(), CaseFault> {
    let mut marks = Vec::from_slice(alloc, answer.marks())?;
    marks.as_mut_slice().reverse();
    write_answer(answer.start(), marks.as_slice(), text)
}

/// Writes the answers that the query has at the end by the definition.
fn write_defined(
    alloc: Global,
    schema: &Schema,
    query: &Query,
    events: &[Event],
    end: u64,
    text: &mut String,
) -> Result<(), CaseFault> {
    let found = answers(alloc, schema, query, events, end)?;
    for answer in &found {
        write_one(alloc, answer, text)?;
    }
    Ok(())
}

/// Writes the answers after each event by the definition, with a stroke after those of one event.
fn write_each(
    alloc: Global,
    schema: &Schema,
    queries: &[Query],
    events: &[Event],
    text: &mut String,
) -> Result<(), CaseFault> {
    for end in 0..events.len() {
        for query in queries {
            write_defined(alloc, schema, query, events, end as u64, text)?;
        }
        text.push_str("/ ")?;
    }
    Ok(())
}

/// The answers after each event of the lines by the definition.
fn defined_under(
    alloc: Global,
    schema: &Schema,
    queries: &[Query],
    lines: &[u8],
) -> Result<String, CaseFault> {
    let events = events_of(alloc, schema, lines)?;
    let mut text = String::new(alloc);
    write_each(alloc, schema, queries, events.as_slice(), &mut text)?;
    Ok(text)
}

/// What the definition finds after each line, under the declarations of the text and for its queries.
fn defined_after_each(alloc: Global, text: &str, lines: &[u8]) -> Result<String, CaseFault> {
    match read_queries(alloc, text.as_bytes()) {
        Ok(accepted) => defined_under(alloc, &accepted.schema, accepted.queries.as_slice(), lines),
        Err(_) => Err(CaseFault::Query),
    }
}

/// Adds the answers of one event, sorted.
fn push_sorted(alloc: Global, answers: &str, text: &mut String) -> Result<(), AllocError> {
    let mut of_event: Vec<&str> = answers.split_whitespace().collect(alloc)?;
    of_event.sort()?;
    for answer in of_event.as_slice() {
        text.push_str(answer)?;
        text.push(' ')?;
    }
    text.push_str("/ ")
}

/// The answers after each event, those of one event sorted.
fn sorted(alloc: Global, answers: &str) -> Result<String, AllocError> {
    let mut text = String::new(alloc);
    for part in answers.split('/') {
        push_sorted(alloc, part, &mut text)?;
    }
    Ok(text)
}

/// What the engine finds after each line.
fn found_after_each(
    alloc: Global,
    text: &str,
    lines: &[u8],
    runtime: &HostRuntime,
) -> Result<String, CaseFault> {
    let mut engine = engine_of(alloc, text)?;
    answers_after_each::<Brand>(alloc, &mut engine, lines, Opening::new(runtime))
}

/// A query over some lines.
#[derive(Drop)]
struct Case {
    query: String,
    lines: String,
}

fn next_row(alloc: Global, random: &mut Pcg32) -> Result<Case, AllocError> {
    Ok(Case {
        query: query(alloc, random)?,
        lines: lines(alloc, random)?,
    })
}

fn sorted_found(
    alloc: Global,
    text: &str,
    lines: &[u8],
    runtime: &HostRuntime,
) -> Result<String, CaseFault> {
    let found = found_after_each(alloc, text, lines, runtime)?;
    Ok(sorted(alloc, found.as_str())?)
}

fn sorted_defined(alloc: Global, text: &str, lines: &[u8]) -> Result<String, CaseFault> {
    let defined = defined_after_each(alloc, text, lines)?;
    Ok(sorted(alloc, defined.as_str())?)
}

fn count_answers(answers: &str) -> usize {
    let mut count: usize = 0;
    for byte in answers.bytes() {
        if byte == b'{' {
            count = count.saturating_add(1);
        }
    }
    count
}

/// Holds the answers that the engine finds against those by the definition, and says how many there are.
fn row_holds(
    rt: &impl Abort,
    alloc: Global,
    row: &Case,
    runtime: &HostRuntime,
) -> Result<usize, Fail> {
    let text = format!(in alloc; "{DECLARATIONS}{}", row.query)?;
    let found = sorted_found(alloc, text.as_str(), row.lines.as_bytes(), runtime)?;
    let wanted = sorted_defined(alloc, text.as_str(), row.lines.as_bytes())?;
    assert_eq!(rt;
        found.as_str(),
        wanted.as_str(),
        "{} over {}",
        row.query,
        row.lines
    );
    Ok(count_answers(wanted.as_str()))
}

/// The same answers at each position, each as often. There are many answers in all.
#[test]
fn the_engine_answers_as_the_definition_says(rt: HostRuntime) -> Result<(), Fail> {
    let mut random = Pcg32::new(2021, 7);
    let mut count: usize = 0;
    for _ in 0..QUERIES {
        let row = next_row(rt.alloc(), &mut random)?;
        count = count.saturating_add(row_holds(&rt, rt.alloc(), &row, &rt)?);
    }
    assert!(rt; count > 300, "only {count} answers");
    Ok(())
}
