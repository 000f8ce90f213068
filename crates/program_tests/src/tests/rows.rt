//! Tables of rows: a line each for a whole call of the program.

use core_calls::calls::{done_well, resumed_well};
use std::alloc::{AllocError, Global};
use std::process::Abort;
use std::test::*;

/// Two types with a whole number each, and a stream of both.
pub const PLAIN: &str = "DECLARE EVENT A(v INT)\nDECLARE EVENT B(v INT)\nDECLARE STREAM S(A, B)\n";

/// Words that run the query file over the event file.
const RUN: &str = "run q e";

/// The note `usage` of a table.
const USAGE: &str =
    "usage: core_cli run QUERIES EVENTS [--order walk|sorted] [--compact-every N] [--max-bytes N], core_cli sample SEED COUNT, core_cli session QUERIES SCRIPT, core_cli reorder QUERIES EVENTS CLOCK LATE [--order walk|sorted] [--compact-every N] [--max-bytes N], core_cli explain QUERIES EVENTS QUERY START END [POSITION]..., core_cli save QUERIES EVENTS, core_cli resume QUERIES CHECKPOINT EVENTS [--order walk|sorted] [--compact-every N] [--max-bytes N]";

/// What a row says: the words, the lines after the query text's first ones, the formula of a query
/// that marks all, the lines of the checkpoint, those of the event file, the status, the lines of
/// the output, and the note.
#[derive(Clone, Copy)]
struct Case<'a> {
    words: &'a str,
    query: Option<&'a str>,
    formula: Option<&'a str>,
    checkpoint: Option<&'a str>,
    events: Option<&'a str>,
    status: &'a str,
    output: &'a str,
    note: &'a str,
}

/// The row of the line, whose cells are those of the columns. Where it has no such cell, the words
/// run both files, the status is 0, and there are no lines.
fn row_of<'a>(columns: &str, line: &'a str) -> Case<'a> {
    let mut row = Case {
        words: RUN,
        query: None,
        formula: None,
        checkpoint: None,
        events: None,
        status: "0",
        output: "",
        note: "",
    };
    for (column, cell) in columns.split(" | ").zip(line.split(" | ")) {
        match column {
            "words" => row.words = cell,
            "query" => row.query = Some(cell),
            "formula" => row.formula = Some(cell),
            "checkpoint" => row.checkpoint = Some(cell),
            "events" => row.events = Some(cell),
            "status" => row.status = cell,
            "output" => row.output = cell,
            "note" => row.note = cell,
            _ => {}
        }
    }
    row
}

/// The lines of the cell, which strokes part, each with its line feed.
fn push_lines(text: &mut String, cell: &str) -> Result<(), AllocError> {
    for line in cell.split(" / ") {
        text.push_str(line)?;
        text.push('\n')?;
    }
    Ok(())
}

/// The query text, which begins with these lines.
fn queries_of(alloc: Global, first: &str, row: Case<'_>) -> Result<String, AllocError> {
    let mut text = first.to_string(alloc)?;
    if let Some(query) = row.query {
        push_lines(&mut text, query)?;
    }
    if let Some(formula) = row.formula {
        text.push_str("SELECT * FROM S WHERE ")?;
        push_lines(&mut text, formula)?;
    }
    Ok(text)
}

fn lines_of(alloc: Global, cell: Option<&str>) -> Result<String, AllocError> {
    let mut text = String::new(alloc);
    if let Some(lines) = cell {
        push_lines(&mut text, lines)?;
    }
    Ok(text)
}

/// The status, a bar, the output, a bar, the note. An empty cell is no output, and no note.
fn wanted_of(alloc: Global, row: Case<'_>) -> Result<String, AllocError> {
    let mut text = format!(in alloc; "{}|", row.status)?;
    if !row.output.is_empty() {
        push_lines(&mut text, row.output)?;
    }
    text.push('|')?;
    match row.note {
        "" => {}
        "usage" => write!(text, "core: {USAGE}\n")?,
        note => write!(text, "core: {note}\n")?,
    }
    Ok(text)
}

/// What the row's words answer.
fn answers_of(
    alloc: Global,
    row: Case<'_>,
    queries: &str,
    events: &str,
    runtime: &HostRuntime,
) -> Result<String, AllocError> {
    if row.checkpoint.is_none() {
        return done_well(
            alloc,
            row.words,
            queries.as_bytes(),
            events.as_bytes(),
            runtime,
        );
    }
    let checkpoint = lines_of(alloc, row.checkpoint)?;
    resumed_well(
        alloc,
        row.words,
        queries.as_bytes(),
        checkpoint.as_bytes(),
        events.as_bytes(),
        runtime,
    )
}

/// Holds the row.
fn row_holds(
    rt: &impl Abort,
    alloc: Global,
    first: &str,
    columns: &str,
    line: &str,
    runtime: &HostRuntime,
) -> Result<(), Fail> {
    let row = row_of(columns, line);
    let queries = queries_of(alloc, first, row)?;
    let events = lines_of(alloc, row.events)?;
    let wanted = wanted_of(alloc, row)?;
    let told = answers_of(alloc, row, queries.as_str(), events.as_str(), runtime)?;
    assert_eq!(rt; told.as_str(), wanted.as_str(), "{line}");
    Ok(())
}

/// Holds each row of the table, whose first line names the columns, over query texts that begin with
/// these lines.
pub fn rows_hold(
    rt: &impl Abort,
    alloc: Global,
    first: &str,
    table: &str,
    runtime: &HostRuntime,
) -> Result<(), Fail> {
    let Some((columns, lines)) = table.split_once('\n') else {
        return Err(Fail::new("a table has no row"));
    };
    for line in lines.split('\n') {
        row_holds(rt, alloc, first, columns, line, runtime)?;
    }
    Ok(())
}

/// The output of a call that ended well and told no note, of which else nothing is given.
fn output_of(told: &str) -> Option<&str> {
    let rest = told.strip_prefix("0|")?;
    rest.strip_suffix('|')
}

/// The lines of the cell from this number on, and before that one.
fn some_lines(alloc: Global, cell: &str, from: usize, to: usize) -> Result<String, AllocError> {
    let mut text = String::new(alloc);
    for (number, line) in cell.split(" / ").enumerate() {
        if from <= number && number < to {
            text.push_str(line)?;
            text.push('\n')?;
        }
    }
    Ok(text)
}

/// What a run over the first events writes, and then what one writes over the others that goes on
/// from what `save` kept of the first.
fn in_two_parts(
    alloc: Global,
    queries: &str,
    first: &str,
    second: &str,
    runtime: &HostRuntime,
) -> Result<Option<String>, AllocError> {
    let queries = queries.as_bytes();
    let before = done_well(alloc, RUN, queries, first.as_bytes(), runtime)?;
    let kept = done_well(alloc, "save q e", queries, first.as_bytes(), runtime)?;
    let Some(checkpoint) = output_of(kept.as_str()) else {
        return Ok(None);
    };
    let after = resumed_well(
        alloc,
        "resume q c e",
        queries,
        checkpoint.as_bytes(),
        second.as_bytes(),
        runtime,
    )?;
    joined(alloc, before.as_str(), after.as_str())
}

/// The outputs of two calls, one after the other, where both ended well.
fn joined(alloc: Global, before: &str, after: &str) -> Result<Option<String>, AllocError> {
    let (Some(before), Some(after)) = (output_of(before), output_of(after)) else {
        return Ok(None);
    };
    let mut text = before.to_string(alloc)?;
    text.push_str(after)?;
    Ok(Some(text))
}

/// Holds the row where its events are cut in two after so many.
fn cut_holds(
    rt: &impl Abort,
    alloc: Global,
    queries: &str,
    events: &str,
    at: usize,
    output: &str,
    runtime: &HostRuntime,
) -> Result<(), Fail> {
    let first = some_lines(alloc, events, 0, at)?;
    let second = some_lines(alloc, events, at, usize::MAX)?;
    let told = in_two_parts(alloc, queries, first.as_str(), second.as_str(), runtime)?;
    let is_told = match told {
        Some(told) => told.as_str() == output,
        None => false,
    };
    assert!(rt; is_told, "{events} after {at}");
    Ok(())
}

/// Holds the row wherever its events are cut in two, where it is that of a run that ends well.
fn cuts_hold(
    rt: &impl Abort,
    alloc: Global,
    first: &str,
    columns: &str,
    line: &str,
    runtime: &HostRuntime,
) -> Result<(), Fail> {
    let row = row_of(columns, line);
    if row.status != "0" {
        return Ok(());
    }
    let Some(events) = row.events else {
        return Ok(());
    };
    let queries = queries_of(alloc, first, row)?;
    let output = match row.output {
        "" => String::new(alloc),
        lines => lines_of(alloc, Some(lines))?,
    };
    for at in 0..events.split(" / ").count() + 1 {
        cut_holds(
            rt,
            alloc,
            queries.as_str(),
            events,
            at,
            output.as_str(),
            runtime,
        )?;
    }
    Ok(())
}

/// Holds each row of the table that is of a run that ends well, wherever its events are cut in two:
/// what a run over the first events writes, and then what one writes that goes on from their
/// checkpoint, is the row's output.
pub fn rows_hold_in_parts(
    rt: &impl Abort,
    alloc: Global,
    first: &str,
    table: &str,
    runtime: &HostRuntime,
) -> Result<(), Fail> {
    let Some((columns, lines)) = table.split_once('\n') else {
        return Err(Fail::new("a table has no row"));
    };
    for line in lines.split('\n') {
        cuts_hold(rt, alloc, first, columns, line, runtime)?;
    }
    Ok(())
}
