//! Why a complex event is an answer.

ghost use Rattle.std.specs.Prelude.{◌≡◌, ◌<◌, ◌&&◌, ◌↔◌, All, IfOk, IfSome, IfNone, IsTrue, length, is_some, true};
ghost use Rattle.std.specs.List.{list_all};
ghost use Rattle.cel_terms.specs.Answers.{IsAnswer, IsAscending};
ghost use Rattle.cea_determinise.specs.Runs.{has_mark};
ghost use Rattle.match_explain.specs.Explains.{Explains};
ghost use Rattle.match_explain.specs.Spans.{MayBe};
ghost use Rattle.match_explain.specs.Searching.{IsRun, HasNoRun};

use crate::Valuation;
use crate::bindings::bindings_of;
use crate::leaf_names::leaf_names;
use crate::spans::{ascends, from_to, is_strict_enough, lists, lists_all};
use crate::turns::turns_of;
use crate::walking::{Step, run_over};
use cea_compile::compile;
use cel_plain::substream::positions;
use cel_plain::window::is_in_window;
use cel_terms::Query;
use cer_base::{Listed, Memory, Pos};
use predicate_bits::Conditions;
use query_leaves::leaves_of;
use std::alloc::Global;
use stream_schema::{Event, Schema};

/// Whether the ends and the marks are of the span.
fn lies_within(span: &[Pos], start: Pos, end: Pos, marks: &[Pos]) -> bool
    requires { IsAscending span.now }
    ensures { result ≡ (has_mark span.now start
        && (has_mark span.now end && list_all (has_mark span.now) marks.now)) }
{
    lists(span, start) && lists(span, end) && lists_all(span, marks)
}

/// Whether the complex event has all that it needs besides a run.
fn may_be(
    schema: &Schema,
    query: &Query,
    events: &[Event],
    start: Pos,
    end: Pos,
    span: &[Pos],
    marks: &[Pos],
) -> bool
    requires { IsAscending span.now }
    ensures yes { result ≡ true
        → MayBe schema.now query.now events.now start end span.now marks.now }
    ensures no { MayBe schema.now query.now events.now start end span.now marks.now
        → result ≡ true }
{
    ascends(marks)
        && is_in_window(schema, &query.window, events, start, end)
        && lies_within(span, start, end, marks)
        && is_strict_enough(query.strict, span, marks)
}

/// The steps of a run of the query's leaves over the span that marks exactly the marks, and none
/// exactly where there is no run.
fn run(
    alloc: Global,
    schema: &Schema,
    query: &Query,
    events: &[Event],
    span: &[Pos],
    marks: &[Pos],
) -> Result<Option<Vec<Step>>, Memory>
    requires there { All (λ p. p < length events.now) span.now }
    requires ascending { IsAscending marks.now }
    ensures found { IfOk result (λ r.
        IfSome r (λ steps. IsRun schema.now query.now events.now span.now marks.now steps.items)) }
    ensures none { IfOk result (λ r.
        IfNone r (HasNoRun schema.now query.now events.now span.now marks.now)) }
{
    let leaves = leaves_of(alloc, schema, query)?;
    let cea = compile(alloc, &leaves)?;
    let conditions = Conditions::of(alloc, leaves.list)?;
    let turns = turns_of(alloc, &conditions, &cea.marked, events, span, marks)?;
    run_over(alloc, &cea, turns.as_slice())
}

/// A valuation of the query's formula that makes the complex event an answer: by which events, under
/// which names, it came about. The complex event spans the positions from the start to the end, each
/// from 0 in the whole stream, and `marks` are its marked positions.
///
/// Given are the names whose sets are not empty, ascending by their bytes, each with its positions,
/// ascending, also those that SELECT leaves out. Which of several valuations is given is free. None
/// is given exactly where the complex event is no answer of the query at the end, as where there is
/// no such event, or the marks do not ascend. How many answers ANY asks for changes nothing here.
///
/// The only error is that memory ran out. The time is that of a key for each event, and of each
/// leaf for each event of the substream from the start to the end.
pub fn explain(
    alloc: Global,
    schema: &Schema,
    query: &Query,
    events: &[Event],
    start: Pos,
    end: Pos,
    marks: &[Pos],
) -> Result<Option<Valuation>, Memory>
    ensures explains { IfOk result (λ r.
        IfSome r (Explains schema.now query.now events.now start end marks.now)) }
    ensures exactly { IfOk result (λ r. IsTrue (is_some r)
        ↔ IsAnswer schema.now query.now events.now end (record {
          start = start;
          marks = marks.now;
        })) }
{
    let substream = positions(alloc, schema, query, events, end)?;
    let span = from_to(alloc, start, end, substream.as_slice())?;
    if !may_be(schema, query, events, start, end, span.as_slice(), marks) {
        return Ok(None);
    }
    match run(alloc, schema, query, events, span.as_slice(), marks)? {
        Some(steps) => {
            let leaves = leaf_names(alloc, &query.formula)?;
            let bindings = bindings_of(alloc, leaves.as_slice(), steps.as_slice())?;
            Ok(Some(Listed::of(bindings)))
        }
        None => Ok(None),
    }
}
