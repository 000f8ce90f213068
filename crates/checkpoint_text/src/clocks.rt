//! The clocks of the queries along events.

ghost use Rattle.std.specs.Prelude.{◌≡◌, ◌+ℤ◌, int_lt, length, map, false, Some, None, IfOk, IfNone};
ghost use Rattle.checkpoint_text.specs.QueryClocks.{clock_at, later_clock, is_back};
ghost use Rattle.checkpoint_text.specs.LastClocks.{any_back, fall_of, first_back, next_clocks};
ghost use Rattle.checkpoint_text.specs.Keeping.{is_within, are_within, any_needs};

use crate::EventAt;
use cel_terms::reading::query_reads;
use cel_terms::{Query, Window};
use cer_base::{Memory, Pos};
use std::alloc::Global;
use stream_schema::{Event, Schema};
use window_clock::plain::clock_of;

/// The event's clock, where the query reads it.
fn clock_at(schema: &Schema, query: &Query, event: &Event, position: Pos) -> Option<i128>
    ensures { result ≡ clock_at schema.now query.now
        (record { position = position; event = event.now }) }
{
    if query_reads(schema, query, event) {
        clock_of(schema, &query.window, event, position)
    } else {
        None
    }
}

/// Whether both are there, and the second is below the first.
fn is_back(last: Option<i128>, now: Option<i128>) -> bool
    ensures { result ≡ is_back last now }
{
    match (last, now) {
        (Some(before), Some(now)) => now < before,
        _ => false,
    }
}

fn later_clock(last: Option<i128>, now: Option<i128>) -> Option<i128>
    ensures { result ≡ later_clock last now }
{
    match now {
        Some(now) => Some(now),
        None => last,
    }
}

/// Whether the clock of some query falls with the event, the last clocks being these.
pub fn any_back(
    schema: &Schema,
    queries: &[Query],
    lasts: &[Option<i128>],
    event: &Event,
    position: Pos,
) -> bool
    requires { length lasts.now ≡ length queries.now }
    ensures { result ≡ any_back schema.now queries.now lasts.now
        (record { position = position; event = event.now }) }
{
    for k in 0..queries.len() {
        if is_back(lasts[k], clock_at(schema, &queries[k], event, position)) {
            return true;
        }
    }
    false
}

/// How the clock of a query falls: the query's number, from 1, its last clock, and that of the event.
#[derive(Drop, Clone, Copy, PartialEq, Eq)]
pub struct Fall {
    pub query: u64,
    pub before: i128,
    pub now: i128,
}

/// How the clock of the query of this number falls, where it does.
fn fall_of(query: u64, last: Option<i128>, now: Option<i128>) -> Option<Fall>
    ensures fall { result ≡ fall_of query last now }
    ensures none { IfNone result (is_back last now ≡ false) }
{
    match (last, now) {
        (Some(before), Some(now)) => {
            if now < before {
                Some(Fall { query, before, now })
            } else {
                None
            }
        }
        _ => None,
    }
}

/// How the clock of a query falls with the event, of the least such query, the last clocks being
/// these.
pub fn first_back(
    schema: &Schema,
    queries: &[Query],
    lasts: &[Option<i128>],
    event: &Event,
    position: Pos,
) -> Option<Fall>
    requires { length lasts.now ≡ length queries.now }
    ensures first { result ≡ first_back schema.now 1 queries.now lasts.now
        (record { position = position; event = event.now }) }
    ensures none { IfNone result (any_back schema.now queries.now lasts.now
        (record { position = position; event = event.now }) ≡ false) }
{
    for k in 0..queries.len() {
        let now = clock_at(schema, &queries[k], event, position);
        if let Some(fall) = fall_of(k as u64 + 1, lasts[k], now) {
            return Some(fall);
        }
    }
    None
}

/// The last clocks with the event, where they were these before.
pub fn next_clocks(
    alloc: Global,
    schema: &Schema,
    queries: &[Query],
    lasts: &[Option<i128>],
    event: &Event,
    position: Pos,
) -> Result<Vec<Option<i128>>, Memory>
    requires { length lasts.now ≡ length queries.now }
    ensures { IfOk result (λ clocks. clocks.items ≡ next_clocks schema.now queries.now lasts.now
        (record { position = position; event = event.now })) }
{
    let mut clocks = Vec::new(alloc);
    for k in 0..queries.len() {
        clocks.push(later_clock(lasts[k], clock_at(schema, &queries[k], event, position)))?;
    }
    Ok(clocks)
}

/// The last clocks of the queries before any event.
#[tactic(auto, using(crate::proofs::Falling::none_yet))]
pub fn no_clocks(alloc: Global, queries: &[Query]) -> Result<Vec<Option<i128>>, Memory>
    ensures { IfOk result (λ clocks. clocks.items ≡ map (λ q. None) queries.now) }
{
    Ok(vec![in alloc; None; queries.len()]?)
}

/// Whether the number that is so much above the first is below the last.
fn is_past(from: i128, width: i128, last: i128) -> bool
    ensures { result ≡ int_lt (from +ℤ width) last }
{
    match from.checked_add(width) {
        Some(bound) => bound < last,
        None => width < 0,
    }
}

/// Whether a start with the first clock is in the window of an event with the last.
fn is_within(window: &Window, from: i128, last: i128) -> bool
    ensures { result ≡ is_within window.now from last }
{
    match window {
        Window::Free => true,
        Window::Events(n) => !is_past(from, i128::from(*n), last),
        Window::Clock(_, n) => !is_past(from, *n, last),
    }
}

fn are_within(window: &Window, from: Option<i128>, last: Option<i128>) -> bool
    ensures { result ≡ are_within window.now from last }
{
    match from {
        Some(from) => match last {
            Some(last) => is_within(window, from, last),
            None => true,
        },
        None => false,
    }
}

/// Whether some query needs the event, the last clocks being these.
pub fn any_needs(schema: &Schema, queries: &[Query], lasts: &[Option<i128>], at: &EventAt) -> bool
    requires { length lasts.now ≡ length queries.now }
    ensures { result ≡ any_needs schema.now queries.now lasts.now at.now }
{
    for k in 0..queries.len() {
        let from = clock_at(schema, &queries[k], &at.event, at.position);
        if are_within(&queries[k].window, from, lasts[k]) {
            return true;
        }
    }
    false
}
