//! What types tell of a query, which queries share that name the same streams and attributes: it is as
//! long as there are types.

ghost use Rattle.std.specs.Prelude.{◌≡◌, true, None, All, IfOk, IfSome};
ghost use Rattle.window_clock.specs.Places.{IsOf, NameOneAttribute};
ghost use Rattle.query_state.specs.KeyPlaces.{AreKeyPlaces};
ghost use Rattle.query_state.specs.QueryStates.{AreTypesRead, IsFirstClock, CanShare, texts_of};

use crate::QueryState;
use crate::reading::{Places, key_places};
use crate::types::types_read;
use cel_terms::{Name, Query, Window};
use cer_base::Memory;
use std::alloc::Global;
use std::sync::Arc;
use stream_schema::Schema;
use window_clock::Clock;

/// Whether both names have the same text.
fn same_name(one: &Name, other: &Name) -> bool
    ensures { result ≡ true → one.now.text ≡ other.now.text }
{
    one.text.as_str() == other.text.as_str()
}

/// Whether the names have the same texts, in the same order.
fn same_names(one: &[Name], other: &[Name]) -> bool
    ensures { result ≡ true → texts_of one.now ≡ texts_of other.now }
{
    if one.len() != other.len() {
        return false;
    }
    for k in 0..one.len() {
        if !same_name(&one[k], &other[k]) {
            return false;
        }
    }
    true
}

/// Whether both windows are on one attribute.
fn on_one_attribute(one: &Window, other: &Window) -> bool
    ensures { result ≡ true → NameOneAttribute one.now other.now }
{
    match (one, other) {
        (Window::Clock(first, _), Window::Clock(second, _)) => same_name(first, second),
        _ => false,
    }
}

/// The table, to be shared.
fn shared<T: Drop>(alloc: Global, table: Vec<T>) -> Result<Arc<Vec<T>>, Memory>
    ensures { IfOk result (λ rc. rc.value.items ≡ table.items) }
{
    match Arc::new(alloc, table) {
        Ok(rc) => Ok(rc),
        Err(_) => Err(Memory),
    }
}

/// For each type whether the query reads it. Where another one is over the same streams, it is as that
/// one has it.
pub fn types_of(
    alloc: Global,
    schema: &Schema,
    query: &Query,
    others: &[QueryState],
) -> Result<Arc<Vec<bool>>, Memory>
    requires { All (λ p. p.schema ≡ schema.now) others.now }
    ensures { IfOk result (λ table. AreTypesRead schema.now query.now table.value.items) }
{
    for k in 0..others.len() {
        let other = &others[k];
        if same_names(other.query().streams.as_slice(), query.streams.as_slice()) {
            return Ok(other.types()?);
        }
    }
    shared(alloc, types_read(alloc, schema, query)?)
}

/// For each type the places of the query's partition attributes. Where another one is partitioned by the
/// same ones, they are as that one has them.
pub fn keys_of(
    alloc: Global,
    schema: &Schema,
    query: &Query,
    others: &[QueryState],
) -> Result<Arc<Vec<Option<Places>>>, Memory>
    requires { All (λ p. p.schema ≡ schema.now) others.now }
    ensures { IfOk result (λ table. AreKeyPlaces schema.now query.now table.value.items) }
{
    for k in 0..others.len() {
        let other = &others[k];
        if same_names(
            other.query().partition.as_slice(),
            query.partition.as_slice(),
        ) {
            return Ok(other.keys()?);
        }
    }
    shared(alloc, key_places(alloc, schema, query)?)
}

/// The query's clock before any event, as another one makes it whose window is on the same attribute.
fn clock_shared(
    schema: &Schema,
    query: &Query,
    others: &[QueryState],
) -> Result<Option<Clock>, Memory>
    requires { CanShare schema.now query.now.window others.now }
    ensures { IfOk result (λ o. IfSome o (IsFirstClock schema.now query.now.window)) }
{
    for k in 0..others.len() {
        let other = &others[k];
        if on_one_attribute(&other.query().window, &query.window) {
            return other.clock_of(&query.window);
        }
    }
    Ok(None)
}

/// The query's clock before any event.
pub fn clock_of(
    alloc: Global,
    schema: &Schema,
    query: &Query,
    others: &[QueryState],
) -> Result<Clock, Memory>
    requires { CanShare schema.now query.now.window others.now }
    ensures { IfOk result (IsFirstClock schema.now query.now.window) }
{
    match clock_shared(schema, query, others)? {
        Some(clock) => Ok(clock),
        None => Clock::of(alloc, schema, query),
    }
}
