//! Whether the clock of some query would fall, told from the events that came before.

ghost use Rattle.std.specs.Prelude.{◌≡◌, ℕ, Some, IfSome, IfNone, option_map};
ghost use Rattle.query_engine.specs.Clocks.{NoneFallsBack};
ghost use Rattle.query_engine.specs.Falls.{last_clock, fall_of};
ghost use Rattle.event_run.specs.Runs.{StopsInTime};
ghost use Rattle.event_run.specs.Runs as stop;
ghost use Rattle.event_run.specs.Listing.{as_fall};

use cel_terms::Query;
use cel_terms::reading::query_reads;
use event_reader::EventFault;
use stream_schema::{Event, Schema};
use window_clock::plain::clock_of;

/// The clock would fall: the last one that was seen, and that of the event.
#[derive(Drop, Clone, Copy)]
pub struct Fallen {
    pub before: i128,
    pub now: i128,
}

/// The clock of the last event that the query reads.
fn last_clock(schema: &Schema, query: &Query, events: &[Event]) -> Option<i128>
    ensures { result ≡ last_clock schema.now query.now events.now }
{
    let mut behind = events.len();
    while behind > 0 {
        behind -= 1;
        let event = &events[behind];
        if query_reads(schema, query, event) {
            return clock_of(schema, &query.window, event, behind as u64);
        }
    }
    None
}

/// How the query's clock would fall with the event as the next one, if it would.
fn fall_of(schema: &Schema, query: &Query, events: &[Event], event: &Event) -> Option<Fallen>
    ensures { option_map as_fall result ≡ fall_of schema.now query.now events.now event.now }
{
    if !query_reads(schema, query, event) {
        return None;
    }
    let now = clock_of(schema, &query.window, event, events.len() as u64)?;
    let before = last_clock(schema, query, events)?;
    if now < before {
        return Some(Fallen { before, now });
    }
    None
}

/// The fault of the first of the queries whose clock would fall with the event as the next one.
///
/// Only where a query reads the event it looks back, and no further than to the last event that the
/// query reads: over a whole file, once for each query at every event.
pub fn first_fall(
    schema: &Schema,
    queries: &[Query],
    events: &[Event],
    event: &Event,
) -> Option<EventFault>
    ensures falls { (number : ℕ) → IfSome result (λ fault. StopsInTime schema.now queries.now
        events.now event.now number (stop.Event number fault)) }
    ensures none { IfNone result (NoneFallsBack schema.now queries.now events.now event.now) }
{
    for k in 0..queries.len() {
        if let Some(fall) = fall_of(schema, &queries[k], events, event) {
            return Some(EventFault::TimeBack {
                query: k as u64 + 1,
                before: fall.before,
                now: fall.now,
            });
        }
    }
    None
}
