//! A stream of which some events are blank.

use cer_base::{Listed, Pos};
use stream_schema::Event;

/// An event with its position in the stream, from 0.
#[derive(Drop)]
pub struct EventAt {
    pub position: Pos,
    pub event: Event,
}

/// A stream of so many positions. These of its events are known, by ascending position; every other
/// one is blank.
#[derive(Drop)]
pub struct History {
    pub positions: u64,
    pub events: Listed<EventAt>,
}
