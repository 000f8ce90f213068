//! The automaton of a pattern, and one state of its determinised runs.
use cer_base::bits::Bits;

/// The position automaton of a pattern whose leaves are the numbers below `size`. Each set has room
/// for `size` and holds leaves alone; `near` and `far` have a set for each leaf.
#[derive(Drop, Debug)]
pub struct Cea {
    /// How many leaves there are.
    pub size: usize,
    /// The leaves that may read the first event.
    pub first: Bits,
    /// The leaves that may read the last event.
    pub last: Bits,
    /// For each leaf those that may read the next event after it.
    pub near: Vec<Bits>,
    /// For each leaf those that may read any later event.
    pub far: Vec<Bits>,
    /// The leaves whose positions are marked.
    pub marked: Bits,
    /// Whether marked events must be contiguous.
    pub strict: bool,
}

/// Where a run stands to its marked events.
#[derive(Drop, Debug, Clone, Copy)]
pub enum Phase {
    Before,
    Within,
    After,
}

/// A state other than the start: the leaves that read the last event, those that read an earlier one
/// and wait for a far follower, and where the run stands to its marks.
#[derive(Drop, Debug)]
pub struct StateSets {
    pub fresh: Bits,
    pub waiting: Bits,
    pub phase: Phase,
}

/// Whether an event is taken as marked.
#[derive(Drop, Debug, Clone, Copy, PartialEq, Eq)]
pub enum Side {
    Marked,
    Unmarked,
}
