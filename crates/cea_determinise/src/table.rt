//! The keys and values of the table of successors.
use crate::cea::StateSets;

/// The number of a state; the start is 0.
pub type State = u64;

/// The number of a class of events, from 0: those that the same leaves can read are of one class.
pub type EventClass = u64;

/// A state and a class of events.
#[derive(Drop, Debug, Clone, Copy)]
pub struct TransitionKey {
    pub state: State,
    pub event_class: EventClass,
}

/// The successors of a state on an event, each None exactly where that successor is none.
#[derive(Drop, Debug, Default, Clone, Copy, PartialEq, Eq)]
pub struct Successors {
    pub marked: Option<State>,
    pub unmarked: Option<State>,
}

/// How many states other than the start there are, how many pairs of state and class whose
/// successors are known, and how many classes.
#[derive(Drop, Debug, Clone, Copy, PartialEq, Eq)]
pub struct Sizes {
    pub states: u64,
    pub pairs: u64,
    pub event_classes: u64,
}

/// The successors of a state on an event, not numbered yet.
#[derive(Drop, Debug)]
pub struct Both {
    pub marked: Option<StateSets>,
    pub unmarked: Option<StateSets>,
}
