//! Laws of query states that keep no clock. Each function does nothing; its contract is the law.

ghost use Rattle.all_or_none.specs.Dormancy.{EventsAreNoOps, QueryStatesAreDormant, QueryStatesAreEmpty};

/// An event that leaves what is kept as it is is a no-op for the query state, and a query state is
/// dormant for which all events are no-ops that no leaf reads, whatever its window, its partition
/// and its types.
pub fn no_ops_and_dormancy()
    ensures pass { EventsAreNoOps }
    ensures rest { QueryStatesAreDormant }
    ensures empty { QueryStatesAreEmpty }
{}
