//! Laws of sorting and releasing. Each function does nothing; its contract is the law.

ghost use Rattle.reorder_gate.specs.ReleaseLaws.{SortingMoves, SortingOrders, SortedIsUnique, SortedGrows, SortingKeepsParts, ReleasingKeepsParts, FrontsAreInTime, InTimeGrows, ReleasedIsFinal, ReleasedGrows, FittingClocksAreTold, GoneIsFinal};

/// Sorting moves the items, and neither loses nor makes one.
pub fn sorting_moves<A>()
    ensures { SortingMoves A }
{}

/// What comes out ascends, ties as they came.
pub fn sorting_orders<A>()
    ensures { SortingOrders A }
{}

/// No other list does.
pub fn sorted_is_unique<A>()
    ensures { SortedIsUnique A }
{}

/// One item more is placed among those that are sorted.
pub fn sorted_grows<A>()
    ensures { SortedGrows A }
{}

/// Sorting by a clock of parts, and then taking the parts, is sorting the parts.
pub fn sorting_keeps_parts<A, B>()
    ensures { SortingKeepsParts A B }
{}

/// What is released is one part after another too.
pub fn releasing_keeps_parts<A, B>()
    ensures { ReleasingKeepsParts A B }
{}

/// The front of a list with no item too late has none.
pub fn fronts_are_in_time<A>()
    ensures { FrontsAreInTime A }
{}

/// One item more comes in time exactly where it is not too late after those before it.
pub fn in_time_grows<A>()
    ensures { InTimeGrows A }
{}

/// What is released stays first, whatever comes that is not too late.
pub fn released_is_final<A>()
    ensures { ReleasedIsFinal A }
{}

/// What is released later begins with it.
pub fn released_grows<A>()
    ensures { ReleasedGrows A }
{}

/// An event of a schema that the attribute fits has its clock as the attribute's value.
pub fn fitting_clocks_are_told()
    ensures { FittingClocksAreTold }
{}

/// What has gone before the end stays first, whatever comes that is not too late: of what is
/// released then, and of all sorted.
pub fn gone_is_final()
    ensures { GoneIsFinal }
{}
