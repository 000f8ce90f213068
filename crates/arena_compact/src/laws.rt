//! Laws of what a compaction leaves, each the contract of a call that does nothing.
ghost use Rattle.arena_compact.specs.Laws.{CompactedListsStand};

/// Lists that stand for some events from a clock on stand for them after a compaction that uses
/// this clock or an earlier one.
pub fn compacted_lists_stand()
    ensures { CompactedListsStand }
{}
