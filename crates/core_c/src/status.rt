//! The status numbers of calls.

/// What was asked is done. Of `core_feed`: the line's event was taken. Of `core_feed_some`: the last
/// event that was taken may have an answer. Of `core_next`: an answer was given.
pub const OK: i32 = 0;

/// There is nothing: the line is empty (`core_feed`), no whole line is left (`core_feed_some`), no answer
/// is left (`core_next`, `core_pull`), there is no query of this number (`core_sizes`, `core_hold`), or no
/// event yet (`core_hold`).
pub const NONE: i32 = 1;

/// The answer has more positions than the buffer has room for, and is kept; or as many cursors are held as
/// may be (`core_hold`).
pub const ROOM: i32 = 2;

/// The query text is refused.
pub const QUERY: i32 = 3;

/// A line is refused, which has changed nothing.
pub const EVENT: i32 = 4;

/// Memory ran out, which has changed nothing.
pub const MEMORY: i32 = 5;

/// The engine is closed; or it is open, and was to be opened; or no cursor of this number is held. Nothing
/// has changed.
pub const MISUSE: i32 = 6;
