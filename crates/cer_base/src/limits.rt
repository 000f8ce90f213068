//! The limits of the language and of its files. Each is written here alone; contracts and
//! definitions cite it by its name.

/// The most bytes of a query text.
pub const LONGEST_TEXT: usize = 1_048_576;

/// The most parentheses that are open at one place of a statement.
pub const DEEPEST_NESTING: usize = 64;

/// The most leaves of one query.
pub const MOST_LEAVES: u64 = 2_048;

/// The most queries of one text.
pub const MOST_QUERIES: u64 = 1_024;

/// The most places after the point of a decimal number.
pub const MOST_PLACES: u8 = 9;

/// So many bytes of an event file, a script or a checkpoint are too many, where no option says
/// another number: 2 to the 40.
pub const MOST_BYTES: u64 = 1_099_511_627_776;

/// The most bytes of one line of an event file, its line feed not counted.
pub const LONGEST_LINE: usize = 65_536;
