//! The bytes that cut texts and lines apart. Each is written here alone; contracts and definitions
//! cite it by its name.

/// Ends a line.
pub const LINE_FEED: u8 = b'\n';

/// May stand at the end of a line, before its line feed.
pub const CARRIAGE_RETURN: u8 = b'\r';

/// Stands between two fields of an event's line, and between two positions of an answer's.
pub const COMMA: u8 = b',';

/// Opens and closes a field that may hold commas, and a text in a query.
pub const QUOTE: u8 = b'"';

/// Opens and closes a text in a query.
pub const APOSTROPHE: u8 = b'\'';
