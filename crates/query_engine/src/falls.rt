//! How a query's clock would fall.

/// The number of the query, from 1, and how its clock would fall: the last clock, and that of the
/// event.
#[derive(Drop, Clone, Copy)]
pub struct FallOf {
    pub query: u64,
    pub before: i128,
    pub now: i128,
}
