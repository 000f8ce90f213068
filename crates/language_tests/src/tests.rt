mod grammar;
mod input;
mod parser;
mod queries;
mod schema;

use std::alloc::{AllocError, Global};
use std::process::Abort;

/// Holds what is shown against what is wanted of the row.
pub fn same(rt: &impl Abort, shown: &str, wanted: &str, row: &str) {
    assert_eq!(rt; shown, wanted, "{row}");
}

/// A text: a beginning, a part so many times, and an end.
pub fn repeated(
    alloc: Global,
    before: &str,
    part: &str,
    times: u64,
    after: &str,
) -> Result<String, AllocError> {
    let mut text = before.to_string(alloc)?;
    for _ in 0..times {
        text.push_str(part)?;
    }
    text.push_str(after)?;
    Ok(text)
}
