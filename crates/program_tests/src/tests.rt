//! The rows, by what they show.

mod commands;
mod compactions;
mod explaining;
mod faults;
mod limits;
mod meaning;
mod refusals;
mod reordering;
mod resuming;
mod rows;
mod saving;
mod sessions;
mod texts;
mod words;

use std::process::Abort;

/// Holds what is shown against what is wanted of the row.
pub fn same(rt: &impl Abort, shown: &str, wanted: &str, row: &str) {
    assert_eq!(rt; shown, wanted, "at {row}");
}
