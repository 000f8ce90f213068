//! Events that come late: a gate holds each until no earlier one can come, and lets them go by their
//! clocks.
//!
//! The clock of an event is the value of one attribute, which every declared type has as a whole
//! number. An event may come late by a bound, and is refused exactly where its clock is further
//! below the greatest one that was put. Promised: `take` gives the events by their clocks, ties as
//! they were put, and exactly those that may go; what has gone and what is held are the sorted
//! events that were put (`specs/Gates`). Only `new` and `put` take memory. What is held stands in a
//! map in order, so a put and a take cost about the logarithm of it; no clause says so. It stands on
//! `stream_schema` and `cer_base`.
#![tactic(auto)]

mod clock;
mod gate;
pub mod laws;

pub use clock::clock_fits;
pub use gate::{Gate, TooLate};
