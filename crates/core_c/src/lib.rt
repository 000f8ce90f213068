//! The engine for C: a static library over `core_service`, whose header is `include/core.h`.
//!
//! A caller holds a `CoreEngine`, zeros while it is closed. `core_open` gives it a service for a query
//! text; the calls after it ask that service, and `core_close` ends it. What a call gives is a status
//! number, and beside it what stands in the structs and buffers that the caller lent for the call.
//! Promised: each call does to the service what `core_service` says of the call that it stands for, and
//! its status tells which of its outcomes came; a note is written as far as the caller has room for it;
//! an answer for which there is no room is kept; a closed engine stays closed, and says so: `specs/Calls`
//! and `specs/HeldCalls`. The files with raw pointers are `handle`, `unboxed` and `count`.
#![tactic(auto)]

mod answers;
mod count;
mod cursors;
mod engine;
mod feeding;
mod handle;
mod keeping;
mod notes;
pub mod status;
mod unboxed;

pub use answers::{CoreAnswer, core_next};
pub use cursors::{core_drop, core_hold, core_pull};
pub use engine::{CoreEngine, core_close, core_open, core_version};
pub use feeding::{core_feed, core_feed_some};
pub use handle::Handle;
pub use keeping::{CoreSizes, core_compact, core_sizes};
pub use notes::CoreFault;
pub use unboxed::Unboxed;
