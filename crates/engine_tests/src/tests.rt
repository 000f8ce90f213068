mod beside;
mod blocks;
mod by_hand;
mod commands;
mod compactions;
mod generator;
mod lines;
mod runs;
mod sessions;
mod streams;

use cer_base::Memory;
use cer_outside::sinks::MemSink;
use cer_outside::sources::MemSource;
use std::alloc::{AllocError, Global};
use std::process::Abort;

/// Holds what is shown against what is wanted of the row.
pub fn same(rt: &impl Abort, shown: &str, wanted: &str, row: &str) {
    assert_eq!(rt; shown, wanted, "at {row}");
}

/// A source of the bytes, of which a read brings at most `piece`, and the read of the number fails.
pub fn source(
    alloc: Global,
    bytes: &[u8],
    piece: usize,
    fails: u64,
) -> Result<MemSource, AllocError> {
    let fails = Vec::from_slice(alloc, &[fails])?;
    Ok(MemSource::new(Vec::from_slice(alloc, bytes)?, piece.max(1), fails))
}

/// A sink with ample room, of which the call with the number fails.
pub fn sink(alloc: Global, fails: u64) -> Result<MemSink, Memory> {
    let mut list = Vec::new(alloc);
    list.push(fails)?;
    MemSink::new(alloc, 4096, 4096, list)
}

/// How many lines the text has.
pub fn line_count(text: &[u8]) -> usize {
    text.iter().filter(|byte| **byte == b'\n').count()
}
