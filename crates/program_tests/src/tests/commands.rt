//! What the commands stand on: their words, late events, checkpoints, and the queries of the sample.

mod checkpoints;
mod late;
mod outside;
mod sample;
mod saving;
mod words;

use cer_base::{Memory, OrMemory};
use cer_outside::sinks::MemSink;
use cer_outside::sources::MemSource;
use std::alloc::{AllocError, Global};
use stream_answers::StreamFault;

/// A source of the text, of which a read brings at most `piece` bytes, and the read of the number
/// fails.
fn source(alloc: Global, text: &str, piece: usize, fails: u64) -> Result<MemSource, AllocError> {
    let fails = Vec::from_slice(alloc, &[fails])?;
    let bytes = Vec::from_slice(alloc, text.as_bytes())?;
    Ok(MemSource::new(bytes, piece.max(1), fails))
}

/// A sink with ample room, of which a write takes at most `piece` bytes, and the write of the number
/// fails.
fn sink(alloc: Global, piece: usize, fails: u64) -> Result<MemSink, AllocError> {
    let fails = Vec::from_slice(alloc, &[fails])?;
    match MemSink::new(alloc, piece.max(1), 4096, fails) {
        Ok(sink) => Ok(sink),
        Err(Memory) => Err(AllocError),
    }
}

/// How a stream ended.
fn end_words(alloc: Global, end: Result<(), OrMemory<StreamFault>>) -> Result<String, AllocError> {
    match end {
        Ok(()) => "end".to_string(alloc),
        Err(OrMemory::Memory) => "memory".to_string(alloc),
        Err(OrMemory::Fault(StreamFault::Event { line, fault })) => {
            format!(in alloc; "line {line}: {fault}")
        }
        Err(OrMemory::Fault(StreamFault::InputTooLong { taken })) => {
            format!(in alloc; "{taken} bytes are too many")
        }
        Err(OrMemory::Fault(StreamFault::ReadFault)) => "cannot read".to_string(alloc),
        Err(OrMemory::Fault(StreamFault::WriteFault)) => "cannot write".to_string(alloc),
    }
}

/// What was written, a bar, and how the stream ended.
fn stream_words(
    alloc: Global,
    end: Result<(), OrMemory<StreamFault>>,
    out: &MemSink,
) -> Result<String, AllocError> {
    let end = end_words(alloc, end)?;
    match str::from_utf8(out.as_slice()) {
        Ok(text) => format!(in alloc; "{text}|{end}"),
        Err(_) => format!(in alloc; "no text|{end}"),
    }
}
