//! One call of the program over objects in memory.

ghost use Rattle.std.specs.Prelude.{◌≡◌, ◌<◌};

use cer_base::Text;
use cer_base::steps::{Opening, Steps};
use cer_outside::files::{MemFile, SureFile};
use cer_outside::hosts::{MemHost, SureHost};
use cer_outside::sinks::MemSink;
use core_top::core_main;
use std::alloc::{AllocError, Global};
use std::marker::Brand;
use std::sync::ledger::Ledger;

/// A room that holds all of every output.
pub const AMPLE: usize = 4000;

/// The bytes at the end of the text.
fn push_bytes(text: &mut String, bytes: &[u8]) -> Result<(), AllocError> {
    for byte in bytes {
        text.push(char::from(*byte))?;
    }
    Ok(())
}

/// The words of the text.
pub fn words_of(alloc: Global, text: &str) -> Result<Vec<String>, AllocError> {
    let mut words = Vec::new(alloc);
    for word in text.split_whitespace() {
        words.push(word.to_string(alloc)?)?;
    }
    Ok(words)
}

/// Which calls fail, by their numbers from 1, and how many bytes the output takes.
#[derive(Clone, Copy)]
pub struct Sinks {
    pub room: usize,
    pub piece: usize,
    pub write: u64,
    pub note: u64,
}

/// The status of a call over the host. What else it leaves is let go here, so that it is let go once.
fn status_of<L: Ledger>(
    alloc: Global,
    words: Vec<String>,
    host: &mut MemHost,
    out: &mut MemSink,
    notes: &mut MemSink,
    steps: &mut Steps<L>,
) -> u8 {
    let done = core_main(alloc, words, host, out, notes, steps);
    done.status
}

/// What a call answers over the host: the status, a bar, the output, a bar, the note.
fn answer<L: Ledger>(
    alloc: Global,
    words: Vec<String>,
    host: &mut MemHost,
    sinks: Sinks,
    opening: Opening,
) -> Result<String, AllocError>
    requires name { opening.name ≡ L.name }
    requires parts { opening.parts ≡ L.parts }
    requires piece { 0 < sinks.piece }
{
    let fails = Vec::from_slice(alloc, &[sinks.write])?;
    let Ok(mut out) = MemSink::new(alloc, sinks.piece, sinks.room, fails) else {
        return Err(AllocError);
    };
    let fails = Vec::from_slice(alloc, &[sinks.note])?;
    let Ok(mut notes) = MemSink::new(alloc, 7, AMPLE, fails) else {
        return Err(AllocError);
    };
    let mut steps: Steps<L> = Steps::start(opening);
    let status = status_of(alloc, words, host, &mut out, &mut notes, &mut steps);
    let mut text = format!(in alloc; "{status}|")?;
    push_bytes(&mut text, out.as_slice())?;
    text.push('|')?;
    push_bytes(&mut text, notes.as_slice())?;
    Ok(text)
}

/// What a call answers over the host.
pub fn over_host(
    alloc: Global,
    words: Vec<String>,
    host: &mut MemHost,
    sinks: Sinks,
    runtime: &HostRuntime,
) -> Result<String, AllocError>
    requires piece { 0 < sinks.piece }
{
    answer::<Brand>(alloc, words, host, sinks, Opening::new(runtime))
}

/// The host that has the query text as `q` and the events as `e`, each read in pieces of 4 bytes.
/// The open of the first number fails, of the query file the read of the second, of the event file
/// that of the third.
pub fn failing_host(
    alloc: Global,
    queries: &[u8],
    events: &[u8],
    open: u64,
    query_read: u64,
    event_read: u64,
) -> Result<MemHost, AllocError> {
    let mut files = Vec::new(alloc);
    for (name, bytes, read) in [("q", queries, query_read), ("e", events, event_read)] {
        let Ok(name) = Text::copy_of(alloc, name) else {
            return Err(AllocError);
        };
        let bytes = Vec::from_slice(alloc, bytes)?;
        files.push(MemFile::new(name, bytes, 4, Vec::from_slice(alloc, &[read])?))?;
    }
    Ok(MemHost::new(files, Vec::from_slice(alloc, &[open])?))
}

/// The host that has the query text as `q` and the events as `e`, and never fails.
pub fn sure_host(alloc: Global, queries: &[u8], events: &[u8]) -> Result<SureHost, AllocError> {
    let mut files = Vec::new(alloc);
    for (name, bytes) in [("q", queries), ("e", events)] {
        let Ok(name) = Text::copy_of(alloc, name) else {
            return Err(AllocError);
        };
        let bytes = Vec::from_slice(alloc, bytes)?;
        files.push(SureFile::new(name, bytes, 3))?;
    }
    Ok(SureHost::new(files))
}

/// The host that has a checkpoint as `c` beside the query text and the events, each read in pieces
/// of 4 bytes. The open of the first number fails, of the checkpoint the read of the second, of the
/// event file that of the third.
pub fn failing_resume_host(
    alloc: Global,
    queries: &[u8],
    checkpoint: &[u8],
    events: &[u8],
    open: u64,
    checkpoint_read: u64,
    event_read: u64,
) -> Result<MemHost, AllocError> {
    let mut files = Vec::new(alloc);
    for (name, bytes, read) in [
        ("q", queries, 0),
        ("c", checkpoint, checkpoint_read),
        ("e", events, event_read),
    ] {
        let Ok(name) = Text::copy_of(alloc, name) else {
            return Err(AllocError);
        };
        let bytes = Vec::from_slice(alloc, bytes)?;
        files.push(MemFile::new(name, bytes, 4, Vec::from_slice(alloc, &[read])?))?;
    }
    Ok(MemHost::new(files, Vec::from_slice(alloc, &[open])?))
}

/// What a call answers over a host that has a checkpoint, where all goes well outside.
pub fn resumed_well(
    alloc: Global,
    words: &str,
    queries: &[u8],
    checkpoint: &[u8],
    events: &[u8],
    runtime: &HostRuntime,
) -> Result<String, AllocError> {
    let sinks = Sinks {
        room: AMPLE,
        piece: 7,
        write: 0,
        note: 0,
    };
    let mut host = failing_resume_host(alloc, queries, checkpoint, events, 0, 0, 0)?;
    over_host(alloc, words_of(alloc, words)?, &mut host, sinks, runtime)
}

/// What a call answers where all goes well outside.
pub fn done_well(
    alloc: Global,
    words: &str,
    queries: &[u8],
    events: &[u8],
    runtime: &HostRuntime,
) -> Result<String, AllocError> {
    let sinks = Sinks {
        room: AMPLE,
        piece: 7,
        write: 0,
        note: 0,
    };
    let mut host = failing_host(alloc, queries, events, 0, 0, 0)?;
    over_host(alloc, words_of(alloc, words)?, &mut host, sinks, runtime)
}
