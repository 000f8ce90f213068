//! The program: the system's words, files and streams, handed to the top call.
//!
//! Promised: nothing of its own; what the top call promises holds of the adapters as they are
//! proved, which count each error and tell no bytes.
#![tactic(auto)]

ghost use Rattle.std.specs.Prelude.{◌≡◌};

mod adapters;

use adapters::{CountedWriter, SystemFiles};
use cer_base::seed::Seed;
use cer_base::steps::{Opening, Steps};
use cer_outside::writing::put_all;
use core_top::core_main;
use fault_notes::{memory_note, usage_note};
use std::alloc::Global;
use std::env;
use std::io::{ErrorKind, Write};
use std::marker::Brand;
use std::process::ExitCode;
use std::random::RandomSource;
use std::rt::Files;
use std::sync::ledger::Ledger;

/// The status where the words ask for no command, as one that is not UTF-8 does.
const USAGE: u8 = 2;

/// The status where memory runs out.
const OUT_OF_MEMORY: u8 = 7;

fn main(rt: HostRuntime) -> ExitCode {
    let all = match env::args(&rt) {
        Ok(all) => all,
        Err(error) => return without_words(rt.stderr(), error.kind()),
    };
    let Ok(words) = all.skip(1).collect::<Vec<String>>(rt.alloc()) else {
        return without_words(rt.stderr(), ErrorKind::OutOfMemory);
    };
    let out = rt.stdout();
    let notes = rt.stderr();
    ExitCode::from(run::<&HostRuntime, _, _, Brand>(
        rt.alloc(),
        words,
        SystemFiles::new(&rt, seed_from(&rt)),
        out,
        notes,
        Opening::new(&rt),
    ))
}

/// Writes why the words cannot be had, and gives the status for it.
fn without_words<E: Write + Drop>(notes: E, why: ErrorKind) -> ExitCode {
    let (status, note) = match why {
        ErrorKind::InvalidData => (USAGE, usage_note()),
        _ => (OUT_OF_MEMORY, memory_note()),
    };
    let mut notes = CountedWriter::new(notes);
    let _ = put_all(&mut notes, note);
    ExitCode::from(status)
}

/// A number from the system that nobody outside can know, or 0 where it gives none.
fn number_from(source: &impl RandomSource) -> u64 {
    let mut bytes = [0; 8];
    match source.fill_bytes(&mut bytes) {
        Ok(()) => u64::from_le_bytes(bytes),
        Err(_) => 0,
    }
}

/// What the hashes of tables begin with.
fn seed_from(source: &impl RandomSource) -> Seed {
    Seed::of(number_from(source), number_from(source))
}

/// The status of the top call over these files and streams.
fn run<R: Files + Drop, O: Write + Drop, E: Write + Drop, L: Ledger>(
    alloc: Global,
    words: Vec<String>,
    mut files: SystemFiles<R>,
    out: O,
    notes: E,
    opening: Opening,
) -> u8
    requires name { opening.name ≡ L.name }
    requires parts { opening.parts ≡ L.parts }
{
    let mut steps: Steps<L> = Steps::start(opening);
    let mut out = CountedWriter::new(out);
    let mut notes = CountedWriter::new(notes);
    core_main(alloc, words, &mut files, &mut out, &mut notes, &mut steps).status
}
