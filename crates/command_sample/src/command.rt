//! A sample, and how it ended.

ghost use Rattle.std.specs.Prelude.{◌≡◌, None};
ghost use Rattle.command_sample.specs.Ending.{SampleStop};

use crate::summary::write_sample;
use cer_base::OrMemory;
use cer_base::steps::Steps;
use cer_outside::{Sink, WriteFault};
use command_base::{Cause, Stop};
use command_words::SampleWords;
use std::alloc::Global;
use std::sync::ledger::Ledger;

/// Writes the summary of so many events from the seed. No file is opened.
pub fn sample<S, K: Sink, L: Ledger>(
    alloc: Global,
    words: &SampleWords,
    out: &mut K,
    steps: &mut Steps<L>,
) -> Stop<S>
    ensures ended { SampleStop words.now (K.faults out.old) (K.faults out.new)
        (K.taken out.old) (K.taken out.new) result.cause result.failed }
    ensures none_left { result.left ≡ None }
{
    let before = out.fault_count();
    match write_sample(alloc, words.seed, words.count, out, steps) {
        Ok(()) => Stop::of(Cause::Fine),
        Err(OrMemory::Memory) => Stop::of(Cause::Memory),
        Err(OrMemory::Fault(WriteFault)) => {
            let after = out.fault_count();
            Stop::of(Cause::WriteFault { before, after })
        }
    }
}
