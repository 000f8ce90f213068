//! The lines of the sample.

ghost use Rattle.std.specs.Prelude.{◌≡◌, ◌≤◌, ◌++◌, ◌∷◌, decimal, codes, IfOk, OnOk};
ghost use Rattle.cer_outside.specs.Causes.{HasCauseOrMemory};
ghost use Rattle.command_sample.specs.Summary.{head_line, tally_line, IsSummary, WroteSummary};

use crate::counting::{Tally, counted};
use cer_base::bytes::LINE_FEED;
use cer_base::steps::Steps;
use cer_base::{Memory, OrMemory};
use cer_outside::writing::put_all;
use cer_outside::{Sink, WriteFault};
use itoa::Buffer;
use std::alloc::Global;
use std::sync::ledger::Ledger;

fn push_number(text: &mut Vec<u8>, number: u64) -> Result<(), Memory>
    ensures { OnOk result (text.new.items ≡ text.old.items ++ decimal number) }
{
    let mut digits = Buffer::new();
    text.extend_from_slice(digits.format(number).as_bytes())?;
    Ok(())
}

fn push_head(text: &mut Vec<u8>, count: u64) -> Result<(), Memory>
    ensures { OnOk result (text.new.items ≡ text.old.items ++ head_line count) }
{
    text.extend_from_slice(b"events ")?;
    push_number(text, count)?;
    text.push(LINE_FEED)?;
    Ok(())
}

fn push_tally(text: &mut Vec<u8>, query: u64, tally: Tally) -> Result<(), Memory>
    ensures { OnOk result (text.new.items
        ≡ text.old.items ++ tally_line query tally.answers tally.total) }
{
    push_number(text, query)?;
    text.extend_from_slice(b" answers ")?;
    push_number(text, tally.answers)?;
    text.extend_from_slice(b" sum ")?;
    push_number(text, tally.total)?;
    text.push(LINE_FEED)?;
    Ok(())
}

/// The three lines.
fn text_of(alloc: Global, count: u64, first: Tally, second: Tally) -> Result<Vec<u8>, Memory>
    ensures { IfOk result (λ text. text.items ≡ head_line count
        ++ tally_line 1 first.answers first.total ++ tally_line 2 second.answers second.total) }
{
    let mut text = Vec::new(alloc);
    push_head(&mut text, count)?;
    push_tally(&mut text, 1, first)?;
    push_tally(&mut text, 2, second)?;
    Ok(text)
}

fn summary<L: Ledger>(
    alloc: Global,
    seed: u64,
    count: u64,
    steps: &mut Steps<L>,
) -> Result<Vec<u8>, Memory>
    ensures { IfOk result (λ text. IsSummary seed count text.items) }
{
    let (first, second) = counted(alloc, seed, count, steps)?;
    text_of(alloc, count, first, second)
}

/// Runs the two queries over so many events that the seed makes, at most 10,000,000, and writes the
/// three lines: how many events there were, and for each query how many answers it has and what
/// they add up to.
///
/// After a fault the sink has taken a proper first part of the lines, and its count of faults rose
/// by one; where memory ran out it has taken nothing.
pub fn write_sample<K: Sink, L: Ledger>(
    alloc: Global,
    seed: u64,
    count: u64,
    out: &mut K,
    steps: &mut Steps<L>,
) -> Result<(), OrMemory<WriteFault>>
    ensures took { WroteSummary seed count (K.taken out.old) (K.taken out.new) result }
    ensures cause { HasCauseOrMemory (K.faults out.old) (K.faults out.new) result }
{
    let text = match summary(alloc, seed, count, steps) {
        Ok(text) => text,
        Err(_) => return Err(OrMemory::Memory),
    };
    match put_all(out, text.as_slice()) {
        Ok(()) => Ok(()),
        Err(fault) => Err(OrMemory::Fault(fault)),
    }
}
