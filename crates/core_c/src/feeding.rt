//! Lines that are fed.

ghost use Rattle.std.specs.Prelude.{◌≡◌, true, false, None};
ghost use Rattle.core_c.specs.Notes.{HasTold};
ghost use Rattle.core_c.specs.Calls.{IsMisuse, StaysOpen, HasFed, HasFedLines};

use crate::count::opening;
use crate::engine::CoreEngine;
use crate::notes::{CoreFault, tell_refusal};
use crate::status::{EVENT, MEMORY, MISUSE, NONE, OK};
use cer_base::OrMemory;
use cer_base::steps::{Opening, Steps};
use core_service::{Fed, Service, SomeStop};
use std::alloc::Global;
use std::marker::Brand;
use std::sync::ledger::Ledger;

/// Feeds the service the line.
fn feed_of<L: Ledger>(
    alloc: Global,
    service: &mut Service,
    line: &[u8],
    fault: &mut CoreFault,
    words: &mut [u8],
    opening: Opening,
) -> i32
    requires name { opening.name ≡ L.name }
    requires parts { opening.parts ≡ L.parts }
    ensures { HasFed line.now service.old service.new result fault.old fault.new words.old words.new }
{
    let mut steps: Steps<L> = Steps::start(opening);
    match service.feed(alloc, line, &mut steps) {
        Ok(Fed::Event) => OK,
        Ok(Fed::Nothing) => NONE,
        Err(OrMemory::Fault(refused)) => match tell_refusal(alloc, refused, fault, words) {
            Ok(()) => EVENT,
            Err(_) => MEMORY,
        },
        Err(OrMemory::Memory) => MEMORY,
    }
}

/// Feeds one line, which is given without its line feed.
///
/// - `OK`: its event was taken, and its answers are left; what was left before is dropped.
/// - `NONE`: the line is empty but for a carriage return. It is counted, and what was left is left.
/// - `EVENT`: the line is refused, for the reason that is told, and nothing has changed.
/// - `MEMORY`: memory ran out, or 2^62 lines were taken, and nothing has changed.
/// - `MISUSE`: the engine is closed.
#[unsafe(no_mangle)]
pub extern "C" fn core_feed(
    alloc: Global,
    engine: &mut CoreEngine,
    line: &[u8],
    fault: &mut CoreFault,
    words: &mut [u8],
) -> i32
    ensures closed { engine.old.handle.full ≡ false → IsMisuse engine.old engine.new result
        × HasTold None fault.old fault.new words.old words.new }
    ensures open { engine.old.handle.full ≡ true → StaysOpen engine.old engine.new
        × HasFed line.now engine.old.handle.service engine.new.handle.service result
        fault.old fault.new words.old words.new }
{
    match engine.handle.service(alloc) {
        Some(service) => {
            let mut service = service;
            let status = feed_of::<Brand>(alloc, &mut service, line, fault, words, opening());
            engine.handle.give(service);
            status
        }
        None => MISUSE,
    }
}

/// Feeds the service whole lines of the bytes.
fn feed_some_of<L: Ledger>(
    alloc: Global,
    service: &mut Service,
    bytes: &[u8],
    used: &mut usize,
    fault: &mut CoreFault,
    words: &mut [u8],
    opening: Opening,
) -> i32
    requires name { opening.name ≡ L.name }
    requires parts { opening.parts ≡ L.parts }
    ensures { HasFedLines bytes.now service.old service.new result used.new
        fault.old fault.new words.old words.new }
{
    let mut steps: Steps<L> = Steps::start(opening);
    let fed = service.feed_some(alloc, bytes, &mut steps);
    *used = fed.used;
    match fed.stop {
        SomeStop::MayAnswer => OK,
        SomeStop::End => NONE,
        SomeStop::Refused(refused) => match tell_refusal(alloc, refused, fault, words) {
            Ok(()) => EVENT,
            Err(_) => MEMORY,
        },
        SomeStop::Memory => MEMORY,
    }
}

/// Feeds whole lines of the bytes, one after another, up to and with the first event that may have an
/// answer, and tells how many bytes they are, line feeds among them.
///
/// - `OK`: the last event may have an answer: `core_next` gives those that it has.
/// - `NONE`: no whole line is left among the bytes.
/// - `EVENT`: the bytes that were not used begin with a line that is refused, for the reason that is told.
/// - `MEMORY`: memory ran out, or 2^62 lines were taken.
/// - `MISUSE`: the engine is closed, and no byte was used.
#[unsafe(no_mangle)]
pub extern "C" fn core_feed_some(
    alloc: Global,
    engine: &mut CoreEngine,
    bytes: &[u8],
    used: &mut usize,
    fault: &mut CoreFault,
    words: &mut [u8],
) -> i32
    ensures closed { engine.old.handle.full ≡ false → IsMisuse engine.old engine.new result
        × (used.new ≡ 0) × HasTold None fault.old fault.new words.old words.new }
    ensures open { engine.old.handle.full ≡ true → StaysOpen engine.old engine.new
        × HasFedLines bytes.now engine.old.handle.service engine.new.handle.service result used.new
        fault.old fault.new words.old words.new }
{
    match engine.handle.service(alloc) {
        Some(service) => {
            let mut service = service;
            let status = feed_some_of::<Brand>(
                alloc,
                &mut service,
                bytes,
                used,
                fault,
                words,
                opening(),
            );
            engine.handle.give(service);
            status
        }
        None => {
            *used = 0;
            MISUSE
        }
    }
}
