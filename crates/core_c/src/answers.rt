//! Answers, given one at a time.

ghost use Rattle.std.specs.Prelude.{◌≡◌, true, false};
ghost use Rattle.core_c.specs.Calls.{IsMisuse, StaysOpen, HasAnswered, numbers_told};

use crate::count::opening;
use crate::engine::CoreEngine;
use crate::notes::copy_first;
use crate::status::{MEMORY, MISUSE, NONE, OK, ROOM};
use cer_base::steps::{Opening, Steps};
use core_service::{AnswerNumbers, Service};
use std::alloc::Global;
use std::marker::Brand;
use std::sync::ledger::Ledger;

/// An answer: the number of its query, from 1, the positions from 0 at which the complex event starts
/// and ends, and how many positions are marked.
#[repr(C)]
#[derive(Drop)]
pub struct CoreAnswer {
    pub query: u64,
    pub start: u64,
    pub end: u64,
    pub count: usize,
}

/// Tells the numbers.
pub fn tell_numbers(numbers: AnswerNumbers, answer: &mut CoreAnswer)
    ensures { answer.new ≡ numbers_told numbers }
{
    answer.query = numbers.query;
    answer.start = numbers.start;
    answer.end = numbers.end;
    answer.count = numbers.count;
}

/// Asks the service for its next answer, and gives it where there is room.
fn next_of<L: Ledger>(
    service: &mut Service,
    answer: &mut CoreAnswer,
    positions: &mut [u64],
    opening: Opening,
) -> i32
    requires name { opening.name ≡ L.name }
    requires parts { opening.parts ≡ L.parts }
    ensures { HasAnswered service.old service.new result answer.old answer.new
        positions.old positions.new }
{
    let mut steps: Steps<L> = Steps::start(opening);
    match service.peek(&mut steps) {
        Ok(Some(numbers)) => {
            tell_numbers(numbers, answer);
            if numbers.count > positions.len() {
                return ROOM;
            }
            copy_first(service.positions(), positions);
            service.advance();
            OK
        }
        Ok(None) => NONE,
        Err(_) => MEMORY,
    }
}

/// Gives the next answer, and puts its positions into the buffer, rising.
///
/// - `OK`: the answer is given, and is not left any more.
/// - `ROOM`: it has more positions than the buffer has room for: the count says how many. It is kept.
/// - `NONE`: no answer is left.
/// - `MEMORY`: memory ran out, and the same answers are left.
/// - `MISUSE`: the engine is closed.
#[unsafe(no_mangle)]
pub extern "C" fn core_next(
    alloc: Global,
    engine: &mut CoreEngine,
    answer: &mut CoreAnswer,
    positions: &mut [u64],
) -> i32
    ensures closed { engine.old.handle.full ≡ false → IsMisuse engine.old engine.new result
        × (answer.new ≡ answer.old) × (positions.new ≡ positions.old) }
    ensures open { engine.old.handle.full ≡ true → StaysOpen engine.old engine.new
        × HasAnswered engine.old.handle.service engine.new.handle.service result
        answer.old answer.new positions.old positions.new }
{
    match engine.handle.service(alloc) {
        Some(service) => {
            let mut service = service;
            let status = next_of::<Brand>(&mut service, answer, positions, opening());
            engine.handle.give(service);
            status
        }
        None => MISUSE,
    }
}
