//! Cursors that a caller holds over later lines.

ghost use Rattle.std.specs.Prelude.{◌≡◌, true, false};
ghost use Rattle.core_c.specs.Calls.{IsMisuse, StaysOpen};
ghost use Rattle.core_c.specs.HeldCalls.{HasHeld, HasPulled, HasDropped};

use crate::answers::{CoreAnswer, tell_numbers};
use crate::count::opening;
use crate::engine::CoreEngine;
use crate::notes::copy_first;
use crate::status::{MEMORY, MISUSE, NONE, OK, ROOM};
use cer_base::steps::{Opening, Steps};
use core_service::{HeldFault, HoldFault, Service};
use std::alloc::Global;
use std::marker::Brand;
use std::sync::ledger::Ledger;

/// Holds a cursor of the service, and tells its number.
fn hold_of<L: Ledger>(service: &mut Service, query: u64, cursor: &mut u64, opening: Opening) -> i32
    requires name { opening.name ≡ L.name }
    requires parts { opening.parts ≡ L.parts }
    ensures { HasHeld query service.old service.new result cursor.old cursor.new }
{
    let mut steps: Steps<L> = Steps::start(opening);
    match service.hold(query, &mut steps) {
        Ok(number) => {
            *cursor = number;
            OK
        }
        Err(HoldFault::NoQuery) => NONE,
        Err(HoldFault::NoEventYet) => NONE,
        Err(HoldFault::TooMany) => ROOM,
        Err(HoldFault::Memory) => MEMORY,
    }
}

/// Holds a cursor over all answers of the query with this number, from 1, that end at the last event, and
/// tells its number. What it has left stays while lines are fed and whatever else is asked.
///
/// - `OK`: it is held, until it is dropped or the engine is closed.
/// - `NONE`: there is no such query, or no event was taken yet.
/// - `ROOM`: 64 cursors are held.
/// - `MEMORY`: memory ran out, or 2^62 cursors were opened.
/// - `MISUSE`: the engine is closed.
#[unsafe(no_mangle)]
pub extern "C" fn core_hold(
    alloc: Global,
    engine: &mut CoreEngine,
    query: u64,
    cursor: &mut u64,
) -> i32
    ensures closed { engine.old.handle.full ≡ false → IsMisuse engine.old engine.new result
        × (cursor.new ≡ cursor.old) }
    ensures open { engine.old.handle.full ≡ true → StaysOpen engine.old engine.new
        × HasHeld query engine.old.handle.service engine.new.handle.service result
        cursor.old cursor.new }
{
    match engine.handle.service(alloc) {
        Some(service) => {
            let mut service = service;
            let status = hold_of::<Brand>(&mut service, query, cursor, opening());
            engine.handle.give(service);
            status
        }
        None => MISUSE,
    }
}

/// Asks the held cursor for its next answer, and gives it where there is room.
fn pull_of<L: Ledger>(
    service: &mut Service,
    cursor: u64,
    answer: &mut CoreAnswer,
    positions: &mut [u64],
    opening: Opening,
) -> i32
    requires name { opening.name ≡ L.name }
    requires parts { opening.parts ≡ L.parts }
    ensures { HasPulled cursor service.old service.new result answer.old answer.new
        positions.old positions.new }
{
    let mut steps: Steps<L> = Steps::start(opening);
    match service.peek_held(cursor, &mut steps) {
        Ok(Some(numbers)) => {
            tell_numbers(numbers, answer);
            if numbers.count > positions.len() {
                return ROOM;
            }
            copy_first(service.positions(), positions);
            service.advance_held(cursor);
            OK
        }
        Ok(None) => NONE,
        Err(HeldFault::NotHeld) => MISUSE,
        Err(HeldFault::Memory) => MEMORY,
    }
}

/// Gives the next answer of the held cursor, and puts its positions into the buffer, rising. What is left
/// at the last event stays left.
///
/// - `OK`: the answer is given, and the cursor has it no more.
/// - `ROOM`: it has more positions than the buffer has room for: the count says how many. It is kept.
/// - `NONE`: the cursor has no answer left.
/// - `MEMORY`: memory ran out, and the cursor has the same answers left.
/// - `MISUSE`: no cursor of this number is held, or the engine is closed.
#[unsafe(no_mangle)]
pub extern "C" fn core_pull(
    alloc: Global,
    engine: &mut CoreEngine,
    cursor: u64,
    answer: &mut CoreAnswer,
    positions: &mut [u64],
) -> i32
    ensures closed { engine.old.handle.full ≡ false → IsMisuse engine.old engine.new result
        × (answer.new ≡ answer.old) × (positions.new ≡ positions.old) }
    ensures open { engine.old.handle.full ≡ true → StaysOpen engine.old engine.new
        × HasPulled cursor engine.old.handle.service engine.new.handle.service result
        answer.old answer.new positions.old positions.new }
{
    match engine.handle.service(alloc) {
        Some(service) => {
            let mut service = service;
            let status = pull_of::<Brand>(&mut service, cursor, answer, positions, opening());
            engine.handle.give(service);
            status
        }
        None => MISUSE,
    }
}

/// Drops the held cursor of the service.
fn drop_of(service: &mut Service, cursor: u64) -> i32
    ensures { HasDropped cursor service.old service.new result }
{
    if service.drop_held(cursor) {
        return OK;
    }
    MISUSE
}

/// Lets the held cursor go, with what it has left.
///
/// - `OK`: it is held no more.
/// - `MISUSE`: no cursor of this number is held, or the engine is closed.
#[unsafe(no_mangle)]
pub extern "C" fn core_drop(alloc: Global, engine: &mut CoreEngine, cursor: u64) -> i32
    ensures closed { engine.old.handle.full ≡ false → IsMisuse engine.old engine.new result }
    ensures open { engine.old.handle.full ≡ true → StaysOpen engine.old engine.new
        × HasDropped cursor engine.old.handle.service engine.new.handle.service result }
{
    match engine.handle.service(alloc) {
        Some(service) => {
            let mut service = service;
            let status = drop_of(&mut service, cursor);
            engine.handle.give(service);
            status
        }
        None => MISUSE,
    }
}
