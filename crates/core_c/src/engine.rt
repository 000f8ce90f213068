//! An engine as C holds it: opened with a query text, and closed.

ghost use Rattle.std.specs.Prelude.{◌≡◌, true, false, None, IfOk};
ghost use Rattle.core_c.specs.declared.status.TheConstants.{OK, MISUSE};
ghost use Rattle.core_c.specs.Notes.{HasTold};
ghost use Rattle.core_c.specs.Calls.{IsMisuse, HasOpened};

use crate::handle::Handle;
use crate::notes::{CoreFault, tell_query};
use crate::status::{MEMORY, MISUSE, OK, QUERY};
use cer_base::seed::Seed;
use cer_base::{Memory, OrMemory};
use core_service::Service;
use std::alloc::Global;

/// An engine: closed where it is zeros but for the seed.
#[repr(C)]
#[derive(Drop)]
pub struct CoreEngine {
    /// Where its service is.
    pub handle: Handle,
    /// Two numbers that a caller picks before it opens the engine. No answer depends on them. Where
    /// strangers choose the values that queries are parted by, they are to be ones that nobody can guess.
    pub seed_low: u64,
    pub seed_high: u64,
}

/// The service in a box.
fn boxed(alloc: Global, service: Service) -> Result<Box<Service>, Memory>
    ensures { IfOk result (λ boxed. boxed.value ≡ service) }
{
    match Box::new(alloc, service) {
        Ok(boxed) => Ok(boxed),
        Err(_) => Err(Memory),
    }
}

/// Makes a service for the queries of the text, and gives it to the handle.
fn open_of(
    alloc: Global,
    seed: Seed,
    text: &[u8],
    handle: &mut Handle,
    fault: &mut CoreFault,
    words: &mut [u8],
) -> i32
    ensures { HasOpened text.now handle.old handle.new result fault.old fault.new words.old words.new }
{
    match Service::open(alloc, seed, text) {
        Ok(service) => match boxed(alloc, service) {
            Ok(boxed) => {
                handle.give(boxed);
                OK
            }
            Err(_) => MEMORY,
        },
        Err(OrMemory::Fault(error)) => match tell_query(alloc, error, fault, words) {
            Ok(()) => QUERY,
            Err(_) => MEMORY,
        },
        Err(OrMemory::Memory) => MEMORY,
    }
}

/// Opens the closed engine for the queries of the text.
///
/// - `OK`: it serves the schema that the text declares and the queries that it asks, over no event.
/// - `QUERY`: the text has a fault, of which the first one is told. The engine is closed as before.
/// - `MEMORY`: memory ran out. The engine is closed as before.
/// - `MISUSE`: the engine is open, and stays as it is.
#[unsafe(no_mangle)]
pub extern "C" fn core_open(
    alloc: Global,
    engine: &mut CoreEngine,
    text: &[u8],
    fault: &mut CoreFault,
    words: &mut [u8],
) -> i32
    ensures full { engine.old.handle.full ≡ true → IsMisuse engine.old engine.new result
        × HasTold None fault.old fault.new words.old words.new }
    ensures opened { engine.old.handle.full ≡ false →
        HasOpened text.now engine.old.handle engine.new.handle result fault.old fault.new
        words.old words.new }
    ensures low { engine.new.seed_low ≡ engine.old.seed_low }
    ensures high { engine.new.seed_high ≡ engine.old.seed_high }
{
    if engine.handle.is_full() {
        return MISUSE;
    }
    let seed = Seed::of(engine.seed_low, engine.seed_high);
    open_of(alloc, seed, text, &mut engine.handle, fault, words)
}

/// Closes the engine, and gives up all memory that its service has.
///
/// - `OK`: it is closed.
/// - `MISUSE`: it was closed, and is as it was.
#[unsafe(no_mangle)]
pub extern "C" fn core_close(alloc: Global, engine: &mut CoreEngine) -> i32
    ensures closed { engine.old.handle.full ≡ false → IsMisuse engine.old engine.new result }
    ensures open { engine.old.handle.full ≡ true → (result ≡ OK) × (engine.new.handle.full ≡ false) }
    ensures low { engine.new.seed_low ≡ engine.old.seed_low }
    ensures high { engine.new.seed_high ≡ engine.old.seed_high }
{
    match engine.handle.service(alloc) {
        Some(_service) => OK,
        None => MISUSE,
    }
}

/// The version of the calls, which the header has too: a caller sees whether the two fit.
#[unsafe(no_mangle)]
pub extern "C" fn core_version() -> u32
    ensures { result ≡ 1 }
{
    VERSION
}

/// The version of the calls.
pub const VERSION: u32 = 1;
