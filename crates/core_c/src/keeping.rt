//! What an engine keeps, and what it gives up.

ghost use Rattle.std.specs.Prelude.{◌≡◌, true, false};
ghost use Rattle.core_c.specs.Calls.{IsMisuse, StaysOpen, HasCompacted, HasSized};

use crate::count::opening;
use crate::engine::CoreEngine;
use crate::status::{MEMORY, MISUSE, NONE, OK};
use cer_base::steps::{Opening, Steps};
use core_service::Service;
use std::alloc::Global;
use std::marker::Brand;
use std::sync::ledger::Ledger;

/// How many events were taken and how many queries there are; and of one query how many nodes are kept,
/// how many there were at most after an event, and how many states were found.
#[repr(C)]
#[derive(Drop)]
pub struct CoreSizes {
    pub events: u64,
    pub queries: u64,
    pub nodes: u64,
    pub peak: u64,
    pub states: u64,
}

/// Compacts the service.
fn compact_of<L: Ledger>(service: &mut Service, opening: Opening) -> i32
    requires name { opening.name ≡ L.name }
    requires parts { opening.parts ≡ L.parts }
    ensures { HasCompacted service.old service.new result }
{
    let mut steps: Steps<L> = Steps::start(opening);
    match service.compact(&mut steps) {
        Ok(()) => OK,
        Err(_) => MEMORY,
    }
}

/// Gives up what no window reaches any more. The same answers are left, also in the midst of them.
///
/// - `OK`: it is given up.
/// - `MEMORY`: memory ran out, and nothing has changed.
/// - `MISUSE`: the engine is closed.
#[unsafe(no_mangle)]
pub extern "C" fn core_compact(alloc: Global, engine: &mut CoreEngine) -> i32
    ensures closed { engine.old.handle.full ≡ false → IsMisuse engine.old engine.new result }
    ensures open { engine.old.handle.full ≡ true → StaysOpen engine.old engine.new
        × HasCompacted engine.old.handle.service engine.new.handle.service result }
{
    match engine.handle.service(alloc) {
        Some(service) => {
            let mut service = service;
            let status = compact_of::<Brand>(&mut service, opening());
            engine.handle.give(service);
            status
        }
        None => MISUSE,
    }
}

/// Tells the sizes of the query.
fn sizes_of(service: &Service, query: u64, sizes: &mut CoreSizes) -> i32
    ensures { HasSized service.now.engine query result sizes.old sizes.new }
{
    match service.sizes(query) {
        Some(of) => {
            sizes.events = of.events;
            sizes.queries = of.queries;
            sizes.nodes = of.nodes;
            sizes.peak = of.peak;
            sizes.states = of.states;
            OK
        }
        None => NONE,
    }
}

/// Tells what is kept of the query with this number, from 1.
///
/// - `OK`: its sizes are told.
/// - `NONE`: there is no such query.
/// - `MISUSE`: the engine is closed.
#[unsafe(no_mangle)]
pub extern "C" fn core_sizes(
    alloc: Global,
    engine: &mut CoreEngine,
    query: u64,
    sizes: &mut CoreSizes,
) -> i32
    ensures closed { engine.old.handle.full ≡ false → IsMisuse engine.old engine.new result
        × (sizes.new ≡ sizes.old) }
    ensures open { engine.old.handle.full ≡ true → StaysOpen engine.old engine.new
        × (engine.new.handle.service ≡ engine.old.handle.service)
        × HasSized engine.old.handle.service.engine query result sizes.old sizes.new }
{
    match engine.handle.service(alloc) {
        Some(service) => {
            let status = sizes_of(&service, query, sizes);
            engine.handle.give(service);
            status
        }
        None => MISUSE,
    }
}
