//! The queries of a file's text, and an engine for them.

ghost use Rattle.std.specs.Prelude.{◌≡◌, ℕ, [], All, IfOk, IfErr};
ghost use Rattle.cer_base.specs.Answers.{OnFault};
ghost use Rattle.cer_outside.specs.Causes.{AllStay};
ghost use Rattle.cer_outside.specs.Content.{OfOpened};
ghost use Rattle.cel_terms.specs.Checked.{IsChecked};
ghost use Rattle.query_engine.specs.Engine.{StandsFor, count_of, peak_of};
ghost use Rattle.command_base.specs.Accepted.{Accepts, IsRefusedText};
ghost use Rattle.command_base.specs.Ending.{QueriesStop, NotRead, IsAskedFor};

use super::opening::{Stop, take_whole};
use super::{Cause, File};
use ceql_parser::{Accepted, QueryError, read_queries};
use cer_base::{Memory, OrMemory};
use cer_outside::Host;
use query_engine::Engine;
use std::alloc::Global;

/// What the text of the host's file declares and asks.
pub fn read_accepted<H: Host>(
    alloc: Global,
    host: &mut H,
    queries: &str,
) -> Result<Accepted, Stop<H::Src>>
    ensures accepted { IfOk result (λ a.
        OfOpened (H.content host.old queries.now) (λ text. Accepts text a.schema a.queries)) }
    ensures checked { IfOk result (λ a. All (IsChecked a.schema) a.queries) }
    ensures stop { IfErr result (λ stop. NotRead
        (QueriesStop (record { faults = H.Src.faults; left = H.Src.left })
        (H.content host.old queries.now) (H.faults host.old queries.now)
        (H.faults host.new queries.now))
        queries.now (H.faults host.old) (H.faults host.new) stop.cause stop.failed stop.left) }
    ensures counts { IfOk result (λ a. AllStay (H.faults host.old) (H.faults host.new)) }
    ensures asked { IsAskedFor H.opens H.content queries.now host.old host.new }
{
    let text = match take_whole(alloc, host, File::Queries, queries) {
        Ok(text) => text,
        Err(stop) => return Err(stop),
    };
    match accepted_of(alloc, text.as_slice()) {
        Ok(accepted) => Ok(accepted),
        Err(OrMemory::Memory) => Err(Stop::of(Cause::Memory)),
        Err(OrMemory::Fault(error)) => Err(Stop::of(Cause::Queries {
            fault: error.fault,
            place: error.place,
        })),
    }
}

/// What the text declares and asks.
fn accepted_of(alloc: Global, text: &[u8]) -> Result<Accepted, OrMemory<QueryError>>
    ensures accepted { IfOk result (λ a. Accepts text.now a.schema a.queries) }
    ensures checked { IfOk result (λ a. All (IsChecked a.schema) a.queries) }
    ensures refused { OnFault result (λ error. IsRefusedText text.now error.fault error.place) }
{
    match read_queries(alloc, text) {
        Ok(accepted) => Ok(accepted),
        Err(refusal) => Err(refusal),
    }
}

/// A new engine for the queries of the host's file.
pub fn read_engine<H: Host>(
    alloc: Global,
    host: &mut H,
    queries: &str,
) -> Result<Engine, Stop<H::Src>>
    ensures accepted { IfOk result (λ e.
        OfOpened (H.content host.old queries.now) (λ text. Accepts text e.schema e.queries)) }
    ensures stands { IfOk result (λ e. StandsFor e []) }
    ensures count { IfOk result (λ e. count_of e ≡ 0) }
    ensures peaks { IfOk result (λ e. (query : ℕ) → peak_of e query ≡ 0) }
    ensures stop { IfErr result (λ stop. NotRead
        (QueriesStop (record { faults = H.Src.faults; left = H.Src.left })
        (H.content host.old queries.now) (H.faults host.old queries.now)
        (H.faults host.new queries.now))
        queries.now (H.faults host.old) (H.faults host.new) stop.cause stop.failed stop.left) }
    ensures counts { IfOk result (λ e. AllStay (H.faults host.old) (H.faults host.new)) }
    ensures asked { IsAskedFor H.opens H.content queries.now host.old host.new }
{
    let accepted = match read_accepted(alloc, host, queries) {
        Ok(accepted) => accepted,
        Err(stop) => return Err(stop),
    };
    match Engine::seeded(alloc, host.seed(), accepted.schema, accepted.queries) {
        Ok(engine) => Ok(engine),
        Err(Memory) => Err(Stop::of(Cause::Memory)),
    }
}
