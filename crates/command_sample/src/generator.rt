//! The generated events.

ghost use Rattle.std.specs.Prelude.{◌≡◌, IfOk};
ghost use Rattle.command_sample.specs.Generator.{next_value, generated_event};

use cer_base::{Listed, Memory};
use std::alloc::Global;
use stream_schema::{Event, Value};

fn next_value(x: u64) -> u64
    ensures { result ≡ next_value x }
{
    x.wrapping_mul(6364136223846793005)
        .wrapping_add(1442695040888963407)
}

fn generated_event(alloc: Global, x: u64) -> Result<Event, Memory>
    ensures { IfOk result (λ event. event ≡ generated_event x) }
{
    Ok(Event {
        ty: x >> 63,
        values: Listed::of(vec![in alloc; Value::Int(((x >> 56) % 128) as i64)]?),
    })
}

/// The generator's value after `x`, and the event that it makes.
pub fn sample_event(alloc: Global, x: u64) -> Result<(u64, Event), Memory>
    ensures { IfOk result (λ made. (made.0 ≡ next_value x)
        × (made.1 ≡ generated_event (next_value x))) }
{
    let next = next_value(x);
    Ok((next, generated_event(alloc, next)?))
}
