//! Copies of values and of events.

ghost use Rattle.std.specs.Prelude.{◌≡◌, IfOk};

use crate::{Event, Value, Values};
use cer_base::{Listed, Memory, Text};
use std::alloc::Global;

/// An event of its own that equals the one given.
pub fn copy_event(alloc: Global, event: &Event) -> Result<Event, Memory>
    ensures { IfOk result (λ copy. copy ≡ event.now) }
{
    Ok(Event {
        ty: event.ty,
        values: copy_values(alloc, event.values.as_slice())?,
    })
}

/// Values of their own that equal those given, in order.
pub fn copy_values(alloc: Global, values: &[Value]) -> Result<Values, Memory>
    ensures { IfOk result (λ copy. copy ≡ values.now) }
{
    let mut copy = Vec::with_capacity(alloc, values.len())?;
    for value in values {
        copy.push(copy_value(alloc, value)?)?;
    }
    Ok(Listed::of(copy))
}

/// A value of its own that equals the one given.
pub fn copy_value(alloc: Global, value: &Value) -> Result<Value, Memory>
    ensures { IfOk result (λ copy. copy ≡ value.now) }
{
    match value {
        Value::Int(n) => Ok(Value::Int(*n)),
        Value::Text(text) => Ok(Value::Text(Text::copy_of(alloc, text.as_str())?)),
        Value::Flag(flag) => Ok(Value::Flag(*flag)),
        Value::Dec { scaled, places } => Ok(Value::Dec {
            scaled: *scaled,
            places: *places,
        }),
    }
}
