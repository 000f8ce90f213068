//! Whether an interval is in a query's window.

ghost use Rattle.std.specs.Prelude.{◌≡◌, Some, false, slice_get};
ghost use Rattle.std.specs.Option.{option_copied, option_map_or};
ghost use Rattle.cel_terms.specs.Predicate.{attr_value};
ghost use Rattle.cel_lists.specs.Below.{are_close, window_holds, is_in_window};

use cel_terms::Window;
use cel_terms::reading::value_of;
use cer_base::Pos;
use stream_schema::{Event, Schema, Value};

/// Whether both are whole numbers, the later at most `n` more than the earlier.
fn are_close(n: i128, earlier: &Value, later: &Value) -> bool
    ensures { result ≡ are_close n (Some earlier.now) (Some later.now) }
{
    match (earlier, later) {
        (Value::Int(from), Value::Int(to)) => i128::from(*to) - i128::from(*from) <= n,
        _ => false,
    }
}

/// Whether both events have the attribute, the later at most `n` more than the earlier.
fn have_close(schema: &Schema, name: &str, n: i128, first: &Event, last: &Event) -> bool
    ensures { result ≡ are_close n (attr_value schema.now first.now name.now)
        (attr_value schema.now last.now name.now) }
{
    match value_of(schema, first, name) {
        Some(earlier) => match value_of(schema, last, name) {
            Some(later) => are_close(n, earlier, later),
            None => false,
        },
        None => false,
    }
}

fn window_holds(
    schema: &Schema,
    window: &Window,
    start: Pos,
    end: Pos,
    first: &Event,
    last: &Event,
) -> bool
    ensures { result ≡ window_holds schema.now window.now start end first.now last.now }
{
    match window {
        Window::Free => true,
        Window::Events(n) => u128::from(end) <= u128::from(start) + u128::from(*n),
        Window::Clock(name, n) => have_close(schema, name.text.as_str(), *n, first, last),
    }
}

/// Whether there are events at the start and the end, and the interval is in the window.
pub fn is_in_window(
    schema: &Schema,
    window: &Window,
    events: &[Event],
    start: Pos,
    end: Pos,
) -> bool
    ensures { result ≡ is_in_window schema.now window.now events.now start end }
{
    match events.get(start as usize) {
        Some(first) => match events.get(end as usize) {
            Some(last) => window_holds(schema, window, start, end, first, last),
            None => false,
        },
        None => false,
    }
}
