//! The clock of an event by its schema, without a table of places.

ghost use Rattle.std.specs.Prelude.{◌≡◌, Some};
ghost use Rattle.window_clock.specs.Clocks.{int_of, clock_of};

use crate::int_of;
use cel_terms::Window;
use cel_terms::reading::value_of;
use cer_base::Pos;
use stream_schema::{Event, Schema};

/// The event's clock at the position, where it has one.
pub fn clock_of(schema: &Schema, window: &Window, event: &Event, position: Pos) -> Option<i128>
    ensures { result ≡ clock_of schema.now window.now event.now position }
{
    match window {
        Window::Free => Some(i128::from(position)),
        Window::Events(_) => Some(i128::from(position)),
        Window::Clock(name, _) => match value_of(schema, event, name.text.as_str()) {
            Some(value) => int_of(value),
            None => None,
        },
    }
}
