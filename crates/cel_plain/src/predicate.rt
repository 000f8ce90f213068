//! Whether a predicate holds of an event.

ghost use Rattle.std.specs.Prelude.{◌≡◌};
ghost use Rattle.std.specs.List.{list_all, list_any};
ghost use Rattle.cel_terms.specs.Predicate.{attr_value, some_meets, holds};

use cel_terms::Pred;
use cel_terms::reading::value_of;
use stream_schema::{Event, Schema, is_met_by};

/// Whether each of the predicates holds of the event.
#[cycle(holds)]
fn all_hold(schema: &Schema, preds: &[Pred], event: &Event) -> bool
    ensures { result ≡ list_all (λ p. holds schema.now p event.now) preds.now }
{
    for pred in preds {
        if !holds(schema, pred, event) {
            return false;
        }
    }
    true
}

/// Whether some of the predicates holds of the event.
#[cycle(holds)]
fn any_holds(schema: &Schema, preds: &[Pred], event: &Event) -> bool
    ensures { result ≡ list_any (λ p. holds schema.now p event.now) preds.now }
{
    for pred in preds {
        if holds(schema, pred, event) {
            return true;
        }
    }
    false
}

/// Whether the predicate holds of the event.
#[cycle(holds)]
pub fn holds(schema: &Schema, pred: &Pred, event: &Event) -> bool
    ensures { result ≡ holds schema.now pred.now event.now }
{
    match pred {
        Pred::Cmp(name, op, literal) => match value_of(schema, event, name.text.as_str()) {
            Some(value) => is_met_by(*op, value, literal),
            None => false,
        },
        Pred::Not(inner) => !holds(schema, inner, event),
        Pred::All(preds) => all_hold(schema, preds, event),
        Pred::Any(preds) => any_holds(schema, preds, event),
    }
}
