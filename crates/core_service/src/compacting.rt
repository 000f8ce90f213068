//! A compaction of an engine that holds two lists of cursors.

ghost use Rattle.std.specs.Prelude.{◌≡◌, ◌<◌, ◌≤◌, List, [], ◌∷◌, ◌++◌, length, All, OnOk, OnErr};
ghost use Rattle.std.specs.Vec.{vec_len, vec_capacity};
ghost use Rattle.stream_schema.specs.declared.Event.{Event};
ghost use Rattle.query_engine.specs.Engine.{Open, Fits, StandsFor, SameQueries, count_of};
ghost use Rattle.core_service.specs.Answering.{AreKept};

use cer_base::Memory;
use cer_base::steps::Steps;
use query_engine::{Cursor, Engine};
use std::sync::ledger::Ledger;

/// Moves the last of some cursors to the end of a list that has room for it.
fn move_last(from: &mut Vec<Cursor>, to: &mut Vec<Cursor>)
    requires some { 0 < length from.old.items }
    requires room { vec_len to.old < vec_capacity to.old }
    ensures { (last : Open) × (from.old.items ≡ from.new.items ++ last ∷ [])
        × (to.new.items ≡ to.old.items ++ last ∷ []) }
{
    match from.pop() {
        Some(cursor) => match to.push(cursor) {
            Ok(()) => {}
            Err(_) => unreachable!(),
        },
        None => unreachable!(),
    }
}

/// Compacts the engine, with the cursors of both lists held, of which the second has one at most. After
/// `Memory` nothing has changed.
pub fn compact_both<L: Ledger>(
    engine: &mut Engine,
    held: &mut Vec<Cursor>,
    last: &mut Vec<Cursor>,
    steps: &mut Steps<L>,
) -> Result<(), Memory>
    requires held { All (Fits engine.old) held.old.items }
    requires last { All (Fits engine.old) last.old.items }
    requires one { length last.old.items ≤ 1 }
    ensures held { OnOk result (AreKept engine.old engine.new held.old.items held.new.items) }
    ensures last { OnOk result (AreKept engine.old engine.new last.old.items last.new.items) }
    ensures stands { OnOk result ((events : List Event) → StandsFor engine.old events
        → StandsFor engine.new events) }
    ensures same { SameQueries engine.old engine.new }
    ensures count { count_of engine.new ≡ count_of engine.old }
    ensures unchanged { OnErr result ((engine.new ≡ engine.old)
        × (held.new.items ≡ held.old.items) × (last.new.items ≡ last.old.items)) }
{
    if last.is_empty() {
        return engine.compact(held.as_mut_slice(), steps);
    }
    held.append(last)?;
    let outcome = engine.compact(held.as_mut_slice(), steps);
    move_last(held, last);
    outcome
}
