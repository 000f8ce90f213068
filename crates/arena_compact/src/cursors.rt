//! The stacks of held cursors: they say which nodes are kept, and are moved with their nodes.
ghost use Rattle.std.specs.Prelude.{◌≡◌, ◌<◌, [], ◌∷◌, ℕ, All, length, map, get_or};
ghost use Rattle.tecs_enumerate.specs.Remaining.{CursorState, Fits, id_of};
ghost use Rattle.arena_compact.specs.Marks.{IsKept, CanKeep, HaveKept};
ghost use Rattle.arena_compact.specs.Roots.{stack_roots, cursor_roots, AreMoved, CursorMoved};

use super::marks::keep;
use super::moves::place_of;
use cer_base::node::Id;
use cer_base::time::LowTime;
use tecs_enumerate::Cursor;

/// What has a cursor: it can be seen, and the nodes of its stack changed. A compaction changes
/// nothing else of it.
pub trait HasCursor {
    ghost use Rattle.std.specs.Prelude.{◌≡◌, ◌<◌, length, map, slice_set};
    ghost use Rattle.tecs_enumerate.specs.Remaining.{CursorState, id_of, prefix_of};

    /// The cursor, as what is left of its walk.
    ghost walk: { Self → CursorState };

    /// The cursor.
    fn cursor(&self) -> &Cursor
        ensures { result.now ≡ walk self.now };

    /// Changes the id of the node at entry k of the cursor's stack, counted from 0 at its top, and
    /// nothing else. k is below the cursor's `depth`. It takes no memory.
    fn set(&mut self, k: usize, id: Id)
        requires { k < length (walk self.old).stack }
        ensures ids { map id_of (walk self.new).stack
            ≡ slice_set (map id_of (walk self.old).stack) k id }
        ensures prefixes { map prefix_of (walk self.new).stack
            ≡ map prefix_of (walk self.old).stack }
        ensures same { walk self.new ≡ record (walk self.old)
            { stack = (walk self.new).stack } };
}

impl HasCursor for Cursor {
    ghost walk = { λ c. c };

    fn cursor(&self) -> &Cursor {
        self
    }

    fn set(&mut self, k: usize, id: Id) {
        self.set(k, id);
    }
}

/// Keeps the nodes that a cursor still has on its stack, from the cursor's clock on.
pub fn keep_cursor(cursor: &Cursor, table: &mut [Option<Id>], lows: &mut [LowTime])
    requires { CanKeep (λ n. All (λ id. id < n) (map id_of cursor.now.stack)) table.old lows.old }
    ensures { HaveKept (Fits cursor.now) (stack_roots cursor.now) table.old lows.old table.new
        lows.new }
{
    let low = LowTime::of(cursor.low());
    for k in 0..cursor.depth() {
        keep(table, lows, cursor.at(k), *&low);
    }
}

/// Moves a cursor's stack: each entry is of the new place of its node.
pub fn move_cursor<C: HasCursor>(cursor: &mut C, table: &[Option<Id>])
    requires kept { All (λ id. IsKept table.now id) (map id_of (C.walk cursor.old).stack) }
    ensures moved { AreMoved table.now (C.walk cursor.old).stack (C.walk cursor.new).stack }
    ensures same { C.walk cursor.new ≡ record (C.walk cursor.old)
        { stack = (C.walk cursor.new).stack } }
{
    for k in 0..cursor.cursor().depth() {
        let place = place_of(table, cursor.cursor().at(k));
        cursor.set(k, place);
    }
}

/// Keeps the nodes that the cursor still has on its stack, if it is the query's.
fn keep_if(cursor: &Cursor, query: u64, table: &mut [Option<Id>], lows: &mut [LowTime])
    requires { CanKeep (λ n. cursor.now.query ≡ query
        → All (λ id. id < n) (map id_of cursor.now.stack)) table.old lows.old }
    ensures { HaveKept (λ nodes. cursor.now.query ≡ query → Fits cursor.now nodes)
        (cursor_roots query (cursor.now ∷ [])) table.old lows.old table.new lows.new }
{
    if cursor.query() == query {
        keep_cursor(cursor, table, lows);
    }
}

/// Keeps the nodes that the query's cursors still have on their stacks, each from its cursor's clock
/// on. A cursor that has given all has none.
pub fn keep_cursors<C: HasCursor>(
    cursors: &[C],
    query: u64,
    table: &mut [Option<Id>],
    lows: &mut [LowTime],
)
    requires { CanKeep (λ n. All (λ w. w.query ≡ query
        → All (λ id. id < n) (map id_of w.stack)) (map C.walk cursors.now)) table.old lows.old }
    ensures { HaveKept (λ nodes. All (λ w. w.query ≡ query → Fits w nodes) (map C.walk cursors.now))
        (cursor_roots query (map C.walk cursors.now)) table.old lows.old table.new lows.new }
{
    for k in 0..cursors.len() {
        keep_if(cursors[k].cursor(), query, table, lows);
    }
}

/// Moves the cursor, if it is the query's.
fn move_if<C: HasCursor>(cursor: &mut C, query: u64, table: &[Option<Id>])
    requires kept { (C.walk cursor.old).query ≡ query
        → All (λ id. IsKept table.now id) (map id_of (C.walk cursor.old).stack) }
    ensures { CursorMoved query table.now (C.walk cursor.old) (C.walk cursor.new) }
{
    if cursor.cursor().query() == query {
        move_cursor(cursor, table);
    }
}

/// Moves the stacks of the query's cursors.
pub fn move_cursors<C: HasCursor>(cursors: &mut [C], query: u64, table: &[Option<Id>])
    requires kept { All (λ w. w.query ≡ query
        → All (λ id. IsKept table.now id) (map id_of w.stack)) (map C.walk cursors.old) }
    ensures length { length cursors.new ≡ length cursors.old }
    ensures moved { (k : ℕ) → (d : CursorState) → k < length cursors.old
        → CursorMoved query table.now (get_or (map C.walk cursors.old) k d)
        (get_or (map C.walk cursors.new) k d) }
{
    for k in 0..cursors.len() {
        move_if(&mut cursors[k], query, table);
    }
}
