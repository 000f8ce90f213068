//! The lists of the key that an event has.

ghost use Rattle.std.specs.Prelude.{◌≡◌, ◌+◌, ◌<◌, ◌≤◌, ◌⊎◌, ◌&&◌, Bool, true, false, List, [], ◌∷◌, ◌++◌, length, Option, Some, None, slice_get, slice_index_or, IfOk, IfSome, IfNone, OnOk, OnErr, ℕ};
ghost use Rattle.cer_base.specs.Bits.{has};
ghost use Rattle.event_update.specs.Update.{work_bound};
ghost use Rattle.query_state.specs.KeyPlaces.{key_there};
ghost use Rattle.query_state.specs.Matches.{HasKeyThere, CanWork, cut, CanCut, Stays, OwnNone, IsOwnReady, HasOwnWorked};
ghost use Rattle.query_state.specs.Own.{HasNumberThere, IsOwn};
ghost use Rattle.stream_schema.specs.declared.Event.{Event as EventData};

use crate::matches::{Matches, Ready, Sizes};
use crate::reading::{Places, key_of, places_of};
use cer_base::Memory;
use cer_base::bits::Bits;
use cer_base::node::Stamp;
use cer_base::steps::Steps;
use cer_base::time::LowTime;
use partition_table::Key;
use std::alloc::Global;
use std::sync::ledger::Ledger;
use stream_schema::Event;

/// The number of the event's key, where it is found without a search. Where the query is told to be
/// whole, it is that of the key of no values.
#[inline(always)]
fn known(matches: &Matches, table: &[Option<Places>], whole: bool, event: &Event) -> Option<u64>
    requires { whole ≡ true → slice_index_or table.now event.now.ty None ≡ Some [] }
    ensures { IfSome result (λ n. (places : List ℕ)
        × (slice_index_or table.now event.now.ty None ≡ Some places)
        × HasKeyThere matches.now places event.now.values n) }
{
    if whole && matches.has_whole() {
        return Some(0);
    }
    match places_of(table, event.ty) {
        Some(places) => matches.find(places, event.values.as_slice()),
        None => None,
    }
}

/// What is known of an event before the lists of its key are worked out.
#[derive(Drop, Clone, Copy)]
pub enum Own {
    /// It changes no list.
    NoOp,
    /// It changes no list, but some may have no start in the window. Its key has this number.
    Passes(u64),
    /// Its key has this number.
    At(u64),
    /// Nothing more.
    Unknown,
}

/// Whether no leaf that may read the first event of a match is among these.
#[inline(always)]
fn begins_none(first: &Bits, bits: &Bits) -> bool
    requires { length first.now ≡ length bits.now }
    ensures { result ≡ true → (k : ℕ) → has first.now k && has bits.now k ≡ false }
{
    !first.meets(bits)
}

/// Whether the event, of the key with this number, begins no match, and none is open of that key.
#[inline(always)]
fn is_nothing_at(matches: &Matches, number: u64, first: &Bits, bits: &Bits) -> bool
    requires inside { number < length matches.now.rows }
    requires room { length first.now ≡ length bits.now }
    ensures begins { result ≡ true → (k : ℕ) → has first.now k && has bits.now k ≡ false }
    ensures none { result ≡ true → slice_get matches.now.rows number ≡ Some [] }
{
    matches.has_none(number) && begins_none(first, bits)
}

/// Whether an event that has the key is nothing to the query state.
fn is_nothing(matches: &Matches, key: &Key, first: &Bits, bits: &Bits) -> bool
    requires room { length first.now ≡ length bits.now }
    ensures { result ≡ true → OwnNone matches.now (Some key.now) first.now bits.now }
{
    begins_none(first, bits) && matches.has_none_of(key)
}

/// Whether the event, whose key is not found without a search, has no key, or begins no match while
/// its key is known not to be there.
#[inline(always)]
fn is_nothing_unfound(
    matches: &Matches,
    table: &[Option<Places>],
    event: &Event,
    first: &Bits,
    bits: &Bits,
) -> bool
    requires room { length first.now ≡ length bits.now }
    ensures { result ≡ true → (skip_insensitive : Bool) → Stays matches.now
        (key_there table.now event.now) first.now bits.now skip_insensitive }
{
    match places_of(table, event.ty) {
        Some(places) => {
            begins_none(first, bits) && matches.lacks(places, event.values.as_slice())
        }
        None => true,
    }
}

/// What is known of the event, by the set of the leaves that can read it. It changes no list where
/// it has no key, where no leaf can read it and its key's lists are known to be dormant, or the
/// automaton is told to be skip-insensitive, and where it begins no match and none is open of its
/// key. It passes where it is known to be a no-op for its key's lists, none of which accepts. It is
/// told whether the query has no partition, and which leaves may read the first event of a match. It
/// takes no step and no memory.
#[inline(always)]
pub fn look(
    matches: &Matches,
    table: &[Option<Places>],
    whole: bool,
    event: &Event,
    first: &Bits,
    bits: &Bits,
    skip_insensitive: bool,
) -> Own
    requires whole { whole ≡ true → slice_index_or table.now event.now.ty None ≡ Some [] }
    requires room { length first.now ≡ length bits.now }
    ensures { IsOwn result matches.now table.now event.now first.now bits.now skip_insensitive }
{
    if bits.is_empty() && matches.lets_pass(skip_insensitive) {
        return Own::NoOp;
    }
    match known(matches, table, whole, event) {
        None => {
            if is_nothing_unfound(matches, table, event, first, bits) {
                return Own::NoOp;
            }
            Own::Unknown
        }
        Some(number) => {
            if matches.dormant(number, bits) {
                return Own::NoOp;
            }
            if is_nothing_at(matches, number, first, bits) {
                return Own::NoOp;
            }
            if matches.lets_own_pass(number, bits) {
                return Own::Passes(number);
            }
            Own::At(number)
        }
    }
}

/// What is known of the event once the low clock is known: one that passes changes no list where each
/// of its key's has a start from that clock on. Else the lists are worked out, and the others go.
#[inline(always)]
fn settled(own: Own, matches: &Matches, low: &LowTime) -> Own
    requires { HasNumberThere own matches.now }
    ensures { (table : List (Option (List ℕ))) (event : EventData) (first bits : List Bool)
        (skip_insensitive : Bool)
        → IsOwn own matches.now table event first bits skip_insensitive
        → IsOwn result matches.now table event first bits skip_insensitive }
{
    match own {
        Own::Passes(number) => {
            if matches.are_recent(number, low) {
                return Own::NoOp;
            }
            Own::At(number)
        }
        _ => own,
    }
}

/// Works out the lists of the event's key, by the set of the leaves that can read the event, and by what
/// is known of it. `None` where no list changes: where that is known and each list has a start in the
/// window, where it has no key, and where it begins no match and none is open of its key. After
/// `Memory` nothing has changed. Where some list may change, the sizes are then those from before.
#[inline(always)]
pub fn advance_own<L: Ledger>(
    own: Own,
    matches: &mut Matches,
    sizes: &mut Sizes,
    alloc: Global,
    table: &[Option<Places>],
    event: &Event,
    first: &Bits,
    bits: &Bits,
    skip_insensitive: bool,
    stamp: Stamp,
    low: LowTime,
    steps: &mut Steps<L>,
) -> Result<Option<Ready>, Memory>
    requires own { IsOwn own matches.old table.now event.now first.now bits.now skip_insensitive }
    requires room { length first.now ≡ length bits.now }
    requires event { CanWork stamp bits.now matches.old }
    ensures stays { IfOk result (λ o. IfNone o ((matches.new ≡ matches.old)
        × (steps.new ≡ steps.old)
        × Stays matches.old (key_there table.now event.now) first.now bits.now skip_insensitive)) }
    ensures ready { IfOk result (λ o. IfSome o (λ r. IsOwnReady stamp low bits.now
        (key_there table.now event.now) r.number r.staged matches.old matches.new)) }
    ensures sizes { IfOk result (λ o. IfSome o (λ r. (cut sizes.new matches.new ≡ matches.old)
        × CanCut sizes.new matches.new)) }
    ensures refused { OnErr result (matches.new ≡ matches.old) }
    ensures steps { OnOk result (steps.new
        ≤ steps.old + work_bound (length matches.new.table.states)) }
    ensures worked { (steps.new ≡ steps.old) ⊎ HasOwnWorked bits.now
        (key_there table.now event.now) matches.old steps.old steps.new }
{
    match settled(own, matches, &low) {
        Own::NoOp | Own::Passes(_) => Ok(None),
        Own::At(number) => {
            let ready = matches.advance_at(sizes, number, bits, stamp, low, steps)?;
            Ok(Some(ready))
        }
        Own::Unknown => match key_of(alloc, table, event)? {
            None => Ok(None),
            Some(key) => {
                if is_nothing(matches, &key, first, bits) {
                    return Ok(None);
                }
                let ready = matches.advance(sizes, &key, bits, stamp, low, steps)?;
                Ok(Some(ready))
            }
        },
    }
}
