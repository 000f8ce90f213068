//! The open matches of one key, event by event.
ghost use Rattle.std.specs.Prelude.{◌≡◌, length, All, IfOk};
ghost use Rattle.cer_base.specs.Bits.{room_for};
ghost use Rattle.cer_base.specs.Nodes.{WellFormed, IsRoot};
ghost use Rattle.cea_determinise.specs.Cea.{IsWellFormed};

use crate::listings::write_all;
use crate::lists::starts_of;
use cea_determinise::cea::Cea;
use cea_determinise::lazy_dfa::LazyDfa;
use cea_determinise::table::State;
use cer_base::bits::Bits;
use cer_base::node::Stamp;
use cer_base::seed::Seed;
use cer_base::steps::Steps;
use cer_base::time::{LowTime, Time};
use cer_base::{Memory, Pos};
use event_update::{ActiveStates, Stage, commit, prepare};
use std::alloc::Global;
use std::marker::Model;
use std::sync::ledger::Ledger;
use tecs_arena::Arena;
use tecs_enumerate::Cursor;
use union_lists::UList;

/// The open matches after some events, whose clocks are all 0, of those that start at a low clock or
/// later. Seen as the table of states.
#[derive(Drop)]
pub struct OpenMatches {
    low: LowTime,
    lazy_dfa: LazyDfa,
    store: Arena,
    active: ActiveStates,
    stage: Stage,
    next: Pos,
}

impl Model for OpenMatches {
    ghost use Rattle.cea_determinise.specs.LazyDfa.{Table};
    ghost use Rattle.set_tests.specs.Ready.{IsReady};

    ghost Value = { Table };

    ghost view = { λ m. m.lazy_dfa };

    ghost invariant = { λ m. IsReady m.low m.lazy_dfa m.store.nodes m.active.entries m.next };
}

/// Writes the state's number, where the entries of its list start, and its members.
fn write_list<L: Ledger>(
    alloc: Global,
    store: &Arena,
    state: State,
    list: &UList,
    text: &mut String,
    steps: &mut Steps<L>,
) -> Result<(), Memory>
    requires well_formed { WellFormed store.now.nodes }
    requires roots { All (IsRoot store.now.nodes) list.now }
{
    let starts = starts_of(alloc, list)?;
    let mut entries = Vec::new(alloc);
    list.push_to(&mut entries)?;
    let mut cursor = Cursor::begin(alloc, store, 1, entries.as_slice(), 0, steps)?;
    let members = write_all(alloc, &mut cursor, store, steps)?;
    let line = format!(in alloc; "{state} {starts:?}: {members}")?;
    text.push_str(&line)?;
    Ok(())
}

impl OpenMatches {
    /// No match, before the first event.
    pub fn new(alloc: Global, cea: Cea, low: LowTime) -> OpenMatches
        requires { IsWellFormed cea }
        ensures { result.cea ≡ cea }
    {
        OpenMatches {
            low,
            lazy_dfa: LazyDfa::new(alloc, Seed::default(), cea),
            store: Arena::new(alloc),
            active: ActiveStates::new(alloc),
            stage: Stage::new(alloc),
            next: 0,
        }
    }

    /// Takes the next event, which these leaves can read.
    pub fn take<L: Ledger>(&mut self, bits: &Bits, steps: &mut Steps<L>) -> Result<(), Memory>
        requires { length bits.now ≡ room_for self.old.cea.size }
        ensures { self.new.cea ≡ self.old.cea }
    {
        let pos = self.next;
        let next = match pos.checked_add(1) {
            Some(next) => next,
            None => return Err(Memory),
        };
        let stamp = Stamp {
            pos,
            clock: Time::of(0),
        };
        let staged = prepare(
            &self.active,
            &mut self.stage,
            &mut self.store,
            &mut self.lazy_dfa,
            bits,
            stamp,
            self.low,
            steps,
        )?;
        commit(&mut self.active, &mut self.stage, staged);
        self.next = next;
        Ok(())
    }

    /// Writes the list of each state, in order.
    pub fn write<L: Ledger>(
        &self,
        alloc: Global,
        text: &mut String,
        steps: &mut Steps<L>,
    ) -> Result<(), Memory> {
        for k in 0..self.active.len() {
            let state = self.active.state(k);
            write_list(alloc, &self.store, state, self.active.list(k), text, steps)?;
        }
        Ok(())
    }
}
