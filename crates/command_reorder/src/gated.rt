//! The events of a file that come late, by their clocks.

ghost use Rattle.std.specs.Prelude.{◌≡◌, ◌^◌, ◌<◌, [], ℕ, List, Some, true, false, IfOk};
ghost use Rattle.event_reader.specs.LineReaders.{HasGiven};
ghost use Rattle.reorder_gate.specs.AttributeClock.{clock_fits, IsClock};
ghost use Rattle.reorder_gate.specs.Gates.{StandsFor};
ghost use Rattle.command_reorder.specs.Late.{TakesFed};
ghost use Rattle.command_reorder.specs.LateOutput.{ReadsFed};
ghost use Rattle.command_reorder.specs.Gated.{feed_at, HasLetGo, MayGoOn, room_of, turns_of, HasNext};

use crate::feeding::put_line;
use cer_base::steps::Steps;
use cer_base::{Memory, OrMemory};
use cer_outside::Source;
use event_reader::Lines;
use event_run::{RunFault, give_event};
use query_engine::Engine;
use reorder_gate::Gate;
use std::alloc::Global;
use std::sync::ledger::Ledger;
use stream_answers::{Events, Step};
use stream_schema::Schema;

/// The events of the lines of a file by their clocks: each waits in a gate until no earlier one can
/// come.
#[derive(Drop)]
pub struct GatedEvents {
    alloc: Global,
    lines: Lines,
    gate: Gate,
}

impl GatedEvents {
    /// The events of a file of which so many bytes are too many, at its beginning. Their clock is the
    /// attribute of this name, which fits the schema, and an event may come late by `late`.
    pub fn new(
        alloc: Global,
        schema: &Schema,
        clock: &str,
        late: u64,
        most_bytes: u64,
    ) -> Result<GatedEvents, Memory>
        requires { clock_fits schema.now clock.now ≡ true }
        ensures given { IfOk result (λ e. (bytes : List ℕ)
            → HasGiven e.lines bytes (Some bytes) []) }
        ensures budget { IfOk result (λ e. e.lines.budget ≡ most_bytes) }
        ensures open { IfOk result (λ e. e.lines.closed ≡ false) }
        ensures clock { IfOk result (λ e. IsClock schema.now clock.now e.gate.places) }
        ensures late { IfOk result (λ e. e.gate.late ≡ late) }
        ensures going { IfOk result (λ e. e.gate.is_finished ≡ false) }
        ensures none { IfOk result (λ e. e.gate.events ≡ []) }
        ensures stands { IfOk result (λ e. StandsFor e.gate [] []) }
        ensures room { IfOk result (λ e. room_of e < 2 ^ 64) }
    {
        let lines = match Lines::new(alloc, most_bytes) {
            Ok(lines) => lines,
            Err(Memory) => return Err(Memory),
        };
        let gate = match Gate::new(alloc, schema, clock, late) {
            Ok(gate) => gate,
            Err(Memory) => return Err(Memory),
        };
        Ok(GatedEvents { alloc, lines, gate })
    }
}

impl Events for GatedEvents {
    ghost takes = { λ e schema queries earlier bytes events halt.
        TakesFed (feed_at e schema) queries earlier bytes events halt };

    ghost reads = { λ e schema queries earlier left bytes events.
        ReadsFed (feed_at e schema) queries earlier left bytes events };

    ghost gives = { λ e schema queries earlier left bytes events.
        HasLetGo (feed_at e schema) queries earlier e left bytes events };

    ghost goes_on = { λ e schema. MayGoOn schema e };

    ghost room = { λ e. room_of e };

    ghost turns = { λ e. turns_of e };

    ghost asks_nothing = { λ e. HasNext e };

    fn step<Q: Source, L: Ledger>(
        &mut self,
        source: &mut Q,
        engine: &mut Engine,
        steps: &mut Steps<L>,
    ) -> Result<Step, OrMemory<RunFault>> {
        match self.gate.take() {
            Some((line, event)) => match give_event(line, &event, engine, steps) {
                Ok(()) => Ok(Step::Event),
                Err(OrMemory::Memory) => Err(OrMemory::Memory),
                Err(OrMemory::Fault(fault)) => {
                    Err(OrMemory::Fault(RunFault::Event { line, fault }))
                }
            },
            None => {
                if self.gate.is_finished() {
                    return Ok(Step::End);
                }
                let (lines, gate) = (&mut self.lines, &mut self.gate);
                match put_line(self.alloc, lines, gate, engine.schema(), source) {
                    Ok(true) => Ok(Step::Line),
                    Ok(false) => {
                        self.gate.finish();
                        Ok(Step::Line)
                    }
                    Err(stop) => Err(stop),
                }
            }
        }
    }

    fn is_at_hand(&mut self) -> bool {
        self.gate.has_due() || self.gate.is_finished() || self.lines.has_line()
    }
}
