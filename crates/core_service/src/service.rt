//! A service: an engine, the lines that it has taken, the answers at the last position, and the cursors
//! that are held.

ghost use Rattle.std.specs.Prelude.{◌≡◌, ◌+◌, ◌^◌, ◌<◌, ◌≤◌, false, List, length, All, Err, IfOk, OnOk, OnErr, IfSome, IfNone};
ghost use Rattle.cer_base.specs.Answers.{OnFault};
ghost use Rattle.cer_base.specs.declared.OrMemory.TheVariants as or;
ghost use Rattle.cel_terms.specs.Checked.{IsChecked};
ghost use Rattle.ceql_parser.specs.QueryTexts.{IsAnswerOfText};
ghost use Rattle.event_reader.specs.Lines.{has_line_feed};
ghost use Rattle.query_engine.specs.Bounds.{update_bound};
ghost use Rattle.query_engine.specs.Engine.{KeepsCursors, IsNumber, count_of, found_of, update_bounds};
ghost use Rattle.core_service.specs.ManyLines.{IsNext, HasFedSome, some_stop};
ghost use Rattle.core_service.specs.Compacting.{IsCompacted, AreSizesOf};
ghost use Rattle.core_service.specs.Services.{IsNewOf, IsOpened, IsGiven, IsFed, IsLooked, IsAnswered, GivesDrawn};

use crate::answering::{PositionAnswers, may_answer};
use crate::held::HeldCursors;
use crate::lines::{has_line_feed, line_len};
use crate::{AnswerNumbers, Fed, FedSome, LineRefusal, Refused, Sizes, SomeStop};
use ceql_parser::{Accepted, QueryError, read_queries};
use cer_base::limits::LONGEST_LINE;
use cer_base::seed::Seed;
use cer_base::steps::Steps;
use cer_base::{Memory, OrMemory, Pos};
use event_reader::{EventBuffer, EventFault};
use event_run::give_event;
use query_engine::Engine;
use std::alloc::Global;
use std::marker::Model;
use std::sync::ledger::Ledger;

mod holding;

/// The most lines that a service takes: 2 to the 62.
pub const MOST_LINES: u64 = 4_611_686_018_427_387_904;

/// An engine that takes lines and gives answers.
#[derive(Drop)]
pub struct Service {
    engine: Engine,
    /// The event of the line that was read last.
    row: EventBuffer,
    /// How many lines were taken.
    lines: u64,
    /// What is left to be given at the last position.
    answers: PositionAnswers,
    /// The cursors that the caller holds.
    held: HeldCursors,
}

impl Model for Service {
    ghost use Rattle.std.specs.Prelude.{◌≤◌, All};
    ghost use Rattle.std.specs.Coded.{codes};
    ghost use Rattle.cel_terms.specs.contracts.Formula as formula;
    ghost use Rattle.query_engine.specs.Engine.{Fits, count_of};
    ghost use Rattle.core_service.specs.Answering.{CanAnswer};
    ghost use Rattle.core_service.specs.ManyLines.{IsNext, HasFedSome, some_stop};
    ghost use Rattle.core_service.specs.Compacting.{IsCompacted, AreSizesOf};
    ghost use Rattle.core_service.specs.Services.{ServiceState};

    ghost Value = { ServiceState };

    ghost coded = { Prim.hlevel (codes, formula.the_row.coded) };

    ghost view = { λ s. record {
      engine = s.engine;
      lines = s.lines;
      answers = s.answers;
      held = s.held;
    } };

    ghost invariant = { λ s. CanAnswer s.engine s.answers × (count_of s.engine ≤ s.lines)
        × (s.lines ≤ 4611686018427387904) × All (Fits s.engine) s.held.cursors };
}

impl Service {
    /// A service for the queries of the text, which took no line. No answer depends on the seed.
    ///
    /// The fault is the text's first one, with its place; or memory ran out.
    pub fn open(alloc: Global, seed: Seed, text: &[u8]) -> Result<Service, OrMemory<QueryError>>
        ensures opened { IfOk result (IsOpened text.now) }
        ensures refused { OnFault result (λ error. IsAnswerOfText text.now (Err error)) }
    {
        match read_queries(alloc, text) {
            Ok(accepted) => Service::of_accepted(alloc, seed, accepted),
            Err(stop) => Err(stop),
        }
    }

    /// A service over no events for what a text declares and asks.
    fn of_accepted(
        alloc: Global,
        seed: Seed,
        accepted: Accepted,
    ) -> Result<Service, OrMemory<QueryError>>
        requires checked { All (IsChecked accepted.schema) accepted.queries }
        ensures new { IfOk result (IsNewOf accepted.schema accepted.queries) }
        ensures faultless { OnFault result (λ error. ⊥) }
    {
        let count = accepted.queries.as_slice().len() as u64;
        match Engine::seeded(alloc, seed, accepted.schema, accepted.queries) {
            Ok(engine) => Ok(Service {
                engine,
                row: EventBuffer::new(alloc),
                lines: 0,
                answers: PositionAnswers::after(alloc, count),
                held: HeldCursors::new(alloc),
            }),
            Err(_) => Err(OrMemory::Memory),
        }
    }

    /// Takes the line, which is given without its line feed, as the next one. After an error nothing
    /// has changed.
    ///
    /// Once an event is taken, what was left to be given before it is dropped, and its own answers are
    /// left. An empty line gives no event, and leaves what was left. Held cursors have the same left.
    ///
    /// - `LineFeed`: the bytes hold a line feed.
    /// - `LineTooLong`: they are more than 65,536.
    /// - `BadLine`, `OpenQuote`, `UnknownType`, `FieldCount`, `BadValue`: they give no event.
    /// - `TimeBack`: with the event the clock of a query would fall.
    /// - Memory ran out, or 2^62 lines were taken.
    pub fn feed<L: Ledger>(
        &mut self,
        alloc: Global,
        line: &[u8],
        steps: &mut Steps<L>,
    ) -> Result<Fed, OrMemory<Refused>>
        ensures fed { IsFed line.now self.old self.new result }
        ensures steps { OnOk result (steps.new ≤ steps.old + update_bounds self.new.engine) }
    {
        if has_line_feed(line) {
            return Err(refused(self.lines + 1, LineRefusal::LineFeed));
        }
        self.feed_line(alloc, line, steps)
    }

    /// Takes the line, which has no line feed, as `feed` does.
    fn feed_line<L: Ledger>(
        &mut self,
        alloc: Global,
        line: &[u8],
        steps: &mut Steps<L>,
    ) -> Result<Fed, OrMemory<Refused>>
        requires { has_line_feed line.now ≡ false }
        ensures fed { IsFed line.now self.old self.new result }
        ensures steps { OnOk result (steps.new ≤ steps.old + update_bounds self.new.engine) }
    {
        if self.lines >= MOST_LINES {
            return Err(OrMemory::Memory);
        }
        let number = self.lines + 1;
        if line.len() > LONGEST_LINE {
            return Err(refused(number, LineRefusal::Event(EventFault::LineTooLong)));
        }
        match give_line(alloc, number, line, &mut self.row, &mut self.engine, steps) {
            Ok(Fed::Event) => {
                self.answers.begin();
                self.lines = number;
                Ok(Fed::Event)
            }
            Ok(Fed::Nothing) => {
                self.lines = number;
                Ok(Fed::Nothing)
            }
            Err(OrMemory::Memory) => Err(OrMemory::Memory),
            Err(OrMemory::Fault(fault)) => Err(refused(number, LineRefusal::Event(fault))),
        }
    }

    /// Takes the line, which has no line feed, and says whether its event may have an answer.
    fn feed_next<L: Ledger>(
        &mut self,
        alloc: Global,
        line: &[u8],
        steps: &mut Steps<L>,
    ) -> Result<bool, OrMemory<Refused>>
        requires { has_line_feed line.now ≡ false }
        ensures { IsNext line.now self.old self.new result }
    {
        match self.feed_line(alloc, line, steps) {
            Ok(Fed::Event) => {}
            Ok(Fed::Nothing) => return Ok(false),
            Err(stop) => return Err(stop),
        }
        Ok(may_answer(&self.engine))
    }

    /// Takes whole lines of the bytes, one after another as `feed` does, up to and with the first
    /// event that may have an answer. The bytes after the last line feed are no line yet.
    ///
    /// Events that have none are taken with no call for each: so a caller whose bytes come in pieces
    /// gives what it has, asks for answers where one may be, and gives what was not used again, with
    /// more behind it. After a refusal the bytes that were not used begin with the refused line.
    pub fn feed_some<L: Ledger>(
        &mut self,
        alloc: Global,
        bytes: &[u8],
        steps: &mut Steps<L>,
    ) -> FedSome
        ensures { HasFedSome bytes.now self.old self.new result }
    {
        let mut used = 0;
        while let Some(len) = line_len(&bytes[used..]) {
            let rest = &bytes[used..];
            match self.feed_next(alloc, &rest[..len], steps) {
                Ok(false) => used += len + 1,
                Ok(true) => {
                    return FedSome {
                        used: used + len + 1,
                        stop: SomeStop::MayAnswer,
                    };
                }
                Err(stop) => {
                    return FedSome {
                        used,
                        stop: some_stop(stop),
                    };
                }
            }
        }
        FedSome {
            used,
            stop: SomeStop::End,
        }
    }

    /// The answer that is given next, and `positions` has its positions: it stays the next one until
    /// `advance` or `next`. None where no answer is left. After `Memory` the same are left.
    pub fn peek<L: Ledger>(&mut self, steps: &mut Steps<L>) -> Result<Option<AnswerNumbers>, Memory>
        ensures { IsLooked self.old self.new result }
    {
        self.answers.look(&self.engine, steps)
    }

    /// Gives the answer that `peek` told, if it told one: it is not left any more. Its positions stay.
    pub fn advance(&mut self)
        ensures drawn { GivesDrawn self.old self.new }
        ensures positions { self.new.answers.positions ≡ self.old.answers.positions }
    {
        self.answers.give();
    }

    /// Gives the next answer, and `positions` has its positions. None where no answer is left. After
    /// `Memory` the same are left.
    ///
    /// The answers are those that end at the last event: query by query, and of a query as they are
    /// found. A query that asks for ANY so many gives that many, or all that there are.
    pub fn next<L: Ledger>(&mut self, steps: &mut Steps<L>) -> Result<Option<AnswerNumbers>, Memory>
        ensures { IsAnswered self.old self.new result }
    {
        match self.peek(steps) {
            Ok(Some(numbers)) => {
                self.advance();
                Ok(Some(numbers))
            }
            Ok(None) => Ok(None),
            Err(memory) => Err(memory),
        }
    }

    /// Gives up what no window reaches any more, and no answer: the same are left, at the last position and
    /// of each held cursor. After `Memory` nothing has changed.
    pub fn compact<L: Ledger>(&mut self, steps: &mut Steps<L>) -> Result<(), Memory>
        ensures compacted { OnOk result (IsCompacted self.old self.new) }
        ensures unchanged { OnErr result (self.new ≡ self.old) }
    {
        self.held
            .compact(&mut self.engine, &mut self.answers, steps)
    }

    /// What is kept of the query of this number, from 1; none where there is no such query.
    pub fn sizes(&self, query: u64) -> Option<Sizes>
        ensures sizes { IfSome result (AreSizesOf self.now.engine query) }
        ensures number { IfSome result (λ sizes. IsNumber self.now.engine query) }
        ensures none { IfNone result (IsNumber self.now.engine query → ⊥) }
    {
        if query == 0 || query > self.engine.queries() {
            return None;
        }
        Some(Sizes {
            events: self.engine.events(),
            queries: self.engine.queries(),
            nodes: self.engine.len(query),
            peak: self.engine.peak(query),
            states: self.engine.found(query),
        })
    }

    /// The marked positions, rising, of the answer that was looked at or given last, until the next call
    /// that looks at one or takes a line.
    pub fn positions(&self) -> &[Pos]
        ensures { result.now ≡ self.now.answers.positions }
    {
        self.answers.positions()
    }
}

/// Why no further line was taken.
fn some_stop(stop: OrMemory<Refused>) -> SomeStop
    ensures { result ≡ some_stop stop }
{
    match stop {
        OrMemory::Fault(refused) => SomeStop::Refused(refused),
        OrMemory::Memory => SomeStop::Memory,
    }
}

/// The refusal of the line of this number.
fn refused(line: u64, refusal: LineRefusal) -> OrMemory<Refused>
    ensures { result ≡ or.Fault (record { line = line; refusal = refusal }) }
{
    OrMemory::Fault(Refused { line, refusal })
}

/// Reads the line of this number, and gives the engine its event, if it has one.
fn give_line<L: Ledger>(
    alloc: Global,
    number: u64,
    line: &[u8],
    row: &mut EventBuffer,
    engine: &mut Engine,
    steps: &mut Steps<L>,
) -> Result<Fed, OrMemory<EventFault>>
    requires line_feed { has_line_feed line.now ≡ false }
    requires room { count_of engine.old + 1 < 2 ^ 64 }
    ensures given { IsGiven line.now number engine.old engine.new result }
    ensures steps { OnOk result (steps.new ≤ steps.old + update_bounds engine.new) }
{
    match row.read(alloc, engine.schema(), line) {
        Ok(true) => match give_event(number, row.event(), engine, steps) {
            Ok(()) => Ok(Fed::Event),
            Err(stop) => Err(stop),
        },
        Ok(false) => Ok(Fed::Nothing),
        Err(stop) => Err(stop),
    }
}
