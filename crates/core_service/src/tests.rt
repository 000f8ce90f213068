//! The example of README.md through a service, and held cursors (`holding`).

ghost use Rattle.std.specs.Prelude.{◌≡◌};

mod holding;

use crate::{AnswerNumbers, Service};
use cer_base::seed::Seed;
use cer_base::steps::{Opening, Steps};
use cer_base::{Memory, OrMemory, Pos};
use std::alloc::Global;
use std::marker::Brand;
use std::sync::ledger::Ledger;
use std::test::*;

const TEXT: &[u8] = b"DECLARE EVENT Login(user STRING, country STRING, granted BOOL, at INT)\
    \nDECLARE EVENT Transfer(user STRING, amount DECIMAL(2), at INT)\
    \nDECLARE STREAM Bank(Login, Transfer)\
    \nSELECT * FROM Bank WHERE Login AS missed ; Login AS again ; Login AS entered ; Transfer\
    \nFILTER missed[granted = FALSE] AND again[granted = FALSE] AND entered[granted = TRUE]\
    \nAND Transfer[amount >= 1000] PARTITION BY [user] WITHIN 10 MINUTES [at]\n";

/// The lines, parted by semicolons. One is empty; the sixth has a value that is no truth value, and
/// with the ninth time falls: each of them comes right the second time.
const LINES: &[u8] = b"Login,ann,DE,true,0;Login,bob,FR,false,5;Login,bob,FR,false,20;;\
    Transfer,ann,19.90,30;Login,bob,US,maybe,65;Login,bob,US,true,65;Transfer,bob,250.00,80;\
    Login,eve,US,false,100;Transfer,bob,4999.00,90;Transfer,bob,4999.00,120;\
    Login,eve,US,true,130;Transfer,eve,3000.00,140;Transfer,bob,1200.00,700";

/// The numbers of the lines that are refused, and those of the one answer.
const WANTED: &[u64] = &[6, 9, 1, 1, 7, 4, 1, 2, 4, 7];

/// Puts the numbers of an answer, and then its positions.
fn put_answer(
    answer: AnswerNumbers,
    positions: &[Pos],
    numbers: &mut Vec<u64>,
) -> Result<(), Memory> {
    let AnswerNumbers {
        query,
        start,
        end,
        count,
    } = answer;
    numbers.extend_from_slice(&[query, start, end, count as u64])?;
    numbers.extend_from_slice(positions)?;
    Ok(())
}

/// Puts the answers that are left, a hundred at most.
fn put_left<L: Ledger>(
    service: &mut Service,
    numbers: &mut Vec<u64>,
    steps: &mut Steps<L>,
) -> Result<(), Memory> {
    for _turn in 0..100 {
        match service.next(steps) {
            Ok(Some(answer)) => put_answer(answer, service.positions(), numbers)?,
            Ok(None) => return Ok(()),
            Err(memory) => return Err(memory),
        }
    }
    Ok(())
}

/// Feeds the line, and puts its answers, or its number where it is refused.
fn put_line<L: Ledger>(
    alloc: Global,
    service: &mut Service,
    line: &[u8],
    numbers: &mut Vec<u64>,
    steps: &mut Steps<L>,
) -> Result<(), Memory> {
    match service.feed(alloc, line, steps) {
        Ok(_) => put_left(service, numbers, steps),
        Err(OrMemory::Fault(refused)) => {
            numbers.push(refused.line)?;
            Ok(())
        }
        Err(OrMemory::Memory) => Err(Memory),
    }
}

fn put_lines<L: Ledger>(
    alloc: Global,
    service: &mut Service,
    numbers: &mut Vec<u64>,
    steps: &mut Steps<L>,
) -> Result<(), Memory> {
    for line in LINES.split(|b| *b == b';') {
        put_line(alloc, service, line, numbers, steps)?;
    }
    Ok(())
}

/// What is played.
#[derive(Drop, Clone, Copy)]
pub enum Play {
    /// The example of README.md.
    Example,
    /// Held cursors.
    Held,
}

fn put_play<L: Ledger>(
    alloc: Global,
    play: Play,
    service: &mut Service,
    numbers: &mut Vec<u64>,
    steps: &mut Steps<L>,
) -> Result<(), Memory> {
    match play {
        Play::Example => put_lines(alloc, service, numbers, steps),
        Play::Held => holding::put_lines(alloc, service, numbers, steps),
    }
}

/// What a service of the play's text gives.
pub fn put_all<L: Ledger>(
    alloc: Global,
    play: Play,
    numbers: &mut Vec<u64>,
    opening: Opening,
) -> Result<(), Memory>
    requires name { opening.name ≡ L.name }
    requires parts { opening.parts ≡ L.parts }
{
    let mut steps: Steps<L> = Steps::start(opening);
    let text = match play {
        Play::Example => TEXT,
        Play::Held => holding::TEXT,
    };
    match Service::open(alloc, Seed::default(), text) {
        Ok(service) => {
            let mut service = service;
            put_play(alloc, play, &mut service, numbers, &mut steps)
        }
        Err(_) => Err(Memory),
    }
}

#[test]
fn the_example_is_answered_in_numbers(rt: HostRuntime) -> Result<(), Memory> {
    let mut numbers = Vec::new(rt.alloc());
    put_all::<Brand>(rt.alloc(), Play::Example, &mut numbers, Opening::new(&rt))?;
    assert_eq!(rt; numbers.as_slice(), WANTED);
    Ok(())
}
