//! Held cursors, over five events of two queries.

use crate::tests::{Play, put_all};
use crate::{AnswerNumbers, HeldFault, HoldFault, MOST_HELD, Service};
use cer_base::steps::{Opening, Steps};
use cer_base::{Memory, Pos};
use std::alloc::Global;
use std::marker::Brand;
use std::sync::ledger::Ledger;
use std::test::*;

pub const TEXT: &[u8] = b"DECLARE EVENT A(n INT)\nDECLARE EVENT B(n INT)\nDECLARE STREAM S(A, B)\
    \nSELECT * FROM S WHERE A ; B WITHIN 2 EVENTS\nSELECT ANY 1 * FROM S WHERE A ; B\n";

/// The lines up to the first answers, and those after them, parted by semicolons.
const FIRST: &[u8] = b"A,1;A,2;B,1";

const LATER: &[u8] = b"A,3;B,2";

/// Five refusals before any event. Two cursors at position 2, and what `next` gives there: two answers of
/// the first query, and one of the second. What each cursor gives in all, two answers, though the events
/// of both are out of the window. A cursor at position 4, and what it gives. The number of the last of 64
/// cursors, how many are held, and the number of the one that comes once one is dropped.
const WANTED: &[u64] = &[
    5, 1, 2, 3, 2, 1, 4, 5, 2, 1, 4, 5, 3, 1, 3, 4, 7, 64, 64, 65,
];

/// How many answers were given, and the sums of their starts, ends and positions.
#[derive(Drop, Clone, Copy)]
struct Sums {
    count: u64,
    starts: u64,
    ends: u64,
    positions: u64,
}

const NONE: Sums = Sums {
    count: 0,
    starts: 0,
    ends: 0,
    positions: 0,
};

/// The sums with one more answer.
fn with_answer(sums: Sums, answer: AnswerNumbers, positions: &[Pos]) -> Sums {
    let mut all = sums.positions;
    for position in positions {
        all = all.wrapping_add(*position);
    }
    Sums {
        count: sums.count.wrapping_add(1),
        starts: sums.starts.wrapping_add(answer.start),
        ends: sums.ends.wrapping_add(answer.end),
        positions: all,
    }
}

/// Looks at the cursor's next answer and pulls it: the sums with it, if there is one more and both calls
/// tell the same.
fn pull_one<L: Ledger>(
    service: &mut Service,
    cursor: u64,
    sums: Sums,
    steps: &mut Steps<L>,
) -> Option<Sums> {
    let told = service.peek_held(cursor, steps);
    match service.pull(cursor, steps) {
        Ok(Some(answer)) => match told {
            Ok(Some(first)) if first == answer => {
                Some(with_answer(sums, answer, service.positions()))
            }
            _ => None,
        },
        _ => None,
    }
}

/// Puts what the cursor has given once it has none left, a hundred answers at most.
fn put_pulled<L: Ledger>(
    service: &mut Service,
    cursor: u64,
    before: Sums,
    numbers: &mut Vec<u64>,
    steps: &mut Steps<L>,
) -> Result<(), Memory> {
    let mut sums = before;
    for _turn in 0..100 {
        match pull_one(service, cursor, sums, steps) {
            Some(more) => sums = more,
            None => break,
        }
    }
    numbers.extend_from_slice(&[sums.count, sums.starts, sums.ends, sums.positions])?;
    Ok(())
}

/// Feeds the lines.
fn feed_all<L: Ledger>(
    alloc: Global,
    service: &mut Service,
    lines: &[u8],
    steps: &mut Steps<L>,
) -> Result<(), Memory> {
    for line in lines.split(|b| *b == b';') {
        match service.feed(alloc, line, steps) {
            Ok(_) => {}
            Err(_) => return Err(Memory),
        }
    }
    Ok(())
}

/// Puts the number of a new cursor over the query, 0 where none is held.
fn put_held<L: Ledger>(
    service: &mut Service,
    query: u64,
    numbers: &mut Vec<u64>,
    steps: &mut Steps<L>,
) -> Result<(), Memory> {
    numbers.push(service.hold(query, steps).unwrap_or(0))?;
    Ok(())
}

/// Puts how many refusals are told before any event.
fn put_refusals<L: Ledger>(
    service: &mut Service,
    numbers: &mut Vec<u64>,
    steps: &mut Steps<L>,
) -> Result<(), Memory> {
    let below = matches!(service.hold(0, steps), Err(HoldFault::NoQuery));
    let above = matches!(service.hold(3, steps), Err(HoldFault::NoQuery));
    let early = matches!(service.hold(1, steps), Err(HoldFault::NoEventYet));
    let unheld = matches!(service.pull(1, steps), Err(HeldFault::NotHeld));
    let kept = !service.drop_held(1);
    numbers.push(
        u64::from(below)
            + u64::from(above)
            + u64::from(early)
            + u64::from(unheld)
            + u64::from(kept),
    )?;
    Ok(())
}

/// Puts how many answers `next` gives, a hundred at most.
fn put_count<L: Ledger>(
    service: &mut Service,
    numbers: &mut Vec<u64>,
    steps: &mut Steps<L>,
) -> Result<(), Memory> {
    let mut count = 0;
    for turn in 0..100 {
        match service.next(steps) {
            Ok(Some(_)) => count = turn + 1,
            _ => break,
        }
    }
    numbers.push(count)?;
    Ok(())
}

/// Holds cursors until too many are held, drops one, and holds another. Puts the number of the last one
/// before, how many are held, and the number of the one after.
fn put_many<L: Ledger>(
    service: &mut Service,
    numbers: &mut Vec<u64>,
    steps: &mut Steps<L>,
) -> Result<(), Memory> {
    let mut last = 0;
    for _turn in 0..MOST_HELD {
        match service.hold(1, steps) {
            Ok(number) => last = number,
            Err(HoldFault::TooMany) => break,
            Err(_) => return Err(Memory),
        }
    }
    numbers.push(last)?;
    numbers.push(service.held() as u64)?;
    service.drop_held(2);
    put_held(service, 1, numbers, steps)
}

/// Plays the lines.
pub fn put_lines<L: Ledger>(
    alloc: Global,
    service: &mut Service,
    numbers: &mut Vec<u64>,
    steps: &mut Steps<L>,
) -> Result<(), Memory> {
    put_refusals(service, numbers, steps)?;
    feed_all(alloc, service, FIRST, steps)?;
    put_held(service, 1, numbers, steps)?;
    put_held(service, 2, numbers, steps)?;
    let sums = pull_one(service, 1, NONE, steps).unwrap_or(NONE);
    put_count(service, numbers, steps)?;
    feed_all(alloc, service, LATER, steps)?;
    service.compact(steps)?;
    put_pulled(service, 1, sums, numbers, steps)?;
    put_pulled(service, 2, NONE, numbers, steps)?;
    put_held(service, 1, numbers, steps)?;
    put_pulled(service, 3, NONE, numbers, steps)?;
    put_many(service, numbers, steps)
}

#[test]
fn held_cursors_give_their_answers_after_later_events(rt: HostRuntime) -> Result<(), Memory> {
    let mut numbers = Vec::new(rt.alloc());
    put_all::<Brand>(rt.alloc(), Play::Held, &mut numbers, Opening::new(&rt))?;
    assert_eq!(rt; numbers.as_slice(), WANTED);
    Ok(())
}
