//! By which attributes the rows of a type are indexed, and how finely.
//!
//! What is chosen is no promise: a row that no index has is looked at for each event of its type.

use crate::marks::{LEVELS, is_alike, partings_of};
use crate::parting::{Parting, span_at};
use crate::rows::{IndexedLeaf, LeafRow};
use crate::runs::{Run, runs_of, whole};
use cer_base::Memory;
use std::alloc::Global;
use stream_schema::Attr;

/// Where a type has fewer rows, all of them are looked at.
const FEWEST: usize = 4;

/// The most indexes of a type.
const MOST_INDEXES: usize = 6;

/// How many events lie in each of the two outer spans, and in all others, of those for which a cost is
/// told. Nothing is known of the events, so they are taken to lie outside of what is compared with as
/// often as among it.
const OUTER: u64 = 256;

const INNER: u64 = 512;

/// What a row costs that is looked at for each event.
const ALL: u64 = OUTER + INNER + OUTER;

/// What a row may cost with an index, at most.
const MOST_COST: u64 = ALL - ALL / 8;

/// In how many buckets more than it has runs a row may stand, at most.
const MOST_BUCKETS: u64 = 16;

/// How many rows an index has to spare an event, on the average.
const WORTH: u64 = 3;

/// For how many events the row with these runs would be looked at, with an index of this parting. All,
/// where that would not have it.
fn cost_of(runs: &[Run], parting: &Parting) -> u64 {
    let last_span = parting.count.saturating_sub(1);
    let mut spans: u64 = 0;
    let mut next: u64 = 0;
    let mut outer: u64 = 0;
    for run in runs {
        let first = span_at(parting, run.low).max(next);
        let last = span_at(parting, run.high);
        if first <= last {
            spans = spans.saturating_add((last - first).saturating_add(1));
            next = last.saturating_add(1);
            outer = outer.saturating_add(u64::from(first == 0));
            outer = outer.saturating_add(u64::from(last == last_span));
        }
    }
    if spans > MOST_BUCKETS.saturating_add(runs.len() as u64) {
        return ALL;
    }
    let inner = spans.saturating_sub(outer).saturating_mul(INNER);
    let cost = outer
        .saturating_mul(OUTER)
        .saturating_add(inner.div_ceil(last_span.max(2) - 1));
    if cost > MOST_COST {
        return ALL;
    }
    cost
}

/// What each row of a type would cost, for some partings.
#[derive(Drop)]
struct Costs {
    /// How many rows there are.
    rows: usize,
    /// For each place and each row the costs at each level.
    costs: Vec<u64>,
}

/// Puts in once more the last costs, one for each of so many levels.
fn push_again(costs: &mut Vec<u64>, levels: usize) -> Result<(), Memory> {
    for _level in 0..levels {
        let place = costs.len().saturating_sub(levels);
        let cost = match costs.get(place) {
            Some(cost) => *cost,
            None => ALL,
        };
        costs.push(cost)?;
    }
    Ok(())
}

/// Puts in what the row would cost at each level.
fn push_cost(
    costs: &mut Vec<u64>,
    alloc: Global,
    row: &LeafRow,
    leaves: &[IndexedLeaf],
    levels: &[Parting],
) -> Result<(), Memory> {
    let Some(finest) = levels.first() else {
        return Ok(());
    };
    let runs = runs_of(alloc, row, leaves, finest, &whole(finest.kind))?;
    for level in levels {
        costs.push(cost_of(runs.as_slice(), level))?;
    }
    Ok(())
}

/// Puts in what each row would cost at each level, where `levels` are the partings of one place. Rows of
/// leaves that have the very same tests cost the same.
fn push_costs(
    costs: &mut Vec<u64>,
    alloc: Global,
    rows: &[LeafRow],
    leaves: &[IndexedLeaf],
    levels: &[Parting],
) -> Result<(), Memory> {
    for k in 0..rows.len() {
        if is_alike(rows, k, leaves) {
            push_again(costs, levels.len())?;
        } else {
            push_cost(costs, alloc, &rows[k], leaves, levels)?;
        }
    }
    Ok(())
}

impl Costs {
    /// The costs of the rows for the partings.
    fn of(
        alloc: Global,
        rows: &[LeafRow],
        leaves: &[IndexedLeaf],
        partings: &[Parting],
    ) -> Result<Costs, Memory> {
        let mut costs = Vec::new(alloc);
        for levels in partings.chunks(LEVELS) {
            push_costs(&mut costs, alloc, rows, leaves, levels)?;
        }
        Ok(Costs {
            rows: rows.len(),
            costs,
        })
    }

    /// What the row of this number would cost with an index of the parting of this number.
    fn cost(&self, parting: usize, row: usize) -> u64 {
        let first = (parting / LEVELS).saturating_mul(self.rows);
        let place = first.saturating_add(row).saturating_mul(LEVELS);
        let found = self.costs.get(place.saturating_add(parting % LEVELS));
        match found {
            Some(cost) => *cost,
            None => ALL,
        }
    }

    /// How much less the rows would cost with an index of this parting.
    fn gain(&self, costs: &[u64], parting: usize) -> u64 {
        let mut sum: u64 = 0;
        for k in 0..costs.len() {
            sum = sum.saturating_add(costs[k].saturating_sub(self.cost(parting, k)));
        }
        sum
    }

    /// The number of the parting that spares most of so many, where that is worth it.
    fn best(&self, costs: &[u64], partings: usize) -> Option<usize> {
        let mut most = WORTH.saturating_mul(ALL);
        let mut found = None;
        for k in 0..partings {
            let spared = self.gain(costs, k);
            if spared >= most {
                most = spared.saturating_add(1);
                found = Some(k);
            }
        }
        found
    }

    /// What the rows cost with one index more.
    fn lower(&self, costs: &mut [u64], parting: usize) {
        for k in 0..costs.len() {
            costs[k] = costs[k].min(self.cost(parting, k));
        }
    }

    /// The numbers of those of so many partings that spare most, the best one first.
    fn best_of(&self, alloc: Global, partings: usize) -> Result<Vec<usize>, Memory> {
        let mut numbers = Vec::new(alloc);
        let mut costs = vec![in alloc; ALL; self.rows]?;
        for _round in 0..MOST_INDEXES {
            match self.best(costs.as_slice(), partings) {
                Some(k) => {
                    self.lower(costs.as_mut_slice(), k);
                    numbers.push(k)?;
                }
                None => return Ok(numbers),
            }
        }
        Ok(numbers)
    }

    /// The number of the index that is to have the row, of those chosen: the first one with which it
    /// costs least. Their count where none is.
    fn home(&self, row: usize, numbers: &[usize]) -> usize {
        let mut least = ALL;
        let mut home = numbers.len();
        for index in 0..numbers.len() {
            let cost = self.cost(numbers[index], row);
            if cost < least {
                least = cost;
                home = index;
            }
        }
        home
    }

    /// The numbers of the indexes that are to have the rows.
    fn homes(&self, alloc: Global, numbers: &[usize]) -> Result<Vec<usize>, Memory> {
        let mut homes = Vec::with_capacity(alloc, self.rows)?;
        for row in 0..self.rows {
            homes.push(self.home(row, numbers))?;
        }
        Ok(homes)
    }
}

/// How the indexes of a type are parted, and which of them is to have each of its rows.
#[derive(Drop)]
pub struct Choice {
    pub partings: Vec<Parting>,
    /// For each row the number of its index, or another number where none is to have it.
    pub homes: Vec<usize>,
}

/// The partings of these numbers.
fn picked(alloc: Global, partings: &[Parting], numbers: &[usize]) -> Result<Vec<Parting>, Memory> {
    let mut some = Vec::with_capacity(alloc, numbers.len())?;
    for number in numbers {
        if let Some(parting) = partings.get(*number) {
            some.push(*parting)?;
        }
    }
    Ok(some)
}

/// Those of the numbers whose index is to have a row.
fn used(alloc: Global, numbers: &[usize], homes: &[usize]) -> Result<Vec<usize>, Memory> {
    let mut some = Vec::new(alloc);
    for index in 0..numbers.len() {
        if homes.contains(&index) {
            some.push(numbers[index])?;
        }
    }
    Ok(some)
}

/// Those of the partings that spare most, and where the rows are to stand.
fn choice_of(
    alloc: Global,
    rows: &[LeafRow],
    leaves: &[IndexedLeaf],
    partings: &[Parting],
) -> Result<Choice, Memory> {
    let costs = Costs::of(alloc, rows, leaves, partings)?;
    let best = costs.best_of(alloc, partings.len())?;
    let homes = costs.homes(alloc, best.as_slice())?;
    let numbers = used(alloc, best.as_slice(), homes.as_slice())?;
    Ok(Choice {
        partings: picked(alloc, partings, numbers.as_slice())?,
        homes: costs.homes(alloc, numbers.as_slice())?,
    })
}

/// How the indexes of a type with these attributes and rows are parted, and which of them has which
/// rows.
pub fn chosen(
    alloc: Global,
    rows: &[LeafRow],
    leaves: &[IndexedLeaf],
    attrs: &[Attr],
) -> Result<Choice, Memory> {
    if rows.len() < FEWEST {
        return Ok(Choice {
            partings: Vec::new(alloc),
            homes: Vec::new(alloc),
        });
    }
    let partings = partings_of(alloc, rows, leaves, attrs)?;
    choice_of(alloc, rows, leaves, partings.as_slice())
}

/// Whether the row at this place is to stand in the index of this number.
pub fn is_served(homes: &[usize], place: usize, number: usize) -> bool {
    match homes.get(place) {
        Some(home) => *home == number,
        None => false,
    }
}

/// The numbers of the indexes that are to have the rows which this one does not have.
pub fn homes_left(alloc: Global, homes: &[usize], number: usize) -> Result<Vec<usize>, Memory> {
    let mut left = Vec::new(alloc);
    for home in homes {
        if *home != number {
            left.push(*home)?;
        }
    }
    Ok(left)
}
