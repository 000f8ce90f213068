//! How many leaves a formula has, counted up to one more than the most.

ghost use Rattle.std.specs.Prelude.{◌≡◌, ℕ, ◌+◌, ◌≤◌, ◌*◌, List};
ghost use Rattle.cel_terms.specs.Checked.{leaf_count, weight};
ghost use Rattle.ceql_parser.specs.LinksAndCounts.{capped, link_leaves, sum_of, product_of};

use cel_terms::{Filter, Formula, Link};
use cer_base::limits::MOST_LEAVES;

/// One more than the most leaves: all that are more count as this.
const CAP: u64 = MOST_LEAVES + 1;

fn capped_sum(a: u64, b: u64) -> u64
    requires { (a ≤ CAP) × (b ≤ CAP) }
    ensures { result ≡ capped (a + b) }
{
    (a + b).min(CAP)
}

fn capped_product(a: u64, b: u64) -> u64
    requires { (a ≤ CAP) × (b ≤ CAP) }
    ensures { result ≡ capped (a * b) }
{
    (a * b).min(CAP)
}

#[cycle(weights)]
fn product_of(filters: &[Filter]) -> u64
    ensures { result ≡ capped (product_of filters.now) }
{
    let mut product = 1;
    for filter in filters {
        product = capped_product(product, weight(filter));
    }
    product
}

#[cycle(weights)]
fn sum_of(filters: &[Filter]) -> u64
    ensures { result ≡ capped (sum_of weight filters.now) }
{
    let mut sum = 0;
    for filter in filters {
        sum = capped_sum(sum, weight(filter));
    }
    sum
}

/// Into how many copies of a formula the filter expands.
#[cycle(weights)]
fn weight(filter: &Filter) -> u64
    ensures { result ≡ capped (weight filter.now) }
{
    match filter {
        Filter::On(_, _) => 1,
        Filter::All(filters) => product_of(filters),
        Filter::Any(filters) => sum_of(filters),
    }
}

#[cycle(leaves)]
fn leaves_of(formulas: &[Formula]) -> u64
    ensures { result ≡ capped (sum_of leaf_count formulas.now) }
{
    let mut sum = 0;
    for formula in formulas {
        sum = capped_sum(sum, leaf_count(formula));
    }
    sum
}

#[cycle(leaves)]
fn leaves_of_links(links: &[Link]) -> u64
    ensures { result ≡ capped (sum_of link_leaves links.now) }
{
    let mut sum = 0;
    for link in links {
        sum = capped_sum(sum, leaf_count(&link.next));
    }
    sum
}

/// How often a type occurs in the formula once its filters are expanded, 2,049 standing for more.
#[cycle(leaves)]
pub fn leaf_count(formula: &Formula) -> u64
    ensures { result ≡ capped (leaf_count formula.now) }
{
    match formula {
        Formula::Of(_) => 1,
        Formula::Chain(parts) => leaves_of(parts),
        Formula::Linked(first, links) => capped_sum(leaf_count(first), leaves_of_links(links)),
        Formula::Either(choices) => leaves_of(choices),
        Formula::Post(base, _) => leaf_count(base),
        Formula::Under(base, filters) => capped_product(leaf_count(base), product_of(filters)),
    }
}
