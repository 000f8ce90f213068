//! Decimal numbers compared by value.

ghost use Rattle.std.specs.Prelude.{◌≡◌, ℕ, ◌*◌, ◌^◌, ◌<◌};
ghost use Rattle.std.specs.Ordering.{nat_cmp};
ghost use Rattle.stream_schema.specs.Comparing.{number_cmp};

use std::cmp::Ordering;

/// Compares `x` times ten to the power of `places` with `y`.
fn cmp_scaled_to(x: u128, places: u8, y: u64) -> Ordering
    requires { x < 2 ^ 100 }
    ensures { result ≡ nat_cmp (x * 10 ^ places) y }
{
    let target = u128::from(y);
    if places == 0 {
        x.cmp(&target)
    } else if x > target {
        Ordering::Greater
    } else {
        cmp_scaled_to(x * 10, places - 1, y)
    }
}

/// Compares `x` times ten to the power of `p` with `y` times ten to the power of `q`.
fn cmp_scaled(x: u64, p: u8, y: u64, q: u8) -> Ordering
    ensures { result ≡ nat_cmp (x * 10 ^ p) (y * 10 ^ q) }
{
    if q <= p {
        cmp_scaled_to(u128::from(x), p - q, y)
    } else {
        cmp_scaled_to(u128::from(y), q - p, x).reverse()
    }
}

/// Compares `a`, which has `p` decimal places, with `b`, which has `q`, by value.
pub fn cmp_numbers(a: i64, p: u8, b: i64, q: u8) -> Ordering
    ensures { result ≡ number_cmp a p b q }
{
    if a < 0 {
        if b < 0 {
            cmp_scaled(b.unsigned_abs(), p, a.unsigned_abs(), q)
        } else {
            Ordering::Less
        }
    } else if b < 0 {
        Ordering::Greater
    } else {
        cmp_scaled(a.unsigned_abs(), q, b.unsigned_abs(), p)
    }
}
