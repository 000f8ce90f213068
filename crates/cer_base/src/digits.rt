//! Reading decimal digits, up to the whole numbers of signed 64 bits.

ghost use Rattle.cer_base.specs.Digits.{farthest, read_on};
ghost use Rattle.std.specs.Prelude.{◌≡◌, ◌+◌, ◌-◌, ◌*◌, ◌<◌, ◌≤◌, if◌then◌else◌, MatchOption, neg_ℤ, pos};

/// The value with these digits put after its own, where that is at most the limit.
pub fn with_digits(limit: u64, start: u64, digits: &[u8]) -> Option<u64>
    requires { start ≤ limit }
    ensures { MatchOption result (limit < read_on start digits.now)
        (λ x. (x ≡ read_on start digits.now) × (x ≤ limit)) }
{
    let mut value = start;
    for digit in digits {
        match with_digit(limit, value, *digit) {
            None => return None,
            Some(more) => value = more,
        }
    }
    Some(value)
}

/// The value with the digit put after its own, where that is at most the limit.
pub fn with_digit(limit: u64, value: u64, digit: u8) -> Option<u64>
    ensures { MatchOption result (limit < value * 10 + (digit - 48))
        (λ x. (x ≡ value * 10 + (digit - 48)) × (x ≤ limit)) }
{
    let value = value
        .checked_mul(10)?
        .checked_add(u64::from(digit.saturating_sub(48)))?;
    if value <= limit { Some(value) } else { None }
}

/// How far from 0 a whole number of signed 64 bits may be, on that side of 0.
pub fn farthest(negative: bool) -> u64
    ensures { result ≡ farthest negative }
{
    if negative {
        9_223_372_036_854_775_808
    } else {
        9_223_372_036_854_775_807
    }
}

/// The number that is so far from 0, on that side of it.
pub fn with_sign(negative: bool, magnitude: u64) -> i64
    requires { magnitude ≤ farthest negative }
    ensures { result ≡ (if negative then neg_ℤ (pos magnitude) else pos magnitude) }
{
    if negative {
        (-i128::from(magnitude)) as i64
    } else {
        magnitude as i64
    }
}
