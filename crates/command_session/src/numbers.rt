//! The numbers of a command.

ghost use Rattle.std.specs.Prelude.{◌≡◌, ◌<◌, ◌≤◌, ◌^◌, length, true};
ghost use Rattle.std.specs.Option.{SomeIff};
ghost use Rattle.std.specs.Str.{all_ascii_digits};
ghost use Rattle.std.specs.Str.Parse.{digits_value};
ghost use Rattle.command_session.specs.Numbers.{command_number, one_of};

/// A number has at most so many digits.
pub const MOST_DIGITS: usize = 10;

/// The greatest number of a cursor.
pub const MOST_CURSORS: u64 = 64;

/// The greatest number of answers that one command takes.
pub const MOST_PULLED: u64 = 4294967295;

/// The number that one to ten digits write.
#[tactic(auto, using(crate::proofs::Digits::numbered))]
pub fn command_number(digits: &[u8]) -> Option<u64>
    ensures { result ≡ command_number digits.now }
{
    if digits.is_empty() || digits.len() > MOST_DIGITS {
        return None;
    }
    value_of(digits)
}

/// The number that the digits write, where it is from 1 to so many.
pub fn one_of(most: u64, digits: &[u8]) -> Option<u64>
    ensures { result ≡ one_of most digits.now }
{
    match command_number(digits) {
        Some(n) => { if 1 <= n && n <= most { Some(n) } else { None } }
        None => None,
    }
}

/// The number that the digits write, where they are digits and it is below 2 to the 64.
#[tactic(auto, using(event_reader::proofs::Digits::value_step, event_reader::proofs::Digits::value_bound, event_reader::proofs::Digits::digits_step, event_reader::proofs::Digits::value_end, event_reader::proofs::Digits::digits_end))]
fn value_of(digits: &[u8]) -> Option<u64>
    ensures { SomeIff result ((all_ascii_digits digits.now ≡ true)
        × (digits_value 10 digits.now < 2 ^ 64)) (digits_value 10 digits.now) }
{
    let mut sum: u64 = 0;
    for digit in digits {
        if !digit.is_ascii_digit() {
            return None;
        }
        let Some(tens) = sum.checked_mul(10) else {
            return None;
        };
        let Some(more) = tens.checked_add((*digit - b'0') as u64) else {
            return None;
        };
        sum = more;
    }
    Some(sum)
}
