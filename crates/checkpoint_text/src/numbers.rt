//! The words and numbers of a line.

ghost use Rattle.std.specs.Prelude.{◌≡◌, option_map};
ghost use Rattle.std.specs.Char.{is_ascii_digit};
ghost use Rattle.std.specs.List.{list_all};
ghost use Rattle.checkpoint_text.specs.Numbers.{is_canonical_numeral, number, after_word, two_numbers, counts_of, position_of};

use cer_base::digits::with_digits;
use event_reader::words::cut;

/// No number of several digits begins with it.
pub const ZERO: u8 = b'0';

/// The most positions of a stream: 2 to the 62.
pub const MOST_POSITIONS: u64 = 4611686018427387904;

/// How many positions and events the line tells: `events P K`, K at most P.
pub fn counts_of(text: &[u8]) -> Option<(u64, u64)>
    ensures { result ≡ counts_of text.now }
{
    let words = after_word(b"events", text)?;
    let (positions, count) = cut(words)?;
    two_numbers(positions, count)
}

fn two_numbers(positions: &[u8], count: &[u8]) -> Option<(u64, u64)>
    ensures { result ≡ two_numbers (positions.now, count.now) }
{
    let positions = number(MOST_POSITIONS, positions)?;
    let count = number(positions, count)?;
    Some((positions, count))
}

/// The position that the line tells: `at N`.
pub fn position_of(text: &[u8]) -> Option<u64>
    ensures { result ≡ position_of text.now }
{
    let digits = after_word(b"at", text)?;
    number(MOST_POSITIONS, digits)
}

/// What stands after this word and a blank.
fn after_word<'t>(word: &[u8], text: &'t [u8]) -> Option<&'t [u8]>
    ensures { option_map (λ rest. rest.now) result ≡ after_word word.now text.now }
{
    match cut(text) {
        Some((first, rest)) => { if first == word { Some(rest) } else { None } }
        None => None,
    }
}

/// The number that the digits write, without leading zeros, where it is at most so much.
#[tactic(auto, using(crate::proofs::Spelled::numbered))]
fn number(most: u64, digits: &[u8]) -> Option<u64>
    ensures { result ≡ number most digits.now }
{
    if !is_canonical_numeral(digits) {
        return None;
    }
    with_digits(most, 0, digits)
}

/// Whether these are digits, the first of several not being 0.
fn is_canonical_numeral(digits: &[u8]) -> bool
    ensures { result ≡ is_canonical_numeral digits.now }
{
    match digits.split_first() {
        Some((first, others)) => (others.is_empty() || *first != ZERO) && are_digits(digits),
        None => false,
    }
}

fn are_digits(bytes: &[u8]) -> bool
    ensures { result ≡ list_all is_ascii_digit bytes.now }
{
    bytes.iter().all(|byte| byte.is_ascii_digit())
}
