//! A line with few positions, made in one piece from its end to its front.

ghost use Rattle.std.specs.Prelude.{◌≡◌, ◌+◌, ◌*◌, ◌≤◌, ◌<◌, ◌++◌, ◌∷◌, true, false, length, drop, reverse, decimal};
ghost use Rattle.answer_text.specs.Output.{positions_text, line};

use cer_base::Pos;
use cer_base::bytes::{COMMA, LINE_FEED};
use itoa::write_digits;

/// At most so many positions are few.
pub const FEW: usize = 8;

/// More bytes than a line of few positions has: eleven numbers of at most 20 digits, and 17 others.
pub const ROOM: usize = 240;

/// Puts the byte before the place, and tells where the text begins then.
#[inline(always)]
fn put_byte(buf: &mut [u8], end: usize, byte: u8) -> usize
    requires { (0 < end) × (end ≤ length buf.old) }
    ensures place { result + 1 ≡ end }
    ensures long { length buf.new ≡ length buf.old }
    ensures text { drop result buf.new ≡ byte ∷ drop end buf.old }
{
    buf[end - 1] = byte;
    end - 1
}

/// Puts the number's digits before the place, and tells where the text begins then.
#[inline(always)]
fn put_number(buf: &mut [u8], end: usize, number: u64) -> usize
    requires { (20 ≤ end) × (end ≤ length buf.old) }
    ensures place { (result ≤ end) × (end ≤ result + 20) }
    ensures long { length buf.new ≡ length buf.old }
    ensures text { drop result buf.new ≡ decimal number ++ drop end buf.old }
{
    write_digits(number, buf, end)
}

/// Puts the position before the place, with a comma after it unless it is the last.
#[inline(always)]
fn put_position(buf: &mut [u8], end: usize, position: Pos, is_last: bool) -> usize
    requires { (21 ≤ end) × (end ≤ length buf.old) }
    ensures place { (result ≤ end) × (end ≤ result + 21) }
    ensures long { length buf.new ≡ length buf.old }
    ensures last { is_last ≡ true → drop result buf.new ≡ decimal position ++ drop end buf.old }
    ensures other { is_last ≡ false
        → drop result buf.new ≡ decimal position ++ COMMA ∷ drop end buf.old }
{
    if is_last {
        return put_number(buf, end, position);
    }
    let at = put_byte(buf, end, COMMA);
    put_number(buf, at, position)
}

/// Puts the positions, which are few and given greatest first, before the place in ascending order.
#[inline(always)]
fn put_positions(buf: &mut [u8], end: usize, falling: &[Pos]) -> usize
    requires few { length falling.now ≤ FEW }
    requires room { (21 * FEW ≤ end) × (end ≤ length buf.old) }
    ensures place { (result ≤ end) × (end ≤ result + 21 * length falling.now) }
    ensures long { length buf.new ≡ length buf.old }
    ensures text { drop result buf.new
        ≡ positions_text (reverse falling.now) ++ drop end buf.old }
{
    let mut at = end;
    for k in 0..falling.len() {
        at = put_position(buf, at, falling[k], k == 0);
    }
    at
}

/// Makes the line in a buffer of `ROOM` bytes or more, up to its end, and tells where it begins. The
/// positions are few and given greatest first.
#[inline(always)]
pub fn put_line(buf: &mut [u8], query: u64, start: Pos, end: Pos, falling: &[Pos]) -> usize
    requires few { length falling.now ≤ FEW }
    requires room { ROOM ≤ length buf.old }
    ensures place { result ≤ length buf.new }
    ensures text { drop result buf.new
        ≡ line query end (record { start = start; marks = reverse falling.now }) }
{
    let mut at = buf.len();
    at = put_byte(buf, at, LINE_FEED);
    at = put_byte(buf, at, b'}');
    at = put_positions(buf, at, falling);
    at = put_byte(buf, at, b'{');
    at = put_byte(buf, at, b' ');
    at = put_byte(buf, at, b']');
    at = put_number(buf, at, end);
    at = put_byte(buf, at, COMMA);
    at = put_number(buf, at, start);
    at = put_byte(buf, at, b'[');
    at = put_byte(buf, at, b' ');
    put_number(buf, at, query)
}
